//! The least of some places.
ghost use Rattle.std.specs.Prelude.{◌≡◌};
ghost use Rattle.cc_audit.specs.Least.{sooner_of, or_fault_of};

use crate::Verdict;

/// The lesser of two places, or the one that there is.
pub fn sooner(a: Option<u64>, b: Option<u64>) -> Option<u64>
    ensures { result ≡ sooner_of a b }
{
    match (a, b) {
        (Some(x), Some(y)) => Some(x.min(y)),
        (Some(x), None) => Some(x),
        (None, b) => b,
    }
}

/// The verdict, or a fault of a further kind if that has a lesser place.
pub fn or_fault(verdict: Verdict, kind: u8, place: Option<u64>) -> Verdict
    ensures { result ≡ or_fault_of verdict kind place }
{
    match (verdict, place) {
        (Verdict::Clean, Some(place)) => Verdict::Fault { kind, place },
        (Verdict::Fault { place: found, .. }, Some(place)) if place < found => {
            Verdict::Fault { kind, place }
        }
        (verdict, _) => verdict,
    }
}
