//! Faults that the places alone show, of the places on all send receipts or on all take receipts, in order.
ghost use Rattle.std.specs.Prelude.{◌≡◌, ℕ, ◌≤◌, ◌<◌, ◌==◌, ◌⊎◌, Contains, Any, IfOk, IfSome, IsSomeAnd, IsPermutation, count_by};
ghost use Rattle.std.specs.List.Sorted.{IsNonDecreasing};
ghost use Rattle.cc_audit.specs.Least.{IsLeast};

use crate::least::sooner;
use std::alloc::AllocError;

/// The places in order.
pub fn sorted(places: Vec<u64>) -> Result<Vec<u64>, AllocError>
    ensures order { IfOk result (λ v. IsNonDecreasing v.items) }
    ensures same { IfOk result (λ v. IsPermutation places.items v.items) }
{
    let mut places = places;
    places.sort()?;
    Ok(places)
}

/// The least place that occurs twice.
pub fn first_double(places: &[u64]) -> Option<u64>
    requires { IsNonDecreasing places.now }
    ensures { IsLeast (λ p. 2 ≤ count_by (λ x. x == p) places.now) result }
{
    for i in 1..places.len() {
        let place = places[i];
        if place == places[i - 1] {
            return Some(place);
        }
    }
    None
}

/// The least place that was taken and not sent.
pub fn first_stranger(sent: &[u64], taken: &[u64]) -> Option<u64>
    requires sent_order { IsNonDecreasing sent.now }
    requires taken_order { IsNonDecreasing taken.now }
    ensures { IsLeast (λ p. Contains taken.now p × (Contains sent.now p → ⊥)) result }
{
    for place in taken {
        if sent.binary_search(place).is_err() {
            return Some(*place);
        }
    }
    None
}

/// The least place that was not taken, if a greater one was.
pub fn first_gap(taken: &[u64]) -> Option<u64>
    requires { IsNonDecreasing taken.now }
    ensures { IsLeast (λ p. (Contains taken.now p → ⊥) × Any (λ x. p < x) taken.now) result }
{
    let mut next = 0;
    for place in taken {
        if next < *place {
            return Some(next);
        }
        if *place == u64::MAX {
            return None;
        }
        next = *place + 1;
    }
    None
}

/// The least place from a bound on.
fn first_from(places: &[u64], bound: u64) -> Option<u64>
    requires { IsNonDecreasing places.now }
    ensures { IsLeast (λ p. Contains places.now p × (bound ≤ p)) result }
{
    for place in places {
        if bound <= *place {
            return Some(*place);
        }
    }
    None
}

/// The least place, sent or taken, that isn't below the total.
pub fn first_overrun(sent: &[u64], taken: &[u64], total: Option<u64>) -> Option<u64>
    requires sent_order { IsNonDecreasing sent.now }
    requires taken_order { IsNonDecreasing taken.now }
    ensures { IsLeast (λ p. IsSomeAnd total (λ n. n ≤ p) × (Contains sent.now p ⊎ Contains taken.now p)) result }
{
    let total = total?;
    sooner(first_from(sent, total), first_from(taken, total))
}
