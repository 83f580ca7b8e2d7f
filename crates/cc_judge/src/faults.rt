//! The acts of the calls of a log.
ghost use Rattle.std.specs.Prelude.{◌≡◌, ℕ, IsTrue, IsFalse, IfSome, IfNone};
ghost use Rattle.cc_judge.specs.Names.{Call, Act};
ghost use Rattle.cc_judge.specs.Order.{EndsBefore};
ghost use Rattle.cc_judge.specs.Faults.{Did, Returned, BeganAfter, ShowsClosed};

use crate::table::call_at;
use crate::{Act, Call};

/// The places at which each item of a log was sent and taken.
#[derive(Drop)]
pub struct Index {
    /// Of each item the place of its send, if there is one.
    pub sends: Vec<Option<u32>>,
    /// Of each item the place of its take, if there is one.
    pub takes: Vec<Option<u32>>,
}

/// The item that the call at this place sent.
pub fn sent(calls: &[Call], place: usize) -> Option<u32>
    ensures { IfSome result (λ item. Did calls.now place (Act.Send item)) }
{
    match call_at(calls, place)?.act {
        Act::Send(item) => Some(item),
        _ => None,
    }
}

/// The item that the call at this place took, if it returned.
pub fn taken(calls: &[Call], place: usize) -> Option<u32>
    ensures some { IfSome result (λ item. Returned calls.now place (Act.Took item)) }
    ensures none { IfNone result ((item : ℕ) → Returned calls.now place (Act.Took item) → ⊥) }
{
    let call = call_at(calls, place)?;
    match (call.act, call.end) {
        (Act::Took(item), Some(_)) => Some(item),
        _ => None,
    }
}

/// Whether the call at one place ended before the call at the other began.
pub fn ends_before(calls: &[Call], first: usize, second: usize) -> bool
    ensures before { IsTrue result → EndsBefore calls.now first second }
    ensures others { IsFalse result → EndsBefore calls.now first second → ⊥ }
{
    match (call_at(calls, first), call_at(calls, second)) {
        (Some(one), Some(other)) => match one.end {
            Some(end) => end < other.begin,
            None => false,
        },
        _ => false,
    }
}

/// Whether the call at this place began after a time.
pub fn began_after(calls: &[Call], place: usize, time: u64) -> bool
    ensures after { IsTrue result → BeganAfter calls.now place time }
    ensures others { IsFalse result → BeganAfter calls.now place time → ⊥ }
{
    match call_at(calls, place) {
        Some(call) => time < call.begin,
        None => false,
    }
}

/// Whether an act closes the queue, or answers that it is closed.
pub fn shows_closed(act: Act) -> bool
    ensures shows { IsTrue result → ShowsClosed act }
    ensures others { IsFalse result → ShowsClosed act → ⊥ }
{
    matches!(act, Act::Close | Act::Closed | Act::Ended)
}
