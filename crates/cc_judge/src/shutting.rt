//! The time by which the queue was closed: sends that were accepted were done by then.
ghost use Rattle.std.specs.Prelude.{IfSome, IfNone};
ghost use Rattle.cc_judge.specs.Faults.{WasClosed};
ghost use Rattle.cc_judge.specs.Sweeps.{EndsAt, IsShutAt, IsDone, IsSooner};

use crate::faults::shows_closed;
use crate::table::call_at;
use crate::{Call, Rules};

/// The call that shows first that the queue is closed: of those that returned the one that ended first.
#[derive(Clone, Copy, Drop)]
pub struct Shut {
    /// The place of the call.
    pub call: usize,
    /// The time at which it ended.
    pub time: u64,
}

/// When the call at this place ended, if it returned and shows that the queue is closed.
fn shown_at(calls: &[Call], place: usize) -> Option<u64>
    ensures closed { IfSome result (λ t. WasClosed calls.now place) }
    ensures ended { IfSome result (EndsAt calls.now place) }
    ensures others { IfNone result (WasClosed calls.now place → ⊥) }
{
    let call = call_at(calls, place)?;
    if shows_closed(call.act) {
        call.end
    } else {
        None
    }
}

/// Of two such calls the one that ended first.
fn sooner(first: Option<Shut>, other: Shut) -> Shut
    ensures { IsSooner first other result }
{
    match first {
        Some(one) if one.time <= other.time => one,
        _ => other,
    }
}

/// The call that shows first that the queue is closed, if closes are judged.
pub fn shut_of(rules: &Rules, calls: &[Call]) -> Option<Shut>
    ensures { IsShutAt rules.now calls.now result }
{
    if !rules.closes {
        return None;
    }
    let mut first = None;
    for place in 0..calls.len() {
        if let Some(time) = shown_at(calls, place) {
            first = Some(sooner(first, Shut { call: place, time }));
        }
    }
    first
}

/// When a send that was accepted and ended at this time was done.
pub fn done(end: u64, shut: Option<Shut>) -> u64
    ensures { IsDone end shut result }
{
    match shut {
        Some(shut) if shut.time <= end => shut.time,
        _ => end,
    }
}
