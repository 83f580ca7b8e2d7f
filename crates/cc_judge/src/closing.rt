//! The faults of closes: each is found, or there is none.
ghost use Rattle.std.specs.Prelude.{◌≡◌, ◌≤◌, ◌<◌, ℕ, IsTrue, IsFalse, IfSome, IfNone, Some};
ghost use Rattle.cc_judge.specs.Names.{Call, Act, Rules};
ghost use Rattle.cc_judge.specs.Faults.{Did, BeganBy, BeganAfter, WasOpen};
ghost use Rattle.cc_judge.specs.Table.{IsIndex};
ghost use Rattle.cc_judge.specs.Faultless.{IsWritten};
ghost use Rattle.cc_judge.specs.Sweeps.{IsShutAt, KeepsClosed};
ghost use Rattle.cc_judge.specs.Verdict.{Stands};

use crate::decide::Fault;
use crate::faults::{Index, began_after};
use crate::shutting::Shut;
use crate::table::{call_at, place_in};
use crate::{Act, Call};

/// Whether the call at this place is a close that began by a time.
fn closes_by(calls: &[Call], place: usize, time: u64) -> bool
    ensures close { IsTrue result → Did calls.now place Act.Close }
    ensures begun { IsTrue result → BeganBy calls.now place time }
    ensures others { IsFalse result → Did calls.now place Act.Close → BeganAfter calls.now place time }
{
    match call_at(calls, place) {
        Some(call) => matches!(call.act, Act::Close) && call.begin <= time,
        None => false,
    }
}

/// The first close that began by a time.
fn close_by(calls: &[Call], time: u64) -> Option<usize>
    ensures close { IfSome result (λ p. Did calls.now p Act.Close) }
    ensures begun { IfSome result (λ p. BeganBy calls.now p time) }
    ensures none { IfNone result ((p : ℕ) → Did calls.now p Act.Close → BeganAfter calls.now p time) }
{
    for place in 0..calls.len() {
        if closes_by(calls, place, time) {
            return Some(place);
        }
    }
    None
}

/// Whether the call at this place is a send that found the queue open.
fn was_open(calls: &[Call], index: &Index, send: usize) -> bool
    requires index { IsIndex calls.now index.now }
    requires written { IsWritten calls.now }
    ensures open { IsTrue result → WasOpen calls.now send }
    ensures others { IsFalse result → WasOpen calls.now send → ⊥ }
{
    match call_at(calls, send) {
        Some(call) => match call.act {
            Act::Full => call.end.is_some(),
            Act::Send(item) => match call.end {
                Some(_) => true,
                None => place_in(&index.takes, item).is_some(),
            },
            _ => false,
        },
        None => false,
    }
}

/// The first send that found the queue open and began after a time.
fn open_after(calls: &[Call], index: &Index, time: u64) -> Option<usize>
    requires index { IsIndex calls.now index.now }
    requires written { IsWritten calls.now }
    ensures open { IfSome result (WasOpen calls.now) }
    ensures after { IfSome result (λ p. BeganAfter calls.now p time) }
    ensures none { IfNone result ((p : ℕ) → WasOpen calls.now p → BeganAfter calls.now p time → ⊥) }
{
    for send in 0..calls.len() {
        if began_after(calls, send, time) && was_open(calls, index, send) {
            return Some(send);
        }
    }
    None
}

/// That a call found the queue closed too early, or open after it was closed.
pub fn close_fault(calls: &[Call], index: &Index, shut: Option<Shut>) -> Option<Fault>
    requires index { IsIndex calls.now index.now }
    requires written { IsWritten calls.now }
    ensures some { IfSome result (λ fault. (rules : Rules) → IsShutAt rules calls.now shut → Stands rules calls.now fault) }
    ensures none { IfNone result ((rules : Rules) → IsShutAt rules calls.now shut → KeepsClosed rules calls.now) }
{
    let Shut { call, time } = shut?;
    if close_by(calls, time).is_none() {
        return Some(Fault::ClosedEarly { call });
    }
    match open_after(calls, index, time) {
        Some(send) => Some(Fault::Reopened { closed: call, send }),
        None => None,
    }
}
