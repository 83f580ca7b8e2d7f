//! Whether more items were in the queue for certain than it holds.
//!
//! At a time those items are in the queue whose sends had ended and whose takes hadn't begun. Of the items that no call took, takes
//! that had begun and haven't returned may have some: so the lesser of these two numbers doesn't count. The number of items grows only
//! when a send ends. So it is taken at the end of each send, in O(n log n).
ghost use Rattle.std.specs.Prelude.{◌≡◌, ◌+◌, ◌<◌, ◌≤◌, ℕ, List, IsTrue, IsFalse, IfOk, IfSome, IfNone, Some};
ghost use Rattle.cc_judge.specs.Names.{Call, Rules};
ghost use Rattle.cc_judge.specs.Faults.{MoreAt};
ghost use Rattle.cc_judge.specs.Faultless.{IsWritten};
ghost use Rattle.cc_judge.specs.Room.{AreAll, AreHeld, IsCrowd, ItemsFit, Remains, RemainsIf};
ghost use Rattle.cc_judge.specs.Table.{IsIndex};
ghost use Rattle.cc_judge.specs.Verdict.{Stands};

use crate::decide::Fault;
use crate::faults::Index;
use crate::lists::{ByTime, Known, by_time, gone_since, sent_since, upto};
use crate::room::capacity_of;
use crate::{Call, Rules};
use std::alloc::{AllocError, Global};

/// The calls of a log by which it is known how many items are in the queue for certain.
#[derive(Drop)]
pub struct Held {
    /// The sends, by their ends.
    pub sent: ByTime,
    /// Those whose items were taken, by the times at which they had ended and the takes had begun.
    pub gone: ByTime,
    /// Those whose items no call took, by their ends.
    pub left: ByTime,
    /// The takes that haven't returned, by their begins.
    pub waits: ByTime,
}

/// Whether a number is more than two together.
fn is_more(number: usize, one: usize, other: usize) -> bool
    ensures more { IsTrue result → one + other < number }
    ensures not { IsFalse result → number ≤ one + other }
{
    one <= number && other < number - one
}

/// Whether more items than this number were in the queue for certain at a time, and if so whether those that no call took have to
/// be counted.
fn crowding(held: &Held, number: usize, time: u64) -> Option<bool>
    ensures some { IfSome result (λ left. (rules : Rules) (calls : List Call) → AreHeld rules calls held.now → (sends : List ℕ) → AreAll (Remains calls time left) sends → MoreAt calls sends number time) }
    ensures none { IfNone result ((rules : Rules) (calls : List Call) → AreHeld rules calls held.now → (sends : List ℕ) → MoreAt calls sends number time → ⊥) }
{
    let inside = upto(&held.sent, time).saturating_sub(upto(&held.gone, time));
    if is_more(inside, number, upto(&held.left, time)) {
        return Some(false);
    }
    if is_more(inside, number, upto(&held.waits, time)) {
        return Some(true);
    }
    None
}

/// A send at whose end too many items were in the queue for certain.
#[derive(Clone, Copy)]
pub struct Crowd {
    /// The place of the send.
    pub call: usize,
    /// Its end.
    pub time: u64,
    /// Whether items that no call took have to be counted.
    pub left: bool,
}

/// The send that ended first of those at whose end more items than this number were in the queue for certain.
fn first_crowd(held: &Held, number: usize) -> Option<Crowd>
    ensures some { IfSome result (IsCrowd held.now number) }
    ensures none { IfNone result ((rules : Rules) (calls : List Call) → AreHeld rules calls held.now → (time : ℕ) (sends : List ℕ) → MoreAt calls sends number time → ⊥) }
{
    for at in 0..held.sent.len() {
        let (time, call) = held.sent[at];
        if let Some(left) = crowding(held, number, time) {
            return Some(Crowd { call, time, left });
        }
    }
    None
}

/// Whether the item of the send at this place was in the queue for certain at a time; if no call took it, whether those count.
fn remains(calls: &[Call], index: &Index, send: usize, time: u64, left: bool) -> bool
    requires { IsIndex calls.now index.now }
    ensures { RemainsIf calls.now time left send result }
{
    let Some(end) = sent_since(calls, send) else {
        return false;
    };
    match gone_since(calls, index, send) {
        Some(from) => end <= time && time < from,
        None => end <= time && left,
    }
}

/// The sends of the items that were in the queue for certain at a time; if `left`, also of those that no call took.
fn remaining(
    alloc: Global,
    calls: &[Call],
    index: &Index,
    time: u64,
    left: bool,
) -> Result<Vec<usize>, AllocError>
    requires { IsIndex calls.now index.now }
    ensures { IfOk result (λ v. AreAll (Remains calls.now time left) v.items) }
{
    let mut sends = Vec::new(alloc);
    for send in 0..calls.len() {
        if remains(calls, index, send, time, left) {
            sends.push(send)?;
        }
    }
    Ok(sends)
}

/// That more items were in the queue for certain than it holds. It takes memory in proportion to the log.
pub fn many_fault(
    alloc: Global,
    rules: &Rules,
    calls: &[Call],
    index: &Index,
) -> Result<Option<Fault>, AllocError>
    requires index { IsIndex calls.now index.now }
    requires written { IsWritten calls.now }
    ensures some { IfOk result (λ found. IfSome found (Stands rules.now calls.now)) }
    ensures none { IfOk result (λ found. IfNone found (ItemsFit rules.now calls.now)) }
{
    let Some(number) = capacity_of(rules) else {
        return Ok(None);
    };
    let held = Held {
        sent: by_time(alloc, calls, index, None, Known::Sent)?,
        gone: by_time(alloc, calls, index, None, Known::Gone)?,
        left: by_time(alloc, calls, index, None, Known::Left)?,
        waits: by_time(alloc, calls, index, None, Known::Waits)?,
    };
    let Some(Crowd { call, time, left }) = first_crowd(&held, number) else {
        return Ok(None);
    };
    let sends = remaining(alloc, calls, index, time, left)?;
    Ok(Some(Fault::TooMany { call, sends }))
}
