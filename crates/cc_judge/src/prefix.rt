//! A log until a time.
ghost use Rattle.std.specs.Prelude.{◌≡◌, ℕ, ◌+◌, ◌<◌, ◌≤◌, IfOk, Some, true, false};
ghost use Rattle.cc_judge.specs.Until.{HaveEnded, IsCallUntil, IsOver, IsUntil, act_until};

use crate::{Act, Call};
use std::alloc::{AllocError, Global};

/// The act of a call as it is known while the call hasn't returned.
fn act_until(act: Act) -> Act
    ensures { result ≡ act_until act }
{
    match act {
        Act::Took(_) | Act::FoundNone | Act::Ended => Act::Taking,
        _ => act,
    }
}

/// Whether a call ended by a time, or the log has no end of it.
fn is_over(call: Call, time: u64) -> bool
    ensures over { result ≡ true → IsOver time call }
    ensures open { result ≡ false → IsOver time call → ⊥ }
{
    match call.end {
        Some(end) => end <= time,
        None => true,
    }
}

/// A call as it is known by a time.
fn call_until(call: Call, time: u64) -> Call
    ensures { IsCallUntil time call result }
{
    if is_over(call, time) {
        return call;
    }
    Call {
        begin: call.begin,
        end: None,
        act: act_until(call.act),
    }
}

/// A log until a time.
pub fn calls_until(alloc: Global, calls: &[Call], time: u64) -> Result<Vec<Call>, AllocError>
    ensures { IfOk result (λ part. IsUntil time calls.now part.items) }
{
    let mut part = Vec::with_capacity(alloc, calls.len())?;
    for place in 0..calls.len() {
        part.push(call_until(calls[place], time))?;
    }
    Ok(part)
}

/// The later of a time and the end of a call.
fn later_end(last: u64, call: Call) -> u64
    ensures more { last ≤ result }
    ensures end { (end : ℕ) → call.end ≡ Some end → end ≤ result }
{
    match call.end {
        Some(end) => last.max(end),
        None => last,
    }
}

/// A time by which all calls have ended that ended at all.
pub fn last_end(calls: &[Call]) -> u64
    ensures { HaveEnded result calls.now }
{
    let mut last = 0;
    for call in calls {
        last = later_end(last, *call);
    }
    last
}

/// The times at which calls ended, sorted.
pub fn ends_of(alloc: Global, calls: &[Call]) -> Result<Vec<u64>, AllocError> {
    let mut ends = Vec::new(alloc);
    for call in calls {
        if let Some(end) = call.end {
            ends.push(end)?;
        }
    }
    ends.sort()?;
    Ok(ends)
}

/// The time until which the log is looked at next, of those from `low` to before `high`: that at which a call ended which shows a
/// fault; if that is `high`, the time before; and else the middle one of the times at which calls ended.
pub fn next_time(ends: &Vec<u64>, low: u64, high: u64, shown: Option<u64>) -> u64
    requires { low < high }
    ensures from { low ≤ result }
    ensures before { result < high }
{
    match shown {
        Some(end) if low <= end && end < high => return end,
        Some(end) if end == high => return high - 1,
        _ => {}
    }
    let from = ends.partition_point(|end| *end < low);
    let count = ends.partition_point(|end| *end < high).saturating_sub(from);
    match ends.get(from.saturating_add(count / 2)) {
        Some(end) if low <= *end && *end < high => *end,
        _ => high - 1,
    }
}

/// The time after one that is before another.
pub fn after(time: u64, high: u64) -> u64
    requires { time < high }
    ensures { result ≡ time + 1 }
{
    time + 1
}
