//! The faults of takes that found none: each is found, or there is none.
ghost use Rattle.std.specs.Prelude.{ℕ, IsTrue, IsFalse, IfSome, IfNone, IfOk};
ghost use Rattle.cc_judge.specs.Names.{Act, Rules};
ghost use Rattle.cc_judge.specs.Faults.{Did, FindsNone};
ghost use Rattle.cc_judge.specs.Sweeps.{AreLists, IsSpell, IsShutAt, IsNone, HasMoment, HasEnd, MayBeEmpty};
ghost use Rattle.cc_judge.specs.Counts.{NeverEmpty, EndedWithItems};
ghost use Rattle.cc_judge.specs.Verdict.{IsNotEmpty, IsStay, AreStays};

use crate::lists::{Lists, Spell, before, latest_before, latest_upto, upto};
use crate::overtaking::stay_of_lefts;
use crate::shutting::Shut;
use crate::sweeps::{empty_at, has_ended};
use crate::table::call_at;
use crate::{Act, Call, Stay};
use std::alloc::{AllocError, Global};

/// Whether an act is a take that found none.
fn finds_none(act: Act) -> bool
    ensures none { IsTrue result → FindsNone act }
    ensures others { IsFalse result → FindsNone act → ⊥ }
{
    matches!(act, Act::FoundNone | Act::Ended)
}

/// The times of a call.
#[derive(Clone, Copy)]
struct Span {
    begin: u64,
    end: u64,
}

/// The times of the call at this place, if it is a take that found none.
fn none_at(calls: &[Call], place: usize) -> Option<Span>
    ensures some { IfSome result (λ t. IsNone calls.now place t.begin t.end) }
    ensures none { IfNone result ((begin end : ℕ) → IsNone calls.now place begin end → ⊥) }
{
    let call = call_at(calls, place)?;
    match call.end {
        Some(end) if finds_none(call.act) => Some(Span {
            begin: call.begin,
            end,
        }),
        _ => None,
    }
}

/// Whether the call at this place found the queue closed and empty.
fn found_ended(calls: &[Call], place: usize) -> bool
    ensures ended { IsTrue result → Did calls.now place Act.Ended }
    ensures others { IsFalse result → Did calls.now place Act.Ended → ⊥ }
{
    match call_at(calls, place) {
        Some(call) => matches!(call.act, Act::Ended),
        None => false,
    }
}

/// Whether the call at this place found none, and an item was in the queue for certain at each of its times.
fn is_never_empty(calls: &[Call], lists: &Lists, place: usize) -> bool
    ensures never { IsTrue result → (rules : Rules) → AreLists rules calls.now lists.now → NeverEmpty rules calls.now place }
    ensures others { IsFalse result → (rules : Rules) → AreLists rules calls.now lists.now → HasMoment rules calls.now place }
{
    match none_at(calls, place) {
        Some(span) => empty_at(lists, span.begin, span.end).is_none(),
        None => false,
    }
}

/// Whether the call at this place found the queue closed and empty, and an item was in the queue for certain when it ended.
fn ended_with_items(calls: &[Call], lists: &Lists, shut: Option<Shut>, place: usize) -> bool
    ensures items { IsTrue result → (rules : Rules) → AreLists rules calls.now lists.now → IsShutAt rules calls.now shut → EndedWithItems rules calls.now place }
    ensures others { IsFalse result → (rules : Rules) → AreLists rules calls.now lists.now → IsShutAt rules calls.now shut → HasEnd rules calls.now place }
{
    if shut.is_none() || !found_ended(calls, place) {
        return false;
    }
    match none_at(calls, place) {
        Some(span) => !has_ended(lists, span.end),
        None => false,
    }
}

/// The first call that found none though an item was in the queue for certain.
pub fn first_none(calls: &[Call], lists: &Lists, shut: Option<Shut>) -> Option<usize>
    ensures some { IfSome result (λ place. (rules : Rules) → AreLists rules calls.now lists.now → IsShutAt rules calls.now shut → IsNotEmpty rules calls.now place) }
    ensures none { IfNone result ((rules : Rules) → AreLists rules calls.now lists.now → IsShutAt rules calls.now shut → (place : ℕ) → MayBeEmpty rules calls.now place) }
{
    for place in 0..calls.len() {
        if is_never_empty(calls, lists, place) || ended_with_items(calls, lists, shut, place) {
            return Some(place);
        }
    }
    None
}

/// Whether a call that is named had not ended before a time.
fn is_late(calls: &[Call], place: usize, time: u64) -> bool {
    match call_at(calls, place) {
        Some(call) => match call.end {
            Some(end) => time <= end,
            None => true,
        },
        None => false,
    }
}

/// An item, or several, of which one is in the queue for certain at a time, and until when, if that has an end.
#[derive(Drop)]
struct Held {
    stay: Stay,
    until: Option<u64>,
}

/// The item that is in the queue for certain at a time of this span: the one that was taken last, if it is, or one of
/// those that are left: of as many of the youngest as show it until the span's end. It rests on a close if its send
/// hadn't ended before the span.
fn held_at(
    alloc: Global,
    calls: &[Call],
    lists: &Lists,
    closed: Option<usize>,
    found: Option<Spell>,
    left: usize,
    time: u64,
    span: Span,
) -> Result<Held, AllocError>
    ensures { IfOk result (λ h. (rules : Rules) → AreLists rules calls.now lists.now → IfSome found (IsSpell rules calls.now) → IsStay calls.now h.stay) }
{
    if let Some(
        Spell {
            until,
            send,
            take,
            ..
        },
    ) = found
    {
        if time < until {
            let closed = if is_late(calls, send, span.begin) {
                closed
            } else {
                None
            };
            return Ok(Held {
                stay: Stay::Taken { send, take, closed },
                until: Some(until),
            });
        }
    }
    let late = closed.is_some() && are_late(calls, lists, left, span.begin);
    let closed = if late { closed } else { None };
    let count = left.min(upto(&lists.waits, span.end).saturating_add(1));
    let until = match lists.waits.get(count.saturating_sub(1)) {
        Some((begin, _)) => Some(*begin),
        None => None,
    };
    Ok(Held {
        stay: stay_of_lefts(alloc, lists, left, count, closed)?,
        until,
    })
}

/// Whether one of the first sends whose items are left had not ended before a time.
fn are_late(calls: &[Call], lists: &Lists, left: usize, time: u64) -> bool {
    for (at, (_, send)) in lists.lefts.iter().enumerate() {
        if left <= at {
            return false;
        }
        if is_late(calls, *send, time) {
            return true;
        }
    }
    false
}

/// The place of the call by which the queue was closed, if that was before a time.
fn closed_before(shut: Option<Shut>, time: u64) -> Option<usize> {
    match shut {
        Some(shut) if shut.time < time => Some(shut.call),
        _ => None,
    }
}

/// The item that was in the queue for certain when the call at this place had ended, which found the queue closed.
fn held_after(
    alloc: Global,
    calls: &[Call],
    lists: &Lists,
    shut: Option<Shut>,
    call: usize,
    span: Span,
) -> Result<Held, AllocError>
    ensures { IfOk result (λ h. (rules : Rules) → AreLists rules calls.now lists.now → IsStay calls.now h.stay) }
{
    let closed = closed_before(shut, span.begin).unwrap_or(call);
    let found = latest_upto(lists, span.end);
    let left = upto(&lists.lefts, span.end);
    held_at(
        alloc,
        calls,
        lists,
        Some(closed),
        found,
        left,
        span.end,
        span,
    )
}

/// The item that was in the queue for certain at the begin of this span, and was sent before that.
fn held_before(
    alloc: Global,
    calls: &[Call],
    lists: &Lists,
    shut: Option<Shut>,
    span: Span,
) -> Result<Held, AllocError>
    ensures { IfOk result (λ h. (rules : Rules) → AreLists rules calls.now lists.now → IsStay calls.now h.stay) }
{
    let found = latest_before(lists, span.begin);
    let left = before(&lists.lefts, span.begin);
    let closed = closed_before(shut, span.begin);
    held_at(alloc, calls, lists, closed, found, left, span.begin, span)
}

/// Until when an item is in the queue, if that is past the begin of a span and within its end.
fn next_from(until: Option<u64>, span: Span) -> Option<u64> {
    match until {
        Some(until) if span.begin < until && until <= span.end => Some(until),
        _ => None,
    }
}

/// Items of which one after another was in the queue for certain at the times of the call at this place, which found none. They show
/// the fault. Each is one of the log; whether they reach over all of these times isn't asked.
pub fn stays_of(
    alloc: Global,
    calls: &[Call],
    lists: &Lists,
    shut: Option<Shut>,
    call: usize,
) -> Result<Vec<Stay>, AllocError>
    ensures { IfOk result (λ v. (rules : Rules) → AreLists rules calls.now lists.now → AreStays calls.now v.items) }
{
    let mut stays = Vec::new(alloc);
    let Some(span) = none_at(calls, call) else {
        return Ok(stays);
    };
    if empty_at(lists, span.begin, span.end).is_some() {
        let Held { stay, until: _ } = held_after(alloc, calls, lists, shut, call, span)?;
        stays.push(stay)?;
        return Ok(stays);
    }
    let mut rest = span;
    for _ in 0..calls.len() {
        let Held { stay, until } = held_before(alloc, calls, lists, shut, rest)?;
        stays.push(stay)?;
        let Some(next) = next_from(until, rest) else {
            break;
        };
        rest.begin = next;
    }
    Ok(stays)
}
