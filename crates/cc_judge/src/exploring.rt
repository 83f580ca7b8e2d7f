//! The search for an order of a log in which lines alone order calls that meet or overlap. The log is cut between two of them, at each time
//! at which a call began while both were under way; then between two others; and so on, until times order all calls.
ghost use Rattle.std.specs.Prelude.{◌≡◌, ◌<◌, ◌≤◌, ◌+◌, ◌^◌, ℕ, suc, length, slice_get, Some, IfOk, IfSome, IsTrue, IsFalse};
ghost use Rattle.cc_judge.specs.Names.{Call, Tie, Explored};
ghost use Rattle.cc_judge.specs.Order.{EndsBefore};
ghost use Rattle.cc_judge.specs.Faults.{Differ};
ghost use Rattle.cc_judge.specs.Faultless.{IsWritten};
ghost use Rattle.cc_judge.specs.Verdict.{AreSentBelow};
ghost use Rattle.cc_judge.specs.Splits.{AllTouch, AreFewer, AreLeft, DoTouch, AreOpen, AreTiesLeft, HasRoom, HaveRoom, IsBegin, IsBeginBy, IsBegunBefore, IsClean, IsEndBy, IsExplored, IsExploredAt, IsFiner, IsInParts, IsSplit, IsStuck, IsTieOf, IsUnderWay, MaySplit, SplitCall, spend};

use crate::cutting::without_ties;
use crate::decide::found_in;
use crate::faults::ends_before;
use crate::table::call_at;
use crate::written::is_written;
use crate::{Call, Rules, Tie};
use std::alloc::{AllocError, Global};

/// The result of a search.
#[derive(Drop)]
pub enum Explored {
    /// The log has an order.
    Clean,
    /// The log has no order.
    NoOrder,
    /// The search was given up between these two calls.
    Stuck(Tie),
}

/// When a call begins in a log that is cut at a time.
fn begin_by(begin: u64, time: u64) -> u64
    requires { begin + 1 < 2 ^ 64 }
    ensures { IsBeginBy time begin result }
{
    if begin <= time { begin } else { begin + 1 }
}

/// When a call ends in a log that is cut at a time.
fn end_by(end: u64, time: u64) -> u64
    requires { end + 1 < 2 ^ 64 }
    ensures { IsEndBy time end result }
{
    if end < time { end } else { end + 1 }
}

/// The call at a place in a log that is cut between the calls of a tie, at a time.
fn split_call(call: Call, place: usize, tie: Tie, time: u64) -> Call
    requires room { HasRoom 1 call }
    requires time { time + 1 < 2 ^ 63 }
    ensures { SplitCall tie time place call result }
{
    Call {
        begin: if place == tie.later as usize {
            time + 1
        } else {
            begin_by(call.begin, time)
        },
        end: match call.end {
            Some(_) if place == tie.earlier as usize => Some(time),
            Some(end) => Some(end_by(end, time)),
            None => None,
        },
        act: call.act,
    }
}

/// The log that is cut between the calls of a tie, at a time.
fn split(alloc: Global, calls: &[Call], tie: Tie, time: u64) -> Result<Vec<Call>, AllocError>
    requires room { HaveRoom 1 calls.now }
    requires time { time + 1 < 2 ^ 63 }
    ensures { IfOk result (λ cut. IsSplit tie time calls.now cut.items) }
{
    let mut cut = Vec::with_capacity(alloc, calls.len())?;
    for place in 0..calls.len() {
        cut.push(split_call(calls[place], place, tie, time))?;
    }
    Ok(cut)
}

/// Whether the call at a place is under way at a time.
fn is_under_way(calls: &[Call], place: usize, time: u64) -> bool
    ensures under { IsTrue result → IsUnderWay calls.now place time }
    ensures others { IsFalse result → IsUnderWay calls.now place time → ⊥ }
{
    match call_at(calls, place) {
        Some(call) => call.begin <= time && call.end.unwrap_or(time) >= time,
        None => false,
    }
}

/// Whether a log may be cut between the calls of a tie at a time.
fn may_split(calls: &[Call], tie: Tie, time: u64) -> bool
    ensures may { IsTrue result → MaySplit calls.now tie time }
    ensures others { IsFalse result → MaySplit calls.now tie time → ⊥ }
{
    is_under_way(calls, tie.earlier as usize, time) && is_under_way(calls, tie.later as usize, time)
}

/// Whether no call at an earlier place begins at a time.
fn is_first(calls: &[Call], place: usize, time: u64) -> bool
    requires { place ≤ length calls.now }
    ensures { IsFalse result → IsBegunBefore calls.now place time }
{
    for other in 0..place {
        if calls[other].begin == time {
            return false;
        }
    }
    true
}

/// The ties whose calls the times of a log don't order.
fn ties_left(alloc: Global, ties: &[Tie], cut: &[Call]) -> Result<Vec<Tie>, AllocError>
    ensures { IfOk result (λ rest. AreTiesLeft ties.now cut.now rest.items) }
{
    let mut rest = Vec::new(alloc);
    for tie in ties {
        if !ends_before(cut, tie.earlier as usize, tie.later as usize) {
            rest.push(*tie)?;
        }
    }
    Ok(rest)
}

/// The rules of a log after it is cut: with the ties whose calls the times don't order.
fn rules_left(alloc: Global, rules: &Rules, cut: &[Call]) -> Result<Rules, AllocError>
    ensures left { IfOk result (λ rest. AreLeft rules.now rest cut.now) }
    ensures still { IfOk result (λ rest. AreOpen rest.ties.items cut.now) }
    ensures fewer { IfOk result (λ rest. AreFewer rules.now.ties.items cut.now rest.ties.items) }
{
    Ok(Rules {
        capacity: rules.capacity,
        closes: rules.closes,
        ties: ties_left(alloc, rules.ties.as_slice(), cut)?,
    })
}

/// Whether the times of a call, and this number more, are below 2^63.
fn has_room(call: Call, more: u64) -> bool
    ensures room { IsTrue result → HasRoom more call }
    ensures others { IsFalse result → HasRoom more call → ⊥ }
{
    const FAR: u64 = 1 << 63;
    more < FAR && call.begin < FAR - more && call.end.unwrap_or(0) < FAR - more
}

/// Whether the times of each call, and this number more, are below 2^63.
fn have_room(calls: &[Call], more: u64) -> bool
    ensures room { IsTrue result → HaveRoom more calls.now }
    ensures others { IsFalse result → HaveRoom more calls.now → ⊥ }
{
    for call in calls {
        if !has_room(*call, more) {
            return false;
        }
    }
    true
}

/// Whether a tie is one of two calls that meet or overlap.
fn does_touch(calls: &[Call], tie: Tie) -> bool
    ensures touch { IsTrue result → DoTouch calls.now tie }
    ensures others { IsFalse result → DoTouch calls.now tie → ⊥ }
{
    match (
        call_at(calls, tie.earlier as usize),
        call_at(calls, tie.later as usize),
    ) {
        (Some(one), Some(other)) => match one.end {
            Some(end) => tie.earlier != tie.later && other.begin <= end,
            None => false,
        },
        _ => false,
    }
}

/// Whether each tie is so.
fn all_touch(calls: &[Call], ties: &[Tie]) -> bool
    ensures touch { IsTrue result → AllTouch calls.now ties.now }
    ensures others { IsFalse result → AllTouch calls.now ties.now → ⊥ }
{
    for tie in ties {
        if !does_touch(calls, *tie) {
            return false;
        }
    }
    true
}

/// Whether an order of a log can be searched.
pub fn may_explore(calls: &[Call], ties: &[Tie]) -> bool
    ensures touch { IsTrue result → AllTouch calls.now ties.now }
    ensures room { IsTrue result → HaveRoom (length ties.now) calls.now }
    ensures others { IsFalse result → AllTouch calls.now ties.now → HaveRoom (length ties.now) calls.now → ⊥ }
{
    all_touch(calls, ties) && have_room(calls, ties.len() as u64)
}

// ---- one cut for all ties

/// The least begin of a call.
fn first_begin(calls: &[Call]) -> u64 {
    let mut first = u64::MAX;
    for call in calls {
        first = first.min(call.begin);
    }
    first
}

/// A time in parts, counted from the first begin.
fn part_of(time: u64, first: u64, parts: u64, part: u64) -> u64 {
    time.saturating_sub(first)
        .saturating_mul(parts)
        .saturating_add(part)
}

/// A call with its times in parts: it begins in the first part of its time, and ends in the last.
fn in_parts(call: Call, first: u64, parts: u64) -> Call {
    Call {
        begin: part_of(call.begin, first, parts, 0),
        end: match call.end {
            Some(end) => Some(part_of(end, first, parts, parts.saturating_sub(1))),
            None => None,
        },
        act: call.act,
    }
}

/// The middle of the time at which both calls of a tie are under way.
fn middle_of(one: Call, other: Call) -> u64 {
    let low = one.begin.max(other.begin);
    let high = one.end.unwrap_or(low).min(other.end.unwrap_or(u64::MAX));
    low.saturating_add(high.saturating_sub(low) / 2)
}

/// Cuts a log, whose times are in parts, between the calls of a tie.
fn cut_tie(cut: &mut Vec<Call>, calls: &[Call], tie: Tie, first: u64, parts: u64, part: u64) {
    let (earlier, later) = (tie.earlier as usize, tie.later as usize);
    let (Some(one), Some(other)) = (call_at(calls, earlier), call_at(calls, later)) else {
        return;
    };
    let time = middle_of(one, other);
    if earlier < cut.len() && later < cut.len() {
        cut[earlier].end = Some(part_of(time, first, parts, part));
        cut[later].begin = part_of(time, first, parts, part.saturating_add(1));
    }
}

/// The log that is cut between the calls of each tie in the middle, in the order of the ties.
fn cut_evenly(
    alloc: Global,
    calls: &[Call],
    ties: &[Tie],
    first: u64,
    parts: u64,
) -> Result<Vec<Call>, AllocError> {
    let mut cut = Vec::with_capacity(alloc, calls.len())?;
    for call in calls {
        cut.push(in_parts(*call, first, parts))?;
    }
    let mut part = 1u64;
    for tie in ties {
        cut_tie(&mut cut, calls, *tie, first, parts, part);
        part = part.saturating_add(2);
    }
    Ok(cut)
}

/// Whether a call with times in parts is a call with its times, and begins no earlier and ends no later.
fn is_in_parts(whole: Call, cut: Call, first: u64, parts: u64) -> bool
    requires { 0 < parts }
    ensures { IsTrue result → IsInParts first parts whole cut }
{
    if whole.act != cut.act || whole.begin < first || cut.begin / parts < whole.begin - first {
        return false;
    }
    match (whole.end, cut.end) {
        (Some(end), Some(part)) => first <= end && part / parts <= end - first,
        (None, None) => true,
        _ => false,
    }
}

/// Whether each call of the second log, in parts, is the call of the first log at its place.
fn are_in_parts(calls: &[Call], cut: &[Call], first: u64, parts: u64) -> bool
    requires { 0 < parts }
    ensures { IsTrue result → IsFiner calls.now cut.now }
{
    if calls.len() != cut.len() {
        return false;
    }
    for place in 0..calls.len() {
        if !is_in_parts(calls[place], cut[place], first, parts) {
            return false;
        }
    }
    true
}

/// Whether the times of a log order the calls of each tie.
fn are_timed(cut: &[Call], ties: &[Tie]) -> bool
    ensures { IsTrue result → (i : ℕ) (tie : Tie) → slice_get ties.now i ≡ Some tie → EndsBefore cut.now tie.earlier tie.later }
{
    for tie in ties {
        if !ends_before(cut, tie.earlier as usize, tie.later as usize) {
            return false;
        }
    }
    true
}

/// Whether the log that is cut evenly has no fault.
fn fits_evenly(
    alloc: Global,
    rules: &Rules,
    calls: &[Call],
    items: usize,
) -> Result<bool, AllocError>
    requires differ { Differ calls.now }
    requires below { AreSentBelow calls.now items }
    ensures { IfOk result (λ so. IsTrue so → IsClean rules.now calls.now) }
{
    let ties = rules.ties.as_slice();
    let first = first_begin(calls);
    let parts = (ties.len() as u64).saturating_mul(2).saturating_add(2);
    let cut = cut_evenly(alloc, calls, ties, first, parts)?;
    let cut = cut.as_slice();
    if !are_in_parts(calls, cut, first, parts) || !are_timed(cut, ties) || !is_written(cut) {
        return Ok(false);
    }
    let plain = without_ties(alloc, rules);
    match found_in(alloc, &plain, cut, items)? {
        Some(_) => Ok(false),
        None => Ok(true),
    }
}

// ---- cut after cut

/// Searches the log that is cut between the calls of a tie at a time.
#[cycle(explore)]
fn by_cut(
    alloc: Global,
    rules: &Rules,
    calls: &[Call],
    items: usize,
    tie: Tie,
    time: u64,
    left: &mut usize,
) -> Result<Explored, AllocError>
    requires written { IsWritten calls.now }
    requires differ { Differ calls.now }
    requires below { AreSentBelow calls.now items }
    requires touch { AllTouch calls.now rules.now.ties.items }
    requires room { HaveRoom (length rules.now.ties.items) calls.now }
    requires tie { IsTieOf rules.now.ties.items tie }
    requires begins { IsBegin calls.now time }
    requires may { MaySplit calls.now tie time }
    requires enough { length calls.now ≤ left.old }
    ensures explored { IfOk result (IsExploredAt rules.now calls.now tie time) }
    ensures spent { IfOk result (λ found. (fewer : ℕ) → length rules.now.ties.items ≡ suc fewer → left.old ≤ left.new + (length calls.now + spend (length calls.now) fewer)) }
    ensures stuck { IfOk result (λ found. IsStuck found → left.new < length calls.now) }
{
    *left -= calls.len();
    let cut = split(alloc, calls, tie, time)?;
    let cut = cut.as_slice();
    let rest = rules_left(alloc, rules, cut)?;
    let found = explore(alloc, &rest, cut, items, left)?;
    Ok(found)
}

/// Searches the logs that are cut between the calls of a tie.
#[cycle(explore)]
fn by_cuts(
    alloc: Global,
    rules: &Rules,
    calls: &[Call],
    items: usize,
    tie: Tie,
    left: &mut usize,
) -> Result<Explored, AllocError>
    requires written { IsWritten calls.now }
    requires differ { Differ calls.now }
    requires below { AreSentBelow calls.now items }
    requires touch { AllTouch calls.now rules.now.ties.items }
    requires room { HaveRoom (length rules.now.ties.items) calls.now }
    requires tie { IsTieOf rules.now.ties.items tie }
    ensures explored { IfOk result (IsExplored rules.now calls.now) }
    ensures spent { IfOk result (λ found. left.old ≤ left.new + spend (length calls.now) (length rules.now.ties.items)) }
    ensures stuck { IfOk result (λ found. IsStuck found → left.new < length calls.now) }
{
    for place in 0..calls.len() {
        let time = calls[place].begin;
        if may_split(calls, tie, time) && is_first(calls, place, time) {
            if *left < calls.len() {
                return Ok(Explored::Stuck(tie));
            }
            match by_cut(alloc, rules, calls, items, tie, time, left)? {
                Explored::NoOrder => {}
                found => return Ok(found),
            }
        }
    }
    Ok(Explored::NoOrder)
}

/// Searches for an order of a log. It judges no more calls than `left`, in all logs that it cuts, and takes that many from it.
#[cycle(explore)]
pub fn explore(
    alloc: Global,
    rules: &Rules,
    calls: &[Call],
    items: usize,
    left: &mut usize,
) -> Result<Explored, AllocError>
    requires written { IsWritten calls.now }
    requires differ { Differ calls.now }
    requires below { AreSentBelow calls.now items }
    requires touch { AllTouch calls.now rules.now.ties.items }
    requires room { HaveRoom (length rules.now.ties.items) calls.now }
    ensures explored { IfOk result (IsExplored rules.now calls.now) }
    ensures spent { IfOk result (λ found. left.old ≤ left.new + spend (length calls.now) (length rules.now.ties.items)) }
    ensures stuck { IfOk result (λ found. IsStuck found → left.new < length calls.now) }
{
    if let Some(_) = found_in(alloc, rules, calls, items)? {
        return Ok(Explored::NoOrder);
    }
    if rules.ties.is_empty() {
        return Ok(Explored::Clean);
    }
    if fits_evenly(alloc, rules, calls, items)? {
        return Ok(Explored::Clean);
    }
    by_cuts(alloc, rules, calls, items, rules.ties[0], left)
}
