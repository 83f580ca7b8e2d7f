//! Calls that only their lines order: the log is cut between them, and then their times order them.
ghost use Rattle.std.specs.Prelude.{◌≡◌, ◌≢◌, ℕ, length, IsTrue, IsFalse, IfOk, IfSome, IfNone};
ghost use Rattle.cc_judge.specs.Counts.{AreSorted};
ghost use Rattle.cc_judge.specs.Cuts.{place_of, MeetAt, DoMeet, AreMeetings, AreApart, IsShort, AreShort, MayBeCut, AreMarked, CutBy, IsCut, AreWithoutTies};

use crate::lists::ByTime;
use crate::table::call_at;
use crate::{Call, Rules, Tie};
use std::alloc::{AllocError, Global};

/// Times below this have a number for each of their four parts.
const FAR: u64 = 1 << 62;

/// The place of the earlier or of the later call of a tie.
fn place_of(tie: Tie, later: bool) -> usize
    ensures { result ≡ place_of later tie }
{
    if later {
        tie.later as usize
    } else {
        tie.earlier as usize
    }
}

/// The time at which the two calls of a tie meet.
fn meeting(calls: &[Call], tie: Tie) -> Option<u64>
    ensures some { IfSome result (MeetAt calls.now tie) }
    ensures apart { IfSome result (λ time. tie.earlier ≢ tie.later) }
    ensures none { IfNone result ((time : ℕ) → MeetAt calls.now tie time → tie.earlier ≡ tie.later) }
{
    let one = call_at(calls, place_of(tie, false))?;
    let other = call_at(calls, place_of(tie, true))?;
    let end = one.end?;
    if end == other.begin && tie.earlier != tie.later {
        Some(end)
    } else {
        None
    }
}

/// The times at which the calls of the ties meet, with the place of each tie, sorted; or none if the calls of some tie don't meet.
fn meetings(alloc: Global, calls: &[Call], ties: &[Tie]) -> Result<Option<ByTime>, AllocError>
    ensures some { IfOk result (λ found. IfSome found (λ list. AreMeetings calls.now ties.now list.items)) }
    ensures none { IfOk result (λ found. IfNone found (DoMeet calls.now ties.now → ⊥)) }
{
    let mut list = Vec::new(alloc);
    for (place, tie) in ties.iter().enumerate() {
        let Some(time) = meeting(calls, *tie) else {
            return Ok(None);
        };
        list.push((time, place))?;
    }
    list.sort_by_key(|entry| entry.0)?;
    Ok(Some(list))
}

/// Whether no two times of a sorted list are the same.
fn are_apart(list: &ByTime) -> bool
    requires { AreSorted list.now.items }
    ensures apart { IsTrue result → AreApart list.now.items }
    ensures others { IsFalse result → AreApart list.now.items → ⊥ }
{
    for place in 1..list.len() {
        if list[place - 1].0 == list[place].0 {
            return false;
        }
    }
    true
}

/// Whether each time of a log has a number for each of its four parts.
fn are_short(calls: &[Call]) -> bool
    ensures short { IsTrue result → AreShort calls.now }
    ensures others { IsFalse result → AreShort calls.now → ⊥ }
{
    for call in calls {
        if call.begin >= FAR || call.end.unwrap_or(0) >= FAR {
            return false;
        }
    }
    true
}

/// Whether a log can be cut between the calls of its ties.
fn may_cut(alloc: Global, calls: &[Call], ties: &[Tie]) -> Result<bool, AllocError>
    ensures may { IfOk result (λ may. IsTrue may → MayBeCut calls.now ties.now) }
    ensures others { IfOk result (λ may. IsFalse may → MayBeCut calls.now ties.now → ⊥) }
{
    if !are_short(calls) {
        return Ok(false);
    }
    match meetings(alloc, calls, ties)? {
        Some(list) => Ok(are_apart(&list)),
        None => Ok(false),
    }
}

/// Of each place below a number whether it is that of the earlier, or of the later, call of a tie.
fn marks_of(
    alloc: Global,
    ties: &[Tie],
    number: usize,
    later: bool,
) -> Result<Vec<bool>, AllocError>
    ensures long { IfOk result (λ marks. length marks.items ≡ number) }
    ensures marked { IfOk result (λ marks. AreMarked ties.now later marks.items) }
{
    let mut marks = vec![in alloc; false; number]?;
    for tie in ties {
        let place = place_of(*tie, later);
        if place < marks.len() {
            marks[place] = true;
        }
    }
    Ok(marks)
}

/// A call with its times cut into four.
fn cut_call(call: Call, earlier: bool, later: bool) -> Call
    requires { IsShort call }
    ensures { CutBy earlier later call result }
{
    Call {
        begin: 4 * call.begin + if later { 2 } else { 0 },
        end: match call.end {
            Some(end) => Some(4 * end + if earlier { 1 } else { 3 }),
            None => None,
        },
        act: call.act,
    }
}

/// The calls of a log with their times cut into four.
fn cut_calls(alloc: Global, calls: &[Call], ties: &[Tie]) -> Result<Vec<Call>, AllocError>
    requires { AreShort calls.now }
    ensures { IfOk result (λ cut. IsCut ties.now calls.now cut.items) }
{
    let earlier = marks_of(alloc, ties, calls.len(), false)?;
    let later = marks_of(alloc, ties, calls.len(), true)?;
    let mut cut = Vec::new(alloc);
    for place in 0..calls.len() {
        cut.push(cut_call(calls[place], earlier[place], later[place]))?;
    }
    Ok(cut)
}

/// The log that is cut between the calls of its ties, if at most two calls meet at a time. It takes memory in proportion to the log,
/// and O(n log n).
pub fn cut_of(alloc: Global, rules: &Rules, calls: &[Call]) -> Result<Option<Vec<Call>>, AllocError>
    ensures may { IfOk result (λ found. IfSome found (λ cut. MayBeCut calls.now rules.now.ties.items)) }
    ensures cut { IfOk result (λ found. IfSome found (λ cut. IsCut rules.now.ties.items calls.now cut.items)) }
    ensures none { IfOk result (λ found. IfNone found (MayBeCut calls.now rules.now.ties.items → ⊥)) }
{
    let ties = rules.ties.as_slice();
    if !may_cut(alloc, calls, ties)? {
        return Ok(None);
    }
    Ok(Some(cut_calls(alloc, calls, ties)?))
}

/// The rules of a log after it is cut.
pub fn without_ties(alloc: Global, rules: &Rules) -> Rules
    ensures { AreWithoutTies rules.now result }
{
    Rules {
        capacity: rules.capacity,
        closes: rules.closes,
        ties: Vec::new(alloc),
    }
}
