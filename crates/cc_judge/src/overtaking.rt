//! The faults of items that were taken: each is found, or there is none.
ghost use Rattle.std.specs.Prelude.{◌≡◌, ℕ, ◌<◌, ◌≤◌, ◌⊎◌, List, IfOk, IfSome, IfNone};
ghost use Rattle.cc_judge.specs.Names.{Call, Act, Rules};
ghost use Rattle.cc_judge.specs.Faults.{Did};
ghost use Rattle.cc_judge.specs.Table.{IsIndex};
ghost use Rattle.cc_judge.specs.Faultless.{IsWritten};
ghost use Rattle.cc_judge.specs.Sweeps.{AreLists, WasSent, KeepsTurn, KeepTurns, KeepsClosed, IsPair, IsPassed, IsPassedLast, IsSpell, IsOfLefts};
ghost use Rattle.cc_judge.specs.Verdict.{Stands, IsStay};

use crate::decide::Fault;
use crate::faults::{Index, ends_before};
use crate::lists::{Lists, Spell, are_enough, before, latest_before, upto};
use crate::table::{call_at, place_in};
use crate::{Act, Call, Stay};
use std::alloc::{AllocError, Global};

/// That no call sent the item that the call at this place took, or that the send began after the take had ended.
fn item_fault(calls: &[Call], index: &Index, take: usize, item: u32) -> Option<Fault>
    requires index { IsIndex calls.now index.now }
    requires written { IsWritten calls.now }
    requires took { Did calls.now take (Act.Took item) }
    ensures some { IfSome result (λ fault. (rules : Rules) → Stands rules calls.now fault) }
    ensures none { IfNone result (WasSent calls.now take item) }
{
    match place_in(&index.sends, item) {
        None => Some(Fault::NeverSent { take }),
        Some(send) if ends_before(calls, take, send) => {
            Some(Fault::TakenBeforeSent { send, take })
        }
        Some(_) => None,
    }
}

/// The item that the call at this place took.
pub fn item_taken(calls: &[Call], place: usize) -> Option<u32>
    ensures some { IfSome result (λ item. Did calls.now place (Act.Took item)) }
    ensures none { IfNone result ((item : ℕ) → Did calls.now place (Act.Took item) → ⊥) }
{
    match call_at(calls, place)?.act {
        Act::Took(item) => Some(item),
        _ => None,
    }
}

/// That an item was taken that no call sent, or before it was sent.
pub fn take_fault(calls: &[Call], index: &Index) -> Option<Fault>
    requires index { IsIndex calls.now index.now }
    requires written { IsWritten calls.now }
    ensures some { IfSome result (λ fault. (rules : Rules) → Stands rules calls.now fault) }
    ensures none { IfNone result ((take item : ℕ) → Did calls.now take (Act.Took item) → WasSent calls.now take item) }
{
    for take in 0..calls.len() {
        if let Some(item) = item_taken(calls, take) {
            if let Some(fault) = item_fault(calls, index, take, item) {
                return Some(fault);
            }
        }
    }
    None
}

/// How many sends of items that are left a stay names at most.
const NAMED: usize = 20;

/// Of the items that are left and whose sends were done first, this many, the `count` whose sends were done last.
pub fn stay_of_lefts(
    alloc: Global,
    lists: &Lists,
    number: usize,
    count: usize,
    closed: Option<usize>,
) -> Result<Stay, AllocError>
    ensures lefts { IfOk result IsOfLefts }
    ensures stay { IfOk result (λ s. (rules : Rules) (calls : List Call) → AreLists rules calls lists.now → IsStay calls s) }
{
    let mut sends = Vec::new(alloc);
    for at in number.saturating_sub(count.min(NAMED))..number {
        let Some((_, send)) = lists.lefts.get(at) else {
            break;
        };
        sends.push(*send)?;
    }
    sends.sort()?;
    let more = count.saturating_sub(sends.len());
    let next = match lists.waits.get(count.saturating_sub(1)) {
        Some((_, take)) => Some(*take),
        None => None,
    };
    Ok(Stay::Left {
        sends,
        more,
        next,
        closed,
    })
}

/// The send and the take of an item.
#[derive(Clone, Copy)]
struct Pair {
    send: usize,
    take: usize,
    /// When the send began.
    begin: u64,
    /// When the take ended.
    end: u64,
}

/// The send and the take of the item that the call at this place took.
fn pair_of(calls: &[Call], index: &Index, take: usize) -> Option<Pair>
    requires index { IsIndex calls.now index.now }
    requires written { IsWritten calls.now }
    ensures some { IfSome result (λ p. IsPair calls.now p.send p.take p.begin p.end) }
    ensures same { IfSome result (λ p. p.take ≡ take) }
    ensures none { IfNone result ((send item : ℕ) → Did calls.now send (Act.Send item) → Did calls.now take (Act.Took item) → ⊥) }
{
    let item = item_taken(calls, take)?;
    let send = place_in(&index.sends, item)?;
    let begin = call_at(calls, send)?.begin;
    let end = call_at(calls, take)?.end?;
    Some(Pair {
        send,
        take,
        begin,
        end,
    })
}

/// The items that an item overtook.
#[derive(Clone, Copy, Drop)]
pub enum Passed {
    /// None.
    None,
    /// This one, which was taken later.
    Taken(Spell),
    /// One of those that are left.
    Left,
}

/// Of two items the other, if its send was done before the one time and its take began after the other, and its send was done no earlier.
fn sent_later(last: Spell, other: Spell, begin: u64, end: u64) -> Spell
    ensures either { (result ≡ last) ⊎ ((result ≡ other) × (other.from < begin) × (end < other.until)) }
    ensures most { last.from ≤ result.from }
    ensures too { other.from < begin → end < other.until → other.from ≤ result.from }
{
    if other.from < begin && end < other.until && last.from <= other.from {
        other
    } else {
        last
    }
}

/// The item that was sent last of this one and those whose sends were done before the one time and whose takes began after the other.
fn last_passed(lists: &Lists, begin: u64, end: u64, passed: Spell) -> Spell
    ensures { (rules : Rules) (calls : List Call) → AreLists rules calls lists.now → IsSpell rules calls passed → passed.from < begin → end < passed.until → IsPassedLast rules calls lists.now begin end result }
{
    let mut last = passed;
    for spell in &lists.spells {
        last = sent_later(last, *spell, begin, end);
    }
    if last.from < passed.from {
        passed
    } else {
        last
    }
}

/// The item that an item overtook and that was sent last, if the send of that began and its take ended at these times.
fn passed_by(lists: &Lists, begin: u64, end: u64) -> Passed
    ensures { (rules : Rules) (calls : List Call) → AreLists rules calls lists.now → IsPassed rules calls lists.now begin end result }
{
    match latest_before(lists, begin) {
        Some(spell) if end < spell.until => { Passed::Taken(last_passed(lists, begin, end, spell)) }
        _ if are_enough(lists, begin, end) => Passed::None,
        _ => Passed::Left,
    }
}

/// That an item that was sent earlier was taken later, or is left.
fn pair_fault(alloc: Global, lists: &Lists, pair: Pair) -> Result<Option<Fault>, AllocError>
    ensures some { IfOk result (λ found. IfSome found (λ fault. (rules : Rules) (calls : List Call) → AreLists rules calls lists.now → KeepsClosed rules calls → IsPair calls pair.send pair.take pair.begin pair.end → Stands rules calls fault)) }
    ensures none { IfOk result (λ found. IfNone found ((rules : Rules) (calls : List Call) → AreLists rules calls lists.now → KeepsTurn rules calls pair.begin pair.end)) }
{
    let Pair {
        send: later_send,
        take: later_take,
        begin,
        end,
    } = pair;
    let stay = match passed_by(lists, begin, end) {
        Passed::None => return Ok(None),
        Passed::Taken(Spell { send, take, .. }) => Stay::Taken {
            send,
            take,
            closed: None,
        },
        Passed::Left => {
            let count = upto(&lists.waits, end).saturating_add(1);
            stay_of_lefts(alloc, lists, before(&lists.lefts, begin), count, None)?
        }
    };
    Ok(Some(Fault::Overtaken {
        stay,
        later_send,
        later_take,
    }))
}

/// That an item was taken before another that was sent before it.
pub fn turn_fault(
    alloc: Global,
    calls: &[Call],
    index: &Index,
    lists: &Lists,
) -> Result<Option<Fault>, AllocError>
    requires index { IsIndex calls.now index.now }
    requires written { IsWritten calls.now }
    ensures some { IfOk result (λ found. IfSome found (λ fault. (rules : Rules) → AreLists rules calls.now lists.now → KeepsClosed rules calls.now → Stands rules calls.now fault)) }
    ensures none { IfOk result (λ found. IfNone found ((rules : Rules) → AreLists rules calls.now lists.now → KeepTurns rules calls.now)) }
{
    for take in 0..calls.len() {
        if let Some(pair) = pair_of(calls, index, take) {
            if let Some(fault) = pair_fault(alloc, lists, pair)? {
                return Ok(Some(fault));
            }
        }
    }
    Ok(None)
}
