//! Calls by their times, sorted: sends whose items are left, takes that haven't returned, and items that were taken. Each look at a
//! time takes O(log n).
ghost use Rattle.std.specs.Prelude.{suc, List, IfOk};
ghost use Rattle.cc_judge.specs.Names.{Call, Rules};
ghost use Rattle.cc_judge.specs.Table.{IsIndex};
ghost use Rattle.cc_judge.specs.Counts.{AreFirst, AreSorted, HasTimes, IsLeftBy, Since, Upto, WaitsBy};
ghost use Rattle.cc_judge.specs.Room.{HasBegun, HasSent, IsKnown, IsTakeOf, MayBeGone, WasTaken};
ghost use Rattle.cc_judge.specs.Faultless.{IsWritten};
ghost use Rattle.cc_judge.specs.Sweeps.{IsShutAt, IsSpellOf, SpellAt, AreSpells, IsDoneBy, IsLater, AreLatest, AreLists, IsLatestIn, IsLatest, AreEnoughIf};

use crate::faults::Index;
use crate::shutting::{Shut, done};
use crate::table::{call_at, place_in};
use crate::{Act, Call, Rules};
use std::alloc::{AllocError, Global};

/// The places of calls, by a time of each.
pub type ByTime = Vec<(u64, usize)>;

/// How many of these calls have their time before this one.
pub fn before(list: &ByTime, time: u64) -> usize
    ensures { AreSorted list.now.items → AreFirst list.now.items result time }
{
    list.partition_point(|entry| entry.0 < time)
}

/// How many of these calls have their time before this one, or at it.
pub fn upto(list: &ByTime, time: u64) -> usize
    ensures { AreSorted list.now.items → AreFirst list.now.items result (suc time) }
{
    list.partition_point(|entry| entry.0 <= time)
}

/// When the send at this place was done, if it returned and no call took its item.
fn left_since(calls: &[Call], index: &Index, shut: Option<Shut>, place: usize) -> Option<u64>
    requires { IsIndex calls.now index.now }
    ensures { (rules : Rules) → IsShutAt rules calls.now shut → Since (IsLeftBy rules calls.now) place result }
{
    let call = call_at(calls, place)?;
    let (Act::Send(item), Some(end)) = (call.act, call.end) else {
        return None;
    };
    match place_in(&index.takes, item) {
        Some(_) => None,
        None => Some(done(end, shut)),
    }
}

/// When the call at this place began, if it is a take that hasn't returned.
fn wait_since(calls: &[Call], place: usize) -> Option<u64>
    ensures { Since (Upto (WaitsBy calls.now)) place result }
{
    let call = call_at(calls, place)?;
    match call.act {
        Act::Taking => Some(call.begin),
        _ => None,
    }
}

/// When the send at this place began.
fn begun_since(calls: &[Call], place: usize) -> Option<u64>
    ensures { Since (Upto (HasBegun calls.now)) place result }
{
    let call = call_at(calls, place)?;
    match call.act {
        Act::Send(_) => Some(call.begin),
        _ => None,
    }
}

/// The call that took this item.
fn take_of(calls: &[Call], index: &Index, item: u32) -> Option<Call>
    requires { IsIndex calls.now index.now }
    ensures { IsTakeOf calls.now item result }
{
    match place_in(&index.takes, item) {
        Some(place) => call_at(calls, place),
        None => None,
    }
}

/// When the take ended of the item that the call at this place sent.
fn taken_since(calls: &[Call], index: &Index, place: usize) -> Option<u64>
    requires { IsIndex calls.now index.now }
    ensures { Since (WasTaken calls.now) place result }
{
    let call = call_at(calls, place)?;
    match call.act {
        Act::Send(item) => match take_of(calls, index, item) {
            Some(take) => take.end,
            None => None,
        },
        _ => None,
    }
}

/// When the send at this place ended.
pub fn sent_since(calls: &[Call], place: usize) -> Option<u64>
    ensures { Since (HasSent calls.now) place result }
{
    let call = call_at(calls, place)?;
    match call.act {
        Act::Send(_) => call.end,
        _ => None,
    }
}

/// When the send at this place had ended and the take of its item had begun.
pub fn gone_since(calls: &[Call], index: &Index, place: usize) -> Option<u64>
    requires { IsIndex calls.now index.now }
    ensures { Since (Upto (MayBeGone calls.now)) place result }
{
    let call = call_at(calls, place)?;
    match (call.act, call.end) {
        (Act::Send(item), Some(end)) => match take_of(calls, index, item) {
            Some(take) => Some(end.max(take.begin)),
            None => None,
        },
        _ => None,
    }
}

/// What is known of a call from a time on.
#[derive(Clone, Copy, Drop)]
pub enum Known {
    /// It is a send that was done, and no call took its item.
    Left,
    /// It is a take that began, and hasn't returned.
    Waits,
    /// It is a send that began.
    Begun,
    /// It is a send whose item was taken by a call that ended.
    Taken,
    /// It is a send that ended.
    Sent,
    /// It is a send that ended, and whose item was taken by a call that began.
    Gone,
}

/// From when on this is known of the call at this place.
fn since(
    calls: &[Call],
    index: &Index,
    shut: Option<Shut>,
    what: Known,
    place: usize,
) -> Option<u64>
    requires { IsIndex calls.now index.now }
    ensures { (rules : Rules) → IsShutAt rules calls.now shut → Since (IsKnown rules calls.now what) place result }
{
    match what {
        Known::Left => left_since(calls, index, shut, place),
        Known::Waits => wait_since(calls, place),
        Known::Begun => begun_since(calls, place),
        Known::Taken => taken_since(calls, index, place),
        Known::Sent => sent_since(calls, place),
        Known::Gone => gone_since(calls, index, place),
    }
}

/// The calls of which this is known at a time, by the times from which on it is.
pub fn by_time(
    alloc: Global,
    calls: &[Call],
    index: &Index,
    shut: Option<Shut>,
    what: Known,
) -> Result<ByTime, AllocError>
    requires { IsIndex calls.now index.now }
    ensures { IfOk result (λ v. (rules : Rules) → IsShutAt rules calls.now shut → HasTimes (IsKnown rules calls.now what) v.items) }
{
    let mut list = Vec::new(alloc);
    for place in 0..calls.len() {
        if let Some(time) = since(calls, index, shut, what, place) {
            list.push((time, place))?;
        }
    }
    list.sort_by_key(|entry| entry.0)?;
    Ok(list)
}

/// When an item that was taken was in the queue for certain.
#[derive(Clone, Copy, Drop)]
pub struct Spell {
    /// When its send was done.
    pub from: u64,
    /// When its take began.
    pub until: u64,
    /// The place of the send.
    pub send: usize,
    /// The place of the take.
    pub take: usize,
}

/// When a send whose item was taken was done.
fn done_by(end: Option<u64>, shut: Option<Shut>) -> Option<u64>
    ensures { IsDoneBy end shut result }
{
    match (end, shut) {
        (Some(end), _) => Some(done(end, shut)),
        (None, Some(shut)) => Some(shut.time),
        (None, None) => None,
    }
}

/// When the item was in the queue for certain that these calls sent and took, if the send was done then.
fn spell_of(calls: &[Call], done: Option<u64>, send: usize, take: usize) -> Option<Spell>
    ensures { IsSpellOf calls.now done send take result }
{
    match (done, call_at(calls, take)) {
        (Some(from), Some(call)) => Some(Spell {
            from,
            until: call.begin,
            send,
            take,
        }),
        _ => None,
    }
}

/// When the item of the send at this place was in the queue for certain, if it was taken.
fn spell_at(calls: &[Call], index: &Index, shut: Option<Shut>, send: usize) -> Option<Spell>
    requires { IsIndex calls.now index.now }
    ensures { (rules : Rules) → IsWritten calls.now → IsShutAt rules calls.now shut → SpellAt rules calls.now send result }
{
    let call = call_at(calls, send)?;
    let Act::Send(item) = call.act else {
        return None;
    };
    match place_in(&index.takes, item) {
        Some(take) => spell_of(calls, done_by(call.end, shut), send, take),
        None => None,
    }
}

/// The items that were taken, by the times at which their sends were done.
fn spells_of(
    alloc: Global,
    calls: &[Call],
    index: &Index,
    shut: Option<Shut>,
) -> Result<Vec<Spell>, AllocError>
    requires { IsIndex calls.now index.now }
    ensures { IfOk result (λ v. (rules : Rules) → IsWritten calls.now → IsShutAt rules calls.now shut → AreSpells rules calls.now v.items) }
{
    let mut list = Vec::new(alloc);
    for send in 0..calls.len() {
        if let Some(spell) = spell_at(calls, index, shut, send) {
            list.push(spell)?;
        }
    }
    list.sort_by_key(|spell| spell.from)?;
    Ok(list)
}

/// Of two items the one that was taken later.
fn later(best: Option<Spell>, other: Spell) -> Spell
    ensures { IsLater best other result }
{
    match best {
        Some(one) if other.until <= one.until => one,
        _ => other,
    }
}

/// Of each item that was taken the one that was taken last of those up to it.
fn latest_of(alloc: Global, spells: &Vec<Spell>) -> Result<Vec<Spell>, AllocError>
    ensures { IfOk result (λ v. AreLatest spells.now.items v.items) }
{
    let mut latest = Vec::with_capacity(alloc, spells.len())?;
    let mut best = None;
    for spell in spells {
        let spell = later(best, *spell);
        best = Some(spell);
        latest.push(spell)?;
    }
    Ok(latest)
}

/// The calls of a log by their times.
#[derive(Drop)]
pub struct Lists {
    /// The sends whose items no call took.
    pub lefts: ByTime,
    /// The takes that haven't returned.
    pub waits: ByTime,
    /// The items that were taken.
    pub spells: Vec<Spell>,
    /// Of each of them the one that was taken last of those up to it.
    pub latest: Vec<Spell>,
}

/// The calls of a log by their times, if the queue was closed then. It takes memory in proportion to the log, and O(n log n).
pub fn lists_of(
    alloc: Global,
    calls: &[Call],
    index: &Index,
    shut: Option<Shut>,
) -> Result<Lists, AllocError>
    requires { IsIndex calls.now index.now }
    ensures { IfOk result (λ l. (rules : Rules) → IsWritten calls.now → IsShutAt rules calls.now shut → AreLists rules calls.now l) }
{
    let spells = spells_of(alloc, calls, index, shut)?;
    let latest = latest_of(alloc, &spells)?;
    Ok(Lists {
        lefts: by_time(alloc, calls, index, shut, Known::Left)?,
        waits: by_time(alloc, calls, index, shut, Known::Waits)?,
        spells,
        latest,
    })
}

/// Of the first items the one that was taken last.
fn latest_in(latest: &Vec<Spell>, number: usize) -> Option<Spell>
    ensures { IsLatestIn latest.now.items number result }
{
    latest.get(number.checked_sub(1)?).copied()
}

/// Of the items whose sends were done before a time the one that was taken last.
pub fn latest_before(lists: &Lists, time: u64) -> Option<Spell>
    ensures { (rules : Rules) (calls : List Call) → AreLists rules calls lists.now → IsLatest rules calls time result }
{
    let number = lists.spells.partition_point(|spell| spell.from < time);
    latest_in(&lists.latest, number)
}

/// Of the items whose sends were done by a time the one that was taken last.
pub fn latest_upto(lists: &Lists, time: u64) -> Option<Spell>
    ensures { (rules : Rules) (calls : List Call) → AreLists rules calls lists.now → IsLatest rules calls (suc time) result }
{
    let number = lists.spells.partition_point(|spell| spell.from <= time);
    latest_in(&lists.latest, number)
}

/// Whether of the items whose sends were done before the one time, and that no call took, are no more than takes that haven't returned
/// and began by the other.
pub fn are_enough(lists: &Lists, sent: u64, began: u64) -> bool
    ensures { (rules : Rules) (calls : List Call) → AreLists rules calls lists.now → AreEnoughIf rules calls sent began result }
{
    before(&lists.lefts, sent) <= upto(&lists.waits, began)
}

/// The same of the sends that were done by the one time.
pub fn are_enough_upto(lists: &Lists, sent: u64, began: u64) -> bool
    ensures { (rules : Rules) (calls : List Call) → AreLists rules calls lists.now → AreEnoughIf rules calls (suc sent) began result }
{
    upto(&lists.lefts, sent) <= upto(&lists.waits, began)
}
