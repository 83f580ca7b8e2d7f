//! Whether a send found the queue full though at each of its times fewer items than it holds may have been in it.
//!
//! At a time at most those items are in the queue whose sends began by then, without those whose takes had ended before. That
//! number grows only when a send begins. So it is taken at each begin of a send, and of each call that found the queue full the last
//! such time in its times is looked up, in O(n log n).
ghost use Rattle.std.specs.Prelude.{◌≡◌, ℕ, suc, List, Some, None, true, false, IfOk, IfSome, IfNone, length};
ghost use Rattle.cc_judge.specs.Names.{Call, Rules};
ghost use Rattle.cc_judge.specs.Checks.{IsFullCall};
ghost use Rattle.cc_judge.specs.Counts.{AreFirst};
ghost use Rattle.cc_judge.specs.Faults.{FewerAt, NotFull};
ghost use Rattle.cc_judge.specs.Faultless.{NoFault};
ghost use Rattle.cc_judge.specs.Room.{AreLastRooms, AreRooms, AreTimes, FewerIn, FullsArePossible, IsLastRoom, IsRoomIn};
ghost use Rattle.cc_judge.specs.Table.{IsIndex};
ghost use Rattle.cc_judge.specs.Verdict.{Stands};

use crate::decide::Fault;
use crate::faults::Index;
use crate::lists::{ByTime, Known, before, by_time, upto};
use crate::table::call_at;
use crate::{Act, Call, Rules};
use std::alloc::{AllocError, Global};

/// Whether as many items as this number may be in the queue at a time.
fn may_hold(begins: &ByTime, ends: &ByTime, number: usize, time: u64) -> bool
    ensures enough { (calls : List Call) → AreTimes calls begins.now.items ends.now.items → result ≡ true → FewerAt calls number time → ⊥ }
    ensures fewer { (calls : List Call) → AreTimes calls begins.now.items ends.now.items → result ≡ false → FewerAt calls number time }
{
    let begun = upto(begins, time);
    let gone = before(ends, time);
    if begun < gone {
        return false;
    }
    number <= begun - gone
}

/// The begin of a send if as many items may be in the queue then, or else the last time before it.
fn later_room(last: Option<u64>, begin: u64, holds: bool) -> Option<u64>
    ensures now { holds ≡ true → result ≡ Some begin }
    ensures before { holds ≡ false → result ≡ last }
{
    if holds { Some(begin) } else { last }
}

/// With each send the last time, of those at which it or one before it began, at which as many items as this number may be in the queue.
fn last_rooms(
    alloc: Global,
    begins: &ByTime,
    ends: &ByTime,
    number: usize,
) -> Result<Vec<Option<u64>>, AllocError>
    ensures last { IfOk result (λ v. (calls : List Call) → AreTimes calls begins.now.items ends.now.items → AreLastRooms calls begins.now.items number v.items) }
    ensures long { IfOk result (λ v. length v.items ≡ length begins.now.items) }
{
    let mut rooms = Vec::new(alloc);
    let mut last: Option<u64> = None;
    for at in 0..begins.len() {
        let (begin, _) = begins[at];
        let holds = may_hold(begins, ends, number, begin);
        last = later_room(last, begin, holds);
        rooms.push(last)?;
    }
    Ok(rooms)
}

/// The times of a log by which it is known how many items may be in the queue.
#[derive(Drop)]
struct Rooms {
    /// The sends, by their begins.
    begins: ByTime,
    /// The takes that returned with an item, by their ends.
    ends: ByTime,
    /// How many items the queue holds.
    number: usize,
    /// With each send the last time, of those at which it or one before it began, at which as many items may be in the queue.
    last: Vec<Option<u64>>,
}

/// The element of the last of that many places.
fn room_in(rooms: &Vec<Option<u64>>, number: usize) -> Option<Option<u64>>
    ensures { IsRoomIn rooms.now.items number result }
{
    rooms.get(number.checked_sub(1)?).copied()
}

/// The last time at which as many items as the queue holds may be in it, of those at which the sends began that began by this time.
fn last_room(rooms: &Rooms, time: u64) -> Option<u64>
    ensures { (calls : List Call) → AreRooms calls rooms.now → (number : ℕ) × AreFirst rooms.now.begins.items number (suc time) × IsLastRoom calls rooms.now.begins.items rooms.now.number number result }
{
    match room_in(&rooms.last, upto(&rooms.begins, time)) {
        Some(last) => last,
        None => None,
    }
}

/// The times of a call that found the queue full, and returned.
#[derive(Clone, Copy)]
struct Times {
    /// When it began.
    begin: u64,
    /// When it ended.
    end: u64,
}

/// The times of the call at this place, if it found the queue full and returned.
fn full_times(calls: &[Call], place: usize) -> Option<Times>
    ensures some { IfSome result (λ t. IsFullCall calls.now place t.begin t.end) }
    ensures none { IfNone result ((begin end : ℕ) → IsFullCall calls.now place begin end → ⊥) }
{
    let call = call_at(calls, place)?;
    match (call.act, call.end) {
        (Act::Full, Some(end)) => Some(Times {
            begin: call.begin,
            end,
        }),
        _ => None,
    }
}

/// Whether at each of these times fewer items than the queue holds may be in it.
fn are_fewer(rooms: &Rooms, times: Times) -> bool
    ensures fewer { (calls : List Call) → AreRooms calls rooms.now → result ≡ true → FewerIn calls rooms.now.number times.begin times.end }
    ensures more { (calls : List Call) → AreRooms calls rooms.now → result ≡ false → FewerIn calls rooms.now.number times.begin times.end → ⊥ }
{
    if may_hold(&rooms.begins, &rooms.ends, rooms.number, times.begin) {
        return false;
    }
    match last_room(rooms, times.end) {
        Some(time) => time < times.begin,
        None => true,
    }
}

/// Whether the call at this place found the queue full, though at each of its times fewer items than the queue holds may have
/// been in it.
fn is_not_full(calls: &[Call], rooms: &Rooms, place: usize) -> bool
    requires { AreRooms calls.now rooms.now }
    ensures so { (rules : Rules) → rules.capacity ≡ Some rooms.now.number → result ≡ true → NotFull rules calls.now place }
    ensures not { (rules : Rules) → rules.capacity ≡ Some rooms.now.number → result ≡ false → NotFull rules calls.now place → ⊥ }
{
    match full_times(calls, place) {
        Some(times) => are_fewer(rooms, times),
        None => false,
    }
}

/// The first such call.
fn first_not_full(calls: &[Call], rooms: &Rooms) -> Option<usize>
    requires { AreRooms calls.now rooms.now }
    ensures some { IfSome result (λ place. (rules : Rules) → rules.capacity ≡ Some rooms.now.number → NotFull rules calls.now place) }
    ensures none { IfNone result ((rules : Rules) → rules.capacity ≡ Some rooms.now.number → FullsArePossible rules calls.now) }
{
    for place in 0..calls.len() {
        if is_not_full(calls, rooms, place) {
            return Some(place);
        }
    }
    None
}

/// How many items the queue holds, if that is known.
pub fn capacity_of(rules: &Rules) -> Option<usize>
    ensures some { IfSome result (λ n. rules.now.capacity ≡ Some n) }
    ensures none { IfNone result (rules.now.capacity ≡ None) }
{
    let capacity = rules.capacity;
    match capacity {
        Some(number) => Some(number as usize),
        None => None,
    }
}

/// That a send found the queue full, though at each of its times fewer items than the queue holds may have been in it. It takes memory
/// in proportion to the log.
pub fn full_fault(
    alloc: Global,
    rules: &Rules,
    calls: &[Call],
    index: &Index,
) -> Result<Option<Fault>, AllocError>
    requires index { IsIndex calls.now index.now }
    requires none { NoFault rules.now calls.now }
    ensures some { IfOk result (λ found. IfSome found (Stands rules.now calls.now)) }
    ensures none { IfOk result (λ found. IfNone found (FullsArePossible rules.now calls.now)) }
{
    let Some(number) = capacity_of(rules) else {
        return Ok(None);
    };
    let begins = by_time(alloc, calls, index, None, Known::Begun)?;
    let ends = by_time(alloc, calls, index, None, Known::Taken)?;
    let last = last_rooms(alloc, &begins, &ends, number)?;
    let rooms = Rooms {
        begins,
        ends,
        number,
        last,
    };
    match first_not_full(calls, &rooms) {
        Some(call) => Ok(Some(Fault::NotFull { call })),
        None => Ok(None),
    }
}
