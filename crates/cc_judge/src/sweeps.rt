//! The faults of items that overtook others, and of takes that found none: each is found, or there is none.
ghost use Rattle.std.specs.Prelude.{List};
ghost use Rattle.cc_judge.specs.Names.{Call, Rules};
ghost use Rattle.cc_judge.specs.Sweeps.{AreLists, LeftsReach, Reaches, MovesOn, EmptyAt, HasEndedIf};

use crate::lists::{Lists, are_enough, are_enough_upto, before, latest_before, latest_upto, upto};

/// Until when an item is in the queue for certain.
#[derive(Clone, Copy, Drop)]
pub enum Reach {
    /// None may be.
    Free,
    /// Until this time.
    Until(u64),
    /// For ever.
    Forever,
}

/// Until when items are in the queue for certain that are more than the takes that may have them.
fn lefts_reach(lists: &Lists, time: u64) -> Reach
    ensures reaches { (rules : Rules) (calls : List Call) → AreLists rules calls lists.now → LeftsReach rules calls time result }
    ensures on { MovesOn time result }
{
    let left = before(&lists.lefts, time);
    if left <= upto(&lists.waits, time) {
        return Reach::Free;
    }
    match lists.waits.get(left - 1) {
        Some((begin, _)) if time < *begin => Reach::Until(*begin),
        _ => Reach::Forever,
    }
}

/// Until when an item is in the queue for certain that was sent before a time.
pub fn reach_of(lists: &Lists, time: u64) -> Reach
    ensures reaches { (rules : Rules) (calls : List Call) → AreLists rules calls lists.now → Reaches rules calls time result }
    ensures on { MovesOn time result }
{
    match latest_before(lists, time) {
        Some(spell) if time < spell.until => Reach::Until(spell.until),
        _ => lefts_reach(lists, time),
    }
}

/// A time from the one to the other at which the queue may have been empty.
pub fn empty_at(lists: &Lists, begin: u64, end: u64) -> Option<u64>
    ensures { (rules : Rules) (calls : List Call) → AreLists rules calls lists.now → EmptyAt rules calls begin end result }
{
    let mut time = begin;
    while time <= end {
        match reach_of(lists, time) {
            Reach::Free => return Some(time),
            Reach::Until(next) => time = next,
            Reach::Forever => return None,
        }
    }
    None
}

/// Whether an item whose send was done by a time may not have been in the queue after that.
pub fn has_ended(lists: &Lists, end: u64) -> bool
    ensures { (rules : Rules) (calls : List Call) → AreLists rules calls lists.now → HasEndedIf rules calls end result }
{
    match latest_upto(lists, end) {
        Some(spell) if end < spell.until => false,
        _ => are_enough_upto(lists, end, end),
    }
}
