//! The places at which each item of a log was sent and taken.
ghost use Rattle.std.specs.Prelude.{◌≡◌, ◌≢◌, ℕ, IfOk, IfSome, IfNone, IsTrue, slice_get, slice_set, Some, None};
ghost use Rattle.cc_judge.specs.Names.{Call, Act, Kind, Found, Entry};
ghost use Rattle.cc_judge.specs.Table.{act_of, IsFound, IsPast, Enters};

use crate::{Act, Call};
use std::alloc::{AllocError, Global};

/// Which calls: those that send, or those that take.
#[derive(Clone, Copy, Drop)]
pub enum Kind {
    /// Sends.
    Send,
    /// Takes that got an item.
    Take,
}

/// The result of an entry in a table.
#[derive(Clone, Copy, Drop)]
pub enum Entry {
    /// It is entered.
    New,
    /// The item has an entry, with this place.
    Had(usize),
    /// The table has no such item.
    Stray,
}

/// The calls of one kind, by their items.
#[derive(Drop)]
pub enum Found {
    /// Of each item the place of its call, if there is one.
    Each(Vec<Option<u32>>),
    /// Two calls have one item.
    Twice(usize, usize),
    /// A call has an item past the number of items.
    Stray(usize),
}

/// The item of a call of this kind.
pub fn item_of(kind: Kind, act: Act) -> Option<u32>
    ensures some { IfSome result (λ item. act ≡ act_of kind item) }
    ensures none { IfNone result ((item : ℕ) → act ≢ act_of kind item) }
{
    match (kind, act) {
        (Kind::Send, Act::Send(item)) | (Kind::Take, Act::Took(item)) => Some(item),
        _ => None,
    }
}

/// A number in 32 bits, if it fits them.
pub fn narrow(number: usize) -> Option<u32>
    ensures { IfSome result (λ n. n ≡ number) }
{
    if number <= u32::MAX as usize {
        Some(number as u32)
    } else {
        None
    }
}

/// Enters the place of an item, unless it has one. A place past 2^32 counts as one for which there is no memory.
fn enter(table: &mut Vec<Option<u32>>, item: u32, place: usize) -> Result<Entry, AllocError>
    ensures { IfOk result (Enters table.old.items item place table.new.items) }
{
    let Some(here) = narrow(place) else {
        return Err(AllocError);
    };
    let item = item as usize;
    match table.get(item) {
        None => Ok(Entry::Stray),
        Some(Some(had)) => Ok(Entry::Had(*had as usize)),
        Some(None) => {
            table[item] = Some(here);
            Ok(Entry::New)
        }
    }
}

/// The call at a place.
pub fn call_at(calls: &[Call], place: usize) -> Option<Call>
    ensures some { IfSome result (λ call. slice_get calls.now place ≡ Some call) }
    ensures none { IfNone result (slice_get calls.now place ≡ None) }
{
    calls.get(place).copied()
}

/// The place of an item's call in a table of all calls of one kind.
pub fn place_in(table: &Vec<Option<u32>>, item: u32) -> Option<usize>
    ensures some { IfSome result (λ place. slice_get table.now.items item ≡ Some (Some place)) }
    ensures none { IfNone result ((place : ℕ) → slice_get table.now.items item ≢ Some (Some place)) }
{
    match table.get(item as usize) {
        Some(Some(place)) => Some(*place as usize),
        _ => None,
    }
}

/// Finds the calls of this kind by their items, which are below `items`. It takes memory in proportion to the items.
pub fn find(alloc: Global, calls: &[Call], items: usize, kind: Kind) -> Result<Found, AllocError>
    ensures found { IfOk result (IsFound calls.now kind) }
    ensures past { IfOk result (IsPast items calls.now kind) }
{
    let mut table = vec![in alloc; None; items]?;
    for (place, call) in calls.iter().enumerate() {
        if let Some(item) = item_of(kind, call.act) {
            match enter(&mut table, item, place)? {
                Entry::New => {}
                Entry::Had(first) => return Ok(Found::Twice(first, place)),
                Entry::Stray => return Ok(Found::Stray(place)),
            }
        }
    }
    Ok(Found::Each(table))
}
