//! Faults that need more of the send receipts than their places.
ghost use Rattle.std.specs.Prelude.{◌≡◌, ◌≢◌, ℕ, ◌≤◌, ◌⊎◌, ◌↔◌, IsTrue, IfOk, IsPermutation, IsSortedByKey, Any};
ghost use Rattle.std.specs.Ordering.{nat_cmp};
ghost use Rattle.std.specs.Bool.{OnTrue, OnFalse};
ghost use Rattle.std.specs.List.Sorted.{IsNonDecreasingBy};
ghost use Rattle.cc_audit.specs.Least.{IsLeastUnless, RisesInSenders, referred};
ghost use Rattle.cc_audit.specs.Verdict.{SendNames, Differs, Altered, Disorder, DoubleAccept};

use crate::least::sooner;
use crate::{SendReceipt, TakeReceipt};
use cc_model::Item;
use std::alloc::{AllocError, Global};

/// The receipts, by reference, in the order of their places.
pub fn by_place(alloc: Global, sends: &[SendReceipt]) -> Result<Vec<&SendReceipt>, AllocError>
    ensures order { IfOk result (λ v. IsSortedByKey (λ s. s.now.place) nat_cmp v.items) }
    ensures same { IfOk result (λ v. IsPermutation sends.now (referred v.items)) }
{
    let mut placed: Vec<&SendReceipt> = sends.iter().collect(alloc)?;
    placed.sort_by_key(|s| s.place)?;
    Ok(placed)
}

/// The receipts of each sender together, in the order of their places if they come in that order.
pub fn by_sender(sends: Vec<&SendReceipt>) -> Result<Vec<&SendReceipt>, AllocError>
    requires { IsSortedByKey (λ s. s.now.place) nat_cmp sends.items }
    ensures senders { IfOk result (λ v. IsNonDecreasingBy (λ s. s.sender) (referred v.items)) }
    ensures places { IfOk result (λ v. RisesInSenders (referred v.items)) }
    ensures same { IfOk result (λ v. IsPermutation (referred sends.entry.items) (referred v.items)) }
{
    let mut sends = sends;
    sends.sort_by_key(|s| s.sender)?;
    Ok(sends)
}

/// Whether the item isn't what was sent.
fn differs(send: &SendReceipt, item: &Item) -> bool
    ensures { IsTrue result ↔ Differs send.now item.now }
{
    send.sender != item.sender
        || send.number != item.number
        || send.body.words() != item.body.words()
}

/// Whether a send receipt names the item's place and isn't of this item. Of several that name the place one is asked.
fn is_altered(sends: &[&SendReceipt], item: &Item) -> bool
    requires { IsSortedByKey (λ s. s.now.place) nat_cmp sends.now }
    ensures altered { OnTrue result (Any (λ s. SendNames item.now.place s × Differs s item.now) (referred sends.now)) }
    ensures same { OnFalse result (Any (λ s. SendNames item.now.place s × Differs s item.now) (referred sends.now) → DoubleAccept (referred sends.now) item.now.place) }
{
    match sends.binary_search_by_key(&item.place, |s| s.place) {
        Ok(i) => differs(sends[i], item),
        Err(_) => false,
    }
}

/// The least place at which what was taken isn't what was sent, as far as no place is sent twice.
#[tactic(auto, using(crate::proofs::Sought::all_seen))]
pub fn first_altered(sends: &[&SendReceipt], takes: &[TakeReceipt]) -> Option<u64>
    requires { IsSortedByKey (λ s. s.now.place) nat_cmp sends.now }
    ensures { IsLeastUnless (Altered (referred sends.now) takes.now) (DoubleAccept (referred sends.now)) result }
{
    let mut first = None;
    for take in takes {
        if is_altered(sends, &take.item) {
            first = sooner(first, Some(take.item.place));
        }
    }
    first
}

/// Whether the number of a sender's receipt isn't above that of the one before.
fn is_out_of_turn(before: &SendReceipt, here: &SendReceipt) -> bool
    ensures { IsTrue result ↔ ((before.now.sender ≡ here.now.sender) × (here.now.number ≤ before.now.number)) }
{
    before.sender == here.sender && here.number <= before.number
}

/// The least place that a sender was given out of turn, as far as no place is sent twice.
pub fn first_disorder(sends: &[&SendReceipt]) -> Option<u64>
    requires senders { IsNonDecreasingBy (λ s. s.sender) (referred sends.now) }
    requires places { RisesInSenders (referred sends.now) }
    ensures { IsLeastUnless (Disorder (referred sends.now)) (DoubleAccept (referred sends.now)) result }
{
    let mut first = None;
    for i in 1..sends.len() {
        if is_out_of_turn(sends[i - 1], sends[i]) {
            first = sooner(first, Some(sends[i].place));
        }
    }
    first
}
