//! The audit: the verdict on the receipts of sends and takes, in any order.
ghost use Rattle.std.specs.Prelude.{◌≡◌, map, IfOk, IsPermutation};
ghost use Rattle.std.specs.List.Sorted.{IsNonDecreasing};
ghost use Rattle.cc_audit.specs.Verdict.{IsVerdict};

use crate::least::or_fault;
use crate::places::{first_double, first_gap, first_overrun, first_stranger, sorted};
use crate::sends::{by_place, by_sender, first_altered, first_disorder};
use crate::{SendReceipt, TakeReceipt, Verdict};
use std::alloc::{AllocError, Global};

/// The places on send receipts, in order.
fn places_sent(alloc: Global, sends: &[SendReceipt]) -> Result<Vec<u64>, AllocError>
    ensures order { IfOk result (λ v. IsNonDecreasing v.items) }
    ensures same { IfOk result (λ v. IsPermutation (map (λ s. s.place) sends.now) v.items) }
{
    sorted(sends.iter().map(|s| s.place).collect(alloc)?)
}

/// The places on take receipts, in order.
fn places_taken(alloc: Global, takes: &[TakeReceipt]) -> Result<Vec<u64>, AllocError>
    ensures order { IfOk result (λ v. IsNonDecreasing v.items) }
    ensures same { IfOk result (λ v. IsPermutation (map (λ t. t.item.place) takes.now) v.items) }
{
    sorted(takes.iter().map(|t| t.item.place).collect(alloc)?)
}

/// The verdict on these receipts, whatever their order, with the total that a close returned. It takes memory in
/// proportion to the receipts: first for the places alone, and after these are released for a reference to each receipt
/// of a send.
pub fn audit(
    alloc: Global,
    sends: &[SendReceipt],
    takes: &[TakeReceipt],
    total: Option<u64>,
) -> Result<Verdict, AllocError>
    ensures { IfOk result (IsVerdict sends.now takes.now total) }
{
    let sent_list = places_sent(alloc, sends)?;
    let taken_list = places_taken(alloc, takes)?;
    let sent = sent_list.as_slice();
    let taken = taken_list.as_slice();
    let sent_twice = first_double(sent);
    let taken_twice = first_double(taken);
    let stranger = first_stranger(sent, taken);
    let gap = first_gap(taken);
    let overrun = first_overrun(sent, taken, total);
    drop(sent_list);
    drop(taken_list);
    let placed = by_place(alloc, sends)?;
    let altered = first_altered(placed.as_slice(), takes);
    let grouped = by_sender(placed)?;
    let disorder = first_disorder(grouped.as_slice());

    let verdict = or_fault(Verdict::Clean, 1, sent_twice);
    let verdict = or_fault(verdict, 2, taken_twice);
    let verdict = or_fault(verdict, 3, stranger);
    let verdict = or_fault(verdict, 4, altered);
    let verdict = or_fault(verdict, 5, gap);
    let verdict = or_fault(verdict, 6, disorder);
    Ok(or_fault(verdict, 7, overrun))
}
