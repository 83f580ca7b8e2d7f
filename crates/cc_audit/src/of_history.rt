//! The receipts of a history.
ghost use Rattle.std.specs.Prelude.{◌≡◌, ◌<◌, length, map, IfOk};
ghost use Rattle.std.specs.Option.{option_to_list};
ghost use Rattle.cc_model.specs.Items.{accepted_item};
ghost use Rattle.cc_model.specs.HistoryRoom.{lists};
ghost use Rattle.cc_audit.specs.Receipts as receipts;
ghost use Rattle.cc_audit.specs.Receipts.{sends_of, takes_of, total_of};

use crate::{SendReceipt, TakeReceipt};
use cc_model::{Answer, Call, CloseAnswer, Entry, History, Pass, SendAnswer, TakeAnswer};
use std::alloc::{AllocError, Global};

/// The receipt that a call's answer gives its sender.
fn send_receipt(entry: &Entry, answer: &Answer) -> Option<SendReceipt>
    ensures { option_to_list result ≡ map receipts.send_receipt (accepted_item entry.now answer.now) }
{
    match (entry.pass, entry.call, answer) {
        (Pass::Sender(sender), Call::Send(body), Answer::Send(SendAnswer::Accepted { place })) => {
            Some(SendReceipt {
                sender,
                number: entry.number,
                place: *place,
                body,
            })
        }
        _ => None,
    }
}

/// The receipt that a call's answer gives its receiver.
fn take_receipt(entry: &Entry, answer: &Answer) -> Option<TakeReceipt>
    ensures { option_to_list result ≡ receipts.take_receipt entry.now.pass answer.now }
{
    match (entry.pass, answer) {
        (Pass::Receiver(receiver), Answer::Take(TakeAnswer::Got(item))) => Some(TakeReceipt {
            receiver,
            item: *item,
        }),
        _ => None,
    }
}

/// The receipts of the sends that were accepted, in the order of their exchanges.
pub fn send_receipts(alloc: Global, history: &History) -> Result<Vec<SendReceipt>, AllocError>
    ensures { IfOk result (λ v. v.items ≡ sends_of (lists history.now)) }
{
    let sends = history.sends();
    let mut receipts = Vec::new(alloc);
    for (entry, answer) in sends.calls().iter().zip(sends.answers()) {
        if let Some(receipt) = send_receipt(entry, answer) {
            receipts.push(receipt)?;
        }
    }
    Ok(receipts)
}

/// The receipts of a group's takes that got an item, groups from 0, in the order of their exchanges.
pub fn take_receipts(
    alloc: Global,
    history: &History,
    group: usize,
) -> Result<Vec<TakeReceipt>, AllocError>
    requires { group < length history.now.takes }
    ensures { IfOk result (λ v. v.items ≡ takes_of (lists history.now) group) }
{
    let takes = history.takes(group);
    let mut receipts = Vec::new(alloc);
    for (entry, answer) in takes.calls().iter().zip(takes.answers()) {
        if let Some(receipt) = take_receipt(entry, answer) {
            receipts.push(receipt)?;
        }
    }
    Ok(receipts)
}

/// The total that a close returned, if one returned Shut.
pub fn total(history: &History) -> Option<u64>
    ensures { result ≡ total_of (lists history.now) }
{
    for answer in history.sends().answers() {
        if let Answer::Close(CloseAnswer::Shut { total }) = answer {
            return Some(*total);
        }
    }
    None
}
