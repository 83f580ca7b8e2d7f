//! The values of a tree that has the shape of receipts.
ghost use Rattle.std.specs.Prelude.{◌≡◌, ◌≤◌, IfOk, IfSome, codes, map, option_map, option_and_then};
ghost use Rattle.serde_json.specs.Find.{get};
ghost use Rattle.serde_json.specs.View.{view};
ghost use Rattle.cc_plan.specs.Answers.{Gives};
ghost use Rattle.cc_plan.specs.Receipts.{receipts_value};
ghost use Rattle.cc_plan.specs.ReceiptsValues.{part, body_at, most_receivers, total_of, accepted_of, send_receipt_of, taken_of, take_receipt_of};
ghost use Rattle.cc_plan.specs.ReceiptsOf.{receipts_of_values};

use super::Receipts;
use crate::fault::PlanFault;
use crate::tree::{body_as, each, elements, number_in};
use crate::version::version;
use cc_audit::{SendReceipt, TakeReceipt};
use cc_model::{Body, Item};
use serde_json::Value;
use std::alloc::{AllocError, Global};

/// The values in their ranges, or the first key whose value is out of its range.
#[tactic(auto, unfolding(crate::specs::ReceiptsOf::receipts_of_values))]
pub fn values(alloc: Global, tree: &Value) -> Result<Receipts, PlanFault>
    ensures { Gives receipts_value result (receipts_of_values (view tree.now)) }
{
    let Some(version) = version(tree) else {
        return Err(PlanFault::Range("version"));
    };
    let Some(total) = total(tree) else {
        return Err(PlanFault::Range("total"));
    };
    let Some(accepted) = accepted(alloc, tree, version)? else {
        return Err(PlanFault::Range("accepted"));
    };
    let Some(taken) = taken(alloc, tree, version)? else {
        return Err(PlanFault::Range("taken"));
    };
    Ok(Receipts {
        accepted,
        taken,
        total,
    })
}

/// The total, if one is given.
fn total(tree: &Value) -> Option<Option<u64>>
    ensures { result ≡ total_of (view tree.now) }
{
    let Some(value) = tree.get("total") else {
        return Some(None);
    };
    if value.is_null() {
        return Some(None);
    }
    Some(Some(value.as_u64()?))
}

/// The receipts of the senders.
fn accepted(
    alloc: Global,
    tree: &Value,
    version: u32,
) -> Result<Option<Vec<SendReceipt>>, AllocError>
    ensures { IfOk result (λ all. option_map (λ v. v.items) all
        ≡ option_and_then (accepted_of version) (get (codes "accepted") (view tree.now))) }
{
    let Some(list) = tree.get("accepted").and_then(elements) else {
        return Ok(None);
    };
    each(alloc, list, |row| send_receipt(row, version))
}

/// A sender, its send's number, the item's place and its body.
fn send_receipt(value: &Value, version: u32) -> Option<SendReceipt>
    ensures { result ≡ send_receipt_of version (view value.now) }
{
    let list = elements(value)?;
    let sender = part(list, 0, 1, 64)?;
    let number = part(list, 1, 1, u64::from(u32::MAX))?;
    let place = part(list, 2, 0, u64::MAX)?;
    let body = body_at(list, 3, version)?;
    Some(SendReceipt {
        sender: sender as u32,
        number: number as u32,
        place,
        body,
    })
}

/// The receipts of the receivers.
fn taken(alloc: Global, tree: &Value, version: u32) -> Result<Option<Vec<TakeReceipt>>, AllocError>
    ensures { IfOk result (λ all. option_map (λ v. v.items) all
        ≡ option_and_then (taken_of version) (get (codes "taken") (view tree.now))) }
{
    let Some(list) = tree.get("taken").and_then(elements) else {
        return Ok(None);
    };
    each(alloc, list, |row| take_receipt(row, version))
}

/// A receiver, the item's place, its sender, its send's number and its body.
fn take_receipt(value: &Value, version: u32) -> Option<TakeReceipt>
    ensures { result ≡ take_receipt_of version (view value.now) }
{
    let list = elements(value)?;
    let receiver = part(list, 0, 1, most_receivers(version))?;
    let place = part(list, 1, 0, u64::MAX)?;
    let sender = part(list, 2, 1, 64)?;
    let number = part(list, 3, 1, u64::from(u32::MAX))?;
    let body = body_at(list, 4, version)?;
    Some(TakeReceipt {
        receiver: receiver as u32,
        item: Item {
            place,
            sender: sender as u32,
            number: number as u32,
            body,
        },
    })
}

/// The greatest number of a receiver: in version 2 there are eight groups of 64.
fn most_receivers(version: u32) -> u64
    ensures value { result ≡ most_receivers version }
    ensures range { result ≤ 512 }
{
    if version == 2 { 512 } else { 64 }
}

/// The whole number at a place of the row, if it is in its range.
fn part(list: &[Value], place: usize, low: u64, high: u64) -> Option<u64>
    ensures value { result ≡ part place low high (map view list.now) }
    ensures range { IfSome result (λ n. (low ≤ n) × (n ≤ high)) }
{
    number_in(list.get(place)?, low, high)
}

/// The body at a place of the row.
fn body_at(list: &[Value], place: usize, version: u32) -> Option<Body>
    ensures { result ≡ body_at version place (map view list.now) }
{
    body_as(list.get(place)?, version)
}
