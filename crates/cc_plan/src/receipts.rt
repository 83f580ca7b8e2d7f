//! Receipts, and how they are read.
ghost use Rattle.std.specs.Prelude.{◌≡◌, ◌≤◌, IsErrOf, length};
ghost use Rattle.serde_json.specs.View.{view};
ghost use Rattle.cc_plan.specs.Answers.{Gives};
ghost use Rattle.cc_plan.specs.Receipts.{receipts_value};
ghost use Rattle.cc_plan.specs.ReceiptsOf.{receipts_of, receipts_of_tree};
ghost use Rattle.cc_io.specs.Input.{input_limit};
ghost use Rattle.cc_plan.specs.Names.{PlanFault};

use crate::fault::PlanFault;
use crate::tree::parse;
use cc_audit::{SendReceipt, TakeReceipt};
use serde_json::Value;
use std::alloc::Global;

/// The receipts of the senders and receivers of one topic, in any order, and the total that its close returned, if one
/// did.
#[derive(Drop)]
pub struct Receipts {
    /// A receipt for each send that a sender knows to be accepted.
    pub accepted: Vec<SendReceipt>,
    /// A receipt for each take that got an item.
    pub taken: Vec<TakeReceipt>,
    /// The number of items accepted, as a close returned it.
    pub total: Option<u64>,
}

pub mod shape;
mod values;

use shape::has_receipts_shape;
use values::values;

/// The receipts that the bytes describe, or why they describe none.
#[tactic(auto, unfolding(crate::specs::ReceiptsOf::receipts_of))]
pub fn read_receipts(alloc: Global, bytes: &[u8]) -> Result<Receipts, PlanFault>
    ensures receipts { Gives receipts_value result (receipts_of bytes.now) }
    ensures memory { IsErrOf result PlanFault.NoMemory → length bytes.now ≤ input_limit }
{
    let tree = parse(alloc, bytes)?;
    receipts_in(alloc, &tree)
}

/// The receipts that the tree describes.
pub fn receipts_in(alloc: Global, tree: &Value) -> Result<Receipts, PlanFault>
    ensures { Gives receipts_value result (receipts_of_tree (view tree.now)) }
{
    if !has_receipts_shape(tree) {
        return Err(PlanFault::Shape);
    }
    values(alloc, tree)
}
