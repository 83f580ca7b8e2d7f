//! A plan, and how it is read.
ghost use Rattle.std.specs.Prelude.{◌≡◌, ◌≤◌, not, IfOk, IsErrOf, length};
ghost use Rattle.std.specs.List.{position};
ghost use Rattle.serde_json.specs.View.{view};
ghost use Rattle.cc_plan.specs.Answers.{Gives};
ghost use Rattle.cc_plan.specs.Plan.{plan_value};
ghost use Rattle.cc_plan.specs.PlanLaws.{Valid};
ghost use Rattle.cc_plan.specs.PlanOf.{plan_of, plan_of_tree, values_of_tree, with_known_passes, has_pass};
ghost use Rattle.cc_io.specs.Input.{input_limit};
ghost use Rattle.cc_plan.specs.Names.{PlanFault};

use crate::fault::PlanFault;
use crate::tree::parse;
use cc_model::{Config, Pass, is_within};
use serde_json::Value;
use std::alloc::Global;

/// The plan of a run.
#[derive(Drop)]
pub struct Plan {
    /// The version of its format, 1 or 2.
    pub version: u32,
    /// A legal configuration, with as many senders, and in all groups as many receivers, as the next two lists have
    /// elements; in version 1 of one group. Each sender may send up to 2^32 - 1 times.
    pub config: Config,
    /// The calls of each of the 1 to 64 senders, at most 65,536 sends and closes each, in their order. In version 1 each
    /// body is of one word.
    pub senders: Vec<Calls>,
    /// How often each receiver takes, at most 65,536 times: group by group the 1 to 64 of each.
    pub receivers: Vec<u32>,
    /// The pass that goes on next, and by up to how many steps, from 1 to 100,000. At most 65,536 entries.
    pub schedule: Vec<(Pass, u32)>,
}

mod calls;
mod compact_call;
mod name;
pub mod shape;
mod values;

pub use calls::Calls;
use shape::has_plan_shape;
use values::values;

/// The plan that the bytes describe, or why they describe none: a fault of the whole shape is reported before one
/// of a range, a range in the order of the keys, and an unknown pass last.
#[tactic(auto, using(crate::proofs::Valid::valid_if_given))]
pub fn read_plan(alloc: Global, bytes: &[u8]) -> Result<Plan, PlanFault>
    ensures plan { Gives plan_value result (plan_of bytes.now) }
    ensures memory { IsErrOf result PlanFault.NoMemory → length bytes.now ≤ input_limit }
    ensures valid { IfOk result (λ plan. Valid (plan_value plan)) }
{
    read(alloc, bytes)
}

#[tactic(auto, unfolding(crate::specs::PlanOf::plan_of))]
fn read(alloc: Global, bytes: &[u8]) -> Result<Plan, PlanFault>
    ensures plan { Gives plan_value result (plan_of bytes.now) }
    ensures memory { IsErrOf result PlanFault.NoMemory → length bytes.now ≤ input_limit }
{
    let tree = parse(alloc, bytes)?;
    plan_in(alloc, &tree)
}

/// The plan that the tree describes.
pub fn plan_in(alloc: Global, tree: &Value) -> Result<Plan, PlanFault>
    ensures { Gives plan_value result (plan_of_tree (view tree.now)) }
{
    let plan = values_in(alloc, tree)?;
    with_known_passes(plan)
}

/// The values that the tree describes, whichever passes its schedule names.
fn values_in(alloc: Global, tree: &Value) -> Result<Plan, PlanFault>
    ensures { Gives plan_value result (values_of_tree (view tree.now)) }
{
    if !has_plan_shape(tree) {
        return Err(PlanFault::Shape);
    }
    values(alloc, tree)
}

/// The plan, unless its schedule names a pass that isn't there.
fn with_known_passes(plan: Plan) -> Result<Plan, PlanFault>
    ensures { Gives plan_value result (with_known_passes (plan_value plan)) }
{
    match stranger(&plan) {
        Some(place) => Err(PlanFault::UnknownPass(place)),
        None => Ok(plan),
    }
}

/// The place of the first schedule entry whose pass isn't there.
fn stranger(plan: &Plan) -> Option<usize>
    ensures { result ≡ position (λ e. not (has_pass plan.now.config e.0)) plan.now.schedule.items }
{
    plan.schedule
        .iter()
        .position(|e| !has_pass(&plan.config, e.0))
}

/// Whether the configuration has this pass.
fn has_pass(config: &Config, pass: Pass) -> bool
    ensures { result ≡ has_pass config.now pass }
{
    match pass {
        Pass::Sender(s) => is_within(u64::from(s), 1, u64::from(config.senders)),
        Pass::Receiver(r) => {
            let receivers = u64::from(config.groups) * u64::from(config.receivers);
            is_within(u64::from(r), 1, receivers)
        }
    }
}
