//! The values of a plan's tree that has its shape.
ghost use Rattle.std.specs.Prelude.{◌≡◌, ◌≤◌, IfOk, IfSome, codes, map, option_map, option_and_then, length, true, ◌/◌};
ghost use Rattle.serde_json.specs.Find.{get};
ghost use Rattle.serde_json.specs.View.{view};
ghost use Rattle.cc_plan.specs.Json.{each, number_in};
ghost use Rattle.cc_plan.specs.Answers.{Gives};
ghost use Rattle.cc_plan.specs.Calls.{calls_in};
ghost use Rattle.cc_plan.specs.Plan.{plan_value};
ghost use Rattle.cc_plan.specs.PlanLaws.{IsOfSender};
ghost use Rattle.cc_plan.specs.PlanOf.{config_of, plan_of_lists, plan_of_values};
ghost use Rattle.cc_plan.specs.PlanValues.{counted, groups_of, call_of, calls_of, senders_of, fill_groups, receivers_of, entry_of, schedule_of};

use super::shape::named;
use super::{Calls, Plan};
use crate::fault::PlanFault;
use crate::tree::{body_as, each, elements, is_word, number_in, pair};
use crate::version::version;
use cc_model::{Call, Config, Pass, is_within};
use serde_json::Value;
use std::alloc::{AllocError, Global};

/// The values in their ranges, or the first key whose value is out of its range.
#[tactic(auto, unfolding(crate::specs::PlanOf::plan_of_values))]
pub fn values(alloc: Global, tree: &Value) -> Result<Plan, PlanFault>
    ensures { Gives plan_value result (plan_of_values (view tree.now)) }
{
    let Some(version) = version(tree) else {
        return Err(PlanFault::Range("version"));
    };
    let Some(groups) = groups(tree, version) else {
        return Err(PlanFault::Range("groups"));
    };
    let Some(capacity) = number_at(tree, "capacity", 4096) else {
        return Err(PlanFault::Range("capacity"));
    };
    let Some(bound) = number_at(tree, "bound", 1024) else {
        return Err(PlanFault::Range("bound"));
    };
    let Some(life) = number_at(tree, "life", 1 << 48) else {
        return Err(PlanFault::Range("life"));
    };
    let numbers = Numbers {
        version,
        groups,
        capacity: capacity as u32,
        bound: bound as u32,
        life,
    };
    with_lists(alloc, tree, numbers)
}

/// The values of a plan that are numbers.
#[derive(Clone, Copy)]
struct Numbers {
    version: u32,
    groups: usize,
    capacity: u32,
    bound: u32,
    life: u64,
}

/// The plan of these numbers and of the tree's lists.
#[tactic(auto, unfolding(crate::specs::PlanOf::plan_of_lists))]
fn with_lists(alloc: Global, tree: &Value, numbers: Numbers) -> Result<Plan, PlanFault>
    requires { (1 ≤ numbers.groups) × (numbers.groups ≤ 8) }
    ensures { Gives plan_value result (plan_of_lists numbers.version numbers.groups numbers.capacity numbers.bound
        numbers.life (view tree.now)) }
{
    let Some(senders) = senders(alloc, tree, numbers.version)? else {
        return Err(PlanFault::Range("senders"));
    };
    let Some(receivers) = receivers(alloc, tree, numbers.groups)? else {
        return Err(PlanFault::Range("receivers"));
    };
    let Some(schedule) = schedule(alloc, tree)? else {
        return Err(PlanFault::Range("schedule"));
    };
    let config = config(numbers, senders.len(), receivers.len());
    Ok(Plan {
        version: numbers.version,
        config,
        senders,
        receivers,
        schedule,
    })
}

/// The configuration of the numbers, for this number of senders, and of receivers in all groups.
fn config(numbers: Numbers, senders: usize, receivers: usize) -> Config
    requires { (1 ≤ numbers.groups) × (numbers.groups ≤ 8) × (senders ≤ 64) × (receivers / numbers.groups ≤ 64) }
    ensures { result ≡ config_of numbers.groups senders (receivers / numbers.groups) numbers.capacity numbers.bound
        numbers.life }
{
    Config {
        senders: senders as u32,
        receivers: (receivers / numbers.groups) as u32,
        capacity: numbers.capacity,
        bound: numbers.bound,
        life: numbers.life,
        per_sender: u32::MAX,
        groups: numbers.groups as u32,
    }
}

/// In how many groups the receivers are: in version 1 in one.
fn groups(tree: &Value, version: u32) -> Option<usize>
    ensures value { result ≡ groups_of version (view tree.now) }
    ensures range { IfSome result (λ n. (1 ≤ n) × (n ≤ 8)) }
{
    if version == 2 {
        Some(number_at(tree, "groups", 8)? as usize)
    } else {
        Some(1)
    }
}

/// The whole number at the key, from 1 to a limit.
fn number_at(tree: &Value, key: &str, high: u64) -> Option<u64>
    ensures value { result ≡ option_and_then (number_in 1 high) (get key.now (view tree.now)) }
    ensures range { IfSome result (λ n. (1 ≤ n) × (n ≤ high)) }
{
    number_in(tree.get(key)?, 1, high)
}

/// The elements, if their number is within the range.
fn counted(value: &Value, low: u64, high: u64) -> Option<&[Value]>
    ensures value { option_map (λ l. map view l.now) result ≡ counted low high (view value.now) }
    ensures range { IfSome result (λ l. length l.now ≤ high) }
{
    let list = elements(value)?;
    if is_within(list.len() as u64, low, high) {
        Some(list)
    } else {
        None
    }
}

/// The calls of each sender, in its order.
fn senders(alloc: Global, tree: &Value, version: u32) -> Result<Option<Vec<Calls>>, AllocError>
    ensures value { IfOk result (λ all. option_map (λ v. map calls_in v.items) all
        ≡ option_and_then (senders_of version) (get (codes "senders") (view tree.now))) }
    ensures range { IfOk result (λ all. IfSome all (λ v. length v.items ≤ 64)) }
{
    let Some(list) = tree.get("senders").and_then(|v| counted(v, 1, 64)) else {
        return Ok(None);
    };
    each_sender(alloc, list, version)
}

fn each_sender(
    alloc: Global,
    list: &[Value],
    version: u32,
) -> Result<Option<Vec<Calls>>, AllocError>
    ensures value { IfOk result (λ all. option_map (λ v. map calls_in v.items) all
        ≡ each (calls_of version) (map view list.now)) }
    ensures count { IfOk result (λ all. IfSome all (λ v. length v.items ≡ length list.now)) }
{
    let mut all = Vec::new(alloc);
    for element in list {
        let Some(calls) = calls(alloc, element, version)? else {
            return Ok(None);
        };
        all.push(calls)?;
    }
    Ok(Some(all))
}

/// The calls of one sender.
fn calls(alloc: Global, value: &Value, version: u32) -> Result<Option<Calls>, AllocError>
    ensures { IfOk result (λ all. option_map calls_in all ≡ calls_of version (view value.now)) }
{
    let Some(list) = counted(value, 0, 65_536) else {
        return Ok(None);
    };
    each_call(alloc, list, version)
}

fn each_call(alloc: Global, list: &[Value], version: u32) -> Result<Option<Calls>, AllocError>
    ensures { IfOk result (λ all. option_map calls_in all ≡ each (call_of version) (map view list.now)) }
{
    let mut all = Calls::new(alloc);
    for element in list {
        let Some(call) = call(element, version) else {
            return Ok(None);
        };
        all.push(call)?;
    }
    Ok(Some(all.shrunk()))
}

/// `close`, or a send of a body.
fn call(value: &Value, version: u32) -> Option<Call>
    ensures call { result ≡ call_of version (view value.now) }
    ensures sender { IfSome result IsOfSender }
{
    if is_word(value, "close") {
        return Some(Call::Close);
    }
    Some(Call::Send(body_as(value, version)?))
}

/// How often each receiver takes, group by group.
fn receivers(alloc: Global, tree: &Value, groups: usize) -> Result<Option<Vec<u32>>, AllocError>
    requires { 1 ≤ groups }
    ensures value { IfOk result (λ all. option_map (λ v. v.items) all
        ≡ option_and_then (receivers_of groups) (get (codes "receivers") (view tree.now))) }
    ensures range { IfOk result (λ all. IfSome all (λ v. length v.items / groups ≤ 64)) }
{
    let Some(list) = tree.get("receivers").and_then(elements) else {
        return Ok(None);
    };
    if !fill_groups(list.len(), groups) {
        return Ok(None);
    }
    each(alloc, list, takes)
}

/// Whether this number of receivers makes up the groups: in each as many as in the others, 1 to 64.
fn fill_groups(count: usize, groups: usize) -> bool
    requires { 1 ≤ groups }
    ensures value { result ≡ fill_groups groups count }
    ensures range { result ≡ true → count / groups ≤ 64 }
{
    count % groups == 0 && is_within((count / groups) as u64, 1, 64)
}

fn takes(value: &Value) -> Option<u32>
    ensures { result ≡ number_in 0 65536 (view value.now) }
{
    Some(number_in(value, 0, 65_536)? as u32)
}

/// The entries of the schedule.
fn schedule(alloc: Global, tree: &Value) -> Result<Option<Vec<(Pass, u32)>>, AllocError>
    ensures { IfOk result (λ all. option_map (λ v. v.items) all
        ≡ option_and_then schedule_of (get (codes "schedule") (view tree.now))) }
{
    let Some(list) = tree.get("schedule").and_then(|v| counted(v, 0, 65_536)) else {
        return Ok(None);
    };
    each(alloc, list, entry)
}

/// A pass, and up to how many steps it makes.
fn entry(value: &Value) -> Option<(Pass, u32)>
    ensures { result ≡ entry_of (view value.now) }
{
    let (name, number) = pair(elements(value)?)?;
    let pass = named(name)?;
    Some((pass, number_in(number, 1, 100_000)? as u32))
}
