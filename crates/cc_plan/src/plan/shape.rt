//! The shape of a plan's tree, whatever its numbers are.
ghost use Rattle.std.specs.Prelude.{◌≡◌, codes};
ghost use Rattle.serde_json.specs.View.{view};
ghost use Rattle.cc_plan.specs.Json.{is_list_of, is_number, has_only, has, may_have};
ghost use Rattle.cc_plan.specs.PlanShape.{is_call, named, is_entry, is_plan_key, has_groups, has_numbers, has_lists, has_plan_shape};

use super::name::pass;
use crate::tree::{elements, has_only, is_body, is_list_of, is_number, is_numbers, is_word, pair};
use crate::version::table;
use cc_model::Pass;
use serde_json::Value;

/// Whether the tree is an object of the keys of its table, each but `version` there, with values of their shapes.
#[tactic(auto, unfolding(crate::specs::PlanShape::has_plan_shape))]
pub fn has_plan_shape(tree: &Value) -> bool
    ensures { result ≡ has_plan_shape (view tree.now) }
{
    let version = table(tree);
    has_plan_keys(tree, version) && has_numbers(tree, version) && has_lists(tree, version)
}

fn has_plan_keys(tree: &Value, version: u32) -> bool
    ensures { result ≡ has_only (is_plan_key version) (view tree.now) }
{
    has_only(tree, |key| is_plan_key(key, version))
}

/// Whether a plan of this version may have the key.
pub fn is_plan_key(key: &str, version: u32) -> bool
    ensures { result ≡ is_plan_key version key.now }
{
    matches!(
        key,
        "version" | "capacity" | "bound" | "life" | "senders" | "receivers" | "schedule"
    ) || (version == 2 && key == "groups")
}

/// Whether each key but those of the lists has a number, if it has to be there.
#[tactic(auto, unfolding(crate::specs::PlanShape::has_numbers))]
fn has_numbers(tree: &Value, version: u32) -> bool
    ensures { result ≡ has_numbers version (view tree.now) }
{
    tree.get("version").is_none_or(is_number)
        && has_groups(tree, version)
        && tree.get("capacity").is_some_and(is_number)
        && tree.get("bound").is_some_and(is_number)
        && tree.get("life").is_some_and(is_number)
}

/// Whether there is a number of groups, if the version has groups.
fn has_groups(tree: &Value, version: u32) -> bool
    ensures { result ≡ has_groups version (view tree.now) }
{
    version != 2 || tree.get("groups").is_some_and(is_number)
}

/// Whether each of the lists is there, and has its shape.
#[tactic(auto, unfolding(crate::specs::PlanShape::has_lists))]
fn has_lists(tree: &Value, version: u32) -> bool
    ensures { result ≡ has_lists version (view tree.now) }
{
    tree.get("senders").is_some_and(|v| is_senders(v, version))
        && tree.get("receivers").is_some_and(is_numbers)
        && tree.get("schedule").is_some_and(is_schedule)
}

/// Whether the value is a body or the text `close`.
fn is_call(value: &Value, version: u32) -> bool
    ensures { result ≡ is_call version (view value.now) }
{
    is_body(value, version) || is_word(value, "close")
}

fn is_calls(value: &Value, version: u32) -> bool
    ensures { result ≡ is_list_of (is_call version) (view value.now) }
{
    is_list_of(value, |v| is_call(v, version))
}

fn is_senders(value: &Value, version: u32) -> bool
    ensures { result ≡ is_list_of (is_list_of (is_call version)) (view value.now) }
{
    is_list_of(value, |v| is_calls(v, version))
}

/// Whether the value is a pass name and a number.
fn is_entry(value: &Value) -> bool
    ensures { result ≡ is_entry (view value.now) }
{
    match elements(value).and_then(pair) {
        Some((name, number)) => named(name).is_some() && is_number(number),
        None => false,
    }
}

fn is_schedule(value: &Value) -> bool
    ensures { result ≡ is_list_of is_entry (view value.now) }
{
    is_list_of(value, is_entry)
}

/// The pass that the value names.
pub fn named(value: &Value) -> Option<Pass>
    ensures { result ≡ named (view value.now) }
{
    pass(value.as_str()?.as_bytes())
}
