//! The shape of the tree of receipts, whatever its numbers are.
ghost use Rattle.std.specs.Prelude.{◌≡◌, codes, map};
ghost use Rattle.std.specs.List.{list_all};
ghost use Rattle.serde_json.specs.View.{view};
ghost use Rattle.cc_plan.specs.Json.{is_list_of, is_number, has_only, has, may_have};
ghost use Rattle.cc_plan.specs.ReceiptsShape.{are_parts, is_row, is_total, is_receipts_key, has_receipts_shape};

use crate::tree::{elements, has_only, is_body, is_list_of, is_number};
use crate::version::table;
use serde_json::Value;

/// Whether the tree is an object of the keys of receipts, `accepted` and `taken` there, with values of their shapes.
#[tactic(auto, unfolding(crate::specs::ReceiptsShape::has_receipts_shape))]
pub fn has_receipts_shape(tree: &Value) -> bool
    ensures { result ≡ has_receipts_shape (view tree.now) }
{
    let version = table(tree);
    has_receipts_keys(tree)
        && tree.get("version").is_none_or(is_number)
        && tree.get("total").is_none_or(is_total)
        && tree
            .get("accepted")
            .is_some_and(|v| are_rows(v, version, 3))
        && tree.get("taken").is_some_and(|v| are_rows(v, version, 4))
}

fn has_receipts_keys(tree: &Value) -> bool
    ensures { result ≡ has_only is_receipts_key (view tree.now) }
{
    has_only(tree, is_receipts_key)
}

pub fn is_receipts_key(key: &str) -> bool
    ensures { result ≡ is_receipts_key key.now }
{
    matches!(key, "version" | "total" | "accepted" | "taken")
}

fn is_total(value: &Value) -> bool
    ensures { result ≡ is_total (view value.now) }
{
    is_number(value) || value.is_null()
}

/// Whether the value is an array of rows, each of this number of numbers and a body.
fn are_rows(value: &Value, version: u32, numbers: usize) -> bool
    ensures { result ≡ is_list_of (is_row version numbers) (view value.now) }
{
    is_list_of(value, |row| is_row(row, version, numbers))
}

/// Whether the value is an array of exactly this number of numbers, and a body after them.
fn is_row(value: &Value, version: u32, numbers: usize) -> bool
    ensures { result ≡ is_row version numbers (view value.now) }
{
    match elements(value) {
        Some(list) => are_parts(list, version, numbers),
        None => false,
    }
}

fn are_parts(list: &[Value], version: u32, numbers: usize) -> bool
    ensures { result ≡ are_parts version numbers (map view list.now) }
{
    match list.split_last() {
        Some((body, first)) => {
            first.len() == numbers && are_numbers(first) && is_body(body, version)
        }
        None => false,
    }
}

fn are_numbers(list: &[Value]) -> bool
    ensures { result ≡ list_all is_number (map view list.now) }
{
    list.iter().all(|value| is_number(value))
}
