//! The version of its format that a tree names.
ghost use Rattle.std.specs.Prelude.{◌≡◌, codes};
ghost use Rattle.serde_json.specs.View.{view};
ghost use Rattle.cc_plan.specs.Version.{version_of, table_of};

use crate::tree::number_in;
use serde_json::Value;

/// The version, 1 or 2, and 1 if none is named.
pub fn version(tree: &Value) -> Option<u32>
    ensures { result ≡ version_of (view tree.now) }
{
    match tree.get("version") {
        Some(value) => Some(number_in(value, 1, 2)? as u32),
        None => Some(1),
    }
}

/// The version whose table of keys the tree is read by.
pub fn table(tree: &Value) -> u32
    ensures { result ≡ table_of (view tree.now) }
{
    version(tree).unwrap_or(1)
}
