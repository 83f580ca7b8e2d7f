//! The tree of a JSON text, and plain questions about a tree.
ghost use Rattle.std.specs.Prelude.{◌≡◌, ◌≤◌, ℕ, Bool, List, Option, map, IfOk, IfSome, IsErrOf, OnOk, option_map, length};
ghost use Rattle.std.specs.List.{list_all};
ghost use Rattle.serde_json.specs.Data.{Data};
ghost use Rattle.serde_json.specs.View.{view, members_view};
ghost use Rattle.cc_plan.specs.Json.{json_of, elements, is_list_of, pair_of, each, is_number, is_word, number_in, body_in, is_body, body_as, keys, has_only};
ghost use Rattle.cc_plan.specs.Closures.{Computes, TestsText};
ghost use Rattle.cc_plan.specs.Answers.{Gives};
ghost use Rattle.cc_plan.specs.Refusal.{tree_of};
ghost use Rattle.cc_io.specs.Input.{input_limit};
ghost use Rattle.cc_plan.specs.Names.{PlanFault};

use crate::fault::PlanFault;
use cc_io::INPUT_LIMIT;
use cc_model::{Body, is_within};
use serde_json::{Category, Map, Value};
use std::alloc::{AllocError, Global};

/// The tree of an input, or that it is too long or no JSON.
#[tactic(auto, unfolding(crate::specs::Refusal::tree_of))]
pub fn parse(alloc: Global, bytes: &[u8]) -> Result<Value, PlanFault>
    ensures tree { Gives view result (tree_of bytes.now) }
    ensures short { OnOk result (length bytes.now ≤ input_limit) }
    ensures memory { IsErrOf result PlanFault.NoMemory → length bytes.now ≤ input_limit }
{
    if bytes.len() > INPUT_LIMIT {
        return Err(PlanFault::Range("input"));
    }
    match read_json(alloc, bytes)? {
        Some(tree) => Ok(tree),
        None => Err(PlanFault::NotJson),
    }
}

/// The tree that the bytes spell, if they are UTF-8 and JSON.
#[tactic(auto, using(crate::proofs::Trees::json_of_text, crate::proofs::Trees::no_tree))]
pub fn read_json(alloc: Global, bytes: &[u8]) -> Result<Option<Value>, AllocError>
    ensures { IfOk result (λ tree. option_map view tree ≡ json_of bytes.now) }
{
    match Value::from_slice(alloc, bytes) {
        Ok(value) => Ok(Some(value)),
        Err(e) => match e.classify() {
            Category::Memory => Err(AllocError),
            _ => Ok(None),
        },
    }
}

/// The elements of an array.
#[tactic(auto, using(crate::proofs::Trees::listed_all))]
pub fn elements(value: &Value) -> Option<&[Value]>
    ensures { option_map (λ l. map view l.now) result ≡ elements (view value.now) }
{
    Some(value.as_array()?.as_slice())
}

/// Whether the value is an array whose elements all pass.
pub fn is_list_of<F: Fn(&Value) -> bool>(value: &Value, passes: F) -> bool
    requires { F.IsAlwaysCallable passes }
    ensures { (test : Data → Bool) → Computes F.Fn passes test
        → result ≡ is_list_of test (view value.now) }
{
    let Some(list) = elements(value) else {
        return false;
    };
    for element in list {
        if !passes(element) {
            return false;
        }
    }
    true
}

/// The two elements, if there are just two.
pub fn pair(list: &[Value]) -> Option<(&Value, &Value)>
    ensures { option_map (λ p. (view p.0.now, view p.1.now)) result ≡ pair_of (map view list.now) }
{
    match list {
        [] => None,
        [_] => None,
        [first, second] => Some((first, second)),
        [_, _, _, ..] => None,
    }
}

/// The values of the elements, if each has one.
pub fn each<T: Drop, F: Fn(&Value) -> Option<T>>(
    alloc: Global,
    list: &[Value],
    read: F,
) -> Result<Option<Vec<T>>, AllocError>
    requires { F.IsAlwaysCallable read }
    ensures value { (f : Data → Option T) → Computes F.Fn read f
        → IfOk result (λ all. option_map (λ v. v.items) all ≡ each f (map view list.now)) }
    ensures count { IfOk result (λ all. IfSome all (λ v. length v.items ≡ length list.now)) }
{
    let mut all = Vec::new(alloc);
    for element in list {
        let Some(x) = read(element) else {
            return Ok(None);
        };
        all.push(x)?;
    }
    Ok(Some(all))
}

/// Whether the value is a number of any kind.
pub fn is_number(value: &Value) -> bool
    ensures { result ≡ is_number (view value.now) }
{
    value.is_number()
}

/// Whether the value is an array of numbers of any kind.
pub fn is_numbers(value: &Value) -> bool
    ensures { result ≡ is_list_of is_number (view value.now) }
{
    is_list_of(value, is_number)
}

/// The whole number that the value is, if it is in a range, its ends counted in.
pub fn number_in(value: &Value, low: u64, high: u64) -> Option<u64>
    ensures value { result ≡ number_in low high (view value.now) }
    ensures range { IfSome result (λ n. (low ≤ n) × (n ≤ high)) }
{
    let n = value.as_u64()?;
    is_within(n, low, high).then_some(n)
}

/// The body whose words the array lists: one to four whole numbers.
pub fn body(value: &Value) -> Option<Body>
    ensures { result ≡ body_in (view value.now) }
{
    match elements(value)? {
        [] => None,
        [a] => Some(Body::one(a.as_u64()?)),
        [a, b] => Some(Body::two(a.as_u64()?, b.as_u64()?)),
        [a, b, c] => Some(Body::three(a.as_u64()?, b.as_u64()?, c.as_u64()?)),
        [a, b, c, d] => Some(Body::four(a.as_u64()?, b.as_u64()?, c.as_u64()?, d.as_u64()?)),
        [_, _, _, _, _, ..] => None,
    }
}

/// Whether the value is a number, or in version 2 an array of numbers.
pub fn is_body(value: &Value, version: u32) -> bool
    ensures { result ≡ is_body version (view value.now) }
{
    if version == 2 {
        is_numbers(value)
    } else {
        is_number(value)
    }
}

/// The body whose one word is the whole number, or in version 2 whose words the array lists.
pub fn body_as(value: &Value, version: u32) -> Option<Body>
    ensures { result ≡ body_as version (view value.now) }
{
    if version == 2 {
        body(value)
    } else {
        Some(Body::one(value.as_u64()?))
    }
}

/// Whether the value is this very text.
pub fn is_word(value: &Value, word: &str) -> bool
    ensures { result ≡ is_word word.now (view value.now) }
{
    match value.as_str() {
        Some(text) => text == word,
        None => false,
    }
}

/// Whether the value is an object with no other keys than the known ones.
pub fn has_only<F: Fn(&str) -> bool>(value: &Value, is_known: F) -> bool
    requires { F.IsAlwaysCallable is_known }
    ensures { (known : List ℕ → Bool) → TestsText F.Fn is_known known
        → result ≡ has_only known (view value.now) }
{
    match value.as_object() {
        Some(members) => has_known_keys(members, is_known),
        None => false,
    }
}

fn has_known_keys<F: Fn(&str) -> bool>(members: &Map<String, Value>, is_known: F) -> bool
    requires { F.IsAlwaysCallable is_known }
    ensures { (known : List ℕ → Bool) → TestsText F.Fn is_known known
        → result ≡ list_all known (keys (members_view members.now.entries)) }
{
    for key in members.keys() {
        if !is_known(key.as_str()) {
            return false;
        }
    }
    true
}
