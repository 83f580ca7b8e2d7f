//! The place of a fault: the first value that doesn't pass, by its path in the tree, and then in the text.

use super::stray::stray;
use super::walk::{Found, Trail, ValueKind, key_at, root, value_at};
use super::wanted::{Check, Kind, Table, Wanted, fits_length, keys, wanted_at, wanted_inside};
use super::{Misfit, Place, Stranger};
use cc_model::is_within;
use cc_plan::{PlanFault, is_plan_key, is_receipts_key, is_word, named};
use json::Scratch;
use serde_json::{Map, Value};
use std::alloc::{AllocError, Global};

/// The place of the fault for which a tree is refused.
pub fn place_of(
    alloc: Global,
    bytes: &[u8],
    tree: &Value,
    table: Table,
    fault: PlanFault,
) -> Result<Option<Place>, AllocError> {
    let Ok(text) = std::str::from_utf8(bytes) else {
        return Ok(None);
    };
    let mut scratch = Scratch::new(alloc);
    match fault {
        PlanFault::Shape => shape_place(text, tree, table, &mut scratch),
        PlanFault::Range(key) => misfit_at(text, tree, table, key, Check::Range, &mut scratch),
        PlanFault::UnknownPass(entry) => stranger_place(text, tree, entry, &mut scratch),
        _ => Ok(None),
    }
}

/// The place at which a tree has another shape.
fn shape_place(
    text: &str,
    tree: &Value,
    table: Table,
    scratch: &mut Scratch,
) -> Result<Option<Place>, AllocError> {
    let Some(members) = tree.as_object() else {
        let span = root(text, scratch)?;
        return Ok(found(span, tree).map(Place::Root));
    };
    if let Some(key) = unknown_key(members, table) {
        let span = key_at(text, key, scratch)?;
        return Ok(span.map(|span| Place::Unknown(Found {
            start: span.0,
            end: span.1,
            kind: ValueKind::Text,
        })));
    }
    for key in keys(table) {
        if is_needed(key) && tree.get(*key).is_none() {
            let span = root(text, scratch)?;
            return Ok(span.map(|span| Place::Missing(span.0, key)));
        }
    }
    for key in keys(table) {
        let place = misfit_at(text, tree, table, key, Check::Shape, scratch)?;
        if place.is_some() {
            return Ok(place);
        }
    }
    Ok(None)
}

/// Whether the key has to be there.
fn is_needed(key: &str) -> bool {
    key != "version" && key != "total"
}

/// The first key of the root that isn't known.
fn unknown_key<'a>(members: &'a Map<String, Value>, table: Table) -> Option<&'a str> {
    let key = members.keys().find(|key| !is_known(table, key.as_str()))?;
    Some(key.as_str())
}

/// Whether the table has the key.
fn is_known(table: Table, key: &str) -> bool {
    match table.kind {
        Kind::Plan => is_plan_key(key, table.version),
        Kind::Receipts => is_receipts_key(key),
    }
}

/// The value at these places of the text.
fn found(span: Option<(usize, usize)>, value: &Value) -> Option<Found> {
    let (start, end) = span?;
    Some(Found {
        start,
        end,
        kind: ValueKind::of(value),
    })
}

/// The place of the first value at a key that doesn't pass, if one doesn't.
fn misfit_at(
    text: &str,
    tree: &Value,
    table: Table,
    key: &'static str,
    check: Check,
    scratch: &mut Scratch,
) -> Result<Option<Place>, AllocError> {
    let Some(value) = tree.get(key) else {
        return Ok(None);
    };
    let Some((trail, wanted, value)) = first_misfit(table, wanted_at(key), value, check) else {
        return Ok(None);
    };
    let span = value_at(text, key, trail, scratch)?;
    Ok(found(span, value).map(|found| Place::Value(Misfit {
        key,
        trail,
        found,
        wanted,
        check,
    })))
}

/// The first value that doesn't pass, of this one and those inside of it, with the way there.
fn first_misfit<'a>(
    table: Table,
    wanted: Wanted,
    value: &'a Value,
    check: Check,
) -> Option<(Trail, Wanted, &'a Value)> {
    if !passes(table, wanted, value, check) {
        return Some((Trail::HERE, wanted, value));
    }
    let Value::Array(list) = value else {
        return None;
    };
    for (place, element) in list.iter().enumerate() {
        let wanted = wanted_inside(table.version, wanted, place);
        if let Some((trail, wanted, value)) = first_misfit(table, wanted, element, check) {
            let trail = Trail {
                first: Some(place),
                second: trail.first,
                third: trail.second,
            };
            return Some((trail, wanted, value));
        }
    }
    None
}

/// Whether the value passes, whatever is inside of it.
fn passes(table: Table, wanted: Wanted, value: &Value, check: Check) -> bool {
    let is_of_words = table.version == 2;
    match (wanted, value) {
        (Wanted::Number(low, high), _) => is_number_in(value, low, high, check),
        (Wanted::Total, Value::Null) => true,
        (Wanted::Total, _) => is_number_in(value, 0, u64::MAX, check),
        (Wanted::Name, _) => named(value).is_some(),
        (Wanted::Call, Value::String(_)) => is_word(value, "close"),
        (Wanted::Call | Wanted::Body, _) if !is_of_words => {
            is_number_in(value, 0, u64::MAX, check)
        }
        (_, Value::Array(list)) => fits_length(table, wanted, check, list.len()),
        _ => false,
    }
}

/// Whether the value is a number, and if its range is asked, a whole one in this range.
fn is_number_in(value: &Value, low: u64, high: u64, check: Check) -> bool {
    match check {
        Check::Shape => value.is_number(),
        Check::Range => value.as_u64().is_some_and(|n| is_within(n, low, high)),
    }
}

/// The place of a schedule entry that names a pass that isn't there.
fn stranger_place(
    text: &str,
    tree: &Value,
    entry: usize,
    scratch: &mut Scratch,
) -> Result<Option<Place>, AllocError> {
    let trail = Trail {
        first: Some(entry),
        second: Some(0),
        third: None,
    };
    let Some(span) = value_at(text, "schedule", trail, scratch)? else {
        return Ok(None);
    };
    Ok(Some(Place::Stranger(Stranger {
        entry,
        name: Found {
            start: span.0,
            end: span.1,
            kind: ValueKind::Text,
        },
        senders: length_at(tree, "senders"),
        receivers: length_at(tree, "receivers"),
    })))
}

/// The length of the array at a key.
fn length_at(tree: &Value, key: &str) -> usize {
    tree.get(key).and_then(Value::as_array).map_or(0, Vec::len)
}

/// The place at which an input is no JSON; none of one that is too long.
pub fn stray_of(
    alloc: Global,
    bytes: &[u8],
    fault: PlanFault,
) -> Result<Option<Place>, AllocError> {
    match (fault, std::str::from_utf8(bytes)) {
        (PlanFault::NotJson, Ok(text)) => Ok(Some(Place::Token(stray(alloc, text)?))),
        (PlanFault::NotJson, Err(e)) => Ok(Some(Place::Byte(e.valid_up_to()))),
        _ => Ok(None),
    }
}
