//! The place at which an input is refused, as a line at a terminal.
ghost use Rattle.std.specs.Prelude.{◌≡◌, ◌<◌, ◌-◌, ◌^◌};

use crate::reading::tell_reason;
use cc_io::Sink;
use cc_place::{
    Check, Explained, Found, Kind, Misfit, Place, Stranger, Table, Trail, ValueKind, Wanted,
    explain, line_and_column,
};
use std::alloc::{AllocError, Global};

/// How many bytes of the input a line quotes at most.
const QUOTED: usize = 40;

/// The bytes as a line quotes them: if they are few, and plain.
fn plain(text: &[u8]) -> Option<&str> {
    if text.len() <= QUOTED && text.iter().all(|byte| matches!(*byte, b' '..=b'~')) {
        std::str::from_utf8(text).ok()
    } else {
        None
    }
}

/// The kind of a value.
fn kind_text(alloc: Global, kind: ValueKind) -> Result<String, AllocError> {
    match kind {
        ValueKind::Array(length) => format!(in alloc; "an array of {length} elements"),
        ValueKind::Object => String::from_str(alloc, "an object"),
        ValueKind::Text => String::from_str(alloc, "a text"),
        ValueKind::Number => String::from_str(alloc, "a number"),
    }
}

/// The bytes of a value as a line quotes them, or else its kind.
fn quoted(alloc: Global, input: &[u8], found: Found) -> Result<String, AllocError> {
    match plain(input.get(found.start..found.end).unwrap_or(b"")) {
        Some(text) if !text.is_empty() => String::from_str(alloc, text),
        _ => kind_text(alloc, found.kind),
    }
}

/// The path of a value: its key, and then each place in brackets.
fn path(alloc: Global, key: &str, trail: Trail) -> Result<String, AllocError> {
    let mut text = String::from_str(alloc, key)?;
    for place in [trail.first, trail.second, trail.third] {
        if let Some(place) = place {
            let place = format!(in alloc; "[{place}]")?;
            text.push_str(place.as_str())?;
        }
    }
    Ok(text)
}

/// The words for a value of another shape than is wanted.
fn shape_text(alloc: Global, table: Table, wanted: Wanted) -> Result<String, AllocError> {
    let words = table.version == 2;
    match wanted {
        Wanted::Total => String::from_str(alloc, "is neither a number nor null"),
        Wanted::Call if words => String::from_str(alloc, "is neither an array nor \"close\""),
        Wanted::Call => String::from_str(alloc, "is neither a number nor \"close\""),
        Wanted::Name => String::from_str(alloc, "is no pass name, as s1 or r1"),
        Wanted::Entry => String::from_str(alloc, "is no array of a pass name and a number"),
        Wanted::SendRow => String::from_str(alloc, "is no array of 3 numbers and a body"),
        Wanted::TakeRow => String::from_str(alloc, "is no array of 4 numbers and a body"),
        Wanted::Number(..) => String::from_str(alloc, "is no number"),
        Wanted::Body if !words => String::from_str(alloc, "is no number"),
        _ => String::from_str(alloc, "is no array"),
    }
}

/// The words for a value that is out of the range that is wanted.
fn range_text(alloc: Global, table: Table, wanted: Wanted) -> Result<String, AllocError> {
    match wanted {
        Wanted::Number(low, high) => format!(in alloc; "is no whole number from {low} to {high}"),
        Wanted::Receivers if table.groups > 1 => {
            format!(in alloc; "is no array of {} times 1 to 64 elements", table.groups)
        }
        Wanted::Senders | Wanted::Receivers => {
            String::from_str(alloc, "is no array of 1 to 64 elements")
        }
        Wanted::Calls | Wanted::Schedule => {
            String::from_str(alloc, "is no array of 0 to 65536 elements")
        }
        Wanted::Call | Wanted::Body if table.version == 2 => {
            String::from_str(alloc, "is no array of 1 to 4 elements")
        }
        _ => format!(in alloc; "is no whole number from 0 to {}", u64::MAX),
    }
}

/// The names of a number of passes.
fn names(alloc: Global, letter: &str, count: usize) -> Result<String, AllocError> {
    if count == 1 {
        format!(in alloc; "{letter}1")
    } else {
        format!(in alloc; "{letter}1 to {letter}{count}")
    }
}

/// The input that a table is of.
fn owner(table: Table) -> &'static str {
    match (table.kind, table.version) {
        (Kind::Receipts, _) => "receipts",
        (Kind::Plan, 2) => "a plan of version 2",
        (Kind::Plan, _) => "a plan of version 1",
    }
}

/// The line of a value from its path on.
fn value_text(
    alloc: Global,
    input: &[u8],
    table: Table,
    value: Misfit,
) -> Result<String, AllocError> {
    let path = path(alloc, value.key, value.trail)?;
    let found = quoted(alloc, input, value.found)?;
    let words = match value.check {
        Check::Shape => shape_text(alloc, table, value.wanted)?,
        Check::Range => range_text(alloc, table, value.wanted)?,
    };
    format!(in alloc; " {path}: {found} {words}")
}

/// The line of a name from its path on.
fn stranger_text(alloc: Global, input: &[u8], stranger: Stranger) -> Result<String, AllocError> {
    let found = quoted(alloc, input, stranger.name)?;
    let senders = names(alloc, "s", stranger.senders)?;
    let receivers = names(alloc, "r", stranger.receivers)?;
    let entry = stranger.entry;
    format!(in alloc; " schedule[{entry}][0]: {found} names no pass ({senders}, {receivers})")
}

/// The line of a place from its path on.
fn wrong(alloc: Global, input: &[u8], table: Table, place: Place) -> Result<String, AllocError> {
    match place {
        Place::Byte(_) => String::from_str(alloc, ": a byte that is no UTF-8"),
        Place::Token(start) => {
            let (found, words) = stray_text(input.get(start..).unwrap_or(b""));
            format!(in alloc; ": {found} {words}")
        }
        Place::Root(root) => {
            let found = quoted(alloc, input, root)?;
            format!(in alloc; ": {found} is no object")
        }
        Place::Unknown(key) => {
            let found = quoted(alloc, input, key)?;
            format!(in alloc; ": {found} is no key of {}", owner(table))
        }
        Place::Missing(_, key) => format!(in alloc; ": \"{key}\" is missing"),
        Place::Value(value) => value_text(alloc, input, table, value),
        Place::Stranger(stranger) => stranger_text(alloc, input, stranger),
    }
}

/// The words for the token with which the rest of a text begins, and which can't come next.
fn stray_text(rest: &[u8]) -> (&str, &'static str) {
    match plain(rest.get(..token_length(rest)).unwrap_or(rest)) {
        Some("") => ("the text", "ends too early"),
        Some(text) => (text, "is no JSON here"),
        None => ("this", "is no JSON here"),
    }
}

/// Whether the byte is a space between tokens.
fn is_space(byte: u8) -> bool {
    matches!(byte, b' ' | b'\t' | b'\n' | b'\r')
}

/// Whether the byte is a token by itself.
fn is_sign(byte: u8) -> bool {
    matches!(byte, b'[' | b']' | b'{' | b'}' | b',' | b':')
}

/// The length of the text that begins with a quote.
fn text_length(text: &[u8]) -> usize {
    let mut escaped = false;
    for (place, byte) in text.iter().enumerate() {
        if escaped {
            escaped = false;
        } else if *byte == b'\\' {
            escaped = true;
        } else if *byte == b'"' && place > 0 {
            return place.saturating_add(1);
        }
    }
    text.len()
}

/// The length of the token with which the bytes begin: a sign, a text from quote to quote, or other bytes up to the next of
/// these or a space.
fn token_length(text: &[u8]) -> usize {
    match text.first() {
        None => 0,
        Some(b'"') => text_length(text),
        Some(byte) if is_sign(*byte) => 1,
        Some(_) => text
            .iter()
            .position(|byte| is_space(*byte) || is_sign(*byte) || *byte == b'"')
            .unwrap_or(text.len()),
    }
}

/// The byte at which a place is.
fn start_of(place: Place) -> usize {
    match place {
        Place::Byte(start) | Place::Token(start) | Place::Missing(start, _) => start,
        Place::Root(found) | Place::Unknown(found) => found.start,
        Place::Value(value) => value.found.start,
        Place::Stranger(stranger) => stranger.name.start,
    }
}

/// Whether the first line of an input is that of a log of calls: an object that names a thread and a begin, or the late beginning
/// of a log.
fn begins_log(input: &[u8]) -> bool {
    let first = input.split(|byte| *byte == b'\n').next().unwrap_or(b"");
    match std::str::from_utf8(first) {
        Ok(line) => {
            line.trim_start().starts_with('{')
                && (line.contains("\"begins\"")
                    || (line.contains("\"thread\"") && line.contains("\"begin\"")))
        }
        Err(_) => false,
    }
}

/// The text with the place of a fault, or that there is none.
fn place_text(alloc: Global, input: &[u8], why: &Explained) -> Result<String, AllocError> {
    match (why.fault, why.place, why.table.kind) {
        (Some(_), _, Kind::Plan) if begins_log(input) => String::from_str(
            alloc,
            "neither a plan nor receipts: this is a log of calls, which `ccq judge` reads",
        ),
        (None, _, Kind::Plan) => String::from_str(alloc, "no fault: this plan isn't refused"),
        (None, _, Kind::Receipts) => {
            String::from_str(alloc, "no fault: these receipts aren't refused")
        }
        (Some(_), Some(place), _) => {
            let wrong = wrong(alloc, input, why.table, place)?;
            let (line, column) = line_and_column(input, start_of(place));
            format!(in alloc; "{line}:{column}{wrong}")
        }
        (Some(fault), None, _) => format!(in alloc; "{fault}"),
    }
}

/// Reports at which place the input of this name is refused, and returns the status 2 of a refused input. Nothing is
/// reported if memory is refused.
pub fn explain_refusal<E: Sink>(alloc: Global, errors: &mut E, name: &str, input: &[u8]) -> u8
    requires { E.write_failures errors.old < 2 ^ 64 - 1 }
    ensures { result ≡ 2 }
{
    let Ok(why) = explain(alloc, input) else {
        return 2;
    };
    match place_text(alloc, input, &why) {
        Ok(text) => tell_reason(errors, name.as_bytes(), text.as_bytes(), 2),
        Err(_) => 2,
    }
}
