//! The places of values in a text that is JSON.
ghost use Rattle.std.specs.Prelude.{◌<◌, IsTrue, length};

use json::{Reader, Scratch, Token};
use serde_json::Value;
use std::alloc::AllocError;

/// How deep arrays and objects may nest in a text.
pub const MAX_DEPTH: usize = 127;

/// The places of elements, each in the one before it.
#[derive(Clone, Copy)]
pub struct Trail {
    /// The place in the value of a key.
    pub first: Option<usize>,
    /// The place in that element.
    pub second: Option<usize>,
    /// The place in that one.
    pub third: Option<usize>,
}

impl Trail {
    /// To the value of the key itself.
    pub const HERE: Trail = Trail {
        first: None,
        second: None,
        third: None,
    };
}

/// The kinds of values.
#[derive(Clone, Copy)]
pub enum ValueKind {
    /// A number, true, false or null.
    Number,
    /// A text.
    Text,
    /// An array of this number of elements.
    Array(usize),
    /// An object.
    Object,
}

impl ValueKind {
    /// The kind of a value.
    pub fn of(value: &Value) -> ValueKind {
        match value {
            Value::Array(list) => ValueKind::Array(list.len()),
            Value::Object(_) => ValueKind::Object,
            Value::String(_) => ValueKind::Text,
            _ => ValueKind::Number,
        }
    }
}

/// A value in a text: the places of its first byte and after its last one, and its kind.
#[derive(Clone, Copy)]
pub struct Found {
    /// The place of its first byte.
    pub start: usize,
    /// The place after its last byte.
    pub end: usize,
    /// Its kind.
    pub kind: ValueKind,
}

/// Whether the byte is a space between tokens.
pub fn is_space(byte: u8) -> bool {
    matches!(byte, b' ' | b'\t' | b'\n' | b'\r')
}

/// The place after the last byte before this place that is no space.
pub fn trimmed(text: &[u8], place: usize) -> usize {
    let mut end = place;
    while end > 0 && text.get(end - 1).is_some_and(|byte| is_space(*byte)) {
        end -= 1;
    }
    end
}

/// The comma or colon that comes last before this place, or else the place.
pub fn sign_before(text: &[u8], place: usize) -> usize {
    let end = trimmed(text, place);
    match text.get(..end).and_then(<[u8]>::last) {
        Some(b',' | b':') => end.saturating_sub(1),
        _ => place,
    }
}

/// The end of the key or the value that was read last before this place, with the colon or comma after it.
pub fn end_before(text: &[u8], place: usize) -> usize {
    trimmed(text, sign_before(text, place))
}

/// Passes over the value that comes next.
fn skip_value(reader: &mut Reader<'_>) -> bool
    ensures { IsTrue result → length reader.new < length reader.old }
{
    reader.skip_value(MAX_DEPTH).is_ok()
}

/// Passes over a value, and returns the places of its first byte and after its last one.
fn next_span(reader: &mut Reader<'_>, text: &str) -> Option<(usize, usize)> {
    let start = reader.offset();
    if !skip_value(reader) {
        return None;
    }
    Some((start, end_before(text.as_bytes(), reader.offset())))
}

/// Which of the members that are left is the last one with this key.
fn last_with(reader: &mut Reader<'_>, key: &str) -> Option<usize> {
    let (mut last, mut place) = (None, 0usize);
    'members: loop {
        let Ok(Some(name)) = reader.next_key() else {
            return last;
        };
        if name == key {
            last = Some(place);
        }
        if !skip_value(reader) {
            return last;
        }
        place = place.saturating_add(1);
    }
    last
}

/// Passes over this number of members, and over the next one's key, whose places it returns.
fn enter_member(reader: &mut Reader<'_>, text: &str, place: usize) -> Option<(usize, usize)> {
    let mut left = place;
    while left > 0 {
        let Ok(Some(_)) = reader.next_key() else {
            return None;
        };
        if !skip_value(reader) {
            return None;
        }
        left -= 1;
    }
    let start = reader.offset();
    match reader.next_key() {
        Ok(Some(_)) => Some((start, end_before(text.as_bytes(), reader.offset()))),
        _ => None,
    }
}

/// Goes into an array, to the element at this place, and returns whether there is one.
fn enter(reader: &mut Reader<'_>, place: usize) -> bool {
    if !matches!(reader.next(), Some(Token::BeginArray)) {
        return false;
    }
    let mut left = place;
    while left > 0 {
        if !skip_value(reader) {
            return false;
        }
        left -= 1;
    }
    true
}

/// The places of the root.
pub fn root(text: &str, scratch: &mut Scratch) -> Result<Option<(usize, usize)>, AllocError> {
    let mut reader = Reader::new(text, scratch)?;
    Ok(next_span(&mut reader, text))
}

/// Goes to the value of the last member of the root with this key, and returns the places of the key.
fn enter_last(reader: &mut Reader<'_>, text: &str, place: Option<usize>) -> Option<(usize, usize)> {
    if !matches!(reader.next(), Some(Token::BeginObject)) {
        return None;
    }
    enter_member(reader, text, place?)
}

/// Which member of the root is the last one with this key.
fn member_with(text: &str, key: &str, scratch: &mut Scratch) -> Result<Option<usize>, AllocError> {
    let mut reader = Reader::new(text, scratch)?;
    if !matches!(reader.next(), Some(Token::BeginObject)) {
        return Ok(None);
    }
    Ok(last_with(&mut reader, key))
}

/// The places of the last member's key that is this one.
pub fn key_at(
    text: &str,
    key: &str,
    scratch: &mut Scratch,
) -> Result<Option<(usize, usize)>, AllocError> {
    let place = member_with(text, key, scratch)?;
    let mut reader = Reader::new(text, scratch)?;
    Ok(enter_last(&mut reader, text, place))
}

/// The places of the value at the end of a trail from the value of a key.
pub fn value_at(
    text: &str,
    key: &str,
    trail: Trail,
    scratch: &mut Scratch,
) -> Result<Option<(usize, usize)>, AllocError> {
    let place = member_with(text, key, scratch)?;
    let mut reader = Reader::new(text, scratch)?;
    if enter_last(&mut reader, text, place).is_none() {
        return Ok(None);
    }
    for place in [trail.first, trail.second, trail.third] {
        if let Some(place) = place {
            if !enter(&mut reader, place) {
                return Ok(None);
            }
        }
    }
    Ok(next_span(&mut reader, text))
}
