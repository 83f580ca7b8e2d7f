//! The place at which a text is no JSON.
ghost use Rattle.std.specs.Prelude.{◌≡◌, IfOk, is_some};
ghost use Rattle.cc_plan.specs.Json.{json_of};

use super::walk::{MAX_DEPTH, is_space, sign_before, trimmed};
use cc_plan::read_json;
use json::{Reader, Scratch, Token};
use std::alloc::{AllocError, Global};

/// The tokens that may come next. The reader sees to the commas and colons between them.
#[derive(Clone, Copy)]
enum Due {
    /// The first token of a value.
    Value,
    /// That, or the bracket that closes an array.
    Element,
    /// A key, or the brace that closes an object.
    Member,
    /// None: the text is over.
    End,
}

impl Due {
    /// Whether a value may come next.
    fn is_value(self) -> bool {
        matches!(self, Due::Value | Due::Element)
    }
}

/// The arrays and objects that are open: how many, and a bit for each, from the innermost on, which is 1 for an object.
#[derive(Clone, Copy)]
struct Open {
    depth: usize,
    objects: u128,
}

impl Open {
    /// With one more inside.
    fn and(self, is_object: bool) -> Open {
        Open {
            depth: self.depth.saturating_add(1),
            objects: self.objects << 1 | u128::from(is_object),
        }
    }

    /// Without the innermost.
    fn closed(self) -> Open {
        Open {
            depth: self.depth.saturating_sub(1),
            objects: self.objects >> 1,
        }
    }

    /// The tokens that may follow a value.
    fn due(self) -> Due {
        if self.depth == 0 {
            Due::End
        } else if self.objects & 1 == 1 {
            Due::Member
        } else {
            Due::Element
        }
    }
}

/// Whether the bytes are a value: in place of a number one that isn't too large for a float of 64 bits.
fn is_value(alloc: Global, bytes: &[u8]) -> Result<bool, AllocError>
    ensures { IfOk result (λ is. is ≡ is_some (json_of bytes.now)) }
{
    Ok(read_json(alloc, bytes)?.is_some())
}

/// The tokens that may follow this one, and all that is open then; or None if the token can't come next itself.
fn after(
    alloc: Global,
    due: Due,
    open: Open,
    token: &Token<'_>,
) -> Result<Option<(Due, Open)>, AllocError> {
    let opens = due.is_value() && open.depth < MAX_DEPTH;
    Ok(match token {
        Token::String(_) | Token::Bool(_) | Token::Null if due.is_value() => {
            Some((open.due(), open))
        }
        Token::Number(digits) if due.is_value() && is_value(alloc, digits.as_bytes())? => {
            Some((open.due(), open))
        }
        Token::BeginArray if opens => Some((Due::Element, open.and(false))),
        Token::BeginObject if opens => Some((Due::Member, open.and(true))),
        Token::EndArray if due == Due::Element => Some((open.closed().due(), open.closed())),
        Token::EndObject if due == Due::Member => Some((open.closed().due(), open.closed())),
        Token::Key(_) if due == Due::Member => Some((Due::Value, open)),
        _ => None,
    })
}

/// Whether a value may begin at the place, by the byte before it.
fn may_begin(text: &[u8], place: usize) -> bool {
    match text.get(..trimmed(text, place)).and_then(<[u8]>::last) {
        Some(byte) => matches!(*byte, b',' | b':' | b'['),
        None => true,
    }
}

/// The place of a bad token; or that of a quote at its end, if a value is due and the token up to there is one.
fn behind_word(alloc: Global, text: &[u8], place: usize) -> Result<usize, AllocError> {
    let rest = text.get(place..).unwrap_or(b"");
    let length = rest
        .iter()
        .position(|byte| is_space(*byte) || is_sign(*byte))
        .unwrap_or(0);
    let is_behind = rest.get(length) == Some(&b'"')
        && may_begin(text, place)
        && is_value(alloc, rest.get(..length).unwrap_or(b""))?;
    Ok(place.saturating_add(if is_behind { length } else { 0 }))
}

/// Whether the byte ends a word.
fn is_sign(byte: u8) -> bool {
    matches!(byte, b'[' | b']' | b'{' | b'}' | b',' | b':' | b'"')
}

/// The place of the token that can't come next: of a text that is no key, or a key that is no value, the sign after it.
fn place_of(due: Due, token: &Token<'_>, text: &[u8], place: usize, after: usize) -> usize {
    match token {
        Token::String(_) if due == Due::Member => sign_before(text, after),
        Token::Key(_) if due.is_value() => sign_before(text, after),
        _ if due == Due::End => sign_before(text, place),
        _ => place,
    }
}

/// The first token that can't come next, by its place; if there is none, the length of the text.
pub fn stray(alloc: Global, text: &str) -> Result<usize, AllocError> {
    let mut scratch = Scratch::new(alloc);
    let mut reader = Reader::new(text, &mut scratch)?;
    let bytes = text.as_bytes();
    let (mut due, mut open) = (
        Due::Value,
        Open {
            depth: 0,
            objects: 0,
        },
    );
    'tokens: loop {
        let place = reader.offset();
        let Some(token) = reader.next() else {
            return Ok(bytes.len());
        };
        if matches!(token, Token::Bad) && due.is_value() {
            return behind_word(alloc, bytes, place);
        }
        match after(alloc, due, open, &token)? {
            Some(then) => (due, open) = then,
            None => return Ok(place_of(due, &token, bytes, place, reader.offset())),
        }
    }
}
