//! The form of a line, by its bytes: that they are no JSON in UTF-8, or an array, and how many members its object
//! has. In a tree the last value of a key stays, so only the bytes show a key twice.
ghost use Rattle.std.specs.Prelude.{◌≡◌, length, slice_get};
ghost use Rattle.std.specs.BTreeMap.{keys};
ghost use Rattle.serde_json.specs.Find.{as_object};
ghost use Rattle.serde_json.specs.View.{view};
ghost use Rattle.cc_log.specs.Answers.{Gives};
ghost use Rattle.cc_log.specs.Form.{begins, form_fault, has_keys_once, is_byte, members_in, scan_on};
ghost use Rattle.cc_log.specs.Log.{form_of, once_of};

use crate::fault::{LineFault, LogFault};
use crate::threads::fault_of;
use serde_json::{Map, Value};

/// Whether this byte is at this place.
fn is_byte(text: &[u8], place: usize, byte: u8) -> bool
    ensures { result ≡ is_byte byte (slice_get text.now place) }
{
    match text.get(place) {
        Some(other) => *other == byte,
        None => false,
    }
}

/// Whether the text begins with these two bytes.
fn begins(text: &[u8], first: u8, second: u8) -> bool
    ensures { result ≡ begins first second text.now }
{
    is_byte(text, 0, first) && is_byte(text, 1, second)
}

/// Why a text that begins so is no object of JSON in UTF-8, if that is known.
fn form_fault(text: &[u8]) -> Option<LineFault>
    ensures { result ≡ form_fault text.now }
{
    if begins(text, 0xEF, 0xBB) {
        Some(LineFault::Mark)
    } else if begins(text, 0x1F, 0x8B) {
        Some(LineFault::Gzip)
    } else if begins(text, 0xFF, 0xFE)
        || begins(text, 0xFE, 0xFF)
        || begins(text, b'{', 0)
        || begins(text, 0, b'{')
    {
        Some(LineFault::Wide)
    } else if is_byte(text, 0, b'[') {
        Some(LineFault::Array)
    } else {
        None
    }
}

/// Checks how the line with this number begins.
pub fn check_form(text: &[u8], number: usize) -> Result<(), LogFault>
    ensures { Gives (λ done. done) result (form_of number text.now) }
{
    match form_fault(text) {
        Some(fault) => Err(fault_of(number, fault)),
        None => Ok(()),
    }
}

/// The place in a JSON text, after some of its bytes.
#[derive(Clone, Copy)]
pub struct Scan {
    /// Whether the next byte is inside of a text.
    pub quoted: bool,
    /// Whether a backslash there escapes it.
    pub escaped: bool,
    /// In how many arrays and objects it is.
    pub depth: u64,
    /// How many members the outermost object has so far.
    pub members: u64,
}

/// The place after one more byte.
fn scan_on(scan: Scan, byte: u8) -> Scan
    ensures { result ≡ scan_on scan byte }
{
    let Scan {
        quoted,
        escaped,
        depth,
        members,
    } = scan;
    if quoted {
        return Scan {
            quoted: escaped || byte != b'"',
            escaped: !escaped && byte == b'\\',
            depth,
            members,
        };
    }
    match byte {
        b'"' => Scan {
            quoted: true,
            ..scan
        },
        b'{' | b'[' => Scan {
            depth: depth.saturating_add(1),
            ..scan
        },
        b'}' | b']' => Scan {
            depth: depth.saturating_sub(1),
            ..scan
        },
        b':' if depth == 1 => Scan {
            members: members.saturating_add(1),
            ..scan
        },
        _ => scan,
    }
}

/// How many members the outermost object of a JSON text has.
fn members_in(text: &[u8]) -> u64
    ensures { result ≡ members_in text.now }
{
    let mut scan = Scan {
        quoted: false,
        escaped: false,
        depth: 0,
        members: 0,
    };
    for byte in text {
        scan = scan_on(scan, *byte);
    }
    scan.members
}

/// How many keys an object has.
fn count_keys(object: &Map<String, Value>) -> usize
    ensures { result ≡ length (keys object.now) }
{
    object.len()
}

/// Whether the object of a text has each key once, by its tree.
#[tactic(auto, using(crate::proofs::Keys::key_count))]
fn has_keys_once(text: &[u8], tree: &Value) -> bool
    ensures { result ≡ has_keys_once text.now (as_object (view tree.now)) }
{
    match tree.as_object() {
        Some(object) => members_in(text) == count_keys(object) as u64,
        None => true,
    }
}

/// Checks that the line with this number has no key twice. Its tree is given.
pub fn check_once(text: &[u8], tree: &Value, number: usize) -> Result<(), LogFault>
    ensures { Gives (λ done. done) result (once_of number text.now (view tree.now)) }
{
    if has_keys_once(text, tree) {
        Ok(())
    } else {
        Err(fault_of(number, LineFault::Twice))
    }
}
