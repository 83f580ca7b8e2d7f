//! One line of a log.
ghost use Rattle.std.specs.Prelude.{◌≡◌, codes, option_map, option_and_then};
ghost use Rattle.std.specs.Str.{bytes_eq};
ghost use Rattle.std.specs.Result.{result_map_both};
ghost use Rattle.serde_json.specs.Find.{as_object};
ghost use Rattle.serde_json.specs.View.{view, items_view};
ghost use Rattle.cc_plan.specs.Json.{each, has_only, listed, whole_number};
ghost use Rattle.cc_log.specs.Line.{answer_of, begins_late, body_in, body_of, close_of, end_of, ending_in, ending_of, is_call_key, line_of, no_item, object_of_call, said_in, said_of, send_of, take_of, took_item};

use crate::fault::LineFault;
use cc_plan::{has_only, is_word};
use serde_json::Value;
use std::alloc::{AllocError, Global};

/// The words of a body, and how many they are.
pub type Body = (usize, u64, u64, u64, u64);

/// A body as an array of JSON, each word between two marks: none, or the quotes of a text.
pub fn body_text(alloc: Global, body: Body, mark: &str) -> Result<String, AllocError> {
    let (count, a, b, c, d) = body;
    match count {
        1 => format!(in alloc; "[{mark}{a}{mark}]"),
        2 => format!(in alloc; "[{mark}{a}{mark},{mark}{b}{mark}]"),
        3 => format!(in alloc; "[{mark}{a}{mark},{mark}{b}{mark},{mark}{c}{mark}]"),
        _ => format!(in alloc; "[{mark}{a}{mark},{mark}{b}{mark},{mark}{c}{mark},{mark}{d}{mark}]"),
    }
}

/// A body as a text names it: a single word without brackets.
pub fn item_text(alloc: Global, body: Body) -> Result<String, AllocError> {
    let (count, word, ..) = body;
    if count == 1 {
        return format!(in alloc; "{word}");
    }
    body_text(alloc, body, "")
}

/// The call that a line describes.
#[derive(Clone, Copy)]
pub enum Said {
    /// A send that was accepted, or hasn't returned.
    Send(Body),
    /// A take that got an item.
    Took(Body),
    /// A take that found none.
    FoundNone,
    /// A take that hasn't returned.
    Taking,
    /// A send with the answer Full.
    Full(Body),
    /// A send with the answer Closed.
    Closed(Body),
    /// A take with the answer Ended.
    Ended,
    /// A close.
    Close,
}

/// The times of a call, and what the line says of it.
#[derive(Clone, Copy)]
pub struct Line {
    /// When it began.
    pub begin: u64,
    /// When it ended.
    pub end: Option<u64>,
    /// Its act.
    pub said: Said,
}

/// How a log ends, as its last line says.
#[derive(Clone, Copy, Debug, PartialEq, Eq)]
pub enum Ending {
    /// The log has all calls.
    Whole,
    /// The recording ended early: calls may be missing.
    Early,
}

/// Whether a key is one of a call.
fn is_call_key(key: &str) -> bool
    ensures { result ≡ is_call_key key.now }
{
    matches!(
        key,
        "thread" | "begin" | "end" | "send" | "take" | "close" | "answer"
    )
}

/// Whether the tree is an object with keys of a call alone.
fn has_call_keys(tree: &Value) -> bool
    ensures { result ≡ has_only is_call_key (view tree.now) }
{
    has_only(tree, is_call_key)
}

/// Checks that the tree is an object with keys of a call alone.
fn check_keys(tree: &Value) -> Result<(), LineFault>
    ensures { result ≡ object_of_call (as_object (view tree.now)) }
{
    let Some(_) = tree.as_object() else {
        return Err(LineFault::NoObject);
    };
    if has_call_keys(tree) {
        Ok(())
    } else {
        Err(LineFault::Key)
    }
}

/// The first key of an object that isn't one of a call.
pub fn unknown_key(alloc: Global, tree: &Value) -> Result<String, AllocError> {
    let key = tree.as_object().and_then(|object| object
        .keys()
        .find(|key| !is_call_key(key.as_str())));
    String::from_str(alloc, key.map_or("", |key| key.as_str()))
}

/// The body of the words in an array.
#[tactic(auto, using(crate::proofs::Keys::too_many))]
fn body_of(list: &[Value]) -> Option<Body>
    ensures { result ≡ option_and_then body_of (each whole_number (listed (items_view list.now))) }
{
    match list {
        [a] => Some((1, a.as_u64()?, 0, 0, 0)),
        [a, b] => Some((2, a.as_u64()?, b.as_u64()?, 0, 0)),
        [a, b, c] => Some((3, a.as_u64()?, b.as_u64()?, c.as_u64()?, 0)),
        [a, b, c, d] => Some((4, a.as_u64()?, b.as_u64()?, c.as_u64()?, d.as_u64()?)),
        _ => None,
    }
}

/// The body of one to four words. A number is the body of that word.
fn body_in(value: &Value) -> Result<Body, LineFault>
    ensures { result ≡ body_in (view value.now) }
{
    if let Some(word) = value.as_u64() {
        return Ok((1, word, 0, 0, 0));
    }
    let Some(list) = value.as_array() else {
        return Err(LineFault::Call);
    };
    body_of(list.as_slice()).ok_or(LineFault::Call)
}

/// The end of a call that began at a time, if it has one.
fn end_of(begin: u64, value: Option<&Value>) -> Result<Option<u64>, LineFault>
    ensures { result ≡ end_of begin (option_map (λ v. view v.now) value.entry) }
{
    let Some(value) = value else {
        return Ok(None);
    };
    match value.as_u64() {
        Some(end) if begin <= end => Ok(Some(end)),
        _ => Err(LineFault::End),
    }
}

/// The answer of a call that returned, if its line has one.
fn answer_of<'a>(end: Option<u64>, value: Option<&'a Value>) -> Result<Option<&'a str>, LineFault>
    ensures { result_map_both (option_map (λ s. s.now)) (λ fault. fault) result ≡ answer_of end (option_map (λ v. view v.now) value.entry) }
{
    match (end, value) {
        (_, None) => Ok(None),
        (None, Some(_)) => Err(LineFault::Answer),
        (Some(_), Some(value)) => match value.as_str() {
            Some(text) => Ok(Some(text)),
            None => Err(LineFault::Answer),
        },
    }
}

/// The send that the line describes.
fn send_of(end: Option<u64>, value: &Value, answer: Option<&Value>) -> Result<Said, LineFault>
    ensures { result ≡ send_of end (view value.now) (option_map (λ v. view v.now) answer.entry) }
{
    let body = body_in(value)?;
    match answer_of(end, answer)? {
        None => Ok(Said::Send(body)),
        Some("full") => Ok(Said::Full(body)),
        Some("closed") => Ok(Said::Closed(body)),
        Some(_) => Err(LineFault::Answer),
    }
}

/// The take of no item that the line describes.
fn no_item(end: Option<u64>, answer: Option<&Value>) -> Result<Said, LineFault>
    ensures { result ≡ no_item end (option_map (λ v. view v.now) answer.entry) }
{
    match answer_of(end, answer)? {
        None if end.is_none() => Ok(Said::Taking),
        None => Ok(Said::FoundNone),
        Some("ended" | "closed") => Ok(Said::Ended),
        Some(_) => Err(LineFault::Answer),
    }
}

/// The take of an item that the line describes.
fn took_item(end: Option<u64>, value: &Value, answer: Option<&Value>) -> Result<Said, LineFault>
    ensures { result ≡ took_item end (view value.now) (option_map (λ v. view v.now) answer.entry) }
{
    if answer.is_some() {
        return Err(LineFault::Answer);
    }
    let body = body_in(value)?;
    if end.is_none() {
        return Err(LineFault::Open);
    }
    Ok(Said::Took(body))
}

/// The take that the line describes.
fn take_of(end: Option<u64>, value: &Value, answer: Option<&Value>) -> Result<Said, LineFault>
    ensures { result ≡ take_of end (view value.now) (option_map (λ v. view v.now) answer.entry) }
{
    if value.is_null() {
        no_item(end, answer)
    } else {
        took_item(end, value, answer)
    }
}

/// The close that the line describes.
fn close_of(value: &Value, answer: Option<&Value>) -> Result<Said, LineFault>
    ensures { result ≡ close_of (view value.now) (option_map (λ v. view v.now) answer.entry) }
{
    match value.as_bool() {
        Some(true) => {}
        _ => return Err(LineFault::Call),
    }
    match answer {
        None => Ok(Said::Close),
        Some(_) => Err(LineFault::Answer),
    }
}

/// The act of the call of a line, by the values of its keys.
fn said_of(
    end: Option<u64>,
    send: Option<&Value>,
    take: Option<&Value>,
    close: Option<&Value>,
    answer: Option<&Value>,
) -> Result<Said, LineFault>
    ensures { result ≡ said_of end (option_map (λ v. view v.now) send.entry) (option_map (λ v. view v.now) take.entry) (option_map (λ v. view v.now) close.entry) (option_map (λ v. view v.now) answer.entry) }
{
    match (send, take, close) {
        (Some(value), None, None) => send_of(end, value, answer),
        (None, Some(value), None) => take_of(end, value, answer),
        (None, None, Some(value)) => close_of(value, answer),
        _ => Err(LineFault::Call),
    }
}

/// The act of the call that the line of this tree describes.
fn said_in(tree: &Value, end: Option<u64>) -> Result<Said, LineFault>
    ensures { result ≡ said_in end (view tree.now) }
{
    said_of(
        end,
        tree.get("send"),
        tree.get("take"),
        tree.get("close"),
        tree.get("answer"),
    )
}

/// The call that the line of this tree describes.
pub fn read_line(tree: &Value) -> Result<Line, LineFault>
    ensures { result ≡ line_of (view tree.now) }
{
    check_keys(tree)?;
    let Some(begin) = tree.get("begin").and_then(Value::as_u64) else {
        return Err(LineFault::Begin);
    };
    let end = end_of(begin, tree.get("end"))?;
    let said = said_in(tree, end)?;
    Ok(Line { begin, end, said })
}

/// Whether the tree is an object with this key alone.
fn is_alone(tree: &Value, name: &str) -> bool
    ensures { result ≡ has_only (λ key. bytes_eq key name.now) (view tree.now) }
{
    has_only(tree, |key| key == name)
}

/// Whether the line of this tree says that the log begins late.
pub fn begins_late(tree: &Value) -> bool
    ensures { result ≡ begins_late (view tree.now) }
{
    is_alone(tree, "begins")
        && tree
            .get("begins")
            .is_some_and(|value| is_word(value, "late"))
}

/// How a log ends, by a word.
fn ending_of(word: &str) -> Option<Ending>
    ensures { result ≡ ending_of word.now }
{
    match word {
        "whole" => Some(Ending::Whole),
        "early" => Some(Ending::Early),
        _ => None,
    }
}

/// How the log ends, if the line of this tree says that.
pub fn ending_in(tree: &Value) -> Option<Ending>
    ensures { result ≡ ending_in (view tree.now) }
{
    if !is_alone(tree, "ends") {
        return None;
    }
    ending_of(tree.get("ends")?.as_str()?)
}
