//! The log of the lines so far.
ghost use Rattle.std.specs.Prelude.{◌≡◌, ◌-◌, ◌++◌, [], ◌∷◌, length, option_map, IfErr, OnOk, true, not, nat_eq, ◌&&◌, if◌then◌else◌};
ghost use Rattle.std.specs.Prelude.{min, ◌+◌, ◌^◌};
ghost use Rattle.serde_json.specs.View.{view};
ghost use Rattle.cc_log.specs.Answers.{Gives};
ghost use Rattle.cc_log.specs.Line.{begins_late};
ghost use Rattle.cc_log.specs.Lines.{is_blank};
ghost use Rattle.cc_log.specs.Log.{Known, after_last, is_close, json_in, not_ended, or_refusal, tree_of, with_call, with_line, with_tree};
ghost use Rattle.cc_log.specs.State.{Adds, IsStep, Shows, entry_in};
ghost use Rattle.cc_log.specs.Names.{LogFault, Options};

use crate::fault::{LineFault, LogFault};
use crate::form::{check_form, check_once};
use crate::items::{Items, act_of};
use crate::line::{Ending, Line, Said, begins_late, ending_in};
use crate::lines::LINE_LIMIT;
use crate::narrow::narrow;
use crate::parse::{Log, Notes};
use crate::threads::{Last, Parsed, after_last, fault_of, note_tie, read_call};
use crate::window::cut;
use cc_judge::{Act, Call};
use cc_plan::read_json;
use serde_json::Value;
use std::alloc::Global;

/// The log of the lines so far.
#[derive(Drop)]
pub struct State {
    /// The log.
    pub log: Log,
    /// The items.
    pub items: Items,
    /// Whether the log begins late.
    pub late: bool,
}

/// Whether a line has no other bytes than white space.
fn is_blank(text: &[u8]) -> bool
    ensures { result ≡ is_blank text.now }
{
    text.iter().all(|byte| byte.is_ascii_whitespace())
}

/// The JSON tree of a line.
fn json_in(alloc: Global, text: &[u8], number: usize) -> Result<Value, LogFault>
    ensures { Gives view result (json_in number text.now) }
{
    match read_json(alloc, text)? {
        Some(tree) => Ok(tree),
        None => Err(fault_of(number, LineFault::NoObject)),
    }
}

/// The tree of a line, whose keys differ.
fn tree_of(alloc: Global, text: &[u8], number: usize) -> Result<Value, LogFault>
    ensures { Gives view result (tree_of number text.now) }
{
    check_form(text, number)?;
    let tree = json_in(alloc, text, number)?;
    check_once(text, &tree, number)?;
    Ok(tree)
}

/// The call of a line, which may have begun earlier and ended later by the skew.
fn call_of(line: Line, skew: u64, act: Act) -> Call
    ensures { result ≡ record { begin = line.begin - skew; end = option_map (λ end. min (end + skew) (2 ^ 64 - 1)) line.end; act = act } }
{
    Call {
        begin: line.begin.saturating_sub(skew),
        end: match line.end {
            Some(end) => Some(end.saturating_add(skew)),
            None => None,
        },
        act,
    }
}

/// Whether a log has a close, by its last call and whether those before it have one.
fn has_close(last: Said, before: bool) -> bool
    ensures { result ≡ (if is_close last then true else before) }
{
    match last {
        Said::Close => true,
        _ => before,
    }
}

/// Notes a line for the text of the verdict and its page.
fn note(
    notes: &mut Notes,
    skew: u64,
    number: usize,
    line: Line,
    thread: usize,
) -> Result<(), LogFault>
    ensures lines { OnOk result (notes.new.lines.items ≡ notes.old.lines.items ++ number ∷ []) }
    ensures memory { IfErr result (λ fault. fault ≡ LogFault.Memory) }
{
    let place = narrow(notes.lines.len())?;
    notes.lines.push(narrow(number)?)?;
    notes.threads.push(narrow(thread)?)?;
    if skew > 0 {
        notes.times.push((line.begin, line.end))?;
    }
    match line.said {
        Said::Full(body) => {
            notes.full = notes.full.saturating_add(1);
            notes.refused.push((place, body))?;
        }
        Said::Closed(body) => {
            notes.closed = notes.closed.saturating_add(1);
            notes.refused.push((place, body))?;
        }
        _ => {}
    }
    Ok(())
}

/// The number of the line of the last call of a thread, if there is one.
fn last_line(log: &Log, last: Option<Last>) -> Option<usize> {
    log.line_of(last?.place as usize)
}

/// Checks that a call may begin then, after the last one of its thread.
fn check_last(log: &Log, begin: u64, last: Option<Last>, number: usize) -> Result<(), LogFault>
    ensures { Gives (λ done. done) result (or_refusal number (after_last begin last)) }
{
    let Err(fault) = after_last(begin, last) else {
        return Ok(());
    };
    match last_line(log, last) {
        Some(last) => Err(LogFault::Clash {
            line: number,
            fault,
            last,
        }),
        None => Err(fault_of(number, fault)),
    }
}

/// Adds a call, if it may come next.
fn add(alloc: Global, state: &mut State, parsed: Parsed, number: usize) -> Result<(), LogFault>
    ensures { Adds state.old state.new (entry_in number parsed) result }
{
    let Parsed { thread, line } = parsed;
    let place = narrow(state.log.calls.len())?;
    let last = state.log.threads.get(thread.as_str()).copied();
    check_last(&state.log, line.begin, last, number)?;
    let act = act_of(alloc, &mut state.items, line.said, number)?;
    let skew = state.log.options.skew;
    note_tie(&mut state.log.rules.ties, skew, place, line.begin, last)?;
    let now = Last {
        begin: line.begin,
        end: line.end,
        place,
    };
    let (thread, _) = state.log.threads.insert_full(thread, now)?;
    note(&mut state.log.notes, skew, number, line, thread)?;
    state.log.calls.push(call_of(line, skew, act))?;
    Ok(())
}

/// Whether the line of a tree is the first one, and says that the log begins late.
fn is_beginning(state: &State, tree: &Value) -> bool
    ensures { result ≡ ((nat_eq (length state.now.log.calls.items) 0 && not state.now.late) && begins_late (view tree.now)) }
{
    state.log.calls.is_empty() && !state.late && begins_late(tree)
}

/// Checks that no line has said how the log ends.
fn check_goes_on(ends: Option<Ending>, number: usize) -> Result<(), LogFault>
    ensures { Gives (λ done. done) result (not_ended number ends) }
{
    if ends.is_some() {
        Err(fault_of(number, LineFault::AfterEnd))
    } else {
        Ok(())
    }
}

/// Adds the call of a tree, if it is in the window. A close outside of the window says that closes are judged, too.
fn add_call(alloc: Global, state: &mut State, tree: &Value, number: usize) -> Result<(), LogFault>
    ensures { (options : Options) (known : Known) → Shows options state.old known → IsStep options (with_call known number (view tree.now)) result state.new }
{
    let parsed = read_call(alloc, tree, number)?;
    state.log.rules.closes = has_close(parsed.line.said, state.log.rules.closes);
    let Some(line) = cut(state.log.options.window, parsed.line) else {
        return Ok(());
    };
    let Parsed { thread, line: _ } = parsed;
    add(alloc, state, Parsed { thread, line }, number)
}

/// Adds the line of a tree: the first one may say that the log begins late, and the last one how it ends.
fn add_tree(alloc: Global, state: &mut State, tree: &Value, number: usize) -> Result<(), LogFault>
    ensures { (options : Options) (known : Known) → Shows options state.old known → IsStep options (with_tree known number (view tree.now)) result state.new }
{
    check_goes_on(state.log.ends, number)?;
    if is_beginning(state, tree) {
        state.late = true;
        return Ok(());
    }
    if let Some(ends) = ending_in(tree) {
        state.log.ends = Some(ends);
        return Ok(());
    }
    add_call(alloc, state, tree, number)
}

/// Adds a line; a blank one is passed over.
pub fn add_line(
    alloc: Global,
    state: &mut State,
    text: &[u8],
    number: usize,
) -> Result<(), LogFault>
    ensures { (options : Options) (known : Known) → Shows options state.old known → IsStep options (with_line known number text.now) result state.new }
{
    if text.len() > LINE_LIMIT {
        return Err(fault_of(number, LineFault::TooLong));
    }
    if is_blank(text) {
        return Ok(());
    }
    let tree = tree_of(alloc, text, number)?;
    add_tree(alloc, state, &tree, number)
}
