//! The threads of a log, and the last call of each.
ghost use Rattle.std.specs.Prelude.{◌≡◌, ◌++◌, IfErr, OnOk, Some, string_bytes};
ghost use Rattle.serde_json.specs.View.{view};
ghost use Rattle.cc_log.specs.Answers.{Gives};
ghost use Rattle.cc_log.specs.Line.{thread_of};
ghost use Rattle.cc_log.specs.Log.{after_last, entry_of, or_refusal, tie_with, touches};
ghost use Rattle.cc_log.specs.State.{entry_in};
ghost use Rattle.cc_log.specs.Names.{LogFault};

use crate::fault::{LineFault, LogFault};
use crate::line::{Line, read_line, unknown_key};
use cc_judge::Tie;
use itoa::Buffer;
use serde_json::Value;
use std::alloc::Global;

/// The last call of a thread.
#[derive(Clone, Copy)]
pub struct Last {
    /// When it began.
    pub begin: u64,
    /// When it ended, if it did.
    pub end: Option<u64>,
    /// Its place among the calls.
    pub place: u32,
}

/// A call as its line has it.
#[derive(Drop)]
pub struct Parsed {
    /// The name of its thread.
    pub thread: String,
    /// The rest.
    pub line: Line,
}

/// A line with a fault.
pub fn fault_of(line: usize, fault: LineFault) -> LogFault
    ensures { result ≡ LogFault.Line line fault }
{
    LogFault::Line { line, fault }
}

/// The name of the thread in the tree of a line.
fn thread_of(alloc: Global, tree: &Value, number: usize) -> Result<String, LogFault>
    ensures { Gives string_bytes result (or_refusal number (thread_of (view tree.now))) }
{
    let Some(value) = tree.get("thread") else {
        return Err(fault_of(number, LineFault::Thread));
    };
    if let Some(name) = value.as_str() {
        return Ok(String::from_str(alloc, name)?);
    }
    let Some(word) = value.as_u64() else {
        return Err(fault_of(number, LineFault::Thread));
    };
    let mut digits = Buffer::new();
    Ok(String::from_str(alloc, digits.format(word))?)
}

/// The call that the tree of a line describes.
pub fn read_call(alloc: Global, tree: &Value, number: usize) -> Result<Parsed, LogFault>
    ensures { Gives (entry_in number) result (entry_of number (view tree.now)) }
{
    let line = match read_line(tree) {
        Ok(line) => line,
        Err(LineFault::Key) => {
            return Err(LogFault::Key {
                line: number,
                key: unknown_key(alloc, tree)?,
            });
        }
        Err(fault) => return Err(fault_of(number, fault)),
    };
    let thread = thread_of(alloc, tree, number)?;
    Ok(Parsed { thread, line })
}

/// Checks that a call may begin then, after the last one of its thread.
pub fn after_last(begin: u64, last: Option<Last>) -> Result<(), LineFault>
    ensures { result ≡ after_last begin last }
{
    let Some(last) = last else {
        return Ok(());
    };
    match last.end {
        None => Err(LineFault::AfterOpen),
        Some(_) if begin < last.begin => Err(LineFault::Unsorted),
        Some(end) if begin < end => Err(LineFault::Overlap),
        Some(_) => Ok(()),
    }
}

/// Whether a call began when the last one of its thread ended, or earlier, each wider by the skew.
fn touches(skew: u64, begin: u64, last_end: u64) -> bool
    ensures { result ≡ touches skew begin (Some last_end) }
{
    begin.saturating_sub(skew) <= last_end.saturating_add(skew)
}

/// Notes the tie of a call with the last one of its thread, if they have one.
pub fn note_tie(
    ties: &mut Vec<Tie>,
    skew: u64,
    place: u32,
    begin: u64,
    last: Option<Last>,
) -> Result<(), LogFault>
    ensures ties { OnOk result (ties.new.items ≡ ties.old.items ++ tie_with skew place begin last) }
    ensures memory { IfErr result (λ fault. fault ≡ LogFault.Memory) }
{
    let Some(last) = last else {
        return Ok(());
    };
    let Some(last_end) = last.end else {
        return Ok(());
    };
    if touches(skew, begin, last_end) {
        ties.push(Tie {
            earlier: last.place,
            later: place,
        })?;
    }
    Ok(())
}
