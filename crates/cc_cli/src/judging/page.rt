//! The page of a judged log, written piece by piece: a text before the fault, the fault as a line of JSON, a text, a line of JSON for
//! each shown call, and a text. `choice` has which calls are shown.
ghost use Rattle.std.specs.Prelude.{◌≡◌, ◌<◌, ◌+◌, ◌-◌, ◌^◌};
ghost use Rattle.cc_cli.specs.Judged.{failed_writes};
ghost use Rattle.cc_cli.specs.Names.{AnswerFault};

use crate::judging::choice::{Choice, beside_fault, first_calls, held_until, named_sends};
use crate::judging::fault_page::{BACK, FRONT, MIDDLE};
use crate::judging::lines::{call_json, quoted};
use crate::judging::verdict_line::{MANY, first_close, found_end, in_whole, next_of};
use cc_io::{Sink, WriteFault, write_bytes};
use cc_judge::{Fault, Stay, Verdict};
use cc_log::{Log, Shown};
use std::alloc::{AllocError, Global};
use std::slice::from_ref;

/// Why an answer isn't written, or not whole.
#[derive(Clone, Copy)]
pub enum AnswerFault {
    /// Memory was refused.
    Memory,
    /// A write failed.
    Write,
}

impl From<AllocError> for AnswerFault {
    ghost from_gives = { λ _ fault. fault ≡ AnswerFault.Memory };

    fn from(_: AllocError) -> AnswerFault {
        AnswerFault::Memory
    }
}

impl From<WriteFault> for AnswerFault {
    ghost from_gives = { λ _ fault. fault ≡ AnswerFault.Write };

    fn from(_: WriteFault) -> AnswerFault {
        AnswerFault::Write
    }
}

/// Appends a key and the number of the line of the call at a place, if the log has a line of that call.
fn push_line(
    alloc: Global,
    text: &mut String,
    log: &Log,
    key: &str,
    place: usize,
) -> Result<(), AllocError> {
    let Some(line) = log.line_of(place) else {
        return Ok(());
    };
    let one = format!(in alloc; ",\"{key}\":{line}")?;
    text.push_str(one.as_str())
}

/// Appends the numbers of the lines of sends, as an array. A send that the log lacks has no line.
fn push_sends(
    alloc: Global,
    text: &mut String,
    log: &Log,
    sends: &[usize],
) -> Result<(), AllocError> {
    text.push_str("\"sends\":[")?;
    let mut mark = "";
    for send in sends {
        if let Some(line) = log.line_of(*send) {
            let line = format!(in alloc; "{mark}{line}")?;
            text.push_str(line.as_str())?;
            mark = ",";
        }
    }
    text.push_str("]")
}

/// Appends a stay.
fn push_stay(
    alloc: Global,
    text: &mut String,
    log: &Log,
    stay: &Stay,
    is_last: bool,
) -> Result<(), AllocError> {
    let stay = &in_whole(alloc, log, stay)?;
    text.push_str("{")?;
    match stay {
        Stay::Taken { send, take, .. } => {
            push_sends(alloc, text, log, from_ref(send))?;
            push_line(alloc, text, log, "take", *take)?;
        }
        Stay::Left { sends, more, .. } => {
            push_sends(alloc, text, log, sends.as_slice())?;
            push_more(alloc, text, "more", *more)?;
            if let Some(next) = next_of(log, stay, is_last) {
                push_line(alloc, text, log, "next", next)?;
            }
        }
    }
    if let Some(closed) = stay.closed() {
        push_line(alloc, text, log, "closed", closed)?;
    }
    text.push_str("}")
}

/// Appends the lines of two calls, each with its key.
fn push_two(
    alloc: Global,
    text: &mut String,
    log: &Log,
    first: (&str, usize),
    second: (&str, usize),
) -> Result<(), AllocError> {
    push_line(alloc, text, log, first.0, first.1)?;
    push_line(alloc, text, log, second.0, second.1)
}

/// Appends stays: of many the first, and how many others there are.
fn push_stays(
    alloc: Global,
    text: &mut String,
    log: &Log,
    stays: &[Stay],
) -> Result<(), AllocError> {
    text.push_str(",\"stays\":[")?;
    for (at, stay) in stays.iter().take(MANY).enumerate() {
        text.push_str(if at == 0 { "" } else { "," })?;
        push_stay(alloc, text, log, stay, at.saturating_add(1) == stays.len())?;
    }
    text.push_str("]")?;
    push_more(alloc, text, "others", stays.len().saturating_sub(MANY))
}

/// Appends a key and how many more there are, if there are any.
fn push_more(alloc: Global, text: &mut String, key: &str, more: usize) -> Result<(), AllocError> {
    if more == 0 {
        return Ok(());
    }
    text.push_str(format!(in alloc; ",\"{key}\":{more}")?.as_str())
}

/// The name of a fault's pattern.
fn pattern(fault: &Fault) -> &'static str {
    match fault {
        Fault::NeverSent { .. } => "never sent",
        Fault::TakenBeforeSent { .. } => "taken before sent",
        Fault::TakenTwice { .. } => "taken twice",
        Fault::Overtaken { .. } => "overtaken",
        Fault::NotEmpty { .. } => "not empty",
        Fault::Reopened { .. } => "open after closed",
        Fault::ClosedEarly { .. } => "closed early",
        Fault::NotFull { .. } => "not full",
        Fault::TooMany { .. } => "too many",
        Fault::NoOrder => "no order",
    }
}

/// Appends a queue's capacity, and the line of the call that it didn't fit.
fn push_bounded(
    alloc: Global,
    text: &mut String,
    log: &Log,
    call: usize,
) -> Result<(), AllocError> {
    let capacity = format!(in alloc; ",\"capacity\":{}", log.rules.capacity.unwrap_or(0))?;
    text.push_str(capacity.as_str())?;
    push_line(alloc, text, log, "call", call)
}

/// Appends the line of a take that found none, whether it found the end and which close began first, and the stays of the
/// items that were there.
fn push_not_empty(
    alloc: Global,
    text: &mut String,
    log: &Log,
    call: usize,
    stays: &[Stay],
) -> Result<(), AllocError> {
    push_line(alloc, text, log, "take", call)?;
    if found_end(log, call) {
        text.push_str(",\"ended\":true")?;
        if let Some(close) = first_close(log) {
            push_line(alloc, text, log, "close", close)?;
        }
    }
    push_stays(alloc, text, log, stays)
}

/// Appends the line of a call after which a queue held too many items, the lines of their sends, of many the first, and
/// until when there were too many.
fn push_too_many(
    alloc: Global,
    text: &mut String,
    log: &Log,
    call: usize,
    sends: &[usize],
) -> Result<(), AllocError> {
    push_bounded(alloc, text, log, call)?;
    text.push_str(",")?;
    let named = named_sends(sends);
    push_sends(alloc, text, log, named)?;
    let more = sends.len().saturating_sub(named.len());
    push_more(alloc, text, "more", more)?;
    match held_until(alloc, log, sends)? {
        Some(until) => text.push_str(format!(in alloc; ",\"until\":\"{until}\"")?.as_str()),
        None => Ok(()),
    }
}

/// Appends the lines that a fault names.
fn push_named(
    alloc: Global,
    text: &mut String,
    log: &Log,
    fault: &Fault,
) -> Result<(), AllocError> {
    match fault {
        Fault::NeverSent { take } => push_line(alloc, text, log, "take", *take),
        Fault::TakenBeforeSent { send, take } => {
            push_two(alloc, text, log, ("send", *send), ("take", *take))
        }
        Fault::TakenTwice { first, second } => {
            push_two(alloc, text, log, ("first", *first), ("second", *second))
        }
        Fault::Overtaken {
            stay,
            later_send,
            later_take,
        } => {
            push_two(
                alloc,
                text,
                log,
                ("send", *later_send),
                ("take", *later_take),
            )?;
            push_stays(alloc, text, log, from_ref(stay))
        }
        Fault::NotEmpty { call, stays } => {
            push_not_empty(alloc, text, log, *call, stays.as_slice())
        }
        Fault::Reopened { closed, send } => {
            push_two(alloc, text, log, ("closed", *closed), ("send", *send))
        }
        Fault::ClosedEarly { call } => push_line(alloc, text, log, "call", *call),
        Fault::NotFull { call } => push_bounded(alloc, text, log, *call),
        Fault::TooMany { call, sends } => push_too_many(alloc, text, log, *call, sends.as_slice()),
        Fault::NoOrder => Ok(()),
    }
}

/// Appends a fault: its pattern, and the lines that it names.
fn push_fault(
    alloc: Global,
    text: &mut String,
    log: &Log,
    fault: &Fault,
) -> Result<(), AllocError> {
    let kind = format!(in alloc; ",\"kind\":\"{}\"", pattern(fault))?;
    text.push_str(kind.as_str())?;
    push_named(alloc, text, log, fault)
}

/// Appends the clocks' skew, how many calls the log has, and how many are left out.
fn push_counts(
    alloc: Global,
    text: &mut String,
    log: &Log,
    left_out: usize,
) -> Result<(), AllocError> {
    let counts = format!(in alloc;
        ",\"skew\":\"{}\",\"calls\":{},\"left_out\":{left_out}",
        log.options.skew,
        log.notes.lines.len()
    )?;
    text.push_str(counts.as_str())
}

/// The line of JSON of a verdict, whose line of text is given.
fn verdict_json(
    alloc: Global,
    log: &Log,
    verdict: &Verdict,
    line: &str,
    left_out: usize,
) -> Result<String, AllocError> {
    let mut text = String::from_str(alloc, "{\"line\":")?;
    text.push_str(quoted(alloc, line.trim_end())?.as_str())?;
    if let Verdict::Fault(fault) = verdict {
        push_fault(alloc, &mut text, log, fault)?;
    }
    push_counts(alloc, &mut text, log, left_out)?;
    text.push_str("}\n")?;
    Ok(text)
}

/// Writes the line of a call.
#[tactic(auto, using(crate::proofs::Judged::unwritten))]
fn write_call<W: Sink>(
    alloc: Global,
    sink: &mut W,
    log: &Log,
    line: usize,
    shown: Shown,
) -> Result<(), AnswerFault>
    requires { W.write_failures sink.old < 2 ^ 64 - 1 }
    ensures { W.write_failures sink.new ≡ W.write_failures sink.old + failed_writes result }
{
    let call = call_json(alloc, log, shown, true)?;
    let text = format!(in alloc; "{{\"line\":{line},{call}\n")?;
    write_bytes(sink, text.as_bytes())?;
    Ok(())
}

/// Writes the lines of the chosen calls.
#[tactic(auto, using(crate::proofs::Judged::unwritten))]
fn write_calls<W: Sink>(
    alloc: Global,
    sink: &mut W,
    log: &Log,
    marks: &[bool],
) -> Result<(), AnswerFault>
    requires { W.write_failures sink.old < 2 ^ 64 - 1 }
    ensures { W.write_failures sink.new ≡ W.write_failures sink.old + failed_writes result }
{
    for (place, marked) in marks.iter().enumerate() {
        if !*marked {
            continue;
        }
        if let (Some(line), Some(shown)) = (log.line_of(place), log.shown(place)) {
            write_call(alloc, sink, log, line, shown)?;
        }
    }
    Ok(())
}

/// The calls that the page of a verdict shows.
fn chosen(alloc: Global, log: &Log, verdict: &Verdict) -> Result<Choice, AllocError> {
    match verdict {
        Verdict::Fault(fault) => beside_fault(alloc, log, fault),
        _ => first_calls(alloc, log),
    }
}

/// Writes what a page begins with, and the line of its verdict, whose line of text is given.
#[tactic(auto, using(crate::proofs::Judged::unwritten))]
fn write_front<W: Sink>(
    alloc: Global,
    sink: &mut W,
    log: &Log,
    verdict: &Verdict,
    line: &str,
    left_out: usize,
) -> Result<(), AnswerFault>
    requires { W.write_failures sink.old < 2 ^ 64 - 1 }
    ensures { W.write_failures sink.new ≡ W.write_failures sink.old + failed_writes result }
{
    let fault = verdict_json(alloc, log, verdict, line, left_out)?;
    write_bytes(sink, FRONT)?;
    write_bytes(sink, fault.as_bytes())?;
    Ok(())
}

/// Writes the page of a verdict, whose line of text is given. Of the page no more than a line is in memory at a time.
#[tactic(auto, using(crate::proofs::Judged::unwritten))]
pub fn write_page<W: Sink>(
    alloc: Global,
    sink: &mut W,
    log: &Log,
    verdict: &Verdict,
    line: &str,
) -> Result<(), AnswerFault>
    requires { W.write_failures sink.old < 2 ^ 64 - 1 }
    ensures { W.write_failures sink.new ≡ W.write_failures sink.old + failed_writes result }
{
    let choice = chosen(alloc, log, verdict)?;
    write_front(alloc, sink, log, verdict, line, choice.left_out)?;
    write_bytes(sink, MIDDLE)?;
    write_calls(alloc, sink, log, choice.marks.as_slice())?;
    write_bytes(sink, BACK)?;
    Ok(())
}
