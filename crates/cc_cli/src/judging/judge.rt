//! Judging the log on an input.
ghost use Rattle.std.specs.Prelude.{◌≡◌, ◌⊎◌, ◌<◌, ◌+◌, ◌-◌, ◌^◌, ◌==◌, IfOk, if◌then◌else◌};
ghost use Rattle.cc_judge.specs.Verdict.{IsDecided, IsVerdict};
ghost use Rattle.cc_cli.specs.Judged.{IsJudged, IsRefused, IsTold, Judges, failed_writes, told_status, verdict_status};

use crate::input::Reasoned;
use crate::judging::follow::follow_input;
use crate::judging::lines::named_lines;
use crate::judging::page::{AnswerFault, write_page};
use crate::judging::verdict_line::text_of;
use crate::reading::tell_unread;
use cc_io::{Sink, Source, out_of_memory, told, write_bytes};
use cc_judge::{Verdict, judge};
use cc_log::{Log, LogFault, Options, read_log};
use cc_play::{PlayFault, tell};
use std::alloc::{AllocError, Global};

/// A verdict, and its line.
#[derive(Drop)]
pub struct Found {
    /// The verdict.
    pub verdict: Verdict,
    /// The line.
    pub line: String,
}

/// The exit status of a verdict: 0 if it is clean, 1 for a fault, 5 if it is undecided.
fn status_of(verdict: &Verdict) -> u8
    ensures { result ≡ verdict_status verdict.now }
{
    match verdict {
        Verdict::Clean => 0,
        Verdict::Fault(_) => 1,
        Verdict::Undecided(_) => 5,
    }
}

/// The verdict on a log, and its line.
fn verdict_on(alloc: Global, log: &Log) -> Result<Found, AllocError>
    ensures right { IfOk result (λ found. IsVerdict log.now.rules log.now.calls.items found.verdict) }
    ensures decided { IfOk result (λ found. IsDecided log.now.rules log.now.calls.items log.now.items found.verdict) }
{
    let verdict = judge(alloc, &log.rules, log.calls.as_slice(), log.items)?;
    let line = text_of(alloc, log, &verdict)?;
    Ok(Found { verdict, line })
}

/// Reports why the input of this name is no log, and returns the status.
pub fn refused<R: Reasoned, E: Sink>(
    alloc: Global,
    errors: &mut E,
    name: &str,
    source: &R,
    fault: &LogFault,
) -> u8
    requires { E.write_failures errors.old < 2 ^ 64 - 1 }
    ensures { IsRefused fault.now result }
{
    match fault {
        LogFault::Memory => out_of_memory(errors),
        LogFault::Read => tell_unread(alloc, errors, name, source),
        _ => tell_refusal(alloc, errors, name, fault),
    }
}

/// Writes the line of a refusal of the log of this name, and returns the status.
fn tell_refusal<E: Sink>(alloc: Global, errors: &mut E, name: &str, fault: &LogFault) -> u8
    requires { E.write_failures errors.old < 2 ^ 64 - 1 }
    ensures { (result ≡ 2) ⊎ (result ≡ 3) }
{
    match format!(in alloc; "ccq: log refused: {name}: {fault}\n") {
        Ok(line) => told(errors, line.as_bytes(), 2),
        Err(_) => out_of_memory(errors),
    }
}

/// Writes a verdict, as its line and the lines that this names or as a page, as the options of the log say.
#[tactic(auto, using(crate::proofs::Judged::unwritten))]
fn write_found<W: Sink>(
    alloc: Global,
    log: &Log,
    found: &Found,
    sink: &mut W,
) -> Result<(), AnswerFault>
    requires { W.write_failures sink.old < 2 ^ 64 - 1 }
    ensures { W.write_failures sink.new ≡ W.write_failures sink.old + failed_writes result }
{
    if log.options.page {
        return write_page(alloc, sink, log, &found.verdict, found.line.as_str());
    }
    let named = named_lines(alloc, log, &found.verdict)?;
    write_bytes(sink, found.line.as_bytes())?;
    write_bytes(sink, named.as_bytes())?;
    Ok(())
}

/// Reports whether an answer was written, and returns the status: this one if it was.
fn tell_written<E: Sink>(errors: &mut E, status: u8, outcome: Result<(), AnswerFault>) -> u8
    requires { E.write_failures errors.old < 2 ^ 64 - 1 }
    ensures { result ≡ told_status status outcome }
{
    match outcome {
        Ok(()) => status,
        Err(AnswerFault::Memory) => out_of_memory(errors),
        Err(AnswerFault::Write) => tell(errors, Err(PlayFault::Write)),
    }
}

/// Writes the verdict on a log, and returns the status, which is the verdict's whether that is written as a line or as a page.
#[tactic(auto, using(crate::proofs::Judged::told, crate::proofs::Judged::counted))]
pub fn tell_found<W: Sink, E: Sink>(
    alloc: Global,
    log: &Log,
    found: &Found,
    sink: &mut W,
    errors: &mut E,
) -> u8
    requires writes { W.write_failures sink.old < 2 ^ 64 - 1 }
    requires errors { E.write_failures errors.old < 2 ^ 64 - 1 }
    ensures told { IsTold found.now.verdict result }
    ensures failures { W.write_failures sink.new ≡ W.write_failures sink.old + (if result == 4 then 1 else 0) }
{
    let status = status_of(&found.verdict);
    let outcome = write_found(alloc, log, found, sink);
    tell_written(errors, status, outcome)
}

/// Judges a log, writes the verdict, and returns the status.
fn judge_log<W: Sink, E: Sink>(alloc: Global, log: &Log, sink: &mut W, errors: &mut E) -> u8
    requires writes { W.write_failures sink.old < 2 ^ 64 - 1 }
    requires errors { E.write_failures errors.old < 2 ^ 64 - 1 }
    ensures judged { IsJudged log.now.rules log.now.calls.items log.now.items result }
    ensures failures { W.write_failures sink.new ≡ W.write_failures sink.old + (if result == 4 then 1 else 0) }
{
    match verdict_on(alloc, log) {
        Ok(found) => tell_found(alloc, log, &found, sink, errors),
        Err(_) => out_of_memory(errors),
    }
}

/// Reads the log of this name from the source, judges it by these options, and writes the verdict to the sink, as a line or as a page. It returns the exit status: 0
/// if the log is linearizable, 1 if it isn't, 2 if the log is refused, 3 if memory is, 4 if a device fails, and 5 if the
/// verdict is undecided. A refusal or a failure is reported on `errors`. The status is that of a right verdict on the log that the
/// input spells, or says that the input spells none. It is 5 only if lines alone order calls of the log, of which more than two
/// meet at a time, or some overlap by the skew or have times of 2^62 and more; and if the log isn't small. It is 4 exactly if a device failed, as the counts of failures show.
pub fn judge_input<R: Source + Reasoned, W: Sink, E: Sink>(
    alloc: Global,
    options: Options,
    name: &str,
    source: &mut R,
    sink: &mut W,
    errors: &mut E,
) -> u8
    requires reads { R.read_failures source.old < 2 ^ 64 - 1 }
    requires writes { W.write_failures sink.old < 2 ^ 64 - 1 }
    requires errors { E.write_failures errors.old < 2 ^ 64 - 1 }
    ensures { Judges options (R.bytes_left source.old)
        (R.read_failures source.old) (R.read_failures source.new)
        (W.write_failures sink.old) (W.write_failures sink.new) result }
{
    if options.follow {
        return follow_input(alloc, options, name, source, sink, errors);
    }
    match read_log(alloc, source, options) {
        Ok(log) => judge_log(alloc, &log, sink, errors),
        Err(fault) => refused(alloc, errors, name, source, &fault),
    }
}
