//! Reporting the outcome of a task on its input, and why an input can't be opened or read.
ghost use Rattle.std.specs.Prelude.{◌≡◌, ◌<◌, ◌-◌, ◌^◌};
ghost use Rattle.cc_cli.specs.Run.{RefusesFile, Tells, TellsShown, TellsUnread, unread_line};
ghost use Rattle.cc_cli.specs.Names.{PlayFault};
ghost use Rattle.cc_play.specs.Outcome.{status_of};
ghost use Rattle.cc_show.specs.Show.{shown_status};
ghost use Rattle.cc_io.specs.FaultLine.{Told};

use crate::input::Reasoned;
use cc_audit::Verdict;
use cc_io::{Pen, Sink, out_of_memory};
use cc_play::{PlayFault, tell};
use cc_show::{ShowFault, tell_shown};
use std::alloc::Global;
use std::io;

/// Reports the outcome of a play or an audit of the input of this name, and returns the status.
pub(crate) fn tell_outcome<S: Reasoned, E: Sink>(
    alloc: Global,
    errors: &mut E,
    name: &str,
    source: &S,
    outcome: Result<Verdict, PlayFault>,
) -> u8
    requires { E.write_failures errors.old < 2 ^ 64 - 1 }
    ensures status { result ≡ status_of outcome }
    ensures told { Tells (E.bytes_written errors.old) (E.bytes_written errors.new)
        (E.write_failures errors.old) (E.write_failures errors.new) name.now outcome }
{
    match outcome {
        Err(PlayFault::Read) => tell_unread(alloc, errors, name, source),
        outcome => tell(errors, outcome),
    }
}

/// Reports the outcome of a show of the input of this name, and returns the status.
pub(crate) fn tell_shown_outcome<S: Reasoned, E: Sink>(
    alloc: Global,
    errors: &mut E,
    name: &str,
    source: &S,
    outcome: Result<Verdict, ShowFault>,
) -> u8
    requires { E.write_failures errors.old < 2 ^ 64 - 1 }
    ensures status { result ≡ shown_status outcome }
    ensures told { TellsShown (E.bytes_written errors.old) (E.bytes_written errors.new)
        (E.write_failures errors.old) (E.write_failures errors.new) name.now outcome }
{
    match outcome {
        Err(ShowFault::Play(PlayFault::Read)) => tell_unread(alloc, errors, name, source),
        outcome => tell_shown(errors, outcome),
    }
}

/// Reports that reading the input of this name failed, with the system's reason, and returns the status.
pub fn tell_unread<S: Reasoned, E: Sink>(
    alloc: Global,
    errors: &mut E,
    name: &str,
    source: &S,
) -> u8
    requires { E.write_failures errors.old < 2 ^ 64 - 1 }
    ensures status { result ≡ 4 }
    ensures told { TellsUnread (E.bytes_written errors.old) (E.bytes_written errors.new)
        (E.write_failures errors.old) (E.write_failures errors.new) name.now }
{
    match source.reason(alloc) {
        Some(reason) => tell_reason(errors, name.as_bytes(), reason.as_bytes(), 4),
        None => tell(errors, Err(PlayFault::Read)),
    }
}

/// Reports that the file of this name can't be opened, with the system's reason, and returns the status.
pub fn decline_file<E: Sink>(alloc: Global, errors: &mut E, name: &[u8], error: &io::Error) -> u8
    requires { E.write_failures errors.old < 2 ^ 64 - 1 }
    ensures { RefusesFile (E.bytes_written errors.old) (E.bytes_written errors.new)
        (E.write_failures errors.old) (E.write_failures errors.new) result name.now }
{
    match (error.kind(), format!(in alloc; "{error}")) {
        (io::ErrorKind::OutOfMemory, _) | (_, Err(_)) => out_of_memory(errors),
        (_, Ok(reason)) => tell_reason(errors, name, reason.as_bytes(), 64),
    }
}

/// Reports why the input of this name can't be opened or read, or is refused, and returns this status.
pub(crate) fn tell_reason<E: Sink>(errors: &mut E, name: &[u8], reason: &[u8], status: u8) -> u8
    requires { E.write_failures errors.old < 2 ^ 64 - 1 }
    ensures status { result ≡ status }
    ensures told { Told (E.bytes_written errors.old) (E.bytes_written errors.new)
        (E.write_failures errors.old) (E.write_failures errors.new) (unread_line name.now reason.now) }
{
    let mut pen = Pen::new();
    pen.text(errors, b"ccq: ");
    pen.text(errors, name);
    pen.text(errors, b": ");
    pen.text(errors, reason);
    pen.text(errors, b"\n");
    let _outcome = pen.finish(errors);
    status
}
