//! Answering a line that asks for no task: clap's text of help, of the version, or of what is wrong with it.
ghost use Rattle.std.specs.Prelude.{◌≡◌, ◌⊎◌, ◌<◌, ◌-◌, ◌^◌, IfOk};
ghost use Rattle.clap.specs.Words.{kind_of};
ghost use Rattle.cc_line.specs.Refusal.{Declines, Helps};

use crate::program::program;
use cc_io::{Sink, out_of_memory, told, write_bytes};
use clap::Error;
use clap::error::ErrorKind;
use std::alloc::{AllocError, Global};
use std::io;

/// The error of a line whose words can't be read: memory was refused, or one of them is no text.
pub fn unread(alloc: Global, error: &io::Error) -> Error
    ensures { (kind_of result ≡ ErrorKind.OutOfMemory) ⊎ (kind_of result ≡ ErrorKind.InvalidValue) }
{
    if error.kind() == io::ErrorKind::OutOfMemory {
        return Error::from(AllocError);
    }
    match not_text(alloc) {
        Ok(error) => error,
        Err(error) => Error::from(error),
    }
}

/// The error of a line of which a word is no text.
fn not_text(alloc: Global) -> Result<Error, AllocError>
    ensures { IfOk result (λ e. kind_of e ≡ ErrorKind.InvalidValue) }
{
    program(alloc)?.error(
        ErrorKind::InvalidValue,
        "invalid UTF-8 was detected in one or more arguments; a file of such a name is read by `ccq TASK < FILE`",
    )
}

/// Answers a line that asks for no task: writes the help or the version that it asks for, or reports what is wrong with
/// it, and returns the status.
pub fn decline<W: Sink, E: Sink>(alloc: Global, error: &Error, sink: &mut W, errors: &mut E) -> u8
    requires writes { W.write_failures sink.old < 2 ^ 64 - 1 }
    requires errors { E.write_failures errors.old < 2 ^ 64 - 1 }
    ensures { Declines (W.bytes_written sink.old) (W.bytes_written sink.new)
        (W.write_failures sink.old) (W.write_failures sink.new)
        (E.bytes_written errors.old) (E.bytes_written errors.new)
        (E.write_failures errors.old) (E.write_failures errors.new) result (kind_of error.now) }
{
    let kind = error.kind();
    match (kind, format!(in alloc; "{error}")) {
        (ErrorKind::OutOfMemory, _) | (_, Err(_)) => out_of_memory(errors),
        (ErrorKind::DisplayHelp | ErrorKind::DisplayVersion, Ok(text)) => {
            write_help(sink, errors, text.as_bytes())
        }
        (_, Ok(text)) => told(errors, text.as_bytes(), 64),
    }
}

/// Writes a text of help, or the version, and returns the status.
fn write_help<W: Sink, E: Sink>(sink: &mut W, errors: &mut E, text: &[u8]) -> u8
    requires writes { W.write_failures sink.old < 2 ^ 64 - 1 }
    requires errors { E.write_failures errors.old < 2 ^ 64 - 1 }
    ensures { Helps (W.bytes_written sink.old) (W.bytes_written sink.new)
        (W.write_failures sink.old) (W.write_failures sink.new)
        (E.bytes_written errors.old) (E.bytes_written errors.new)
        (E.write_failures errors.old) (E.write_failures errors.new) result }
{
    match write_bytes(sink, text) {
        Ok(()) => told(errors, b"", 0),
        Err(_) => told(errors, b"ccq: writing failed\n", 4),
    }
}
