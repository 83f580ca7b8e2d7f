//! A run by threads, what it writes, and what it reports.
ghost use Rattle.std.specs.Prelude.{◌≡◌, ◌<◌, ◌-◌, ◌^◌, Err, IfOk, is_err};
ghost use Rattle.cc_io.specs.Written.{Writes};
ghost use Rattle.cc_io.specs.FaultLine.{Told};
ghost use Rattle.cc_cli.specs.declared.driving.RunFault.{RunFault};
ghost use Rattle.cc_drive.specs.Ran.{IsWhole};
ghost use Rattle.cc_cli.specs.Drive.{Leaves, counts_text, end_text, line_of, status_of};

use crate::gate::gates_of;
use cc_audit::Verdict;
use cc_drive::{DriveConfig, DriveEnd, DriveFault, Gate, drive};
use cc_io::{Pen, Sink, WriteFault, out_of_memory, told};
use cc_report::write_verdict;
use std::alloc::Global;
use std::sync::Wait;
use std::thread::Threads;
use thiserror::Error;

/// Why a run's end isn't written, or not whole.
#[derive(Clone, Copy, Debug, PartialEq, Eq, Error)]
pub enum RunFault {
    /// The run has no end. Nothing was written.
    #[error("{0}")]
    Drive(#[source] DriveFault),
    /// A write failed. A prefix of the text was written.
    #[error("writing failed")]
    Write,
}

impl From<DriveFault> for RunFault {
    ghost from_gives = { λ from fault. fault ≡ RunFault.Drive from };

    fn from(from: DriveFault) -> RunFault {
        RunFault::Drive(from)
    }
}

impl From<WriteFault> for RunFault {
    ghost from_gives = { λ _ fault. fault ≡ RunFault.Write };

    fn from(_: WriteFault) -> RunFault {
        RunFault::Write
    }
}

/// Drives a queue by threads, each with a copy of this gate, and writes how the run ended: how many sends were accepted, how
/// many items were taken, and the verdict. Nothing is written before the run has its end.
pub fn drive_to<R: Threads + Wait + Sync, G: Gate + Send + Copy, W: Sink>(
    rt: &R,
    alloc: Global,
    config: &DriveConfig,
    gate: G,
    sink: &mut W,
) -> Result<DriveEnd, RunFault>
    requires { W.write_failures sink.old < 2 ^ 64 - 1 }
    ensures { Leaves config.now result (W.bytes_written sink.old) (W.bytes_written sink.new)
        (W.write_failures sink.old) (W.write_failures sink.new) }
{
    let end = driven(rt, alloc, config, gate)?;
    write_end(sink, &end)?;
    Ok(end)
}

/// Drives a queue by threads, each with a copy of this gate.
#[tactic(auto, using(cc_drive::proofs::Crewed::whole_if_ok))]
fn driven<R: Threads + Wait + Sync, G: Gate + Send + Copy>(
    rt: &R,
    alloc: Global,
    config: &DriveConfig,
    gate: G,
) -> Result<DriveEnd, DriveFault>
    ensures { IfOk result (IsWhole config.now) }
{
    let workers = u64::from(config.senders) + u64::from(config.receivers);
    let gates = gates_of(alloc, gate, workers)?;
    drive(rt, alloc, config, gates)
}

/// Writes how a run ended, and stops at the first write that fails.
#[tactic(auto, using(cc_io::proofs::Writing::both_out, cc_io::proofs::Writing::first_failed), unfolding(crate::specs::Drive::end_text))]
fn write_end<W: Sink>(sink: &mut W, end: &DriveEnd) -> Result<(), WriteFault>
    requires { W.write_failures sink.old < 2 ^ 64 - 1 }
    ensures { Writes (is_err result) (W.bytes_written sink.old) (W.bytes_written sink.new)
        (W.write_failures sink.old) (W.write_failures sink.new) (end_text end.now) }
{
    write_counts(sink, end.sent, end.taken)?;
    write_verdict(sink, end.verdict)
}

/// Writes the lines of both counts, and stops at the first write that fails.
fn write_counts<W: Sink>(sink: &mut W, sent: u64, taken: u64) -> Result<(), WriteFault>
    requires { W.write_failures sink.old < 2 ^ 64 - 1 }
    ensures { Writes (is_err result) (W.bytes_written sink.old) (W.bytes_written sink.new)
        (W.write_failures sink.old) (W.write_failures sink.new) (counts_text sent taken) }
{
    let mut pen = Pen::new();
    pen.word(sink, b"sent ", sent);
    pen.word(sink, b"\ntaken ", taken);
    pen.text(sink, b"\n");
    pen.finish(sink)
}

/// Reports what went wrong in a run, and returns the status: 0 if the verdict is clean, 1 if the audit found a fault, 3 if
/// memory or a thread was refused or a worker reached its limit, 4 if a write failed, and 64 if a number is out of its
/// range.
#[tactic(auto, unfolding(crate::specs::Drive::line_of))]
pub fn tell_end<E: Sink>(errors: &mut E, outcome: Result<Verdict, RunFault>) -> u8
    requires { E.write_failures errors.old < 2 ^ 64 - 1 }
    ensures status { result ≡ status_of outcome }
    ensures told { Told (E.bytes_written errors.old) (E.bytes_written errors.new)
        (E.write_failures errors.old) (E.write_failures errors.new) (line_of outcome) }
{
    match outcome {
        Ok(Verdict::Clean) => told(errors, b"", 0),
        Ok(Verdict::Fault { .. }) => told(errors, b"", 1),
        Err(fault) => tell_fault(errors, fault),
    }
}

/// Reports why a run's end isn't written, or not whole, and returns the status.
#[tactic(auto, unfolding(crate::specs::Drive::line_of))]
fn tell_fault<E: Sink>(errors: &mut E, fault: RunFault) -> u8
    requires { E.write_failures errors.old < 2 ^ 64 - 1 }
    ensures status { result ≡ status_of (Err fault) }
    ensures told { Told (E.bytes_written errors.old) (E.bytes_written errors.new)
        (E.write_failures errors.old) (E.write_failures errors.new) (line_of (Err fault)) }
{
    match fault {
        RunFault::Drive(fault) => tell_no_end(errors, fault),
        RunFault::Write => told(errors, b"ccq: writing failed\n", 4),
    }
}

/// Reports why a run has no end, and returns the status.
#[tactic(auto, unfolding(crate::specs::Drive::line_of))]
fn tell_no_end<E: Sink>(errors: &mut E, fault: DriveFault) -> u8
    requires { E.write_failures errors.old < 2 ^ 64 - 1 }
    ensures status { result ≡ status_of (Err (RunFault.Drive fault)) }
    ensures told { Told (E.bytes_written errors.old) (E.bytes_written errors.new)
        (E.write_failures errors.old) (E.write_failures errors.new) (line_of (Err (RunFault.Drive fault))) }
{
    match fault {
        DriveFault::NoMemory => out_of_memory(errors),
        DriveFault::Thread => told(errors, b"ccq: a thread was refused\n", 3),
        DriveFault::Limit(_) => told(errors, b"ccq: a worker reached its limit\n", 3),
        DriveFault::Config(_) => told(errors, b"ccq: a number is out of its range\n", 64),
    }
}
