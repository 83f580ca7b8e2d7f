//! Doing a task.
ghost use Rattle.std.specs.Prelude.{◌<◌, ◌-◌, ◌^◌};
ghost use Rattle.cc_cli.specs.Run.{Runs};
ghost use Rattle.cc_cli.specs.Drive.{Drives};

use crate::driving::{drive_to, tell_end};
use crate::input::Reasoned;
use crate::judging::judge_input;
use crate::reading::{tell_outcome, tell_shown_outcome};
use crate::task::Task;
use cc_drive::{DriveConfig, Gate};
use cc_io::{Sink, Source};
use cc_play::audit_bytes;
use cc_play::play::play;
use cc_show::show::show;
use std::alloc::Global;
use std::sync::Wait;
use std::thread::Threads;

/// Does a task, on the input of this name: plays the plan of the source or shows its run, audits its receipts or
/// judges its log; or drives a queue by threads, each with a copy of the gate, and reads nothing. It returns
/// the exit status: 0 if that was done and the verdict is clean, 1 if a fault was found, 2 if the input is refused, 3 if memory or a
/// thread is, or a worker reached its limit, 4 if a device fails, and 5 if the judge is undecided or a run is too long to be shown.
/// Faults are reported on `errors`, whose own failures change nothing.
pub fn run<R: Threads + Wait + Sync, G: Gate + Send + Copy, S: Source + Reasoned, W: Sink, E: Sink>(
    rt: &R,
    alloc: Global,
    task: Task,
    name: &str,
    gate: G,
    source: &mut S,
    sink: &mut W,
    errors: &mut E,
) -> u8
    requires reads { S.read_failures source.old < 2 ^ 64 - 1 }
    requires writes { W.write_failures sink.old < 2 ^ 64 - 1 }
    requires errors { E.write_failures errors.old < 2 ^ 64 - 1 }

    ensures { Runs (S.bytes_left source.old) (S.bytes_left source.new)
        (S.read_failures source.old) (S.read_failures source.new)
        (W.bytes_written sink.old) (W.bytes_written sink.new)
        (W.write_failures sink.old) (W.write_failures sink.new)
        (E.bytes_written errors.old) (E.bytes_written errors.new)
        (E.write_failures errors.old) (E.write_failures errors.new) result name.now task }
{
    match task {
        Task::Play => {
            let outcome = play(alloc, source, sink);
            tell_outcome(alloc, errors, name, source, outcome)
        }
        Task::Audit => {
            let outcome = audit_bytes(alloc, source, sink);
            tell_outcome(alloc, errors, name, source, outcome)
        }
        Task::Judge(options) => judge_input(alloc, options, name, source, sink, errors),
        Task::Show(form) => {
            let outcome = show(alloc, form, source, sink);
            tell_shown_outcome(alloc, errors, name, source, outcome)
        }
        Task::Drive(config) => answer(rt, alloc, &config, gate, sink, errors),
    }
}

/// Does a drive, on both outputs; it gets no source to read.
fn answer<R: Threads + Wait + Sync, G: Gate + Send + Copy, W: Sink, E: Sink>(
    rt: &R,
    alloc: Global,
    config: &DriveConfig,
    gate: G,
    sink: &mut W,
    errors: &mut E,
) -> u8
    requires writes { W.write_failures sink.old < 2 ^ 64 - 1 }
    requires errors { E.write_failures errors.old < 2 ^ 64 - 1 }
    ensures { Drives config.now (W.bytes_written sink.old) (W.bytes_written sink.new)
        (W.write_failures sink.old) (W.write_failures sink.new)
        (E.bytes_written errors.old) (E.bytes_written errors.new)
        (E.write_failures errors.old) (E.write_failures errors.new) result }
{
    let outcome = drive_to(rt, alloc, config, gate, sink);
    tell_end(errors, outcome.map(|end| end.verdict))
}
