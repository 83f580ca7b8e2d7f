//! Plays and shows plans, audits receipts, judges logs of calls, and drives queues by threads.
#![tactic(auto)]

mod progress;

ghost use Rattle.std.specs.Prelude.{◌<◌, ◌-◌, ◌^◌};

use cc_cli::hint::{decline_page, is_explained, tell_waiting};
use cc_cli::input::{Input, Reasoned};
use cc_cli::paint::{Painter, is_painted, wants_colours};
use cc_cli::place::explain_refusal;
use cc_cli::reading::{decline_file, tell_unread};
use cc_cli::run::run;
use cc_cli::task::Task;
use cc_io::{Device, InputFault, Sink, Source, out_of_memory, read_input};
use cc_line::asked::{Line, asked};
use cc_line::refusal::{decline, unread};
use progress::{Behind, Counter, Meter};
use std::env::VarError;
use std::fs::{File, Files};
use std::io::IsTerminal;
use std::process::ExitCode;
use std::sync::Wait;
use std::thread::Threads;
use std::{env, io};

fn main(rt: HostRuntime) -> ExitCode {
    let is_told = rt.stderr().is_terminal();
    let meter = if is_told { Meter::new(&rt) } else { None };
    let mut errors = Behind::new(
        Painter::new(
            Device::new(rt.stderr()),
            Device::new(rt.stderr()),
            is_told && has_colours(&rt),
        ),
        meter.as_ref(),
    );
    let words = words(&rt);
    let line = match &words {
        Ok(words) => asked(rt.alloc(), words.as_slice()),
        Err(error) => Err(unread(rt.alloc(), error)),
    };
    let colours = match &line {
        Ok(line) => rt.stdout().is_terminal() && is_painted(line.task) && has_colours(&rt),
        Err(_) => false,
    };
    let painter = Painter::new(Device::new(rt.stdout()), Device::new(rt.stdout()), colours);
    let mut sink = Behind::new(painter, meter.as_ref());
    let status = match &line {
        Ok(line) => {
            let gate = Counter::new(meter.as_ref());
            answer(&rt, &rt, gate, *line, &mut sink, &mut errors)
        }
        Err(error) => decline(rt.alloc(), error, &mut sink, &mut errors),
    };
    ExitCode::from(status)
}

/// Whether the environment says that a terminal has colours.
fn has_colours(rt: &HostRuntime) -> bool {
    let Ok(term) = env::var(rt, "TERM") else {
        return false;
    };
    match env::var(rt, "NO_COLOR") {
        Ok(no_color) => wants_colours(term.as_str(), no_color.as_str()),
        Err(error) => error == VarError::NotPresent && wants_colours(term.as_str(), ""),
    }
}

/// The words of the command line, without the program's name; or why there are none: one of them is no text, or memory
/// was refused.
fn words(rt: &HostRuntime) -> io::Result<Vec<String>> {
    Ok(env::args(rt)?.skip(1).collect(rt.alloc())?)
}

/// Does a line over the file that it names, or over standard input if it names none, and answers the exit status. The host has the
/// streams and the clock. At a terminal a task says first that it waits for standard input.
fn answer<R: Threads + Wait + Sync + Files, W: Sink, E: Sink>(
    rt: &R,
    host: &HostRuntime,
    gate: Counter<'_>,
    line: Line<'_>,
    sink: &mut W,
    errors: &mut E,
) -> u8
    requires writes { W.write_failures sink.old < 2 ^ 64 - 1 }
    requires errors { E.write_failures errors.old < 2 ^ 64 - 1 }
{
    if host.stdout().is_terminal() && line.task.writes_page() {
        return decline_page(errors);
    }
    let Some(name) = line.file else {
        if host.stderr().is_terminal() && host.stdin().is_terminal() {
            tell_waiting(&mut Device::new(host.stderr()), line.task);
        }
        let mut source = Input::new(host.stdin());
        return answer_over(
            rt,
            host,
            gate,
            line.task,
            "standard input",
            &mut source,
            sink,
            errors,
        );
    };
    match File::open(rt, name) {
        Ok(file) => answer_over(
            rt,
            host,
            gate,
            line.task,
            name,
            &mut Input::new(file),
            sink,
            errors,
        ),
        Err(error) => decline_file(host.alloc(), errors, name.as_bytes(), &error),
    }
}

/// Does a line over an input, and answers the exit status. If standard error is a terminal, the place of the fault follows a
/// refusal of a plan or of receipts.
fn answer_over<R: Threads + Wait + Sync, S: Source + Reasoned, W: Sink, E: Sink>(
    rt: &R,
    host: &HostRuntime,
    gate: Counter<'_>,
    task: Task,
    name: &str,
    source: &mut S,
    sink: &mut W,
    errors: &mut E,
) -> u8
    requires reads { S.read_failures source.old < 2 ^ 64 - 1 }
    requires writes { W.write_failures sink.old < 2 ^ 64 - 1 }
    requires errors { E.write_failures errors.old < 2 ^ 64 - 1 }
{
    if !is_explained(task) || !host.stderr().is_terminal() {
        return run(rt, host.alloc(), task, name, gate, source, sink, errors);
    }
    match read_input(host.alloc(), source) {
        Ok(input) => {
            let mut kept = Input::new(input.as_slice());
            match run(rt, host.alloc(), task, name, gate, &mut kept, sink, errors) {
                2 => explain_refusal(host.alloc(), &mut Device::new(host.stderr()), name, &input),
                status => status,
            }
        }
        Err(InputFault::Read) => tell_unread(host.alloc(), errors, name, source),
        Err(InputFault::NoMemory) => out_of_memory(errors),
    }
}
