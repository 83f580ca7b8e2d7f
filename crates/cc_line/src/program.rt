//! The command that the words are read by: the program, its tasks, and their options. A function adds at most two options
//! or three tasks, so that the prover finds its clause.
ghost use Rattle.std.specs.Prelude.{◌≡◌, IfOk, false};
ghost use Rattle.clap.specs.Words.{app_of, new_app, rule_of, shape_of};
ghost use Rattle.clap.specs.declared.builder.command.Command.TheViews.{out-Command as fields_of};
ghost use Rattle.cc_line.specs.Program.{audit, bare_program, drive, file, flag, judge, option, play, program, show, with_capacity, with_clocks, with_flags, with_inputs, with_items, with_threads};

use crate::help;
use clap::builder::ValueParser;
use clap::{Arg, ArgAction, Command, value_parser};
use std::alloc::{AllocError, Global};

/// The program and its tasks.
pub fn program<'a>(alloc: Global) -> Result<Command<'a>, AllocError>
    ensures { IfOk result (λ c. app_of c ≡ program) }
{
    with_inputs(alloc)?
        .subcommand(show(alloc)?)?
        .subcommand(drive(alloc)?)
}

/// The program with its first three tasks.
fn with_inputs<'a>(alloc: Global) -> Result<Command<'a>, AllocError>
    ensures { IfOk result (λ c. app_of c ≡ with_inputs) }
{
    bare_program(alloc)?
        .subcommand(play(alloc)?)?
        .subcommand(audit(alloc)?)?
        .subcommand(judge(alloc)?)
}

/// The program without its tasks.
fn bare_program<'a>(alloc: Global) -> Result<Command<'a>, AllocError>
    ensures { IfOk result (λ c. app_of c ≡ bare_program) }
{
    Command::new(alloc, "ccq")
        .about("Judges the calls on any queue, and runs Vahepito's own (CC-Queue)")
        .version(help::VERSION)
        .after_long_help(help::PROGRAM)
        .arg_required_else_help(true)
        .subcommand_required(true)
        .no_binary_name(true)
        .bin_name("ccq")
}

/// The task that plays a plan.
fn play<'a>(alloc: Global) -> Result<Command<'a>, AllocError>
    ensures shape { IfOk result (λ c. shape_of c ≡ play) }
    ensures local { IfOk result (λ c. (fields_of c).has_globals ≡ false) }
{
    task(
        alloc,
        "play",
        "Plays a plan and writes the report of its whole history",
        help::PLAY,
    )
    .arg(file(alloc, "PLAN"))
}

/// The task that audits receipts.
fn audit<'a>(alloc: Global) -> Result<Command<'a>, AllocError>
    ensures shape { IfOk result (λ c. shape_of c ≡ audit) }
    ensures local { IfOk result (λ c. (fields_of c).has_globals ≡ false) }
{
    task(
        alloc,
        "audit",
        "Audits receipts and writes the verdict on them",
        help::AUDIT,
    )
    .arg(file(alloc, "RECEIPTS"))
}

/// The task that shows the run of a plan.
fn show<'a>(alloc: Global) -> Result<Command<'a>, AllocError>
    ensures shape { IfOk result (λ c. shape_of c ≡ show) }
    ensures local { IfOk result (λ c. (fields_of c).has_globals ≡ false) }
{
    task(
        alloc,
        "show",
        "Writes the run of a plan as a page for a browser, or as a trace",
        help::SHOW,
    )
    .arg(flag(alloc, "trace", "Write a line of JSON for each event").long_help(help::TRACE))?
    .arg(file(alloc, "PLAN"))
}

/// The task that judges a log of calls.
pub(crate) fn judge<'a>(alloc: Global) -> Result<Command<'a>, AllocError>
    ensures shape { IfOk result (λ c. shape_of c ≡ judge) }
    ensures local { IfOk result (λ c. (fields_of c).has_globals ≡ false) }
{
    with_clocks(alloc)?
        .arg(option(
            alloc,
            "until",
            "T",
            value_parser!(u64),
            "Judge calls that began before T",
        )
        .long_help(help::UNTIL))?
        .arg(file(alloc, "LOG"))
}

/// The same without the end of the log that is judged, and without its file.
fn with_clocks<'a>(alloc: Global) -> Result<Command<'a>, AllocError>
    ensures app { IfOk result (λ c. app_of c ≡ with_clocks) }
    ensures local { IfOk result (λ c. (fields_of c).has_globals ≡ false) }
{
    with_capacity(alloc)?
        .arg(
            option(
                alloc,
                "skew",
                "N",
                value_parser!(u64),
                "How wrong a clock may be",
            )
            .long_help(help::SKEW)
            .default_value("0"),
        )?
        .arg(option(
            alloc,
            "from",
            "T",
            value_parser!(u64),
            "Judge calls that ended at T or later",
        )
        .long_help(help::FROM))
}

/// The same with its flags and its capacity alone.
fn with_capacity<'a>(alloc: Global) -> Result<Command<'a>, AllocError>
    ensures app { IfOk result (λ c. app_of c ≡ with_capacity) }
    ensures local { IfOk result (λ c. (fields_of c).has_globals ≡ false) }
{
    let capacity = option(
        alloc,
        "capacity",
        "1..4294967295",
        value_parser!(u32).range(1..),
        "Items that the queue holds at most",
    );
    with_flags(alloc)?
        .arg(flag(alloc, "times", "Judge by times alone, for a coarse clock").long_help(
            help::TIMES,
        ))?
        .arg(capacity.long_help(help::CAPACITY))
}

/// The same with its first two flags alone.
fn with_flags<'a>(alloc: Global) -> Result<Command<'a>, AllocError>
    ensures app { IfOk result (λ c. app_of c ≡ with_flags) }
    ensures local { IfOk result (λ c. (fields_of c).has_globals ≡ false) }
{
    task(
        alloc,
        "judge",
        "Judges a log of any queue's calls: whether they are linearizable",
        help::JUDGE,
    )
    .arg(flag(alloc, "follow", "Judge the log in parts, while it is read").long_help(help::FOLLOW))?
    .arg(flag(alloc, "page", "Write a page that draws the calls").long_help(help::PAGE))
}

/// The task that drives a queue by threads.
fn drive<'a>(alloc: Global) -> Result<Command<'a>, AllocError>
    ensures shape { IfOk result (λ c. shape_of c ≡ drive) }
    ensures local { IfOk result (λ c. (fields_of c).has_globals ≡ false) }
{
    let capacity = option(
        alloc,
        "capacity",
        "1..4096",
        value_parser!(u32).range(1..=4096),
        "Items that may wait in the queue",
    );
    let bound = option(
        alloc,
        "bound",
        "1..1024",
        value_parser!(u32).range(1..=1024),
        "Calls that a combiner serves in a row",
    );
    with_items(alloc)?
        .arg(capacity.default_value("64"))?
        .arg(bound.default_value("8"))
}

/// The same with the options of its threads and items alone.
fn with_items<'a>(alloc: Global) -> Result<Command<'a>, AllocError>
    ensures app { IfOk result (λ c. app_of c ≡ with_items) }
    ensures local { IfOk result (λ c. (fields_of c).has_globals ≡ false) }
{
    let items = option(
        alloc,
        "items",
        "0..1000000",
        value_parser!(u64).range(0..=1_000_000),
        "Items that each sender sends",
    );
    with_threads(alloc)?.arg(items.default_value("1000"))
}

/// The same with the options of its threads alone.
fn with_threads<'a>(alloc: Global) -> Result<Command<'a>, AllocError>
    ensures app { IfOk result (λ c. app_of c ≡ with_threads) }
    ensures local { IfOk result (λ c. (fields_of c).has_globals ≡ false) }
{
    let senders = option(
        alloc,
        "senders",
        "1..63",
        value_parser!(u32).range(1..=63),
        "Threads that send",
    );
    let receivers = option(
        alloc,
        "receivers",
        "1..64",
        value_parser!(u32).range(1..=64),
        "Threads that take",
    );
    task(
        alloc,
        "drive",
        "Drives a queue by threads, and audits what they sent and took",
        help::DRIVE,
    )
    .arg(senders.default_value("4"))?
    .arg(receivers.default_value("4"))
}

/// A task without options, with what it does, and what its long help says besides.
fn task<'a>(alloc: Global, name: &'a str, about: &'a str, details: &'a str) -> Command<'a>
    ensures app { app_of result ≡ new_app name.entry.now }
    ensures local { (fields_of result).has_globals ≡ false }
{
    Command::new(alloc, name)
        .about(about)
        .after_long_help(details)
}

/// The file of a task's input.
fn file<'a>(alloc: Global, name: &'a str) -> Arg<'a>
    ensures rule { rule_of result ≡ file }
    ensures local { result.global ≡ false }
{
    Arg::new(alloc, "file")
        .value_name(name)
        .help("A file; without one, or if it is `-`, standard input")
}

/// An option without a value.
fn flag<'a>(alloc: Global, name: &'a str, text: &'a str) -> Arg<'a>
    ensures rule { rule_of result ≡ flag name.entry.now }
    ensures local { result.global ≡ false }
{
    Arg::new(alloc, name)
        .long(name)
        .action(ArgAction::SetTrue)
        .help(text)
}

/// An option with a number of this range.
fn option<'a>(
    alloc: Global,
    name: &'a str,
    value: &'a str,
    range: ValueParser<'a>,
    text: &'a str,
) -> Arg<'a>
    ensures rule { rule_of result ≡ option name.entry.now range.entry }
    ensures local { result.global ≡ false }
{
    Arg::new(alloc, name)
        .long(name)
        .action(ArgAction::Set)
        .value_name(value)
        .value_parser(range)
        .help(text)
}
