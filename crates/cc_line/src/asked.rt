//! What the words of a command line ask for.
ghost use Rattle.std.specs.Prelude.{◌≡◌, IfOk, map, option_map, string_bytes};
ghost use Rattle.clap.specs.Words.{first_of, found_of, kind_of, rows_of, subcommand_rows_of};
ghost use Rattle.cc_line.specs.Number.{number_of};
ghost use Rattle.cc_line.specs.Line.{Asks, IsInRange, clash, drive_of, file_of, form_of, is_set, judge_of, line_of, line_view, options_of, refusal_kind, task_of};

use crate::program::{judge, program};
use cc_cli::task::Task;
use cc_drive::DriveConfig;
use cc_log::{Options, Window};
use cc_show::Form;
use clap::error::ErrorKind;
use clap::{ArgMatches, Error};
use std::alloc::{AllocError, Global};

/// How many turns each worker of the program may make: more than any run comes to.
const LIMIT: u64 = 1 << 48;

/// What a line asks for: a task, and the file of its input; none if that is standard input.
#[derive(Clone, Copy)]
pub struct Line<'a> {
    /// The task.
    pub task: Task,
    /// The name of the file.
    pub file: Option<&'a str>,
}

/// Why a line is refused that clap takes.
#[derive(Clone, Copy)]
pub enum Refusal {
    /// It names no task; clap takes no such line.
    NoTask,
    /// `--until` and a `--skew` above 0 are given.
    UntilBesideSkew,
    /// The time of `--until` comes before that of `--from`.
    UntilBeforeFrom,
}

/// What the words of a line, without the program's name, ask for; or clap's error. A line that asks for help has one too.
pub fn asked<'a>(alloc: Global, words: &'a [String]) -> Result<Line<'a>, Error>
    ensures asked { Asks (map string_bytes words.now) result }
    ensures ranges { IfOk result (λ line. IsInRange line.task) }
{
    let matches = program(alloc)?.try_get_matches_from(words)?;
    match line_in(&matches) {
        Ok(line) => Ok(line),
        Err(refusal) => Err(error_of(alloc, refusal)?),
    }
}

/// The error of a line that is refused.
fn error_of(alloc: Global, refusal: Refusal) -> Result<Error, AllocError>
    ensures { IfOk result (λ e. kind_of e ≡ refusal_kind refusal) }
{
    match refusal {
        Refusal::NoTask => program(alloc)?.error(ErrorKind::MissingSubcommand, "no task is given"),
        Refusal::UntilBesideSkew => judge_error(
            alloc,
            "--until and --skew can't be given together",
        ),
        Refusal::UntilBeforeFrom => judge_error(alloc, "--until comes before --from"),
    }
}

/// An error of the options of `judge`.
fn judge_error(alloc: Global, text: &str) -> Result<Error, AllocError>
    ensures { IfOk result (λ e. kind_of e ≡ ErrorKind.ArgumentConflict) }
{
    judge(alloc)?
        .bin_name("ccq judge")?
        .error(ErrorKind::ArgumentConflict, text)
}

/// The line that clap found in the words.
fn line_in<'a>(matches: &ArgMatches<'a>) -> Result<Line<'a>, Refusal>
    ensures { line_view result ≡ line_of (subcommand_rows_of matches.now) }
{
    let Some((name, found)) = matches.subcommand() else {
        return Err(Refusal::NoTask);
    };
    let task = task_in(name, found)?;
    Ok(Line {
        task,
        file: file_in(found),
    })
}

/// The task of this name, with its options.
fn task_in(name: &str, found: &ArgMatches) -> Result<Task, Refusal>
    ensures { result ≡ task_of name.now (rows_of (found_of found.now)) }
{
    match name {
        "play" => Ok(Task::Play),
        "audit" => Ok(Task::Audit),
        "judge" => judge_in(found),
        "show" => Ok(Task::Show(form_in(found))),
        "drive" => Ok(Task::Drive(drive_in(found))),
        _ => Err(Refusal::NoTask),
    }
}

/// The judging of a log, unless its options clash.
fn judge_in(found: &ArgMatches) -> Result<Task, Refusal>
    ensures { result ≡ judge_of (rows_of (found_of found.now)) }
{
    let options = options_in(found);
    match clash(&options) {
        Some(refusal) => Err(refusal),
        None => Ok(Task::Judge(options)),
    }
}

/// Why these options can't be given together, if they can't.
fn clash(options: &Options) -> Option<Refusal>
    ensures { result ≡ clash options.now }
{
    let until = options.window.until?;
    if options.skew > 0 {
        return Some(Refusal::UntilBesideSkew);
    }
    match options.window.from {
        Some(from) if until < from => Some(Refusal::UntilBeforeFrom),
        _ => None,
    }
}

/// The options by which a log is judged.
fn options_in(found: &ArgMatches) -> Options
    ensures { result ≡ options_of (rows_of (found_of found.now)) }
{
    Options {
        capacity: small(found, "capacity"),
        skew: large(found, "skew").unwrap_or(0),
        times: is_set(found, "times"),
        page: is_set(found, "page"),
        follow: is_set(found, "follow"),
        window: Window {
            from: large(found, "from"),
            until: large(found, "until"),
        },
    }
}

/// The form in which a run is shown.
fn form_in(found: &ArgMatches) -> Form
    ensures { result ≡ form_of (rows_of (found_of found.now)) }
{
    if is_set(found, "trace") {
        Form::Trace
    } else {
        Form::Page
    }
}

/// The run by threads. Each of its options has a default; a drive refuses one that were 0.
fn drive_in(found: &ArgMatches) -> DriveConfig
    ensures { result ≡ drive_of (rows_of (found_of found.now)) }
{
    DriveConfig {
        senders: small(found, "senders").unwrap_or(0),
        receivers: small(found, "receivers").unwrap_or(0),
        items: large(found, "items").unwrap_or(0),
        capacity: small(found, "capacity").unwrap_or(0),
        bound: small(found, "bound").unwrap_or(0),
        limit: LIMIT,
    }
}

/// The file of the input; none for standard input, which `-` names too.
fn file_in<'a>(found: &ArgMatches<'a>) -> Option<&'a str>
    ensures { option_map (λ name. name.now) result ≡ file_of (rows_of (found_of found.now)) }
{
    match text_of(found, "file") {
        Some(name) if name != "-" => Some(name),
        _ => None,
    }
}

/// Whether an option without a value is given.
fn is_set(found: &ArgMatches, option: &str) -> bool
    ensures { result ≡ is_set option.now (rows_of (found_of found.now)) }
{
    match text_of(found, option) {
        Some(text) => text == "true",
        None => false,
    }
}

/// The value of an option or of the file.
fn text_of<'a>(found: &ArgMatches<'a>, option: &str) -> Option<&'a str>
    ensures { option_map (λ text. text.now) result ≡ first_of option.now (rows_of (found_of found.now)) }
{
    found.get_str(option)
}

/// The number of 32 bits that an option has.
fn small(found: &ArgMatches, option: &str) -> Option<u32>
    ensures { result ≡ number_of 32 option.now (rows_of (found_of found.now)) }
{
    found.get_one(option)
}

/// The number of 64 bits that an option has.
fn large(found: &ArgMatches, option: &str) -> Option<u64>
    ensures { result ≡ number_of 64 option.now (rows_of (found_of found.now)) }
{
    found.get_one(option)
}
