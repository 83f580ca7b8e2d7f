//! The log that the lines of an input spell.
ghost use Rattle.std.specs.Prelude.{◌≡◌, ◌<◌, ◌+◌, ◌-◌, ◌^◌, ◌||◌, [], false, None, IfOk, OnOk, is_some, slice_get};
ghost use Rattle.cc_judge.specs.Late.{judged_capacity};
ghost use Rattle.cc_log.specs.Answers.{Gives, GivesOfInput, failed_reads};
ghost use Rattle.cc_log.specs.Log.{Known, at_first, if_some, is_early, judged_ties, log_of};
ghost use Rattle.cc_log.specs.Options.{no_options};
ghost use Rattle.cc_log.specs.State.{Shows, log_view};
ghost use Rattle.cc_log.specs.Written.{IsWellFormed};

use crate::fault::LogFault;
use crate::items::Items;
use crate::late::pad;
use crate::line::{Body, Ending, Line, Said};
use crate::lines::Lines;
use crate::state::{State, add_line};
use crate::threads::Last;
use crate::window::Window;
use cc_io::Source;
use cc_judge::{Act, Call, Rules, Tie};
use indexmap::IndexMap;
use std::alloc::Global;
use std::mem;

/// The options by which a log is judged.
#[derive(Clone, Copy)]
pub struct Options {
    /// How many items the queue holds, if that is known.
    pub capacity: Option<u32>,
    /// By how much each call may have begun earlier and ended later than its line says.
    pub skew: u64,
    /// Whether times alone order calls, and not the lines of a thread.
    pub times: bool,
    /// Whether the answer is a page.
    pub page: bool,
    /// Whether the log is judged in parts, while it is read.
    pub follow: bool,
    /// The part of the log that is judged.
    pub window: Window,
}

impl Options {
    /// Nothing is said.
    pub fn none() -> Options
        ensures { result ≡ no_options }
    {
        Options {
            capacity: None,
            skew: 0,
            times: false,
            page: false,
            follow: false,
            window: Window {
                from: None,
                until: None,
            },
        }
    }
}

/// A line as the text of a verdict and its page show it.
#[derive(Clone, Copy)]
pub struct Shown {
    /// Its times, and the act of its call.
    pub line: Line,
    /// The place of its thread's name.
    pub thread: u32,
}

/// What the lines say beside the calls, for the text of the verdict and its page.
#[derive(Drop)]
pub struct Notes {
    /// The numbers of the lines of those calls that have one, from 1, in the order of the calls.
    pub lines: Vec<u32>,
    /// The places of the names of their threads.
    pub threads: Vec<u32>,
    /// Their begins and ends, if a skew makes those of the calls differ.
    pub times: Vec<(u64, Option<u64>)>,
    /// The number of sends with the answer Full.
    pub full: usize,
    /// The number of sends with the answer Closed.
    pub closed: usize,
    /// The bodies of the items that were refused, each after the place of its send.
    pub refused: Vec<(u32, Body)>,
    /// The bodies of the other items, once the log is finished.
    pub items: Items,
}

/// A log.
#[derive(Drop)]
pub struct Log {
    /// The calls: those of the lines, in order, and after them those that a part may lack.
    pub calls: Vec<Call>,
    /// Whether the log is a part, which may lack calls: it begins late, ends early, or is judged from a time on.
    pub part: bool,
    /// How the log says that it ends, if it does.
    pub ends: Option<Ending>,
    /// The rest that is known of the log. The capacity is that of the options, or none if the log is a part.
    pub rules: Rules,
    /// How many items there are: those of the calls are below.
    pub items: usize,
    /// The options by which it is judged.
    pub options: Options,
    /// Counts and lines for the text of the verdict.
    pub notes: Notes,
    /// The names of the threads, each with the last call of its thread.
    pub threads: IndexMap<String, Last>,
}

impl Log {
    /// A log without calls.
    fn empty(alloc: Global, options: Options) -> Log
        ensures options { (result.options ≡ options) × (result.rules.capacity ≡ options.capacity) }
        ensures calls { (result.calls.items ≡ []) × (result.rules.ties.items ≡ []) × (result.rules.closes ≡ false) × (result.notes.lines.items ≡ []) }
        ensures threads { result.threads.entries ≡ [] }
        ensures ends { result.ends ≡ None }
    {
        Log {
            calls: Vec::new(alloc),
            part: false,
            ends: None,
            rules: Rules {
                capacity: options.capacity,
                closes: false,
                ties: Vec::new(alloc),
            },
            items: 0,
            options,
            notes: Notes {
                lines: Vec::new(alloc),
                threads: Vec::new(alloc),
                times: Vec::new(alloc),
                full: 0,
                closed: 0,
                refused: Vec::new(alloc),
                items: IndexMap::new(alloc),
            },
            threads: IndexMap::new(alloc),
        }
    }

    /// The number of the line of the call at a place, from 1, if the log has a line of that call.
    pub fn line_of(&self, place: usize) -> Option<usize>
        ensures { result ≡ slice_get self.now.notes.lines.items place }
    {
        match self.notes.lines.get(place) {
            Some(line) => Some(*line as usize),
            None => None,
        }
    }

    /// The body of the item that the call at a place sent, offered or took.
    pub fn body_at(&self, place: usize) -> Option<Body> {
        match self.calls.get(place)?.act {
            Act::Send(item) | Act::Took(item) => {
                let (body, _) = self.notes.items.get_index(item as usize)?;
                Some(*body)
            }
            Act::Full | Act::Closed => {
                let refused = &self.notes.refused;
                let before = refused.partition_point(|(at, _)| (*at as usize) < place);
                match refused.get(before) {
                    Some((at, body)) if *at as usize == place => Some(*body),
                    _ => None,
                }
            }
            Act::FoundNone | Act::Taking | Act::Ended | Act::Close => None,
        }
    }

    /// What the line of the call at a place says of the call.
    fn said_at(&self, place: usize) -> Option<Said> {
        Some(match self.calls.get(place)?.act {
            Act::Send(_) => Said::Send(self.body_at(place)?),
            Act::Took(_) => Said::Took(self.body_at(place)?),
            Act::FoundNone => Said::FoundNone,
            Act::Taking => Said::Taking,
            Act::Full => Said::Full(self.body_at(place)?),
            Act::Closed => Said::Closed(self.body_at(place)?),
            Act::Ended => Said::Ended,
            Act::Close => Said::Close,
        })
    }

    /// The line of the call at a place, if the log has one.
    pub fn shown(&self, place: usize) -> Option<Shown> {
        let thread = self.notes.threads.get(place).copied()?;
        let call = self.calls.get(place).copied()?;
        let (begin, end) = match self.notes.times.get(place) {
            Some(times) => *times,
            None => (call.begin, call.end),
        };
        let said = self.said_at(place)?;
        let line = Line { begin, end, said };
        Some(Shown { line, thread })
    }
}

/// The log of no lines.
pub fn at_first(alloc: Global, options: Options) -> State
    ensures { Shows options result (at_first options.window) }
{
    State {
        log: Log::empty(alloc, options),
        items: IndexMap::new(alloc),
        late: false,
    }
}

/// The capacity by which a log is judged: none if the log is a part, since it may lack items that are in the queue.
fn judged_capacity(part: bool, capacity: Option<u32>) -> Option<u32>
    ensures { result ≡ judged_capacity part capacity }
{
    if part { None } else { capacity }
}

/// Whether a log may lack calls: it begins late, is judged from a time on, or ends early.
fn is_part(late: bool, from: Option<u64>, ends: Option<Ending>) -> bool
    ensures { result ≡ ((late || is_some from) || is_early ends) }
{
    late || from.is_some()
        || match ends {
            Some(Ending::Early) => true,
            Some(Ending::Whole) | None => false,
        }
}

/// Leaves the ties by which a log is judged: none by times alone.
fn judge_ties(times: bool, ties: &mut Vec<Tie>)
    ensures { ties.new.items ≡ judged_ties times ties.old.items }
{
    if times {
        ties.clear();
    }
}

/// Finishes the log of all lines.
pub fn finish(alloc: Global, state: &mut State) -> Result<(), LogFault>
    ensures due { (options : Options) (known : Known) → Shows options state.old known → Gives (λ done. log_view state.new.log) result (if_some options known) }
    ensures well { (options : Options) (known : Known) → Shows options state.old known → OnOk result (IsWellFormed options.skew state.new.log.calls.items state.new.log.items state.new.log.rules.ties.items) }
    ensures capacity { OnOk result (state.new.log.rules.capacity ≡ judged_capacity state.new.log.part state.old.log.rules.capacity) }
{
    if state.log.calls.is_empty() {
        return Err(LogFault::Empty);
    }
    let part = is_part(state.late, state.log.options.window.from, state.log.ends);
    let items = state.items.len();
    state.log.items = items;
    state.log.notes.items = mem::replace(&mut state.items, IndexMap::new(alloc));
    state.log.part = part;
    state.log.rules.capacity = judged_capacity(part, state.log.rules.capacity);
    judge_ties(state.log.options.times, &mut state.log.rules.ties);
    pad(
        alloc,
        part,
        state.log.rules.closes,
        &mut state.log.calls,
        items,
    )
}

/// Adds the lines of an input to the log of no lines, and finishes it.
fn add_lines<R: Source>(alloc: Global, source: &mut R, state: &mut State) -> Result<(), LogFault>
    requires failures { R.read_failures source.old < 2 ^ 64 - 1 }
    requires first { Shows state.old.log.options state.old (at_first state.old.log.options.window) }
    ensures due { GivesOfInput (λ done. log_view state.new.log) (R.bytes_left source.old) result (log_of state.old.log.options) }
    ensures well { OnOk result (IsWellFormed state.old.log.options.skew state.new.log.calls.items state.new.log.items state.new.log.rules.ties.items) }
    ensures capacity { OnOk result (state.new.log.rules.capacity ≡ judged_capacity state.new.log.part state.old.log.options.capacity) }
    ensures failures { R.read_failures source.new ≡ R.read_failures source.old + failed_reads result }
{
    let mut lines = Lines::new(alloc)?;
    let mut line = Vec::new(alloc);
    for number in 1..usize::MAX {
        if !lines.next(source, number, &mut line)? {
            return finish(alloc, state);
        }
        add_line(alloc, state, &line, number)?;
    }
    // A log of that many lines is too large for the memory.
    Err(LogFault::Memory)
}

/// The log that the lines of an input spell; blank lines are passed over. Or why they spell none: the first line with
/// a fault, and its first fault.
pub fn read_log<R: Source>(alloc: Global, source: &mut R, options: Options) -> Result<Log, LogFault>
    requires { R.read_failures source.old < 2 ^ 64 - 1 }
    ensures due { GivesOfInput log_view (R.bytes_left source.old) result (log_of options) }
    ensures well { IfOk result (λ log. IsWellFormed options.skew log.calls.items log.items log.rules.ties.items) }
    ensures capacity { IfOk result (λ log. log.rules.capacity ≡ judged_capacity log.part options.capacity) }
    ensures failures { R.read_failures source.new ≡ R.read_failures source.old + failed_reads result }
{
    let mut state = at_first(alloc, options);
    add_lines(alloc, source, &mut state)?;
    Ok(state.log)
}
