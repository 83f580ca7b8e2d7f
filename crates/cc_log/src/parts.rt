//! Following a log: it is judged in parts while it is read, until a part isn't clean.
ghost use Rattle.std.specs.Prelude.{ℕ, ◌≡◌, ◌<◌, ◌+◌, ◌-◌, ◌^◌, [], List, Option, true, false, IfOk, OnOk};
ghost use Rattle.cc_judge.specs.Verdict.{IsDecided, IsVerdict};
ghost use Rattle.cc_log.specs.Answers.{Gives, failed_reads};
ghost use Rattle.cc_log.specs.Follow.{Begins, Follows, Grows, HasRules, IsOnWay, Reads, Spells, numbered, part_of};
ghost use Rattle.cc_log.specs.Lines.{IsSound};
ghost use Rattle.cc_log.specs.State.{log_view};
ghost use Rattle.cc_log.specs.Written.{IsWellFormed};
ghost use Rattle.cc_log.specs.Names.{Options, Verdict};

use crate::fault::LogFault;
use crate::late::{is_marked, taken_items};
use crate::lines::Lines;
use crate::parse::{Log, Options, at_first, finish};
use crate::state::{State, add_line};
use cc_io::Source;
use cc_judge::{Act, Verdict, judge};
use std::alloc::{AllocError, Global};

/// How many lines a part has, unless the log ends.
const PART: usize = 16_384;

/// How many of the last calls of a part the next part begins with.
const OVERLAP: usize = 4_096;

/// A line of a log.
#[derive(Drop)]
pub struct Text {
    /// Its number, from 1.
    pub number: usize,
    /// Its bytes, without the newline.
    pub bytes: Vec<u8>,
}

/// Some lines of a log, and the log that they spell.
#[derive(Drop)]
pub struct Part {
    /// The log.
    pub state: State,
    /// The lines.
    pub lines: Vec<Text>,
    /// How many of them were in the part before.
    pub kept: usize,
}

/// A log that was followed to its end, or to a part that isn't clean.
#[derive(Drop)]
pub struct Followed {
    /// The last part.
    pub log: Log,
    /// The verdict on it. The parts before it are clean.
    pub verdict: Verdict,
    /// How many parts there are.
    pub parts: usize,
    /// How many lines were read.
    pub lines: usize,
}

/// A part without lines.
fn empty(alloc: Global, options: Options) -> Part
    ensures spells { Spells options result }
    ensures none { result.lines.items ≡ [] }
{
    Part {
        state: at_first(alloc, options),
        lines: Vec::new(alloc),
        kept: 0,
    }
}

/// Adds a line to a part.
fn add_text(alloc: Global, part: &mut Part, text: Text) -> Result<(), LogFault>
    ensures { (options : Options) → Spells options part.old → Grows options part.old part.new (text.number, text.bytes.items) result }
{
    add_line(alloc, &mut part.state, &text.bytes, text.number)?;
    part.lines.push(text)?;
    Ok(())
}

/// Whether a part is long enough to be judged. It is at least twice as long as what it has of the part before, so that the parts
/// together are at most twice as long as the log.
fn is_full(part: &Part) -> bool {
    part.lines.len() >= PART && part.lines.len() / 2 >= part.kept
}

/// The verdict on a part, whose log it finishes.
fn judged(alloc: Global, part: &mut Part) -> Result<Verdict, LogFault>
    ensures due { (options : Options) → Spells options part.old → Gives (λ verdict. log_view part.new.state.log) result (part_of options (numbered part.old.lines.items)) }
    ensures rules { (options : Options) → Spells options part.old → OnOk result (HasRules options (log_view part.new.state.log) part.new.state.log.rules) }
    ensures well { (options : Options) → Spells options part.old → OnOk result (IsWellFormed options.skew part.new.state.log.calls.items part.new.state.log.items part.new.state.log.rules.ties.items) }
    ensures right { IfOk result (IsVerdict part.new.state.log.rules part.new.state.log.calls.items) }
    ensures decided { IfOk result (IsDecided part.new.state.log.rules part.new.state.log.calls.items part.new.state.log.items) }
    ensures lines { part.new.lines ≡ part.old.lines }
{
    part.state.late = true;
    finish(alloc, &mut part.state)?;
    let log = &part.state.log;
    Ok(judge(alloc, &log.rules, log.calls.as_slice(), log.items)?)
}

/// The numbers of those lines of a part with which the next part begins: of its last calls, of the sends whose item no call took, and
/// of the first close that returned.
fn kept_lines(alloc: Global, log: &Log) -> Result<Vec<u32>, AllocError> {
    let taken = taken_items(alloc, log.calls.as_slice(), log.items)?;
    let mut kept = Vec::new(alloc);
    let mut closes = false;
    for (place, line) in log.notes.lines.iter().enumerate() {
        let Some(call) = log.calls.get(place) else {
            break;
        };
        let counts = match call.act {
            Act::Send(item) => !is_marked(&taken, item as usize),
            Act::Close if call.end.is_some() && !closes => {
                closes = true;
                true
            }
            _ => false,
        };
        if counts || place.saturating_add(OVERLAP) >= log.notes.lines.len() {
            kept.push(*line)?;
        }
    }
    Ok(kept)
}

/// The part that begins with those lines of another part that have these numbers, which are sorted.
fn next_part(
    alloc: Global,
    options: Options,
    lines: &[Text],
    kept: &[u32],
) -> Result<Part, LogFault>
    ensures { Begins options (numbered lines.now) result }
{
    let mut next = empty(alloc, options);
    for line in lines {
        if is_kept(kept, line.number) {
            let bytes = Vec::from_slice(alloc, &line.bytes)?;
            let number = line.number;
            add_text(alloc, &mut next, Text { number, bytes })?;
        }
    }
    next.kept = next.lines.len();
    Ok(next)
}

/// Whether a number is one of these, which are sorted.
fn is_kept(kept: &[u32], number: usize) -> bool {
    let place = kept.partition_point(|line| (*line as usize) < number);
    match kept.get(place) {
        Some(line) => *line as usize == number,
        None => false,
    }
}

/// The part after another one.
fn rest_of(alloc: Global, options: Options, part: Part) -> Result<Part, LogFault>
    ensures { Begins options (numbered part.lines.items) result }
{
    let Part {
        state,
        lines,
        kept: _,
    } = part;
    let kept = kept_lines(alloc, &state.log)?;
    drop(state);
    next_part(alloc, options, lines.as_slice(), kept.as_slice())
}

/// Reads a line, and adds it to a part. Returns whether there is one.
fn read_line<R: Source>(
    alloc: Global,
    source: &mut R,
    lines: &mut Lines,
    part: &mut Part,
    number: usize,
) -> Result<bool, LogFault>
    requires failures { R.read_failures source.old < 2 ^ 64 - 1 }
    requires sound { IsSound lines.old (R.bytes_left source.old) }
    ensures reads { (options : Options) (first : Option (List ℕ)) → IsOnWay options first (R.bytes_left source.old) lines.old part.old number → Reads options first (R.bytes_left source.new) lines.new part.new (number + 1) result }
    ensures sound { OnOk result (IsSound lines.new (R.bytes_left source.new)) }
    ensures failures { (options : Options) (first : Option (List ℕ)) → IsOnWay options first (R.bytes_left source.old) lines.old part.old number → R.read_failures source.new ≡ R.read_failures source.old + failed_reads result }
{
    let mut bytes = Vec::new(alloc);
    let more = lines.next(source, number, &mut bytes)?;
    if more {
        add_text(alloc, part, Text { number, bytes })?;
    }
    Ok(more)
}

/// Whether a verdict is that a log is clean.
fn is_clean(verdict: &Verdict) -> bool
    ensures clean { result ≡ true → verdict.now ≡ Verdict.Clean }
    ensures others { result ≡ false → verdict.now ≡ Verdict.Clean → ⊥ }
{
    matches!(verdict, Verdict::Clean)
}

/// Follows the log of a source: judges it in parts until a part isn't clean, or until its end.
pub fn follow<R: Source>(
    alloc: Global,
    source: &mut R,
    options: Options,
) -> Result<Followed, LogFault>
    requires { R.read_failures source.old < 2 ^ 64 - 1 }
    ensures due { Follows options (R.bytes_left source.old) result }
    ensures rules { IfOk result (λ f. HasRules options (log_view f.log) f.log.rules) }
    ensures well { IfOk result (λ f. IsWellFormed options.skew f.log.calls.items f.log.items f.log.rules.ties.items) }
    ensures right { IfOk result (λ f. IsVerdict f.log.rules f.log.calls.items f.verdict) }
    ensures decided { IfOk result (λ f. IsDecided f.log.rules f.log.calls.items f.log.items f.verdict) }
    ensures failures { R.read_failures source.new ≡ R.read_failures source.old + failed_reads result }
{
    let mut lines = Lines::new(alloc)?;
    let mut part = empty(alloc, options);
    let mut parts: usize = 0;
    for number in 1..usize::MAX {
        let more = read_line(alloc, source, &mut lines, &mut part, number)?;
        if more && !is_full(&part) {
            continue;
        }
        let verdict = judged(alloc, &mut part)?;
        parts = parts.saturating_add(1);
        if !more || !is_clean(&verdict) {
            return Ok(Followed {
                log: part.state.log,
                verdict,
                parts,
                lines: number - 1,
            });
        }
        part = rest_of(alloc, options, part)?;
    }
    // A log of that many lines is too large for the memory.
    Err(LogFault::Memory)
}
