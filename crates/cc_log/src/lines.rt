//! The lines of an input, one after another.
ghost use Rattle.std.specs.Prelude.{◌≡◌, ◌<◌, ◌≤◌, ◌+◌, ◌-◌, ◌^◌, ◌++◌, ℕ, List, [], true, false, length, IfOk, IfErr, IfSome, IfNone, OnErr, OnOk};
ghost use Rattle.std.specs.Bool.{OnTrue, OnFalse};
ghost use Rattle.cc_log.specs.Lines.{GivesLine, HasLines, HasNoNewline, IsNewline, IsSound, IsTooLong, Passes, held, line_limit, lines_after, lines_if};
ghost use Rattle.cc_log.specs.Answers.{IsLongLine, failed_reads};
ghost use Rattle.cc_log.specs.Names.{LogFault};

use crate::fault::{LineFault, LogFault};
use cc_io::Source;
use std::alloc::{AllocError, Global};

/// The length in bytes beyond which a line is refused, and how many bytes are read at once.
pub const LINE_LIMIT: usize = 65_536;

/// The place of the first newline.
fn newline_in(bytes: &[u8]) -> Option<usize>
    ensures some { IfSome result (λ place. IsNewline bytes.now place) }
    ensures none { IfNone result (HasNoNewline bytes.now) }
{
    bytes.iter().position(|byte| *byte == b'\n')
}

/// The lines of an input.
#[derive(Drop)]
pub struct Lines {
    /// The bytes that were read last.
    pub chunk: Vec<u8>,
    /// The first of these bytes that isn't given out yet.
    pub start: usize,
    /// The end of the bytes that were read last.
    pub end: usize,
    /// Whether the input has ended.
    pub ended: bool,
}

impl Lines {
    /// The lines of an input, of which nothing is read yet.
    pub fn new(alloc: Global) -> Result<Lines, AllocError>
        ensures chunk { IfOk result (λ lines. 0 < length lines.chunk.items) }
        ensures nothing { IfOk result (λ lines. (lines.start ≡ 0) × (lines.end ≡ 0) × (lines.ended ≡ false)) }
    {
        Ok(Lines {
            chunk: vec![in alloc; 0u8; LINE_LIMIT]?,
            start: 0,
            end: 0,
            ended: false,
        })
    }

    /// Gives out the bytes up to the next newline, which it passes, or all that are held. Returns whether there was a newline.
    fn give_out(&mut self, line: &mut Vec<u8>) -> Result<bool, AllocError>
        requires begins { self.old.start ≤ self.old.end }
        requires ends { self.old.end ≤ length self.old.chunk.items }
        ensures same { (self.new.chunk ≡ self.old.chunk) × (self.new.end ≡ self.old.end) × (self.new.ended ≡ self.old.ended) }
        ensures begins { self.new.start ≤ self.new.end }
        ensures none { IfOk result (λ found. OnFalse found (self.new.start ≡ self.new.end)) }
        ensures lines { IfOk result (λ found. (rest : List ℕ) → lines_after line.old.items (held self.old ++ rest) ≡ lines_if found line.new.items (held self.new ++ rest)) }
    {
        let bytes = &self.chunk[self.start..self.end];
        match newline_in(bytes) {
            Some(place) => {
                line.extend_from_slice(&bytes[..place])?;
                self.start += place + 1;
                Ok(true)
            }
            None => {
                line.extend_from_slice(bytes)?;
                self.start = self.end;
                Ok(false)
            }
        }
    }

    /// Reads on, if nothing is held.
    fn fill<R: Source>(&mut self, source: &mut R) -> Result<(), LogFault>
        requires failures { R.read_failures source.old < 2 ^ 64 - 1 }
        requires sound { IsSound self.old (R.bytes_left source.old) }
        requires empty { self.old.start ≡ self.old.end }
        requires reads { self.old.ended ≡ false }
        ensures failures { OnOk result (R.read_failures source.new ≡ R.read_failures source.old) }
        ensures sound { OnOk result (IsSound self.new (R.bytes_left source.new)) }
        ensures passes { OnOk result ((begun : List ℕ) → Passes self.old self.new (R.bytes_left source.old) (R.bytes_left source.new) begun begun) }
        ensures fault { IfErr result (λ fault. fault ≡ LogFault.Read) }
        ensures failed { OnErr result (R.read_failures source.new ≡ R.read_failures source.old + 1) }
    {
        match source.read_some(&mut self.chunk) {
            Ok(n) => {
                self.start = 0;
                self.end = n;
                self.ended = n == 0;
                Ok(())
            }
            Err(_) => Err(LogFault::Read),
        }
    }

    /// Reads the next line, which has this number, without its newline; the last line may have none. Returns whether there is one.
    pub fn next<R: Source>(
        &mut self,
        source: &mut R,
        number: usize,
        line: &mut Vec<u8>,
    ) -> Result<bool, LogFault>
        requires failures { R.read_failures source.old < 2 ^ 64 - 1 }
        requires sound { IsSound self.old (R.bytes_left source.old) }
        ensures failures { OnOk result (R.read_failures source.new ≡ R.read_failures source.old) }
        ensures sound { OnOk result (IsSound self.new (R.bytes_left source.new)) }
        ensures line { IfOk result (λ more. OnTrue more (GivesLine self.old self.new (R.bytes_left source.old) (R.bytes_left source.new) line.new.items)) }
        ensures short { IfOk result (λ more. length line.new.items ≤ line_limit) }
        ensures none { IfOk result (λ more. OnFalse more (HasLines self.old (R.bytes_left source.old) [] [])) }
        ensures fault { IfErr result (IsLongLine number (IsTooLong self.old (R.bytes_left source.old))) }
        ensures counted { R.read_failures source.new ≡ R.read_failures source.old + failed_reads result }
    {
        line.clear();
        for _ in 0..u64::MAX {
            let found = self.give_out(line)?;
            if line.len() > LINE_LIMIT {
                return Err(LogFault::Line {
                    line: number,
                    fault: LineFault::TooLong,
                });
            }
            if found {
                return Ok(true);
            }
            if self.ended && line.is_empty() {
                return Ok(false);
            }
            if self.ended {
                return Ok(true);
            }
            self.fill(source)?;
        }
        // Each turn reads at least a byte, so no line has as many.
        Err(LogFault::Memory)
    }
}
