//! Runs of the two tasks on devices that give or take little, or fail.
ghost use Rattle.std.specs.Prelude.{◌≡◌};

use cc_audit::Verdict;
use cc_io::{DeviceFault, Sink, Source};
use cc_play::play::play;
use cc_play::{PlayFault, audit_bytes};
use std::alloc::Global;

/// A source that gives some bytes, at most this number a call, and then fails at each read.
#[derive(Drop)]
struct CutReader<'a> {
    rest: &'a [u8],
    gives: usize,
    at_most: usize,
    calls: u64,
    failures: u64,
}

impl Source for CutReader<'_> {
    ghost use Rattle.std.specs.Prelude.{Some};

    ghost bytes_left = { λ s. Some s.rest.now };

    ghost read_failures = { λ s. s.failures };

    fn read_some(&mut self, buffer: &mut [u8]) -> Result<usize, DeviceFault> {
        self.calls = self.calls.saturating_add(1);
        if self.gives == 0 {
            self.failures += 1;
            return Err(DeviceFault);
        }
        let most = self.gives.min(self.at_most.max(1));
        let n = most.min(self.rest.len()).min(buffer.len());
        let (now, later) = self.rest.split_at(n);
        buffer[..n].copy_from_slice(now);
        self.rest = later;
        self.gives -= n;
        Ok(n)
    }

    fn failures(&self) -> u64 {
        self.failures
    }
}

/// How a sink refuses: by an error, or by taking nothing.
#[derive(Clone, Copy, PartialEq, Eq)]
pub enum Refusal {
    Error,
    Nothing,
}

/// A sink that takes some bytes, at most this number a call, and then refuses each write.
#[derive(Drop)]
pub struct CutWriter {
    pub taken: Vec<u8>,
    takes: usize,
    at_most: usize,
    refusal: Refusal,
    /// How much had been taken after each call that took some.
    pub ends: Vec<usize>,
    pub calls: u64,
    pub failures: u64,
}

impl CutWriter {
    pub fn new(alloc: Global, takes: usize, at_most: usize, refusal: Refusal) -> CutWriter
        ensures { result.failures ≡ 0 }
    {
        CutWriter {
            taken: Vec::new(alloc),
            takes,
            at_most,
            refusal,
            ends: Vec::new(alloc),
            calls: 0,
            failures: 0,
        }
    }

    /// Whether exactly the prefix of this length of a text was taken.
    pub fn has_front(&self, text: &str, length: usize) -> bool {
        self.taken.len() == length && text.as_bytes().starts_with(self.taken.as_slice())
    }

    /// Whether just one call failed, and every other one took some bytes.
    pub fn has_failed_once(&self) -> bool {
        self.failures == 1 && self.calls == self.ends.len() as u64 + 1
    }
}

impl Sink for CutWriter {
    ghost use Rattle.std.specs.Prelude.{Some};

    ghost bytes_written = { λ s. Some s.taken.items };

    ghost write_failures = { λ s. s.failures };

    fn write_some(&mut self, bytes: &[u8]) -> Result<usize, DeviceFault> {
        self.calls = self.calls.saturating_add(1);
        let n = self.takes.min(self.at_most).min(bytes.len());
        if n == 0 {
            if self.refusal == Refusal::Nothing || bytes.is_empty() {
                if !bytes.is_empty() {
                    self.failures += 1;
                }
                return Ok(0);
            }
            self.failures += 1;
            return Err(DeviceFault);
        }
        if self.taken.extend_from_slice(&bytes[..n]).is_err() {
            self.failures += 1;
            return Err(DeviceFault);
        }
        self.takes -= n;
        if self.ends.push(self.taken.len()).is_err() {
            self.ends.clear();
        }
        Ok(n)
    }

    fn failures(&self) -> u64 {
        self.failures
    }
}

/// The task of an input.
#[derive(Clone, Copy)]
pub enum Task {
    Play,
    Audit,
}

/// How many bytes the source gives before it fails, and at most how many a read.
#[derive(Clone, Copy)]
pub struct Reads {
    pub gives: usize,
    pub at_most: usize,
}

/// All, by as many as are asked for.
pub const READS_ALL: Reads = Reads {
    gives: usize::MAX,
    at_most: usize::MAX,
};

/// How many bytes the sink takes before it refuses, at most how many a write, and how it refuses.
#[derive(Clone, Copy)]
pub struct Writes {
    pub takes: usize,
    pub at_most: usize,
    pub refusal: Refusal,
}

/// All, by as many as are given.
pub const WRITES_ALL: Writes = Writes {
    takes: usize::MAX,
    at_most: usize::MAX,
    refusal: Refusal::Error,
};

/// The outcome of an input, how often it was read and how often that failed, and the sink.
#[derive(Drop)]
pub struct Run {
    pub outcome: Result<Verdict, PlayFault>,
    pub reads: u64,
    pub failed_reads: u64,
    pub sink: CutWriter,
}

impl Run {
    /// Whether the sink took this text, and nothing else.
    pub fn has_text(&self, text: &str) -> bool {
        self.sink.taken.as_slice() == text.as_bytes()
    }

    /// Whether no read and no write failed.
    pub fn has_no_failure(&self) -> bool {
        self.failed_reads == 0 && self.sink.failures == 0
    }
}

/// The outcome of an input by these devices.
pub fn run_by(alloc: Global, task: Task, input: &[u8], reads: Reads, writes: Writes) -> Run {
    let mut source = CutReader {
        rest: input,
        gives: reads.gives,
        at_most: reads.at_most,
        calls: 0,
        failures: 0,
    };
    let mut sink = CutWriter::new(alloc, writes.takes, writes.at_most, writes.refusal);
    let outcome = match task {
        Task::Play => play(alloc, &mut source, &mut sink),
        Task::Audit => audit_bytes(alloc, &mut source, &mut sink),
    };
    Run {
        outcome,
        reads: source.calls,
        failed_reads: source.failures,
        sink,
    }
}
