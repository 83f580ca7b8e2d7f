//! The progress of a drive, written on standard error for a person at a terminal.
//!
//! Each worker's gate counts the answers of its calls, and adds them up in blocks. From the second second on, the worker whose
//! block is the first in a second writes the line again. No worker waits for another one to do so. The line ends before the answer
//! begins, which is written once all workers are done.
ghost use Rattle.std.specs.Prelude.{◌≡◌};

use cc_drive::{Gate, Go, Point};
use cc_io::{Device, DeviceFault, Pen, Sink};
use std::sync::atomic::{AtomicU64, Ordering};
use std::time::Instant;

/// How many answers a worker counts before it adds them up.
const BLOCK: u64 = 256;

/// The progress of all workers of a drive.
#[derive(Drop)]
pub struct Meter<'a> {
    rt: &'a HostRuntime,
    started: Instant,
    answers: AtomicU64,
    told: AtomicU64,
}

impl<'a> Meter<'a> {
    /// A meter that starts now, if there is a clock.
    pub fn new(rt: &'a HostRuntime) -> Option<Meter<'a>> {
        Some(Meter {
            rt,
            started: Instant::now(rt).ok()?,
            answers: AtomicU64::new(0),
            told: AtomicU64::new(0),
        })
    }

    /// How many whole seconds have passed.
    fn seconds(&self) -> u64 {
        match self.started.elapsed(self.rt) {
            Ok(passed) => passed.as_secs(),
            Err(_) => 0,
        }
    }

    /// Adds a block of answers, and writes the progress if a second has passed since the last time.
    fn add_block(&self) {
        let answers = self
            .answers
            .fetch_add(BLOCK, Ordering::SeqCst)
            .saturating_add(BLOCK);
        let seconds = self.seconds();
        let told = self.told.load(Ordering::SeqCst);
        if seconds > 1 && seconds > told {
            let is_first = self
                .told
                .compare_exchange(told, seconds, Ordering::SeqCst, Ordering::SeqCst)
                .is_ok();
            if is_first {
                self.tell(answers, seconds, b"  ");
            }
        }
    }

    /// Writes the line of the progress over the last one.
    fn tell(&self, answers: u64, seconds: u64, end: &[u8]) {
        let mut errors = Device::new(self.rt.stderr());
        let mut pen = Pen::new();
        pen.word(&mut errors, b"\rccq: ", seconds);
        pen.word(&mut errors, b" s, ", answers);
        pen.word(&mut errors, b" calls answered, ", answers / seconds.max(1));
        pen.text(&mut errors, b" a second");
        pen.text(&mut errors, end);
        let _outcome = pen.finish(&mut errors);
    }

    /// Writes the last line, if there was one before. No line follows it.
    fn finish(&self) {
        let told = self.told.swap(u64::MAX, Ordering::SeqCst);
        if told > 0 && told < u64::MAX {
            let answers = self.answers.load(Ordering::SeqCst);
            self.tell(answers, self.seconds(), b"  \n");
        }
    }
}

/// A sink whose first bytes end the progress.
#[derive(Drop)]
pub struct Behind<'a, W> {
    sink: W,
    meter: Option<&'a Meter<'a>>,
}

impl<'a, W: Sink> Behind<'a, W> {
    /// A sink that writes to this one, and ends the progress of the meter, if there is one.
    pub fn new(sink: W, meter: Option<&'a Meter<'a>>) -> Behind<'a, W>
        ensures { result.sink ≡ sink }
    {
        Behind { sink, meter }
    }
}

impl<W: Sink> Sink for Behind<'_, W> {
    ghost bytes_written = { λ b. W.bytes_written b.sink };

    ghost write_failures = { λ b. W.write_failures b.sink };

    fn write_some(&mut self, bytes: &[u8]) -> Result<usize, DeviceFault> {
        if let Some(meter) = self.meter {
            meter.finish();
        }
        self.sink.write_some(bytes)
    }

    fn failures(&self) -> u64 {
        self.sink.failures()
    }
}

/// The gate of a worker: holds no worker up, and counts answers for a meter, if there is one.
#[derive(Clone, Copy)]
pub struct Counter<'a> {
    meter: Option<&'a Meter<'a>>,
    answers: u64,
}

impl<'a> Counter<'a> {
    /// A gate that has counted nothing.
    pub fn new(meter: Option<&'a Meter<'a>>) -> Counter<'a> {
        Counter { meter, answers: 0 }
    }
}

impl Gate for Counter<'_> {
    fn at(&mut self, point: Point) -> Go {
        let is_answered = matches!(point, Point::SendAnswered | Point::TakeAnswered);
        if let Some(meter) = self.meter
            && is_answered
        {
            self.answers = self.answers.saturating_add(1);
            if self.answers >= BLOCK {
                self.answers = 0;
                meter.add_block();
            }
        }
        Go::On
    }
}
