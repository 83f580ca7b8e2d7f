//! How a worker leaves the processors to others while it has no call.

use crossbeam_utils::Backoff;
use std::sync::Wait;
use std::thread::Parker;
use std::time::Duration;

/// In this number of turns a call's wait spins and yields once. If more were needed, more calls wait than processors
/// serve.
const SPUN: u64 = 8;

/// The first sleep of a row, and the longest, in microseconds.
const SHORT: u64 = 50;

const LONG: u64 = 1000;

/// How a worker waits between two calls.
#[derive(Drop)]
pub struct Pace {
    tries: Backoff,
    /// How long it slept after its last call, in microseconds.
    slept: u64,
}

impl Pace {
    pub fn new() -> Pace {
        Pace {
            tries: Backoff::new(),
            slept: 0,
        }
    }

    /// After an answer that there was nothing to take, or no room.
    pub fn rest(&self) {
        for _ in 0..3u32 {
            self.tries.snooze();
        }
    }

    /// Called after an answer that passed an item, to a call that took this number of turns. A call that waited for long
    /// was in a line of calls whose threads don't all run, and each hand-over waits for the next of them; so the worker
    /// sleeps before it joins that line again, and for twice as long each time that it finds it so.
    pub fn go_on<R: Wait>(&mut self, rt: &R, turns: u64) {
        self.tries.reset();
        if turns > SPUN {
            self.slept = (2 * self.slept.min(LONG)).clamp(SHORT, LONG);
            Parker::new().park_timeout(rt, Duration::from_micros(self.slept));
        } else {
            self.slept = 0;
        }
    }
}
