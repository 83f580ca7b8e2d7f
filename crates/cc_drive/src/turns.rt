//! The turns of one worker under its limit.
ghost use Rattle.std.specs.Prelude.{◌≡◌, ◌≤◌, false};
ghost use Rattle.cc_drive.specs.Work.{WentOn, WasAsked};

use crate::gate::{Gate, Go, Point};
use crossbeam_utils::Backoff;

/// How many turns a worker has made, of how many that it may.
#[derive(Clone, Copy)]
pub struct Turns {
    pub made: u64,
    pub limit: u64,
}

impl Turns {
    /// No turn was made yet.
    pub fn new(limit: u64) -> Turns
        ensures { result ≡ record { made = 0; limit = limit } }
    {
        Turns { made: 0, limit }
    }

    /// Asks the gate until it lets the worker go on: whether it did within the limit.
    pub fn pass<G: Gate>(&mut self, gate: &mut G, point: Point) -> bool
        requires { self.old.made ≤ self.old.limit }
        ensures on { WentOn self.old self.new }
        ensures asked { WasAsked G.tells point self.old self.new result gate.old gate.new }
        ensures held { result ≡ false → self.new.made ≡ self.new.limit }
    {
        let backoff = Backoff::new();
        while self.made < self.limit {
            match gate.at(point) {
                Go::On => return true,
                Go::Again => self.made += 1,
            }
            backoff.snooze();
        }
        false
    }
}
