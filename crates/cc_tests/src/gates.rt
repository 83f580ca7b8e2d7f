//! Gates of the tests.
ghost use Rattle.std.specs.Prelude.{◌≡◌, ◌+◌, IfOk, length, vec_len};

use cc_drive::{DriveConfig, DriveEnd, DriveFault, Gate, Go, Point, drive};
use crossbeam_utils::Backoff;
use std::alloc::{AllocError, Global};
use std::sync::Wait;
use std::sync::atomic::{AtomicBool, AtomicU64, Ordering};
use std::thread::Threads;

/// A gate of a test, of any kind. They are one type, so that `drive` is compiled once for all of them.
#[derive(Drop)]
pub enum TestGate<'a> {
    /// Holds no worker up.
    Open,
    Counts(Counting<'a>),
    Meets(Meeting<'a>),
}

impl<'a> Gate for TestGate<'a> {
    fn at(&mut self, point: Point) -> Go {
        match self {
            TestGate::Open => Go::On,
            TestGate::Counts(counting) => counting.at(point),
            TestGate::Meets(meeting) => meeting.at(point),
        }
    }
}

/// Lets its worker go on at each point but one, at which it first answers this number of times to ask again, and counts how
/// often it was asked there.
#[derive(Drop)]
pub struct Counting<'a> {
    at: Point,
    again: u64,
    asked: &'a AtomicU64,
}

impl<'a> Counting<'a> {
    fn at(&mut self, point: Point) -> Go {
        if self.at != point {
            return Go::On;
        }
        self.asked.fetch_add(1, Ordering::SeqCst);
        if self.again == 0 {
            return Go::On;
        }
        self.again -= 1;
        Go::Again
    }
}

/// At its first arrival at this point a worker sets its own flag and waits for the other's.
#[derive(Drop)]
pub struct Meeting<'a> {
    pub point: Point,
    pub mine: &'a AtomicBool,
    pub other: &'a AtomicBool,
    pub missed: &'a AtomicBool,
    pub has_met: bool,
}

impl<'a> Meeting<'a> {
    fn at(&mut self, point: Point) -> Go {
        if point == self.point && !self.has_met {
            self.has_met = true;
            self.mine.store(true, Ordering::SeqCst);
            if !comes(self.other) {
                self.missed.store(true, Ordering::SeqCst);
            }
        }
        Go::On
    }
}

/// How often a worker looks for the other one.
const LOOKS: u64 = 10_000_000;

/// Whether this flag is set within this number of looks.
fn comes(flag: &AtomicBool) -> bool {
    let backoff = Backoff::new();
    for _ in 0..LOOKS {
        if flag.load(Ordering::SeqCst) {
            return true;
        }
        backoff.snooze();
    }
    false
}

/// A gate for each of these numbers, which answers that many times to ask again. All of them count together.
fn counting_gates<'a>(
    alloc: Global,
    at: Point,
    again: &[u64],
    asked: &'a AtomicU64,
) -> Result<Vec<TestGate<'a>>, AllocError>
    ensures { IfOk result (λ v. vec_len v ≡ length again.now) }
{
    let mut gates = Vec::new(alloc);
    for _ in 0..again.len() {
        let again = again[gates.len()];
        gates.push(TestGate::Counts(Counting { at, again, asked }))?;
    }
    Ok(gates)
}

/// The end of a run whose gates answer this number of times to ask again at this point.
fn drive_held<R: Threads + Wait + Sync>(
    rt: &R,
    alloc: Global,
    config: &DriveConfig,
    at: Point,
    again: &[u64],
    asked: &AtomicU64,
) -> Result<DriveEnd, DriveFault>
    requires { length again.now ≡ config.now.senders + config.now.receivers }
{
    let gates = counting_gates(alloc, at, again, asked)?;
    drive(rt, alloc, config, gates)
}

/// How such a run ends, and how often its gates were asked at the point.
pub fn drive_counted<R: Threads + Wait + Sync>(
    rt: &R,
    alloc: Global,
    config: &DriveConfig,
    at: Point,
    again: &[u64],
) -> (Result<DriveEnd, DriveFault>, u64)
    requires { length again.now ≡ config.now.senders + config.now.receivers }
{
    let asked = AtomicU64::new(0);
    let end = drive_held(rt, alloc, config, at, again, &asked);
    (end, asked.load(Ordering::SeqCst))
}

/// This number of gates that delay no worker.
fn open_gates<'a>(alloc: Global, count: u64) -> Result<Vec<TestGate<'a>>, AllocError>
    ensures { IfOk result (λ v. vec_len v ≡ count) }
{
    let mut gates = Vec::new(alloc);
    for _ in 0..count {
        gates.push(TestGate::Open)?;
    }
    Ok(gates)
}

/// How a run ends whose workers aren't held up.
pub fn drive_open<R: Threads + Wait + Sync>(
    rt: &R,
    alloc: Global,
    config: &DriveConfig,
) -> Result<DriveEnd, DriveFault> {
    let workers = u64::from(config.senders) + u64::from(config.receivers);
    let gates = open_gates(alloc, workers)?;
    drive(rt, alloc, config, gates)
}
