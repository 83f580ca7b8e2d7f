//! Runs in which each worker has the same gate.
ghost use Rattle.std.specs.Prelude.{◌≡◌, ◌+◌, length};

use crate::gates::{drive_counted, drive_open};
use cc_audit::Verdict;
use cc_drive::{DriveConfig, DriveEnd, DriveFault, Point};
use cc_model::ConfigFault;
use std::alloc::Global;
use std::process::Abort;
use std::sync::Wait;
use std::thread::Threads;

/// Enough for any run here that isn't held.
const LIMIT: u64 = 100_000_000;

/// How often a gate that never lets its worker go on answers to ask again: more than any limit here.
const ALWAYS: u64 = u64::MAX;

/// The least run.
const LEAST: DriveConfig = DriveConfig {
    senders: 1,
    receivers: 1,
    items: 1,
    capacity: 1,
    bound: 1,
    limit: LIMIT,
};

/// A run whose workers aren't held up ends so.
fn ends<R: Threads + Wait + Sync + Abort>(
    rt: &R,
    alloc: Global,
    config: &DriveConfig,
    due: Result<DriveEnd, DriveFault>,
) {
    assert_eq!(rt; drive_open(rt, alloc, config), due);
}

/// Each item that is sent is taken.
fn all_pass<R: Threads + Wait + Sync + Abort>(rt: &R, alloc: Global, config: &DriveConfig) {
    let sent = u64::from(config.senders).saturating_mul(config.items);
    let all = DriveEnd {
        sent,
        taken: sent,
        verdict: Verdict::Clean,
    };
    ends(rt, alloc, config, Ok(all));
}

/// Shapes of runs: how many threads send and take, the items, the capacity and the bound.
const SHAPES: [(u32, u32, u64, u32, u32); 7] = [
    (1, 1, 1, 1, 1),
    (3, 2, 100, 4, 2),
    (2, 2, 1000, 4, 2),
    (2, 3, 0, 64, 8),
    (4, 4, 50, 1, 1),
    (16, 16, 200, 64, 1),
    (63, 64, 10, 16, 1024),
];

/// Each item that is sent is taken, in runs of several shapes: the least, the round of `shared_fifo`, no items at all, one
/// place for many threads, more threads than processors so that each call hands over to the next, and the most threads.
#[test]
fn all_items_pass(rt: HostRuntime) {
    for (senders, receivers, items, capacity, bound) in SHAPES {
        let config = DriveConfig {
            senders,
            receivers,
            items,
            capacity,
            bound,
            limit: LIMIT,
        };
        all_pass(&rt, rt.alloc(), &config);
    }
}

/// Shapes out of their ranges, without the items, and the field that is reported.
const OUT_OF_RANGE: [(u32, u32, u32, u32, ConfigFault); 6] = [
    (0, 0, 0, 0, ConfigFault::Senders),
    (64, 1, 1, 1, ConfigFault::Senders),
    (63, 0, 0, 0, ConfigFault::Receivers),
    (63, 65, 1, 1, ConfigFault::Receivers),
    (1, 64, 4097, 0, ConfigFault::Capacity),
    (1, 64, 1, 1025, ConfigFault::Bound),
];

/// The first field out of its range is reported. The senders may be 63, since the queue has one more.
#[test]
fn ranges(rt: HostRuntime) {
    for (senders, receivers, capacity, bound, fault) in OUT_OF_RANGE {
        let config = DriveConfig {
            senders,
            receivers,
            capacity,
            bound,
            ..LEAST
        };
        ends(&rt, rt.alloc(), &config, Err(DriveFault::Config(fault)));
    }
}

/// A run whose workers are answered this number of times to ask again at this point ends at the limit of the worker of this
/// number. Returns how often its gates were asked there.
fn ends_at_limit<R: Threads + Wait + Sync + Abort>(
    rt: &R,
    alloc: Global,
    config: &DriveConfig,
    point: Point,
    again: &[u64],
    number: u32,
) -> u64
    requires { length again.now ≡ config.now.senders + config.now.receivers }
{
    let (end, asked) = drive_counted(rt, alloc, config, point, again);
    assert_eq!(rt; end, Err(DriveFault::Limit(number)));
    asked
}

/// One sender and one receiver, which make a thousand turns.
const SHORT: DriveConfig = DriveConfig {
    capacity: 2,
    bound: 2,
    limit: 1000,
    ..LEAST
};

/// If both are held: which of them is reported, and how often it has asked.
const HELD: [(Point, u32, u64); 4] = [
    (Point::SendBegun, 0, 1000),
    (Point::SendAnswered, 0, 999),
    (Point::TakeBegun, 1, 1000),
    (Point::TakeAnswered, 1, 999),
];

/// A worker that its gate holds for good reaches its limit: the least such worker is reported, the senders first. Each
/// question is a turn, and so was the read of the state that gave the answer: it makes as many turns as it may.
#[test]
fn held(rt: HostRuntime) {
    for (point, number, turns) in HELD {
        let asked = ends_at_limit(&rt, rt.alloc(), &SHORT, point, &[ALWAYS, ALWAYS], number);
        assert_eq!(rt; asked, turns);
    }
}

/// A sender that its gate holds for less than its limit doesn't reach it: after 998 questions of 1000 turns one turn gets the
/// answer, as no other sender calls. The receiver may reach its own limit meanwhile, but no sender is reported.
#[test]
fn held_for_long(rt: HostRuntime) {
    let (end, asked) = drive_counted(&rt, rt.alloc(), &SHORT, Point::SendBegun, &[998, 0]);
    assert_ne!(rt; end, Err(DriveFault::Limit(0)));
    assert_eq!(rt; asked, 999);
}

/// Three senders and three receivers.
const SIX: DriveConfig = DriveConfig {
    senders: 3,
    receivers: 3,
    items: 2,
    capacity: 64,
    bound: 2,
    limit: LIMIT,
};

/// If some of six are held: their limit, which of them are, and which is reported.
const SOME_HELD: [(Point, u64, [u64; 6], u32); 4] = [
    (
        Point::SendAnswered,
        100_000,
        [0, ALWAYS, ALWAYS, 0, 0, 0],
        1,
    ),
    (Point::SendAnswered, 100_000, [0, 0, ALWAYS, 0, 0, 0], 2),
    (
        Point::TakeAnswered,
        1_000_000,
        [0, 0, 0, 0, ALWAYS, ALWAYS],
        4,
    ),
    (Point::TakeAnswered, 1_000_000, [0, 0, 0, 0, 0, ALWAYS], 5),
];

/// Of three senders and three receivers some are held after an answer, and the others come to their ends: the least that is
/// held is reported, the senders first, from 0.
#[test]
fn some_are_held(rt: HostRuntime) {
    for (point, limit, again, number) in SOME_HELD {
        let config = DriveConfig { limit, ..SIX };
        ends_at_limit(&rt, rt.alloc(), &config, point, &again, number);
    }
}

/// One sender that sends five items, and one receiver.
const FIVE: DriveConfig = DriveConfig {
    items: 5,
    capacity: 8,
    bound: 2,
    ..LEAST
};

/// How often a gate at this point is asked in a run of five items, and lets its worker go on.
fn asked_in_five<R: Threads + Wait + Sync + Abort>(rt: &R, alloc: Global, point: Point) -> u64 {
    let (end, asked) = drive_counted(rt, alloc, &FIVE, point, &[0, 0]);
    assert_eq!(rt; end.expect(rt, "the run ends").sent, 5);
    asked
}

/// How often a gate is asked there, at least and at most.
const TIMES: [(Point, u64, u64); 4] = [
    (Point::SendBegun, 5, 5),
    (Point::SendAnswered, 5, 5),
    (Point::TakeBegun, 6, LIMIT),
    (Point::TakeAnswered, 6, LIMIT),
];

/// A gate that lets its worker go on is asked once after each begin and each answer.
#[test]
fn asked_at_each_point(rt: HostRuntime) {
    for (point, least, most) in TIMES {
        let times = asked_in_five(&rt, rt.alloc(), point);
        assert!(rt; least <= times && times <= most);
    }
}

/// Three senders and two receivers without turns.
const NO_TURNS: DriveConfig = DriveConfig {
    senders: 3,
    receivers: 2,
    items: 1,
    capacity: 2,
    bound: 2,
    limit: 0,
};

/// With no turns at all each worker is at its limit, and the first sender is reported; with no items to send, the first
/// receiver.
#[test]
fn no_turns(rt: HostRuntime) {
    let no_items = DriveConfig {
        items: 0,
        ..NO_TURNS
    };
    ends(&rt, rt.alloc(), &NO_TURNS, Err(DriveFault::Limit(0)));
    ends(&rt, rt.alloc(), &no_items, Err(DriveFault::Limit(3)));
}
