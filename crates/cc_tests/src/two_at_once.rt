//! Two workers that wait for each other: they only get on if both run at once.
ghost use Rattle.std.specs.Prelude.{◌≡◌, IfOk, vec_len};

use crate::gates::{Meeting, TestGate};
use cc_audit::Verdict;
use cc_drive::{DriveConfig, DriveEnd, DriveFault, Point, drive};
use std::alloc::{AllocError, Global};
use std::sync::Wait;
use std::sync::atomic::{AtomicBool, Ordering};
use std::thread::Threads;

/// The flags that two workers show each other.
#[derive(Drop)]
struct Flags {
    sender_is_here: AtomicBool,
    receiver_is_here: AtomicBool,
    missed: AtomicBool,
}

/// The gates of two workers that meet.
fn meetings(alloc: Global, flags: &Flags) -> Result<Vec<TestGate<'_>>, AllocError>
    ensures { IfOk result (λ v. vec_len v ≡ 2) }
{
    let sender = Meeting {
        point: Point::SendBegun,
        mine: &flags.sender_is_here,
        other: &flags.receiver_is_here,
        missed: &flags.missed,
        has_met: false,
    };
    let receiver = Meeting {
        point: Point::TakeAnswered,
        mine: &flags.receiver_is_here,
        other: &flags.sender_is_here,
        missed: &flags.missed,
        has_met: false,
    };
    let gates = [TestGate::Meets(sender), TestGate::Meets(receiver)];
    Ok(Vec::from_array(alloc, gates)?)
}

/// One item, and room for it.
const ONE: DriveConfig = DriveConfig {
    senders: 1,
    receivers: 1,
    items: 1,
    capacity: 2,
    bound: 2,
    limit: 10_000_000,
};

/// The end of a run in which it is passed on.
const PASSED: DriveEnd = DriveEnd {
    sent: 1,
    taken: 1,
    verdict: Verdict::Clean,
};

/// How a run of two workers ends that meet by these flags.
fn drive_meeting<R: Threads + Wait + Sync>(
    rt: &R,
    alloc: Global,
    flags: &Flags,
) -> Result<DriveEnd, DriveFault> {
    let gates = meetings(alloc, flags)?;
    drive(rt, alloc, &ONE, gates)
}

/// The sender waits in its first send for the receiver, and the receiver after its first take for the sender. Workers
/// that are run by one thread, one after the other or in turns, miss each other.
#[test]
fn two_at_once(rt: HostRuntime) {
    let flags = Flags {
        sender_is_here: AtomicBool::new(false),
        receiver_is_here: AtomicBool::new(false),
        missed: AtomicBool::new(false),
    };
    let end = drive_meeting(&rt, rt.alloc(), &flags);
    assert_eq!(rt; end, Ok(PASSED));
    assert!(rt; !flags.missed.load(Ordering::SeqCst));
}
