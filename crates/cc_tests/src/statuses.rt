//! Outcomes as they are reported, if standard error fails.
use crate::tasks::{CutWriter, Refusal};
use cc_audit::Verdict;
use cc_plan::PlanFault;
use cc_play::{PlayFault, tell};
use std::alloc::Global;
use std::process::Abort;

/// This holds of a line, of which this number of bytes are taken.
fn holds<R: Abort>(rt: &R, is: bool, line: &str, takes: usize) {
    assert!(rt; is, "{line}, {takes}");
}

/// Reports an outcome on standard error, which takes this number of bytes and then refuses in this way: it has its status, and
/// its line goes out as far as it is taken.
fn is_told<R: Abort>(
    rt: &R,
    alloc: Global,
    outcome: Result<Verdict, PlayFault>,
    due: (u8, &str),
    takes: usize,
    refusal: Refusal,
) {
    let (status, line) = due;
    let mut errors = CutWriter::new(alloc, takes, usize::MAX, refusal);
    let told = tell(&mut errors, outcome);
    holds(rt, told == status, line, takes);
    let length = line.len().min(takes);
    holds(rt, errors.has_front(line, length), line, takes);
}

/// How much standard error takes: all, nothing, or five bytes.
const TAKES: [usize; 3] = [usize::MAX, 0, 5];

/// Reports an outcome on standard error, which takes all, or fails at once, after five bytes, or by taking nothing: the status
/// is the same, and the line goes out as far as it is taken.
fn has_status<R: Abort>(
    rt: &R,
    alloc: Global,
    outcome: Result<Verdict, PlayFault>,
    due: (u8, &str),
) {
    for takes in TAKES {
        is_told(rt, alloc, outcome, due, takes, Refusal::Error);
        is_told(rt, alloc, outcome, due, takes, Refusal::Nothing);
    }
}

/// Faults, their statuses and their lines.
const FAULTS: [(PlayFault, u8, &str); 7] = [
    (PlayFault::NoMemory, 3, "ccq: out of memory\n"),
    (PlayFault::Read, 4, "ccq: reading failed\n"),
    (PlayFault::Write, 4, "ccq: writing failed\n"),
    (
        PlayFault::Plan(PlanFault::NotJson),
        2,
        "ccq: plan refused: P1\n",
    ),
    (
        PlayFault::Plan(PlanFault::Shape),
        2,
        "ccq: plan refused: P2\n",
    ),
    (
        PlayFault::Plan(PlanFault::Range("life")),
        2,
        "ccq: plan refused: P3 life\n",
    ),
    (
        PlayFault::Plan(PlanFault::UnknownPass(12)),
        2,
        "ccq: plan refused: P4 at 12\n",
    ),
];

/// The same of each fault.
fn faults_have_a_status<R: Abort>(rt: &R, alloc: Global) {
    for (fault, status, line) in FAULTS {
        has_status(rt, alloc, Err(fault), (status, line));
    }
}

#[test]
fn failing_devices_have_a_status(rt: HostRuntime) {
    let fault = Verdict::Fault { kind: 1, place: 0 };
    has_status(&rt, rt.alloc(), Ok(Verdict::Clean), (0, ""));
    has_status(&rt, rt.alloc(), Ok(fault), (1, ""));
    faults_have_a_status(&rt, rt.alloc());
}
