//! Devices that fail, and how often they are called.
ghost use Rattle.std.specs.Prelude.{◌≡◌, ◌<◌, ◌-◌, ◌^◌};

use crate::tasks::{READS_ALL, Reads, Refusal, Run, Task, WRITES_ALL, Writes, run_by};
use cc_io::{Device, Pen, Sink, write_bytes};
use cc_play::PlayFault;
use std::alloc::Global;
use std::process::Abort;

/// A plan in which one item is passed on.
const FIRST: &str =
    r#"{"capacity":2,"bound":2,"life":10,"senders":[[7]],"receivers":[1],"schedule":[["s1",100],["r1",100]]}"#;

/// Its report.
const REPORT: &str = "E 0 s1 send 7 -> accepted 0
D 0 r1 take -> got 0 s1 1 7
audit clean
";

/// A plan in which each kind of call has each kind of answer, or none.
const EACH_KIND: &str =
    r#"{"capacity":1,"bound":2,"life":2,"senders":[[18446744073709551615,2,3,4,"close","close",5],[6],["close"]],"receivers":[2,2,1],"schedule":[["s1",48],["r1",100],["s1",1000],["r2",100],["s2",3],["s3",3],["r3",3]]}"#;

/// Its report.
const LINES: &str = "E 0 s1 send 18446744073709551615 -> accepted 0
E 1 s1 send 2 -> full
E 2 s1 send 3 -> accepted 1
E 3 s1 send 4 -> spent
E 4 s1 close -> shut 2
E 5 s1 close -> already 2
E 6 s1 send 5 -> closed
E 7 s2 send 6 -> pending
E 8 s3 close -> pending
D 0 r1 take -> got 0 s1 1 18446744073709551615
D 1 r1 take -> empty
D 2 r2 take -> got 1 s1 3 3
D 3 r2 take -> ended 2
D 4 r3 take -> pending
audit clean
";

/// Receipts whose item was never sent.
const RECEIPTS: &str = r#"{"accepted":[],"taken":[[1,0,1,1,5]]}"#;

/// The line of their verdict.
const VERDICT: &str = "audit fault 3 place 0\n";

/// A task with its input, and the text that it writes.
#[derive(Clone, Copy)]
struct Case<'a> {
    task: Task,
    input: &'a str,
    text: &'a str,
}

const ONE_ITEM: Case<'static> = Case {
    task: Task::Play,
    input: FIRST,
    text: REPORT,
};

const EACH_LINE: Case<'static> = Case {
    task: Task::Play,
    input: EACH_KIND,
    text: LINES,
};

const STRANGER: Case<'static> = Case {
    task: Task::Audit,
    input: RECEIPTS,
    text: VERDICT,
};

/// This holds of an input.
fn holds<R: Abort>(rt: &R, is: bool, input: &str) {
    assert!(rt; is, "{input}");
}

/// This holds if a device fails after this number of bytes.
fn holds_at<R: Abort>(rt: &R, is: bool, bytes: usize) {
    assert!(rt; is, "{bytes}");
}

/// The input by at most this number of bytes a read, and its text by at most as many a write.
fn goes_through<R: Abort>(rt: &R, alloc: Global, case: Case<'_>, at_most: usize) -> Run {
    let reads = Reads {
        at_most,
        ..READS_ALL
    };
    let writes = Writes {
        at_most,
        ..WRITES_ALL
    };
    let run = run_by(alloc, case.task, case.input.as_bytes(), reads, writes);
    holds(rt, run.outcome.is_ok(), case.input);
    holds(rt, run.has_text(case.text), case.input);
    holds(rt, run.has_no_failure(), case.input);
    run
}

/// Each read but those of one byte comes once more than there are bytes.
fn goes_by_bytes<R: Abort>(rt: &R, alloc: Global, case: Case<'_>) {
    let run = goes_through(rt, alloc, case, 1);
    holds(rt, run.reads == case.input.len() as u64 + 1, case.input);
    holds(rt, run.sink.calls == case.text.len() as u64, case.input);
}

#[test]
fn one_byte_a_call(rt: HostRuntime) {
    let alloc = rt.alloc();
    let plan = long_plan(&rt, alloc);
    let report = long_report(&rt, alloc);
    goes_by_bytes(&rt, alloc, ONE_ITEM);
    goes_by_bytes(&rt, alloc, EACH_LINE);
    goes_by_bytes(&rt, alloc, played(&plan, &report));
    goes_by_bytes(&rt, alloc, STRANGER);
}

/// After this number of bytes a read fails: this is reported, and nothing is written.
fn read_fails<R: Abort>(rt: &R, alloc: Global, case: Case<'_>, gives: usize) {
    let reads = Reads { gives, ..READS_ALL };
    let run = run_by(alloc, case.task, case.input.as_bytes(), reads, WRITES_ALL);
    holds_at(rt, run.outcome == Err(PlayFault::Read), gives);
    holds_at(rt, run.failed_reads == 1, gives);
    holds_at(rt, run.sink.calls == 0, gives);
}

/// A read fails after each of the bytes.
fn reads_fail<R: Abort>(rt: &R, alloc: Global, case: Case<'_>) {
    for gives in 0..case.input.len() + 1 {
        read_fails(rt, alloc, case, gives);
    }
}

/// A read fails before, at and after the edge of each block of a thousand bytes.
fn reads_fail_by_blocks<R: Abort>(rt: &R, alloc: Global, case: Case<'_>) {
    for blocks in 1..case.input.len() / 1000 {
        for gives in blocks * 1000 - 1..blocks * 1000 + 2 {
            read_fails(rt, alloc, case, gives);
        }
    }
}

#[test]
fn reads_fail_at_every_byte(rt: HostRuntime) {
    let alloc = rt.alloc();
    let plan = long_plan(&rt, alloc);
    reads_fail(&rt, alloc, ONE_ITEM);
    reads_fail_by_blocks(&rt, alloc, played(&plan, ""));
    reads_fail(&rt, alloc, STRANGER);
}

/// By this device a write fails: this is reported, exactly the bytes that it took are written, and nothing after the failure.
fn write_fails_by<R: Abort>(rt: &R, alloc: Global, case: Case<'_>, writes: Writes) {
    let takes = writes.takes;
    let run = run_by(alloc, case.task, case.input.as_bytes(), READS_ALL, writes);
    holds_at(rt, run.outcome == Err(PlayFault::Write), takes);
    holds_at(rt, run.sink.has_front(case.text, takes), takes);
    holds_at(rt, run.sink.has_failed_once(), takes);
}

/// After this number of bytes a write fails, in each way.
fn write_fails<R: Abort>(rt: &R, alloc: Global, case: Case<'_>, takes: usize, at_most: usize) {
    let writes = Writes {
        takes,
        at_most,
        refusal: Refusal::Error,
    };
    write_fails_by(rt, alloc, case, writes);
    let refusal = Refusal::Nothing;
    write_fails_by(rt, alloc, case, Writes { refusal, ..writes });
}

/// A write fails after each of the bytes, which go out one by one.
fn writes_fail<R: Abort>(rt: &R, alloc: Global, case: Case<'_>) {
    for takes in 0..case.text.len() {
        write_fails(rt, alloc, case, takes, 1);
    }
}

#[test]
fn writes_fail_at_every_byte(rt: HostRuntime) {
    writes_fail(&rt, rt.alloc(), ONE_ITEM);
    writes_fail(&rt, rt.alloc(), EACH_LINE);
    writes_fail(&rt, rt.alloc(), STRANGER);
}

/// The number of sends in the long plan.
const SENDS: u32 = 8_500;

/// A plan that is read in two blocks, of which the first 750 sends are played.
fn long_plan<R: Abort>(rt: &R, alloc: Global) -> String {
    let front =
        "{\"capacity\":1,\"bound\":2,\"life\":10,\"receivers\":[1],\"schedule\":[[\"s1\",15008]],\"senders\":[[7";
    let mut plan = String::from_str(alloc, front).expect(rt, "memory");
    for _ in 1..SENDS {
        plan.push_str(",7").expect(rt, "memory");
    }
    plan.push_str("]]}").expect(rt, "memory");
    plan
}

/// A line of its report.
fn add_full<R: Abort>(rt: &R, alloc: Global, report: &mut String, number: u32) {
    let line = format!(in alloc; "E {number} s1 send 7 -> full\n").expect(rt, "memory");
    report.push_str(&line).expect(rt, "memory");
}

/// Its report of several blocks. One item fits: the first send has 28 events, and each other one 20 and finds the queue full.
fn long_report<R: Abort>(rt: &R, alloc: Global) -> String {
    let front = "E 0 s1 send 7 -> accepted 0\n";
    let mut report = String::from_str(alloc, front).expect(rt, "memory");
    for number in 1..750 {
        add_full(rt, alloc, &mut report, number);
    }
    report.push_str("audit clean\n").expect(rt, "memory");
    report
}

/// A plan that is played.
fn played<'a>(plan: &'a str, report: &'a str) -> Case<'a> {
    Case {
        task: Task::Play,
        input: plan,
        text: report,
    }
}

/// Writes fail before, at and after the edge of a block, as far as there are bytes.
fn writes_fail_around<R: Abort>(rt: &R, alloc: Global, case: Case<'_>, edge: usize) {
    for takes in edge.saturating_sub(1)..edge.saturating_add(2) {
        if takes < case.text.len() {
            write_fails(rt, alloc, case, takes, usize::MAX);
        }
    }
}

#[test]
fn writes_fail_at_every_block(rt: HostRuntime) {
    let alloc = rt.alloc();
    let plan = long_plan(&rt, alloc);
    let report = long_report(&rt, alloc);
    let case = played(&plan, &report);
    let whole = goes_through(&rt, alloc, case, usize::MAX);
    assert!(rt; whole.sink.ends.len() > 2);
    for edge in &whole.sink.ends {
        writes_fail_around(&rt, alloc, case, *edge);
    }
}

/// An input of nothing but spaces is read by the block.
fn is_read_by_blocks<R: Abort>(rt: &R, alloc: Global) {
    let spaces = vec![in alloc; b' '; 1_048_576].expect(rt, "memory");
    let read = run_by(alloc, Task::Play, &spaces, READS_ALL, WRITES_ALL);
    assert!(rt; read.outcome.is_err());
    assert!(rt; read.reads <= 1_048_576 / 4096);
}

/// In how many writes a text goes out.
fn writes_of<R: Abort>(rt: &R, alloc: Global, case: Case<'_>) -> u64 {
    let run = goes_through(rt, alloc, case, usize::MAX);
    run.sink.calls
}

#[test]
fn devices_are_called_by_the_block(rt: HostRuntime) {
    let alloc = rt.alloc();
    is_read_by_blocks(&rt, alloc);
    let plan = long_plan(&rt, alloc);
    let report = long_report(&rt, alloc);
    let writes = writes_of(&rt, alloc, played(&plan, &report));
    assert!(rt; writes <= report.len() as u64 / 4096 + 1);
    assert!(rt; writes_of(&rt, alloc, ONE_ITEM) == 1);
}

/// Whether a pen writes this text to the end of these bytes.
fn is_written(output: &mut Vec<u8>, text: &[u8]) -> bool {
    let mut sink = Device::new(output);
    let mut pen = Pen::new();
    pen.text(&mut sink, text);
    pen.finish(&mut sink).is_ok()
}

/// A text of more bytes than a pen holds back goes out whole.
#[test]
fn a_long_text_goes_out(rt: HostRuntime) {
    let text = "x".repeat(rt.alloc(), 9_000).expect(&rt, "memory");
    let mut output = Vec::new(rt.alloc());
    assert!(rt; is_written(&mut output, text.as_bytes()));
    assert!(rt; output.as_slice() == text.as_bytes());
}

/// Four bytes are written, or there is no room for them; this number of writes have failed by then.
fn writes_four<R: Abort, S: Sink>(rt: &R, sink: &mut S, is_ok: bool, failures: u64)
    requires { S.write_failures sink.old < 2 ^ 64 - 1 }
    ensures { S.write_failures sink.new ≡ failures }
{
    let written = write_bytes(sink, b"four").is_ok();
    assert!(rt; written == is_ok);
    assert!(rt; sink.failures() == failures);
}

/// A device counts a write for which there is no room, and no other.
#[test]
fn a_device_counts_its_failures(rt: HostRuntime) {
    let mut room = [0u8; 5];
    let mut sink = Device::new(&mut room[..]);
    writes_four(&rt, &mut sink, true, 0);
    writes_four(&rt, &mut sink, false, 1);
    assert!(rt; room.as_slice() == b"fourf".as_slice());
}
