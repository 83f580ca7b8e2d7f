//! The values that are read of plans and receipts, if no report shows them.
use cc_audit::{SendReceipt, TakeReceipt};
use cc_model::{Body, Config, Item, Pass};
use cc_plan::{read_plan, read_receipts};
use std::alloc::Global;
use std::process::Abort;

/// This holds of an input.
fn holds<R: Abort>(rt: &R, is: bool, input: &str) {
    assert!(rt; is, "{input}");
}

/// A plan is read as one with this configuration, this number of takes of each receiver, and a schedule that
/// begins so.
fn is_read<R: Abort>(
    rt: &R,
    alloc: Global,
    input: &str,
    wanted: Config,
    takes: &[u32],
    first: (Pass, u32),
) {
    let plan = read_plan(alloc, input.as_bytes()).expect(rt, input);
    holds(rt, plan.config == wanted, input);
    holds(rt, plan.receivers.as_slice() == takes, input);
    holds(rt, plan.schedule.first().copied() == Some(first), input);
}

/// A plan of version 1 with numbers at the ends of their ranges.
const WIDEST: &str =
    r#"{"version":1,"schedule":[["s2",100000],["r1",1],["s1",7]],"receivers":[0,65536],"senders":[[5,"close",18446744073709551615],[]],"life":281474976710656,"bound":1024,"capacity":4096}"#;

const OF_WIDEST: Config = Config {
    senders: 2,
    receivers: 2,
    capacity: 4096,
    bound: 1024,
    life: 1 << 48,
    per_sender: u32::MAX,
    groups: 1,
};

/// A plan of version 2 with three groups.
const GROUPS: &str =
    r#"{"schedule":[["r6",1]],"receivers":[0,1,2,3,4,65536],"senders":[[[5],"close",[1,2,3]],[[1,2,3,18446744073709551615],[7,8]]],"life":9,"bound":8,"capacity":7,"groups":3,"version":2}"#;

const OF_GROUPS: Config = Config {
    senders: 2,
    receivers: 2,
    capacity: 7,
    bound: 8,
    life: 9,
    per_sender: u32::MAX,
    groups: 3,
};

#[test]
fn plans_are_read(rt: HostRuntime) {
    let alloc = rt.alloc();
    let first = (Pass::Sender(2), 100_000);
    is_read(&rt, alloc, WIDEST, OF_WIDEST, &[0, 65_536], first);
    let first = (Pass::Receiver(6), 1);
    let takes = [0, 1, 2, 3, 4, 65_536];
    is_read(&rt, alloc, GROUPS, OF_GROUPS, &takes, first);
}

const RECEIPTS: &str =
    r#"{"taken":[[512,18446744073709551615,64,4294967295,[0,1,2,18446744073709551615]]],"accepted":[[64,4294967295,18446744073709551614,[5,0]]],"total":18446744073709551613,"version":2}"#;

/// The send of these receipts, and no other.
fn is_sent<R: Abort>(rt: &R, accepted: &[SendReceipt]) {
    let sent = SendReceipt {
        sender: 64,
        number: u32::MAX,
        place: u64::MAX - 1,
        body: Body::two(5, 0),
    };
    assert!(rt; accepted == [sent].as_slice());
}

/// The take of these receipts, and no other.
fn is_taken<R: Abort>(rt: &R, taken: &[TakeReceipt]) {
    let item = Item {
        place: u64::MAX,
        sender: 64,
        number: u32::MAX,
        body: Body::four(0, 1, 2, u64::MAX),
    };
    let receiver = 512;
    assert!(rt; taken == [TakeReceipt { receiver, item }].as_slice());
}

#[test]
fn receipts_are_read(rt: HostRuntime) {
    let receipts = read_receipts(rt.alloc(), RECEIPTS.as_bytes()).expect(&rt, "receipts");
    is_sent(&rt, &receipts.accepted);
    is_taken(&rt, &receipts.taken);
    assert_eq!(rt; receipts.total, Some(u64::MAX - 2));
}
