//! Threads on one queue, of one group and of two: the audit of all receipts, once all passes have met.
ghost use Rattle.std.specs.Prelude.{◌≡◌, ◌≤◌, map, IfOk};
ghost use Rattle.cc_drive.specs.Crew.{in_turn};
ghost use Rattle.cc_drive.specs.Names.{Verdict};
ghost use Rattle.cc_drive.specs.Ran.{total_in};
ghost use Rattle.cc_tests.specs.Rounds.{AreSettled, HasPlayed};
ghost use Rattle.cc_runs.specs.Words.{groups};

use crate::on_threads::{RoundReceipts, play_round};
use cc_audit::{TakeReceipt, Verdict};
use cc_model::{CloseAnswer, Config};
use cc_queue::{AllPasses, Opened, Queue, Receipts, Receiver, Sender, audit_all, meet_all};
use std::alloc::{AllocError, Global};
use std::process::Abort;

/// Lists one after another.
fn in_one<X: Copy>(alloc: Global, lists: &[Vec<X>]) -> Result<Vec<X>, AllocError>
    ensures { IfOk result (λ v. v.items ≡ in_turn (map (λ l. l.items) lists.now)) }
{
    let mut all = Vec::new(alloc);
    for list in lists {
        all.extend_from_slice(list)?;
    }
    Ok(all)
}

/// A receiver took these in the order of their places.
fn in_order<R: Abort>(rt: &R, receipts: &[TakeReceipt]) {
    let mut next = 0u64;
    for receipt in receipts {
        assert!(rt;
            receipt.item.place >= next,
            "an item before one that was taken"
        );
        next = receipt.item.place.saturating_add(1);
    }
}

/// The total that a close returns.
fn total_of(close: CloseAnswer) -> u64
    ensures { result ≡ total_in close }
{
    let (CloseAnswer::Shut { total } | CloseAnswer::Already { total }) = close;
    total
}

/// The audit of all sends, and of the takes of one group, from 1. With it come their numbers.
fn audit_group(
    alloc: Global,
    config: &Config,
    queue: &Queue,
    senders: &[Sender],
    receivers: &[Receiver],
    kept: &RoundReceipts,
    group: u32,
) -> Result<(u64, u64, Verdict), AllocError>
    requires settled { AreSettled config.now queue.now senders.now receivers.now (map (λ k. k.items) kept.now.sends.items) (map (λ k. k.items) kept.now.takes.items) kept.now.close }
    requires low { 1 ≤ group }
    requires high { group ≤ groups config.now }
    ensures { IfOk result (λ r. r.2 ≡ Verdict.Clean) }
{
    let first = ((group - 1) * config.receivers) as usize;
    let last = (group * config.receivers) as usize;
    let sends = in_one(alloc, &kept.sends)?;
    let takes = in_one(alloc, &kept.takes[first..last])?;
    let all = AllPasses {
        senders,
        receivers,
        given_up: &[],
    };
    let receipts = Receipts {
        group,
        sends: &sends,
        takes: &takes,
        total: Some(total_of(kept.close)),
    };
    let verdict = audit_all(alloc, queue, &all, &receipts)?;
    Ok((sends.len() as u64, takes.len() as u64, verdict))
}

/// All passes meet, and the audit of each group is Clean: this number of sends, and of takes.
fn meet_and_audit<R: Abort>(
    rt: &R,
    alloc: Global,
    config: &Config,
    queue: &Queue,
    senders: &mut [Sender],
    receivers: &mut [Receiver],
    kept: &RoundReceipts,
    items: u64,
)
    requires { HasPlayed config.now queue.now senders.old receivers.old (map (λ k. k.items) kept.now.sends.items) (map (λ k. k.items) kept.now.takes.items) kept.now.close }
{
    meet_all(queue, senders, receivers, &mut []);
    for group in 0..config.groups {
        let audit = audit_group(alloc, config, queue, senders, receivers, kept, group + 1);
        assert_eq!(rt; audit, Ok((items, items, Verdict::Clean)));
    }
}

/// Each group got all items of a round, each of its receivers in order, and the audit of its receipts is Clean.
fn each_group_got_all<R: Abort>(
    rt: &R,
    alloc: Global,
    config: &Config,
    opened: Opened,
    kept: &RoundReceipts,
    items: u64,
)
    requires { HasPlayed config.now opened.queue opened.senders.items opened.receivers.items (map (λ k. k.items) kept.now.sends.items) (map (λ k. k.items) kept.now.takes.items) kept.now.close }
{
    for receipts in &kept.takes {
        in_order(rt, receipts);
    }
    let Opened {
        queue,
        mut senders,
        mut receivers,
    } = opened;
    meet_and_audit(
        rt,
        alloc,
        config,
        &queue,
        &mut senders,
        &mut receivers,
        kept,
        items,
    );
}

/// Two threads send 1,000 items each through a queue for four, each again when the queue is full. Two threads take them, and
/// a third sender closes when both have sent. All passes meet. Each item is taken once, and the receipts are clean.
#[test]
fn shared_fifo(rt: HostRuntime) {
    let config = Config {
        senders: 3,
        receivers: 2,
        capacity: 4,
        bound: 2,
        life: 1 << 48,
        per_sender: u32::MAX,
        groups: 1,
    };
    let (opened, kept) = play_round(&rt, rt.alloc(), &config, 1000);
    assert_eq!(rt; kept.close, CloseAnswer::Shut { total: 2000 });
    each_group_got_all(&rt, rt.alloc(), &config, opened, &kept, 2000);
}

/// One thread sends 1,000 items through a queue for four to two groups of two threads each. Each group takes every item
/// once, and the receipts of each are clean.
#[test]
fn groups_threads(rt: HostRuntime) {
    let config = Config {
        senders: 2,
        receivers: 2,
        capacity: 4,
        bound: 2,
        life: 1 << 48,
        per_sender: u32::MAX,
        groups: 2,
    };
    let (opened, kept) = play_round(&rt, rt.alloc(), &config, 1000);
    assert_eq!(rt; kept.close, CloseAnswer::Shut { total: 1000 });
    each_group_got_all(&rt, rt.alloc(), &config, opened, &kept, 1000);
}
