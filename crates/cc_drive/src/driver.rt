//! A run: threads that send while threads take, the close, and the audit.
ghost use Rattle.std.specs.Prelude.{◌≡◌, ◌+◌, MatchResult, Ok, OnOk, vec_len};
ghost use Rattle.cc_drive.specs.Names.{DriveFault};
ghost use Rattle.cc_queue.specs.Opened.{HasOpened};
ghost use Rattle.cc_drive.specs.Asked.{WereAsked, gates_in};
ghost use Rattle.cc_drive.specs.Config.{drive_fault, queue_of};
ghost use Rattle.cc_drive.specs.Jobs.{ArePasses, AreReady, IsQueueOf};
ghost use Rattle.cc_drive.specs.Ran.{Driven, HasNoEnd, HasRun, IsEndOf, IsTold};

use crate::closing::total_of;
use crate::config::{DriveConfig, DriveEnd, DriveFault};
use crate::ending::{Ran, close_behind, join_receivers, join_senders, ran_of, room_for};
use crate::gate::Gate;
use crate::jobs::{Passes, Workers, deal};
use crate::meeting::meet_everyone;
use crate::threads::{Brief, Row, start_all};
use cc_queue::{AllPasses, Opened, Queue, Receipts, audit_all};
use std::alloc::Global;
use std::sync::Wait;
use std::thread::{Scope, Threads, scope, scope_env};

/// Drives a queue by threads. Each receiver takes until the queue has ended, and each sender sends the numbers from 1 to
/// `items` as bodies of one word, each in a thread of its own; after Empty, and after Full, they try again with a back-off.
/// When all senders are joined, they meet the closer, and it closes; when all receivers are joined too, all passes meet, and
/// the receipts are audited with the close's total. A worker asks its own gate after each begin and after each answer; there
/// is one gate for each worker, the senders' first. If the drive has an end, each worker asked the gate of its place.
///
/// A thread that is refused ends the starting of further ones, and the workers that run go on to their end. So do they if
/// one of them reaches its limit or finds no memory for a receipt. Each fault has its cause in this run.
#[tactic(auto, using(crate::proofs::Crewed::no_memory))]
pub fn drive<G: Gate + Send, R: Threads + Wait + Sync>(
    rt: &R,
    alloc: Global,
    config: &DriveConfig,
    gates: Vec<G>,
) -> Result<DriveEnd, DriveFault>
    requires gates { vec_len gates ≡ config.now.senders + config.now.receivers }
    ensures driven { Driven (drive_fault config.now) config.now result }
    ensures asked { OnOk result (WereAsked G.tells gates.items config.now) }
{
    let of_queue = config.queue()?;
    let opened = Queue::open_checked(alloc, &of_queue)?;
    drive_opened(rt, alloc, config, gates, opened)
}

/// Drives this queue, which was opened for it: its last sender is the closer.
fn drive_opened<G: Gate + Send, R: Threads + Wait + Sync>(
    rt: &R,
    alloc: Global,
    config: &DriveConfig,
    gates: Vec<G>,
    opened: Opened,
) -> Result<DriveEnd, DriveFault>
    requires gates { vec_len gates ≡ config.now.senders + config.now.receivers }
    requires opened { HasOpened (queue_of config.now) opened }
    ensures driven { Driven (Ok tt) config.now result }
    ensures asked { OnOk result (WereAsked G.tells gates.items config.now) }
{
    let Opened {
        queue,
        mut senders,
        receivers,
    } = opened;
    let Some(closer) = senders.pop() else {
        unreachable!()
    };
    let passes = Passes {
        closer,
        senders,
        receivers,
    };
    deal_and_run(rt, alloc, &queue, config, gates, passes)
}

/// Deals the passes out to workers, the gates in their order, and runs these.
#[tactic(auto, using(crate::proofs::Crewed::no_memory))]
fn deal_and_run<G: Gate + Send, R: Threads + Wait + Sync>(
    rt: &R,
    alloc: Global,
    queue: &Queue,
    config: &DriveConfig,
    gates: Vec<G>,
    passes: Passes,
) -> Result<DriveEnd, DriveFault>
    requires gates { vec_len gates ≡ config.now.senders + config.now.receivers }
    requires passes { ArePasses queue.now config.now passes }
    ensures driven { Driven (Ok tt) config.now result }
    ensures asked { OnOk result (WereAsked G.tells gates.items config.now) }
{
    let Passes {
        closer,
        senders,
        receivers,
    } = passes;
    let mut gates = gates;
    let senders = deal(alloc, senders, &mut gates)?;
    let receivers = deal(alloc, receivers, &mut gates)?;
    let workers = Workers {
        closer,
        senders,
        receivers,
    };
    run_and_settle(rt, alloc, queue, config, workers)
}

/// Runs all workers, and settles what is left of the run.
fn run_and_settle<G: Gate + Send, R: Threads + Wait + Sync>(
    rt: &R,
    alloc: Global,
    queue: &Queue,
    config: &DriveConfig,
    workers: Workers<G>,
) -> Result<DriveEnd, DriveFault>
    requires ready { AreReady queue.now config.now workers }
    ensures driven { Driven (Ok tt) config.now result }
    ensures asked { OnOk result (WereAsked G.tells (gates_in workers) config.now) }
{
    let ran = run(rt, alloc, queue, config, workers)?;
    settle(alloc, queue, ran)
}

/// Runs all workers in threads, and closes between the senders' end and the receivers'.
#[tactic(auto, using(crate::proofs::Crewed::ran_for))]
fn run<G: Gate + Send, R: Threads + Wait + Sync>(
    rt: &R,
    alloc: Global,
    queue: &Queue,
    config: &DriveConfig,
    workers: Workers<G>,
) -> Result<Ran, DriveFault>
    requires ready { AreReady queue.now config.now workers }
    ensures run { MatchResult result (HasRun queue.now config.now) (HasNoEnd config.now) }
    ensures asked { OnOk result (WereAsked G.tells (gates_in workers) config.now) }
{
    let config = *config;
    scope(
        scope_env(),
        rt,
        move |scope| -> Result<Ran, DriveFault>
            requires ready { AreReady queue.now config workers }
            ensures run { MatchResult result (HasRun queue.entry.now config) (IsTold queue.entry.now config) }
            ensures asked { OnOk result (WereAsked G.tells (gates_in workers) config) }
        { run_in(scope, rt, alloc, queue, config, workers) },
    )
}

/// Does so in this scope. All memory that the lists of threads take is asked for before the first thread is started.
fn run_in<'s, E, G: Gate + Send + 's, R: Threads + Wait + Sync + 's>(
    scope: &Scope<'s, E>,
    rt: &'s R,
    alloc: Global,
    queue: &'s Queue,
    config: DriveConfig,
    workers: Workers<G>,
) -> Result<Ran, DriveFault>
    requires ready { AreReady queue.now config workers }
    ensures run { MatchResult result (HasRun queue.now config) (IsTold queue.now config) }
    ensures asked { OnOk result (WereAsked G.tells (gates_in workers) config) }
{
    let Workers {
        closer,
        senders,
        receivers,
    } = workers;
    let count = config.senders;
    let brief = Brief {
        items: config.items,
        limit: config.limit,
    };
    let (handles, to_take) = room_for(alloc, receivers.len())?;
    let taking = Row {
        first: count + 1,
        workers: receivers,
        handles,
    };
    let (handles, to_send) = room_for(alloc, senders.len())?;
    let sending = Row {
        first: 0,
        workers: senders,
        handles,
    };
    let taking = start_all(scope, rt, queue, brief, taking, None);
    let sending = start_all(scope, rt, queue, brief, sending, taking.refused);
    let refused = sending.refused;
    let sent = join_senders(rt, alloc, sending, to_send);
    let (sent, closed) = close_behind(alloc, queue, brief, closer, sent);
    let taken = join_receivers(rt, alloc, count, taking, to_take);
    ran_of(config, refused, sent, closed, taken)
}

/// Lets all passes meet, and audits their receipts with the close's total.
fn settle(alloc: Global, queue: &Queue, ran: Ran) -> Result<DriveEnd, DriveFault>
    requires queue { IsQueueOf ran.config queue.now }
    requires run { HasRun queue.now ran.config ran }
    ensures { MatchResult result (IsEndOf ran) (λ f. f ≡ DriveFault.NoMemory) }
{
    let Ran {
        config: _,
        mut senders,
        closer,
        closed,
        mut receivers,
        sends,
        takes,
    } = ran;
    let Ok(()) = senders.push(closer) else {
        return Err(DriveFault::NoMemory);
    };
    meet_everyone(queue, &mut senders, &mut receivers);
    let total = total_of(closed);
    let all = AllPasses {
        senders: &senders,
        receivers: &receivers,
        given_up: &[],
    };
    let receipts = Receipts {
        group: 1,
        sends: &sends,
        takes: &takes,
        total: Some(total),
    };
    let verdict = audit_all(alloc, queue, &all, &receipts)?;
    Ok(DriveEnd {
        sent: sends.len() as u64,
        taken: takes.len() as u64,
        verdict,
    })
}
