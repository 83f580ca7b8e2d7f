//! The end of a run: its threads are joined, its queue is closed, and its result is made.
ghost use Rattle.std.specs.Prelude.{ℕ, List, [], ◌≡◌, ◌+◌, ◌<◌, ◌≤◌, ◌^◌, ◌&&◌, IfOk, IfErr, OnOk, None, false, is_some, map, vec_len, vec_capacity};
ghost use Rattle.std.specs.List.{All};
ghost use Rattle.cc_steps.specs.Topic.{Topic};
ghost use Rattle.cc_steps.specs.Walk.{IsOf, Walk};
ghost use Rattle.cc_drive.specs.Asked.{ReceiversAsked, SendersAsked};
ghost use Rattle.cc_drive.specs.declared.jobs.WorkerJob.{WorkerJob};
ghost use Rattle.cc_drive.specs.Names.{Brief, DriveFault};
ghost use Rattle.cc_drive.specs.Back.{SenderGave, ReceiverGave};
ghost use Rattle.cc_drive.specs.Config.{queue_of};
ghost use Rattle.cc_drive.specs.Crew.{IsCrew, IsRoomFor};
ghost use Rattle.cc_drive.specs.Ran.{HasClosed, HasEnded, HasRun, IsTold, due};
ghost use Rattle.cc_drive.specs.Row.{InRow, InRowWith};

use crate::closing::close_after;
use crate::config::{DriveConfig, DriveFault};
use crate::crew::{Crew, gather};
use crate::gate::Gate;
use crate::jobs::WorkerJob;
use crate::receipts::Worked;
use crate::starting::Refused;
use crate::threads::{Brief, Started, join_all};
use cc_audit::{SendReceipt, TakeReceipt};
use cc_model::CloseAnswer;
use cc_queue::{Queue, Receiver, Sender};
use std::alloc::Global;
use std::thread::Threads;

/// The remains of a run when its threads have ended.
#[derive(Drop)]
pub struct Ran {
    /// Its configuration.
    pub config: DriveConfig,
    /// The senders that sent.
    pub senders: Vec<Sender>,
    /// The sender that closed.
    pub closer: Sender,
    /// The answer of the close.
    pub closed: CloseAnswer,
    /// The receivers, each of which got the end.
    pub receivers: Vec<Receiver>,
    /// The receipts of the senders' calls.
    pub sends: Vec<SendReceipt>,
    /// The receipts of the receivers' calls.
    pub takes: Vec<TakeReceipt>,
}

/// Room for what a row of workers gives back.
#[derive(Drop)]
pub struct Room<P: Drop, X: Drop> {
    pub done: Vec<Worked<P, X>>,
    /// With room for one more.
    pub passes: Vec<P>,
}

/// Room for the handles of this number of threads, and for their results.
pub fn room_for<H: Drop, P: Drop, X: Drop>(
    alloc: Global,
    count: usize,
) -> Result<(Vec<H>, Room<P, X>), DriveFault>
    requires few { count < 2 ^ 16 }
    ensures memory { IfErr result (λ f. f ≡ DriveFault.NoMemory) }
    ensures none { IfOk result (λ r. r.0.items ≡ []) }
    ensures threads { IfOk result (λ r. count ≤ vec_capacity r.0) }
    ensures room { IfOk result (λ r. IsRoomFor count r.1) }
{
    let handles = Vec::with_capacity(alloc, count)?;
    let done = Vec::with_capacity(alloc, count)?;
    let passes = Vec::with_capacity(alloc, count + 1)?;
    Ok((handles, Room { done, passes }))
}

/// Joins the senders, and gathers what they gave back. There is room for one pass more.
pub fn join_senders<G: Gate + Send, R: Threads>(
    rt: &R,
    alloc: Global,
    sending: Started<WorkerJob<Sender, G>>,
    room: Room<Sender, SendReceipt>,
) -> Crew<Sender, SendReceipt>
    requires few { vec_len sending.handles < 2 ^ 32 }
    requires room { IsRoomFor (vec_len sending.handles) room }
    ensures back { (z : Topic) (b : Brief) → InRow (λ n h. (h.promise.queue.value ≡ z) × (h.promise.brief ≡ b) × (h.promise.row ≡ n)) 0 sending.handles.items → IsCrew (SenderGave z b.items b.limit) 0 0 (vec_len sending.handles) result.passes.items result }
    ensures asked { (z : Topic) (b : Brief) (jobs : List (WorkerJob Walk G)) → InRowWith (λ n h j. (h.promise.queue.value ≡ z) × (h.promise.brief ≡ b) × (h.promise.row ≡ n) × (h.promise.worker.value ≡ j)) 0 sending.handles.items jobs → SendersAsked G.tells z b.items b.limit (vec_len sending.handles) result.limited (map (λ j. j.gate) jobs) }
    ensures room { vec_len result.passes < vec_capacity result.passes }
{
    let Room { done, passes } = room;
    let done = join_all(rt, sending.handles, done);
    gather(alloc, done, 0, passes)
}

/// Joins the receivers of a run of this number of senders, and gathers their results.
pub fn join_receivers<G: Gate + Send, R: Threads>(
    rt: &R,
    alloc: Global,
    senders: u32,
    taking: Started<WorkerJob<Receiver, G>>,
    room: Room<Receiver, TakeReceipt>,
) -> Crew<Receiver, TakeReceipt>
    requires few { senders + vec_len taking.handles < 2 ^ 32 }
    requires room { IsRoomFor (vec_len taking.handles) room }
    ensures asked { (z : Topic) (b : Brief) (jobs : List (WorkerJob Walk G)) → InRowWith (λ n h j. (h.promise.queue.value ≡ z) × (h.promise.brief ≡ b) × (h.promise.row ≡ n) × (h.promise.worker.value ≡ j)) (senders + 1) taking.handles.items jobs → ReceiversAsked G.tells z b.limit (senders + 1) senders (vec_len taking.handles) result.limited (map (λ j. j.gate) jobs) }
    ensures back { (z : Topic) (b : Brief) → InRow (λ n h. (h.promise.queue.value ≡ z) × (h.promise.brief ≡ b) × (h.promise.row ≡ n)) (senders + 1) taking.handles.items → IsCrew (ReceiverGave z b.limit) (senders + 1) senders (vec_len taking.handles) result.passes.items result }
{
    let Room { done, passes } = room;
    let done = join_all(rt, taking.handles, done);
    gather(alloc, done, senders, passes)
}

/// Closes the queue after the senders, which are joined.
#[tactic(auto, using(crate::proofs::Closers::has_closed, crate::proofs::Closers::closes_on))]
pub fn close_behind(
    alloc: Global,
    queue: &Queue,
    brief: Brief,
    closer: Sender,
    sent: Crew<Sender, SendReceipt>,
) -> (Crew<Sender, SendReceipt>, Option<(Sender, CloseAnswer)>)
    requires closer { IsOf queue.now closer }
    requires senders { All (IsOf queue.now) sent.passes.items }
    requires room { vec_len sent.passes < vec_capacity sent.passes }
    ensures limited { result.0.limited ≡ sent.limited }
    ensures closed { (count : ℕ) → IsCrew (SenderGave queue.now brief.items brief.limit) 0 0 count sent.passes.items sent → HasClosed queue.now brief closer count result.0 result.1 }
{
    let mut sent = sent;
    match close_after(alloc, queue, brief.limit, closer, &mut sent.passes) {
        Ok(closed) => (sent, Some(closed)),
        Err(pending) => {
            pending.abandon();
            (sent, None)
        }
    }
}

/// The remains of a run whose threads have ended, or why it has no end: of each queue that it may have been a run of.
pub fn ran_of(
    config: DriveConfig,
    refused: Option<Refused>,
    sent: Crew<Sender, SendReceipt>,
    closed: Option<(Sender, CloseAnswer)>,
    taken: Crew<Receiver, TakeReceipt>,
) -> Result<Ran, DriveFault>
    requires few { config.senders + config.receivers < 2 ^ 16 }
    ensures run { (z : Topic) → z.setting.config ≡ queue_of config → HasEnded z config refused sent closed taken → IfOk result (HasRun z config) }
    ensures told { (z : Topic) → HasEnded z config refused sent closed taken → IfErr result (IsTold z config) }
    ensures free { OnOk result ((is_some refused ≡ false) × (sent.limited ≡ None) × (taken.limited ≡ None)) }
{
    let is_refused = refused.is_some();
    let is_closed = closed.is_some();
    if let Some(fault) = fault_in(config, is_refused, &sent, &taken, is_closed) {
        return Err(fault);
    }
    let Some((closer, closed)) = closed else {
        unreachable!()
    };
    Ok(Ran {
        config,
        senders: sent.passes,
        closer,
        closed,
        receivers: taken.passes,
        sends: sent.receipts,
        takes: taken.receipts,
    })
}

/// Why a run has no end, if it has none: whether a thread was refused, what the rows of workers gave back, and whether the
/// queue was closed.
fn fault_in(
    config: DriveConfig,
    refused: bool,
    sent: &Crew<Sender, SendReceipt>,
    taken: &Crew<Receiver, TakeReceipt>,
    is_closed: bool,
) -> Option<DriveFault>
    requires few { config.senders + config.receivers < 2 ^ 16 }
    ensures { result ≡ due refused (config.senders + config.receivers) sent.now.limited taken.now.limited is_closed (sent.now.is_whole && taken.now.is_whole) }
{
    let workers = config.senders + config.receivers;
    let is_whole = sent.is_whole & taken.is_whole;
    fault_of(
        refused,
        workers,
        sent.limited,
        taken.limited,
        is_closed,
        is_whole,
    )
}

/// The first of a refused thread, the least worker that reached its limit or else the closer, and a receipt that wasn't
/// kept; None if there is none of them.
fn fault_of(
    refused: bool,
    workers: u32,
    sender: Option<u32>,
    receiver: Option<u32>,
    is_closed: bool,
    is_whole: bool,
) -> Option<DriveFault>
    ensures { result ≡ due refused workers sender receiver is_closed is_whole }
{
    if refused {
        return Some(DriveFault::Thread);
    }
    if let Some(number) = sender {
        return Some(DriveFault::Limit(number));
    }
    if let Some(number) = receiver {
        return Some(DriveFault::Limit(number));
    }
    if !is_closed {
        return Some(DriveFault::Limit(workers));
    }
    if !is_whole {
        return Some(DriveFault::NoMemory);
    }
    None
}
