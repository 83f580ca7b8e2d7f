//! Workers in threads: starting them in a row, and joining them.
ghost use Rattle.std.specs.Prelude.{ℕ, List, [], ◌≡◌, ◌+◌, ◌<◌, ◌≤◌, ◌^◌, vec_len, vec_capacity};
ghost use Rattle.cc_steps.specs.Topic.{Topic};
ghost use Rattle.cc_drive.specs.Names.{Brief};
ghost use Rattle.cc_drive.specs.Row.{InRow, InRowWith};
ghost use Rattle.cc_drive.specs.Start.{IsStarted};

use crate::starting::{Refused, start};
use cc_queue::Queue;
use std::snapshot::Snapshot;
use std::sync::Wait;
use std::thread::{Promise, PromisedHandle, Scope, Threads};

/// The data that all workers of a run share.
#[derive(Clone, Copy)]
pub struct Brief {
    /// How many items each sender sends.
    pub items: u64,
    /// How many turns each worker may make.
    pub limit: u64,
}

/// The work of one thread, on a pass of a queue.
pub trait Worker: Send + Drop {
    ghost use Rattle.std.specs.Prelude.{ℕ};
    ghost use Rattle.cc_steps.specs.Topic.{Topic};
    ghost use Rattle.cc_drive.specs.Names.{Brief};

    /// Its result.
    type Done: Send + Drop;

    /// It is at the start, at this place in the row of all passes of the queue.
    ghost is_ready: { Topic → ℕ → Self → Type 0 };

    /// The possible results of this worker, if it was at that place.
    ghost gives: { Topic → Brief → ℕ → Self → Self.Done → Type 0 };

    fn run<R: Wait>(self, rt: &R, queue: &Queue, brief: Brief, row: u32) -> Self::Done
        requires { is_ready queue.now row self }
        ensures { gives queue.now brief row self result };
}

/// The result of a worker's thread at its join.
#[derive(Drop)]
pub struct WorkOf<J: Worker> {
    pub queue: Snapshot<Queue>,
    pub brief: Brief,
    pub row: u32,
    pub worker: Snapshot<J>,
}

impl<J: Worker> Promise<J::Done> for WorkOf<J> {
    ghost kept_by = { λ p d. J.gives p.queue.value p.brief p.row p.worker.value d };
}

/// The promise of this worker's thread.
pub(crate) fn work_of<J: Worker>(queue: &Queue, brief: Brief, row: u32, worker: &J) -> WorkOf<J>
    ensures queue { result.queue.value ≡ queue.now }
    ensures brief { result.brief ≡ brief }
    ensures row { result.row ≡ row }
    ensures worker { result.worker.value ≡ worker.now }
{
    WorkOf {
        queue: Snapshot::of(queue),
        brief,
        row,
        worker: Snapshot::of(worker),
    }
}

/// Threads that run, and which one was refused, if one was.
#[derive(Drop)]
pub struct Started<J: Worker> {
    pub handles: Vec<PromisedHandle<J::Done, WorkOf<J>>>,
    pub refused: Option<Refused>,
}

/// Workers in the order of the row of all passes, with room for the handles of their threads.
#[derive(Drop)]
pub struct Row<J: Worker> {
    /// The place of the first of them.
    pub first: u32,
    pub workers: Vec<J>,
    pub handles: Vec<PromisedHandle<J::Done, WorkOf<J>>>,
}

/// Starts a thread for each worker in turn, until one is refused, and none if one was refused before.
pub fn start_all<'s, E, J: Worker + 's, R: Wait + Sync + 's>(
    scope: &Scope<'s, E>,
    rt: &'s R,
    queue: &'s Queue,
    brief: Brief,
    row: Row<J>,
    before: Option<Refused>,
) -> Started<J>
    requires ready { InRow (J.is_ready queue.now) row.first row.workers.items }
    requires few { row.first + vec_len row.workers < 2 ^ 32 }
    requires none { row.handles.items ≡ [] }
    requires room { vec_len row.workers ≤ vec_capacity row.handles }
    ensures promised { InRow (λ n h. (h.promise.queue.value ≡ queue.now) × (h.promise.brief ≡ brief) × (h.promise.row ≡ n)) row.first result.handles.items }
    ensures workers { InRowWith (λ n h j. (h.promise.queue.value ≡ queue.now) × (h.promise.brief ≡ brief) × (h.promise.row ≡ n) × (h.promise.worker.value ≡ j)) row.first result.handles.items row.workers.items }
    ensures started { IsStarted before row.first (vec_len row.workers) (vec_len result.handles) result.refused }
{
    let Row {
        first,
        workers,
        mut handles,
    } = row;
    if before.is_some() {
        return Started {
            handles,
            refused: before,
        };
    }
    let mut place = first;
    for worker in workers {
        match start(scope, rt, queue, brief, place, worker) {
            Ok(handle) => {
                let Ok(()) = handles.push(handle) else {
                    unreachable!()
                };
            }
            Err(refused) => {
                return Started {
                    handles,
                    refused: Some(refused),
                };
            }
        }
        place += 1;
    }
    Started {
        handles,
        refused: None,
    }
}

/// Waits for the end of each of these threads. For each queue, place and workers that they may have been promised for, each
/// result is that of the worker at its place.
pub fn join_all<R: Threads, J: Worker>(
    rt: &R,
    handles: Vec<PromisedHandle<J::Done, WorkOf<J>>>,
    done: Vec<J::Done>,
) -> Vec<J::Done>
    requires none { done.items ≡ [] }
    requires room { vec_len handles ≤ vec_capacity done }
    ensures gives { (z : Topic) (b : Brief) (first : ℕ) → InRow (λ n h. (h.promise.queue.value ≡ z) × (h.promise.brief ≡ b) × (h.promise.row ≡ n)) first handles.items → InRow (λ n d. (j : J) × J.gives z b n j d) first result.items }
    ensures by_worker { (z : Topic) (b : Brief) (first : ℕ) (workers : List J) → InRowWith (λ n h j. (h.promise.queue.value ≡ z) × (h.promise.brief ≡ b) × (h.promise.row ≡ n) × (h.promise.worker.value ≡ j)) first handles.items workers → InRowWith (λ n d j. J.gives z b n j d) first result.items workers }
    ensures len { vec_len result ≡ vec_len handles }
{
    let mut done = done;
    for handle in handles {
        let Ok(()) = done.push(handle.join(rt)) else {
            unreachable!()
        };
    }
    done
}
