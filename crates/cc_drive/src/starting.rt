//! The start of one worker's thread.
ghost use Rattle.std.specs.Prelude.{◌≡◌, IfOk, IfErr};

use crate::threads::{Brief, WorkOf, Worker, work_of};
use cc_queue::Queue;
use std::marker::PhantomData;
use std::sync::Wait;
use std::thread::{PromisedHandle, Scope};

/// A thread was refused. Only a start that was refused makes this value, since one of its fields is private here.
#[derive(Clone, Copy)]
pub struct Refused {
    /// The place of the worker in the row of all passes.
    pub row: u32,
    by_start: PhantomData<()>,
}

/// Starts a thread for this worker, which has this place in the row of all passes.
pub(crate) fn start<'s, E, J: Worker + 's, R: Wait + Sync + 's>(
    scope: &Scope<'s, E>,
    rt: &'s R,
    queue: &'s Queue,
    brief: Brief,
    row: u32,
    worker: J,
) -> Result<PromisedHandle<J::Done, WorkOf<J>>, Refused>
    requires { J.is_ready queue.now row worker }
    ensures promised { IfOk result (λ h. (h.promise.queue.value ≡ queue.now) × (h.promise.brief ≡ brief) × (h.promise.row ≡ row)) }
    ensures worker { IfOk result (λ h. h.promise.worker.value ≡ worker) }
    ensures refused { IfErr result (λ e. e.row ≡ row) }
{
    let promise = work_of::<J>(queue, brief, row, &worker);
    let run = move || worker.run(rt, queue, brief, row);
    match scope.spawn_with(promise, run) {
        Ok(handle) => Ok(handle),
        Err(_) => Err(Refused {
            row,
            by_start: PhantomData,
        }),
    }
}
