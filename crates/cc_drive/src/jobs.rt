//! The work of each thread: a pass, its number and its gate.

ghost use Rattle.std.specs.Prelude.{◌≡◌, ◌+◌, ◌++◌, ◌<◌, ◌≤◌, ◌^◌, map, IfOk, OnOk, vec_len};
ghost use Rattle.cc_drive.specs.Row.{InRow};

use crate::gate::Gate;
use crate::receipts::Worked;
use crate::receiving::take_all;
use crate::sending::send_all;
use crate::threads::{Brief, Worker};
use cc_audit::{SendReceipt, TakeReceipt};
use cc_queue::{Queue, Receiver, Sender};
use std::alloc::{AllocError, Global};
use std::sync::Wait;

/// A pass of a queue with its number, from 1, the gate of its worker, and the allocator of its receipts.
#[derive(Drop)]
pub struct WorkerJob<P: Drop, G: Gate> {
    pub alloc: Global,
    pub number: u32,
    pub pass: P,
    pub gate: G,
}

impl<G: Gate + Send> Worker for WorkerJob<Sender, G> {
    ghost use Rattle.cc_drive.specs.Back.{SenderGave, SendsByGate};
    ghost use Rattle.cc_drive.specs.Jobs.{IsSending};

    type Done = Worked<Sender, SendReceipt>;

    ghost is_ready = { λ z n j. IsSending z n j };

    ghost gives = { λ z b n j d. SenderGave z b.items b.limit n d × SendsByGate G.tells j.gate z b.items b.limit n d };

    fn run<R: Wait>(
        self,
        rt: &R,
        queue: &Queue,
        brief: Brief,
        row: u32,
    ) -> Worked<Sender, SendReceipt> {
        send_all(rt, queue, brief, row, self)
    }
}

impl<G: Gate + Send> Worker for WorkerJob<Receiver, G> {
    ghost use Rattle.cc_drive.specs.Back.{ReceiverGave, TakesByGate};
    ghost use Rattle.cc_drive.specs.Jobs.{IsTaking};

    type Done = Worked<Receiver, TakeReceipt>;

    ghost is_ready = { λ z n j. IsTaking z n j };

    ghost gives = { λ z b n j d. ReceiverGave z b.limit n d × TakesByGate G.tells j.gate z b.limit n d };

    fn run<R: Wait>(
        self,
        rt: &R,
        queue: &Queue,
        brief: Brief,
        row: u32,
    ) -> Worked<Receiver, TakeReceipt> {
        take_all(rt, queue, brief, row, self)
    }
}

/// The passes of a queue, before they are dealt out to workers.
#[derive(Drop)]
pub struct Passes {
    /// The last sender, which closes the queue.
    pub closer: Sender,
    pub senders: Vec<Sender>,
    pub receivers: Vec<Receiver>,
}

/// The workers of a run before their threads start, and the closer.
#[derive(Drop)]
pub struct Workers<G: Gate> {
    pub closer: Sender,
    pub senders: Vec<WorkerJob<Sender, G>>,
    pub receivers: Vec<WorkerJob<Receiver, G>>,
}

/// A job for each of these passes, numbered from 1, with the next of the gates.
pub fn deal<P: Drop, G: Gate>(
    alloc: Global,
    passes: Vec<P>,
    gates: &mut Vec<G>,
) -> Result<Vec<WorkerJob<P, G>>, AllocError>
    requires gates { vec_len passes ≤ vec_len gates.old }
    requires few { vec_len passes < 2 ^ 16 }
    ensures passes { IfOk result (λ v. map (λ j. j.pass) v.items ≡ passes.items) }
    ensures numbers { IfOk result (λ v. InRow (λ n j. j.number ≡ n) 1 v.items) }
    ensures dealt { IfOk result (λ v. map (λ j. j.gate) v.items ++ gates.new.items ≡ gates.old.items) }
    ensures gates { OnOk result (vec_len gates.new + vec_len passes ≡ vec_len gates.old) }
{
    let mut jobs = Vec::new(alloc);
    let mut number = 1;
    for pass in passes {
        let gate = gates.remove(0);
        jobs.push(WorkerJob {
            alloc,
            number,
            pass,
            gate,
        })?;
        number += 1;
    }
    Ok(jobs)
}
