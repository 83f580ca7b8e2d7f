//! The work of a receiver's thread.
ghost use Rattle.std.specs.Prelude.{◌≡◌, ◌≤◌, IfOk};
ghost use Rattle.cc_drive.specs.Names.{Answer, Call};
ghost use Rattle.cc_steps.specs.Walk.{IsOf};
ghost use Rattle.cc_queue.specs.Calls.{Completed};
ghost use Rattle.cc_drive.specs.Back.{ReceiverGave, TakesByGate};
ghost use Rattle.cc_drive.specs.Jobs.{IsTaking};
ghost use Rattle.cc_drive.specs.Work.{WentOn, IsAskedInTake, CostsOfTake, pass_left};

use crate::calls::{Left, answer_within};
use crate::gate::{Gate, Point};
use crate::jobs::WorkerJob;
use crate::pace::Pace;
use crate::receipts::{KeptReceipts, Worked};
use crate::threads::Brief;
use crate::turns::Turns;
use cc_audit::TakeReceipt;
use cc_model::TakeAnswer;
use cc_queue::{GivenUp, PendingTake, Queue, Receiver, begin_take};
use std::sync::Wait;

/// Takes, and waits for the answer within the limit. The gate is asked after the begin and after the answer. Err has the
/// state of the worker in this call when it reached its limit.
#[tactic(auto, using(crate::proofs::Told::stands_self, crate::proofs::Counted::take_asked, crate::proofs::Counted::take_costs))]
fn take_one<G: Gate>(
    queue: &Queue,
    receiver: Receiver,
    gate: &mut G,
    turns: &mut Turns,
) -> Result<(Receiver, TakeAnswer), Left<PendingTake, Receiver>>
    requires here { IsOf queue.now receiver }
    requires within { turns.old.made ≤ turns.old.limit }
    ensures taken { IfOk result (λ r. Completed receiver Call.Take (Answer.Take r.1) r.0) }
    ensures asked { IsAskedInTake G.tells receiver turns.old turns.new gate.old gate.new result }
    ensures costs { CostsOfTake turns.old turns.new result }
    ensures on { WentOn turns.old turns.new }
{
    let pending = begin_take(queue, receiver);
    answer_within(
        queue,
        pending,
        gate,
        turns,
        Point::TakeBegun,
        Point::TakeAnswered,
    )
}

/// Gives up a receiver that came to its limit in a take.
fn given_up(left: Left<PendingTake, Receiver>) -> GivenUp
    ensures { result ≡ pass_left left }
{
    match left {
        Left::Waiting(pending) => pending.abandon(),
        Left::Answered(pass) => pass.abandon(),
    }
}

/// Takes until the queue has ended, again after Empty, and keeps a receipt of each item. The pass is returned unless the
/// worker came to its limit. The job's gate is asked for each call.
pub(crate) fn take_all<G: Gate, R: Wait>(
    rt: &R,
    queue: &Queue,
    brief: Brief,
    row: u32,
    job: WorkerJob<Receiver, G>,
) -> Worked<Receiver, TakeReceipt>
    requires { IsTaking queue.now row job }
    ensures gave { ReceiverGave queue.now brief.limit row result }
    ensures asked { TakesByGate G.tells job.gate queue.now brief.limit row result }
{
    let WorkerJob {
        alloc,
        number,
        pass,
        mut gate,
    } = job;
    let mut receiver = pass;
    receiver.is_sound();
    let mut turns = Turns::new(brief.limit);
    let mut kept = KeptReceipts::new(alloc);
    let mut pace = Pace::new();
    while turns.made < turns.limit {
        let before = turns.made;
        let (after, answer) = match take_one(queue, receiver, &mut gate, &mut turns) {
            Ok((after, answer)) => (after, answer),
            Err(left) => {
                return Worked {
                    row,
                    pass: None,
                    left: Some(given_up(left)),
                    made: turns.made,
                    kept,
                };
            }
        };
        match answer {
            TakeAnswer::Got(item) => {
                kept.keep(TakeReceipt {
                    receiver: number,
                    item,
                });
                pace.go_on(rt, turns.made - before);
            }
            TakeAnswer::Empty => pace.rest(),
            TakeAnswer::Ended { total: _ } => {
                return Worked {
                    row,
                    pass: Some(after),
                    left: None,
                    made: turns.made,
                    kept,
                };
            }
        }
        receiver = after;
    }
    Worked {
        row,
        pass: None,
        left: Some(receiver.abandon()),
        made: turns.made,
        kept,
    }
}
