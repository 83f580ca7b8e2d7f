//! The work of a sender's thread.
ghost use Rattle.std.specs.Prelude.{◌≡◌, ◌+◌, ◌-◌, ◌^◌, ◌<◌, ◌≤◌};
ghost use Rattle.cc_steps.specs.Walk.{IsOf};
ghost use Rattle.cc_drive.specs.Back.{SenderGave, SendsByGate, one_word};
ghost use Rattle.cc_drive.specs.Jobs.{IsSending};
ghost use Rattle.cc_drive.specs.Work.{WentOn, IsAskedInSend, IsSent, CostsOfSend, pass_left};

use crate::calls::{Left, answer_within};
use crate::gate::{Gate, Point};
use crate::jobs::WorkerJob;
use crate::pace::Pace;
use crate::receipts::{KeptReceipts, Worked};
use crate::threads::Brief;
use crate::turns::Turns;
use cc_audit::SendReceipt;
use cc_model::{Body, SendAnswer};
use cc_queue::{GivenUp, PendingSend, Queue, Sender, begin_send};
use std::sync::Wait;

/// How a send went.
pub(crate) enum Sent {
    /// It was answered.
    Answered(Sender, SendAnswer),
    /// The sender has begun as many sends as one sender may.
    Worn(Sender),
    /// The worker reached its limit.
    Limited(Left<PendingSend, Sender>),
}

/// Sends this body, and waits for the answer within the limit. The gate is asked after the begin and after the answer.
#[tactic(auto, using(crate::proofs::Told::stands_self))]
pub(crate) fn send_body<G: Gate>(
    queue: &Queue,
    sender: Sender,
    body: Body,
    gate: &mut G,
    turns: &mut Turns,
) -> Sent
    requires here { IsOf queue.now sender }
    requires within { turns.old.made ≤ turns.old.limit }
    ensures sent { IsSent sender body result }
    ensures asked { IsAskedInSend G.tells sender body turns.old turns.new gate.old gate.new result }
    ensures costs { CostsOfSend turns.old turns.new result }
    ensures on { WentOn turns.old turns.new }
{
    let pending = match begin_send(queue, sender, body) {
        Ok(pending) => pending,
        Err(sender) => return Sent::Worn(sender),
    };
    match answer_within(
        queue,
        pending,
        gate,
        turns,
        Point::SendBegun,
        Point::SendAnswered,
    ) {
        Ok((sender, answer)) => Sent::Answered(sender, answer),
        Err(left) => Sent::Limited(left),
    }
}

/// Gives up a sender that came to its limit in a send.
fn given_up(left: Left<PendingSend, Sender>) -> GivenUp
    ensures { result ≡ pass_left left }
{
    match left {
        Left::Waiting(pending) => pending.abandon(),
        Left::Answered(pass) => pass.abandon(),
    }
}

/// The body of the send after this number of accepted ones: the next number, as one word.
fn body_behind(accepted: u64) -> Body
    requires { accepted < 2 ^ 64 - 1 }
    ensures { result ≡ one_word (accepted + 1) }
{
    Body::one(accepted + 1)
}

/// Sends the numbers from 1 to `items` of the brief as bodies of one word, each again until it is accepted, and keeps a receipt
/// of each. In a run the answer is Full until then: the queue is closed when all senders are joined, and its life is longer
/// than any sends that they can begin. The pass is returned if all were accepted, and not if the worker came to its limit or
/// the sender is exhausted. The job's gate is asked for each call.
pub(crate) fn send_all<G: Gate, R: Wait>(
    rt: &R,
    queue: &Queue,
    brief: Brief,
    row: u32,
    job: WorkerJob<Sender, G>,
) -> Worked<Sender, SendReceipt>
    requires { IsSending queue.now row job }
    ensures gave { SenderGave queue.now brief.items brief.limit row result }
    ensures asked { SendsByGate G.tells job.gate queue.now brief.items brief.limit row result }
{
    let WorkerJob {
        alloc,
        number,
        pass,
        mut gate,
    } = job;
    let mut sender = pass;
    sender.is_sound();
    let mut turns = Turns::new(brief.limit);
    let mut kept = KeptReceipts::new(alloc);
    let mut begun: u32 = 0;
    let mut accepted: u64 = 0;
    let mut pace = Pace::new();
    while accepted < brief.items {
        let body = body_behind(accepted);
        let before = turns.made;
        match send_body(queue, sender, body, &mut gate, &mut turns) {
            Sent::Answered(after, answer) => {
                sender = after;
                begun += 1;
                if let SendAnswer::Accepted { place } = answer {
                    accepted += 1;
                    kept.keep(SendReceipt {
                        sender: number,
                        number: begun,
                        place,
                        body,
                    });
                    pace.go_on(rt, turns.made - before);
                } else {
                    pace.rest();
                }
            }
            Sent::Worn(after) => {
                return Worked {
                    row,
                    pass: None,
                    left: Some(after.abandon()),
                    made: turns.made,
                    kept,
                };
            }
            Sent::Limited(left) => {
                return Worked {
                    row,
                    pass: None,
                    left: Some(given_up(left)),
                    made: turns.made,
                    kept,
                };
            }
        }
    }
    Worked {
        row,
        pass: Some(sender),
        left: None,
        made: turns.made,
        kept,
    }
}
