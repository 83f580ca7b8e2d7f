//! Calls that wait for their answer.
ghost use Rattle.std.specs.Prelude.{◌≡◌, ◌<◌, ◌≤◌, IfOk, OnOk, IfErr, OnErr};
ghost use Rattle.cc_queue.specs.Names.{Answer, Call, SendAnswer};
ghost use Rattle.cc_steps.specs.Walk.{IsOf};
ghost use Rattle.cc_queue.specs.Calls.{Completed, SentUntil, TakenUntil, Tried};

use crate::passes::{Receiver, Sender};
use crate::pending::wait_for_answer;
use crate::queue::Queue;
use crate::receiver::begin_take;
use crate::sender::{begin_close, begin_send};
use cc_model::{Body, CloseAnswer, SendAnswer, TakeAnswer};
use crossbeam_utils::Backoff;
use std::sync::Wait;

/// Sends this body, and waits for the answer; it doesn't try again if the queue was full. Err hands the sender back
/// unchanged, if it has begun as many sends as one sender may.
#[inline(always)]
pub fn send<R: Wait>(
    queue: &Queue,
    rt: &R,
    sender: Sender,
    body: Body,
) -> Result<(Sender, SendAnswer), Sender>
    requires { IsOf queue.now sender }
    ensures completed { IfOk result (λ r. Completed sender (Call.Send body) (Answer.Send r.1) r.0) }
    ensures may { OnOk result (sender.stand.begun < sender.setting.config.per_sender) }
    ensures same { IfErr result (λ s. s ≡ sender) }
    ensures worn { OnErr result (sender.setting.config.per_sender ≤ sender.stand.begun) }
{
    let pending = begin_send(queue, sender, body)?;
    pending.is_sound();
    Ok(wait_for_answer(queue, rt, pending))
}

/// Closes the queue, and waits for the answer.
pub fn close<R: Wait>(queue: &Queue, rt: &R, sender: Sender) -> (Sender, CloseAnswer)
    requires { IsOf queue.now sender }
    ensures { Completed sender Call.Close (Answer.Close result.1) result.0 }
{
    let pending = begin_close(queue, sender);
    pending.is_sound();
    wait_for_answer(queue, rt, pending)
}

/// Takes, and waits for the answer.
#[inline(always)]
pub fn take<R: Wait>(queue: &Queue, rt: &R, receiver: Receiver) -> (Receiver, TakeAnswer)
    requires { IsOf queue.now receiver }
    ensures { Completed receiver Call.Take (Answer.Take result.1) result.0 }
{
    let pending = begin_take(queue, receiver);
    pending.is_sound();
    wait_for_answer(queue, rt, pending)
}

/// Lets time pass between two tries of a call that found nothing to take, or no room.
fn rest(backoff: &Backoff) {
    for _ in 0..5u32 {
        backoff.snooze();
    }
}

/// Takes until there is an item, or the queue has ended.
#[inline(always)]
pub fn take_until<R: Wait>(queue: &Queue, rt: &R, receiver: Receiver) -> (Receiver, TakeAnswer)
    requires { IsOf queue.now receiver }
    ensures { TakenUntil receiver result.1 result.0 }
{
    let backoff = Backoff::new();
    let mut receiver = receiver;
    receiver.is_sound();
    for _ in rt.forever() {
        let (after, answer) = take(queue, rt, receiver);
        match answer {
            TakeAnswer::Empty => receiver = after,
            _ => return (after, answer),
        }
        rest(&backoff);
    }
    unreachable!()
}

/// Sends this body, again if the queue was full, until it is accepted, or never will be: the queue is closed, or has had all
/// its items. Err hands the sender back if it has begun as many sends as one sender may, each of which since this call found
/// the queue full; and unchanged if it had begun that many before.
#[inline(always)]
pub fn send_until<R: Wait>(
    queue: &Queue,
    rt: &R,
    sender: Sender,
    body: Body,
) -> Result<(Sender, SendAnswer), Sender>
    requires { IsOf queue.now sender }
    ensures sent { IfOk result (λ r. SentUntil sender body r.1 r.0) }
    ensures may { OnOk result (sender.stand.begun < sender.setting.config.per_sender) }
    ensures full { IfErr result (λ s. Tried (Call.Send body) (Answer.Send SendAnswer.Full) sender s) }
    ensures worn { IfErr result (λ s. s.setting.config.per_sender ≤ s.stand.begun) }
    ensures same { IfErr result (λ s. sender.setting.config.per_sender ≤ sender.stand.begun → s ≡ sender) }
{
    let backoff = Backoff::new();
    let mut sender = sender;
    sender.is_sound();
    for _ in rt.forever() {
        let (after, answer) = send(queue, rt, sender, body)?;
        match answer {
            SendAnswer::Full => sender = after,
            _ => return Ok((after, answer)),
        }
        rest(&backoff);
    }
    unreachable!()
}
