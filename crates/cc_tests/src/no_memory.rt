//! Begins and turns after an opening, which take no memory.
ghost use Rattle.std.specs.Prelude.{◌≡◌, ◌+◌};
ghost use Rattle.cc_steps.specs.Walk.{IsOf, fresh_from};
ghost use Rattle.cc_queue.specs.declared.in_place.SenderCall.{SenderCall};

use crate::waiting::{next_receiver, next_sender};
use cc_model::{Body, CloseAnswer, Config, Item, SendAnswer, TakeAnswer};
use cc_queue::{
    HeldReceiver, HeldSender, Live, OpenFault, Opened, PendingSend, Queue, Receiver, Sender, Turn,
    begin_close, begin_send, turn_close, turn_send,
};
use std::process::Abort;

/// One send of each sender.
const ONCE: Config = Config {
    senders: 2,
    receivers: 1,
    capacity: 2,
    bound: 2,
    life: 10,
    per_sender: 1,
    groups: 1,
};

/// Begins a send that the sender may begin.
fn begins<R: Abort>(rt: &R, queue: &Queue, sender: Sender, body: u64) -> PendingSend
    requires { IsOf queue.now sender }
    ensures { IsOf queue.now result }
{
    match begin_send(queue, sender, Body::one(body)) {
        Ok(pending) => pending,
        Err(_) => panic!(rt; "the sender is worn"),
    }
}

/// A send that waits, begun and turned at once by a sender that stays in its place.
fn waits<R: Abort>(rt: &R, queue: &Queue, sender: Sender, body: u64) -> HeldSender
    requires { IsOf queue.now sender }
    ensures here { IsOf queue.now result.pass }
    ensures sends { result.call ≡ SenderCall.Send }
{
    let mut held = HeldSender::of(sender);
    match held.try_send(queue, Body::one(body)) {
        Ok(Turn::Waiting(())) => held,
        Ok(Turn::Done { answer, .. }) => {
            held.abandon();
            panic!(rt; "the send is answered {answer:?}")
        }
        Err(_) => {
            held.abandon();
            panic!(rt; "the sender is worn")
        }
    }
}

/// A turn of that send, which was accepted at this place, and served by another one.
fn was_served<R: Abort>(rt: &R, queue: &Queue, mut held: HeldSender, place: u64)
    requires here { IsOf queue.now held.pass }
    requires sends { held.call ≡ SenderCall.Send }
{
    let turn = held.turn_send(queue);
    held.abandon();
    match turn {
        Turn::Waiting(()) => panic!(rt; "the send waits"),
        Turn::Done {
            pass: (),
            answer,
            served,
        } => {
            assert_eq!(rt; (answer, served), (SendAnswer::Accepted { place }, 0));
        }
    }
}

/// A turn of a send that is accepted at this place, and serves this number of calls.
fn is_sent<R: Abort>(rt: &R, queue: &Queue, pending: PendingSend, place: u64, serves: u32) -> Sender
    requires { IsOf queue.now pending }
    ensures { IsOf queue.now result }
{
    match turn_send(queue, pending) {
        Turn::Waiting(pending) => {
            pending.abandon();
            panic!(rt; "the send waits")
        }
        Turn::Done {
            pass,
            answer,
            served,
        } => {
            assert_eq!(rt; (answer, served), (SendAnswer::Accepted { place }, serves));
            pass
        }
    }
}

/// A take that gets the first sender's item at once, by a receiver that stays in its place.
fn gets_the_first<R: Abort>(rt: &R, queue: &Queue, receiver: Receiver)
    requires { IsOf queue.now receiver }
{
    let first = Item {
        place: 0,
        sender: 1,
        number: 1,
        body: Body::one(7),
    };
    let mut held = HeldReceiver::of(receiver);
    let turn = held.try_take(queue);
    held.abandon();
    match turn {
        Turn::Waiting(()) => panic!(rt; "the take waits"),
        Turn::Done {
            pass: (),
            answer,
            served,
        } => {
            assert_eq!(rt; (answer, served), (TakeAnswer::Got(first), 1));
        }
    }
}

/// The sender has begun as many sends as it may.
fn is_worn_out<R: Abort>(rt: &R, queue: &Queue, sender: Sender) -> Sender
    requires { IsOf queue.now sender }
    ensures { IsOf queue.now result }
{
    assert!(rt; sender.is_worn());
    match begin_send(queue, sender, Body::one(8)) {
        Ok(pending) => {
            pending.abandon();
            panic!(rt; "a worn sender began")
        }
        Err(sender) => sender,
    }
}

/// A close that is the first, after two items.
fn shuts<R: Abort>(rt: &R, queue: &Queue, sender: Sender) -> Sender
    requires { IsOf queue.now sender }
{
    let pending = begin_close(queue, sender);
    match turn_close(queue, pending) {
        Turn::Waiting(pending) => {
            pending.abandon();
            panic!(rt; "the close waits")
        }
        Turn::Done {
            pass,
            answer,
            served,
        } => {
            assert_eq!(rt; (answer, served), (CloseAnswer::Shut { total: 2 }, 1));
            pass
        }
    }
}

/// One turn serves the sends of both senders; the first item is taken; and an exhausted sender closes.
fn rows<R: Abort>(rt: &R, queue: &Queue, one: Sender, two: Sender, receiver: Receiver)
    requires one { IsOf queue.now one }
    requires two { IsOf queue.now two }
    requires receiver { IsOf queue.now receiver }
{
    let one = begins(rt, queue, one, 7);
    let two = waits(rt, queue, two, 9);
    let mut one = is_sent(rt, queue, one, 0, 2);
    was_served(rt, queue, two, 1);
    let mut receiver = receiver;
    one.meet(&mut receiver);
    gets_the_first(rt, queue, receiver);
    let one = is_worn_out(rt, queue, one);
    shuts(rt, queue, one);
}

/// The queue isn't opened for lack of memory, or each call has its answer. No call but the opening has an allocator or says
/// that memory was refused; `rt try --test --fail-alloc N` refuses the allocation of this number.
#[test]
fn no_memory(rt: HostRuntime) {
    match Queue::open(rt.alloc(), &ONCE) {
        Ok(
            Opened {
                queue,
                mut senders,
                mut receivers,
            },
        ) => {
            let place = senders.len() as u64;
            let one = next_sender(&rt, &queue, 0, &mut senders);
            let two = next_sender(&rt, &queue, 1, &mut senders);
            let receiver = next_receiver(&rt, &queue, place, &mut receivers);
            rows(&rt, &queue, one, two, receiver);
        }
        Err(fault) => assert_eq!(rt; fault, OpenFault::NoMemory),
    }
}
