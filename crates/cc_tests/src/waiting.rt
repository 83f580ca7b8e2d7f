//! Calls that wait for their answers, on two topics of a broker and in two groups of one queue, by one thread.
ghost use Rattle.std.specs.Prelude.{◌+◌};
ghost use Rattle.cc_steps.specs.Walk.{IsOf, fresh_from};
ghost use Rattle.cc_broker.specs.Opened.{AreItsPasses};

use cc_broker::{Broker, OpenedTopic};
use cc_model::{Body, CloseAnswer, Config, Item, Pass, SendAnswer, TakeAnswer};
use cc_queue::{
    Live, Opened, Queue, Receiver, Sender, begin_take, close, send, send_until, take, take_until,
};
use std::process::Abort;
use std::sync::Wait;
use std::test::Fail;

/// Room for one item, and three sends of each sender.
const NARROW: Config = Config {
    senders: 2,
    receivers: 2,
    capacity: 1,
    bound: 2,
    life: 10,
    per_sender: 3,
    groups: 1,
};

/// Takes the first sender out of the list, the one at this place among all passes.
pub fn next_sender<R: Abort>(rt: &R, queue: &Queue, place: u64, senders: &mut Vec<Sender>) -> Sender
    requires { fresh_from queue.now place senders.old.items }
    ensures first { IsOf queue.now result }
    ensures rest { fresh_from queue.now (place + 1) senders.new.items }
{
    assert!(rt; !senders.is_empty(), "a sender is missing");
    senders.remove(0)
}

/// Takes the first receiver out of the list.
pub fn next_receiver<R: Abort>(
    rt: &R,
    queue: &Queue,
    place: u64,
    receivers: &mut Vec<Receiver>,
) -> Receiver
    requires { fresh_from queue.now place receivers.old.items }
    ensures first { IsOf queue.now result }
    ensures rest { fresh_from queue.now (place + 1) receivers.new.items }
{
    assert!(rt; !receivers.is_empty(), "a receiver is missing");
    receivers.remove(0)
}

/// The first item of this sender.
fn got(place: u64, sender: u32, body: u64) -> TakeAnswer {
    TakeAnswer::Got(Item {
        place,
        sender,
        number: 1,
        body: Body::one(body),
    })
}

fn accepted(place: u64) -> Option<SendAnswer> {
    Some(SendAnswer::Accepted { place })
}

/// A send, or one that is made until the answer isn't Full. It returns this, or its sender is exhausted; and its sender has
/// begun this number of sends.
fn sends<R: Abort + Wait>(
    rt: &R,
    queue: &Queue,
    sender: Sender,
    body: u64,
    until: bool,
    due: (Option<SendAnswer>, u32),
) -> Sender
    requires { IsOf queue.now sender }
    ensures { IsOf queue.now result }
{
    let body = Body::one(body);
    let told = if until {
        send_until(queue, rt, sender, body)
    } else {
        send(queue, rt, sender, body)
    };
    let (sender, answer) = match told {
        Ok((sender, answer)) => (sender, Some(answer)),
        Err(sender) => (sender, None),
    };
    assert_eq!(rt; (answer, sender.begun()), due);
    assert_eq!(rt; sender.is_worn(), due.1 == NARROW.per_sender);
    sender
}

/// A take, or one that is made until there is an item or the end, which is answered so.
fn takes<R: Abort + Wait>(
    rt: &R,
    queue: &Queue,
    receiver: Receiver,
    until: bool,
    due: TakeAnswer,
) -> Receiver
    requires { IsOf queue.now receiver }
    ensures { IsOf queue.now result }
{
    let (receiver, answer) = if until {
        take_until(queue, rt, receiver)
    } else {
        take(queue, rt, receiver)
    };
    assert_eq!(rt; answer, due);
    receiver
}

/// A close that is answered so.
fn closes<R: Abort + Wait>(rt: &R, queue: &Queue, sender: Sender, due: CloseAnswer) -> Sender
    requires { IsOf queue.now sender }
    ensures { IsOf queue.now result }
{
    let (sender, answer) = close(queue, rt, sender);
    assert_eq!(rt; answer, due);
    sender
}

/// A sender fills a queue for one item, and is exhausted.
fn wear_out<R: Abort + Wait>(rt: &R, queue: &Queue, sender: Sender) -> Sender
    requires { IsOf queue.now sender }
    ensures { IsOf queue.now result }
{
    let sender = sends(rt, queue, sender, 5, true, (accepted(0), 1));
    let sender = sends(rt, queue, sender, 6, false, (Some(SendAnswer::Full), 2));
    let sender = sends(rt, queue, sender, 6, true, (None, 3));
    sends(rt, queue, sender, 6, true, (None, 3))
}

/// The item of the exhausted sender is taken, and the next one's, and then there is the end.
fn end<R: Abort + Wait>(
    rt: &R,
    queue: &Queue,
    worn: Sender,
    other: Sender,
    receiver: Receiver,
) -> (Sender, Sender, Receiver)
    requires worn { IsOf queue.now worn }
    requires other { IsOf queue.now other }
    requires receiver { IsOf queue.now receiver }
    ensures worn { IsOf queue.now result.0 }
    ensures other { IsOf queue.now result.1 }
    ensures receiver { IsOf queue.now result.2 }
{
    let receiver = takes(rt, queue, receiver, false, got(0, 1, 5));
    let receiver = takes(rt, queue, receiver, false, TakeAnswer::Empty);
    let other = sends(rt, queue, other, 7, false, (accepted(1), 1));
    let worn = closes(rt, queue, worn, CloseAnswer::Shut { total: 2 });
    let other = sends(rt, queue, other, 8, true, (Some(SendAnswer::Closed), 2));
    let other = closes(rt, queue, other, CloseAnswer::Already { total: 2 });
    let receiver = takes(rt, queue, receiver, true, got(1, 2, 7));
    let receiver = takes(rt, queue, receiver, true, TakeAnswer::Ended { total: 2 });
    (worn, other, receiver)
}

/// The calls of a topic's two senders and its first receiver, and then all its passes meet.
fn play<R: Abort + Wait>(rt: &R, topic: OpenedTopic<'_>)
    requires { AreItsPasses topic.queue.now (topic.senders, topic.receivers) }
{
    let OpenedTopic {
        queue,
        mut senders,
        mut receivers,
    } = topic;
    let place = senders.len() as u64;
    assert_eq!(rt; place, 2);
    let one = next_sender(rt, queue, 0, &mut senders);
    let two = next_sender(rt, queue, 1, &mut senders);
    let first = next_receiver(rt, queue, place, &mut receivers);
    let mut second = next_receiver(rt, queue, place + 1, &mut receivers);
    let worn = wear_out(rt, queue, one);
    let (mut one, mut two, mut first) = end(rt, queue, worn, two, first);
    one.meet(&mut two);
    first.meet(&mut second);
    one.meet(&mut first);
    takes(rt, queue, second, false, TakeAnswer::Ended { total: 2 });
}

/// Each call that waits, on each topic: what is sent to one isn't in the other.
#[test]
fn each_waiting_call(rt: HostRuntime) -> Result<(), Fail> {
    let opened = Broker::open(rt.alloc(), &[("orders", NARROW), ("letters", NARROW)])?;
    let mut passes = opened.passes;
    let broker = opened.broker;
    let orders = broker
        .next_topic(0, &mut passes)
        .expect(&rt, "the first topic");
    play(&rt, orders);
    let letters = broker
        .next_topic(1, &mut passes)
        .expect(&rt, "the second topic");
    play(&rt, letters);
    assert!(rt; passes.is_empty());
    Ok(())
}

/// Two groups of one receiver each.
const GROUPS: Config = Config {
    receivers: 1,
    groups: 2,
    ..NARROW
};

/// While a take of one group is begun and nothing more, the other group's is answered: their chains have no node in common.
#[test]
fn each_group(rt: HostRuntime) -> Result<(), Fail> {
    let Opened {
        queue,
        mut senders,
        mut receivers,
    } = Queue::open(rt.alloc(), &GROUPS)?;
    let place = senders.len() as u64;
    let sender = next_sender(&rt, &queue, 0, &mut senders);
    let one = next_receiver(&rt, &queue, place, &mut receivers);
    let two = next_receiver(&rt, &queue, place + 1, &mut receivers);
    sends(&rt, &queue, sender, 5, false, (accepted(0), 1));
    let begun = begin_take(&queue, one);
    takes(&rt, &queue, two, false, got(0, 1, 5));
    let given_up = begun.abandon();
    assert!(rt;
        given_up.pass() == Pass::Receiver(1),
        "another pass was given up"
    );
    Ok(())
}
