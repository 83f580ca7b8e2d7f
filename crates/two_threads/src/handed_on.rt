//! An item that one thread sends and another takes, with a note handed on in between: that the item is there is proved, so the
//! code that takes has no answer but Got to handle.
ghost use Rattle.std.specs.Prelude.{◌≡◌, [], IfSome};
ghost use Rattle.std.specs.Thread.{IsSync};
ghost use Rattle.two_threads.specs.Opening.{IsNew};
ghost use Rattle.cc_steps.specs.Noted.{IsNoteOf};
ghost use Rattle.cc_steps.specs.Walk.{IsOf};
ghost use Rattle.two_threads.specs.HandedOn.{BeginsWith, HasFirst, IsFirst};

use crate::opening::first_passes;
use cc_model::{Body, Config, Item, SendAnswer, TakeAnswer};
use cc_queue::{Note, Opened, Queue, Receiver, Sender, send, take_after};
use std::alloc::Global;
use std::sync::Wait;
use std::thread::{Threads, join};

/// The only sender of a queue makes its first send, and then notes what it has seen. None if the send isn't accepted.
fn send_first<R: Wait>(rt: &R, queue: &Queue, sender: Sender, body: Body) -> Option<Note>
    requires here { IsOf queue.now sender }
    requires first { sender.made ≡ [] }
    requires alone { queue.now.setting.config.senders ≡ 1 }
    ensures { IfSome result (λ n. IsNoteOf queue.now n × BeginsWith n body) }
{
    match send(queue, rt, sender, body) {
        Ok((mut sender, SendAnswer::Accepted { place: _ })) => Some(sender.note()),
        _ => None,
    }
}

/// The only receiver of its group heeds the note and makes its first take. It gets the first item, and no other answer.
fn take_first<R: Wait>(rt: &R, queue: &Queue, receiver: Receiver, note: Note) -> Item
    requires here { IsOf queue.now receiver }
    requires there { IsNoteOf queue.now note }
    requires first { receiver.made ≡ [] }
    requires alone { queue.now.setting.config.receivers ≡ 1 }
    requires sent { HasFirst note }
    ensures { IsFirst note result }
{
    let (_, answer) = take_after(queue, rt, receiver, note);
    let TakeAnswer::Got(item) = answer else {
        unreachable!()
    };
    item
}

/// One thread sends the body, and gives a note back by its join; then another heeds the note and takes. It gets that body. None
/// if the send isn't accepted.
fn hand_on<R: Threads + Wait + Sync>(
    rt: &R,
    queue: &Queue,
    sender: Sender,
    receiver: Receiver,
    body: Body,
) -> Option<Item>
    requires sender { IsOf queue.now sender × (sender.made ≡ []) × (queue.now.setting.config.senders ≡ 1) }
    requires receiver { IsOf queue.now receiver × (receiver.made ≡ []) × (queue.now.setting.config.receivers ≡ 1) }
    ensures { IfSome result (λ item. item.body ≡ body) }
{
    let (note, ()) = join(
        rt,
        move || -> Option<Note>
            requires { IsSync R.row × IsOf queue.now sender × (sender.made ≡ []) × (queue.now.setting.config.senders ≡ 1) }
            ensures { IfSome result (λ n. IsNoteOf queue.entry.now n × BeginsWith n body) }
        { send_first(rt, queue, sender, body) },
        || (),
    );
    let note = note?;
    let (item, ()) = join(
        rt,
        move || -> Item
            requires { IsSync R.row × IsOf queue.now receiver × IsNoteOf queue.now note × (receiver.made ≡ []) × (queue.now.setting.config.receivers ≡ 1) × HasFirst note }
            ensures { IsFirst note result }
        { take_first(rt, queue, receiver, note) },
        || (),
    );
    Some(item)
}

/// The first passes of a queue for two threads, on a thread each.
fn hand_on_first<R: Threads + Wait + Sync>(rt: &R, opened: &mut Opened, body: Body) -> Option<Item>
    requires opened { IsNew opened.old }
    requires alone { (opened.old.queue.setting.config.senders ≡ 1) × (opened.old.queue.setting.config.receivers ≡ 1) }
    ensures { IfSome result (λ item. item.body ≡ body) }
{
    let (sender, receiver) = first_passes(opened)?;
    hand_on(rt, &opened.queue, sender, receiver, body)
}

/// Opens a queue for one sender and one receiver, and hands a body on through it. None if it isn't opened, or the send isn't
/// accepted.
pub fn handed_on<R: Threads + Wait + Sync>(
    rt: &R,
    alloc: Global,
    config: &Config,
    body: Body,
) -> Option<Item>
    requires { (config.now.senders ≡ 1) × (config.now.receivers ≡ 1) }
    ensures { IfSome result (λ item. item.body ≡ body) }
{
    match Queue::open(alloc, config) {
        Ok(mut opened) => hand_on_first(rt, &mut opened, body),
        Err(_) => None,
    }
}
