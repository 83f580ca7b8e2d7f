//! Calls that one thread makes in turns, with their answers printed.
ghost use Rattle.std.specs.Prelude.{IfOk, IfSome};
ghost use Rattle.two_threads.specs.Opening.{IsNew};
ghost use Rattle.cc_steps.specs.Walk.{IsOf};

use crate::opening::first_passes;
use cc_model::{Body, Config, Item, TakeAnswer};
use cc_queue::{Opened, Queue, Receiver, Sender, Turn, begin_send, close, take_until, turn_send};
use std::alloc::Global;
use std::io;
use std::sync::Wait;

/// Sends this body, and prints for each turn that it waits. None if it isn't answered in this number of turns, or the sender
/// has sent all that it may.
pub fn send_in_turns<R: Print>(
    rt: &R,
    queue: &Queue,
    sender: Sender,
    body: Body,
    turns: u32,
) -> io::Result<Option<Sender>>
    requires { IsOf queue.now sender }
    ensures { IfOk result (λ s. IfSome s (λ s. IsOf queue.now s)) }
{
    let Ok(mut pending) = begin_send(queue, sender, body) else {
        return Ok(None);
    };
    for turn in 0..turns {
        match turn_send(queue, pending) {
            Turn::Waiting(same) => pending = same,
            Turn::Done {
                pass,
                answer: _,
                served: _,
            } => return Ok(Some(pass)),
        }
        if let Err(fault) = println!(rt; "turn {turn}: it waits") {
            pending.abandon();
            return Err(fault);
        }
    }
    pending.abandon();
    Ok(None)
}

/// Prints the words of an item.
fn print_item<R: Print>(rt: &R, item: &Item) -> io::Result<()> {
    println!(rt; "{:?} from sender {}", item.body.words(), item.sender)
}

/// Takes until the end, and prints the words of each item.
pub fn print_all<R: Wait + Print>(rt: &R, queue: &Queue, receiver: Receiver) -> io::Result<()>
    requires { IsOf queue.now receiver }
{
    let mut receiver = receiver;
    for _ in rt.forever() {
        let (after, answer) = take_until(queue, rt, receiver);
        receiver = after;
        let TakeAnswer::Got(item) = answer else {
            return Ok(());
        };
        print_item(rt, &item)?;
    }
    unreachable!()
}

/// Sends a body of two words and closes. Returns whether both were done.
fn send_and_close<R: Wait + Print>(rt: &R, queue: &Queue, sender: Sender) -> io::Result<bool>
    requires { IsOf queue.now sender }
{
    match send_in_turns(rt, queue, sender, Body::two(7, 8), 10)? {
        Some(sender) => {
            close(queue, rt, sender);
            Ok(true)
        }
        None => Ok(false),
    }
}

/// The first sender sends and closes, and then the first receiver takes all there is.
fn pass_in_turns<R: Wait + Print>(rt: &R, opened: &mut Opened) -> io::Result<()>
    requires { IsNew opened.old }
{
    let Some((sender, receiver)) = first_passes(opened) else {
        return Ok(());
    };
    if send_and_close(rt, &opened.queue, sender)? {
        return print_all(rt, &opened.queue, receiver);
    }
    Ok(())
}

/// Opens a queue for one thread, which sends and then takes.
#[tactic(auto, using(crate::proofs::IsNew::is_new))]
pub fn one_thread<R: Wait + Print>(rt: &R, alloc: Global, config: &Config) -> io::Result<()> {
    match Queue::open(alloc, config) {
        Ok(mut opened) => pass_in_turns(rt, &mut opened),
        Err(_) => Ok(()),
    }
}
