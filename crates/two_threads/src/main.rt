//! One thread sends the numbers 1 to 100 and closes, another takes until the end and adds them up. Then one thread sends an
//! item in turns, closes, and takes what there is. At last one thread sends an item and hands a note on to another, which takes it.
#![tactic(auto)]

ghost use Rattle.std.specs.Prelude.{◌≡◌, IfSome};
ghost use Rattle.std.specs.Thread.{IsSync};
ghost use Rattle.two_threads.specs.Opening.{IsNew};
ghost use Rattle.cc_steps.specs.Walk.{IsOf};

mod clauses;
mod handed_on;
mod in_turns;
mod opening;

use cc_model::{Body, Config, SendAnswer, TakeAnswer};
use cc_queue::{Opened, Queue, Receiver, Sender, close, send_until, take_until};
use handed_on::handed_on;
use in_turns::one_thread;
use opening::first_passes;
use std::alloc::Global;
use std::io;
use std::process::ExitCode;
use std::sync::Wait;
use std::thread::{Threads, join};

/// Sends the numbers 1 to 100, each again if the queue is full, and closes the queue. None if a send isn't accepted: the queue
/// is closed then too, so that nobody waits for an item that doesn't come.
fn send_all<R: Wait>(rt: &R, queue: &Queue, sender: Sender) -> Option<u64>
    requires { IsOf queue.now sender }
{
    let mut sender = sender;
    for number in 1..101u64 {
        match send_until(queue, rt, sender, Body::one(number)) {
            Ok((after, SendAnswer::Accepted { place: _ })) => sender = after,
            Ok((after, _)) => {
                close(queue, rt, after);
                return None;
            }
            Err(worn) => {
                close(queue, rt, worn);
                return None;
            }
        }
    }
    close(queue, rt, sender);
    Some(100)
}

/// Takes until the end, and adds up the first words of what was sent.
fn take_all<R: Wait>(rt: &R, queue: &Queue, receiver: Receiver) -> u64
    requires { IsOf queue.now receiver }
{
    let mut sum = 0u64;
    let mut receiver = receiver;
    for _ in rt.forever() {
        let (after, answer) = take_until(queue, rt, receiver);
        receiver = after;
        match answer {
            TakeAnswer::Got(item) => sum = sum.wrapping_add(item.body.words()[0]),
            _ => return sum,
        }
    }
    unreachable!()
}

/// The sender and the receiver on a thread each.
fn pass<R: Threads + Wait + Sync>(
    rt: &R,
    queue: &Queue,
    sender: Sender,
    receiver: Receiver,
) -> (Option<u64>, u64)
    requires { IsOf queue.now sender × IsOf queue.now receiver }
{
    join(
        rt,
        move || -> Option<u64>
            requires { IsSync R.row × IsOf queue.now sender }
        { send_all(rt, queue, sender) },
        move || -> u64
            requires { IsSync R.row × IsOf queue.now receiver }
        { take_all(rt, queue, receiver) },
    )
}

/// The first passes of a queue that was just opened, on a thread each.
fn pass_first<R: Threads + Wait + Sync>(rt: &R, opened: &mut Opened) -> Option<(Option<u64>, u64)>
    requires { IsNew opened.old }
{
    let (sender, receiver) = first_passes(opened)?;
    Some(pass(rt, &opened.queue, sender, receiver))
}

/// Opens a queue for two threads. None if it isn't opened.
#[tactic(auto, using(crate::proofs::IsNew::is_new))]
fn two_threads<R: Threads + Wait + Sync>(
    rt: &R,
    alloc: Global,
    config: &Config,
) -> Option<(Option<u64>, u64)> {
    match Queue::open(alloc, config) {
        Ok(mut opened) => pass_first(rt, &mut opened),
        Err(_) => None,
    }
}

fn main(rt: HostRuntime) -> io::Result<ExitCode> {
    let config = Config {
        senders: 1,
        receivers: 1,
        capacity: 8,
        bound: 4,
        life: 1000,
        per_sender: u32::MAX, // each try counts, also one that found the queue full
        groups: 1,
    };
    let Some((sent, sum)) = two_threads(&rt, rt.alloc(), &config) else {
        return Ok(ExitCode::FAILURE);
    };
    println!(rt; "sent {}, sum {sum}", sent.unwrap_or(0))?;
    one_thread(&rt, rt.alloc(), &config)?;
    if let Some(item) = handed_on(&rt, rt.alloc(), &config, Body::one(9)) {
        println!(rt; "handed on {}", item.body.words()[0])?;
    }
    Ok(ExitCode::SUCCESS)
}
