//! Worked calls, each answer of which is printed: three topics are opened, three machines play calls, and receipts are audited.
//! If memory is refused, the call that met it is named on standard error: an opening or an audit then ends the program, and a
//! begin that was refused is made again, and all that follows is the same.
#![tactic(auto)]

ghost use Rattle.std.specs.Prelude.{◌≡◌, length};

use cc_audit::{SendReceipt, TakeReceipt, Verdict, audit, send_receipts, take_receipts, total};
use cc_broker::{Broker, OpenedBroker};
use cc_machine::{BeginFault, CounterMachine, Event, Machine};
use cc_model::{Answer, Body, Call, Config, Entry, History, Item, Pass};
use std::alloc::{AllocError, Global};
use std::fmt::Debug;
use std::io;
use std::process::ExitCode;

/// More events than a call has that no other call keeps waiting.
const MOST: u32 = 100;

const SMALL: Config = Config {
    senders: 2,
    receivers: 1,
    capacity: 2,
    bound: 2,
    life: 10,
    per_sender: 10,
    groups: 1,
};

/// The same with two groups of receivers.
const GROUPED: Config = Config {
    senders: 2,
    receivers: 1,
    capacity: 2,
    bound: 2,
    life: 10,
    per_sender: 10,
    groups: 2,
};

const SENDER: Pass = Pass::Sender(1);

const RECEIVER: Pass = Pass::Receiver(1);

/// Begins a call, once more if there is no memory. Returns how often there was none; None if the call can't be begun.
fn begin(machine: &mut Machine, pass: Pass, call: Call) -> Option<u32> {
    match machine.begin(pass, call) {
        Ok(()) => Some(0),
        Err(BeginFault::NoMemory) => match machine.begin(pass, call) {
            Ok(()) => Some(1),
            Err(_) => None,
        },
        Err(_) => None,
    }
}

/// Makes a call, from its begin to its answer. Returns how often the begin was refused memory; None if the call can't be begun,
/// or isn't answered.
fn make(machine: &mut Machine, pass: Pass, call: Call) -> Option<u32> {
    let refused = begin(machine, pass, call)?;
    for _ in 0..MOST {
        if machine.event(pass) == Event::Idle {
            break;
        }
    }
    let _answer = machine.answer(pass)?;
    Some(refused)
}

/// Plays calls one after another: an item is passed on, and the queue closed. Returns how many begins were refused memory; None
/// if a call can't be begun, or isn't answered.
fn play(machine: &mut Machine) -> Option<u32> {
    let calls = [
        (SENDER, Call::Send(Body::one(5))),
        (SENDER, Call::Close),
        (SENDER, Call::Send(Body::one(6))),
        (SENDER, Call::Close),
        (RECEIVER, Call::Take),
        (RECEIVER, Call::Take),
        (RECEIVER, Call::Take),
    ];
    let mut refused: u32 = 0;
    for (pass, call) in &calls {
        refused = refused.saturating_add(make(machine, *pass, *call)?);
    }
    Some(refused)
}

/// Counts once by this pass: the number, and how often there was no memory to begin.
fn count(machine: &mut CounterMachine, pass: u32) -> Option<(u64, u32)> {
    let mut refused: u32 = 0;
    if machine.begin(pass, 1) == Err(BeginFault::NoMemory) {
        refused = 1;
        if machine.begin(pass, 1).is_err() {
            return None;
        }
    }
    for _ in 0..MOST {
        if machine.event(pass) == Event::Idle {
            break;
        }
    }
    Some((machine.answer(pass)?, refused))
}

/// The audit of the receipts of a history of one group.
fn audit_history(alloc: Global, history: &History) -> Result<Verdict, AllocError>
    requires { length history.now.takes ≡ 1 }
{
    let sends = send_receipts(alloc, history)?;
    let takes = take_receipts(alloc, history, 0)?;
    audit(alloc, &sends, &takes, total(history))
}

/// The receipt of a send of the first sender.
fn sent(number: u32, place: u64, body: u64) -> SendReceipt {
    SendReceipt {
        sender: 1,
        number,
        place,
        body: Body::one(body),
    }
}

/// The audit of two sends, of which the second item was taken and the first was not.
fn audit_gap(alloc: Global) -> Result<Verdict, AllocError> {
    let sends = [sent(1, 0, 5), sent(2, 1, 6)];
    let takes = [TakeReceipt {
        receiver: 1,
        item: Item {
            place: 1,
            sender: 1,
            number: 2,
            body: Body::one(6),
        },
    }];
    audit(alloc, &sends, &takes, None)
}

/// Prints by which number a name is found, and whether it has a queue.
fn tell_topic(rt: &HostRuntime, broker: &Broker, name: &str) -> Result<(), io::Error> {
    let number = broker.topic(name);
    let is_there = match number {
        Some(number) => broker.queue(number).is_some(),
        None => false,
    };
    println!(rt; "topic {name}: {number:?}, {is_there}")
}

/// Prints the topics by their names, one that is missing, and the passes of each topic. It returns the exit status.
fn tell_topics(rt: &HostRuntime, opened: &OpenedBroker) -> Result<u8, io::Error> {
    for name in ["a", "b", "c", "d"] {
        tell_topic(rt, &opened.broker, name)?;
    }
    for (senders, receivers) in &opened.passes {
        println!(rt; "passes: {} and {}", senders.len(), receivers.len())?;
    }
    Ok(0)
}

/// Prints which call was refused, and why. It returns the exit status.
fn tell_fault<F: Debug>(rt: &HostRuntime, call: &str, fault: &F) -> Result<u8, io::Error> {
    eprintln!(rt; "{call}: {fault:?}")?;
    Ok(3)
}

/// Prints how many begins were refused memory, if any were.
fn tell_again(rt: &HostRuntime, refused: u32) -> Result<(), io::Error> {
    if refused == 0 {
        return Ok(());
    }
    eprintln!(rt; "begin: {refused} refused, and made again")
}

/// Prints the calls of a side with their answers, a line for each.
fn tell_side(rt: &HostRuntime, calls: &[Entry], answers: &[Answer]) -> Result<(), io::Error> {
    for (call, answer) in calls.iter().zip(answers) {
        println!(rt; "{call:?} -> {answer:?}")?;
    }
    Ok(())
}

/// Prints the calls of a history of one group.
fn tell_calls(rt: &HostRuntime, history: &History) -> Result<(), io::Error>
    requires { length history.now.takes ≡ 1 }
{
    let (sends, takes) = (history.sends(), history.takes(0));
    tell_side(rt, sends.calls(), sends.answers())?;
    tell_side(rt, takes.calls(), takes.answers())
}

/// Prints the verdict on the receipts of a history of one group, and on receipts with a gap. It returns the exit status.
fn tell_audits(rt: &HostRuntime, history: &History) -> Result<u8, io::Error>
    requires { length history.now.takes ≡ 1 }
{
    let (Ok(clean), Ok(gap)) = (audit_history(rt.alloc(), history), audit_gap(rt.alloc())) else {
        return tell_fault(rt, "audit", &AllocError);
    };
    println!(rt; "audits: {clean:?}, {gap:?}")?;
    Ok(0)
}

/// Prints the calls of a history of one group and the verdict on its receipts, and of any other the number of its groups. The
/// answer is the exit status.
fn tell_history(rt: &HostRuntime, history: &History) -> Result<u8, io::Error> {
    if history.groups() != 1 {
        println!(rt; "groups: {}", history.groups())?;
        return Ok(0);
    }
    tell_calls(rt, history)?;
    tell_audits(rt, history)
}

/// Plays a machine of a list, and prints its answers. Returns the exit status.
fn play_list(rt: &HostRuntime, machine: &mut Machine) -> Result<u8, io::Error> {
    let Some(refused) = play(machine) else {
        return Ok(1);
    };
    tell_again(rt, refused)?;
    tell_history(rt, machine.history())
}

/// Counts by two passes of a machine, and prints the numbers. Returns the exit status.
fn play_counter(rt: &HostRuntime, machine: &mut CounterMachine) -> Result<u8, io::Error> {
    let (Some((first, once)), Some((second, twice))) = (count(machine, 1), count(machine, 2)) else {
        return Ok(1);
    };
    tell_again(rt, once.saturating_add(twice))?;
    println!(rt; "counted {first} and {second}")?;
    Ok(0)
}

/// Opens three topics, the second with two groups, and prints them. Returns the exit status.
fn open_topics(rt: &HostRuntime) -> Result<u8, io::Error> {
    match Broker::open(rt.alloc(), &[("a", SMALL), ("b", GROUPED), ("c", SMALL)]) {
        Ok(opened) => tell_topics(rt, &opened),
        Err(fault) => tell_fault(rt, "broker", &fault),
    }
}

/// Opens a machine of a list, and plays it. The answer is the exit status.
fn open_list(rt: &HostRuntime, config: &Config) -> Result<u8, io::Error> {
    match Machine::open(rt.alloc(), config) {
        Ok(mut machine) => play_list(rt, &mut machine),
        Err(fault) => tell_fault(rt, "machine", &fault),
    }
}

/// Opens a machine of a counter, and plays it. The answer is the exit status.
fn open_counter(rt: &HostRuntime) -> Result<u8, io::Error> {
    match CounterMachine::open(rt.alloc(), &SMALL) {
        Ok(mut machine) => play_counter(rt, &mut machine),
        Err(fault) => tell_fault(rt, "machine", &fault),
    }
}

/// Opens a machine of two groups, one of one group and one of a counter, each as the one before it played. The answer is the
/// exit status.
fn open_machines(rt: &HostRuntime) -> Result<u8, io::Error> {
    match open_list(rt, &GROUPED)? {
        0 => match open_list(rt, &SMALL)? {
            0 => open_counter(rt),
            status => Ok(status),
        },
        status => Ok(status),
    }
}

fn main(rt: HostRuntime) -> Result<ExitCode, io::Error> {
    let status = match open_topics(&rt)? {
        0 => open_machines(&rt)?,
        status => status,
    };
    Ok(ExitCode::from(status))
}
