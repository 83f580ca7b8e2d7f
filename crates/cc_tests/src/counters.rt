//! The counter, event by event.
use cc_machine::{BeginFault, CounterMachine, Event, Kind, OpenFault};
use cc_model::{Config, ConfigFault};
use std::alloc::Global;
use std::process::Abort;

fn config(senders: u32, bound: u32, per_sender: u32) -> Config {
    Config {
        senders,
        receivers: 1,
        capacity: 1,
        bound,
        life: 1000,
        per_sender,
        groups: 1,
    }
}

fn opened<R: Abort>(rt: &R, alloc: Global, config: &Config) -> CounterMachine {
    CounterMachine::open(alloc, config).expect(rt, "opens")
}

/// A call that is begun.
fn begins<R: Abort>(rt: &R, machine: &mut CounterMachine, pass: u32) {
    assert_eq!(rt; machine.begin(pass, 5), Ok(()));
}

/// A call that isn't begun, for this fault.
fn refuses<R: Abort>(rt: &R, machine: &mut CounterMachine, pass: u32, fault: BeginFault) {
    assert_eq!(rt; machine.begin(pass, 6), Err(fault));
}

/// An event of a pass.
fn does<R: Abort>(rt: &R, machine: &mut CounterMachine, pass: u32, event: Event) {
    assert_eq!(rt; machine.event(pass), event);
}

/// The answer of a pass, if it has one.
fn tells<R: Abort>(rt: &R, machine: &mut CounterMachine, pass: u32, answer: Option<u64>) {
    assert_eq!(rt; machine.answer(pass), answer);
}

/// Lets a pass do this number of events, each of which is a step, and gives no answer before.
fn steps<R: Abort>(rt: &R, machine: &mut CounterMachine, pass: u32, events: u32) {
    for _ in 0..events {
        tells(rt, machine, pass, None);
        assert_ne!(rt; machine.event(pass), Event::Idle);
    }
}

/// The last event of a call, which isn't answered before.
fn reads_answer<R: Abort>(rt: &R, machine: &mut CounterMachine, pass: u32) {
    tells(rt, machine, pass, None);
    does(rt, machine, pass, Event::Did(Kind::ReadAnswer));
    does(rt, machine, pass, Event::Idle);
}

/// The last event of a call. No further call is begun before its answer is taken, once.
fn ends<R: Abort>(rt: &R, machine: &mut CounterMachine, pass: u32, number: u64) {
    reads_answer(rt, machine, pass);
    refuses(rt, machine, pass, BeginFault::Busy);
    tells(rt, machine, pass, Some(number));
    tells(rt, machine, pass, None);
}

/// A lone call with this bound: it has this number of events before its last one.
fn counts_alone<R: Abort>(rt: &R, alloc: Global, bound: u32, events: u32) {
    let mut machine = opened(rt, alloc, &config(1, bound, 1));
    begins(rt, &mut machine, 1);
    steps(rt, &mut machine, 1, events);
    ends(rt, &mut machine, 1, 0);
}

#[test]
fn counter_rows(rt: HostRuntime) {
    counts_alone(&rt, rt.alloc(), 2, 16);
    counts_alone(&rt, rt.alloc(), 1, 15);
}

/// Events of three passes by turns.
const TURNS: [(u32, u32); 6] = [(1, 3), (2, 6), (3, 6), (1, 19), (2, 1), (3, 10)];

#[test]
fn counter_row_of_three(rt: HostRuntime) {
    let mut machine = opened(&rt, rt.alloc(), &config(3, 2, 1));
    for pass in 1..4 {
        begins(&rt, &mut machine, pass);
    }
    for (pass, events) in TURNS {
        steps(&rt, &mut machine, pass, events);
    }
    for pass in 1..4 {
        ends(&rt, &mut machine, pass, u64::from(pass) - 1);
    }
}

#[test]
fn counter_without_a_bound(rt: HostRuntime) {
    let narrow = CounterMachine::open(rt.alloc(), &config(3, 0, 0));
    assert_eq!(rt; narrow.err(), Some(OpenFault::Config(ConfigFault::Bound)));
}

/// A pass that isn't there begins no call, does nothing and gets nothing.
fn is_not_there<R: Abort>(rt: &R, machine: &mut CounterMachine, pass: u32) {
    refuses(rt, machine, pass, BeginFault::NoSuchPass);
    does(rt, machine, pass, Event::Idle);
    tells(rt, machine, pass, None);
}

/// A call of a pass that was idle before. It begins no other one meanwhile.
fn begins_one<R: Abort>(rt: &R, machine: &mut CounterMachine, pass: u32) {
    does(rt, machine, pass, Event::Idle);
    begins(rt, machine, pass);
    refuses(rt, machine, pass, BeginFault::Busy);
}

/// A whole call of a lone pass with bound 1.
fn counts<R: Abort>(rt: &R, machine: &mut CounterMachine, number: u64) {
    begins_one(rt, machine, 1);
    steps(rt, machine, 1, 15);
    ends(rt, machine, 1, number);
}

#[test]
fn counter_refuses(rt: HostRuntime) {
    let mut machine = opened(&rt, rt.alloc(), &config(1, 1, 2));
    is_not_there(&rt, &mut machine, 0);
    is_not_there(&rt, &mut machine, 2);
    counts(&rt, &mut machine, 0);
    counts(&rt, &mut machine, 1);
    refuses(&rt, &mut machine, 1, BeginFault::Worn);
}

/// Which pass got which number, in the order of the answers, by a model of the algorithm in another language: 400 events
/// of three passes with bound 2, each of the pass that the numbers below choose.
const ANSWERS: [(u32, u64); 14] = [
    (3, 0),
    (2, 1),
    (3, 3),
    (1, 2),
    (3, 5),
    (2, 4),
    (2, 7),
    (1, 6),
    (3, 8),
    (1, 9),
    (3, 11),
    (2, 10),
    (1, 12),
    (2, 14),
];

/// An event of a pass, which begins a call if it is idle.
fn goes_on(machine: &mut CounterMachine, pass: u32) -> Option<u64> {
    let _begun = machine.begin(pass, 1);
    let _event = machine.event(pass);
    machine.answer(pass)
}

/// An answer is that of the model at this place.
fn is_due<R: Abort>(rt: &R, place: usize, pass: u32, answer: u64) {
    assert_eq!(rt; ANSWERS.get(place), Some(&(pass, answer)));
}

#[test]
fn counter_in_any_order(rt: HostRuntime) {
    let mut machine = opened(&rt, rt.alloc(), &config(3, 2, 100));
    let mut number: u64 = 7;
    let mut told: usize = 0;
    for _ in 0..400 {
        number = number.wrapping_mul(1103515245).wrapping_add(12345) % 2147483648;
        let pass = (number / 65536 % 3) as u32 + 1;
        if let Some(answer) = goes_on(&mut machine, pass) {
            is_due(&rt, told, pass, answer);
            told = told.wrapping_add(1);
        }
    }
    assert_eq!(rt; told, ANSWERS.len());
}
