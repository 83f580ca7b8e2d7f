//! The queue as a machine, event by event.
use cc_machine::{BeginFault, Event, Kind, Machine, OpenFault};
use cc_model::{
    Answer, Body, Call, Config, ConfigFault, Entry, Item, Pass, SendAnswer, TakeAnswer, pack,
    pack_words, unpack_words,
};
use std::alloc::Global;
use std::process::Abort;

const FIRST_SENDER: Pass = Pass::Sender(1);

const SECOND_SENDER: Pass = Pass::Sender(2);

const FIRST_RECEIVER: Pass = Pass::Receiver(1);

const SECOND_RECEIVER: Pass = Pass::Receiver(2);

/// The events of a lone send that is accepted, of a body of one word.
const SEND: [Kind; 28] = [
    Kind::ResetNext,
    Kind::ResetState,
    Kind::Exchange,
    Kind::WriteRequest,
    Kind::WriteRequest,
    Kind::Link,
    Kind::ReadState,
    Kind::ReadNext,
    Kind::ReadRequest,
    Kind::ReadRequest,
    Kind::ReadObject,
    Kind::ReadObject,
    Kind::ReadObject,
    Kind::ReadPassed,
    Kind::ResetListNode,
    Kind::ResetListNode,
    Kind::WriteItem,
    Kind::WriteItem,
    Kind::ReadObject,
    Kind::LinkLast,
    Kind::WriteObject,
    Kind::WriteObject,
    Kind::WriteObject,
    Kind::WriteAnswer,
    Kind::MarkDone,
    Kind::ReadNext,
    Kind::HandOver,
    Kind::ReadAnswer,
];

/// Those of them at the body, by their places from 0: each is done once for each of its words.
const SEND_WORDS: [usize; 3] = [4, 9, 17];

/// The events of a lone take that gets a body of one word.
const TAKE: [Kind; 23] = [
    Kind::ResetNext,
    Kind::ResetState,
    Kind::Exchange,
    Kind::Link,
    Kind::ReadState,
    Kind::ReadNext,
    Kind::ReadObject,
    Kind::ReadObject,
    Kind::ReadDummyNext,
    Kind::ReadItem,
    Kind::ReadItem,
    Kind::WriteObject,
    Kind::WriteObject,
    Kind::AddPassed,
    Kind::WriteAnswer,
    Kind::WriteAnswer,
    Kind::WriteAnswer,
    Kind::MarkDone,
    Kind::ReadNext,
    Kind::HandOver,
    Kind::ReadAnswer,
    Kind::ReadAnswer,
    Kind::ReadAnswer,
];

const TAKE_WORDS: [usize; 3] = [10, 16, 22];

fn config(senders: u32, receivers: u32, capacity: u32, bound: u32, life: u64) -> Config {
    Config {
        senders,
        receivers,
        capacity,
        bound,
        life,
        per_sender: 4,
        groups: 1,
    }
}

fn accepted(place: u64) -> Answer {
    Answer::Send(SendAnswer::Accepted { place })
}

fn item(place: u64, sender: u32, number: u32, body: Body) -> Item {
    Item {
        place,
        sender,
        number,
        body,
    }
}

fn got(item: Item) -> Answer {
    Answer::Take(TakeAnswer::Got(item))
}

/// A machine of one sender and one receiver, with room for this number of items.
fn opened<R: Abort>(rt: &R, alloc: Global, capacity: u32) -> Machine {
    Machine::open(alloc, &config(1, 1, capacity, 2, 10)).expect(rt, "opens")
}

/// A call that is begun.
fn begins<R: Abort>(rt: &R, machine: &mut Machine, pass: Pass, call: Call) {
    assert_eq!(rt; machine.begin(pass, call), Ok(()));
}

/// A call that isn't begun, for this fault.
fn refuses<R: Abort>(rt: &R, machine: &mut Machine, pass: Pass, call: Call, fault: BeginFault) {
    assert_eq!(rt; machine.begin(pass, call), Err(fault));
}

/// An event of a pass.
fn does<R: Abort>(rt: &R, machine: &mut Machine, pass: Pass, event: Event) {
    assert_eq!(rt; machine.event(pass), event);
}

/// The answer of a pass, if it has one.
fn tells<R: Abort>(rt: &R, machine: &mut Machine, pass: Pass, answer: Option<Answer>) {
    assert_eq!(rt; machine.answer(pass), answer);
}

/// A step of a call that isn't answered before, done this number of times.
fn steps<R: Abort>(rt: &R, machine: &mut Machine, pass: Pass, kind: Kind, times: usize) {
    for _ in 0..times {
        tells(rt, machine, pass, None);
        does(rt, machine, pass, Event::Did(kind));
    }
}

/// The events of a lone call of a body of this number of words: of these kinds, and those at these places once for each
/// word. Returns how many there were, and at which of them the call was decided.
fn events_of<R: Abort>(
    rt: &R,
    machine: &mut Machine,
    pass: Pass,
    kinds: &[Kind],
    at_words: &[usize],
    words: usize,
) -> (usize, usize) {
    let mut events: usize = 0;
    let mut decided = 0;
    for (place, kind) in kinds.iter().enumerate() {
        let times = if at_words.contains(&place) { words } else { 1 };
        steps(rt, machine, pass, *kind, times);
        events = events.wrapping_add(times);
        if *kind == Kind::LinkLast || *kind == Kind::AddPassed {
            decided = events;
        }
    }
    (events, decided)
}

/// Behind the last event of a call its pass is idle, and it is answered once.
fn ends<R: Abort>(rt: &R, machine: &mut Machine, pass: Pass, answer: Answer) {
    does(rt, machine, pass, Event::Idle);
    tells(rt, machine, pass, Some(answer));
    tells(rt, machine, pass, None);
}

/// A lone send: how many events it has, and at which of them it is decided.
fn sends<R: Abort>(rt: &R, machine: &mut Machine, item: Item, due: (usize, usize)) {
    let words = item.body.words().len();
    begins(rt, machine, FIRST_SENDER, Call::Send(item.body));
    let events = events_of(rt, machine, FIRST_SENDER, &SEND, &SEND_WORDS, words);
    assert_eq!(rt; events, due);
    ends(rt, machine, FIRST_SENDER, accepted(item.place));
}

/// A lone take, which gets an item of the first sender.
fn takes<R: Abort>(rt: &R, machine: &mut Machine, item: Item, due: (usize, usize)) {
    let words = item.body.words().len();
    begins(rt, machine, FIRST_RECEIVER, Call::Take);
    let events = events_of(rt, machine, FIRST_RECEIVER, &TAKE, &TAKE_WORDS, words);
    assert_eq!(rt; events, due);
    ends(rt, machine, FIRST_RECEIVER, got(item));
}

/// A take of the first receiver that knew so much of the history.
fn take_knowing(known: u64) -> Entry {
    Entry {
        pass: FIRST_RECEIVER,
        call: Call::Take,
        number: 0,
        known,
    }
}

/// Whether these are the calls of a machine of one group.
fn has_takes(machine: &Machine, calls: &[Entry]) -> bool {
    let history = machine.history();
    history.groups() == 1 && history.takes(0).calls() == calls
}

/// Nodes that had a longer body before are used again for a shorter one, and the other way round.
#[test]
fn lone_calls(rt: HostRuntime) {
    let mut machine = opened(&rt, rt.alloc(), 1);
    for (item, sent, taken) in [
        (
            item(0, 1, 1, Body::four(1, 2, 3, u64::MAX)),
            (37, 29),
            (32, 17),
        ),
        (item(1, 1, 2, Body::one(7)), (28, 20), (23, 14)),
        (item(2, 1, 3, Body::two(0, 5)), (31, 23), (26, 15)),
        (item(3, 1, 4, Body::three(8, 0, 9)), (34, 26), (29, 16)),
    ] {
        sends(&rt, &mut machine, item, sent);
        takes(&rt, &mut machine, item, taken);
    }
    assert!(rt; has_takes(&machine, &[1, 2, 3, 4].map(take_knowing)));
}

#[test]
fn bodies_of_one_to_four_words(rt: HostRuntime) {
    let bodies = [
        None,
        Some(Body::one(1)),
        Some(Body::two(1, 2)),
        Some(Body::three(1, 2, 3)),
        Some(Body::four(1, 2, 3, 4)),
        None,
    ];
    for (count, body) in bodies.into_iter().enumerate() {
        let words = [1, 2, 3, 4, 5].get(..count).unwrap_or(&[]);
        assert_eq!(rt; Body::new(words), body);
        if let Some(body) = body {
            assert_eq!(rt; body.words(), words);
        }
    }
}

#[test]
fn tags(rt: HostRuntime) {
    for (sender, number, words, tag) in [
        (1, 1, 1, 4_294_967_297),
        (1, 1, 2, 281_479_271_677_953),
        (64, u32::MAX, 1, 279_172_874_239),
    ] {
        assert_eq!(rt; pack_words(sender, number, words), tag);
        assert_eq!(rt; unpack_words(tag), (sender, number, words));
    }
    assert_eq!(rt; pack(1, 1), 4_294_967_297);
}

#[test]
fn rows_of_passes(rt: HostRuntime) {
    let config = config(2, 1, 1, 2, 10);
    for (pass, row) in [
        (Pass::Sender(0), None),
        (FIRST_SENDER, Some(0)),
        (SECOND_SENDER, Some(1)),
        (FIRST_RECEIVER, Some(2)),
        (SECOND_RECEIVER, None),
    ] {
        assert_eq!(rt; Machine::row(&config, pass), row);
    }
}

#[test]
fn configurations_that_are_refused(rt: HostRuntime) {
    for (receivers, bound, groups, fault) in [
        (0, 2, 1, ConfigFault::Receivers),
        (1, 2, 0, ConfigFault::Groups),
        (1, 2, 9, ConfigFault::Groups),
        (1, 0, 9, ConfigFault::Bound),
    ] {
        let config = Config {
            groups,
            ..config(1, receivers, 2, bound, 10)
        };
        let refused = Machine::open(rt.alloc(), &config).err();
        assert_eq!(rt; refused, Some(OpenFault::Config(fault)));
    }
}

/// A pass that isn't there begins no call, does nothing and gets nothing.
fn is_not_there<R: Abort>(rt: &R, machine: &mut Machine, pass: Pass) {
    refuses(rt, machine, pass, Call::Take, BeginFault::NoSuchPass);
    does(rt, machine, pass, Event::Idle);
    tells(rt, machine, pass, None);
}

/// A call that is begun. Its pass begins no other one before it has its answer.
fn begins_one<R: Abort>(rt: &R, machine: &mut Machine, pass: Pass, call: Call) {
    begins(rt, machine, pass, call);
    refuses(rt, machine, pass, Call::Close, BeginFault::Busy);
}

/// The answer of a call that has no more events.
fn ends_one<R: Abort>(rt: &R, machine: &mut Machine, pass: Pass, answer: Answer) {
    refuses(rt, machine, pass, Call::Close, BeginFault::Busy);
    tells(rt, machine, pass, Some(answer));
}

/// A send of the first sender.
fn sends_one<R: Abort>(rt: &R, machine: &mut Machine, place: u64) {
    begins_one(rt, machine, FIRST_SENDER, Call::Send(Body::one(5)));
    for _ in 0..28 {
        let _event = machine.event(FIRST_SENDER);
    }
    ends_one(rt, machine, FIRST_SENDER, accepted(place));
}

/// Passes that aren't there, and calls of the other side.
fn refuses_strangers<R: Abort>(rt: &R, machine: &mut Machine) {
    for pass in [
        Pass::Sender(0),
        SECOND_SENDER,
        Pass::Receiver(0),
        SECOND_RECEIVER,
    ] {
        is_not_there(rt, machine, pass);
    }
    for (pass, call) in [
        (FIRST_SENDER, Call::Take),
        (FIRST_RECEIVER, Call::Send(Body::one(5))),
        (FIRST_RECEIVER, Call::Close),
    ] {
        refuses(rt, machine, pass, call, BeginFault::WrongSide);
    }
}

/// A sender that has made all its sends makes no further one, but it closes.
#[test]
fn machine_refuses(rt: HostRuntime) {
    let mut machine = opened(&rt, rt.alloc(), 4);
    refuses_strangers(&rt, &mut machine);
    for place in 0..4 {
        sends_one(&rt, &mut machine, place);
    }
    let send = Call::Send(Body::one(5));
    refuses(&rt, &mut machine, FIRST_SENDER, send, BeginFault::Worn);
    begins(&rt, &mut machine, FIRST_SENDER, Call::Close);
}
