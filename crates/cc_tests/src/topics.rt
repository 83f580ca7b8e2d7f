//! Names and numbers of topics, and what the opening refuses.
use cc_broker::{Broker, BrokerFault, OpenedBroker};
use cc_model::{Config, ConfigFault};
use cc_queue::OpenFault;
use std::alloc::Global;
use std::process::Abort;

const SMALL: Config = Config {
    senders: 2,
    receivers: 1,
    capacity: 2,
    bound: 2,
    life: 10,
    per_sender: 10,
    groups: 1,
};

/// Valid too, with other numbers of passes.
const OTHER: Config = Config {
    senders: 1,
    receivers: 3,
    ..SMALL
};

const NO_BOUND: Config = Config { bound: 0, ..SMALL };

const NO_LIFE: Config = Config { life: 0, ..SMALL };

/// 65 different letters and signs.
const LETTERS: &str = "ABCDEFGHIJKLMNOPQRSTUVWXYZabcdefghijklmnopqrstuvwxyz0123456789+-*";

/// A broker of these topics.
fn opened<R: Abort>(rt: &R, alloc: Global, topics: &[(&str, Config)]) -> OpenedBroker {
    Broker::open(alloc, topics).expect(rt, "the broker opens")
}

/// Why these topics aren't opened.
fn fault_of<R: Abort>(rt: &R, alloc: Global, topics: &[(&str, Config)]) -> BrokerFault {
    match Broker::open(alloc, topics) {
        Ok(_) => panic!(rt; "the broker opens"),
        Err(fault) => fault,
    }
}

/// This number of topics, each named by a letter of its own.
fn by_letters<R: Abort>(rt: &R, alloc: Global, count: usize) -> Vec<(&'static str, Config)> {
    let mut topics = Vec::new(alloc);
    for place in 0..count {
        let name = LETTERS.get(place..place.saturating_add(1)).unwrap_or("");
        topics.push((name, SMALL)).expect(rt, "memory");
    }
    topics
}

/// By which number a name is found.
fn finds<R: Abort>(rt: &R, broker: &Broker, name: &str, number: Option<usize>) {
    assert_eq!(rt; broker.topic(name), number);
}

/// Whether there is a queue of this number.
fn has_queue<R: Abort>(rt: &R, broker: &Broker, number: usize, is_there: bool) {
    assert_eq!(rt; broker.queue(number).is_some(), is_there);
}

/// A broker of these topics finds each of them by its place, and none by these names; and it has exactly that number of queues.
fn finds_each<R: Abort>(rt: &R, alloc: Global, topics: &[(&str, Config)], strangers: &[&str]) {
    let broker = opened(rt, alloc, topics).broker;
    for (place, (name, _)) in topics.iter().enumerate() {
        finds(rt, &broker, name, Some(place));
        has_queue(rt, &broker, place, true);
    }
    for name in strangers {
        finds(rt, &broker, name, None);
    }
    has_queue(rt, &broker, topics.len(), false);
}

/// A topic has this number of senders and of receivers.
fn has_passes<R: Abort>(
    rt: &R,
    broker: &OpenedBroker,
    number: usize,
    senders: usize,
    receivers: usize,
) {
    match broker.passes.get(number) {
        Some(passes) => assert_eq!(rt; (passes.0.len(), passes.1.len()), (senders, receivers)),
        None => panic!(rt; "a topic is missing"),
    }
}

/// Each topic has its own configuration.
#[test]
fn two_configurations(rt: HostRuntime) {
    let broker = opened(&rt, rt.alloc(), &[("a", SMALL), ("b", OTHER)]);
    has_passes(&rt, &broker, 0, 2, 1);
    has_passes(&rt, &broker, 1, 1, 3);
}

#[test]
fn names_and_numbers(rt: HostRuntime) {
    finds_each(&rt, rt.alloc(), &[("a", SMALL), ("b", SMALL)], &["c"]);
}

#[test]
fn no_topics(rt: HostRuntime) {
    finds_each(&rt, rt.alloc(), &[], &[""]);
    assert!(rt; opened(&rt, rt.alloc(), &[]).passes.is_empty());
}

/// These topics aren't opened, for this fault.
fn is_refused<R: Abort>(rt: &R, alloc: Global, topics: &[(&str, Config)], fault: BrokerFault) {
    assert_eq!(rt; fault_of(rt, alloc, topics), fault);
}

/// Too many topics are reported first, and then a name that occurs twice, by the first place at which one occurs again, and
/// before any configuration.
#[test]
fn double_names(rt: HostRuntime) {
    let (a, b) = (("a", SMALL), ("b", SMALL));
    is_refused(&rt, rt.alloc(), &[a, b, a], BrokerFault::DoubleName(2));
    is_refused(&rt, rt.alloc(), &[a, b, b, a], BrokerFault::DoubleName(2));
    is_refused(&rt, rt.alloc(), &[a; 65], BrokerFault::TooMany);
    let topics = [("a", NO_BOUND), a];
    is_refused(&rt, rt.alloc(), &topics, BrokerFault::DoubleName(1));
}

/// The first configuration that is out of its ranges.
#[test]
fn refused(rt: HostRuntime) {
    let fault = BrokerFault::Topic(0, OpenFault::Config(ConfigFault::Bound));
    is_refused(&rt, rt.alloc(), &[("a", NO_BOUND)], fault);
    let fault = BrokerFault::Topic(1, OpenFault::Config(ConfigFault::Life));
    let topics = [("a", SMALL), ("b", NO_LIFE), ("c", NO_BOUND)];
    is_refused(&rt, rt.alloc(), &topics, fault);
}

#[test]
fn sixty_four_topics(rt: HostRuntime) {
    let topics = by_letters(&rt, rt.alloc(), 64);
    finds_each(&rt, rt.alloc(), &topics, &["*"]);
}

#[test]
fn sixty_five_topics(rt: HostRuntime) {
    let alloc = rt.alloc();
    let topics = by_letters(&rt, alloc, 65);
    is_refused(&rt, alloc, &topics, BrokerFault::TooMany);
}

/// One more topic of this name.
fn add<'a, R: Abort>(rt: &R, topics: &mut Vec<(&'a str, Config)>, name: &'a str) {
    topics.push((name, SMALL)).expect(rt, "memory");
}

const NAMES: [&str; 7] = [
    "",
    "orders",
    "Orders",
    "order",
    "été",
    "e\u{301}te\u{301}",
    "注文",
];

/// Names are compared byte for byte: one may be empty, very long, no ASCII, or another's but for case or its beginning.
#[test]
fn names_of_any_text(rt: HostRuntime) {
    let alloc = rt.alloc();
    let long = "x".repeat(alloc, 100_000).expect(&rt, "memory");
    let mut topics = Vec::new(alloc);
    for name in NAMES {
        add(&rt, &mut topics, name);
    }
    add(&rt, &mut topics, &long);
    finds_each(&rt, alloc, &topics, &["ORDERS", "ord", "x"]);
    add(&rt, &mut topics, &long);
    is_refused(&rt, alloc, &topics, BrokerFault::DoubleName(8));
}
