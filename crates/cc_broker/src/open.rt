//! The opening of a broker.
ghost use Rattle.std.specs.Prelude.{◌≡◌, ◌≤◌, ℕ, [], ◌∷◌, ◌++◌, length, slice_get, Some, OnOk, MatchResult};
ghost use Rattle.cc_broker.specs.Names.{AreDistinct};
ghost use Rattle.cc_broker.specs.Topics.{names, asked_names};
ghost use Rattle.cc_broker.specs.Opened.{HasOpened, IsBrokerFault};

use crate::broker::{Broker, BrokerFault, OpenedBroker};
use crate::names::first_double;
use cc_model::Config;
use cc_queue::{Opened, Queue};
use std::alloc::{AllocError, Global};

/// More topics than these are too many.
const MOST: usize = 64;

/// Adds a topic that was opened, at the end.
fn add(
    alloc: Global,
    opened: &mut OpenedBroker,
    name: &str,
    topic: Opened,
) -> Result<(), AllocError>
    requires new { (number : ℕ) → slice_get (names opened.old.broker) number ≡ Some name.now → ⊥ }
    ensures topics { OnOk result (opened.new.broker ≡ opened.old.broker ++ (name.now, topic.queue) ∷ []) }
    ensures passes { OnOk result (opened.new.passes.items ≡ opened.old.passes.items ++ (topic.senders, topic.receivers) ∷ []) }
{
    opened.broker.add(alloc, name, topic.queue)?;
    opened.passes.push((topic.senders, topic.receivers))?;
    Ok(())
}

/// Opens topics in order.
fn open_each(alloc: Global, topics: &[(&str, Config)]) -> Result<OpenedBroker, BrokerFault>
    requires few { length topics.now ≤ 64 }
    requires distinct { AreDistinct (asked_names topics.now) }
    ensures { MatchResult result (λ o. HasOpened topics.now o) (λ f. IsBrokerFault topics.now f) }
{
    let mut opened = OpenedBroker {
        broker: Broker::empty(alloc),
        passes: Vec::new(alloc),
    };
    for place in 0..topics.len() {
        let (name, config) = topics[place];
        match Queue::open(alloc, &config) {
            Ok(topic) => add(alloc, &mut opened, name, topic)?,
            Err(fault) => return Err(BrokerFault::Topic(place, fault)),
        }
    }
    Ok(opened)
}

impl Broker {
    /// Opens these topics in order, each with its name. Over 64 are too many; each name may occur only once.
    pub fn open(alloc: Global, topics: &[(&str, Config)]) -> Result<OpenedBroker, BrokerFault>
        ensures { MatchResult result (λ o. HasOpened topics.now o) (λ f. IsBrokerFault topics.now f) }
    {
        if topics.len() > MOST {
            return Err(BrokerFault::TooMany);
        }
        match first_double(topics) {
            Some(place) => Err(BrokerFault::DoubleName(place)),
            None => open_each(alloc, topics),
        }
    }
}
