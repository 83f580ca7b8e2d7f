//! A broker: topics by name.
ghost use Rattle.std.specs.Prelude.{◌≡◌, ◌↔◌, ℕ, [], ◌∷◌, ◌++◌, slice_get, Some, option_copied, OnOk};
ghost use Rattle.cc_broker.specs.Topics.{names, queues};
ghost use Rattle.cc_broker.specs.declared.broker.BrokerFault.{BrokerFault};

use cc_queue::{Queue, Receiver, Sender};
use cc_runs::OpenFault;
use indexmap::IndexMap;
use std::alloc::{AllocError, Global};
use std::marker::Model;

/// Topics in order, each a queue with a name of its own. A name is any text, and is compared byte for byte.
#[derive(Drop)]
pub struct Broker {
    topics: IndexMap<String, Queue>,
}

impl Model for Broker {
    ghost use Rattle.std.specs.Prelude.{ℕ, List, map, string_bytes};
    ghost use Rattle.cc_steps.specs.Topic.{Topic};

    ghost Value = { List (List ℕ × Topic) };

    ghost view = { λ b. map (λ e. (string_bytes e.0, e.1)) b.topics.entries };
}

/// A broker that was opened, with the passes of all its topics.
#[derive(Drop)]
pub struct OpenedBroker {
    pub broker: Broker,
    /// The senders and the receivers of each topic, in the order of the topics. `Broker::next_topic` takes them out.
    pub passes: Vec<(Vec<Sender>, Vec<Receiver>)>,
}

/// Why a broker wasn't opened. Too many topics are answered before a double name, and that before any topic's fault.
#[derive(Clone, Copy, Debug, PartialEq, Eq)]
pub enum BrokerFault {
    /// The least place whose name occurs before it too.
    DoubleName(usize),
    /// More than 64 topics.
    TooMany,
    /// The first topic that wasn't opened, by its number, and why.
    Topic(usize, OpenFault),
    /// Memory was refused, but not in the opening of a topic.
    NoMemory,
}

impl From<AllocError> for BrokerFault {
    ghost from_gives = { λ _ f. f ≡ BrokerFault.NoMemory };

    fn from(_: AllocError) -> BrokerFault {
        BrokerFault::NoMemory
    }
}

impl Broker {
    /// A broker without topics.
    pub(crate) fn empty(alloc: Global) -> Broker
        ensures { result ≡ [] }
    {
        Broker {
            topics: IndexMap::new(alloc),
        }
    }

    /// Adds a topic at the end, whose name no topic has.
    pub(crate) fn add(&mut self, alloc: Global, name: &str, queue: Queue) -> Result<(), AllocError>
        requires new { (number : ℕ) → slice_get (names self.old) number ≡ Some name.now → ⊥ }
        ensures { OnOk result (self.new ≡ self.old ++ (name.now, queue) ∷ []) }
    {
        let name = String::from_str(alloc, name)?;
        self.topics.insert(name, queue)?;
        Ok(())
    }

    /// The number of the topic with this name, from 0.
    pub fn topic(&self, name: &str) -> Option<usize>
        ensures { (number : ℕ) → (result ≡ Some number) ↔ (slice_get (names self.now) number ≡ Some name.now) }
    {
        self.topics.get_index_of(name)
    }

    /// The queue of the topic with this number.
    pub fn queue(&self, number: usize) -> Option<&Queue>
        ensures { option_copied result ≡ slice_get (queues self.now) number }
    {
        match self.topics.get_index(number) {
            Some((_, queue)) => Some(queue),
            None => None,
        }
    }
}
