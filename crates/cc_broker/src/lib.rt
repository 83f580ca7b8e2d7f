//! Topics by name: each is a queue of its own, with its own senders and receivers.
//!
//! `Broker::open` takes names with configurations, and gives the broker with the passes of all its queues. `next_topic`
//! takes these out topic by topic, each with its queue, as `cc_queue` gives them at an opening. A contract sees a broker
//! as the list of its names, each with the topic that its queue shows.
#![tactic(auto)]

mod broker;
mod clauses;
mod names;
mod open;
mod passes;

pub use broker::{Broker, BrokerFault, OpenedBroker};
pub use clauses::clauses_refuse;
pub use passes::OpenedTopic;
