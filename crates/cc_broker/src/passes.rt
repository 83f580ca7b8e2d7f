//! The passes of an opened broker, one topic after another.
ghost use Rattle.std.specs.Prelude.{◌≡◌, ◌+◌, [], slice_get, Some, drop, IfSome, IfNone, OnSome};
ghost use Rattle.cc_broker.specs.Topics.{queues};
ghost use Rattle.cc_broker.specs.Opened.{AreItsPasses, AreTheirPasses};

use crate::broker::Broker;
use cc_queue::{Queue, Receiver, Sender};

/// A topic of a broker that was opened: its queue, and all its passes.
#[derive(Drop)]
pub struct OpenedTopic<'a> {
    pub queue: &'a Queue,
    /// The senders in order, from number 1 on.
    pub senders: Vec<Sender>,
    /// The receivers in order, from number 1 on.
    pub receivers: Vec<Receiver>,
}

impl Broker {
    /// The topic with this number, from 0, with its passes. They are taken out of these, which are those of the topics
    /// from this one on, in order; `None` if there are no more.
    pub fn next_topic(
        &self,
        number: usize,
        passes: &mut Vec<(Vec<Sender>, Vec<Receiver>)>,
    ) -> Option<OpenedTopic<'_>>
        requires { AreTheirPasses (drop number (queues self.now)) passes.old.items }
        ensures queue { IfSome result (λ t. slice_get (queues self.now) number ≡ Some t.queue.now) }
        ensures passes { IfSome result (λ t. AreItsPasses t.queue.now (t.senders, t.receivers)) }
        ensures rest { OnSome result (AreTheirPasses (drop (number + 1) (queues self.now)) passes.new.items) }
        ensures none { IfNone result (passes.old.items ≡ []) }
    {
        if passes.is_empty() {
            return None;
        }
        let queue = self.queue(number)?;
        let (senders, receivers) = passes.remove(0);
        Some(OpenedTopic {
            queue,
            senders,
            receivers,
        })
    }
}
