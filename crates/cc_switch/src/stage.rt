//! A queue of a row, with its passes that no thread has fetched.
ghost use Rattle.std.specs.Prelude.{◌≡◌, ◌+◌, ◌<◌, length, slice_index_or, IfSome};
ghost use Rattle.std.specs.List.{All};
ghost use Rattle.cc_queue.specs.Group.{Ranked};
ghost use Rattle.cc_queue.specs.Opened.{HasOpened};
ghost use Rattle.cc_steps.specs.Walk.{Walk, IsOf};

use cc_queue::{Opened, Queue, Receiver, Sender};
use std::marker::Model;

/// A queue of a row, how many items the queues before it accepted, and its passes that no thread has fetched.
#[derive(Drop)]
pub struct Stage {
    pub(crate) queue: Queue,
    pub(crate) base: u64,
    pub(crate) senders: Vec<Sender>,
    pub(crate) receivers: Vec<Receiver>,
}

impl Model for Stage {
    ghost use Rattle.std.specs.List.{All};
    ghost use Rattle.cc_steps.specs.Walk.{Walk, IsOf};
    ghost use Rattle.cc_switch.specs.Begin.{Begin};

    ghost Value = { Begin };

    ghost view = { λ s. record { queue = s.queue; base = s.base } };

    ghost invariant = { λ s. All (IsOf s.queue) s.senders.items × All (IsOf s.queue) s.receivers.items };
}

/// The place of a receiver of this group in the list.
fn place_of(receivers: &[Receiver], group: u32) -> Option<usize>
    ensures { IfSome result (λ p. (p < length receivers.now) × ((d : Walk) → Ranked (slice_index_or receivers.now p d) (group + 1))) }
{
    let rank = group.checked_add(1)?;
    for place in 0..receivers.len() {
        if receivers[place].group() == rank {
            return Some(place);
        }
    }
    None
}

impl Stage {
    /// A stage of a queue that was opened with this configuration.
    #[tactic(auto, using(crate::proofs::Passes::are_of))]
    pub fn of(opened: Opened, _config: &cc_queue::Config) -> Stage
        requires { HasOpened _config.now opened }
        ensures { result.queue ≡ opened.queue }
    {
        let Opened {
            queue,
            senders,
            receivers,
        } = opened;
        Stage {
            queue,
            base: 0,
            senders,
            receivers,
        }
    }

    /// Fetches a sender.
    pub(crate) fn sender(&mut self) -> Option<Sender>
        ensures same { self.new ≡ self.old }
        ensures of { IfSome result (λ s. IsOf self.old.queue s) }
    {
        self.senders.pop()
    }

    /// Fetches a receiver of this group. Groups count from 0 here.
    pub(crate) fn receiver(&mut self, group: u32) -> Option<Receiver>
        ensures same { self.new ≡ self.old }
        ensures of { IfSome result (λ s. IsOf self.old.queue s) }
        ensures ranked { IfSome result (λ s. Ranked s (group + 1)) }
        ensures has { IfSome result (λ _. group < self.old.queue.setting.config.groups) }
    {
        if !self.queue.has_group(group) {
            return None;
        }
        let place = place_of(&self.receivers, group)?;
        Some(self.receivers.swap_remove(place))
    }
}
