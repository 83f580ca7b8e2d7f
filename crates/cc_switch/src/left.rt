//! A sender that has closed its queue, to continue at another one.
ghost use Rattle.std.specs.Prelude.{◌≡◌};
ghost use Rattle.cc_queue.specs.Names.{Answer};
ghost use Rattle.cc_steps.specs.Noted.{noted_by};
ghost use Rattle.cc_steps.specs.Walk.{IsOf};
ghost use Rattle.cc_switch.specs.Closing.{HasClosed, KnowsShut, TellsClosed};

use crate::position::Position;
use cc_queue::{CloseAnswer, Sender};
use std::marker::Model;

/// A sender that has closed its queue: the close was answered with this total, the number of items that the queue
/// accepted.
#[derive(Drop)]
pub struct Left {
    pub(crate) position: Position,
    pub(crate) sender: Sender,
    pub(crate) total: u64,
}

impl Model for Left {
    ghost use Rattle.cc_steps.specs.Walk.{IsOf};
    ghost use Rattle.cc_switch.specs.Closing.{LeftWalk, KnowsShut};

    ghost Value = { LeftWalk };

    ghost view = { λ l. record { at = record { spot = l.position; pass = l.sender; group = 0 }; total = l.total } };

    ghost invariant = { λ l. IsOf l.position.queue l.sender × KnowsShut l.position.queue l.sender l.total };
}

/// The total that a close was answered with.
pub(crate) fn total_of(answer: CloseAnswer) -> u64
    ensures { TellsClosed result (Answer.Close answer) }
{
    match answer {
        CloseAnswer::Shut { total } | CloseAnswer::Already { total } => total,
    }
}

/// A sender whose close was answered knows that its queue was shut: a fact for proofs, and no work.
#[tactic(auto, using(crate::proofs::Closed::knows_shut))]
pub(crate) fn knows_shut(_queue: &cc_queue::Queue, sender: &Sender, _total: u64)
    requires here { IsOf _queue.now sender.now }
    requires closed { HasClosed sender.now _total }
    ensures { KnowsShut _queue.now sender.now _total }
{
    sender.is_sound();
}
