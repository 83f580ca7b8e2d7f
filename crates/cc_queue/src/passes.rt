//! The passes of a queue: its senders and receivers, idle or with a pending call; and what a turn answers.
ghost use Rattle.std.specs.Prelude.{◌≡◌, []};
ghost use Rattle.cc_queue.specs.Names.{Pass};
ghost use Rattle.cc_queue.specs.SendCount.{HasBegunSends};
ghost use Rattle.cc_queue.specs.Headline.{StandsInOne, IsAtRest, name};
ghost use Rattle.cc_queue.specs.Met.{HasMet};

use cc_steps::seats::PassSeat;
use cc_steps::words::Words;
use std::alloc::Global;
use std::marker::Model;
use std::sync::Arc;

/// The seat of a sender on its queue's words, with what its calls need to know: its node of the chain, its number from 1, how
/// many sends it may begin, and how many it has begun.
#[derive(Drop)]
pub struct SenderSeat {
    pub words: Arc<Words, Global>,
    pub seat: PassSeat,
    pub node: u64,
    pub number: u32,
    pub limit: u32,
    pub begun: u32,
}

/// The seat of a receiver on its queue's words, with its node of its group's chain, its number from 1, and its group from 0.
#[derive(Drop)]
pub struct ReceiverSeat {
    pub words: Arc<Words, Global>,
    pub seat: PassSeat,
    pub node: u64,
    pub number: u32,
    pub group: u32,
}

/// A sender of a queue that has no call, numbered from 1.
#[derive(Drop)]
pub struct Sender {
    pub(crate) at: SenderSeat,
}

impl Model for Sender {
    ghost use Rattle.cc_steps.specs.Walk.{Walk};
    ghost use Rattle.cc_queue.specs.Names.{Phase};
    ghost use Rattle.cc_queue.specs.Passes.{KeepsSender};

    ghost Value = { Walk };

    ghost view = { λ s. s.at.seat };

    ghost invariant = { λ s. KeepsSender s.at Phase.Idle };
}

/// A sender whose send is pending. It must be used up, by a turn or by `abandon`.
pub struct PendingSend {
    pub(crate) at: SenderSeat,
}

impl Model for PendingSend {
    ghost use Rattle.cc_steps.specs.Walk.{Walk};
    ghost use Rattle.cc_queue.specs.Passes.{IsCalling, IsSend};

    ghost Value = { Walk };

    ghost view = { λ s. s.at.seat };

    ghost invariant = { λ s. IsCalling IsSend s.at };
}

/// A sender whose close is pending. It must be used up, by a turn or by `abandon`.
pub struct PendingClose {
    pub(crate) at: SenderSeat,
}

impl Model for PendingClose {
    ghost use Rattle.cc_steps.specs.Walk.{Walk};
    ghost use Rattle.cc_queue.specs.Passes.{IsCalling, IsClose};

    ghost Value = { Walk };

    ghost view = { λ s. s.at.seat };

    ghost invariant = { λ s. IsCalling IsClose s.at };
}

/// A receiver of a queue that has no call, numbered from 1.
#[derive(Drop)]
pub struct Receiver {
    pub(crate) at: ReceiverSeat,
}

impl Model for Receiver {
    ghost use Rattle.cc_steps.specs.Walk.{Walk};
    ghost use Rattle.cc_queue.specs.Names.{Phase};
    ghost use Rattle.cc_queue.specs.Passes.{KeepsReceiver};

    ghost Value = { Walk };

    ghost view = { λ r. r.at.seat };

    ghost invariant = { λ r. KeepsReceiver r.at Phase.Idle };
}

/// A receiver whose take is pending. It must be used up, by a turn or by `abandon`.
pub struct PendingTake {
    pub(crate) at: ReceiverSeat,
}

impl Model for PendingTake {
    ghost use Rattle.cc_steps.specs.Walk.{Walk};
    ghost use Rattle.cc_queue.specs.Names.{Phase};
    ghost use Rattle.cc_queue.specs.Passes.{KeepsReceiver};

    ghost Value = { Walk };

    ghost view = { λ r. r.at.seat };

    ghost invariant = { λ r. KeepsReceiver r.at Phase.ReadState };
}

/// The result of one turn of a call. `served` is how many requests this turn served: 0 if another pass had served the call,
/// else from 1 to `bound`.
pub enum Turn<C, P, A> {
    /// The call waits still.
    Waiting(C),
    /// The pass is back, with the answer of its call.
    Done { pass: P, answer: A, served: u32 },
}

impl Sender {
    /// The number by which the queue knows the sender, from 1.
    pub fn number(&self) -> u32
        ensures { name self.now ≡ Pass.Sender result }
    {
        self.at.number
    }

    /// How many sends the sender has begun, whatever their answers.
    #[tactic(auto, using(crate::proofs::SendCount::sends_made))]
    pub fn begun(&self) -> u32
        ensures { HasBegunSends self.now result }
    {
        self.at.seat.is_sound();
        self.at.begun
    }

    /// All that the sender has seen is one history, in which each of its calls has its answer: a fact for proofs, and no
    /// work.
    pub fn is_sound(&self)
        ensures met { HasMet self.now self.now }
        ensures rest { IsAtRest self.now }
    {
        self.at.seat.is_sound();
    }
}

impl Receiver {
    /// All that the receiver has seen is one history, in which each of its calls has its answer: a fact for proofs, and no
    /// work.
    pub fn is_sound(&self)
        ensures met { HasMet self.now self.now }
        ensures rest { IsAtRest self.now }
    {
        self.at.seat.is_sound();
    }
}

impl PendingSend {
    /// All that the sender has seen is one history.
    pub(crate) fn is_sound(&self)
        ensures { StandsInOne self.now [] self.now }
    {
        self.at.seat.is_sound();
    }
}

impl PendingClose {
    /// All that the sender has seen is one history.
    pub(crate) fn is_sound(&self)
        ensures { StandsInOne self.now [] self.now }
    {
        self.at.seat.is_sound();
    }
}

impl PendingTake {
    /// All that the receiver has seen is one history.
    pub(crate) fn is_sound(&self)
        ensures { StandsInOne self.now [] self.now }
    {
        self.at.seat.is_sound();
    }
}
