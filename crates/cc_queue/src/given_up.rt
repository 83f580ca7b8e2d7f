//! Passes that are given up, idle or with a pending call.
ghost use Rattle.std.specs.Prelude.{◌≡◌};
ghost use Rattle.cc_queue.specs.Headline.{name};
ghost use Rattle.cc_queue.specs.Names.{Pass};
ghost use Rattle.cc_queue.specs.Passes.{HasStopped};
ghost use Rattle.cc_queue.specs.Receipts.{HasEnded};

use crate::passes::{
    PendingClose, PendingSend, PendingTake, Receiver, ReceiverSeat, Sender, SenderSeat,
};
use cc_model::Pass;
use cc_steps::seats::PassSeat;
use std::marker::Model;

/// A pass that was given up, as it was then. Contracts see the run that it had seen and the steps that it had done (`Walk`),
/// and no call but a meeting takes it, so its pass makes no further step.
#[derive(Drop)]
pub struct GivenUp {
    pub(crate) seat: PassSeat,
    pass: Pass,
}

impl Model for GivenUp {
    ghost use Rattle.cc_steps.specs.Walk.{Walk};
    ghost use Rattle.cc_queue.specs.Passes.{KeepsGivenUp};

    ghost Value = { Walk };

    ghost view = { λ g. g.seat };

    ghost invariant = { λ g. KeepsGivenUp g.seat g.pass };
}

impl GivenUp {
    /// The name by which the queue knows the pass.
    pub fn pass(&self) -> Pass
        ensures { name self.now ≡ result }
    {
        self.pass
    }

    /// All that the pass has seen is one history, in which each call whose answer it got has its answer: a fact for proofs,
    /// and no work.
    pub fn is_sound(&self)
        ensures { HasEnded self.now }
    {
        self.seat.is_sound();
    }
}

/// The seat of a sender, without its share of the queue.
pub(crate) fn sender_seat(at: SenderSeat) -> GivenUp
    requires still { HasStopped at.seat }
    requires named { name at.seat ≡ Pass.Sender at.number }
    ensures { result ≡ at.seat }
{
    let SenderSeat {
        words: _,
        seat,
        node: _,
        number,
        limit: _,
        begun: _,
    } = at;
    GivenUp {
        seat,
        pass: Pass::Sender(number),
    }
}

/// The seat of a receiver, without its share of the queue.
pub(crate) fn receiver_seat(at: ReceiverSeat) -> GivenUp
    requires still { HasStopped at.seat }
    requires named { name at.seat ≡ Pass.Receiver at.number }
    ensures { result ≡ at.seat }
{
    let ReceiverSeat {
        words: _,
        seat,
        node: _,
        number,
        group: _,
    } = at;
    GivenUp {
        seat,
        pass: Pass::Receiver(number),
    }
}

impl Sender {
    /// Gives the sender up. It did nothing more.
    pub fn abandon(self) -> GivenUp
        ensures { result ≡ self }
    {
        let Sender { at } = self;
        sender_seat(at)
    }
}

impl Receiver {
    /// Gives the receiver up. It did nothing more.
    pub fn abandon(self) -> GivenUp
        ensures { result ≡ self }
    {
        let Receiver { at } = self;
        receiver_seat(at)
    }
}

impl PendingSend {
    /// Gives the sender up with its call. The call may still be answered. It stops no call that came before it in its chain. From its
    /// turn to combine on it stops those that come after it.
    pub fn abandon(self) -> GivenUp
        ensures { result ≡ self }
    {
        let PendingSend { at } = self;
        sender_seat(at)
    }
}

impl PendingClose {
    /// Gives the sender up with its call. The call may still be answered. It stops no call that came before it in its chain. From its
    /// turn to combine on it stops those that come after it.
    pub fn abandon(self) -> GivenUp
        ensures { result ≡ self }
    {
        let PendingClose { at } = self;
        sender_seat(at)
    }
}

impl PendingTake {
    /// Gives the receiver up with its call. The call may still be answered. It stops no call that came before it in its chain. From its
    /// turn to combine on it stops those that come after it.
    pub fn abandon(self) -> GivenUp
        ensures { result ≡ self }
    {
        let PendingTake { at } = self;
        receiver_seat(at)
    }
}
