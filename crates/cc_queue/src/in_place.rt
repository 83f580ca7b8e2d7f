//! Passes that stay in one place: their calls are made there, so that an owner that keeps them behind a pointer moves nothing.
ghost use Rattle.std.specs.Prelude.{◌≡◌, ◌<◌, ◌≤◌, IfOk, OnOk, OnErr, true, false};
ghost use Rattle.cc_steps.specs.Walk.{IsOf};
ghost use Rattle.cc_queue.specs.Names.{Answer, Call, SenderCall};
ghost use Rattle.cc_queue.specs.Calls.{Begun, BegunAndTurned, Turned};
ghost use Rattle.cc_queue.specs.InPlace.{idle_sender, idle_receiver, call_after, takes_after};

use crate::given_up::{GivenUp, receiver_seat, sender_seat};
use crate::passes::{Receiver, ReceiverSeat, Sender, SenderSeat, Turn};
use crate::queue::Queue;
use crate::receiver::{begun_take, turned_take};
use crate::sender::{Worn, begun_close, begun_send, turned_close, turned_send};
use cc_model::{Body, CloseAnswer, SendAnswer, TakeAnswer};
use cc_runs::Chain;
use std::marker::Model;

/// The call that a sender has, or none.
#[derive(Clone, Copy)]
pub enum SenderCall {
    None,
    Send,
    Close,
}

/// A sender that stays in its place, with its call if it has one. It must be used up, by `abandon`.
pub struct HeldSender {
    pub(crate) at: SenderSeat,
    call: SenderCall,
}

impl Model for HeldSender {
    ghost use Rattle.cc_queue.specs.InPlace.{SenderHeld};
    ghost use Rattle.cc_queue.specs.Passes.{HasCall};

    ghost Value = { SenderHeld };

    ghost view = { λ s. record { pass = s.at.seat; call = s.call } };

    ghost invariant = { λ s. HasCall s.call s.at };
}

/// A receiver that stays in its place, with its take if it has one. It must be used up, by `abandon`.
pub struct HeldReceiver {
    pub(crate) at: ReceiverSeat,
    takes: bool,
}

impl Model for HeldReceiver {
    ghost use Rattle.cc_queue.specs.InPlace.{ReceiverHeld};
    ghost use Rattle.cc_queue.specs.Passes.{HasTake};

    ghost Value = { ReceiverHeld };

    ghost view = { λ r. record { pass = r.at.seat; takes = r.takes } };

    ghost invariant = { λ r. HasTake r.takes r.at };
}

impl HeldSender {
    /// This sender, which has no call.
    pub fn of(sender: Sender) -> HeldSender
        ensures { result ≡ idle_sender sender }
    {
        let Sender { at } = sender;
        HeldSender {
            at,
            call: SenderCall::None,
        }
    }

    /// The call that it has.
    #[inline(always)]
    pub fn call(&self) -> SenderCall
        ensures { result ≡ self.now.call }
    {
        self.call
    }

    /// Begins a send of this body. Err leaves the sender as it is.
    #[tactic(auto, using(crate::proofs::InPlace::without_call))]
    #[inline(always)]
    pub fn begin_send(&mut self, queue: &Queue, body: Body) -> Result<(), Worn>
        requires here { IsOf queue.now self.old.pass }
        requires idle { self.old.call ≡ SenderCall.None }
        ensures begun { IfOk result (λ _. Begun self.old.pass (Call.Send body) self.new.pass) }
        ensures call { OnOk result (self.new.call ≡ SenderCall.Send) }
        ensures may { OnOk result (self.old.pass.stand.begun < self.old.pass.setting.config.per_sender) }
        ensures same { OnErr result (self.new ≡ self.old) }
        ensures worn { OnErr result (self.old.pass.setting.config.per_sender ≤ self.old.pass.stand.begun) }
    {
        let words = queue.words().on(&self.at.seat, Chain::Send);
        begun_send(&words, &mut self.at, body)?;
        self.call = SenderCall::Send;
        Ok(())
    }

    /// Begins a close.
    #[tactic(auto, using(crate::proofs::InPlace::without_call))]
    #[inline(always)]
    pub fn begin_close(&mut self, queue: &Queue)
        requires here { IsOf queue.now self.old.pass }
        requires idle { self.old.call ≡ SenderCall.None }
        ensures begun { Begun self.old.pass Call.Close self.new.pass }
        ensures call { self.new.call ≡ SenderCall.Close }
    {
        let words = queue.words().on(&self.at.seat, Chain::Send);
        begun_close(&words, &mut self.at);
        self.call = SenderCall::Close;
    }

    /// One turn of its send.
    #[inline(always)]
    pub fn turn_send(&mut self, queue: &Queue) -> Turn<(), (), SendAnswer>
        requires here { IsOf queue.now self.old.pass }
        requires sends { self.old.call ≡ SenderCall.Send }
        ensures turned { Turned (λ _. self.new.pass) (λ _. self.new.pass) Answer.Send self.old.pass result }
        ensures call { self.new.call ≡ call_after SenderCall.Send result }
    {
        let words = queue.words().resume(&self.at.seat, Chain::Send);
        let turn = turned_send(queue, &words, &mut self.at);
        if let Turn::Done { .. } = &turn {
            self.call = SenderCall::None;
        }
        turn
    }

    /// One turn of its close.
    #[inline(always)]
    pub fn turn_close(&mut self, queue: &Queue) -> Turn<(), (), CloseAnswer>
        requires here { IsOf queue.now self.old.pass }
        requires closes { self.old.call ≡ SenderCall.Close }
        ensures turned { Turned (λ _. self.new.pass) (λ _. self.new.pass) Answer.Close self.old.pass result }
        ensures call { self.new.call ≡ call_after SenderCall.Close result }
    {
        let words = queue.words().resume(&self.at.seat, Chain::Send);
        let turn = turned_close(queue, &words, &mut self.at);
        if let Turn::Done { .. } = &turn {
            self.call = SenderCall::None;
        }
        turn
    }

    /// Begins a send of this body and turns it once, in one walk: nothing lies between the begin and the turn. Err is as at
    /// `begin_send`.
    #[tactic(auto, using(crate::proofs::InPlace::without_call))]
    #[inline(always)]
    pub fn try_send(&mut self, queue: &Queue, body: Body) -> Result<Turn<(), (), SendAnswer>, Worn>
        requires here { IsOf queue.now self.old.pass }
        requires idle { self.old.call ≡ SenderCall.None }
        ensures tried { IfOk result (λ t. BegunAndTurned (λ _. self.new.pass) (λ _. self.new.pass) Answer.Send self.old.pass (Call.Send body) t) }
        ensures call { IfOk result (λ t. self.new.call ≡ call_after SenderCall.Send t) }
        ensures may { OnOk result (self.old.pass.stand.begun < self.old.pass.setting.config.per_sender) }
        ensures same { OnErr result (self.new ≡ self.old) }
        ensures worn { OnErr result (self.old.pass.setting.config.per_sender ≤ self.old.pass.stand.begun) }
    {
        let words = queue.words().on(&self.at.seat, Chain::Send);
        begun_send(&words, &mut self.at, body)?;
        let turn = turned_send(queue, &words, &mut self.at);
        if let Turn::Waiting(()) = &turn {
            self.call = SenderCall::Send;
        }
        Ok(turn)
    }

    /// Gives the sender up, with its call if it has one. It did nothing more.
    #[tactic(auto, using(crate::proofs::InPlace::sender_stopped, crate::proofs::InPlace::sender_named))]
    pub fn abandon(self) -> GivenUp
        ensures { result ≡ self.pass }
    {
        let HeldSender { at, call: _ } = self;
        sender_seat(at)
    }
}

impl HeldReceiver {
    /// This receiver, which has no call.
    pub fn of(receiver: Receiver) -> HeldReceiver
        ensures { result ≡ idle_receiver receiver }
    {
        let Receiver { at } = receiver;
        HeldReceiver { at, takes: false }
    }

    /// Whether it has a take.
    #[inline(always)]
    pub fn takes(&self) -> bool
        ensures { result ≡ self.now.takes }
    {
        self.takes
    }

    /// Begins a take.
    #[tactic(auto, using(crate::proofs::InPlace::without_take))]
    #[inline(always)]
    pub fn begin_take(&mut self, queue: &Queue)
        requires here { IsOf queue.now self.old.pass }
        requires idle { self.old.takes ≡ false }
        ensures begun { Begun self.old.pass Call.Take self.new.pass }
        ensures takes { self.new.takes ≡ true }
    {
        let words = queue.words().on(&self.at.seat, Chain::Take(self.at.group));
        begun_take(&words, &mut self.at);
        self.takes = true;
    }

    /// One turn of its take.
    #[inline(always)]
    pub fn turn_take(&mut self, queue: &Queue) -> Turn<(), (), TakeAnswer>
        requires here { IsOf queue.now self.old.pass }
        requires takes { self.old.takes ≡ true }
        ensures turned { Turned (λ _. self.new.pass) (λ _. self.new.pass) Answer.Take self.old.pass result }
        ensures takes { self.new.takes ≡ takes_after result }
    {
        let words = queue
            .words()
            .resume(&self.at.seat, Chain::Take(self.at.group));
        let turn = turned_take(queue, &words, &mut self.at);
        if let Turn::Done { .. } = &turn {
            self.takes = false;
        }
        turn
    }

    /// Begins a take and turns it once, in one walk: nothing lies between the begin and the turn.
    #[tactic(auto, using(crate::proofs::InPlace::without_take))]
    #[inline(always)]
    pub fn try_take(&mut self, queue: &Queue) -> Turn<(), (), TakeAnswer>
        requires here { IsOf queue.now self.old.pass }
        requires idle { self.old.takes ≡ false }
        ensures tried { BegunAndTurned (λ _. self.new.pass) (λ _. self.new.pass) Answer.Take self.old.pass Call.Take result }
        ensures takes { self.new.takes ≡ takes_after result }
    {
        let words = queue.words().on(&self.at.seat, Chain::Take(self.at.group));
        begun_take(&words, &mut self.at);
        let turn = turned_take(queue, &words, &mut self.at);
        if let Turn::Waiting(()) = &turn {
            self.takes = true;
        }
        turn
    }

    /// Gives the receiver up, with its take if it has one. It did nothing more.
    #[tactic(auto, using(crate::proofs::InPlace::receiver_stopped, crate::proofs::InPlace::receiver_named))]
    pub fn abandon(self) -> GivenUp
        ensures { result ≡ self.pass }
    {
        let HeldReceiver { at, takes: _ } = self;
        receiver_seat(at)
    }
}
