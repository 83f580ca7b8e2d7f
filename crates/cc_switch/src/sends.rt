//! A send of a sender of a row, in turns. It is a send at the queue of the sender.
ghost use Rattle.std.specs.Prelude.{◌≡◌, IfOk, IfErr};
ghost use Rattle.cc_queue.specs.Calls.{Begun};
ghost use Rattle.cc_queue.specs.Names.{Call};
ghost use Rattle.cc_switch.specs.Turns.{IsAt, Sends};

use crate::position::{Position, RowSender};
use cc_model::Body;
use cc_queue::{GivenUp, PendingSend, SendAnswer, Turn};
use std::marker::Model;

/// A sender of a row with a pending send.
pub struct Sending {
    pub(crate) position: Position,
    pub(crate) pending: PendingSend,
}

impl Model for Sending {
    ghost use Rattle.cc_steps.specs.Walk.{IsOf};
    ghost use Rattle.cc_switch.specs.Position.{RowWalk};

    ghost Value = { RowWalk };

    ghost view = { λ s. record { spot = s.position; pass = s.pending; group = 0 } };

    ghost invariant = { λ s. IsOf s.position.queue s.pending };
}

impl Sending {
    /// Gives the pass up with its call. The call may still be answered. From its turn to combine on it stops the calls
    /// that come after it at this queue.
    pub fn abandon(self) -> GivenUp
        ensures { result ≡ self.pass }
    {
        let Sending {
            position: _,
            pending,
        } = self;
        pending.abandon()
    }
}

/// What a turn of a send returns.
pub enum Sent {
    Waiting(Sending),
    /// Accepted, with a place in the queue; Closed if the queue is closed, which the row may not be; or Full or Spent.
    /// After an answer but Accepted the sender continues by `begin_leave`, unless the row is closed.
    Done {
        sender: RowSender,
        answer: SendAnswer,
    },
}

/// Begins a send.
///
/// # Errors
///
/// The sender, if it has begun as many sends at its queue as one sender may: it continues by `begin_leave`.
pub fn begin_send(from: RowSender, body: Body) -> Result<Sending, RowSender>
    ensures at { IfOk result (λ s. IsAt from s) }
    ensures begun { IfOk result (λ s. Begun from.pass (Call.Send body) s.pass) }
    ensures same { IfErr result (λ s. s ≡ from) }
{
    let RowSender { position, sender } = from;
    match cc_queue::begin_send(&position.queue, sender, body) {
        Ok(pending) => Ok(Sending { position, pending }),
        Err(sender) => Err(RowSender { position, sender }),
    }
}

/// One turn of the send.
pub fn turn_send(sending: Sending) -> Sent
    ensures { Sends sending result }
{
    let Sending { position, pending } = sending;
    match cc_queue::turn_send(&position.queue, pending) {
        Turn::Waiting(pending) => Sent::Waiting(Sending { position, pending }),
        Turn::Done {
            pass: sender,
            answer,
            served: _,
        } => Sent::Done {
            sender: RowSender { position, sender },
            answer,
        },
    }
}
