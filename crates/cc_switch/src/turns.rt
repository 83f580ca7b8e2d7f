//! The calls by which passes of a row come to the end of their queue, in turns: a close by a sender, and a take.
ghost use Rattle.std.specs.Prelude.{◌≡◌};
ghost use Rattle.cc_queue.specs.Calls.{Begun};
ghost use Rattle.cc_queue.specs.Names.{Call};
ghost use Rattle.cc_switch.specs.Turns.{IsAt, Leaves, Takes};

use crate::left::{Left, knows_shut, total_of};
use crate::position::{Position, RowReceiver, RowSender};
use crate::receiving::{Over, knows_ended};
use cc_model::TakeAnswer;
use cc_queue::{GivenUp, Item, PendingClose, PendingTake, Turn, begin_close, turn_close};
use std::marker::Model;

/// A sender that closes its queue, to continue at another one.
pub struct Leaving {
    pub(crate) position: Position,
    pub(crate) pending: PendingClose,
}

impl Model for Leaving {
    ghost use Rattle.cc_steps.specs.Walk.{IsOf};
    ghost use Rattle.cc_switch.specs.Position.{RowWalk};

    ghost Value = { RowWalk };

    ghost view = { λ l. record { spot = l.position; pass = l.pending; group = 0 } };

    ghost invariant = { λ l. IsOf l.position.queue l.pending };
}

impl Leaving {
    /// Gives the pass up with its call. The call may still be answered. From its turn to combine on it stops the calls
    /// that come after it at this queue.
    pub fn abandon(self) -> GivenUp
        ensures { result ≡ self.pass }
    {
        let Leaving {
            position: _,
            pending,
        } = self;
        pending.abandon()
    }
}

/// What a turn of that close returns.
pub enum Leave {
    Waiting(Leaving),
    Left(Left),
}

/// Begins to leave a queue that has refused a send: begins a close of the queue.
pub fn begin_leave(from: RowSender) -> Leaving
    ensures at { IsAt from result }
    ensures begun { Begun from.pass Call.Close result.pass }
{
    let RowSender { position, sender } = from;
    let pending = begin_close(&position.queue, sender);
    Leaving { position, pending }
}

/// One turn of the close.
pub fn turn_leave(leaving: Leaving) -> Leave
    ensures { Leaves leaving result }
{
    let Leaving { position, pending } = leaving;
    match turn_close(&position.queue, pending) {
        Turn::Waiting(pending) => Leave::Waiting(Leaving { position, pending }),
        Turn::Done {
            pass,
            answer,
            served: _,
        } => {
            let total = total_of(answer);
            knows_shut(&position.queue, &pass, total);
            Leave::Left(Left {
                position,
                sender: pass,
                total,
            })
        }
    }
}

/// A receiver of a row with a pending take.
pub struct Taking {
    pub(crate) position: Position,
    pub(crate) pending: PendingTake,
    pub(crate) group: u32,
}

impl Model for Taking {
    ghost use Rattle.cc_switch.specs.Position.{RowWalk, IsTaker};

    ghost Value = { RowWalk };

    ghost view = { λ l. record { spot = l.position; pass = l.pending; group = l.group } };

    ghost invariant = { λ l. IsTaker l.position l.pending l.group };
}

impl Taking {
    /// Gives the pass up with its call. The call may still be answered. From its turn to combine on it stops the calls
    /// that come after it at this queue.
    pub fn abandon(self) -> GivenUp
        ensures { result ≡ self.pass }
    {
        let Taking {
            position: _,
            pending,
            group: _,
        } = self;
        pending.abandon()
    }
}

/// What a turn of a take returns.
pub enum Taken {
    Waiting(Taking),
    /// An item, with its place in its queue.
    Got { receiver: RowReceiver, item: Item },
    /// The queue was empty, and so was the row for the group.
    Empty(RowReceiver),
    /// The queue has ended: the receiver continues by `take_on`.
    Over(Over),
}

/// Begins a take.
#[tactic(auto, using(crate::proofs::Ranks::still_taker))]
pub fn begin_take(from: RowReceiver) -> Taking
    ensures at { IsAt from result }
    ensures begun { Begun from.pass Call.Take result.pass }
{
    let RowReceiver {
        position,
        receiver,
        group,
    } = from;
    let pending = cc_queue::begin_take(&position.queue, receiver);
    Taking {
        position,
        pending,
        group,
    }
}

/// One turn of a take.
#[tactic(auto, using(crate::proofs::Ranks::still_taker))]
pub fn turn_take(taking: Taking) -> Taken
    ensures { Takes taking result }
{
    let Taking {
        position,
        pending,
        group,
    } = taking;
    match cc_queue::turn_take(&position.queue, pending) {
        Turn::Waiting(pending) => Taken::Waiting(Taking {
            position,
            pending,
            group,
        }),
        Turn::Done {
            pass: receiver,
            answer,
            served: _,
        } => match answer {
            TakeAnswer::Got(item) => {
                let receiver = RowReceiver {
                    position,
                    receiver,
                    group,
                };
                Taken::Got { receiver, item }
            }
            TakeAnswer::Empty => Taken::Empty(RowReceiver {
                position,
                receiver,
                group,
            }),
            TakeAnswer::Ended { total } => {
                knows_ended(&position.queue, &receiver, group, total);
                Taken::Over(Over {
                    position,
                    receiver,
                    group,
                    total,
                })
            }
        },
    }
}
