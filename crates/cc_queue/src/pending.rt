//! A call that waits for its answer, be it a send, a close or a take: its turns, and the loop that waits.
ghost use Rattle.std.specs.Prelude.{[]};
ghost use Rattle.cc_steps.specs.Walk.{IsOf};
ghost use Rattle.cc_queue.specs.Headline.{StandsInOne};
ghost use Rattle.cc_queue.specs.Calls.{Ended};

use crate::passes::{PendingClose, PendingSend, PendingTake, Receiver, Sender, Turn};
use crate::queue::Queue;
use crate::receiver::turn_take;
use crate::sender::{turn_close, turn_send};
use cc_model::{CloseAnswer, SendAnswer, TakeAnswer};
use crossbeam_utils::Backoff;
use std::sync::Wait;

/// A call that waits for its answer.
pub trait Pending: Sized {
    ghost use Rattle.cc_steps.specs.Walk.{Walk, IsOf};
    ghost use Rattle.cc_queue.specs.Calls.{Turned};
    ghost use Rattle.cc_queue.specs.Names.{Answer};

    /// The pass, which comes back with the answer.
    type Pass: Drop;
    /// The possible answers of the call.
    type Told: Copy;

    /// The view that clauses have of the call, of its pass, and of its answer.
    ghost call: { Self → Walk };

    ghost pass: { Self.Pass → Walk };

    ghost told: { Self.Told → Answer };

    /// Makes one turn: the pass with the answer, or the call if it still waits.
    fn turn(self, queue: &Queue) -> Turn<Self, Self::Pass, Self::Told>
        requires { IsOf queue.now (call self) }
        ensures { Turned call pass told (call self) result };
}

impl Pending for PendingSend {
    ghost use Rattle.cc_queue.specs.Names.{Answer};

    type Pass = Sender;

    type Told = SendAnswer;

    ghost call = { λ p. p };

    ghost pass = { λ s. s };

    ghost told = { λ a. Answer.Send a };

    #[inline(always)]
    fn turn(self, queue: &Queue) -> Turn<PendingSend, Sender, SendAnswer> {
        turn_send(queue, self)
    }
}

impl Pending for PendingClose {
    ghost use Rattle.cc_queue.specs.Names.{Answer};

    type Pass = Sender;

    type Told = CloseAnswer;

    ghost call = { λ p. p };

    ghost pass = { λ s. s };

    ghost told = { λ a. Answer.Close a };

    fn turn(self, queue: &Queue) -> Turn<PendingClose, Sender, CloseAnswer> {
        turn_close(queue, self)
    }
}

impl Pending for PendingTake {
    ghost use Rattle.cc_queue.specs.Names.{Answer};

    type Pass = Receiver;

    type Told = TakeAnswer;

    ghost call = { λ p. p };

    ghost pass = { λ r. r };

    ghost told = { λ a. Answer.Take a };

    #[inline(always)]
    fn turn(self, queue: &Queue) -> Turn<PendingTake, Receiver, TakeAnswer> {
        turn_take(queue, self)
    }
}

/// Waits for the answer: turns, with a back-off between them.
#[inline(always)]
pub(crate) fn wait_for_answer<P: Pending, R: Wait>(
    queue: &Queue,
    rt: &R,
    pending: P,
) -> (P::Pass, P::Told)
    requires here { IsOf queue.now (P.call pending) }
    requires sound { StandsInOne (P.call pending) [] (P.call pending) }
    ensures { Ended (P.call pending) (P.told result.1) (P.pass result.0) }
{
    let backoff = Backoff::new();
    let mut pending = pending;
    for _ in rt.forever() {
        match pending.turn(queue) {
            Turn::Waiting(same) => pending = same,
            Turn::Done {
                pass,
                answer,
                served: _,
            } => return (pass, answer),
        }
        backoff.snooze();
    }
    unreachable!()
}
