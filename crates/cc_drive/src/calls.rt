//! A call that was begun, within the turns of its worker: its gate is asked, its state is read, and its gate is asked again.
ghost use Rattle.std.specs.Prelude.{◌≡◌, ◌≤◌, IfOk, IfErr, OnErr};
ghost use Rattle.cc_drive.specs.Work.{CameBack, IsPendingAt, RanOut, Stopped, WasAnswered, WentOn};

use crate::gate::{Gate, Point};
use crate::turns::Turns;
use cc_queue::{Pending, Queue, Turn};
use crossbeam_utils::Backoff;

/// The state of a worker that came to its limit in a call: the call, which still waits, or the pass, if the call was
/// answered.
pub(crate) enum Left<P, D> {
    Waiting(P),
    Answered(D),
}

/// Waits for the answer within the limit: the pass with the answer, or else the call, which waits still.
pub(crate) fn await_answer<P: Pending>(
    queue: &Queue,
    pending: P,
    turns: &mut Turns,
) -> Result<(P::Pass, P::Told), P>
    requires pending { IsPendingAt queue.now (P.call pending) }
    requires within { turns.old.made ≤ turns.old.limit }
    ensures answered { IfOk result (λ r. WasAnswered (P.call pending) (P.told r.1) turns.old turns.new (P.pass r.0)) }
    ensures left { IfErr result (λ same. RanOut (P.call pending) turns.old turns.new (P.call same)) }
    ensures on { WentOn turns.old turns.new }
{
    let backoff = Backoff::new();
    let mut pending = pending;
    while turns.made < turns.limit {
        turns.made += 1;
        match pending.turn(queue) {
            Turn::Waiting(same) => pending = same,
            Turn::Done {
                pass,
                answer,
                served: _,
            } => return Ok((pass, answer)),
        }
        backoff.snooze();
    }
    Err(pending)
}

/// Asks the gate after the begin of this call, waits for the answer, and asks the gate again, all within the limit.
pub(crate) fn answer_within<P: Pending, G: Gate>(
    queue: &Queue,
    pending: P,
    gate: &mut G,
    turns: &mut Turns,
    begun: Point,
    answered: Point,
) -> Result<(P::Pass, P::Told), Left<P, P::Pass>>
    requires pending { IsPendingAt queue.now (P.call pending) }
    requires within { turns.old.made ≤ turns.old.limit }
    ensures back { IfOk result (λ r. CameBack G.tells begun answered (P.call pending) (P.told r.1) turns.old turns.new (P.pass r.0) gate.old gate.new) }
    ensures stopped { IfErr result (Stopped G.tells P.call P.pass begun answered (P.call pending) turns.old turns.new gate.old gate.new) }
    ensures limited { OnErr result (turns.new.made ≡ turns.new.limit) }
    ensures on { WentOn turns.old turns.new }
{
    if !turns.pass(gate, begun) {
        return Err(Left::Waiting(pending));
    }
    match await_answer(queue, pending, turns) {
        Ok((pass, told)) => {
            if turns.pass(gate, answered) {
                Ok((pass, told))
            } else {
                Err(Left::Answered(pass))
            }
        }
        Err(same) => Err(Left::Waiting(same)),
    }
}
