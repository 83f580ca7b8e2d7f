//! The close of a run.
ghost use Rattle.std.specs.Prelude.{◌≡◌, ◌<◌, IfOk, IfErr, vec_len, vec_capacity};
ghost use Rattle.std.specs.List.{All};
ghost use Rattle.cc_steps.specs.Walk.{IsOf};
ghost use Rattle.cc_queue.specs.Met.{HasMet};
ghost use Rattle.cc_drive.specs.Ran.{ClosedAfter, ClosesStill, total_in};
ghost use Rattle.cc_drive.specs.Row.{Pairs};

use crate::calls::await_answer;
use crate::meeting::meet_everyone;
use crate::turns::Turns;
use cc_model::CloseAnswer;
use cc_queue::{PendingClose, Queue, Sender, begin_close};
use std::alloc::Global;

/// Lets the closer and these senders meet, and then closes the queue: the closer with its answer, or else the close, which
/// waits still at this limit on turns. The list has room for the closer.
pub fn close_after(
    alloc: Global,
    queue: &Queue,
    limit: u64,
    closer: Sender,
    senders: &mut Vec<Sender>,
) -> Result<(Sender, CloseAnswer), PendingClose>
    requires closer { IsOf queue.now closer }
    requires senders { All (IsOf queue.now) senders.old.items }
    requires room { vec_len senders.old < vec_capacity senders.old }
    ensures met { Pairs HasMet senders.old.items senders.new.items }
    ensures closed { IfOk result (λ r. ClosedAfter closer senders.new.items r.1 r.0) }
    ensures left { IfErr result (ClosesStill closer senders.new.items limit) }
{
    let Ok(()) = senders.push(closer) else {
        unreachable!()
    };
    meet_everyone(queue, senders, &mut Vec::new(alloc));
    let Some(closer) = senders.pop() else {
        unreachable!()
    };
    let pending = begin_close(queue, closer);
    let mut turns = Turns::new(limit);
    await_answer(queue, pending, &mut turns)
}

/// The total that a close returns.
pub fn total_of(closed: CloseAnswer) -> u64
    ensures { result ≡ total_in closed }
{
    let (CloseAnswer::Shut { total } | CloseAnswer::Already { total }) = closed;
    total
}
