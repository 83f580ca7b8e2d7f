//! A sender continues at a later queue. Nothing here waits.
ghost use Rattle.std.specs.Prelude.{◌≡◌, ◌<◌, length, IfSome, IfOk};
ghost use Rattle.std.specs.Arc.{arc_value};
ghost use Rattle.cc_steps.specs.Walk.{IsOf};
ghost use Rattle.cc_switch.specs.Going.{HasLeft, IsBehind, Moves, WentOn};

use crate::left::Left;
use crate::position::{Position, RowSender, put_back};
use crate::stage::Stage;
use crate::stages::{RowLock, Stages};
use cc_queue::{Queue, Sender};
use std::alloc::Global;
use std::sync::Arc;

/// What `go_on` returns. `spare` is the queue that the caller brought, unless the row took it.
pub enum GoneOn {
    /// Another thread has the row right now. Nothing has changed.
    Busy {
        left: Left,
        spare: Option<Stage>,
    },
    /// The sender is at a later queue.
    Gone {
        sender: RowSender,
        spare: Option<Stage>,
    },
    /// There is no later queue: the row is closed, the caller brought no queue, or memory was refused.
    Stays {
        left: Left,
        spare: Option<Stage>,
        closing: bool,
    },
}

/// A sender of the last queue, if another thread has appended one. The sender learns by a note that its queue was shut
/// with the total that it knows.
fn find(
    _row: &Arc<RowLock, Global>,
    stages: &mut Stages,
    number: u64,
    _base: u64,
    queue: &Queue,
    sender: &mut Sender,
    _total: u64,
) -> Option<Sender>
    requires left { HasLeft (arc_value _row.now).key stages.old number _base queue.now sender.old _total }
    requires later { number < length stages.old.links.items }
    ensures moves { Moves (arc_value _row.now).key stages.old stages.new number _base queue.now sender.old sender.new _total }
    ensures behind { IfSome result (λ s. IsBehind stages.new number _base _total s) }
{
    let shut = stages.shut_note(number, queue);
    sender.heed(shut);
    match stages.last_sender() {
        None => None,
        Some(next) => Some(next),
    }
}

/// Appends a queue behind that of the sender, which is the last one. Returns a sender of the new queue, or the queue.
fn follow(
    _row: &Arc<RowLock, Global>,
    stages: &mut Stages,
    _number: u64,
    _base: u64,
    _queue: &Queue,
    sender: &mut Sender,
    total: u64,
    spare: Stage,
) -> Result<Sender, Stage>
    requires left { HasLeft (arc_value _row.now).key stages.old _number _base _queue.now sender.old total }
    requires last { _number ≡ length stages.old.links.items }
    ensures moves { Moves (arc_value _row.now).key stages.old stages.new _number _base _queue.now sender.old sender.new total }
    ensures behind { IfOk result (λ s. IsBehind stages.new _number _base total s) }
{
    let shut = sender.note();
    sender.is_sound();
    match stages.append(shut, total, spare) {
        Ok(next) => Ok(next),
        Err(spare) => Err(spare),
    }
}

/// A sender of the last queue, for one that has left the queue of this number.
fn next_sender(
    row: &Arc<RowLock, Global>,
    stages: &mut Stages,
    number: u64,
    base: u64,
    queue: &Queue,
    sender: &mut Sender,
    total: u64,
    spare: Option<Stage>,
) -> (Option<Sender>, Option<Stage>)
    requires left { HasLeft (arc_value row.now).key stages.old number base queue.now sender.old total }
    ensures moves { Moves (arc_value row.now).key stages.old stages.new number base queue.now sender.old sender.new total }
    ensures behind { IfSome result.0 (λ s. IsBehind stages.new number base total s) }
{
    if number < stages.links.len() as u64 {
        return (find(row, stages, number, base, queue, sender, total), spare);
    }
    sender.is_sound();
    if stages.closing {
        return (None, spare);
    }
    let Some(spare) = spare else {
        return (None, None);
    };
    match follow(row, stages, number, base, queue, sender, total, spare) {
        Ok(next) => (Some(next), None),
        Err(spare) => (None, Some(spare)),
    }
}

/// Moves a sender that has left its queue to the last queue of its row. If its queue is the last one, `spare` is
/// appended. Takes memory for one entry of the list of queues, and never waits.
#[tactic(auto, using(crate::proofs::Onward::at_the_last, crate::proofs::Onward::still_at, crate::proofs::Onward::seen_on))]
pub fn go_on(left: Left, spare: Option<Stage>) -> GoneOn
    ensures { WentOn left result }
{
    let Left {
        position,
        sender,
        total,
    } = left;
    let Position {
        row,
        look,
        number,
        base,
        queue,
    } = position;
    let (hold, stages) = match row.take(look) {
        Ok(taken) => taken,
        Err(look) => {
            let position = Position {
                row,
                look,
                number,
                base,
                queue,
            };
            let left = Left {
                position,
                sender,
                total,
            };
            return GoneOn::Busy { left, spare };
        }
    };
    let mut stages = stages;
    let mut sender = sender;
    let (next, spare) = next_sender(
        &row,
        &mut stages,
        number,
        base,
        &queue,
        &mut sender,
        total,
        spare,
    );
    let closing = stages.closing;
    let there = stages.last_place();
    let _drained = stages.drained();
    if let (Some(next), Ok((to, above, share))) = (next, there) {
        let position = put_back(row, hold, stages, to, above, share);
        let sender = RowSender {
            position,
            sender: next,
        };
        return GoneOn::Gone { sender, spare };
    }
    let position = put_back(row, hold, stages, number, base, queue);
    let left = Left {
        position,
        sender,
        total,
    };
    GoneOn::Stays {
        left,
        spare,
        closing,
    }
}
