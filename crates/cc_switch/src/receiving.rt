//! A receiver continues at the queue that its group is at. Nothing here waits.
ghost use Rattle.std.specs.Prelude.{◌≡◌, ◌+◌, ◌<◌, length, IfSome};
ghost use Rattle.std.specs.Arc.{arc_value};
ghost use Rattle.cc_queue.specs.Group.{Ranked};
ghost use Rattle.cc_steps.specs.Walk.{IsOf};
ghost use Rattle.cc_switch.specs.Closing.{HasEnded, KnowsEnded};
ghost use Rattle.cc_switch.specs.Receiving.{HasOver, IsAgreed, IsNext, OverMoves, TookOn};
ghost use Rattle.cc_switch.specs.Stages.{IsSame};

use crate::position::{Position, RowReceiver, put_back};
use crate::stages::{RowLock, Stages};
use cc_queue::{Queue, Receiver};
use std::alloc::Global;
use std::marker::Model;
use std::sync::Arc;

/// A receiver whose take returned Ended, with this total.
#[derive(Drop)]
pub struct Over {
    pub(crate) position: Position,
    pub(crate) receiver: Receiver,
    pub(crate) group: u32,
    pub(crate) total: u64,
}

impl Model for Over {
    ghost use Rattle.cc_switch.specs.Closing.{LeftWalk, KnowsEnded};
    ghost use Rattle.cc_switch.specs.Position.{IsTaker};

    ghost Value = { LeftWalk };

    ghost view = { λ l. record { at = record { spot = l.position; pass = l.receiver; group = l.group }; total = l.total } };

    ghost invariant = { λ l. IsTaker l.position l.receiver l.group × KnowsEnded l.group l.position.queue l.receiver l.total };
}

/// What `take_on` returns.
pub enum TakenOn {
    /// Another thread has the row right now. Nothing has changed.
    Busy { over: Over },
    /// The receiver is at a later queue.
    Gone { receiver: RowReceiver },
    /// Its queue was the last one: the row has ended for the group if it is closed, else it is empty.
    Last { over: Over, closing: bool },
    /// Memory was refused.
    Stays { over: Over, closing: bool },
}

/// The receiver learns by a note that its queue was shut with the total that it knows.
fn agree(
    _row: &Arc<RowLock, Global>,
    stages: &mut Stages,
    number: u64,
    _base: u64,
    queue: &Queue,
    receiver: &mut Receiver,
    _group: u32,
    _total: u64,
)
    requires over { HasOver _group (arc_value _row.now).key stages.old number _base queue.now receiver.old _total }
    requires later { number < length stages.old.links.items }
    ensures moves { OverMoves _group (arc_value _row.now).key stages.old stages.new number _base queue.now receiver.old receiver.new _total }
    ensures agreed { IsAgreed stages.new number _total }
    ensures same { IsSame stages.old stages.new }
{
    let shut = stages.shut_note(number, queue);
    receiver.heed(shut);
}

/// Notes that the group is done with the queue of this number, if it was at that queue.
fn settle(
    _row: &Arc<RowLock, Global>,
    stages: &mut Stages,
    number: u64,
    _base: u64,
    _queue: &Queue,
    receiver: &mut Receiver,
    _group: u32,
    _total: u64,
)
    requires over { HasOver _group (arc_value _row.now).key stages.old number _base _queue.now receiver.old _total }
    requires later { number < length stages.old.links.items }
    requires agreed { IsAgreed stages.old number _total }
    ensures moves { OverMoves _group (arc_value _row.now).key stages.old stages.new number _base _queue.now receiver.old receiver.new _total }
    ensures links { stages.new.links.items ≡ stages.old.links.items }
    ensures same { receiver.new ≡ receiver.old }
{
    receiver.is_sound();
    if number == stages.done(_group) as u64 {
        let note = receiver.note();
        stages.end(_row, _group, note);
    }
}

/// A receiver of the queue that the group is at, for a receiver that is done with the queue of this number.
fn next_receiver(
    row: &Arc<RowLock, Global>,
    stages: &mut Stages,
    number: u64,
    base: u64,
    queue: &Queue,
    receiver: &mut Receiver,
    group: u32,
    total: u64,
) -> Option<(Receiver, Queue, u64)>
    requires over { HasOver group (arc_value row.now).key stages.old number base queue.now receiver.old total }
    ensures moves { OverMoves group (arc_value row.now).key stages.old stages.new number base queue.now receiver.old receiver.new total }
    ensures next { IfSome result (λ r. IsNext group (arc_value row.now).key stages.new number base total r.0 r.1 r.2) }
    ensures links { stages.new.links.items ≡ stages.old.links.items }
{
    if number >= stages.links.len() as u64 {
        receiver.is_sound();
        return None;
    }
    agree(row, stages, number, base, queue, receiver, group, total);
    settle(row, stages, number, base, queue, receiver, group, total);
    if stages.done(group) as u64 <= number {
        return None;
    }
    match stages.receiver(group) {
        None => None,
        Some(next) => Some(next),
    }
}

/// Moves a receiver that is done with its queue to the queue that its group is at. Never waits.
#[tactic(auto, using(crate::proofs::Onward::still_at, crate::proofs::Onward::seen_on))]
pub fn take_on(over: Over) -> TakenOn
    ensures { TookOn over result }
{
    let Over {
        position,
        receiver,
        group,
        total,
    } = over;
    let Position {
        row,
        look,
        number,
        base,
        queue,
    } = position;
    let (hold, stages) = match row.take(look) {
        Ok(taken) => taken,
        Err(look) => {
            let position = Position {
                row,
                look,
                number,
                base,
                queue,
            };
            let over = Over {
                position,
                receiver,
                group,
                total,
            };
            return TakenOn::Busy { over };
        }
    };
    let mut stages = stages;
    let mut receiver = receiver;
    let last = number >= stages.links.len() as u64;
    let next = next_receiver(
        &row,
        &mut stages,
        number,
        base,
        &queue,
        &mut receiver,
        group,
        total,
    );
    let closing = stages.closing;
    let at = stages.done(group) as u64;
    let _drained = stages.drained();
    if let Some((next, share, above)) = next {
        let position = put_back(row, hold, stages, at, above, share);
        let receiver = RowReceiver {
            position,
            receiver: next,
            group,
        };
        return TakenOn::Gone { receiver };
    }
    let position = put_back(row, hold, stages, number, base, queue);
    let over = Over {
        position,
        receiver,
        group,
        total,
    };
    if last {
        return TakenOn::Last { over, closing };
    }
    TakenOn::Stays { over, closing }
}

/// A receiver whose take returned Ended knows that its group has all items: a fact for proofs, and no work.
pub(crate) fn knows_ended(_queue: &Queue, receiver: &Receiver, _group: u32, _total: u64)
    requires here { IsOf _queue.now receiver.now }
    requires ranked { Ranked receiver.now (_group + 1) }
    requires ended { HasEnded receiver.now _total }
    ensures { KnowsEnded _group _queue.now receiver.now _total }
{
    receiver.is_sound();
}
