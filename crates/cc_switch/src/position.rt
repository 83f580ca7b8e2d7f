//! The position of a pass in a row, and the passes of a row.
ghost use Rattle.std.specs.Prelude.{◌≡◌, ◌+◌, IfSome};
ghost use Rattle.std.specs.Arc.{arc_value};
ghost use Rattle.cc_guard.specs.Guard.{IsHoldOf};
ghost use Rattle.cc_switch.specs.Links.{GoesOnFrom};
ghost use Rattle.cc_switch.specs.Position.{IsSpot};
ghost use Rattle.cc_switch.specs.Stages.{IsAtQueue, log_of};

use crate::links::RowLog;
use crate::stages::{RowLock, Stages};
use cc_guard::{Hold, Look};
use cc_queue::{Queue, Receiver, Sender};
use std::alloc::Global;
use std::marker::Model;
use std::sync::Arc;

/// Where a pass is: a share of its row, what the pass has seen of the row, a share of its queue, the number of that
/// queue from 0 on, and how many items the queues before it accepted.
#[derive(Drop)]
pub struct Position {
    pub(crate) row: Arc<RowLock, Global>,
    pub(crate) look: Look<Stages, RowLog, Queue>,
    pub(crate) number: u64,
    pub(crate) base: u64,
    pub(crate) queue: Queue,
}

impl Model for Position {
    ghost use Rattle.std.specs.Arc.{arc_value};
    ghost use Rattle.cc_switch.specs.Position.{Spot, IsInRow};

    ghost Value = { Spot };

    ghost view = { λ b. record { row = arc_value b.row; seen = b.look.seen; number = b.number; base = b.base; queue = b.queue } };

    ghost invariant = { λ b. IsInRow (arc_value b.row) b.look b.number b.base b.queue };
}

/// A sender of a row, without a call.
#[derive(Drop)]
pub struct RowSender {
    pub(crate) position: Position,
    pub(crate) sender: Sender,
}

impl Model for RowSender {
    ghost use Rattle.cc_steps.specs.Walk.{IsOf};
    ghost use Rattle.cc_switch.specs.Position.{RowWalk};

    ghost Value = { RowWalk };

    ghost view = { λ s. record { spot = s.position; pass = s.sender; group = 0 } };

    ghost invariant = { λ s. IsOf s.position.queue s.sender };
}

/// A receiver of a row, without a call.
#[derive(Drop)]
pub struct RowReceiver {
    pub(crate) position: Position,
    pub(crate) receiver: Receiver,
    pub(crate) group: u32,
}

impl Model for RowReceiver {
    ghost use Rattle.cc_switch.specs.Position.{RowWalk, IsTaker};

    ghost Value = { RowWalk };

    ghost view = { λ s. record { spot = s.position; pass = s.receiver; group = s.group } };

    ghost invariant = { λ s. IsTaker s.position s.receiver s.group };
}

impl RowSender {
    /// The place in the row of the item that has this place in the sender's queue. None if it exceeds 64 bits.
    pub fn place(&self, place: u64) -> Option<u64>
        ensures { IfSome result (λ p. p ≡ self.now.spot.base + place) }
    {
        self.position.place(place)
    }
}

impl RowReceiver {
    /// The place in the row of the item that has this place in the receiver's queue. None if it exceeds 64 bits.
    pub fn place(&self, place: u64) -> Option<u64>
        ensures { IfSome result (λ p. p ≡ self.now.spot.base + place) }
    {
        self.position.place(place)
    }
}

/// Gives a row its queues back. Returns the position at the queue of this number.
#[tactic(auto, using(crate::proofs::Onward::in_row))]
pub(crate) fn put_back(
    row: Arc<RowLock, Global>,
    hold: Hold<Stages, RowLog, Queue>,
    stages: Stages,
    number: u64,
    base: u64,
    queue: Queue,
) -> Position
    requires here { IsHoldOf (arc_value row) hold }
    requires grows { GoesOnFrom hold.seen (log_of stages) }
    requires at { IsAtQueue (arc_value row).key stages number base queue }
    ensures row { result.row ≡ arc_value row }
    ensures seen { result.seen ≡ log_of stages }
    ensures number { (result.number ≡ number) × (result.base ≡ base) }
    ensures queue { result.queue ≡ queue }
{
    let look = row.put_back(hold, stages);
    Position {
        row,
        look,
        number,
        base,
        queue,
    }
}

impl Position {
    /// What a pass knows of its position: a fact for proofs, and no work.
    pub(crate) fn is_sound(&self)
        ensures { IsSpot self.now }
    {
        let _look = &self.look;
        let _row = &self.row;
    }

    /// The place in the row of the item that has this place in its queue. None if it exceeds 64 bits.
    pub(crate) fn place(&self, place: u64) -> Option<u64>
        ensures { IfSome result (λ p. p ≡ self.now.base + place) }
    {
        self.base.checked_add(place)
    }
}
