//! The answers of a row belong to one legal history.
ghost use Rattle.cc_switch.specs.Stands.{SendsStand, TakesStand};

use crate::position::{RowReceiver, RowSender};

impl RowSender {
    /// The sends of the row, as far as the sender has seen them, have the answers of one queue that is never full: a
    /// fact for proofs, and no work.
    #[tactic(auto, using(crate::proofs::Standing::sends_stand))]
    pub fn is_sound(&self)
        ensures { SendsStand self.now }
    {
        self.position.is_sound();
        self.sender.is_sound();
    }
}

impl RowReceiver {
    /// The takes of the row, as far as the receiver has seen them, have the answers of one queue, first in and first
    /// out: a fact for proofs, and no work.
    #[tactic(auto, using(crate::proofs::Standing::takes_stand))]
    pub fn is_sound(&self)
        ensures { TakesStand self.now }
    {
        self.position.is_sound();
        self.receiver.is_sound();
    }
}
