//! The law of joined histories: the legal histories of queues that follow each other, joined one after another, are one
//! legal history, of a queue that is never full.
//!
//! A queue follows another one after that one was shut, and a group goes on to a queue after it was handed all items of the
//! queue before. The items of the joined history have the places of the whole row. With a bound (`Bounded`, `Narrow`) each
//! queue has the bound as its capacity; the joined history is then that of one queue with this capacity, each Full among it.
//!
//! `cc_switch` cites these laws of what a pass has seen. `cc_row` has the laws of real time, over all interleavings of the
//! threads of a row.
#![tactic(auto)]

ghost use Rattle.cc_joined.specs.Joined.{JoinedAccepts, JoinedHandsInOrder, JoinedIsLegal, JoinedSendsAreLegal, JoinedTakesAreLegal};
ghost use Rattle.cc_joined.specs.Bounded.{BoundedHasRoom, BoundedIsLegal, BoundedSendsAreLegal, FullOfTheLastIsRight, HandedAreCounted, WaitingIsEnough};
ghost use Rattle.cc_joined.specs.Narrow.{LastPlaceCounts, NarrowSendHasRoom};

/// The joined calls of a row have the answers of one sequential queue, which is never full and never used up.
#[tactic(auto, using(crate::proofs::Joined::joined_is_legal, crate::proofs::Joined::joined_sends, crate::proofs::Joined::joined_takes))]
pub fn joined_is_legal()
    ensures legal { JoinedIsLegal }
    ensures sends { JoinedSendsAreLegal }
    ensures takes { JoinedTakesAreLegal }
{}

/// The items that a group was handed are a prefix of those that the row accepted.
#[tactic(auto, using(crate::proofs::Joined::joined_hands_in_order))]
pub fn joined_hands_in_order()
    ensures { JoinedHandsInOrder }
{}

/// The row accepted exactly the items of its queues, in their order.
#[tactic(auto, using(crate::proofs::Joined::joined_accepts))]
pub fn joined_accepts()
    ensures { JoinedAccepts }
{}

/// The joined calls of a row with a bound have the answers of one sequential queue with this capacity.
#[tactic(auto, using(crate::proofs::Bounded::bounded_is_legal, crate::proofs::Bounded::bounded_sends, crate::proofs::Bounded::bounded_room))]
pub fn bounded_is_legal()
    ensures legal { BoundedIsLegal }
    ensures sends { BoundedSendsAreLegal }
    ensures room { BoundedHasRoom }
{}

/// Each Full of the last queue is right for the whole row.
#[tactic(auto, using(crate::proofs::Bounded::full_right, crate::proofs::Bounded::handed_counted))]
pub fn bounded_full_is_right()
    ensures right { FullOfTheLastIsRight }
    ensures handed { HandedAreCounted }
{}

/// A row keeps its bound if each queue accepts nothing before every group is done with the queues before it.
#[tactic(auto, using(crate::proofs::Bounded::waiting_enough))]
pub fn waiting_is_enough()
    ensures { WaitingIsEnough }
{}

/// The place of the item that was accepted last shows how many items the queue has accepted. So the place shows that the row
/// had room for the item while a group was at the queue before.
pub fn narrow_send_has_room()
    ensures counts { LastPlaceCounts }
    ensures room { NarrowSendHasRoom }
{}
