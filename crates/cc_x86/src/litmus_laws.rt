//! Litmus tests of the model of store buffers, and of the queue's passes on it.
ghost use Rattle.cc_x86.specs.Litmus.{MessagePassing, StoreBuffering};
ghost use Rattle.cc_x86.specs.Marks.{MarksOfSendsAreNeeded};

/// Without the discipline buffers are seen: two threads each write a word and then read the other's, and both may miss what
/// the other wrote (SB, the litmus test of store buffering).
#[tactic(auto, using(crate::proofs::Litmus::store_buffering))]
pub fn store_buffering()
    ensures { StoreBuffering }
{}

/// Buffers drain in order: a thread that has read what another wrote last also reads what that wrote before (MP, message
/// passing).
#[tactic(auto, using(crate::proofs::Litmus::message_passing))]
pub fn message_passing()
    ensures { MessagePassing }
{}

/// If the mark of a send is plain too, a take can miss an item: the take begins after the send has returned that the item was
/// accepted, and finds none.
#[tactic(auto, using(crate::proofs::Marks::marks_of_sends_are_needed))]
pub fn marks_of_sends_are_needed()
    ensures { MarksOfSendsAreNeeded }
{}
