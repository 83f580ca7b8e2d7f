//! The 21 kinds of atomic step, one function each (the steps of a call and of a combiner: CC-Synch, Fatourou and Kallimanis,
//! PPoPP 2012; those of the list: the two-lock queue, Michael and Scott, PODC 1996).
//!
//! Each takes the words as the passes of one chain step on them, the seat of the pass that steps, and the plain values of its
//! step. It may be called if the seat is of this topic (`here`), and if the pass is at exactly this step, with exactly these
//! values (`at`): a node is its index, and a link an index and 1, with 0 for none; a tail, or a node that isn't of the list, is
//! of the words' chain. A load, a swap or an addition returns the word as it was. Afterwards:
//!
//! - `walked` or `found`: moves of other passes came in between, and then this one; the seat has seen that run; and what a
//!   load found is what the word held in it;
//! - `step`: the pass is in the next phase of the machine's step, with the calls that it began and this kind added to those
//!   that it did;
//! - `later`: what was seen before begins what is seen now.
ghost use Rattle.std.specs.Prelude.{◌≡◌, ◌+◌, ◌<◌, ◌^◌, Some, None};
ghost use Rattle.cc_runs.specs.State.{Load, Store, Swap, Add};
ghost use Rattle.cc_steps.specs.Names.{Word, NodeField, ItemField, Kind, Served};
ghost use Rattle.cc_steps.specs.Seen.{Onward};
ghost use Rattle.cc_steps.specs.Reuse.{HasReused, HasOwned};
ghost use Rattle.cc_steps.specs.Walk.{IsOf, Steps, CanBegin, Found, Walked, walked_to, IsPendingIn, IsToldAt, leads_to, LinksOwn};

use crate::operations;
use crate::seats::PassSeat;
use crate::words::ChainWords;
use cc_model::Call;
use cc_runs::{Chain, ItemField, NodeField, Object, Word};

/// ResetNext, by the caller: stores 0 into `next` of its own node. The call begins with this step, knowing what its pass has
/// seen. `own`: the pass owned the node, and no other pass of its chain did.
#[tactic(auto, using(crate::proofs::StepLaws::begun_owned, crate::proofs::StepLaws::begin_is_early))]
#[inline(always)]
pub fn reset_next(words: &ChainWords<'_>, seat: &mut PassSeat, node: u64, call: Call)
    requires here { IsOf words.now.topic seat.old }
    requires at { CanBegin seat.old call (Store (Word.Node words.now.chain node NodeField.Next) 0) }
    ensures walked { Walked seat.old (Some call) seat.new }
    ensures step { seat.new ≡ walked_to seat.old (Some call) 0 seat.new.seen }
    ensures later { Onward seat.old.seen seat.new.seen }
    ensures own { HasOwned seat.old (Some call) words.now.chain node seat.new }
{
    operations::begin(words, seat, words.node(node, NodeField::Next), call);
}

/// ResetState, by the caller: stores 1, waiting, into `state` of its own node. `own`: as at `reset_next`.
#[tactic(auto, using(crate::proofs::Walks::can_do, crate::proofs::StepLaws::owned, crate::proofs::StepLaws::is_early))]
#[inline(always)]
pub fn reset_state(words: &ChainWords<'_>, seat: &mut PassSeat, node: u64)
    requires here { IsOf words.now.topic seat.old }
    requires at { Steps seat.old Kind.ResetState (Store (Word.Node words.now.chain node NodeField.State) 1) }
    ensures walked { Walked seat.old None seat.new }
    ensures step { seat.new ≡ walked_to seat.old None 0 seat.new.seen }
    ensures later { Onward seat.old.seen seat.new.seen }
    ensures own { HasOwned seat.old None words.now.chain node seat.new }
{
    operations::store_release(words, seat, words.node(node, NodeField::State), 1);
}

/// Exchange, by the caller: swaps the tail of its chain with the link of its own node. The call has its place in the order
/// of the chain from this step on; the node whose link was found is its current one, and its own from now on.
#[tactic(auto, using(crate::proofs::Walks::can_do))]
#[inline(always)]
pub fn exchange_tail(words: &ChainWords<'_>, seat: &mut PassSeat, link: u64) -> u64
    requires here { IsOf words.now.topic seat.old }
    requires at { Steps seat.old Kind.Exchange (Swap (Word.Tail words.now.chain) link) }
    ensures found { Found seat.old None result seat.new }
    ensures step { seat.new ≡ walked_to seat.old None result seat.new.seen }
    ensures later { Onward seat.old.seen seat.new.seen }
{
    operations::swap(words, seat, words.tail(), link)
}

/// WriteRequest, by a sender: stores the tag or a word of the body of its request into its current
/// node.
#[tactic(auto, using(crate::proofs::Walks::can_do, crate::proofs::StepLaws::is_early))]
#[inline(always)]
pub fn write_request(
    words: &ChainWords<'_>,
    seat: &mut PassSeat,
    node: u64,
    field: NodeField,
    value: u64,
)
    requires here { IsOf words.now.topic seat.old }
    requires at { Steps seat.old Kind.WriteRequest (Store (Word.Node words.now.chain node field) value) }
    ensures walked { Walked seat.old None seat.new }
    ensures step { seat.new ≡ walked_to seat.old None 0 seat.new.seen }
    ensures later { Onward seat.old.seen seat.new.seen }
{
    operations::store_release(words, seat, words.node(node, field), value);
}

/// Link, by the caller: stores the link of the node that it left to the chain into `next` of its current one, so that a
/// combiner comes upon the request. `pending`: in the history that the pass has seen, its last call has no answer.
#[tactic(auto, using(crate::proofs::Walks::can_do, crate::proofs::StepLaws::is_early))]
#[inline(always)]
pub fn link_next(words: &ChainWords<'_>, seat: &mut PassSeat, node: u64, link: u64)
    requires here { IsOf words.now.topic seat.old }
    requires at { Steps seat.old Kind.Link (Store (Word.Node words.now.chain node NodeField.Next) link) }
    ensures walked { Walked seat.old None seat.new }
    ensures step { seat.new ≡ walked_to seat.old None 0 seat.new.seen }
    ensures later { Onward seat.old.seen seat.new.seen }
    ensures pending { IsPendingIn seat.new }
{
    operations::store_release(words, seat, words.node(node, NodeField::Next), link);
}

/// ReadState, by the caller: loads `state` of its current node: 0, it has to serve; 1, it waits; 2, it was served.
#[tactic(auto, using(crate::proofs::Walks::can_do))]
#[inline(always)]
pub fn read_state(words: &ChainWords<'_>, seat: &mut PassSeat, node: u64) -> u64
    requires here { IsOf words.now.topic seat.old }
    requires at { Steps seat.old Kind.ReadState (Load (Word.Node words.now.chain node NodeField.State)) }
    ensures found { Found seat.old None result seat.new }
    ensures step { seat.new ≡ walked_to seat.old None result seat.new.seen }
    ensures later { Onward seat.old.seen seat.new.seen }
{
    operations::load(words, seat, words.node(node, NodeField::State))
}

/// ReadNext, by a combiner: loads `next` of a node of its chain.
#[tactic(auto, using(crate::proofs::Walks::can_do))]
#[inline(always)]
pub fn read_next(words: &ChainWords<'_>, seat: &mut PassSeat, node: u64) -> u64
    requires here { IsOf words.now.topic seat.old }
    requires at { Steps seat.old Kind.ReadNext (Load (Word.Node words.now.chain node NodeField.Next)) }
    ensures found { Found seat.old None result seat.new }
    ensures step { seat.new ≡ walked_to seat.old None result seat.new.seen }
    ensures later { Onward seat.old.seen seat.new.seen }
    ensures own { LinksOwn seat.old.stand.phase result }
{
    operations::load(words, seat, words.node(node, NodeField::Next))
}

/// ReadRequest, by the senders' combiner: loads the tag or a word of the body of the request in a node.
#[tactic(auto, using(crate::proofs::Walks::can_do))]
#[inline(always)]
pub fn read_request(words: &ChainWords<'_>, seat: &mut PassSeat, node: u64, field: NodeField) -> u64
    requires here { IsOf words.now.topic seat.old }
    requires at { Steps seat.old Kind.ReadRequest (Load (Word.Node words.now.chain node field)) }
    ensures found { Found seat.old None result seat.new }
    ensures step { seat.new ≡ walked_to seat.old None result seat.new.seen }
    ensures later { Onward seat.old.seen seat.new.seen }
{
    operations::load(words, seat, words.node(node, field))
}

/// ReadObject, by a combiner: loads a word of its side of the list.
#[tactic(auto, using(crate::proofs::Walks::can_do))]
#[inline(always)]
pub fn read_object(words: &ChainWords<'_>, seat: &mut PassSeat, object: Object) -> u64
    requires here { IsOf words.now.topic seat.old }
    requires at { Steps seat.old Kind.ReadObject (Load (Word.Object object)) }
    ensures found { Found seat.old None result seat.new }
    ensures step { seat.new ≡ walked_to seat.old None result seat.new.seen }
    ensures later { Onward seat.old.seen seat.new.seen }
{
    operations::load(words, seat, Word::Object(object))
}

/// WriteObject, by a combiner: stores a word of its side of the list.
#[tactic(auto, using(crate::proofs::Walks::can_do, crate::proofs::StepLaws::is_early))]
#[inline(always)]
pub fn write_object(words: &ChainWords<'_>, seat: &mut PassSeat, object: Object, value: u64)
    requires here { IsOf words.now.topic seat.old }
    requires at { Steps seat.old Kind.WriteObject (Store (Word.Object object) value) }
    ensures walked { Walked seat.old None seat.new }
    ensures step { seat.new ≡ walked_to seat.old None 0 seat.new.seen }
    ensures later { Onward seat.old.seen seat.new.seen }
{
    operations::store_release(words, seat, Word::Object(object), value);
}

/// WriteAnswer, by a combiner: stores the answer word, or the tag or a word of the body of the item that was handed out, into
/// the node that it serves.
#[tactic(auto, using(crate::proofs::Walks::can_do, crate::proofs::StepLaws::is_early))]
#[inline(always)]
pub fn write_answer(
    words: &ChainWords<'_>,
    seat: &mut PassSeat,
    node: u64,
    field: NodeField,
    value: u64,
)
    requires here { IsOf words.now.topic seat.old }
    requires at { Steps seat.old Kind.WriteAnswer (Store (Word.Node words.now.chain node field) value) }
    ensures walked { Walked seat.old None seat.new }
    ensures step { seat.new ≡ walked_to seat.old None 0 seat.new.seen }
    ensures later { Onward seat.old.seen seat.new.seen }
{
    operations::store_release(words, seat, words.node(node, field), value);
}

/// MarkDone, by a combiner: stores 2 into `state` of the node that it served, after the last word of the answer. The mark of a send
/// or a close may not be early, and that of a take may.
#[tactic(auto, using(crate::proofs::Walks::can_do, crate::proofs::StepLaws::take_mark_is_early))]
#[inline(always)]
pub fn mark_done(words: &ChainWords<'_>, seat: &mut PassSeat, chain: Chain, node: u64)
    requires here { IsOf words.now.topic seat.old }
    requires chain { words.now.chain ≡ chain }
    requires at { Steps seat.old Kind.MarkDone (Store (Word.Node words.now.chain node NodeField.State) 2) }
    ensures walked { Walked seat.old None seat.new }
    ensures step { seat.new ≡ walked_to seat.old None 0 seat.new.seen }
    ensures later { Onward seat.old.seen seat.new.seen }
{
    let state = words.node(node, NodeField::State);
    match chain {
        Chain::Send => operations::store(words, seat, state, 2),
        Chain::Take(_) => operations::store_release(words, seat, state, 2),
    }
}

/// HandOver, by a combiner: stores 0 into `state` of the node at which it stopped, whose caller serves from there on.
#[tactic(auto, using(crate::proofs::Walks::can_do, crate::proofs::StepLaws::is_early))]
#[inline(always)]
pub fn hand_over(words: &ChainWords<'_>, seat: &mut PassSeat, node: u64)
    requires here { IsOf words.now.topic seat.old }
    requires at { Steps seat.old Kind.HandOver (Store (Word.Node words.now.chain node NodeField.State) 0) }
    ensures walked { Walked seat.old None seat.new }
    ensures step { seat.new ≡ walked_to seat.old None 0 seat.new.seen }
    ensures later { Onward seat.old.seen seat.new.seen }
{
    operations::store_release(words, seat, words.node(node, NodeField::State), 0);
}

/// ReadAnswer, by the caller: loads the answer word of its current node, or the tag or a word of the body of the item that it
/// was given. If it is the last word, the call ends with this step, and the answer is taken. `told`: it is then the answer of
/// the pass's last call in the history that the pass has seen.
#[tactic(auto, using(crate::proofs::Walks::can_do, crate::proofs::ReadAnswers::told_so))]
#[inline(always)]
pub fn read_answer(words: &ChainWords<'_>, seat: &mut PassSeat, node: u64, field: NodeField) -> u64
    requires here { IsOf words.now.topic seat.old }
    requires at { Steps seat.old Kind.ReadAnswer (Load (Word.Node words.now.chain node field)) }
    ensures found { Found seat.old None result seat.new }
    ensures step { seat.new ≡ walked_to seat.old None result seat.new.seen }
    ensures later { Onward seat.old.seen seat.new.seen }
    ensures told { seat.old.setting.served ≡ Served.List → IsToldAt seat.new (leads_to seat.old result) }
{
    operations::load(words, seat, words.node(node, field))
}

/// ReadPassed, by the senders' combiner: loads how many groups have passed a list node.
#[tactic(auto, using(crate::proofs::Walks::can_do))]
#[inline(always)]
pub fn read_passed(words: &ChainWords<'_>, seat: &mut PassSeat, node: u64) -> u64
    requires here { IsOf words.now.topic seat.old }
    requires at { Steps seat.old Kind.ReadPassed (Load (Word.Item node ItemField.Passed)) }
    ensures found { Found seat.old None result seat.new }
    ensures step { seat.new ≡ walked_to seat.old None result seat.new.seen }
    ensures later { Onward seat.old.seen seat.new.seen }
{
    operations::load(words, seat, Word::Item(node, ItemField::Passed))
}

/// ResetListNode, by the senders' combiner: stores 0 into that count, or into `next`, of a node that it found free. `reuse`:
/// if the node was in the list before, the take that went past it was decided; and no take holds it.
#[tactic(auto, using(crate::proofs::Walks::can_do, crate::proofs::StepLaws::is_early))]
#[inline(always)]
pub fn reset_list_node(words: &ChainWords<'_>, seat: &mut PassSeat, node: u64, field: ItemField)
    requires here { IsOf words.now.topic seat.old }
    requires at { Steps seat.old Kind.ResetListNode (Store (Word.Item node field) 0) }
    ensures walked { Walked seat.old None seat.new }
    ensures step { seat.new ≡ walked_to seat.old None 0 seat.new.seen }
    ensures later { Onward seat.old.seen seat.new.seen }
    ensures reuse { seat.old.setting.served ≡ Served.List → HasReused seat.old node seat.new }
{
    operations::store_release(words, seat, Word::Item(node, field), 0);
}

/// WriteItem, by the senders' combiner: stores the tag or a word of the body of an item into the node that it
/// prepares.
#[tactic(auto, using(crate::proofs::Walks::can_do, crate::proofs::StepLaws::is_early))]
#[inline(always)]
pub fn write_item(
    words: &ChainWords<'_>,
    seat: &mut PassSeat,
    node: u64,
    field: ItemField,
    value: u64,
)
    requires here { IsOf words.now.topic seat.old }
    requires at { Steps seat.old Kind.WriteItem (Store (Word.Item node field) value) }
    ensures walked { Walked seat.old None seat.new }
    ensures step { seat.new ≡ walked_to seat.old None 0 seat.new.seen }
    ensures later { Onward seat.old.seen seat.new.seen }
{
    operations::store_release(words, seat, Word::Item(node, field), value);
}

/// LinkLast, by the senders' combiner: stores the link of the node that it prepared, or of the closing mark, into `next` of
/// the last node. The send is accepted, or the queue closed, with this step.
#[tactic(auto, using(crate::proofs::Walks::can_do, crate::proofs::StepLaws::is_early))]
#[inline(always)]
pub fn link_last(words: &ChainWords<'_>, seat: &mut PassSeat, last: u64, link: u64)
    requires here { IsOf words.now.topic seat.old }
    requires at { Steps seat.old Kind.LinkLast (Store (Word.Item last ItemField.Next) link) }
    ensures walked { Walked seat.old None seat.new }
    ensures step { seat.new ≡ walked_to seat.old None 0 seat.new.seen }
    ensures later { Onward seat.old.seen seat.new.seen }
{
    operations::store_release(words, seat, Word::Item(last, ItemField::Next), link);
}

/// ReadDummyNext, by a group's combiner: loads `next` of the dummy.
#[tactic(auto, using(crate::proofs::Walks::can_do))]
#[inline(always)]
pub fn read_dummy_next(words: &ChainWords<'_>, seat: &mut PassSeat, dummy: u64) -> u64
    requires here { IsOf words.now.topic seat.old }
    requires at { Steps seat.old Kind.ReadDummyNext (Load (Word.Item dummy ItemField.Next)) }
    ensures found { Found seat.old None result seat.new }
    ensures step { seat.new ≡ walked_to seat.old None result seat.new.seen }
    ensures later { Onward seat.old.seen seat.new.seen }
{
    operations::load(words, seat, Word::Item(dummy, ItemField::Next))
}

/// ReadItem, by a group's combiner: loads the tag or a word of the body of the node after the dummy.
#[tactic(auto, using(crate::proofs::Walks::can_do))]
#[inline(always)]
pub fn read_item(words: &ChainWords<'_>, seat: &mut PassSeat, node: u64, field: ItemField) -> u64
    requires here { IsOf words.now.topic seat.old }
    requires at { Steps seat.old Kind.ReadItem (Load (Word.Item node field)) }
    ensures found { Found seat.old None result seat.new }
    ensures step { seat.new ≡ walked_to seat.old None result seat.new.seen }
    ensures later { Onward seat.old.seen seat.new.seen }
{
    operations::load(words, seat, Word::Item(node, field))
}

/// AddPassed, by a group's combiner: adds 1 to the count of groups that have passed the old dummy. The take is decided with
/// this step.
#[tactic(auto, using(crate::proofs::Walks::can_do))]
#[inline(always)]
pub fn add_passed(words: &ChainWords<'_>, seat: &mut PassSeat, dummy: u64) -> u64
    requires here { IsOf words.now.topic seat.old }
    requires at { Steps seat.old Kind.AddPassed (Add (Word.Item dummy ItemField.Passed) 1) }
    ensures found { Found seat.old None result seat.new }
    ensures step { seat.new ≡ walked_to seat.old None result seat.new.seen }
    ensures later { Onward seat.old.seen seat.new.seen }
{
    operations::add(words, seat, Word::Item(dummy, ItemField::Passed), 1)
}
