//! A take, by the pass of a handle.
ghost use Rattle.std.specs.Prelude.{◌≡◌, nat_le, Some};
ghost use Rattle.cc_steps.specs.Walk.{IsOf, Walk};
ghost use Rattle.cc_queue.specs.Calls.{Turned};
ghost use Rattle.cc_queue.specs.InPlace.{takes_after};
ghost use Rattle.cc_passes.specs.Names.{Answer};
ghost use Rattle.cc_passes.specs.Passes.{with_take, receiver_as};
ghost use Rattle.cc_passes.specs.Calls.{BeginsTake, TakeTurns, TurnsTake, TriesTake, IfRoom};

use crate::handle_inner::{HandleInner, HeldPass};
use crate::items::ItemForm;
use crate::results::taken_as;
use crate::return_codes::{BEGUN, BUSY, NO_PASS, NOT_BEGUN, WAITING, WIDE, WRONG_SIDE};
use cc_model::TakeAnswer;
use cc_queue::{HeldReceiver, Queue, Turn};

/// Begins a take, if the receiver has no call.
#[inline(always)]
fn begun(queue: &Queue, receiver: &mut HeldReceiver) -> u32
    requires { IsOf queue.now receiver.old.pass }
    ensures here { IsOf queue.now receiver.new.pass }
    ensures begins { BeginsTake (Some (receiver_as receiver.old)) (Some (receiver_as receiver.new)) result }
{
    if receiver.takes() {
        return BUSY;
    }
    receiver.begin_take(queue);
    BEGUN
}

/// The code after a turn. An answer alone writes the item and the numbers.
#[inline(always)]
fn after<I: ItemForm>(
    turn: Turn<(), (), TakeAnswer>,
    item: &mut I,
    total: &mut u64,
    served: &mut u32,
) -> u32
    requires { (item.old ≡ I.form.none) × (total.old ≡ 0) × (served.old ≡ 0) }
    ensures { (v w : Walk) → Turned (λ _. w) (λ _. w) Answer.Take v turn → TakeTurns I.form v (Some (with_take (takes_after turn) w)) (record { code = result; item = item.new; total = total.new; served = served.new }) }
{
    match turn {
        Turn::Waiting(()) => WAITING,
        Turn::Done {
            pass: (),
            answer,
            served: now,
        } => {
            *served = now;
            taken_as(answer, item, total)
        }
    }
}

/// One turn of a take, if the receiver has one.
#[inline(always)]
fn turned<I: ItemForm>(
    queue: &Queue,
    receiver: &mut HeldReceiver,
    item: &mut I,
    total: &mut u64,
    served: &mut u32,
) -> u32
    requires pass { IsOf queue.now receiver.old.pass }
    requires numbers { (item.old ≡ I.form.none) × (total.old ≡ 0) × (served.old ≡ 0) }
    ensures here { IsOf queue.now receiver.new.pass }
    ensures turns { TurnsTake I.form (Some (receiver_as receiver.old)) (Some (receiver_as receiver.new)) (record { code = result; item = item.new; total = total.new; served = served.new }) }
{
    if receiver.takes() {
        after(receiver.turn_take(queue), item, total, served)
    } else {
        NOT_BEGUN
    }
}

/// Begins a take, if the receiver has no call, and turns it once.
#[inline(always)]
fn tried<I: ItemForm>(
    queue: &Queue,
    receiver: &mut HeldReceiver,
    item: &mut I,
    total: &mut u64,
    served: &mut u32,
) -> u32
    requires pass { IsOf queue.now receiver.old.pass }
    requires numbers { (item.old ≡ I.form.none) × (total.old ≡ 0) × (served.old ≡ 0) }
    ensures here { IsOf queue.now receiver.new.pass }
    ensures tries { TriesTake I.form (Some (receiver_as receiver.old)) (Some (receiver_as receiver.new)) (record { code = result; item = item.new; total = total.new; served = served.new }) }
{
    if receiver.takes() {
        BUSY
    } else {
        after(receiver.try_take(queue), item, total, served)
    }
}

impl HandleInner {
    /// Begins a take.
    #[inline(always)]
    pub fn begin_take(&mut self) -> u32
        ensures begins { BeginsTake self.old.pass self.new.pass result }
        ensures same { self.new.words ≡ self.old.words }
    {
        match &mut self.pass {
            Some(HeldPass::Receiver(receiver)) => begun(&self.queue, receiver),
            Some(HeldPass::Sender(_)) => WRONG_SIDE,
            None => NO_PASS,
        }
    }

    /// One turn of a take, if its item has room for each body of the queue. An answer alone writes the item and the numbers.
    pub fn turn_take<I: ItemForm>(&mut self, item: &mut I, total: &mut u64, served: &mut u32) -> u32
        requires { (item.old ≡ I.form.none) × (total.old ≡ 0) × (served.old ≡ 0) }
        ensures turns { IfRoom I.form (nat_le self.old.words I.form.room) (TurnsTake I.form) self.old.pass self.new.pass (record { code = result; item = item.new; total = total.new; served = served.new }) }
        ensures same { self.new.words ≡ self.old.words }
    {
        if self.longest > I::room() {
            return WIDE;
        }
        match &mut self.pass {
            Some(HeldPass::Receiver(receiver)) => turned(
                &self.queue,
                receiver,
                item,
                total,
                served,
            ),
            Some(HeldPass::Sender(_)) => WRONG_SIDE,
            None => NO_PASS,
        }
    }

    /// Begins a take, if its item has room for each body of the queue, and if it was begun turns it once.
    pub fn try_take<I: ItemForm>(&mut self, item: &mut I, total: &mut u64, served: &mut u32) -> u32
        requires { (item.old ≡ I.form.none) × (total.old ≡ 0) × (served.old ≡ 0) }
        ensures tries { IfRoom I.form (nat_le self.old.words I.form.room) (TriesTake I.form) self.old.pass self.new.pass (record { code = result; item = item.new; total = total.new; served = served.new }) }
        ensures same { self.new.words ≡ self.old.words }
    {
        if self.longest > I::room() {
            return WIDE;
        }
        match &mut self.pass {
            Some(HeldPass::Receiver(receiver)) => tried(&self.queue, receiver, item, total, served),
            Some(HeldPass::Sender(_)) => WRONG_SIDE,
            None => NO_PASS,
        }
    }
}
