//! A close, by the pass of a handle.
ghost use Rattle.std.specs.Prelude.{◌≡◌, Some};
ghost use Rattle.cc_steps.specs.Walk.{IsOf};
ghost use Rattle.cc_passes.specs.Passes.{sender_as};
ghost use Rattle.cc_passes.specs.Calls.{BeginsClose, TurnsClose};

use crate::handle_inner::{HandleInner, HeldPass};
use crate::results::closed_as;
use crate::return_codes::{BEGUN, BUSY, NO_PASS, NOT_BEGUN, WAITING, WRONG_SIDE};
use cc_queue::{HeldSender, Queue, SenderCall, Turn};

/// Begins a close, if the sender has no call.
#[inline(always)]
fn begun(queue: &Queue, sender: &mut HeldSender) -> u32
    requires { IsOf queue.now sender.old.pass }
    ensures here { IsOf queue.now sender.new.pass }
    ensures begins { BeginsClose (Some (sender_as sender.old)) (Some (sender_as sender.new)) result }
{
    match sender.call() {
        SenderCall::None => {
            sender.begin_close(queue);
            BEGUN
        }
        SenderCall::Send | SenderCall::Close => BUSY,
    }
}

/// One turn of a close, if the sender has one.
#[inline(always)]
fn turned(queue: &Queue, sender: &mut HeldSender, total: &mut u64, served: &mut u32) -> u32
    requires pass { IsOf queue.now sender.old.pass }
    requires numbers { (total.old ≡ 0) × (served.old ≡ 0) }
    ensures here { IsOf queue.now sender.new.pass }
    ensures turns { TurnsClose (Some (sender_as sender.old)) (Some (sender_as sender.new)) (record { code = result; number = total.new; served = served.new }) }
{
    match sender.call() {
        SenderCall::Close => match sender.turn_close(queue) {
            Turn::Waiting(()) => WAITING,
            Turn::Done {
                pass: (),
                answer,
                served: now,
            } => {
                *served = now;
                closed_as(answer, total)
            }
        },
        SenderCall::None | SenderCall::Send => NOT_BEGUN,
    }
}

impl HandleInner {
    /// Begins a close.
    #[inline(always)]
    pub fn begin_close(&mut self) -> u32
        ensures begins { BeginsClose self.old.pass self.new.pass result }
        ensures same { self.new.words ≡ self.old.words }
    {
        match &mut self.pass {
            Some(HeldPass::Sender(sender)) => begun(&self.queue, sender),
            Some(HeldPass::Receiver(_)) => WRONG_SIDE,
            None => NO_PASS,
        }
    }

    /// One turn of a close. An answer alone writes the numbers.
    #[inline(always)]
    pub fn turn_close(&mut self, total: &mut u64, served: &mut u32) -> u32
        requires { (total.old ≡ 0) × (served.old ≡ 0) }
        ensures turns { TurnsClose self.old.pass self.new.pass (record { code = result; number = total.new; served = served.new }) }
        ensures same { self.new.words ≡ self.old.words }
    {
        match &mut self.pass {
            Some(HeldPass::Sender(sender)) => turned(&self.queue, sender, total, served),
            Some(HeldPass::Receiver(_)) => WRONG_SIDE,
            None => NO_PASS,
        }
    }
}
