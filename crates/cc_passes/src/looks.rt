//! Looks at the counts of a queue, by the pass of a handle: one load each. They never wait.
ghost use Rattle.std.specs.Prelude.{◌≡◌, Some};
ghost use Rattle.cc_steps.specs.Walk.{IsOf};
ghost use Rattle.cc_passes.specs.Passes.{sender_as, receiver_as};
ghost use Rattle.cc_passes.specs.Looks.{Finds, LooksAt};

use crate::handle_inner::{HandleInner, HeldPass};
use crate::return_codes::{BAD_GROUPS, BUSY, DONE, NO_PASS};
use cc_queue::{HeldReceiver, HeldSender, Looks, Queue, SenderCall};
use cc_runs::Object;

/// The number that a look finds.
#[derive(Clone, Copy)]
pub enum Count {
    /// How many items the queue has accepted.
    Accepted,
    /// How many items this group, from 1, has taken.
    Taken(u32),
    /// 1 if the queue is shut, else 0.
    Shut,
}

/// Looks with a pass that has no call: DONE, and what it found; or why it doesn't look, and 0.
#[inline(always)]
fn found_by<P: Looks>(queue: &Queue, pass: &mut P, count: Count) -> (u32, u64)
    requires here { IsOf queue.now (P.walk pass.old) }
    requires idle { P.is_idle pass.old }
    ensures here { IsOf queue.now (P.walk pass.new) }
    ensures idle { P.is_idle pass.new }
    ensures finds { Finds count (P.walk pass.old) (P.walk pass.new) result.0 result.1 }
{
    match count {
        Count::Accepted => (DONE, pass.look(queue, Object::Count)),
        Count::Taken(group) => {
            if group != 0 && queue.has_group(group - 1) {
                (DONE, pass.look(queue, Object::Taken(group - 1)))
            } else {
                (BAD_GROUPS, 0)
            }
        }
        Count::Shut => (
            DONE,
            if pass.look(queue, Object::Shut) == 1 {
                1
            } else {
                0
            },
        ),
    }
}

/// The same with a sender, if it has no call.
#[inline(always)]
fn sender_finds(queue: &Queue, sender: &mut HeldSender, count: Count) -> (u32, u64)
    requires { IsOf queue.now sender.old.pass }
    ensures here { IsOf queue.now sender.new.pass }
    ensures looks { LooksAt count (Some (sender_as sender.old)) (Some (sender_as sender.new)) result.0 result.1 }
{
    match sender.call() {
        SenderCall::None => found_by(queue, sender, count),
        SenderCall::Send | SenderCall::Close => (BUSY, 0),
    }
}

/// The same with a receiver, if it has no call.
#[inline(always)]
fn receiver_finds(queue: &Queue, receiver: &mut HeldReceiver, count: Count) -> (u32, u64)
    requires { IsOf queue.now receiver.old.pass }
    ensures here { IsOf queue.now receiver.new.pass }
    ensures looks { LooksAt count (Some (receiver_as receiver.old)) (Some (receiver_as receiver.new)) result.0 result.1 }
{
    if receiver.takes() {
        (BUSY, 0)
    } else {
        found_by(queue, receiver, count)
    }
}

impl HandleInner {
    /// Looks, if the pass has no call, and writes what was found; else it writes 0.
    #[inline(always)]
    pub fn look(&mut self, count: Count, found: &mut u64) -> u32
        ensures looks { LooksAt count self.old.pass self.new.pass result found.new }
        ensures same { self.new.words ≡ self.old.words }
    {
        let queue = &self.queue;
        let (code, number) = match &mut self.pass {
            Some(HeldPass::Sender(sender)) => sender_finds(queue, sender, count),
            Some(HeldPass::Receiver(receiver)) => receiver_finds(queue, receiver, count),
            None => (NO_PASS, 0),
        };
        *found = number;
        code
    }
}
