//! The content of a handle's box.
ghost use Rattle.std.specs.Prelude.{◌≡◌, Some, None};
ghost use Rattle.cc_passes.specs.Passes.{walk_of, pass_as, abandoned_of, holding, IsHeldOf};

use crate::abandoned::Abandoned;
use cc_queue::{GivenUp, HeldReceiver, HeldSender, Queue};
use std::marker::Model;
use std::mem::ManuallyDrop;

/// A pass, which stays in its place while its calls are made.
pub enum HeldPass {
    Sender(HeldSender),
    Receiver(HeldReceiver),
}

/// A line of the processor's memory that nobody uses, 64 bytes.
type Spare = [u64; 8];

/// The pass of a handle with its own share of the queue, and none once the pass is given up. Each call writes the pass and
/// reads the share; with an unused line on either side of the pass no call writes to a line that another handle's
/// calls read.
#[repr(C)]
pub struct HandleInner {
    pub(crate) queue: Queue,
    /// How many words a body of the queue has at most.
    pub(crate) longest: u32,
    before: Spare,
    pub(crate) pass: Option<HeldPass>,
    behind: Spare,
}

impl Model for HandleInner {
    ghost use Rattle.cc_passes.specs.Passes.{Holding, held_as, IsHeldOf};

    ghost Value = { Holding };

    ghost view = { λ k. record { pass = held_as k.pass; words = k.longest } };

    ghost invariant = { λ k. IsHeldOf k.queue k.pass };
}

impl HandleInner {
    /// A pass and a share of its queue, whose bodies have at most this number of words.
    pub(crate) fn new(queue: Queue, longest: u32, pass: HeldPass) -> HandleInner
        requires { IsHeldOf queue (Some pass) }
        ensures { result ≡ holding longest (pass_as pass) }
    {
        HandleInner {
            queue,
            longest,
            before: [0; 8],
            pass: Some(pass),
            behind: [0; 8],
        }
    }

    /// Gives the pass up, with its call if it had begun one: its remains.
    pub fn give_up(&mut self) -> Abandoned
        ensures { result.value ≡ abandoned_of self.old.pass }
    {
        match self.pass.take() {
            Some(pass) => Abandoned::of(ManuallyDrop::new(give_up(pass))),
            None => Abandoned::none(),
        }
    }
}

/// Gives a pass up, with its call if it had begun one. It did nothing more.
pub fn give_up(pass: HeldPass) -> GivenUp
    ensures { result ≡ walk_of (pass_as pass) }
{
    match pass {
        HeldPass::Sender(sender) => sender.abandon(),
        HeldPass::Receiver(receiver) => receiver.abandon(),
    }
}

impl Drop for HandleInner {
    fn drop(self) {
        let HandleInner {
            queue: _,
            longest: _,
            before: _,
            pass,
            behind: _,
        } = self;
        if let Some(pass) = pass {
            give_up(pass);
        }
    }
}
