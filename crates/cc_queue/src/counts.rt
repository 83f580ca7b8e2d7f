//! Looks at how many items a queue has accepted, how many each group has taken, and whether the queue is shut. A look is one load, takes no
//! memory and never waits. A pass that looks sees all calls that had ended before.
ghost use Rattle.std.specs.Prelude.{◌≡◌, nat_lt, IsTrue, false};
ghost use Rattle.cc_runs.specs.Words.{exists, groups, layout_of};
ghost use Rattle.cc_steps.specs.Names.{Word};
ghost use Rattle.cc_steps.specs.Walk.{IsOf, Walk};
ghost use Rattle.cc_queue.specs.Names.{SenderCall};
ghost use Rattle.cc_queue.specs.Counted.{in_word, Found, LooksAnswerEmpty, LooksAnswerFull};

use crate::in_place::{HeldReceiver, HeldSender};
use crate::queue::Queue;
use cc_runs::Object;
use cc_steps::counts::watch;

impl Queue {
    /// Whether the queue has a group of this number, from 0.
    #[inline(always)]
    pub fn has_group(&self, group: u32) -> bool
        ensures { result ≡ nat_lt group (groups self.now.setting.config) }
    {
        group < self.config.groups
    }
}

/// If a look finds as many items accepted as the queue holds beyond those that the next look of the same pass finds taken by some group, then
/// the queue was full.
pub fn looks_answer_full()
    ensures { LooksAnswerFull }
{}

/// If a look finds how many items a group has taken, and the next look of the same pass finds no more accepted, and none more were taken by
/// another group, then the group had all items.
pub fn looks_answer_empty()
    ensures { LooksAnswerEmpty }
{}

/// A pass that stays in one place, a sender or a receiver, looks at a word of the list if it has no call.
pub trait Looks {
    /// The view that clauses have of the pass.
    ghost walk: { Self → Walk };

    /// It has no call.
    ghost is_idle: { Self → Type 0 };

    /// The number in the word, in the run that the pass has seen now.
    fn look(&mut self, queue: &Queue, object: Object) -> u64
        requires here { IsOf queue.now (walk self.old) }
        requires idle { is_idle self.old }
        requires there { IsTrue (exists (layout_of queue.now.setting.config) (Word.Object object)) }
        ensures found { Found (in_word object) (walk self.old) (walk self.new) result }
        ensures idle { is_idle self.new };
}

impl Looks for HeldSender {
    ghost walk = { λ s. s.pass };

    ghost is_idle = { λ s. s.call ≡ SenderCall.None };

    #[inline(always)]
    fn look(&mut self, queue: &Queue, object: Object) -> u64 {
        let found = watch(&queue.words, &mut self.at.seat, object);
        self.at.seat.is_sound();
        found
    }
}

impl Looks for HeldReceiver {
    ghost walk = { λ r. r.pass };

    ghost is_idle = { λ r. r.takes ≡ false };

    #[inline(always)]
    fn look(&mut self, queue: &Queue, object: Object) -> u64 {
        let found = watch(&queue.words, &mut self.at.seat, object);
        self.at.seat.is_sound();
        found
    }
}
