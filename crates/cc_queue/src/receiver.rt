//! The calls of a receiver.
ghost use Rattle.std.specs.Prelude.{◌≡◌, ◌+◌, ◌<◌, ◌≤◌, ◌^◌, ◌∷◌, ◌++◌, []};
ghost use Rattle.cc_queue.specs.Names.{Answer, Call, Chain, Pass, Phase};
ghost use Rattle.cc_steps.specs.Walk.{IsOf};
ghost use Rattle.cc_queue.specs.Calls.{Begun, Turned};
ghost use Rattle.cc_queue.specs.Passes.{KeepsReceiver, phase_after};
ghost use Rattle.cc_queue.specs.Group.{Ranked};
ghost use Rattle.cc_queue.specs.Headline.{name};
ghost use Rattle.cc_queue.specs.Work.{IsOn};

use crate::passes::{PendingTake, Receiver, ReceiverSeat, Turn};
use crate::queue::Queue;
use crate::{begins, turns};
use cc_model::TakeAnswer;
use cc_runs::Chain;
use cc_steps::words::ChainWords;

/// Begins a take of the receiver of this seat, on the words of its walk.
#[inline(always)]
pub(crate) fn begun_take(words: &ChainWords<'_>, at: &mut ReceiverSeat)
    requires here { IsOf words.now.topic at.old.seat }
    requires chain { IsOn at.old.seat words.now.chain }
    requires idle { KeepsReceiver at.old Phase.Idle }
    ensures begun { Begun at.old.seat Call.Take at.new.seat }
    ensures pending { KeepsReceiver at.new Phase.ReadState }
{
    at.node = begins::begin_take(words, &mut at.seat, at.group, at.node);
    at.seat.is_sound();
}

/// Begins a take.
pub fn begin_take(queue: &Queue, receiver: Receiver) -> PendingTake
    requires { IsOf queue.now receiver }
    ensures { Begun receiver Call.Take result }
{
    let Receiver { mut at } = receiver;
    let words = queue.words().on(&at.seat, Chain::Take(at.group));
    begun_take(&words, &mut at);
    PendingTake { at }
}

/// One turn of a take of the receiver of this seat, on the words of its walk.
#[inline(always)]
pub(crate) fn turned_take(
    queue: &Queue,
    words: &ChainWords<'_>,
    at: &mut ReceiverSeat,
) -> Turn<(), (), TakeAnswer>
    requires here { IsOf queue.now at.old.seat }
    requires topic { words.now.topic ≡ queue.now }
    requires chain { IsOn at.old.seat words.now.chain }
    requires pending { KeepsReceiver at.old Phase.ReadState }
    ensures turned { Turned (λ _. at.new.seat) (λ _. at.new.seat) Answer.Take at.old.seat result }
    ensures keeps { KeepsReceiver at.new (phase_after result) }
{
    let turn = turns::turn_take(queue.words(), words, &mut at.seat, at.group, at.node);
    at.seat.is_sound();
    match turn {
        None => Turn::Waiting(()),
        Some((answer, served)) => Turn::Done {
            pass: (),
            answer,
            served,
        },
    }
}

/// One turn of a take: reads the state once. If it is 1 the call waits; if it is 0 this pass serves its own call and
/// others', at most `bound` of them; and then the answer is read.
#[inline(always)]
pub fn turn_take(queue: &Queue, pending: PendingTake) -> Turn<PendingTake, Receiver, TakeAnswer>
    requires { IsOf queue.now pending }
    ensures { Turned (λ p. p) (λ r. r) Answer.Take pending result }
{
    let PendingTake { mut at } = pending;
    let words = queue.words().resume(&at.seat, Chain::Take(at.group));
    match turned_take(queue, &words, &mut at) {
        Turn::Waiting(()) => Turn::Waiting(PendingTake { at }),
        Turn::Done {
            pass: (),
            answer,
            served,
        } => Turn::Done {
            pass: Receiver { at },
            answer,
            served,
        },
    }
}

impl Receiver {
    /// The number by which the queue knows the receiver, from 1, group by group.
    pub fn number(&self) -> u32
        ensures { name self.now ≡ Pass.Receiver result }
    {
        self.at.number
    }

    /// The group whose chain its takes go to, from 1.
    #[tactic(auto, using(crate::proofs::Headline::ranked_so))]
    pub fn group(&self) -> u32
        ensures { Ranked self.now result }
    {
        self.at.group + 1
    }
}
