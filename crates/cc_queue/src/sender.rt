//! The calls of a sender.
ghost use Rattle.std.specs.Prelude.{◌≡◌, ◌+◌, ◌<◌, ◌≤◌, ◌^◌, ◌∷◌, ◌++◌, [], nat_le, IfOk, OnOk, IfErr, OnErr};
ghost use Rattle.cc_queue.specs.Names.{Answer, Call, Chain, Phase};
ghost use Rattle.cc_steps.specs.Walk.{IsOf};
ghost use Rattle.cc_queue.specs.Calls.{Begun, Turned};
ghost use Rattle.cc_queue.specs.Passes.{KeepsSender, IsCalling, KeepsAfter, IsSend, IsClose};

use crate::begins::begin_request;
use crate::passes::{PendingClose, PendingSend, Sender, SenderSeat, Turn};
use crate::queue::Queue;
use crate::turns::{close_answer, send_answer, turn_request};
use cc_model::{Body, Call, CloseAnswer, SendAnswer};
use cc_runs::{BodyWords, Chain, Request, packed, words_in};
use cc_steps::words::ChainWords;

/// The sender has begun as many sends as one sender may.
pub struct Worn;

/// Begins a send of the sender of this seat, on the words of its walk. Err leaves the seat as it is.
#[inline(always)]
pub(crate) fn begun_send(
    words: &ChainWords<'_>,
    at: &mut SenderSeat,
    body: Body,
) -> Result<(), Worn>
    requires here { IsOf words.now.topic at.old.seat }
    requires chain { words.now.chain ≡ Chain.Send }
    requires idle { KeepsSender at.old Phase.Idle }
    ensures begun { IfOk result (λ _. Begun at.old.seat (Call.Send body) at.new.seat) }
    ensures pending { OnOk result (IsCalling IsSend at.new) }
    ensures may { OnOk result (at.old.seat.stand.begun < at.old.seat.setting.config.per_sender) }
    ensures same { OnErr result (at.new ≡ at.old) }
    ensures worn { OnErr result (at.old.seat.setting.config.per_sender ≤ at.old.seat.stand.begun) }
{
    if at.begun >= at.limit {
        return Err(Worn);
    }
    at.begun += 1;
    let request = Request {
        tag: packed(at.number, at.begun, body),
        body: words_in(body),
    };
    at.node = begin_request(words, &mut at.seat, at.node, Call::Send(body), request);
    at.seat.is_sound();
    Ok(())
}

/// Begins a send of this body. Err hands the sender back unchanged, if it has begun as many sends as one sender may.
#[inline(always)]
pub fn begin_send(queue: &Queue, sender: Sender, body: Body) -> Result<PendingSend, Sender>
    requires { IsOf queue.now sender }
    ensures begun { IfOk result (λ q. Begun sender (Call.Send body) q) }
    ensures may { OnOk result (sender.stand.begun < sender.setting.config.per_sender) }
    ensures same { IfErr result (λ s. s ≡ sender) }
    ensures worn { OnErr result (sender.setting.config.per_sender ≤ sender.stand.begun) }
{
    let words = queue.words().on(&sender.at.seat, Chain::Send);
    let Sender { mut at } = sender;
    match begun_send(&words, &mut at, body) {
        Ok(()) => Ok(PendingSend { at }),
        Err(Worn) => Err(Sender { at }),
    }
}

/// Begins a close of the sender of this seat, on the words of its walk.
#[inline(always)]
pub(crate) fn begun_close(words: &ChainWords<'_>, at: &mut SenderSeat)
    requires here { IsOf words.now.topic at.old.seat }
    requires chain { words.now.chain ≡ Chain.Send }
    requires idle { KeepsSender at.old Phase.Idle }
    ensures begun { Begun at.old.seat Call.Close at.new.seat }
    ensures pending { IsCalling IsClose at.new }
{
    let request = Request {
        tag: 0,
        body: BodyWords::none(),
    };
    at.node = begin_request(words, &mut at.seat, at.node, Call::Close, request);
    at.seat.is_sound();
}

/// Begins a close.
pub fn begin_close(queue: &Queue, sender: Sender) -> PendingClose
    requires { IsOf queue.now sender }
    ensures { Begun sender Call.Close result }
{
    let words = queue.words().on(&sender.at.seat, Chain::Send);
    let Sender { mut at } = sender;
    begun_close(&words, &mut at);
    PendingClose { at }
}

/// One turn of a send of the sender of this seat, on the words of its walk.
#[inline(always)]
pub(crate) fn turned_send(
    queue: &Queue,
    words: &ChainWords<'_>,
    at: &mut SenderSeat,
) -> Turn<(), (), SendAnswer>
    requires here { IsOf queue.now at.old.seat }
    requires walk { words.now ≡ record { topic = queue.now; chain = Chain.Send } }
    requires pending { IsCalling IsSend at.old }
    ensures turned { Turned (λ _. at.new.seat) (λ _. at.new.seat) Answer.Send at.old.seat result }
    ensures keeps { KeepsAfter IsSend result at.new }
{
    let turn = turn_request(queue.words(), words, &mut at.seat, at.node);
    at.seat.is_sound();
    match turn {
        None => Turn::Waiting(()),
        Some((ret, served)) => Turn::Done {
            pass: (),
            answer: send_answer(ret),
            served,
        },
    }
}

/// One turn of a send: reads the state once. If it is 1 the call waits; if it is 0 this pass serves its own call and
/// others', at most `bound` of them; and then the answer is read.
#[inline(always)]
pub fn turn_send(queue: &Queue, pending: PendingSend) -> Turn<PendingSend, Sender, SendAnswer>
    requires { IsOf queue.now pending }
    ensures { Turned (λ p. p) (λ s. s) Answer.Send pending result }
{
    let words = queue.words().resume(&pending.at.seat, Chain::Send);
    let PendingSend { mut at } = pending;
    match turned_send(queue, &words, &mut at) {
        Turn::Waiting(()) => Turn::Waiting(PendingSend { at }),
        Turn::Done {
            pass: (),
            answer,
            served,
        } => Turn::Done {
            pass: Sender { at },
            answer,
            served,
        },
    }
}

/// One turn of a close of the sender of this seat, on the words of its walk.
#[inline(always)]
pub(crate) fn turned_close(
    queue: &Queue,
    words: &ChainWords<'_>,
    at: &mut SenderSeat,
) -> Turn<(), (), CloseAnswer>
    requires here { IsOf queue.now at.old.seat }
    requires walk { words.now ≡ record { topic = queue.now; chain = Chain.Send } }
    requires pending { IsCalling IsClose at.old }
    ensures turned { Turned (λ _. at.new.seat) (λ _. at.new.seat) Answer.Close at.old.seat result }
    ensures keeps { KeepsAfter IsClose result at.new }
{
    let turn = turn_request(queue.words(), words, &mut at.seat, at.node);
    at.seat.is_sound();
    match turn {
        None => Turn::Waiting(()),
        Some((ret, served)) => Turn::Done {
            pass: (),
            answer: close_answer(ret),
            served,
        },
    }
}

/// One turn of a close, as of a send.
pub fn turn_close(queue: &Queue, pending: PendingClose) -> Turn<PendingClose, Sender, CloseAnswer>
    requires { IsOf queue.now pending }
    ensures { Turned (λ p. p) (λ s. s) Answer.Close pending result }
{
    let words = queue.words().resume(&pending.at.seat, Chain::Send);
    let PendingClose { mut at } = pending;
    match turned_close(queue, &words, &mut at) {
        Turn::Waiting(()) => Turn::Waiting(PendingClose { at }),
        Turn::Done {
            pass: (),
            answer,
            served,
        } => Turn::Done {
            pass: Sender { at },
            answer,
            served,
        },
    }
}

impl Sender {
    /// Whether the sender has begun as many sends as one sender may, so that a further one is refused.
    pub fn is_worn(&self) -> bool
        ensures { result ≡ nat_le self.now.setting.config.per_sender self.now.stand.begun }
    {
        self.at.begun >= self.at.limit
    }
}
