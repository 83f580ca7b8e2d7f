//! A send, by the pass of a handle.
ghost use Rattle.std.specs.Prelude.{◌≡◌, Some};
ghost use Rattle.cc_steps.specs.Walk.{IsOf, Walk};
ghost use Rattle.cc_queue.specs.Calls.{Turned};
ghost use Rattle.cc_queue.specs.InPlace.{call_after};
ghost use Rattle.cc_passes.specs.Names.{Answer, SenderCall};
ghost use Rattle.cc_passes.specs.Passes.{with_call, sender_as};
ghost use Rattle.cc_passes.specs.Calls.{fitting, BeginsSend, SendTurns, TurnsSend, TriesSend};

use crate::handle_inner::{HandleInner, HeldPass};
use crate::results::sent_as;
use crate::return_codes::{
    BAD_WORDS, BEGUN, BUSY, LONG, NO_PASS, NOT_BEGUN, WAITING, WORN, WRONG_SIDE,
};
use cc_model::{Body, SendAnswer};
use cc_queue::{HeldSender, Queue, SenderCall, Turn, Worn};

/// The body of these words, if a body may have that many; or the code for which there is none.
fn fitting(words: &[u64], longest: u32) -> Result<Body, u32>
    ensures { result ≡ fitting longest words.now }
{
    let Some(body) = Body::new(words) else {
        return Err(BAD_WORDS);
    };
    if words.len() <= longest as usize {
        Ok(body)
    } else {
        Err(LONG)
    }
}

/// Begins a send of this body, if there is one and the sender has no call.
#[inline(always)]
fn begun(queue: &Queue, sender: &mut HeldSender, body: Result<Body, u32>) -> u32
    requires { IsOf queue.now sender.old.pass }
    ensures here { IsOf queue.now sender.new.pass }
    ensures begins { BeginsSend body (Some (sender_as sender.old)) (Some (sender_as sender.new)) result }
{
    match sender.call() {
        SenderCall::None => match body {
            Ok(body) => match sender.begin_send(queue, body) {
                Ok(()) => BEGUN,
                Err(Worn) => WORN,
            },
            Err(why) => why,
        },
        SenderCall::Send | SenderCall::Close => BUSY,
    }
}

/// The code after a turn. An answer alone writes the numbers.
#[inline(always)]
fn after(turn: Turn<(), (), SendAnswer>, place: &mut u64, served: &mut u32) -> u32
    requires { (place.old ≡ 0) × (served.old ≡ 0) }
    ensures { (v w : Walk) → Turned (λ _. w) (λ _. w) Answer.Send v turn → SendTurns v (Some (with_call (call_after SenderCall.Send turn) w)) (record { code = result; number = place.new; served = served.new }) }
{
    match turn {
        Turn::Waiting(()) => WAITING,
        Turn::Done {
            pass: (),
            answer,
            served: now,
        } => {
            *served = now;
            sent_as(answer, place)
        }
    }
}

/// One turn of a send, if the sender has one.
#[inline(always)]
fn turned(queue: &Queue, sender: &mut HeldSender, place: &mut u64, served: &mut u32) -> u32
    requires pass { IsOf queue.now sender.old.pass }
    requires numbers { (place.old ≡ 0) × (served.old ≡ 0) }
    ensures here { IsOf queue.now sender.new.pass }
    ensures turns { TurnsSend (Some (sender_as sender.old)) (Some (sender_as sender.new)) (record { code = result; number = place.new; served = served.new }) }
{
    match sender.call() {
        SenderCall::Send => after(sender.turn_send(queue), place, served),
        SenderCall::None | SenderCall::Close => NOT_BEGUN,
    }
}

/// Begins a send of this body, if there is one and the sender has no call, and turns it once.
#[inline(always)]
fn tried(
    queue: &Queue,
    sender: &mut HeldSender,
    body: Result<Body, u32>,
    place: &mut u64,
    served: &mut u32,
) -> u32
    requires pass { IsOf queue.now sender.old.pass }
    requires numbers { (place.old ≡ 0) × (served.old ≡ 0) }
    ensures here { IsOf queue.now sender.new.pass }
    ensures tries { TriesSend body (Some (sender_as sender.old)) (Some (sender_as sender.new)) (record { code = result; number = place.new; served = served.new }) }
{
    match sender.call() {
        SenderCall::None => match body {
            Ok(body) => match sender.try_send(queue, body) {
                Ok(turn) => after(turn, place, served),
                Err(Worn) => WORN,
            },
            Err(why) => why,
        },
        SenderCall::Send | SenderCall::Close => BUSY,
    }
}

impl HandleInner {
    /// The body of these words, if a body of the queue may have that many; or the code for which there is none.
    pub fn fitting(&self, words: &[u64]) -> Result<Body, u32>
        ensures { result ≡ fitting self.now.words words.now }
    {
        fitting(words, self.longest)
    }

    /// Begins a send of this body, if there is one.
    #[inline(always)]
    pub fn begin_send(&mut self, body: Result<Body, u32>) -> u32
        ensures begins { BeginsSend body self.old.pass self.new.pass result }
        ensures same { self.new.words ≡ self.old.words }
    {
        match &mut self.pass {
            Some(HeldPass::Sender(sender)) => begun(&self.queue, sender, body),
            Some(HeldPass::Receiver(_)) => WRONG_SIDE,
            None => NO_PASS,
        }
    }

    /// One turn of a send. An answer alone writes the numbers.
    #[inline(always)]
    pub fn turn_send(&mut self, place: &mut u64, served: &mut u32) -> u32
        requires { (place.old ≡ 0) × (served.old ≡ 0) }
        ensures turns { TurnsSend self.old.pass self.new.pass (record { code = result; number = place.new; served = served.new }) }
        ensures same { self.new.words ≡ self.old.words }
    {
        match &mut self.pass {
            Some(HeldPass::Sender(sender)) => turned(&self.queue, sender, place, served),
            Some(HeldPass::Receiver(_)) => WRONG_SIDE,
            None => NO_PASS,
        }
    }

    /// Begins a send of this body, if there is one, and if it was begun turns it once.
    #[inline(always)]
    pub fn try_send(&mut self, body: Result<Body, u32>, place: &mut u64, served: &mut u32) -> u32
        requires { (place.old ≡ 0) × (served.old ≡ 0) }
        ensures tries { TriesSend body self.old.pass self.new.pass (record { code = result; number = place.new; served = served.new }) }
        ensures same { self.new.words ≡ self.old.words }
    {
        match &mut self.pass {
            Some(HeldPass::Sender(sender)) => tried(&self.queue, sender, body, place, served),
            Some(HeldPass::Receiver(_)) => WRONG_SIDE,
            None => NO_PASS,
        }
    }
}
