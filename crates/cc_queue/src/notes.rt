//! Notes of what a pass has seen, heeded by other passes: order between calls that a program hands over.
ghost use Rattle.std.specs.Prelude.{◌≡◌, ◌<◌, ◌≤◌, IfErr, IfOk, OnErr, OnOk};
ghost use Rattle.cc_queue.specs.Names.{Answer, Call};
ghost use Rattle.cc_queue.specs.Noted.{CompletedAfter, HasHeeded, HeededIsFresh, HeededStays, IsOfOneQueue, JustHeeded, SendsAreFresh, TakesAreFresh, TurnsComplete};
ghost use Rattle.cc_queue.specs.Met.{HasMet};
ghost use Rattle.cc_steps.specs.Noted.{IsNoteOf, noted_by};
ghost use Rattle.cc_steps.specs.Shown.{longer};
ghost use Rattle.cc_steps.specs.Walk.{IsOf};

use crate::blocking::{send, take};
use crate::passes::{PendingClose, PendingSend, PendingTake, Receiver, Sender};
use crate::queue::Queue;
use cc_model::{Body, SendAnswer, TakeAnswer};
use cc_steps::notes;
use cc_steps::notes::{Note, make_note};
use std::sync::Wait;

impl Sender {
    /// Notes what the sender has seen: its own calls with their answers, and all that it knew when it made them. It takes no memory
    /// and never waits.
    pub fn note(&mut self) -> Note
        ensures same { self.new ≡ self.old }
        ensures noted { result ≡ noted_by self.old }
    {
        make_note(&self.at.words, &mut self.at.seat)
    }

    /// Takes in what was noted: the sender's next calls come after all calls that the note knows of. It takes no memory and never
    /// waits.
    pub fn heed(&mut self, note: Note)
        requires { IsOfOneQueue self.old note }
        ensures met { HasMet self.old self.new }
        ensures longest { self.new.seen ≡ longer self.old.seen note.seen }
        ensures heeded { HasHeeded note self.new }
    {
        notes::heed(&self.at.words, &mut self.at.seat, note);
        self.at.seat.is_sound();
    }
}

impl Receiver {
    /// Notes what the receiver has seen, as a sender does.
    pub fn note(&mut self) -> Note
        ensures same { self.new ≡ self.old }
        ensures noted { result ≡ noted_by self.old }
    {
        make_note(&self.at.words, &mut self.at.seat)
    }

    /// Takes in what was noted: the receiver's next takes come after all calls that the note knows of. It takes no memory and
    /// never waits.
    pub fn heed(&mut self, note: Note)
        requires { IsOfOneQueue self.old note }
        ensures met { HasMet self.old self.new }
        ensures longest { self.new.seen ≡ longer self.old.seen note.seen }
        ensures heeded { HasHeeded note self.new }
    {
        notes::heed(&self.at.words, &mut self.at.seat, note);
        self.at.seat.is_sound();
    }
}

impl PendingSend {
    /// Notes what the sender has seen, its pending send among it. It takes no memory and never waits.
    pub fn note(&mut self) -> Note
        ensures same { self.new ≡ self.old }
        ensures noted { result ≡ noted_by self.old }
    {
        make_note(&self.at.words, &mut self.at.seat)
    }
}

impl PendingClose {
    /// Notes what the sender has seen, its pending close among it. It takes no memory and never waits.
    pub fn note(&mut self) -> Note
        ensures same { self.new ≡ self.old }
        ensures noted { result ≡ noted_by self.old }
    {
        make_note(&self.at.words, &mut self.at.seat)
    }
}

impl PendingTake {
    /// Notes what the receiver has seen, its pending take among it. It takes no memory and never waits.
    pub fn note(&mut self) -> Note
        ensures same { self.new ≡ self.old }
        ensures noted { result ≡ noted_by self.old }
    {
        make_note(&self.at.words, &mut self.at.seat)
    }
}

/// The same note once more, for another thread.
pub fn again(queue: &Queue, note: &mut Note) -> Note
    requires { IsNoteOf queue.now note.old }
    ensures same { note.new ≡ note.old }
    ensures noted { result ≡ note.old }
{
    notes::again(&queue.words, note)
}

/// Takes, and waits for the answer, once the receiver has heeded the note. Empty says that the group was handed, before that
/// answer, all items accepted in what the note's pass had seen; and it is no answer if the queue is closed in that.
#[tactic(auto, using(crate::proofs::Heeded::completed_after))]
pub fn take_after<R: Wait>(
    queue: &Queue,
    rt: &R,
    receiver: Receiver,
    note: Note,
) -> (Receiver, TakeAnswer)
    requires here { IsOf queue.now receiver }
    requires there { IsNoteOf queue.now note }
    ensures { CompletedAfter note receiver Call.Take (Answer.Take result.1) result.0 }
{
    let mut receiver = receiver;
    receiver.heed(note);
    take(queue, rt, receiver)
}

/// Sends this body, and waits for the answer, once the sender has heeded the note. Full says that before that answer at least
/// `capacity` items were accepted beyond those that every group had been handed in what the note's pass had seen; if the queue
/// is closed in that, Closed is the only answer.
///
/// # Errors
///
/// The sender has begun as many sends as one sender may. It comes back, having heeded the note.
#[tactic(auto, using(crate::proofs::Heeded::completed_after))]
pub fn send_after<R: Wait>(
    queue: &Queue,
    rt: &R,
    sender: Sender,
    body: Body,
    note: Note,
) -> Result<(Sender, SendAnswer), Sender>
    requires here { IsOf queue.now sender }
    requires there { IsNoteOf queue.now note }
    ensures completed { IfOk result (λ r. CompletedAfter note sender (Call.Send body) (Answer.Send r.1) r.0) }
    ensures may { OnOk result (sender.stand.begun < sender.setting.config.per_sender) }
    ensures back { IfErr result (λ s. JustHeeded note sender s) }
    ensures worn { OnErr result (sender.setting.config.per_sender ≤ sender.stand.begun) }
{
    let mut sender = sender;
    sender.heed(note);
    send(queue, rt, sender, body)
}

/// A pass has still seen all that it heeded, whatever it did since.
#[tactic(auto, using(crate::proofs::Heeded::heeded_stays))]
pub fn heeded_stays()
    ensures { HeededStays }
{}

/// Each call that a pass completes after it heeded a note comes after all that was noted, and its answer says so: a `heed` before
/// the call is enough, in whatever form it is made, as `close`, `take_until` or `send_until` too.
#[tactic(auto, using(crate::proofs::Heeded::heeded_fresh, crate::proofs::Heeded::takes_fresh, crate::proofs::Heeded::sends_fresh))]
pub fn heeded_is_fresh()
    ensures calls { HeededIsFresh }
    ensures takes { TakesAreFresh }
    ensures sends { SendsAreFresh }
{}

/// A call that was begun, waited in any number of turns, and was answered in a turn is completed as one that waits.
pub fn turns_complete()
    ensures { TurnsComplete }
{}
