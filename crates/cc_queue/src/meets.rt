//! Passes that see what each other has seen.
ghost use Rattle.std.specs.Prelude.{◌≡◌, [], length};
ghost use Rattle.std.specs.List.{All};
ghost use Rattle.cc_steps.specs.Shown.{longer};
ghost use Rattle.cc_steps.specs.Walk.{Walk, IsOf};
ghost use Rattle.cc_queue.specs.Met.{HasMet, HaveMet, EachHasMet, AreOf, IsOfOne, MayMeet, SeeOneRun, Sees, Swept, Gathered, HaveSeenOne};

use crate::given_up::GivenUp;
use crate::passes::{Receiver, Sender};
use crate::queue::Queue;
use cc_steps::looks::{have_seen_one_run, look};
use cc_steps::seats::PassSeat;
use cc_steps::words::Words;

/// Lets each of two passes see what the other has seen.
fn meet_seats(words: &Words, one: &mut PassSeat, other: &mut PassSeat)
    requires here { IsOf words.now one.old × IsOf words.now other.old }
    ensures one { Sees one.old one.new }
    ensures other { Sees other.old other.new }
    ensures seen { other.new.seen ≡ one.new.seen }
    ensures longest { one.new.seen ≡ longer one.old.seen other.old.seen }
{
    look(words, one, other);
    look(words, other, one);
    one.is_sound();
    other.is_sound();
}

/// The runs that two passes have seen are prefixes of one run. Nothing of the passes changes.
#[tactic(auto, using(crate::proofs::OneRun::see_one_run))]
fn compare_seats(words: &Words, one: &mut PassSeat, other: &mut PassSeat)
    requires here { IsOf words.now one.old × IsOf words.now other.old }
    ensures same { (one.new ≡ one.old) × (other.new ≡ other.old) }
    ensures run { SeeOneRun one.old other.old }
{
    one.is_sound();
    other.is_sound();
    have_seen_one_run(words, one, other);
}

/// A pass that makes no step now, so that it can meet others: a sender, a receiver, or a pass that was given up.
pub trait Meets: Sized {
    /// The view that clauses have of the pass.
    ghost walk: { Self → Walk };

    /// Lets the pass of this seat, and this pass, see what the other has seen.
    fn meet_seat(&mut self, words: &Words, one: &mut PassSeat)
        requires here { IsOf words.now one.old × IsOf words.now (walk self.old) }
        ensures one { Sees one.old one.new }
        ensures met { HasMet (walk self.old) (walk self.new) }
        ensures seen { (walk self.new).seen ≡ one.new.seen }
        ensures longest { one.new.seen ≡ longer one.old.seen (walk self.old).seen };

    /// The runs that the pass of this seat and this pass have seen are prefixes of one run. Nothing of the passes changes.
    fn compare_seat(&mut self, words: &Words, one: &mut PassSeat)
        requires here { IsOf words.now one.old × IsOf words.now (walk self.old) }
        ensures same { (one.new ≡ one.old) × (self.new ≡ self.old) }
        ensures run { SeeOneRun one.old (walk self.old) };
}

impl Meets for Sender {
    ghost walk = { λ s. s };

    fn meet_seat(&mut self, words: &Words, one: &mut PassSeat) {
        meet_seats(words, one, &mut self.at.seat);
    }

    fn compare_seat(&mut self, words: &Words, one: &mut PassSeat) {
        compare_seats(words, one, &mut self.at.seat);
    }
}

impl Meets for Receiver {
    ghost walk = { λ r. r };

    fn meet_seat(&mut self, words: &Words, one: &mut PassSeat) {
        meet_seats(words, one, &mut self.at.seat);
    }

    fn compare_seat(&mut self, words: &Words, one: &mut PassSeat) {
        compare_seats(words, one, &mut self.at.seat);
    }
}

impl Meets for GivenUp {
    ghost walk = { λ g. g };

    fn meet_seat(&mut self, words: &Words, one: &mut PassSeat) {
        meet_seats(words, one, &mut self.seat);
    }

    fn compare_seat(&mut self, words: &Words, one: &mut PassSeat) {
        compare_seats(words, one, &mut self.seat);
    }
}

/// A live pass, a sender or a receiver, which meets any other of its queue.
pub trait Live: Meets {
    /// Afterwards both passes have seen one history, which begins with what each had seen.
    fn meet<P: Meets>(&mut self, other: &mut P)
        requires { IsOfOne (Self.walk self.old) (P.walk other.old) }
        ensures { HaveMet (Self.walk self.old) (P.walk other.old) (Self.walk self.new) (P.walk other.new) };

    /// The runs that the two passes have seen are prefixes of one run, whether or not they ever met. Nothing of the passes changes.
    /// The call takes no memory and never waits.
    fn has_seen_one_run<P: Meets>(&mut self, other: &mut P)
        requires { IsOfOne (Self.walk self.old) (P.walk other.old) }
        ensures same { (self.new ≡ self.old) × (other.new ≡ other.old) }
        ensures run { SeeOneRun (Self.walk self.old) (P.walk other.old) };
}

impl Live for Sender {
    fn meet<P: Meets>(&mut self, other: &mut P) {
        other.meet_seat(&self.at.words, &mut self.at.seat);
    }

    fn has_seen_one_run<P: Meets>(&mut self, other: &mut P) {
        other.compare_seat(&self.at.words, &mut self.at.seat);
    }
}

impl Live for Receiver {
    fn meet<P: Meets>(&mut self, other: &mut P) {
        other.meet_seat(&self.at.words, &mut self.at.seat);
    }

    fn has_seen_one_run<P: Meets>(&mut self, other: &mut P) {
        other.compare_seat(&self.at.words, &mut self.at.seat);
    }
}

/// The pass of this seat meets each of the others in turn.
fn sweep<P: Meets>(words: &Words, first: &mut PassSeat, others: &mut [P])
    requires may { MayMeet words.now first.old }
    requires others { All (λ p. IsOfOne first.old (P.walk p)) others.old }
    ensures { Swept P.walk first.old first.new others.old others.new }
{
    first.is_sound();
    for other in others.iter_mut() {
        other.meet_seat(words, first);
    }
}

/// Afterwards the pass of this seat, these senders, these receivers and these passes that were given up have seen one
/// history.
fn gather(
    words: &Words,
    first: &mut PassSeat,
    senders: &mut [Sender],
    receivers: &mut [Receiver],
    given_up: &mut [GivenUp],
)
    requires may { MayMeet words.now first.old }
    requires senders { All (IsOfOne first.old) senders.old }
    requires receivers { All (IsOfOne first.old) receivers.old }
    requires given_up { All (IsOfOne first.old) given_up.old }
    ensures { Gathered first.old first.new senders.old senders.new receivers.old receivers.new given_up.old given_up.new }
{
    sweep(words, first, senders);
    sweep(words, first, receivers);
    sweep(words, first, given_up);
    sweep(words, first, senders);
    sweep(words, first, receivers);
    sweep(words, first, given_up);
}

/// Afterwards all these passes of the queue have seen one history, which begins with what each had seen. Those that were
/// given up are among them: they see it, and did nothing more.
pub fn meet_all(
    queue: &Queue,
    senders: &mut [Sender],
    receivers: &mut [Receiver],
    given_up: &mut [GivenUp],
)
    requires { AreOf queue.now senders.old receivers.old given_up.old }
    ensures senders { EachHasMet senders.old senders.new }
    ensures receivers { EachHasMet receivers.old receivers.new }
    ensures given_up { EachHasMet given_up.old given_up.new }
    ensures one { HaveSeenOne senders.new receivers.new given_up.new }
{
    if let Some((first, others)) = senders.split_first_mut() {
        gather(
            &queue.words,
            &mut first.at.seat,
            others,
            receivers,
            given_up,
        );
    } else if let Some((first, others)) = receivers.split_first_mut() {
        gather(&queue.words, &mut first.at.seat, senders, others, given_up);
    } else if let Some((first, others)) = given_up.split_first_mut() {
        gather(&queue.words, &mut first.seat, senders, receivers, others);
    }
}
