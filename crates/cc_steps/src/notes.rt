//! Notes of what a pass has seen. A note is made by one pass and heeded by another, which then has seen it too: so a value that
//! a program hands from thread to thread orders the second thread's calls after the first one's. A note is no event of the
//! machine, and it has no bytes: a part of the one view goes over to the other seat, and a load of a word that no step writes
//! lets that seat keep the longer of the two runs.
ghost use Rattle.std.specs.Prelude.{◌≡◌};
ghost use Rattle.cc_steps.specs.Noted.{AreOfOneRun, IsNoteOf, noted_by};
ghost use Rattle.cc_steps.specs.Walk.{HasLooked, IsOf};

use crate::seats::{PassSeat, View};
use crate::words::Words;
use atomic_table::{Join, Play, Seat, Split};
use std::marker::Model;

/// A part with the run that was seen is cut off a view.
struct SplitRun;

impl Split<View> for SplitRun {
    ghost use Rattle.cc_steps.specs.Shown.{part};

    ghost left = { λ v. v };

    ghost right = { part };
}

/// A part is added to the view of a pass.
struct Glue;

impl Join<View> for Glue {
    ghost use Rattle.cc_steps.specs.Shown.{beside, spent};

    ghost both = { beside };

    ghost spent = { spent };
}

/// The pass keeps the longer of the two runs: one of them goes on from the other, since both are prefixes of the longest.
struct Learns;

impl Play<(), View> for Learns {
    ghost use Rattle.cc_steps.specs.Shown.{learns};

    ghost then = { learns };
}

/// The pass finds that its own run and the noted one are prefixes of one run, and keeps its own.
struct Weighs;

impl Play<(), View> for Weighs {
    ghost use Rattle.cc_steps.specs.Shown.{weighs};

    ghost then = { weighs };
}

/// All that a pass had seen when the note was made. Contracts see the table and the run (`Noted`). A note goes to another
/// thread as any value does: in a closure, by a join, under a lock.
#[derive(Drop)]
pub struct Note {
    pub(crate) seat: Seat<(), View>,
}

impl Model for Note {
    ghost use Rattle.cc_steps.specs.Noted.{IsPart, Noted, noted};

    ghost Value = { Noted };

    ghost view = { λ n. noted n.seat };

    ghost invariant = { λ n. IsPart n.seat };
}

/// Notes what the pass has seen. Nothing of the pass changes. It costs one load, takes no memory and never waits.
#[inline(always)]
#[tactic(auto, using(crate::proofs::Joined::some_words, crate::proofs::Joined::cuts))]
pub fn make_note(words: &Words, from: &mut PassSeat) -> Note
    requires here { IsOf words.now from.old }
    ensures same { from.new ≡ from.old }
    ensures noted { result ≡ noted_by from.old }
{
    let source = &mut from.seat;
    let shared = &words.table.shared;
    let part = shared.split_seat::<SplitRun>(source);
    Note { seat: part }
}

/// The same note once more, at the cost of one load.
#[inline(always)]
#[tactic(auto, using(crate::proofs::Joined::some_words, crate::proofs::Joined::cuts_part))]
pub fn again(words: &Words, note: &mut Note) -> Note
    requires here { IsNoteOf words.now note.old }
    ensures same { note.new ≡ note.old }
    ensures noted { result ≡ note.old }
{
    let source = &mut note.seat;
    let shared = &words.table.shared;
    let part = shared.split_seat::<SplitRun>(source);
    Note { seat: part }
}

/// The pass sees what was noted: the run that it has seen is afterwards the longer of the two, and goes on from both.
/// Nothing else of it changes. It costs two loads, takes no memory and never waits.
#[inline(always)]
pub fn heed(words: &Words, to: &mut PassSeat, note: Note)
    requires here { IsOf words.now to.old }
    requires there { IsNoteOf words.now note }
    ensures looked { HasLooked to.old note.seen to.new }
{
    let inner = &mut to.seat;
    let shared = &words.table.shared;
    let Note { seat: part } = note;
    shared.join_seat::<Glue>(inner, part);
    shared.load::<Learns>(inner, 0);
}

/// The run that a pass has seen and the run that was noted are prefixes of one run. Nothing changes. It costs two loads, takes no memory and
/// never waits.
pub fn is_of_one_run(words: &Words, to: &mut PassSeat, note: Note)
    requires here { IsOf words.now to.old }
    requires there { IsNoteOf words.now note }
    ensures same { to.new ≡ to.old }
    ensures one { AreOfOneRun to.old.seen note.seen }
{
    let inner = &mut to.seat;
    let shared = &words.table.shared;
    let Note { seat: noted } = note;
    shared.join_seat::<Glue>(inner, noted);
    shared.load::<Weighs>(inner, 0);
}
