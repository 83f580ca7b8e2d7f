//! What shows that a queue of a row was shut, and which queue follows it. All of it is zero-sized.
ghost use Rattle.std.specs.Prelude.{◌≡◌};
ghost use Rattle.cc_switch.specs.Links.{added};

use cc_queue::Note;
use std::collections::LinkedList;
use std::marker::Model;

/// Shows that a queue was shut, and which queue is the next one.
#[derive(Drop)]
pub struct Link {
    pub(crate) shut: Note,
    pub(crate) next: Note,
}

const _: () = prove!(size_of::<Link>() == 0);

/// For each queue that a group is done with, what shows that the group is. It is zero-sized but for a number.
#[derive(Drop)]
pub struct Ended {
    pub(crate) notes: Vec<Note>,
}

impl Model for Ended {
    ghost use Rattle.std.specs.Prelude.{List};
    ghost use Rattle.cc_steps.specs.Noted.{Noted};

    ghost Value = { List Noted };

    ghost view = { λ e. e.notes.items };
}

const _: () = prove!(size_of::<Note>() == 0);

impl Ended {
    /// Adds a note. False if memory was refused: nothing has changed then.
    pub(crate) fn add(&mut self, note: Note) -> bool
        ensures { self.new ≡ added result note self.old }
    {
        self.notes.push(note).is_ok()
    }
}

/// What the threads of a row know: how its queues follow each other, and for each group what shows that the group is
/// done with a queue. It is ghost state: no value of this type is made.
pub struct RowLog {
    pub links: LinkedList<Link>,
    pub ended: LinkedList<Ended>,
}
