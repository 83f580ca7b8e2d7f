//! Looks at the words by which the list counts its items: one load each, by a pass that does no step.
ghost use Rattle.std.specs.Prelude.{◌≡◌, ◌<◌, IsTrue};
ghost use Rattle.cc_runs.specs.Words.{IsSmall, layout_of, exists};
ghost use Rattle.cc_steps.specs.Names.{Word};
ghost use Rattle.cc_steps.specs.Slots as slots;
ghost use Rattle.cc_steps.specs.Slots.{slot_count};
ghost use Rattle.cc_steps.specs.Counted.{HasWatched};
ghost use Rattle.cc_steps.specs.Walk.{IsOf};

use crate::seats::{PassSeat, View};
use crate::words::Words;
use atomic_table::Play;
use cc_model::Config;
use cc_runs::Object;

/// A load by which a pass sees the longest run.
struct Watches;

impl Play<(), View> for Watches {
    ghost use Rattle.cc_steps.specs.Counted.{watches};

    ghost then = { watches };
}

/// The slot of a word of the list. `_config` is here for the clauses alone.
#[inline(always)]
fn slot_of(_config: &Config, object: Object) -> usize
    requires small { IsSmall (layout_of _config.now) }
    requires there { IsTrue (exists (layout_of _config.now) (Word.Object object)) }
    ensures place { result ≡ slots.slot (layout_of _config.now) (Word.Object object) }
    ensures below { result < slot_count (layout_of _config.now) }
{
    match object {
        Object::Last => 32,
        Object::Shut => 33,
        Object::Count => 34,
        Object::Cursor => 35,
        Object::Head(group) => 64 + 32 * group as usize,
        Object::Taken(group) => 65 + 32 * group as usize,
    }
}

/// A pass looks at a word of the list, and sees the longest run. Nothing else of the pass changes. It takes no memory and never waits.
#[inline(always)]
pub fn watch(words: &Words, seat: &mut PassSeat, object: Object) -> u64
    requires here { IsOf words.now seat.old }
    requires there { IsTrue (exists (layout_of words.now.setting.config) (Word.Object object)) }
    ensures watched { HasWatched seat.old object result seat.new }
{
    let inner = &mut seat.seat;
    let slot = slot_of(words.config(), object);
    words.table.shared.load::<Watches>(inner, slot)
}
