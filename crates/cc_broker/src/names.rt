//! The names of topics that are asked for.
ghost use Rattle.std.specs.Prelude.{◌≡◌, ◌<◌, length, MatchBool, MatchOption};
ghost use Rattle.cc_broker.specs.Names.{IsDouble, IsFirstDouble, AreDistinct};
ghost use Rattle.cc_broker.specs.Topics.{asked_names};

use cc_model::Config;

/// Whether the name at this place occurs before it too.
fn is_double(topics: &[(&str, Config)], place: usize) -> bool
    requires within { place < length topics.now }
    ensures { MatchBool result (IsDouble (asked_names topics.now) place) (IsDouble (asked_names topics.now) place → ⊥) }
{
    for before in 0..place {
        if topics[before].0 == topics[place].0 {
            return true;
        }
    }
    false
}

/// The least place whose name occurs before it too.
pub(crate) fn first_double(topics: &[(&str, Config)]) -> Option<usize>
    ensures { MatchOption result (AreDistinct (asked_names topics.now)) (λ place. IsFirstDouble (asked_names topics.now) place) }
{
    for place in 0..topics.len() {
        if is_double(topics, place) {
            return Some(place);
        }
    }
    None
}
