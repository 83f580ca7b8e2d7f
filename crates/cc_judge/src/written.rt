//! Whether the calls of a log are well-formed.
ghost use Rattle.std.specs.Prelude.{IsTrue, IsFalse};
ghost use Rattle.cc_judge.specs.Faultless.{IsWritten};
ghost use Rattle.cc_judge.specs.Sweeps.{IsWrittenCall};

use crate::{Act, Call};

/// Whether a call is well-formed: it ends no earlier than it begins; and a take of which no item is known hasn't returned, and one of
/// which more is known has.
fn is_call(call: Call) -> bool
    ensures written { IsTrue result → IsWrittenCall call }
    ensures others { IsFalse result → IsWrittenCall call → ⊥ }
{
    match call.end {
        Some(end) => call.begin <= end && !matches!(call.act, Act::Taking),
        None => !matches!(call.act, Act::Took(_) | Act::Ended),
    }
}

/// Whether the calls of a log are well-formed.
pub fn is_written(calls: &[Call]) -> bool
    ensures written { IsTrue result → IsWritten calls.now }
    ensures others { IsFalse result → IsWritten calls.now → ⊥ }
{
    for call in calls {
        if !is_call(*call) {
            return false;
        }
    }
    true
}
