//! Why an input is refused.
ghost use Rattle.std.specs.Prelude.{◌≡◌};
ghost use Rattle.cc_plan.specs.Names.{PlanFault};

use std::alloc::{AllocError, AllocFailed};
use thiserror::Error;

/// Why an input is no plan, or no receipts. If several reasons hold, a too long input is reported before all others, and
/// then the first of this list; of two keys out of range, the one that is first in the table of keys.
#[derive(Clone, Copy, Debug, PartialEq, Eq, Error)]
pub enum PlanFault {
    /// The input is no JSON text: not UTF-8, not JSON's grammar, nested deeper than 127, or with a number too large for a
    /// 64-bit float.
    #[error("no JSON")]
    NotJson,
    /// The tree has another shape: a key is missing or unknown, a value is of another kind, or a pass name is malformed.
    #[error("of another shape than it should be")]
    Shape,
    /// The value at this key is out of its range; `input` is the length of the whole input.
    #[error("{0} is out of its range")]
    Range(&'static str),
    /// The schedule entry at this place, counted from 0, names a pass that isn't there.
    #[error("entry {0} names a pass that isn't there")]
    UnknownPass(usize),
    /// Memory ran out. If a growth was refused, this may come in place of any other answer but that the input is too
    /// long, which is reported before any memory is taken.
    #[error("out of memory")]
    NoMemory,
}

impl From<AllocError> for PlanFault {
    ghost from_gives = { λ _ e. e ≡ PlanFault.NoMemory };

    fn from(_: AllocError) -> PlanFault {
        PlanFault::NoMemory
    }
}

impl<T: Drop> From<AllocFailed<T>> for PlanFault {
    ghost from_gives = { λ _ e. e ≡ PlanFault.NoMemory };

    fn from(_: AllocFailed<T>) -> PlanFault {
        PlanFault::NoMemory
    }
}
