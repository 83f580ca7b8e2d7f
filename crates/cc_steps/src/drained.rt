//! What a walk begins with: an empty store buffer, or steps that load nothing before an exchange.
ghost use Rattle.cc_steps.specs.Walk.{IsFresh};

use crate::seats::PassSeat;
use std::sync::atomic::{Ordering, fence};

/// No load of the walk comes before a store that the thread made for another pass. These two functions alone make this value,
/// since its field is private here. The proved steps are sequentially consistent and need none; the library for x86-64 with
/// plain stores does.
#[derive(Clone, Copy)]
pub(crate) struct Drained {
    by: (),
}

impl Drained {
    /// The thread's store buffer is empty now.
    #[inline(always)]
    pub(crate) fn by_fence() -> Drained {
        Drained {
            by: fence(Ordering::SeqCst),
        }
    }

    /// Before the first load of the pass of this seat comes its exchange, which is a locked instruction and empties the buffer.
    #[inline(always)]
    pub(crate) fn by_exchange(_seat: &PassSeat) -> Drained
        requires { IsFresh _seat.now }
    {
        Drained { by: () }
    }
}
