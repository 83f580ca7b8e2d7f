//! The remains of an abandoned pass.
ghost use Rattle.std.specs.Prelude.{◌≡◌, Option, Some, None};
ghost use Rattle.std.specs.Mem.{manually_drop_value};
ghost use Rattle.cc_queue.specs.declared.GivenUp.{GivenUp};
ghost use Rattle.cc_queue.specs.contracts.GivenUp.{the_row};
ghost use Rattle.cc_passes.specs.Abandoned.{abandoned_owns};

use cc_queue::GivenUp;
use std::marker::Model;
use std::mem::ManuallyDrop;

/// A pass that was given up, or none. It has no bytes, so C sees nothing of it. It owns the seat of the pass, and there is
/// only one, so a pass that is left as it was did nothing more.
#[repr(C)]
#[derive(Drop)]
pub struct Abandoned {
    pub ghost value: { Option GivenUp },
}

impl Model for Abandoned {
    ghost also_owns = { λ l. abandoned_owns the_row l.value };
}

impl Abandoned {
    /// None.
    pub(crate) fn none() -> Abandoned
        ensures { result.value ≡ None }
    {
        Abandoned {}
    }

    /// This pass.
    pub(crate) fn of(given_up: ManuallyDrop<GivenUp>) -> Abandoned
        ensures { result.value ≡ Some (manually_drop_value given_up) }
    {
        Abandoned {}
    }
}

unsafe impl Send for Abandoned {}
