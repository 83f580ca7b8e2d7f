//! Why a machine or a queue isn't opened.
ghost use Rattle.std.specs.Prelude.{◌≡◌};
ghost use Rattle.cc_runs.specs.Names.{OpenFault};

use cc_model::ConfigFault;
use std::alloc::AllocError;

/// Why a machine wasn't opened.
#[derive(Clone, Copy, Debug, PartialEq, Eq)]
pub enum OpenFault {
    /// A field of the configuration is out of its range: the first such field.
    Config(ConfigFault),
    /// The configuration is right, and memory was refused.
    NoMemory,
}

impl From<AllocError> for OpenFault {
    ghost from_gives = { λ _ f. f ≡ OpenFault.NoMemory };

    fn from(_: AllocError) -> OpenFault {
        OpenFault::NoMemory
    }
}
