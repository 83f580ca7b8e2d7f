//! Why a plan isn't shown.
ghost use Rattle.std.specs.Prelude.{◌≡◌};
ghost use Rattle.cc_play.specs.Play.{fault_of_input};
ghost use Rattle.cc_show.specs.Names.{PlayFault, ShowFault};

use cc_io::{InputFault, WriteFault};
use cc_plan::PlanFault;
use cc_play::PlayFault;
use std::alloc::AllocError;
use thiserror::Error;

/// Why a plan isn't shown, or its page not written whole.
#[derive(Clone, Copy, Debug, PartialEq, Eq, Error)]
pub enum ShowFault {
    /// It isn't played, or a write failed.
    #[error("{0}")]
    Play(#[source] PlayFault),
    /// Its run has more events than a page shows. Nothing was written.
    #[error("too many events")]
    Long,
}

impl From<InputFault> for ShowFault {
    ghost from_gives = { λ from fault. fault ≡ ShowFault.Play (fault_of_input from) };

    fn from(from: InputFault) -> ShowFault {
        ShowFault::Play(PlayFault::from(from))
    }
}

impl From<PlanFault> for ShowFault {
    ghost from_gives = { λ from fault. fault ≡ ShowFault.Play (PlayFault.Plan from) };

    fn from(from: PlanFault) -> ShowFault {
        ShowFault::Play(PlayFault::Plan(from))
    }
}

impl From<AllocError> for ShowFault {
    ghost from_gives = { λ _ fault. fault ≡ ShowFault.Play PlayFault.NoMemory };

    fn from(_: AllocError) -> ShowFault {
        ShowFault::Play(PlayFault::NoMemory)
    }
}

impl From<WriteFault> for ShowFault {
    ghost from_gives = { λ _ fault. fault ≡ ShowFault.Play PlayFault.Write };

    fn from(_: WriteFault) -> ShowFault {
        ShowFault::Play(PlayFault::Write)
    }
}
