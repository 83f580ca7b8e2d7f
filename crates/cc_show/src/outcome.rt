//! The report of an outcome of a plan: the exit status, and the line on standard error.
ghost use Rattle.std.specs.Prelude.{◌≡◌, ◌<◌, ◌-◌, ◌^◌};
ghost use Rattle.cc_io.specs.FaultLine.{Told};
ghost use Rattle.cc_show.specs.Show.{shown_line, shown_status};

use crate::fault::ShowFault;
use cc_audit::Verdict;
use cc_io::{Sink, told};
use cc_play::tell;

/// Reports what went wrong, and returns the status: 5 if the run has too many events, and else that of a play.
#[tactic(auto, unfolding(crate::specs::Show::shown_line))]
pub fn tell_shown<E: Sink>(errors: &mut E, outcome: Result<Verdict, ShowFault>) -> u8
    requires { E.write_failures errors.old < 2 ^ 64 - 1 }
    ensures status { result ≡ shown_status outcome }
    ensures told { Told (E.bytes_written errors.old) (E.bytes_written errors.new)
        (E.write_failures errors.old) (E.write_failures errors.new) (shown_line outcome) }
{
    match outcome {
        Ok(verdict) => tell(errors, Ok(verdict)),
        Err(ShowFault::Play(fault)) => tell(errors, Err(fault)),
        Err(ShowFault::Long) => told(errors, b"ccq: more than 20000 events\n", 5),
    }
}
