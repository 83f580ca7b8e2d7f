//! Laws of runs themselves: what other passes leave as it is, and what a prefix of a run knows.
ghost use Rattle.cc_runs.specs.Passes.{OthersLeaveAPass, PrefixesKnowNoMore};

/// Moves of other passes leave a pass in its phase, with its registers, the calls that it began and the kinds of steps
/// that it did.
pub fn others_leave_a_pass()
    ensures { OthersLeaveAPass }
{}

/// Of a prefix of a run a pass can know no more than of the run: as a history goes on, there is no less to be known of
/// it.
#[tactic(auto, using(crate::proofs::KnownPrefixes::prefixes_know))]
pub fn prefixes_know_no_more()
    ensures { PrefixesKnowNoMore }
{}
