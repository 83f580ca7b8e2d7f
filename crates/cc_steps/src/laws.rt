//! Laws over the definitions, each the contract of a function with an empty body.
ghost use Rattle.cc_steps.specs.Longest.{LastMoverHasSeenAll, StepperHasSeenAll};
ghost use Rattle.cc_steps.specs.Slots.{LinesApart};

/// Two words of a table are on one line of 8 slots only if they are neighbours: words of one side of the list, or of one
/// node. So threads that use different nodes never wait for one another's line.
#[tactic(auto, using(crate::proofs::Lines::lines_apart))]
pub fn lines_are_apart()
    ensures { LinesApart }
{}

/// Under the rule of the table each pass has seen all moves of its own: so the pass whose move is the newest of the
/// longest run has seen all of that run.
pub fn last_mover_has_seen_all()
    ensures { LastMoverHasSeenAll }
{}

/// A step of a pass keeps the rule of the table, and then its seat has seen the longest run: no other seat has seen more,
/// and what it says of its pass is so in that run.
#[tactic(auto, using(crate::proofs::Longest::stepper))]
pub fn stepper_has_seen_all()
    ensures { StepperHasSeenAll }
{}
