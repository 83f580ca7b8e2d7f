//! The counts of items and the mark of the close, after every run: what a look at these words finds.
ghost use Rattle.cc_runs.specs.Counts.{CountsAreNear, CountsGrow, EndedCallsAreSeen, LooksFindFull, LooksFindNone};

/// The count of accepted items is what the history has, or one fewer while that item's send is in service; the count of a group's takes is
/// what it was handed, or one more while that item's take is in service; and the mark says that the history is shut.
pub fn counts_are_near()
    ensures { CountsAreNear }
{}

/// Counts only grow, and the mark stays.
pub fn counts_grow()
    ensures { CountsGrow }
{}

/// A look sees each call that had ended when the look began.
#[tactic(auto, using(crate::proofs::Counts::Laws::ended_calls_are_seen))]
pub fn ended_calls_are_seen()
    ensures { EndedCallsAreSeen }
{}

/// If a look finds as many items accepted as the queue holds beyond those that some group has taken, then the queue was full when the
/// look began.
#[tactic(auto, using(crate::proofs::Counts::Laws::looks_find_full))]
pub fn looks_find_full()
    ensures { LooksFindFull }
{}

/// If a look finds no more items accepted than a group has taken, and none more taken by another group, then the group had all items when
/// the look began.
#[tactic(auto, using(crate::proofs::Counts::Laws::looks_find_none))]
pub fn looks_find_none()
    ensures { LooksFindNone }
{}
