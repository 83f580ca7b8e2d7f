//! The laws of logs whose items and takes are counted.
ghost use Rattle.cc_judge.specs.Counts.{CountsAreRight, CountsHaveNoOrder};
ghost use Rattle.cc_judge.specs.Faultless.{FaultlessLogsHaveOrders};
ghost use Rattle.cc_judge.specs.Cuts.{CutLogsAreExact};
ghost use Rattle.cc_judge.specs.Splits.{SplitsAreExact};
ghost use Rattle.cc_judge.specs.RefusedCounts.{RefusedCounts};

/// The law: a log of items that differ has no legal order if more of its items are left than takes may have.
#[tactic(auto, using(crate::proofs::Counted::counts_have_no_order))]
pub fn counts_have_no_order()
    ensures { CountsHaveNoOrder }
{}

/// The law: two lists, of the items that are left and of the takes that haven't returned, show by two numbers whether the takes are
/// enough for the items.
#[tactic(auto, using(crate::proofs::Counting::counts_are_right))]
pub fn counts_are_right()
    ensures { CountsAreRight }
{}

/// The law: a log without ties, whose items differ and which has none of the faults, has a legal order of a queue of whatever capacity.
#[tactic(auto, using(crate::proofs::Faultless::faultless_logs_have_orders))]
pub fn faultless_logs_have_orders()
    ensures { FaultlessLogsHaveOrders }
{}

/// The law: if at most two calls meet at a time whose lines alone order them, a log has a legal order exactly if the log has one that
/// is cut between them.
#[tactic(auto, using(crate::proofs::Cuts::cut_logs_are_exact))]
pub fn cut_logs_are_exact()
    ensures { CutLogsAreExact }
{}

/// The law: a log has a legal order exactly if one has that is cut between two calls which lines alone order, at one of the times at which
/// a call began while both were under way.
#[tactic(auto, using(crate::proofs::Splits::splits_are_exact))]
pub fn splits_are_exact()
    ensures { SplitsAreExact }
{}

/// Of each kind of mistake about counts, times and cuts an example that no clause admits.
#[tactic(auto, using(crate::proofs::RefusedCounts::counts_refused))]
pub fn counts_refuse()
    ensures { RefusedCounts }
{}
