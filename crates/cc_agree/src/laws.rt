//! The calls of each run have an order in real time. The judge's queue is the sequential queue of the laws on runs, and the log of each
//! run has a legal order.
ghost use Rattle.cc_agree.specs.LogOfRun.{AnswersAreLogged, CallsAreLogged, LogsOfRunsAreLinearizable, LogsOfRunsHaveNoFault};
ghost use Rattle.cc_agree.specs.OneQueue.{ExactOrdersAreAnswered, AnsweredOrdersAreExact};
ghost use Rattle.cc_agree.specs.RealTime.{CallsAreLinearizable, LinearizationsAreOfCalls};
ghost use Rattle.cc_agree.specs.SmallCalls.{SmallCalls};
ghost use Rattle.cc_agree.specs.SmallOrders.{SmallOrders};

/// The judge's queue answers all steps that report calls which a sequential queue with one group answers exactly so.
#[tactic(auto, using(crate::proofs::Answered::exact_orders_are_answered))]
pub fn exact_orders_are_answered()
    ensures { ExactOrdersAreAnswered }
{}

/// All steps that the judge's queue answers report calls which a sequential queue with one group answers exactly so.
pub fn answered_orders_are_exact()
    ensures { AnsweredOrdersAreExact }
{}

/// Each call that was begun in a run is in its log, with its time.
#[tactic(auto, using(crate::proofs::Log::calls_are_logged))]
pub fn calls_are_logged()
    ensures { CallsAreLogged }
{}

/// Each answer that was taken in a run is in its log, with its time, unless logs have no word for it.
#[tactic(auto, using(crate::proofs::Log::answers_are_logged))]
pub fn answers_are_logged()
    ensures { AnswersAreLogged }
{}

/// The log of each run of the queue with one group has a legal order, as the judge defines it.
#[tactic(auto, using(crate::proofs::LogOrder::logs_of_runs_are_linearizable))]
pub fn logs_of_runs_are_linearizable()
    ensures { LogsOfRunsAreLinearizable }
{}

/// No right verdict on the log of a run of the queue with one group is a fault.
pub fn logs_of_runs_have_no_fault()
    ensures { LogsOfRunsHaveNoFault }
{}

/// Each run is linearizable as its callers take it, for every number of groups: one order has all calls that returned, with their
/// answers, as a sequential queue with these groups gives them. A call that returned before another began comes before it.
#[tactic(auto, using(crate::proofs::RealTime::calls_are_linearizable))]
pub fn calls_are_linearizable()
    ensures { CallsAreLinearizable }
{}

/// The order in which the calls of a run take effect, each between its exchange and its decision, is such an order.
#[tactic(auto, using(crate::proofs::RealTime::linearizations_are_of_calls))]
pub fn linearizations_are_of_calls()
    ensures { LinearizationsAreOfCalls }
{}

/// The judge's queue answers two small orders of steps, and not others: Full comes neither too early nor too late, FoundNone
/// only without an item, and no send is accepted after a close.
#[tactic(auto, using(crate::proofs::Small::small_orders))]
pub fn small_orders_are_told_apart()
    ensures { SmallOrders }
{}

/// A small run with two groups: a call returns and another begins. Orders of the two calls are refused that are turned round, lack the
/// call that returned, give it another answer, have it twice, or have a call that the run hasn't.
#[tactic(auto, using(crate::proofs::SmallCalls::small_calls))]
pub fn small_calls_are_told_apart()
    ensures { SmallCalls }
{}
