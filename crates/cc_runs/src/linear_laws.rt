//! Every run is linearizable, the orders of its calls agree with real time, and small orders show which answers are right.
ghost use Rattle.cc_runs.specs.Linearizable.{ExactOrdersGoOn, RunsAreLinearizable, OrdersAgree, OrderKeepsTime, OrderIsRealTime};
ghost use Rattle.cc_runs.specs.SmallOrders.{SmallOrders};

/// Every run is linearizable (Herlihy and Wing, TOPLAS 1990): all its answered calls have an order in which a sequential queue
/// gives the same answers, and in which each takes effect between its exchange and the step that decides its answer.
#[tactic(auto, using(crate::proofs::Linear::Orders::linearizable))]
pub fn runs_are_linearizable()
    ensures { RunsAreLinearizable }
{}

/// Each run has such an order, and the order of a prefix of a run is a part of the run's own.
#[tactic(auto, using(crate::proofs::Linear::Orders::orders_agree))]
pub fn orders_of_runs_agree()
    ensures { OrdersAgree }
{}

/// Such an order keeps the time: each moment of the run has a place in the order. Before it are all calls that were answered by
/// then, and only calls that had exchanged.
#[tactic(auto, using(crate::proofs::Linear::Orders::order_keeps_time))]
pub fn orders_keep_time()
    ensures { OrderKeepsTime }
{}

/// Of two calls of which the first was answered before the second exchanged, the first comes first in such an order.
#[tactic(auto, using(crate::proofs::Linear::Orders::order_is_real_time))]
pub fn orders_are_real_time()
    ensures { OrderIsRealTime }
{}

/// A sequential queue gives the answers of two small orders of calls, and not those of others: Full comes neither too early
/// nor too late, Empty only without an item, and Accepted not after Shut.
#[tactic(auto, using(crate::proofs::Linear::Small::small_orders))]
pub fn small_orders_are_told_apart()
    ensures { SmallOrders }
{}

/// After each order of calls whose answers a sequential queue gives, it has exactly one answer to each call.
#[tactic(auto, using(crate::proofs::Linear::Bounds::exact_orders_go_on))]
pub fn exact_orders_go_on()
    ensures { ExactOrdersGoOn }
{}
