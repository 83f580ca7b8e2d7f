//! The law of a row of queues.
ghost use Rattle.cc_row.specs.Row.{ChainsAreRows, RowsAreQueues};
ghost use Rattle.cc_row.specs.Queues.{ExactQueuesAreOne};
ghost use Rattle.cc_row.specs.Runs.{RowsAreLinearizable};
ghost use Rattle.cc_row.specs.OneQueue.{OneQueueIsARow};
ghost use Rattle.cc_row.specs.SmallRows.{SmallRows};
ghost use Rattle.cc_row.specs.SmallRun.{SmallRun};
ghost use Rattle.cc_row.specs.WrongRows.{WrongRows};
ghost use Rattle.cc_row.specs.SmallThreads.{SmallThreads};
ghost use Rattle.cc_row.specs.Bound.{BoundedRowsAreQueues};
ghost use Rattle.cc_row.specs.WrongBounds.{WrongBounds};
ghost use Rattle.cc_row.specs.SmallBound.{SmallBound};
ghost use Rattle.cc_row.specs.BoundQueues.{BoundedQueuesAreOne};
ghost use Rattle.cc_row.specs.BoundThreads.{LooksFindFullRows, ThreadsKeepBounds};
ghost use Rattle.cc_row.specs.BoundRuns.{CountedTakesAreOpen, WaitingSendsHaveRoom};
ghost use Rattle.cc_row.specs.CountedOrders.{OrdersFollowCounts};
ghost use Rattle.cc_row.specs.BoundedRuns.{BoundedThreadsAreOne};
ghost use Rattle.cc_row.specs.SmallBoundRun.{SmallBoundRun};
ghost use Rattle.cc_row.specs.Threads.{ThreadsMakeRows, LeftQueuesRest};

/// Queues in a row, of which each is used after the one before it was closed, are one queue without a bound.
pub fn rows_are_queues()
    ensures { RowsAreQueues }
{}

/// It suffices that each call begins after the queue before its own was closed, or was found ended by its group.
#[tactic(auto, using(crate::proofs::Chains::chains_are_rows))]
pub fn chains_are_rows()
    ensures { ChainsAreRows }
{}

/// A small row, with the answers that its callers get.
#[tactic(auto, using(crate::proofs::Small::small_rows))]
pub fn small_row()
    ensures { SmallRows }
{}

/// Four wrong rows aren't one queue: one that closes no queue, one that uses a queue before the queue before it is closed, one whose groups
/// go on too early, and one whose takes return Ended at a queue that isn't the last.
#[tactic(auto, using(crate::proofs::Wrong::wrong_rows))]
pub fn wrong_rows_are_refused()
    ensures { WrongRows }
{}

/// An order of one queue with room for all its calls is a row of this queue alone, and so the other way round.
#[tactic(auto, using(crate::proofs::OneQueue::one_queue))]
pub fn one_queue_is_a_row()
    ensures { OneQueueIsARow }
{}

/// A row whose queues each answer exactly as a sequential queue, as the orders of runs do, is one queue.
pub fn exact_queues_are_one()
    ensures { ExactQueuesAreOne }
{}

/// Each run of a row of proved queues has an order: each call at a queue takes effect between its exchange and its answer,
/// each queue answers exactly as a sequential queue, and so does the row.
#[tactic(auto, using(crate::proofs::Use::rows_are_linearizable))]
pub fn rows_are_linearizable()
    ensures { RowsAreLinearizable }
{}

/// A row whose sends are let in while all groups are at the last queue, or while fewer items than the bound are in the row, is one queue with
/// this capacity: no more items are in it, and a send returns Full exactly if as many are.
#[tactic(auto, using(crate::proofs::Bound::bounded_rows))]
pub fn bounded_rows_are_queues()
    ensures { BoundedRowsAreQueues }
{}

/// A small row with a bound, with a look that finds it full, and an item that is let in while it is narrow.
#[tactic(auto, using(crate::proofs::SmallBound::small_bound_is))]
pub fn small_bound()
    ensures { SmallBound }
{}

/// Two wrong rules of the bound: items that are let in though the row is narrow, or by the count of the last queue
/// alone. And a wrong look, which returns Full though the row is closed.
#[tactic(auto, using(crate::proofs::WrongBounds::wrong_bounds))]
pub fn wrong_bounds_are_refused()
    ensures { WrongBounds }
{}

/// A row whose queues each answer exactly as a sequential queue, as the orders of runs do, is one queue with the bound, if items are let in
/// by the rules.
pub fn bounded_queues_are_one()
    ensures { BoundedQueuesAreOne }
{}

/// A small run of a row, with calls at two queues at once.
#[tactic(auto, using(crate::proofs::SmallRun::small_run_is))]
pub fn small_run()
    ensures { SmallRun }
{}

/// Threads that keep the rules of a row make one queue of its queues, in every interleaving. A thread makes calls at a queue that was the last
/// one, or its group's, when the thread looked. A further queue is appended once a close of the last one was answered, and a group goes on
/// once a take of the group returned Ended.
#[tactic(auto, using(crate::proofs::Threads::threads_make_rows))]
pub fn threads_make_rows()
    ensures { ThreadsMakeRows }
{}

/// Once the senders and all groups have gone on from a queue, and each seat was seen away from the queue since, no thread makes a move there.
#[tactic(auto, using(crate::proofs::Threads::left_queues_rest))]
pub fn left_queues_rest()
    ensures { LeftQueuesRest }
{}

/// If a look finds as many items accepted as the bound beyond those that some group has taken, of which it finds the number later, then
/// the row was full when the look began.
pub fn looks_find_full_rows()
    ensures { LooksFindFullRows }
{}

/// Threads whose sends begin where no group is at an earlier queue, or after a look that found room while nobody else sends: at each moment
/// no more items are in the row than the bound, for each group, by the takes that are counted.
#[tactic(auto, using(crate::proofs::BoundThreads::threads_keep_bounds))]
pub fn threads_keep_bounds()
    ensures { ThreadsKeepBounds }
{}

/// While such threads have a group at an earlier queue, the sends that have exchanged and have no answer have room too.
#[tactic(auto, using(crate::proofs::BoundThreads::waiting_sends_have_room))]
pub fn waiting_sends_have_room()
    ensures { WaitingSendsHaveRoom }
{}

/// At most one take of a group is counted before its answer is decided. This take is an open call at the queue that the group is at.
pub fn counted_takes_are_open()
    ensures { CountedTakesAreOpen }
{}

/// Each run of a queue has an order that keeps real time, in which no take has an item before it is counted, and a
/// take of a queue that is shut takes effect as soon as it is counted.
#[tactic(auto, using(crate::proofs::CountedOrders::orders_follow_counts))]
pub fn orders_follow_counts()
    ensures { OrdersFollowCounts }
{}

/// Threads that keep the rules of a row and of its bound make one queue with this capacity, in every interleaving: the
/// run has an order that keeps real time, of which each answer is that of a sequential queue, also Full of a queue. A
/// Full of a look is in this order at the moment at which the look loads the number of accepted items.
#[tactic(auto, using(crate::proofs::BoundedRuns::bounded_threads))]
pub fn bounded_threads_are_one()
    ensures { BoundedThreadsAreOne }
{}

/// The threads of the small run keep the rules.
#[tactic(auto, using(crate::proofs::SmallThreads::small_threads_are))]
pub fn small_threads()
    ensures { SmallThreads }
{}

/// Threads of a small row keep the rules of the bound. One of their sends is let in by a look while the row is narrow,
/// and another send gets Full by a look.
#[tactic(auto, using(crate::proofs::SmallBoundRun::small_bound_run_is))]
pub fn small_bound_run()
    ensures { SmallBoundRun }
{}
