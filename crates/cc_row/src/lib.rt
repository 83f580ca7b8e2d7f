//! A row of queues is one queue, without a bound or with one.
//!
//! A send that finds its queue full, or used up, closes it and uses a further one. A group goes on when its queue has ended.
#![tactic(auto)]

mod laws;

pub use laws::{
    bounded_queues_are_one, bounded_rows_are_queues, bounded_threads_are_one, chains_are_rows,
    counted_takes_are_open, exact_queues_are_one, left_queues_rest, looks_find_full_rows,
    one_queue_is_a_row, orders_follow_counts, rows_are_linearizable, rows_are_queues, small_bound,
    small_bound_run, small_row, small_run, small_threads, threads_keep_bounds, threads_make_rows,
    waiting_sends_have_room, wrong_bounds_are_refused, wrong_rows_are_refused,
};
