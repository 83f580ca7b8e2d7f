//! The verdict on a log of calls of any queue: whether the log is linearizable, with what shows it.
//!
//! A log has the calls of several threads on one queue, each with the time at which it began and, if it returned, the
//! time at which it ended. It is linearizable if its calls have a legal order: one that a queue of one thread would
//! answer so, and that agrees with real time: a call that ended before another began comes first (Herlihy and Wing, TOPLAS
//! 1990).
#![tactic(auto)]

mod clauses;
mod closing;
mod counts;
mod cutting;
mod decide;
mod exploring;
mod faults;
mod lists;
mod log;
mod nones;
mod overfull;
mod overtaking;
mod prefix;
mod room;
mod shutting;
mod sweeps;
mod table;
mod written;

pub use clauses::clauses_refuse;
pub use counts::{
    counts_are_right, counts_have_no_order, counts_refuse, cut_logs_are_exact,
    faultless_logs_have_orders, splits_are_exact,
};
pub use decide::{
    Fault, Verdict, faults_have_no_order, judge, late_logs_are_linearizable,
    late_logs_have_no_fault, logs_without_faults_have_orders, windows_are_linearizable,
};
pub use log::{Act, Call, Rules, Stay, Step, Tie};
