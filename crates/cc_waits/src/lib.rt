//! The protocols by which calls wait, as machines: a line of calls, and a descriptor that is polled. No wake-up is lost, for any number of threads.
//!
//! A machine's events are the steps of the threads in one order. That make and check of one thread, and join and look of another, are in one
//! order that all threads agree on is taken for granted here.
#![tactic(auto)]

mod laws;

pub use laws::{
    no_bell_is_missed, no_wake_up_is_lost, things_are_owed, wrong_bells_are_refused,
    wrong_lines_are_refused,
};
