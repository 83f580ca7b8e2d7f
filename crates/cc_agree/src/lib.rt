//! Runs as callers see them: calls from their begins to their returns are linearizable, and the judge of logs agrees with the laws of runs.
#![tactic(auto)]

mod laws;

pub use laws::{
    answered_orders_are_exact, answers_are_logged, calls_are_linearizable, calls_are_logged,
    exact_orders_are_answered, linearizations_are_of_calls, logs_of_runs_are_linearizable,
    logs_of_runs_have_no_fault, small_calls_are_told_apart, small_orders_are_told_apart,
};
