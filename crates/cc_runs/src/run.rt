//! The moves of a run.
use cc_model::Call;

/// A move of a run, by the pass's place in the row of all passes. No value of it is made: it is what a thread that steps
/// on shared words has seen.
pub enum Move {
    /// The pass begins a call and knows so much of the history.
    Begin { pass: u64, call: Call, known: u64 },
    /// It does its next step.
    Step { pass: u64 },
    /// Its answer is taken.
    Take { pass: u64 },
}
