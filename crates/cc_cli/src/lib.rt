//! The tasks of a command line: a plan is played or shown, receipts are audited, a log is judged, or a queue is driven by
//! threads.
//!
//! `run` does a task; `cc_line` reads it from the words of a command line.
#![tactic(auto)]

mod driving;
mod gate;
pub mod hint;
pub mod input;
mod judging;
pub mod paint;
pub mod place;
pub mod reading;
pub mod run;
pub mod task;

pub use driving::{RunFault, drive_to, tell_end};
pub use judging::definitions_refuse;
