//! The texts that the program writes: the report of a run, the line of a verdict, the words of a body.
#![tactic(auto)]

mod report;

pub use report::{Report, write_body, write_report, write_verdict};
