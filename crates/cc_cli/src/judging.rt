//! Judging a log, and writing the verdict.
//!
//! `judge` reads a log, judges it, and answers the status; `follow` judges it in parts while it is read. `verdict_line`
//! is the line of a verdict, and `page` its page: the fixed text of `fault_page`, with the calls that `choice` chooses.
//! `lines` writes lines of the log below the line of a verdict and on its page. Line and page name the calls that the
//! fault has, and the takes of its items.
mod choice;
mod clauses;
mod fault_page;
mod follow;
mod judge;
mod lines;
mod page;
mod verdict_line;

pub use clauses::definitions_refuse;
pub use judge::judge_input;
