//! The command line: the task that its words ask for, and the answer to words that ask for none.
//!
//! `program` is the command that clap reads the words by, with the texts of `help`. `asked` reads the task out of clap's
//! matches, and `refusal` answers with clap's own texts.
#![tactic(auto)]

pub mod asked;
mod clauses;
mod help;
mod program;
pub mod refusal;

pub use clauses::definitions_refuse;
