//! Logs of calls as texts, one JSON object a line, and how a log is read.
//!
//! `lines` has the lines of an input, `form` what the bytes of one show, `line` what its tree says, and `parse` the log of all. `state` adds the calls one by
//! one, with `items` and `threads`; `window` cuts them, and `late` has the calls that a log which begins late may lack. `parts` follows a log
//! that grows.
#![tactic(auto)]

mod clauses;
mod fault;
mod form;
mod items;
mod late;
mod line;
mod lines;
mod narrow;
mod parse;
mod parts;
mod state;
mod threads;
mod window;

pub use clauses::{definitions_refuse, parts_have_no_fault};
pub use fault::{LineFault, LogFault};
pub use line::{Body, Ending, Line, Said, body_text, item_text};
pub use parse::{Log, Notes, Options, Shown, read_log};
pub use parts::{Followed, follow};
pub use threads::Last;
pub use window::Window;
