//! The run of a plan, event by event: as a page for a browser, or as lines of JSON.
#![tactic(auto)]

mod fault;
mod form;
mod kinds;
mod outcome;
mod page;
mod player;
pub mod show;
mod text;
mod trace;

pub use fault::ShowFault;
pub use form::Form;
pub use outcome::tell_shown;
pub use player::{EVENT_LIMIT, ShownEvent};
