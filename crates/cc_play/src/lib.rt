//! Playing plans and auditing receipts, from bytes to bytes, and the report of the outcome.
#![tactic(auto)]

mod audit;
mod clauses;
mod fault;
mod outcome;
pub mod play;
mod player;

pub use audit::audit_bytes;
pub use clauses::clauses_refuse;
pub use fault::PlayFault;
pub use outcome::tell;
pub use player::{play_schedule, turn};
