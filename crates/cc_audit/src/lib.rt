//! The receipts that senders and receivers hold of their calls, and the audit of them.
#![tactic(auto)]

mod clauses;
mod judge;
mod laws;
mod least;
mod of_history;
mod places;
mod receipt;
mod sends;

pub use clauses::clauses_refuse;
pub use judge::audit;
pub use laws::{any_order, legal_gives_clean, one_verdict};
pub use of_history::{send_receipts, take_receipts, total};
pub use receipt::{SendReceipt, TakeReceipt, Verdict};
