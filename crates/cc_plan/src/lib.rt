//! Plans and receipts, and how they are read.
#![tactic(auto)]

mod clauses;
mod fault;
mod plan;
mod receipts;
mod tree;
pub mod version;

pub use clauses::clauses_refuse;
pub use fault::PlanFault;
pub use plan::shape::{is_plan_key, named};
pub use plan::{Calls, Plan, plan_in, read_plan};
pub use receipts::shape::is_receipts_key;
pub use receipts::{Receipts, read_receipts, receipts_in};
pub use tree::{has_only, is_word, parse, read_json};
