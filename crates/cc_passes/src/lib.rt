//! The passes of a queue as C holds them: handles, each with a pass and a share of its queue, or with nothing; and the calls of the pass of a
//! handle.
//!
//! `cc_capi` exports these calls to C. A call returns a code, and writes the numbers and the item of its answer to the places
//! that its caller gives. `specs/Calls.antt` says what each call returns, and `specs/OpenHandles.antt` what an opening does.
#![tactic(auto)]

mod abandoned;
mod clauses;
mod closes;
pub mod handle;
pub mod handle_inner;
pub mod items;
pub mod looks;
pub mod open_handles;
pub mod raw_box;
mod results;
pub mod return_codes;
pub mod sends;
pub mod takes;

pub use clauses::clauses_refuse;
