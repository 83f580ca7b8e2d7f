//! The refusal of an input: why its reader refuses it, and at which place.
#![tactic(auto)]

mod clauses;
mod place;

pub use clauses::clauses_refuse;
pub use place::{
    Check, Explained, Found, Kind, Misfit, Place, Stranger, Table, Trail, ValueKind, Wanted,
    explain, line_and_column,
};
