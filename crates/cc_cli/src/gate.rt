//! The gates of the program's threads.
ghost use Rattle.std.specs.Prelude.{◌≡◌, IfOk, vec_len};

use cc_drive::Gate;
use std::alloc::{AllocError, Global};

/// This number of gates, each a copy of this one.
pub(crate) fn gates_of<G: Gate + Copy>(
    alloc: Global,
    gate: G,
    count: u64,
) -> Result<Vec<G>, AllocError>
    ensures { IfOk result (λ gates. vec_len gates ≡ count) }
{
    let mut gates = Vec::new(alloc);
    for _ in 0..count {
        gates.push(gate)?;
    }
    Ok(gates)
}
