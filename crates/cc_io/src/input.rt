//! Reading the whole of an input.
ghost use Rattle.std.specs.Prelude.{◌≡◌, ◌≤◌, ◌<◌, ◌+◌, ◌-◌, ◌^◌, IfOk, OnOk, IsErrOf, length};
ghost use Rattle.std.specs.Io.KnownBytes.{Consumes, IsAtEnd};
ghost use Rattle.cc_io.specs.Input.{input_limit};
ghost use Rattle.cc_io.specs.Names.{InputFault};

use crate::Source;
use std::alloc::{AllocError, Global};

/// The length in bytes beyond which an input is refused.
pub const INPUT_LIMIT: usize = 16_777_216;

/// Why an input wasn't read to its end.
#[derive(Clone, Copy, Debug, PartialEq, Eq)]
pub enum InputFault {
    /// A read failed.
    Read,
    /// Memory was refused.
    NoMemory,
}

impl From<AllocError> for InputFault {
    ghost from_gives = { λ _ e. e ≡ InputFault.NoMemory };

    fn from(_: AllocError) -> InputFault {
        InputFault::NoMemory
    }
}

/// Reads to the end of the source, or to one byte past the limit.
pub fn read_input<R: Source>(alloc: Global, source: &mut R) -> Result<Vec<u8>, InputFault>
    requires { R.read_failures source.old < 2 ^ 64 - 1 }
    ensures bytes { IfOk result (λ input. Consumes (R.bytes_left source.old) (R.bytes_left source.new) input.items) }
    ensures most { IfOk result (λ input. length input.items ≤ input_limit + 1) }
    ensures end { IfOk result (λ input. length input.items ≤ input_limit → IsAtEnd (R.bytes_left source.new)) }
    ensures no_failure { OnOk result (R.read_failures source.new ≡ R.read_failures source.old) }
    ensures memory { IsErrOf result InputFault.NoMemory → R.read_failures source.new ≡ R.read_failures source.old }
    ensures failure { IsErrOf result InputFault.Read → R.read_failures source.new ≡ R.read_failures source.old + 1 }
{
    let mut input = Vec::new(alloc);
    let mut chunk = [0u8; 16_384];
    while input.len() <= INPUT_LIMIT {
        let room = (INPUT_LIMIT + 1 - input.len()).min(chunk.len());
        let n = match source.read_some(&mut chunk[..room]) {
            Ok(0) => return Ok(input),
            Ok(n) => n,
            Err(_) => return Err(InputFault::Read),
        };
        input.extend_from_slice(&chunk[..n])?;
    }
    Ok(input)
}
