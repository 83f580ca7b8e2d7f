//! Numbers of a log in 32 bits.
ghost use Rattle.std.specs.Prelude.{◌≡◌, IfOk, IfErr};
ghost use Rattle.cc_log.specs.Names.{LogFault};

use crate::fault::LogFault;

/// A number in 32 bits; a log whose numbers don't fit them is too large for the memory.
pub fn narrow(number: usize) -> Result<u32, LogFault>
    ensures same { IfOk result (λ narrowed. narrowed ≡ number) }
    ensures memory { IfErr result (λ fault. fault ≡ LogFault.Memory) }
{
    if number <= u32::MAX as usize {
        Ok(number as u32)
    } else {
        Err(LogFault::Memory)
    }
}
