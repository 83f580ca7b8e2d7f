//! The line of a fault on standard error.
ghost use Rattle.std.specs.Prelude.{◌≡◌, ◌<◌, ◌-◌, ◌^◌};
ghost use Rattle.cc_io.specs.FaultLine.{Told, no_memory_line};

use crate::{Sink, write_bytes};

/// Reports that there was no memory, and returns the status.
pub fn out_of_memory<E: Sink>(errors: &mut E) -> u8
    requires { E.write_failures errors.old < 2 ^ 64 - 1 }
    ensures status { result ≡ 3 }
    ensures told { Told (E.bytes_written errors.old) (E.bytes_written errors.new)
        (E.write_failures errors.old) (E.write_failures errors.new) no_memory_line }
{
    told(errors, b"ccq: out of memory\n", 3)
}

/// Writes a line, whether or not that fails, and answers the status.
pub fn told<E: Sink>(errors: &mut E, line: &[u8], status: u8) -> u8
    requires { E.write_failures errors.old < 2 ^ 64 - 1 }
    ensures status { result ≡ status }
    ensures told { Told (E.bytes_written errors.old) (E.bytes_written errors.new)
        (E.write_failures errors.old) (E.write_failures errors.new) line.now }
{
    let _outcome = write_bytes(errors, line);
    status
}
