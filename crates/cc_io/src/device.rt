//! Devices: the sources and the sinks of bytes.
ghost use Rattle.std.specs.Prelude.{◌≡◌, ◌<◌, ◌≤◌, ◌+◌, ◌-◌, ◌^◌, ℕ, List, Option, length, IfOk, is_ok, if◌then◌else◌};
ghost use Rattle.std.specs.Io.KnownBytes.{ReadConsumes, WriteAppends};
ghost use Rattle.cc_io.specs.Device.{failures_after_read, failures_after_write};

use std::io::{Read, Write};

/// A read or a write failed.
#[derive(Clone, Copy, Debug, PartialEq, Eq)]
pub struct DeviceFault;

/// A source of bytes.
pub trait Source {
    /// The bytes that are left, if they are known.
    ghost bytes_left: { Self → Option (List ℕ) };

    /// How often a read has failed.
    ghost read_failures: { Self → ℕ };

    /// Reads some bytes into the beginning of the buffer, and returns how many. It returns 0 for a buffer with room
    /// only at the end.
    fn read_some(&mut self, buffer: &mut [u8]) -> Result<usize, DeviceFault>
        requires { read_failures self.old < 2 ^ 64 - 1 }
        ensures bound { IfOk result (λ n. n ≤ length buffer.new) }
        ensures bytes { ReadConsumes (bytes_left self.old) (bytes_left self.new) result buffer.new }
        ensures failures { read_failures self.new ≡ failures_after_read (read_failures self.old) result };

    /// How often a read has failed.
    fn failures(&self) -> u64
        ensures { result ≡ read_failures self.now };
}

/// A sink of bytes.
pub trait Sink {
    /// The bytes that were written, if they are known.
    ghost bytes_written: { Self → Option (List ℕ) };

    /// How often a write has failed, or took none of some bytes.
    ghost write_failures: { Self → ℕ };

    /// Writes some bytes from the front, and answers how many. An error has written none.
    fn write_some(&mut self, bytes: &[u8]) -> Result<usize, DeviceFault>
        requires { write_failures self.old < 2 ^ 64 - 1 }
        ensures bound { IfOk result (λ n. n ≤ length bytes.now) }
        ensures bytes { WriteAppends (bytes_written self.old) (bytes_written self.new) result bytes.now }
        ensures failures { write_failures self.new ≡ failures_after_write (write_failures self.old) result bytes.now };

    /// How often a write has failed, or took none of some bytes.
    fn failures(&self) -> u64
        ensures { result ≡ write_failures self.now };
}

/// A reader or a writer of std as a source or a sink.
#[derive(Drop)]
pub struct Device<T> {
    inner: T,
    failures: u64,
}

ghost use Rattle.cc_io.specs.DeviceParts.{inside, failure_count};

impl<T> Device<T> {
    /// The device of a reader or a writer. Nothing failed so far.
    pub fn new(inner: T) -> Device<T>
        ensures inner { inside result ≡ inner }
        ensures failures { failure_count result ≡ 0 }
    {
        Device { inner, failures: 0 }
    }

    /// Counts one more failure.
    fn note_failure(&mut self)
        requires { self.old.failures < 2 ^ 64 - 1 }
        ensures { self.new ≡ record self.old { failures = self.old.failures + 1 } }
    {
        self.failures += 1;
    }
}

impl<T: Read> Source for Device<T> {
    ghost bytes_left = { λ d. T.remaining (inside d) };

    ghost read_failures = { λ d. failure_count d };

    fn read_some(&mut self, buffer: &mut [u8]) -> Result<usize, DeviceFault> {
        match self.inner.read(buffer) {
            Ok(n) => Ok(n),
            Err(_) => {
                self.note_failure();
                Err(DeviceFault)
            }
        }
    }

    fn failures(&self) -> u64 {
        self.failures
    }
}

impl<T: Write> Sink for Device<T> {
    ghost bytes_written = { λ d. T.contents (inside d) };

    ghost write_failures = { λ d. failure_count d };

    fn write_some(&mut self, bytes: &[u8]) -> Result<usize, DeviceFault> {
        match self.inner.write(bytes) {
            Ok(n) => {
                if n == 0 && !bytes.is_empty() {
                    self.note_failure();
                }
                Ok(n)
            }
            Err(_) => {
                self.note_failure();
                Err(DeviceFault)
            }
        }
    }

    fn failures(&self) -> u64 {
        self.failures
    }
}
