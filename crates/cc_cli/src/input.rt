//! The input of a task: a reader of std that keeps the system's reason for the first read that failed.
ghost use Rattle.std.specs.Prelude.{◌≡◌, ◌<◌, ◌+◌, ◌-◌, ◌^◌};
ghost use Rattle.cc_cli.specs.Input.{counted, within};

use cc_io::{DeviceFault, Source};
use std::alloc::Global;
use std::io::{Error, Read};

/// A source that may know why a read of it failed.
pub trait Reasoned {
    /// The system's reason for the first read that failed. None if no read failed, or if memory for the text was refused.
    fn reason(&self, alloc: Global) -> Option<String>;
}

/// A reader of std as a source that keeps the reason for its first failure.
#[derive(Drop)]
pub struct Input<T> {
    inner: T,
    failures: u64,
    error: Option<Error>,
}

impl<T> Input<T> {
    /// The input of a reader. No read failed so far.
    pub fn new(inner: T) -> Input<T>
        ensures inner { within result ≡ inner }
        ensures failures { counted result ≡ 0 }
    {
        Input {
            inner,
            failures: 0,
            error: None,
        }
    }

    /// Counts one more failure, and keeps its reason if it is the first.
    fn note_failure(&mut self, error: Error)
        requires { self.old.failures < 2 ^ 64 - 1 }
        ensures inner { self.new.inner ≡ self.old.inner }
        ensures failures { self.new.failures ≡ self.old.failures + 1 }
    {
        self.failures += 1;
        if self.error.is_none() {
            self.error = Some(error);
        }
    }
}

impl<T: Read> Source for Input<T> {
    ghost bytes_left = { λ d. T.remaining (within d) };

    ghost read_failures = { λ d. counted d };

    fn read_some(&mut self, buffer: &mut [u8]) -> Result<usize, DeviceFault> {
        match self.inner.read(buffer) {
            Ok(n) => Ok(n),
            Err(error) => {
                self.note_failure(error);
                Err(DeviceFault)
            }
        }
    }

    fn failures(&self) -> u64 {
        self.failures
    }
}

impl<T> Reasoned for Input<T> {
    fn reason(&self, alloc: Global) -> Option<String> {
        match &self.error {
            Some(error) => format!(in alloc; "{error}").ok(),
            None => None,
        }
    }
}
