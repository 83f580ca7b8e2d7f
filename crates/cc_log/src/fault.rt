//! Why a text is no log.
ghost use Rattle.std.specs.Prelude.{◌≡◌};
ghost use Rattle.cc_log.specs.Names.{LogFault};

use std::alloc::{AllocError, AllocFailed};
use thiserror::Error;

/// The fault of a line.
#[derive(Clone, Copy, Debug, PartialEq, Eq, Error)]
pub enum LineFault {
    /// The line is no JSON object.
    #[error("no JSON object")]
    NoObject,
    /// It begins with a byte-order mark of UTF-8.
    #[error("a byte-order mark: write the log without one")]
    Mark,
    /// It begins as a file that gzip has made.
    #[error("gzip: unpack the log first")]
    Gzip,
    /// It begins as a text in UTF-16.
    #[error("UTF-16: write the log as UTF-8")]
    Wide,
    /// It begins with an array.
    #[error("a JSON array: write one object a line")]
    Array,
    /// Its object has a key twice.
    #[error("a duplicate key")]
    Twice,
    /// The line has more than 65,536 bytes.
    #[error("more than 65536 bytes")]
    TooLong,
    /// A key isn't one of a call.
    #[error("a key that no call has")]
    Key,
    /// `thread` is missing, or no text and no whole number.
    #[error("`thread` is missing, or no text and no whole number")]
    Thread,
    /// `begin` is missing, or no whole number below 2^64.
    #[error("`begin` is missing or no whole number from 0 to 2^64 - 1")]
    Begin,
    /// `end` is no whole number below 2^64, or less than `begin`.
    #[error("`end` is no whole number from `begin` on")]
    End,
    /// There isn't just one of `send`, `take` and `close`, or it has no body of one to four words, or isn't `true`.
    #[error("neither a `send` nor a `take` of one to four whole numbers, nor a `close` that is true")]
    Call,
    /// `answer` is none of `full`, `closed` and `ended`, or belongs to a call that can't have it.
    #[error("an `answer` that this call can't have")]
    Answer,
    /// The call has an item and no end.
    #[error("an item and no `end`")]
    Open,
    /// The call began before the last call of its thread had ended.
    #[error("begun before the last call of its thread had ended")]
    Overlap,
    /// The call began before the last call of its thread began.
    #[error("begun before the last call of its thread began: the lines aren't sorted")]
    Unsorted,
    /// The last call of its thread hasn't returned.
    #[error("the last call of its thread hasn't returned: later calls need another name")]
    AfterOpen,
    /// The line comes after the one that says how the log ends.
    #[error("a line after the one that says how the log ends")]
    AfterEnd,
}

/// Why a text is no log.
#[derive(Debug, Error, Drop)]
pub enum LogFault {
    /// The line with this number, from 1, is none of a log.
    #[error("line {line}: {fault}")]
    Line {
        /// The number.
        line: usize,
        /// Its fault.
        fault: LineFault,
    },
    /// The line with this number, from 1, has a key that no call has.
    #[error("line {line}: a key that no call has: {key:?}")]
    Key {
        /// The number.
        line: usize,
        /// The key.
        key: String,
    },
    /// The line with this number, from 1, can't come after the last line of its thread.
    #[error("line {line}: {fault} (line {last})")]
    Clash {
        /// The number.
        line: usize,
        /// Its fault.
        fault: LineFault,
        /// The number of the last line of its thread.
        last: usize,
    },
    /// Two lines sent one item.
    #[error("lines {first} and {second} sent one item, {item}")]
    SentTwice {
        /// The number of the first one.
        first: usize,
        /// The number of the second one.
        second: usize,
        /// The item.
        item: String,
    },
    /// No line has a call.
    #[error("no calls")]
    Empty,
    /// A read failed.
    #[error("reading failed")]
    Read,
    /// Memory was refused.
    #[error("out of memory")]
    Memory,
}

impl From<AllocError> for LogFault {
    ghost from_gives = { λ _ fault. fault ≡ LogFault.Memory };

    fn from(_: AllocError) -> LogFault {
        LogFault::Memory
    }
}

impl<T: Drop> From<AllocFailed<T>> for LogFault {
    ghost from_gives = { λ _ fault. fault ≡ LogFault.Memory };

    fn from(_: AllocFailed<T>) -> LogFault {
        LogFault::Memory
    }
}
