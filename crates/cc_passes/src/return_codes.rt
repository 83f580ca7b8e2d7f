//! The codes that a call returns to C, as `bindings/c/vahepito.h` names them.
ghost use Rattle.std.specs.Prelude.{IsTrue};
ghost use Rattle.cc_passes.specs.ReturnCodes.{all_codes, are_apart};

/// It was done.
pub const DONE: u32 = 0;

/// The first field of a configuration that is out of its range; its groups are the last.
pub const BAD_SENDERS: u32 = 1;

pub const BAD_RECEIVERS: u32 = 2;

pub const BAD_CAPACITY: u32 = 3;

pub const BAD_BOUND: u32 = 4;

pub const BAD_LIFE: u32 = 5;

pub const BAD_PER_SENDER: u32 = 6;

/// Memory was refused.
pub const NO_MEMORY: u32 = 7;

/// Not one handle for each pass, or one that is not empty.
pub const BAD_HANDLES: u32 = 8;

/// The handle is empty.
pub const NO_PASS: u32 = 9;

/// A call of the other side.
pub const WRONG_SIDE: u32 = 10;

/// The pass has a call that was begun already.
pub const BUSY: u32 = 11;

/// The pass has no such call to turn.
pub const NOT_BEGUN: u32 = 12;

/// The sender has begun as many sends as it may.
pub const WORN: u32 = 13;

/// The call was begun.
pub const BEGUN: u32 = 14;

/// The answer is not there yet.
pub const WAITING: u32 = 15;

/// The answers of a send; 16 is no code.
pub const ACCEPTED: u32 = 17;

pub const FULL: u32 = 18;

pub const CLOSED: u32 = 19;

pub const SPENT: u32 = 20;

/// The answers of a close.
pub const SHUT: u32 = 21;

pub const ALREADY: u32 = 22;

/// The answers of a take.
pub const GOT: u32 = 23;

pub const EMPTY: u32 = 24;

pub const ENDED: u32 = 25;

/// The number of groups is out of its range.
pub const BAD_GROUPS: u32 = 26;

/// The number of words of a body is out of its range; 27 is a code of the header alone.
pub const BAD_WORDS: u32 = 28;

/// The body has more words than a body of its queue may have.
pub const LONG: u32 = 29;

/// A body of the queue may have more words than the item has room for.
pub const WIDE: u32 = 30;

/// No two codes have one number.
pub fn codes_are_apart()
    ensures { IsTrue (are_apart all_codes) }
{}
