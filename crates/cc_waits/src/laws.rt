//! The laws of lines and of descriptors.
ghost use Rattle.cc_waits.specs.Line.{NoWakeUpIsLost, ThingsAreOwed};
ghost use Rattle.cc_waits.specs.WrongLines.{WrongLines};
ghost use Rattle.cc_waits.specs.Bell.{NoBellIsMissed};
ghost use Rattle.cc_waits.specs.WrongBells.{WrongBells};

/// When no thread has a step to make, no call sleeps beside something that its try would take, or in a queue that is closed.
pub fn no_wake_up_is_lost()
    ensures { NoWakeUpIsLost }
{}

/// At each moment, if a call sleeps and its try would find something, some thread still has a step to make.
pub fn things_are_owed()
    ensures { ThingsAreOwed }
{}

/// Eleven wrong rules of a line lose a wake-up: no look after the join, a sleep in spite of a notification, a close that notifies no call, ...
#[tactic(auto, using(crate::proofs::WrongLines::wrong_lines))]
pub fn wrong_lines_are_refused()
    ensures { WrongLines }
{}

/// A descriptor is readable while there is something to find, or some thread is about to make it so.
pub fn no_bell_is_missed()
    ensures { NoBellIsMissed }
{}

/// Six wrong rules of a descriptor miss something: armed before it is drained, no look after it was armed, a close that rings nobody, ...
#[tactic(auto, using(crate::proofs::WrongBells::wrong_bells))]
pub fn wrong_bells_are_refused()
    ensures { WrongBells }
{}
