//! The calls of a log, and what else is known of it.

/// The act of a call. Items are numbered.
#[derive(Clone, Copy, PartialEq, Eq, Drop)]
pub enum Act {
    /// It sent this item, and was accepted.
    Send(u32),
    /// It took this item.
    Took(u32),
    /// It took, and found no item.
    FoundNone,
    /// It is a take that hasn't returned.
    Taking,
    /// It is a send that found the queue full.
    Full,
    /// It is a send that found the queue closed.
    Closed,
    /// It is a take that found the queue closed and empty.
    Ended,
    /// It closed the queue, or found it closed.
    Close,
}

/// A call of a log.
#[derive(Clone, Copy, Drop)]
pub struct Call {
    /// The time at which it began.
    pub begin: u64,
    /// The time at which it ended, if it returned.
    pub end: Option<u64>,
    /// Its act.
    pub act: Act,
}

/// Two calls of one thread, the later of which began at the very time at which the earlier one ended.
#[derive(Clone, Copy, Drop)]
pub struct Tie {
    /// The place of the earlier call.
    pub earlier: u32,
    /// The place of the later call.
    pub later: u32,
}

/// The rest that is known of a log.
#[derive(Drop)]
pub struct Rules {
    /// How many items the queue holds, if that is known.
    pub capacity: Option<u32>,
    /// Whether the log has each close of the queue, so that the answers Closed and Ended are judged.
    pub closes: bool,
    /// The calls that their times leave unordered, and their lines don't.
    pub ties: Vec<Tie>,
}

/// The stay of an item in the queue, from its send to its take; or of several, of which the last to leave counts.
#[derive(Drop)]
pub enum Stay {
    /// The calls at these places sent the item and took it.
    Taken {
        /// The place of the send.
        send: usize,
        /// The place of the take.
        take: usize,
        /// The place of a call by which the queue was closed, if the send comes before other calls only for that.
        closed: Option<usize>,
    },
    /// No call is known to have taken these items, which are more than the takes that haven't returned and began before
    /// `next`: so one is left until `next`, or for ever.
    Left {
        /// The places of up to 20 of the sends, in order.
        sends: Vec<usize>,
        /// How many others there are.
        more: usize,
        /// The place of the first of the other takes that haven't returned, if there is one.
        next: Option<usize>,
        /// The place of a call by which the queue was closed, if one of the sends comes before other calls only for that.
        closed: Option<usize>,
    },
}

impl Stay {
    /// The place of the call by which the queue was closed, if the stay rests on that.
    pub fn closed(&self) -> Option<usize> {
        match self {
            Stay::Taken { closed, .. } | Stay::Left { closed, .. } => *closed,
        }
    }
}

/// One entry of an order of the calls.
#[derive(Clone, Copy, Drop)]
pub struct Step {
    /// The place of the call in the log.
    pub place: u32,
    /// Its act: for a take that hasn't returned, the one that it would have.
    pub act: Act,
}
