//! The kinds of atomic steps, and the phases of a pass in its call, each with the values that it has read.
use cc_model::{Answer, Entry, Item};

/// The kinds of atomic step. Each is one load, store, swap or addition on one word.
#[derive(Clone, Copy, Debug, PartialEq, Eq)]
pub enum Kind {
    /// A caller stores 1, waiting, into the state of its own node.
    ResetState,
    /// A caller swaps the link of its own node into the tail of its chain. Here its call enters the history.
    Exchange,
    /// A caller loads the state of its current node: 1 waiting, 2 done, 0 serve.
    ReadState,
    /// A combiner stores 0, serve, into the state of the node at which it stopped.
    HandOver,
    /// A combiner loads a word of the object that it serves.
    ReadObject,
    /// A combiner stores a word of the object that it serves.
    WriteObject,
    /// A caller stores null into the next link of its own node.
    ResetNext,
    /// A sender stores a word of its request into its current node.
    WriteRequest,
    /// A caller links its current node to the node that it put into the tail.
    Link,
    /// A combiner loads the next link of the node that it would serve.
    ReadNext,
    /// A combiner loads a word of a request.
    ReadRequest,
    /// A combiner stores a word of an answer.
    WriteAnswer,
    /// A combiner stores 2, done, into the state of a node that it has served.
    MarkDone,
    /// A caller loads a word of its answer.
    ReadAnswer,
    /// The senders' combiner loads how many groups have passed a list node: 1 for all of them.
    ReadPassed,
    /// The senders' combiner stores 0 into that count, or null into the next link, of a list node found free.
    ResetListNode,
    /// The senders' combiner stores the tag or a word of the body of an item into that node.
    WriteItem,
    /// The senders' combiner links a list node from the last one.
    LinkLast,
    /// A receivers' combiner loads the next link of the dummy.
    ReadDummyNext,
    /// A receivers' combiner loads the tag or a word of the body of the node after the dummy.
    ReadItem,
    /// A receivers' combiner adds 1 to the count of groups that have passed the old dummy.
    AddPassed,
}

/// The result of an event: a step of this kind, or nothing, since the pass has no running call or doesn't exist.
#[derive(Clone, Copy, Debug, PartialEq, Eq)]
pub enum Event {
    Did(Kind),
    Idle,
}

/// The words of a body: as many of the four are used as the tag with them counts.
#[derive(Clone, Copy)]
pub struct BodyWords {
    pub first: u64,
    pub second: u64,
    pub third: u64,
    pub fourth: u64,
}

/// The request of a sender: the tag of a close is 0.
#[derive(Clone, Copy)]
pub struct Request {
    pub tag: u64,
    pub body: BodyWords,
}

/// An item on its way into or out of the list.
#[derive(Clone, Copy)]
pub struct Parcel {
    pub place: u64,
    pub tag: u64,
    pub body: BodyWords,
}

/// The registers of a combiner: the node to be served next, and how many it served.
#[derive(Clone, Copy)]
pub struct Round {
    pub at: u64,
    pub served: u32,
}

/// The registers of a combiner during a service: its round, and the node after the one that it serves.
#[derive(Clone, Copy)]
pub struct Job {
    pub round: Round,
    pub next: u64,
}

/// The phase of the combiner in the service of one request to the counter. The words of a request are read as those of a send
/// are, and aren't used.
#[derive(Clone, Copy)]
pub enum Counting {
    ReadTag,
    ReadBody { tag: u64, index: u32 },
    ReadCount,
    WriteCount { count: u64 },
}

/// The phase of the senders' combiner in the service of one request to the list.
#[derive(Clone, Copy)]
pub enum Sending {
    ReadTag,
    ReadBody {
        request: Request,
        index: u32,
    },
    ReadShut {
        request: Request,
    },
    ReadTotal,
    ReadCount {
        request: Request,
    },
    ReadLastToClose {
        total: u64,
    },
    LinkMark {
        total: u64,
        last: u64,
    },
    WriteLastMark {
        total: u64,
    },
    WriteShut {
        total: u64,
    },
    ReadCursor {
        parcel: Parcel,
    },
    ReadPassed {
        parcel: Parcel,
        node: u64,
        reads: u32,
    },
    ResetPassed {
        parcel: Parcel,
        node: u64,
    },
    ResetItemNext {
        parcel: Parcel,
        node: u64,
    },
    WriteItemTag {
        parcel: Parcel,
        node: u64,
    },
    WriteItemBody {
        parcel: Parcel,
        node: u64,
        index: u32,
    },
    ReadLast {
        place: u64,
        node: u64,
    },
    LinkItem {
        place: u64,
        node: u64,
        last: u64,
    },
    WriteLast {
        place: u64,
        node: u64,
    },
    WriteCount {
        place: u64,
        node: u64,
    },
    WriteCursor {
        place: u64,
        node: u64,
    },
}

/// The phase of a group's combiner in the service of one take.
#[derive(Clone, Copy)]
pub enum Taking {
    ReadHead,
    ReadTaken {
        dummy: u64,
    },
    ReadDummyNext {
        dummy: u64,
        taken: u64,
    },
    ReadItemTag {
        dummy: u64,
        taken: u64,
        node: u64,
    },
    ReadItemBody {
        dummy: u64,
        node: u64,
        parcel: Parcel,
        index: u32,
    },
    WriteHead {
        dummy: u64,
        node: u64,
        parcel: Parcel,
    },
    WriteTaken {
        dummy: u64,
        parcel: Parcel,
    },
    AddPassed {
        dummy: u64,
        parcel: Parcel,
    },
}

/// The phase of a pass: the step that it does next, with its registers for later steps.
#[derive(Clone, Copy)]
pub enum Phase {
    Idle,
    ResetNext {
        call: Entry,
    },
    ResetState {
        call: Entry,
    },
    Exchange {
        call: Entry,
    },
    WriteTag {
        put: u64,
        request: Request,
    },
    WriteBody {
        put: u64,
        request: Request,
        index: u32,
    },
    Link {
        put: u64,
    },
    ReadState,
    ReadNext {
        round: Round,
    },
    Counting {
        job: Job,
        service: Counting,
    },
    Sending {
        job: Job,
        service: Sending,
    },
    Taking {
        job: Job,
        service: Taking,
    },
    WriteAnswer {
        job: Job,
        answer: Answer,
    },
    WriteAnswerTag {
        job: Job,
        item: Item,
    },
    WriteAnswerBody {
        job: Job,
        item: Item,
        index: u32,
    },
    MarkDone {
        job: Job,
    },
    HandOver {
        at: u64,
    },
    ReadAnswer,
    ReadAnswerTag {
        place: u64,
    },
    ReadAnswerBody {
        parcel: Parcel,
        index: u32,
    },
    Finished {
        answer: Answer,
    },
}

/// A pass: the sends that it began, its node (its own one before the exchange, and from then on the one that it got), and its phase.
#[derive(Clone, Copy)]
pub struct Stand {
    pub begun: u32,
    pub node: u64,
    pub phase: Phase,
}
