//! The shape and the range that each value of an input has to have.

use cc_model::is_within;

/// The kinds of inputs.
#[derive(Clone, Copy)]
pub enum Kind {
    /// A plan.
    Plan,
    /// Receipts.
    Receipts,
}

/// The values of an input on which its other values depend.
#[derive(Clone, Copy)]
pub struct Table {
    /// The kind of the input.
    pub kind: Kind,
    /// The version by whose table it is read, 1 or 2.
    pub version: u32,
    /// The number of groups of receivers.
    pub groups: u64,
}

/// The shape and the range that a value has to have.
#[derive(Clone, Copy)]
pub enum Wanted {
    /// A whole number in a range.
    Number(u64, u64),
    /// A whole number, or null.
    Total,
    /// The calls of all senders.
    Senders,
    /// The calls of a sender.
    Calls,
    /// A body, or `close`.
    Call,
    /// A body.
    Body,
    /// How often each receiver takes.
    Receivers,
    /// The entries of the schedule.
    Schedule,
    /// A pass name and a number.
    Entry,
    /// A pass name.
    Name,
    /// The rows of the senders.
    Accepted,
    /// The rows of the receivers.
    Taken,
    /// A row of a sender: three numbers and a body.
    SendRow,
    /// A row of a receiver: four numbers and a body.
    TakeRow,
}

/// A question about a value.
#[derive(Clone, Copy)]
pub enum Check {
    /// Its shape.
    Shape,
    /// Its range.
    Range,
}

/// The keys of plans, or of receipts, in the order of their table.
pub fn keys(table: Table) -> &'static [&'static str] {
    match table.kind {
        Kind::Receipts => &["version", "total", "accepted", "taken"],
        Kind::Plan if table.version == 2 => &[
            "version",
            "groups",
            "capacity",
            "bound",
            "life",
            "senders",
            "receivers",
            "schedule",
        ],
        Kind::Plan => &[
            "version",
            "capacity",
            "bound",
            "life",
            "senders",
            "receivers",
            "schedule",
        ],
    }
}

/// That of the value at a key of the root.
pub fn wanted_at(key: &str) -> Wanted {
    match key {
        "version" => Wanted::Number(1, 2),
        "groups" => Wanted::Number(1, 8),
        "capacity" => Wanted::Number(1, 4096),
        "bound" => Wanted::Number(1, 1024),
        "life" => Wanted::Number(1, 1 << 48),
        "senders" => Wanted::Senders,
        "receivers" => Wanted::Receivers,
        "schedule" => Wanted::Schedule,
        "accepted" => Wanted::Accepted,
        "taken" => Wanted::Taken,
        _ => Wanted::Total,
    }
}

/// That of the element at a place of an array.
pub fn wanted_inside(version: u32, array: Wanted, place: usize) -> Wanted {
    match (array, place) {
        (Wanted::Senders, _) => Wanted::Calls,
        (Wanted::Calls, _) => Wanted::Call,
        (Wanted::Receivers, _) => Wanted::Number(0, 65_536),
        (Wanted::Schedule, _) => Wanted::Entry,
        (Wanted::Entry, 0) => Wanted::Name,
        (Wanted::Entry, _) => Wanted::Number(1, 100_000),
        (Wanted::Accepted, _) => Wanted::SendRow,
        (Wanted::Taken, _) => Wanted::TakeRow,
        (Wanted::SendRow, 3) | (Wanted::TakeRow, 4) => Wanted::Body,
        (Wanted::SendRow, 0) | (Wanted::TakeRow, 2) => Wanted::Number(1, 64),
        (Wanted::SendRow, 1) | (Wanted::TakeRow, 3) => Wanted::Number(1, u64::from(u32::MAX)),
        (Wanted::TakeRow, 0) => Wanted::Number(1, if version == 2 { 512 } else { 64 }),
        _ => Wanted::Number(0, u64::MAX),
    }
}

/// Whether an array of this length may be what is wanted.
pub fn fits_length(table: Table, wanted: Wanted, check: Check, length: usize) -> bool {
    let length = length as u64;
    match (check, wanted) {
        (Check::Shape, Wanted::Entry) => length == 2,
        (Check::Shape, Wanted::SendRow) => length == 4,
        (Check::Shape, Wanted::TakeRow) => length == 5,
        (Check::Shape, _) => true,
        (Check::Range, Wanted::Senders) => is_within(length, 1, 64),
        (Check::Range, Wanted::Calls | Wanted::Schedule) => length <= 65_536,
        (Check::Range, Wanted::Call | Wanted::Body) => is_within(length, 1, 4),
        (Check::Range, Wanted::Receivers) => fills_groups(table.groups, length),
        (Check::Range, _) => true,
    }
}

/// Whether this number of receivers makes up the groups, 1 to 64 in each.
fn fills_groups(groups: u64, receivers: u64) -> bool {
    groups > 0 && receivers % groups == 0 && is_within(receivers / groups, 1, 64)
}
