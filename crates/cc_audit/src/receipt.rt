//! The receipts of sends and takes, and the verdict on them.
use cc_model::{Body, Item};

/// The receipt of a send that was accepted: the sender's own number, the number of this send among its sends, from 1, the
/// place of the item among all accepted items, from 0, and the body.
#[derive(Clone, Copy, Debug, PartialEq, Eq)]
pub struct SendReceipt {
    pub sender: u32,
    pub number: u32,
    pub place: u64,
    pub body: Body,
}

/// The receipt of a take: the receiver's own number, and the item that it got.
#[derive(Clone, Copy, Debug, PartialEq, Eq)]
pub struct TakeReceipt {
    pub receiver: u32,
    pub item: Item,
}

/// The result of an audit: no fault at any place, or the least place at which there is one, and there the least kind, 1 to
/// 7.
#[derive(Clone, Copy, Debug, PartialEq, Eq)]
pub enum Verdict {
    Clean,
    Fault { kind: u8, place: u64 },
}
