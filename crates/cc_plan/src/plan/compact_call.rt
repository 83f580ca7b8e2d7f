//! A call of a sender as a plan keeps it.

/// A close, a send of one word, or a send of the body at a place of a list.
#[derive(Clone, Copy)]
pub enum CompactCall {
    Close,
    Word(u64),
    Body(usize),
}
