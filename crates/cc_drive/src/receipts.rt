//! The receipts that a worker keeps of its calls, and its result.
ghost use Rattle.std.specs.Prelude.{◌≡◌, [], ◌∷◌, ◌++◌, true};

use cc_queue::GivenUp;
use std::alloc::Global;

/// The receipts of a worker's calls.
#[derive(Drop)]
pub struct KeptReceipts<X: Drop> {
    pub receipts: Vec<X>,
    /// Whether there was memory for each of them.
    pub is_whole: bool,
}

/// The result of a worker: its place, its pass, how many turns it made, and its receipts.
#[derive(Drop)]
pub struct Worked<P: Drop, X: Drop> {
    /// The place of its pass in the row of all passes.
    pub row: u32,
    /// The pass, unless the worker came to a limit.
    pub pass: Option<P>,
    /// The pass as it was given up then, which has the reads of states that it made.
    pub left: Option<GivenUp>,
    pub made: u64,
    pub kept: KeptReceipts<X>,
}

impl<X: Drop> KeptReceipts<X> {
    /// Nothing was kept so far.
    pub(crate) fn new(alloc: Global) -> KeptReceipts<X>
        ensures { result.receipts.items ≡ [] }
    {
        KeptReceipts {
            receipts: Vec::new(alloc),
            is_whole: true,
        }
    }

    /// Keeps one more, if there is memory for it.
    pub(crate) fn keep(&mut self, receipt: X)
        ensures whole { self.new.is_whole ≡ true → self.old.is_whole ≡ true }
        ensures kept { self.new.is_whole ≡ true → self.new.receipts.items ≡ self.old.receipts.items ++ receipt ∷ [] }
    {
        if self.receipts.push(receipt).is_err() {
            self.is_whole = false;
        }
    }
}
