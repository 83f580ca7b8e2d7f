//! Workers that are back: their passes and their receipts in one list each.
ghost use Rattle.std.specs.Prelude.{[], ◌≡◌, ◌+◌, ◌<◌, ◌≤◌, ◌^◌, ◌++◌, if◌then◌else◌, Some, None, true, is_some, vec_len, vec_capacity};
ghost use Rattle.std.specs.Option.{option_to_list};
ghost use Rattle.cc_drive.specs.Crew.{AreGathered, sooner};

use crate::receipts::{KeptReceipts, Worked};
use std::alloc::Global;

/// The results of a row of workers.
#[derive(Drop)]
pub struct Crew<P: Drop, X: Drop> {
    /// The passes that are back, in order.
    pub passes: Vec<P>,
    /// The receipts of all of them, in order.
    pub receipts: Vec<X>,
    /// Whether each receipt was kept, by its worker and here.
    pub is_whole: bool,
    /// The least number of a worker that reached its limit.
    pub limited: Option<u32>,
}

/// Gathers what workers gave back, which are numbered from `first` on.
pub fn gather<P: Drop, X: Drop>(
    alloc: Global,
    workers: Vec<Worked<P, X>>,
    first: u32,
    passes: Vec<P>,
) -> Crew<P, X>
    requires few { first + vec_len workers < 2 ^ 32 }
    requires none { passes.items ≡ [] }
    requires room { vec_len workers ≤ vec_capacity passes }
    ensures gathered { AreGathered first workers.items result.passes.items result }
    ensures few { vec_len result.passes ≤ vec_len workers }
    ensures room { vec_capacity passes ≤ vec_capacity result.passes }
{
    let mut passes = passes;
    let mut receipts = Vec::new(alloc);
    let mut is_whole = true;
    let mut limited = None;
    let mut number = first;
    for worker in workers {
        let Worked {
            row: _,
            pass,
            left,
            made: _,
            kept,
        } = worker;
        drop(left);
        let is_back = add_pass(&mut passes, pass);
        limited = earlier(limited, is_back, number);
        is_whole &= add_receipts(&mut receipts, kept);
        number += 1;
    }
    Crew {
        passes,
        receipts,
        is_whole,
        limited,
    }
}

/// Adds a pass, if it is back, and returns whether it is. There is room for it.
fn add_pass<P: Drop>(passes: &mut Vec<P>, pass: Option<P>) -> bool
    requires { vec_len passes.old < vec_capacity passes.old }
    ensures items { passes.new.items ≡ passes.old.items ++ option_to_list pass }
    ensures len { vec_len passes.new ≤ vec_len passes.old + 1 }
    ensures back { result ≡ is_some pass }
    ensures room { vec_capacity passes.old ≤ vec_capacity passes.new }
{
    match pass {
        Some(pass) => {
            let Ok(()) = passes.push(pass) else {
                unreachable!()
            };
            true
        }
        None => false,
    }
}

/// The number that was found, else this one if its pass isn't back.
fn earlier(limited: Option<u32>, is_back: bool, number: u32) -> Option<u32>
    ensures { result ≡ sooner limited (if is_back then None else Some number) }
{
    match limited {
        Some(least) => Some(least),
        None if is_back => None,
        None => Some(number),
    }
}

/// Adds receipts: whether all were kept before, and there was memory for them here.
fn add_receipts<X: Drop>(receipts: &mut Vec<X>, kept: KeptReceipts<X>) -> bool
    ensures whole { result ≡ true → kept.is_whole ≡ true }
    ensures items { result ≡ true → receipts.new.items ≡ receipts.old.items ++ kept.receipts.items }
{
    let KeptReceipts {
        receipts: mut more,
        is_whole,
    } = kept;
    receipts.append(&mut more).is_ok() && is_whole
}
