//! The verdict on a log.
ghost use Rattle.std.specs.Prelude.{◌≡◌, ◌⊎◌, ℕ, [], IfOk, IfSome, IfNone, IsTrue, IsFalse};
ghost use Rattle.cc_judge.specs.Names.{Rules, Verdict};
ghost use Rattle.cc_judge.specs.Table.{IsIndex};
ghost use Rattle.cc_judge.specs.Faults.{Differ};
ghost use Rattle.cc_judge.specs.Room.{KeepsRoom};
ghost use Rattle.cc_judge.specs.Complete.{LogsWithoutFaultsHaveOrders};
ghost use Rattle.cc_judge.specs.Cuts.{MayBeCut, IsCut};
ghost use Rattle.cc_judge.specs.Faultless.{IsWritten, NoFault};
ghost use Rattle.cc_judge.specs.Late.{
  LateLogsAreLinearizable,
  LateLogsHaveNoFault,
  WindowsAreLinearizable,
};
ghost use Rattle.cc_judge.specs.Sweeps.{AreLists, IsShutAt, MayBeEmpty};
ghost use Rattle.cc_judge.specs.Order.{IsLinearizable, of_any_capacity};
ghost use Rattle.cc_judge.specs.Verdict.{IsVerdict, AreOrdered, AreSentBelow, IsDecided, IsSmall, IsUndecided, Stands, StandsFirst, Indexes, FaultsHaveNoOrder};

use crate::closing::close_fault;
use crate::cutting::{cut_of, without_ties};
use crate::exploring::{Explored, explore, may_explore};
use crate::faults::Index;
use crate::lists::{Lists, lists_of};
use crate::nones::{first_none, stays_of};
use crate::overfull::many_fault;
use crate::overtaking::{take_fault, turn_fault};
use crate::prefix::{after, calls_until, ends_of, last_end, next_time};
use crate::room::full_fault;
use crate::shutting::{Shut, shut_of};
use crate::table::{Found, Kind, call_at, find};
use crate::written::is_written;
use crate::{Call, Rules, Stay, Tie};
use std::alloc::{AllocError, Global};

/// Why a log has no legal order, by the places of the calls that show it.
#[derive(Drop)]
pub enum Fault {
    /// An item was taken, and no call sent it.
    NeverSent {
        take: usize,
    },
    /// A take ended before the send of its item began.
    TakenBeforeSent {
        send: usize,
        take: usize,
    },
    /// Two calls took one item.
    TakenTwice {
        first: usize,
        second: usize,
    },
    /// Two items were sent one after the other; the later one was taken, and the earlier one after that, or never.
    Overtaken {
        stay: Stay,
        later_send: usize,
        later_take: usize,
    },
    /// A take found none, though an item was in the queue at each of its times; or found the queue closed, though an item was in the
    /// queue when the take ended. The stays are some of the log.
    NotEmpty {
        call: usize,
        stays: Vec<Stay>,
    },
    /// A send found the queue open, and began after a call had ended that closed it or found it closed.
    Reopened {
        closed: usize,
        send: usize,
    },
    /// A call found the queue closed, and each close began after that.
    ClosedEarly {
        call: usize,
    },
    /// A send found the queue full, and at each of its times fewer items than the queue holds may have been in it.
    NotFull {
        call: usize,
    },
    /// When the call had ended, more of the items of these sends were in the queue than it holds.
    TooMany {
        call: usize,
        sends: Vec<usize>,
    },
    /// The calls have no legal order: each way to cut the log between those that only their lines order leaves a fault.
    NoOrder,
}

/// The verdict on a log.
#[derive(Drop)]
pub enum Verdict {
    /// The log is linearizable: it has a legal order of a queue of whatever capacity, each answer that the queue is full is possible by
    /// itself, and at no time were more items in the queue for certain than it holds.
    Clean,
    /// The log isn't linearizable: it has no legal order.
    Fault(Fault),
    /// The search for an order was given up, when it had to cut the log between the calls of this tie. There is no tie if a time is too
    /// great, or the log isn't well-formed: two calls sent one item, or an item isn't below the number of items.
    Undecided(Option<Tie>),
}

/// The index of a log, or its fault: two calls took one item, or one took an item that no call sent.
#[derive(Drop)]
pub enum Indexed {
    /// The index.
    Index(Index),
    /// The fault.
    Fault(Fault),
}

/// Finds the places at which each item was sent and taken.
fn index_of(alloc: Global, calls: &[Call], items: usize) -> Result<Indexed, AllocError>
    requires written { IsWritten calls.now }
    requires differ { Differ calls.now }
    requires below { AreSentBelow calls.now items }
    ensures { IfOk result (Indexes calls.now) }
{
    let sends = match find(alloc, calls, items, Kind::Send)? {
        Found::Each(sends) => sends,
        Found::Twice(take, _) => return Ok(Indexed::Fault(Fault::NeverSent { take })),
        Found::Stray(take) => return Ok(Indexed::Fault(Fault::NeverSent { take })),
    };
    let takes = match find(alloc, calls, items, Kind::Take)? {
        Found::Each(takes) => takes,
        Found::Twice(first, second) => {
            return Ok(Indexed::Fault(Fault::TakenTwice { first, second }));
        }
        Found::Stray(take) => return Ok(Indexed::Fault(Fault::NeverSent { take })),
    };
    Ok(Indexed::Index(Index { sends, takes }))
}

/// The law: a fault leaves a log of items that differ without a legal order.
#[tactic(auto, using(crate::proofs::NoOrder::no_order))]
pub fn faults_have_no_order()
    ensures { FaultsHaveNoOrder }
{}

/// The law: a log without closes, and with no calls that only their lines order, has a legal order if it has none of the faults.
#[tactic(auto, using(crate::proofs::Shares::completeness))]
pub fn logs_without_faults_have_orders()
    ensures { LogsWithoutFaultsHaveOrders }
{}

/// The law: a log that begins late has a legal order, if the log has one that it is a part of.
pub fn late_logs_are_linearizable()
    ensures { LateLogsAreLinearizable }
{}

/// The law: the same of a part of which less is known, as of one that is cut at its end.
pub fn windows_are_linearizable()
    ensures { WindowsAreLinearizable }
{}

/// The law: no right verdict on a log that begins late is a fault, if the log that it is a part of has a legal order.
pub fn late_logs_have_no_fault()
    ensures { LateLogsHaveNoFault }
{}

/// That a take found none, though an item was in the queue for certain.
fn none_fault(
    alloc: Global,
    calls: &[Call],
    lists: &Lists,
    shut: Option<Shut>,
) -> Result<Option<Fault>, AllocError>
    ensures some { IfOk result (λ found. IfSome found (λ fault. (rules : Rules) → AreLists rules calls.now lists.now → IsShutAt rules calls.now shut → Stands rules calls.now fault)) }
    ensures none { IfOk result (λ found. IfNone found ((rules : Rules) → AreLists rules calls.now lists.now → IsShutAt rules calls.now shut → (place : ℕ) → MayBeEmpty rules calls.now place)) }
{
    match first_none(calls, lists, shut) {
        Some(call) => Ok(Some(Fault::NotEmpty {
            call,
            stays: stays_of(alloc, calls, lists, shut, call)?,
        })),
        None => Ok(None),
    }
}

/// The fault of a log of a queue of whatever capacity, if it has one. It takes memory in proportion to the log, and O(n log n); or
/// O(log n) for each pair of a take that found none and an item, if one found none while items came and went without a break.
fn fault_of(
    alloc: Global,
    rules: &Rules,
    calls: &[Call],
    index: &Index,
) -> Result<Option<Fault>, AllocError>
    requires index { IsIndex calls.now index.now }
    requires written { IsWritten calls.now }
    ensures some { IfOk result (λ found. IfSome found (Stands rules.now calls.now)) }
    ensures none { IfOk result (λ found. IfNone found (NoFault rules.now calls.now)) }
{
    if let Some(fault) = take_fault(calls, index) {
        return Ok(Some(fault));
    }
    let shut = shut_of(rules, calls);
    if let Some(fault) = close_fault(calls, index, shut) {
        return Ok(Some(fault));
    }
    let lists = lists_of(alloc, calls, index, shut)?;
    if let Some(fault) = turn_fault(alloc, calls, index, &lists)? {
        return Ok(Some(fault));
    }
    none_fault(alloc, calls, &lists, shut)
}

/// That the log is not one of a queue of its capacity.
#[tactic(auto, using(crate::proofs::Deciding::both_none))]
fn room_fault(
    alloc: Global,
    rules: &Rules,
    calls: &[Call],
    index: &Index,
) -> Result<Option<Fault>, AllocError>
    requires index { IsIndex calls.now index.now }
    requires written { IsWritten calls.now }
    requires none { NoFault rules.now calls.now }
    ensures some { IfOk result (λ found. IfSome found (Stands rules.now calls.now)) }
    ensures none { IfOk result (λ found. IfNone found (KeepsRoom rules.now calls.now)) }
{
    if let Some(fault) = full_fault(alloc, rules, calls, index)? {
        return Ok(Some(fault));
    }
    many_fault(alloc, rules, calls, index)
}

/// The fault of a log, if it has one that doesn't rest on ties. Of a queue of a capacity two more are sought: a send found the queue
/// full that can't have been, or the queue held too many items.
#[tactic(auto, using(crate::proofs::Deciding::both_none))]
fn found_of(
    alloc: Global,
    rules: &Rules,
    calls: &[Call],
    index: &Index,
) -> Result<Option<Fault>, AllocError>
    requires index { IsIndex calls.now index.now }
    requires written { IsWritten calls.now }
    ensures some { IfOk result (λ found. IfSome found (Stands rules.now calls.now)) }
    ensures none { IfOk result (λ found. IfNone found (NoFault rules.now calls.now × KeepsRoom rules.now calls.now)) }
{
    if let Some(fault) = fault_of(alloc, rules, calls, index)? {
        return Ok(Some(fault));
    }
    room_fault(alloc, rules, calls, index)
}

/// The fault of a log, if it has one that doesn't rest on ties.
pub fn found_in(
    alloc: Global,
    rules: &Rules,
    calls: &[Call],
    items: usize,
) -> Result<Option<Fault>, AllocError>
    requires written { IsWritten calls.now }
    requires differ { Differ calls.now }
    requires below { AreSentBelow calls.now items }
    ensures some { IfOk result (λ found. IfSome found (Stands rules.now calls.now)) }
    ensures none { IfOk result (λ found. IfNone found (NoFault rules.now calls.now × KeepsRoom rules.now calls.now)) }
{
    match index_of(alloc, calls, items)? {
        Indexed::Index(index) => found_of(alloc, rules, calls, &index),
        Indexed::Fault(fault) => Ok(Some(fault)),
    }
}

/// The end of a call at which a fault shows, if the fault shows at the end of a call.
fn shown_at(calls: &[Call], fault: &Fault) -> Option<u64> {
    let place = match fault {
        Fault::NeverSent { take } | Fault::TakenBeforeSent { take, .. } => *take,
        Fault::TakenTwice { second, .. } => *second,
        Fault::Overtaken { later_take, .. } => *later_take,
        Fault::Reopened { send, .. } => *send,
        Fault::NotEmpty { call, .. }
        | Fault::ClosedEarly { call }
        | Fault::NotFull { call }
        | Fault::TooMany { call, .. } => *call,
        Fault::NoOrder => return None,
    };
    call_at(calls, place)?.end
}

/// The fault that shows first in a log with this fault: the one of the log until the least time until which it has one. It looks at
/// the log until as many times as it takes to halve the number of ends until one is left, and mostly at three.
fn first_fault(
    alloc: Global,
    rules: &Rules,
    calls: &[Call],
    items: usize,
    found: Fault,
) -> Result<Fault, AllocError>
    requires written { IsWritten calls.now }
    requires differ { Differ calls.now }
    requires below { AreSentBelow calls.now items }
    requires stands { Stands rules.now calls.now found }
    ensures { IfOk result (StandsFirst rules.now calls.now) }
{
    let ends = ends_of(alloc, calls)?;
    let mut first = found;
    let (mut low, mut high) = (0, last_end(calls));
    while low < high {
        let time = next_time(&ends, low, high, shown_at(calls, &first));
        let part = calls_until(alloc, calls, time)?;
        match found_in(alloc, rules, part.as_slice(), items)? {
            Some(fault) => {
                first = fault;
                high = time;
            }
            None => low = after(time, high),
        }
    }
    Ok(first)
}

/// The verdict on a log that its times order.
fn timed(alloc: Global, rules: &Rules, calls: &[Call], items: usize) -> Result<Verdict, AllocError>
    requires written { IsWritten calls.now }
    requires differ { Differ calls.now }
    requires below { AreSentBelow calls.now items }
    requires none { rules.now.ties.items ≡ [] }
    ensures right { IfOk result (IsVerdict rules.now calls.now) }
    ensures decided { IfOk result (λ verdict. IsUndecided verdict → ⊥) }
{
    if let Some(fault) = found_in(alloc, rules, calls, items)? {
        return Ok(Verdict::Fault(first_fault(alloc, rules, calls, items, fault)?));
    }
    Ok(Verdict::Clean)
}

/// The verdict on a log that was cut.
fn cut_up(
    alloc: Global,
    rules: &Rules,
    calls: &[Call],
    cut: &[Call],
    items: usize,
) -> Result<Verdict, AllocError>
    requires written { IsWritten calls.now }
    requires differ { Differ calls.now }
    requires below { AreSentBelow calls.now items }
    requires may { MayBeCut calls.now rules.now.ties.items }
    requires cut { IsCut rules.now.ties.items calls.now cut.now }
    ensures right { IfOk result (IsVerdict rules.now calls.now) }
    ensures decided { IfOk result (λ verdict. IsUndecided verdict → ⊥) }
{
    let plain = without_ties(alloc, rules);
    if let Some(fault) = found_in(alloc, &plain, cut, items)? {
        return Ok(Verdict::Fault(first_fault(alloc, &plain, cut, items, fault)?));
    }
    Ok(Verdict::Clean)
}

/// The log has no order, as it is until its last end.
fn none_fault_of(rules: &Rules, calls: &[Call]) -> Fault
    requires written { IsWritten calls.now }
    requires differ { Differ calls.now }
    requires fine { NoFault rules.now calls.now }
    requires none { IsLinearizable rules.now calls.now → ⊥ }
    ensures { StandsFirst rules.now calls.now result }
{
    let _end = last_end(calls);
    Fault::NoOrder
}

/// How many calls are judged at most, in all logs that are cut in a search.
const MOST: usize = 1 << 20;

/// The verdict on a log in which only lines order calls: by each cut between them, if no fault shows without one.
fn sought(alloc: Global, rules: &Rules, calls: &[Call], items: usize) -> Result<Verdict, AllocError>
    requires written { IsWritten calls.now }
    requires differ { Differ calls.now }
    requires below { AreSentBelow calls.now items }
    ensures right { IfOk result (IsVerdict rules.now calls.now) }
    ensures decided { IfOk result (λ verdict. IsUndecided verdict → IsSmall rules.now calls.now → ⊥) }
{
    if let Some(fault) = found_in(alloc, rules, calls, items)? {
        return Ok(Verdict::Fault(first_fault(alloc, rules, calls, items, fault)?));
    }
    if !may_explore(calls, rules.ties.as_slice()) {
        return Ok(Verdict::Undecided(None));
    }
    let mut left = MOST;
    let found = explore(alloc, rules, calls, items, &mut left)?;
    match found {
        Explored::Clean => Ok(Verdict::Clean),
        Explored::NoOrder => Ok(Verdict::Fault(none_fault_of(rules, calls))),
        Explored::Stuck(tie) => Ok(Verdict::Undecided(Some(tie))),
    }
}

/// The verdict on a log whose sends have different items, below `items`.
fn verdict_by(
    alloc: Global,
    rules: &Rules,
    calls: &[Call],
    items: usize,
) -> Result<Verdict, AllocError>
    requires written { IsWritten calls.now }
    requires differ { Differ calls.now }
    requires below { AreSentBelow calls.now items }
    ensures right { IfOk result (IsVerdict rules.now calls.now) }
    ensures decided { IfOk result (λ verdict. IsUndecided verdict → AreOrdered rules.now calls.now ⊎ IsSmall rules.now calls.now → ⊥) }
{
    if rules.ties.is_empty() {
        return timed(alloc, rules, calls, items);
    }
    match cut_of(alloc, rules, calls)? {
        Some(cut) => cut_up(alloc, rules, calls, cut.as_slice(), items),
        None => sought(alloc, rules, calls, items),
    }
}

/// Whether the sends have different items, below this number.
fn do_differ(alloc: Global, calls: &[Call], items: usize) -> Result<bool, AllocError>
    ensures differ { IfOk result (λ so. IsTrue so → Differ calls.now) }
    ensures below { IfOk result (λ so. IsTrue so → AreSentBelow calls.now items) }
    ensures others { IfOk result (λ so. IsFalse so → Differ calls.now → AreSentBelow calls.now items → ⊥) }
{
    let _sends = match find(alloc, calls, items, Kind::Send)? {
        Found::Each(sends) => sends,
        Found::Twice(..) => return Ok(false),
        Found::Stray(_) => return Ok(false),
    };
    Ok(true)
}

/// The verdict on a log whose items are below `items`. It takes memory in proportion to the log, and O(n log n) if few calls are under
/// way at a time.
///
/// A log is decided, with closes and calls that haven't returned, if at most one tie meets at each time, and with ties the times are
/// below 2^62: the log has a legal order exactly if it has none of the faults (after Henzinger, Sezgin and Vafeiadis, CONCUR 2013, for
/// calls that all returned and take no moment's emptiness). With other ties the log is cut between their calls in each way that may matter.
/// The verdict is undecided only if that takes more than 2^20 calls to judge. Of a capacity two faults are judged: a send found the queue
/// full that can't have been, or the queue held too many items.
pub fn judge(
    alloc: Global,
    rules: &Rules,
    calls: &[Call],
    items: usize,
) -> Result<Verdict, AllocError>
    ensures right { IfOk result (IsVerdict rules.now calls.now) }
    ensures decided { IfOk result (IsDecided rules.now calls.now items) }
{
    if !is_written(calls) {
        return Ok(Verdict::Undecided(None));
    }
    let apart = do_differ(alloc, calls, items)?;
    if apart {
        verdict_by(alloc, rules, calls, items)
    } else {
        Ok(Verdict::Undecided(None))
    }
}
