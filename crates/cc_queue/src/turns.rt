//! A turn, over its seat.
ghost use Rattle.std.specs.Prelude.{◌≡◌, ◌≢◌, ◌+◌, ◌*◌, ◌<◌, ◌≤◌, ◌^◌, ◌∷◌, ◌==◌, if◌then◌else◌, IfSome, OnSome, IfNone, Some, None};
ghost use Rattle.cc_queue.specs.Names.{Chain, Phase, Served, Answer};
ghost use Rattle.cc_runs.specs.Codes.{list_reads};
ghost use Rattle.cc_steps.specs.Walk.{IsToldAt};
ghost use Rattle.cc_queue.specs.Codes.{IsSendAnswer, IsCloseAnswer};
ghost use Rattle.cc_queue.specs.Work.{CanTurn, IsOnList, Turns, Works, Waits, looked};

use crate::bodies;
use crate::combine::combine;
use cc_model::{CloseAnswer, SendAnswer, TakeAnswer};
use cc_runs::{CODE, Chain, NodeField};
use cc_steps::seats::PassSeat;
use cc_steps::steps;
use cc_steps::words::{ChainWords, Words};

/// Reads the state of the current node once. If it is 1 the call waits; if it is 0 the pass combines; and then its
/// answer may be read, and this is how many calls it served.
#[inline(always)]
fn await_answer(words: &ChainWords<'_>, seat: &mut PassSeat, chain: Chain, node: u64) -> Option<u32>
    requires turn { CanTurn words.now.topic words.now.chain node seat.old }
    requires chain { words.now.chain ≡ chain }
    ensures waits { IfNone result (Waits seat.old seat.new) }
    ensures done { IfSome result (λ n. Turns seat.old Phase.ReadAnswer n seat.new) }
{
    match steps::read_state(words, seat, node) {
        0 => Some(combine(words, seat, chain, node)),
        1 => None,
        _ => Some(0),
    }
}

/// `await_answer` on the senders' chain: compiled for it alone, and once for all who call. All that a turn calls is inlined
/// into it, so that the words of the chain stay in registers. `walk` is here for the clauses alone.
#[inline(never)]
fn await_request(
    words: &Words,
    walk: &ChainWords<'_>,
    seat: &mut PassSeat,
    node: u64,
) -> Option<u32>
    requires turn { CanTurn words.now Chain.Send node seat.old }
    requires walk { walk.now ≡ record { topic = words.now; chain = Chain.Send } }
    ensures waits { IfNone result (Waits seat.old seat.new) }
    ensures done { IfSome result (λ n. Turns seat.old Phase.ReadAnswer n seat.new) }
{
    let here = words.again(walk, seat, Chain::Send);
    await_answer(&here, seat, Chain::Send, node)
}

/// `await_answer` on a group's chain, in the same way.
#[inline(never)]
fn await_item(
    words: &Words,
    walk: &ChainWords<'_>,
    seat: &mut PassSeat,
    group: u32,
    node: u64,
) -> Option<u32>
    requires turn { CanTurn words.now (Chain.Take group) node seat.old }
    requires walk { walk.now ≡ record { topic = words.now; chain = Chain.Take group } }
    ensures waits { IfNone result (Waits seat.old seat.new) }
    ensures done { IfSome result (λ n. Turns seat.old Phase.ReadAnswer n seat.new) }
{
    let chain = Chain::Take(group);
    let here = words.again(walk, seat, chain);
    await_answer(&here, seat, chain, node)
}

/// Reads the answer word of a send or a close.
#[inline(always)]
fn read_request_answer(words: &ChainWords<'_>, seat: &mut PassSeat, node: u64) -> u64
    requires here { IsOnList words.now.topic Chain.Send seat.old }
    requires chain { words.now.chain ≡ Chain.Send }
    requires at { seat.old.stand ≡ record { begun = seat.old.stand.begun; node = node; phase = Phase.ReadAnswer } }
    ensures worked { Works seat.old Phase.Idle (looked 0) seat.new }
    ensures told { IsToldAt seat.new (Phase.Finished (list_reads result)) }
{
    steps::read_answer(words, seat, node, NodeField::Ret)
}

/// Reads the answer of a take, and of an item its tag and its body too. `_group` is here for the clauses alone.
#[inline(always)]
fn read_take_answer(
    words: &ChainWords<'_>,
    seat: &mut PassSeat,
    _group: u32,
    node: u64,
) -> TakeAnswer
    requires here { IsOnList words.now.topic (Chain.Take _group) seat.old }
    requires chain { words.now.chain ≡ Chain.Take _group }
    requires at { seat.old.stand ≡ record { begun = seat.old.stand.begun; node = node; phase = Phase.ReadAnswer } }
    ensures worked { Works seat.old Phase.Idle (looked 0) seat.new }
    ensures told { IsToldAt seat.new (Phase.Finished (Answer.Take result)) }
{
    let ret = steps::read_answer(words, seat, node, NodeField::Ret);
    match ret / CODE {
        1 => TakeAnswer::Got(bodies::read_answer(words, seat, node, ret % CODE)),
        2 => TakeAnswer::Empty,
        _ => TakeAnswer::Ended { total: ret % CODE },
    }
}

/// A turn of a send or a close: its answer word, and how many calls were served, if it doesn't wait.
#[inline(always)]
pub fn turn_request(
    words: &Words,
    walk: &ChainWords<'_>,
    seat: &mut PassSeat,
    node: u64,
) -> Option<(u64, u32)>
    requires turn { CanTurn words.now Chain.Send node seat.old }
    requires walk { walk.now ≡ record { topic = words.now; chain = Chain.Send } }
    ensures waits { IfNone result (Waits seat.old seat.new) }
    ensures done { IfSome result (λ r. Turns seat.old Phase.Idle r.1 seat.new) }
    ensures told { IfSome result (λ r. IsToldAt seat.new (Phase.Finished (list_reads r.0))) }
{
    let served = await_request(words, walk, seat, node)?;
    Some((read_request_answer(walk, seat, node), served))
}

/// A turn of a take: its answer, and how many calls were served, if it doesn't wait.
#[inline(always)]
pub fn turn_take(
    words: &Words,
    walk: &ChainWords<'_>,
    seat: &mut PassSeat,
    group: u32,
    node: u64,
) -> Option<(TakeAnswer, u32)>
    requires turn { CanTurn words.now (Chain.Take group) node seat.old }
    requires walk { walk.now ≡ record { topic = words.now; chain = Chain.Take group } }
    ensures waits { IfNone result (Waits seat.old seat.new) }
    ensures done { IfSome result (λ r. Turns seat.old Phase.Idle r.1 seat.new) }
    ensures told { IfSome result (λ r. IsToldAt seat.new (Phase.Finished (Answer.Take r.0))) }
{
    let served = await_item(words, walk, seat, group, node)?;
    Some((read_take_answer(walk, seat, group, node), served))
}

/// The answer of a send that an answer word is.
pub fn send_answer(ret: u64) -> SendAnswer
    requires { IsSendAnswer (list_reads ret) }
    ensures { list_reads ret ≡ Answer.Send result }
{
    match ret / CODE {
        1 => SendAnswer::Accepted { place: ret % CODE },
        2 => SendAnswer::Full,
        3 => SendAnswer::Closed,
        _ => SendAnswer::Spent,
    }
}

/// The answer of a close that an answer word is.
pub fn close_answer(ret: u64) -> CloseAnswer
    requires { IsCloseAnswer (list_reads ret) }
    ensures { list_reads ret ≡ Answer.Close result }
{
    match ret / CODE {
        1..=4 => unreachable!(),
        5 => CloseAnswer::Shut { total: ret % CODE },
        _ => CloseAnswer::Already { total: ret % CODE },
    }
}
