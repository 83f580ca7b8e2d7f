//! The begin of a call, over its seat: from the reset of the own node to its link.
ghost use Rattle.std.specs.Prelude.{◌≡◌, ◌+◌, ◌<◌, ◌≤◌, ◌^◌, ◌∷◌, ◌++◌, [], Some, None};
ghost use Rattle.cc_queue.specs.Names.{Call, Chain, Phase};
ghost use Rattle.cc_runs.specs.Codes.{request_in};
ghost use Rattle.cc_runs.specs.Lines.{after_exchange};
ghost use Rattle.cc_runs.specs.Run.{begun_after};
ghost use Rattle.cc_steps.specs.Shown.{CanStart};
ghost use Rattle.cc_steps.specs.Walk.{IsOf, IsReadyToStep, IsPendingIn};
ghost use Rattle.cc_queue.specs.Work.{IsOn, IsOnList, Enters};
ghost use Rattle.cc_queue.specs.Headline.{entry_of};

use crate::bodies;
use cc_model::Call;
use cc_runs::{Chain, Request};
use cc_steps::seats::PassSeat;
use cc_steps::steps;
use cc_steps::words::ChainWords;

/// Resets the own node and exchanges it for the one in the chain's tail, which is given: here the call enters the
/// history.
#[inline(always)]
fn exchange(words: &ChainWords<'_>, seat: &mut PassSeat, node: u64, call: Call) -> u64
    requires here { IsOf words.now.topic seat.old }
    requires chain { IsOn seat.old words.now.chain }
    requires idle { seat.old.stand ≡ record { begun = seat.old.stand.begun; node = node; phase = Phase.Idle } }
    requires may { CanStart seat.old.setting seat.old.number (Some call) seat.old.stand }
    ensures entered { Enters seat.old call record { begun = begun_after call seat.old.stand.begun; node = result; phase = after_exchange words.now.chain node (entry_of seat.old call) } seat.new }
    ensures ready { IsReadyToStep seat.new }
{
    steps::reset_next(words, seat, node, call);
    steps::reset_state(words, seat, node);
    steps::exchange_tail(words, seat, node + 1) - 1
}

/// Begins a send or a close: writes the request words into the node that the exchange left, which is given, and links
/// it to the own one.
#[inline(always)]
pub fn begin_request(
    words: &ChainWords<'_>,
    seat: &mut PassSeat,
    node: u64,
    call: Call,
    request: Request,
) -> u64
    requires here { IsOf words.now.topic seat.old }
    requires sends { words.now.chain ≡ Chain.Send }
    requires chain { IsOn seat.old Chain.Send }
    requires idle { seat.old.stand ≡ record { begun = seat.old.stand.begun; node = node; phase = Phase.Idle } }
    requires may { CanStart seat.old.setting seat.old.number (Some call) seat.old.stand }
    requires request { request ≡ request_in (entry_of seat.old call) }
    ensures entered { Enters seat.old call record { begun = begun_after call seat.old.stand.begun; node = result; phase = Phase.ReadState } seat.new }
    ensures pending { IsPendingIn seat.new }
{
    let got = exchange(words, seat, node, call);
    bodies::write_request(words, seat, got, node, request);
    got
}

/// Begins a take: links the node that the exchange left, which is given, to the own one. `_group` is here for the clauses alone.
#[inline(always)]
pub fn begin_take(words: &ChainWords<'_>, seat: &mut PassSeat, _group: u32, node: u64) -> u64
    requires here { IsOnList words.now.topic (Chain.Take _group) seat.old }
    requires takes { words.now.chain ≡ Chain.Take _group }
    requires idle { seat.old.stand ≡ record { begun = seat.old.stand.begun; node = node; phase = Phase.Idle } }
    requires few { seat.old.stand.begun ≤ seat.old.setting.config.per_sender }
    ensures entered { Enters seat.old Call.Take record { begun = seat.old.stand.begun; node = result; phase = Phase.ReadState } seat.new }
    ensures pending { IsPendingIn seat.new }
{
    let got = exchange(words, seat, node, Call::Take);
    steps::link_next(words, seat, got, node + 1);
    got
}
