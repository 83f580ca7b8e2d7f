//! The audit of what all passes of a queue got.
ghost use Rattle.std.specs.Prelude.{◌≡◌, ◌≤◌, ◌++◌, [], map, IfOk, IsPermutation};
ghost use Rattle.std.specs.Fn.{FnReturnsAt};
ghost use Rattle.std.specs.List.{All};
ghost use Rattle.cc_audit.specs.Verdict.{IsVerdict};
ghost use Rattle.cc_queue.specs.Names.{Verdict};
ghost use Rattle.cc_runs.specs.Words.{groups};
ghost use Rattle.cc_queue.specs.Met.{HaveSeenOne};
ghost use Rattle.cc_queue.specs.Receipts.{Row, AreAll, HasJustCallsOf, IsTotal, in_group, seen_by, walk_at, receipts_told, receipts_left, sent, got};

use crate::given_up::GivenUp;
use crate::passes::{Receiver, Sender};
use crate::queue::Queue;
use cc_audit::{SendReceipt, TakeReceipt, Verdict, audit};
use std::alloc::{AllocError, Global};

/// Makes this call on each of the passes: a fact for proofs, and no work.
fn at_each<P, F: Fn(&P)>(passes: &[P], call: F)
    requires { F.IsAlwaysCallable call }
    ensures { All (λ p. FnReturnsAt F.Fn call p tt) passes.now }
{
    for pass in passes {
        call(pass);
    }
}

/// All passes of a queue: those that are live, and those that were given up.
#[derive(Clone, Copy)]
pub struct AllPasses<'a> {
    pub senders: &'a [Sender],
    pub receivers: &'a [Receiver],
    pub given_up: &'a [GivenUp],
}

/// The receipts of a queue: those of its senders, those of the receivers of one group, each in any order, and the total of a
/// close, if one returned it. `group` is what `Receiver::group` returns.
#[derive(Clone, Copy)]
pub struct Receipts<'a> {
    pub group: u32,
    pub sends: &'a [SendReceipt],
    pub takes: &'a [TakeReceipt],
    pub total: Option<u64>,
}

/// The audit of all receipts of a queue. All its passes have met, live ones and abandoned ones, in the order of its row
/// (`passes`). The history that they have seen is made of their calls, each with its answer, but for at most one that each
/// abandoned pass left waiting. In addition to the receipts that are given there are those of calls that were left waiting and
/// served all the same: nobody holds them. With these the verdict is Clean. So it is Clean if there are none. It takes memory
/// in proportion to the receipts.
pub fn audit_all(
    alloc: Global,
    queue: &Queue,
    all: &AllPasses<'_>,
    receipts: &Receipts<'_>,
) -> Result<Verdict, AllocError>
    ghost passes: { Row }
    requires all { AreAll queue.now passes all.now.senders.now all.now.receivers.now all.now.given_up.now }
    requires one { HaveSeenOne all.now.senders.now all.now.receivers.now all.now.given_up.now }
    requires low { 1 ≤ receipts.now.group }
    requires high { receipts.now.group ≤ groups queue.now.setting.config }
    requires sends { IsPermutation (receipts_told sent passes.senders) receipts.now.sends.now }
    requires takes { IsPermutation (receipts_told got (in_group queue.now.setting.config receipts.now.group passes.receivers)) receipts.now.takes.now }
    requires total { IsTotal (seen_by (map walk_at passes.senders)) receipts.now.total }
    ensures just { HasJustCallsOf passes (seen_by (map walk_at passes.senders)) }
    ensures clean { IsVerdict (receipts.now.sends.now ++ receipts_left sent passes.senders) (receipts.now.takes.now ++ receipts_left got (in_group queue.now.setting.config receipts.now.group passes.receivers)) receipts.now.total Verdict.Clean }
    ensures told { IfOk result (λ v. IsVerdict receipts.now.sends.now receipts.now.takes.now receipts.now.total v) }
    ensures none_left { receipts_left sent passes.senders ≡ [] → receipts_left got (in_group queue.now.setting.config receipts.now.group passes.receivers) ≡ [] → IfOk result (λ v. v ≡ Verdict.Clean) }
{
    queue.is_sound();
    at_each(all.senders, Sender::is_sound);
    at_each(all.receivers, Receiver::is_sound);
    at_each(all.given_up, GivenUp::is_sound);
    audit(alloc, receipts.sends, receipts.takes, receipts.total)
}
