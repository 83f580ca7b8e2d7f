//! The combining loop of CC-Synch, for either chain.
ghost use Rattle.std.specs.Prelude.{◌≡◌, ◌≢◌, ◌+◌, ◌*◌, ◌<◌, ◌≤◌, ◌^◌, ◌==◌, if◌then◌else◌, Some, None};
ghost use Rattle.cc_queue.specs.Names.{Phase, Served};
ghost use Rattle.cc_runs.specs.Lines.{serves};
ghost use Rattle.cc_queue.specs.Work.{IsOnList, Serves, Works, combined};

use crate::sends::serve_request;
use crate::takes::serve_take;
use cc_runs::{Chain, Job, Round};
use cc_steps::seats::PassSeat;
use cc_steps::steps;
use cc_steps::words::ChainWords;

/// Serves one request of the chain, up to its mark.
#[inline(always)]
fn serve(words: &ChainWords<'_>, seat: &mut PassSeat, chain: Chain, job: Job)
    requires here { IsOnList words.now.topic words.now.chain seat.old }
    requires chain { words.now.chain ≡ chain }
    requires at { seat.old.stand.phase ≡ serves Served.List words.now.chain job }
    ensures { Serves seat.old (Phase.MarkDone job) (seat.old.setting.config.capacity + 1) seat.new }
{
    match chain {
        Chain::Send => serve_request(words, seat, job),
        Chain::Take(group) => serve_take(words, seat, group, job),
    }
}

/// Serves requests from the own node on, at most `bound` of them, and hands over at the end. Returns how many. `chain` is that of
/// the words: as a parameter it is a constant in each turn, so that a turn has the code of its own chain alone.
#[inline(always)]
pub fn combine(words: &ChainWords<'_>, seat: &mut PassSeat, chain: Chain, node: u64) -> u32
    requires here { IsOnList words.now.topic words.now.chain seat.old }
    requires chain { words.now.chain ≡ chain }
    requires at { seat.old.stand.phase ≡ Phase.ReadNext record { at = node; served = 0 } }
    ensures worked { Works seat.old Phase.ReadAnswer (combined seat.old.setting.config result 1) seat.new }
    ensures some { 0 < result }
    ensures few { result ≤ seat.old.setting.config.bound }
{
    let bound = words.config().bound;
    let mut at = node;
    for served in 0..bound {
        let next = steps::read_next(words, seat, at);
        if next == 0 {
            steps::hand_over(words, seat, at);
            return served;
        }
        let job = Job {
            round: Round { at, served },
            next: next - 1,
        };
        serve(words, seat, chain, job);
        steps::mark_done(words, seat, chain, at);
        at = job.next;
    }
    steps::hand_over(words, seat, at);
    bound
}
