//! The answer of a request that is served.
ghost use Rattle.std.specs.Prelude.{◌≡◌};
ghost use Rattle.cc_queue.specs.Names.{Phase, Served};
ghost use Rattle.cc_runs.specs.Lines.{after_answer};
ghost use Rattle.cc_steps.specs.Walk.{IsReadyToStep};
ghost use Rattle.cc_queue.specs.Work.{IsOnList, Serves};

use cc_model::Answer;
use cc_runs::{Job, NodeField, Served, ret_of};
use cc_steps::seats::PassSeat;
use cc_steps::steps;
use cc_steps::words::ChainWords;

/// Writes an answer of one word into the node that is served.
#[inline(always)]
pub fn tell(words: &ChainWords<'_>, seat: &mut PassSeat, job: Job, answer: Answer)
    requires here { IsOnList words.now.topic words.now.chain seat.old }
    requires at { seat.old.stand.phase ≡ Phase.WriteAnswer job answer }
    requires alone { after_answer job answer ≡ Phase.MarkDone job }
    requires ready { IsReadyToStep seat.old }
    ensures { Serves seat.old (Phase.MarkDone job) 0 seat.new }
{
    let word = ret_of(Served::List, answer);
    steps::write_answer(words, seat, job.round.at, NodeField::Ret, word);
}
