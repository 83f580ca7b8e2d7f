//! The laws of threads with store buffers: fenced plain stores are not seen, so the laws of runs hold on x86-TSO.
ghost use Rattle.cc_x86.specs.Fenced.{BuffersAreNotSeen, MostAreFenced};
ghost use Rattle.cc_x86.specs.AnyCode.{CodeFollowsWithBuffers, PremiseOfCode};
ghost use Rattle.cc_x86.specs.Crews.{LinearizableWithDrivenPasses};
ghost use Rattle.cc_x86.specs.Driven.{DrivenRunsAreByPasses};
ghost use Rattle.cc_x86.specs.Early.{LinearizableWithEarlyStores};
ghost use Rattle.cc_x86.specs.Posted.{FencedStoresAreOrderly, PostedStoresAreNotSeen};
ghost use Rattle.cc_x86.specs.OnX86.{HistoryIsLegalOnX86, RunsAreLinearizableOnX86, RunsAreThoseOfAtomicSteps};
ghost use Rattle.std.specs.Prelude.{ℕ};

use cc_runs::{
    answers_are_told, histories_are_legal, laws_of_chains, laws_of_nodes, nodes_are_prepared_alone,
    runs_are_linearizable,
};

/// If each plain store of any threads is fenced, then what they do with store buffers is what they do by atomic steps in some
/// order: the same effects in the same order, the same shared words, and each thread without a waiting store in the same state.
pub fn buffers_are_not_seen()
    ensures { BuffersAreNotSeen ℕ ℕ }
{}

/// The plain stores may be all those after which their thread neither loads a shared word nor returns; or none at all.
pub fn most_are_fenced()
    ensures { MostAreFenced ℕ ℕ }
{}

/// If no thread touches what another has posted, but by loads that wait, then what any threads do with store buffers is what they do
/// by atomic steps, with the same calls and returns in the same order, though they load and return while stores wait.
pub fn posted_stores_are_not_seen()
    ensures { PostedStoresAreNotSeen ℕ ℕ }
{}

/// This discipline allows all plain stores that are fenced.
pub fn fenced_stores_are_orderly()
    ensures { FencedStoresAreOrderly ℕ ℕ }
{}

/// Every run of the queue's machine with store buffers is a run of its atomic steps, if its plain stores are fenced.
pub fn runs_are_those_of_atomic_steps()
    ensures { RunsAreThoseOfAtomicSteps }
{}

/// So its history is legal, and the answer that a pass has read is that of its last call there.
pub fn histories_are_legal_on_x86()
    ensures { HistoryIsLegalOnX86 }
{
    histories_are_legal();
    answers_are_told();
}

/// And it is linearizable: its answered calls have an order in real time in which a sequential queue answers so.
pub fn runs_are_linearizable_on_x86()
    ensures { RunsAreLinearizableOnX86 }
{
    runs_are_linearizable();
}

/// It is linearizable too if all stores are plain but the marks of the senders' chain: also the link of a request, after which its
/// pass loads its state; the words of an item, after which the combiner loads `last`; the marks of takes, after which it
/// loads the next link; and the hand-over, after which it loads its answer and returns.
pub fn runs_with_early_stores_are_linearizable()
    ensures { LinearizableWithEarlyStores }
{
    laws_of_chains();
    laws_of_nodes();
    nodes_are_prepared_alone();
    histories_are_legal();
    answers_are_told();
    runs_are_linearizable();
}

/// If a thread takes up a pass with an empty buffer, or where the pass loads nothing before its next locked instruction, then threads
/// that drive several passes each, by one buffer, do what passes with a buffer each do.
pub fn driven_runs_are_by_passes()
    ensures { DrivenRunsAreByPasses ℕ ℕ }
{}

/// So the runs of such threads are linearizable too, with all those stores plain: a pass loads nothing between its last answer and
/// its exchange.
pub fn driven_runs_are_linearizable()
    ensures { LinearizableWithDrivenPasses }
{
    runs_with_early_stores_are_linearizable();
}

/// So the law reaches code: if what each pass does next is a function of what it has found, and is what the table says
/// in every run of atomic steps, then it is so in every run of such threads too, and the run is linearizable.
pub fn code_follows_with_buffers()
    ensures { CodeFollowsWithBuffers }
{
    laws_of_chains();
    laws_of_nodes();
    nodes_are_prepared_alone();
    driven_runs_are_linearizable();
}

/// The premise holds of the passes themselves, and not of code with a plain mark of a send, among others.
#[tactic(auto, using(crate::proofs::AnyCode::premise_of_code))]
pub fn premise_of_code()
    ensures { PremiseOfCode }
{}
