//! The laws of the combining chains, after every run.
ghost use Rattle.cc_runs.specs.CallsMade.{CallsOfRuns, NumbersOfSends};
ghost use Rattle.cc_runs.specs.ChainLaws.{ChainLawsOfRuns, CounterLawsOfRuns, CallsWaitForTheirLink, CallsEndAnswered};

/// The laws of the combining chains (CC-Synch, Fatourou and Kallimanis, PPoPP 2012), after every run of every machine,
/// whatever its chains serve: one pass of a chain combines at most, and answers at most `bound` calls before it hands
/// over; what it serves is the first call without an answer, so answers come in the order of the exchanges; a call
/// reads its answer in the history; each link that is read is null or names a node of the chain; and a pass resets no
/// node but its own.
#[tactic(auto, using(crate::proofs::ChainLaws::chain_laws))]
pub fn laws_of_chains()
    ensures { ChainLawsOfRuns }
{}

/// The laws of a counter, after every run: it hands out the numbers from 0 on, one to each call, in the order of the
/// exchanges; and each step can be done, with its words in the table and every number in its range.
pub fn laws_of_counters()
    ensures { CounterLawsOfRuns }
{}

/// The calls of every pass, after every run: the history has exactly those that the pass began and that have exchanged,
/// each once and in the order of their begins, with what was handed in and known at the begin.
#[tactic(auto, using(crate::proofs::CallsMade::calls_made))]
pub fn laws_of_calls()
    ensures { CallsOfRuns }
{}

/// The numbers of the calls, after every run: no call in the history has a greater number than `per_sender`, which is how
/// many sends one sender may begin.
#[tactic(auto, using(crate::proofs::SendNumbers::numbers_few))]
pub fn numbers_of_sends()
    ensures { NumbersOfSends }
{}

/// A call that has exchanged and that its pass hasn't linked is pending, after every run: it is its pass's last call in
/// the history, and has no answer there. A combiner reaches a call only over the link to the next node.
#[tactic(auto, using(crate::proofs::ChainRuns::calls_wait))]
pub fn calls_wait_for_their_link()
    ensures { CallsWaitForTheirLink }
{}

/// A pass that is out of its chain has no pending call, after every run: each of its calls in the history has its answer
/// there. So has an idle pass.
#[tactic(auto, using(crate::proofs::EndAnswered::calls_end))]
pub fn calls_end_answered()
    ensures { CallsEndAnswered }
{}
