//! Progress: no deadlock, and under a fair scheduler no starvation, of lists and of counters. The laws speak of all runs, and of rounds
//! in them: what a scheduler does is no part of a run.
ghost use Rattle.cc_runs.specs.SmallWaits.{SmallWaits};
ghost use Rattle.cc_runs.specs.WrongSteps.{WrongSteps};
ghost use Rattle.cc_runs.specs.Progress.{AheadIsBounded, AnswersComeSoon, CallsAreServed, EachCallEnds, EachCallIsAnswered, MovesBringNearer, NoDeadlock, NoneBeforeStops, OpenCallsAreFew, SomeonesTurn, ThoseBehindStop, TurnsAreFew, WaitsAreShort};

/// No deadlock: while a pass is in one of the first calls of its chain, for any number of them, one of the passes in these
/// calls has a step that isn't the read of a state that is still 1.
pub fn no_call_is_stuck()
    ensures { NoDeadlock }
{}

/// While one of the first calls of a chain has no answer, or the pass of one of them waits, it is some pass's turn: the pass
/// combines for them, or reads state 0, or is in one of them and writes its request or its link.
#[tactic(auto, using(crate::proofs::Progress::Laws::someones_turn))]
pub fn it_is_someones_turn()
    ensures { SomeonesTurn }
{}

/// No move of any pass makes the steps ahead of a call more. The step of a pass whose turn it is makes them fewer, and it is the
/// turn of that pass until it steps.
pub fn moves_bring_nearer()
    ensures { MovesBringNearer }
{}

/// The steps ahead of a call are at most those of a service, and three more, for each call before it that has no answer and for
/// itself; and those of one service, and of the entries of all passes.
#[tactic(auto, using(crate::proofs::Progress::Laws::ahead_is_bounded))]
pub fn ahead_is_bounded()
    ensures { AheadIsBounded }
{}

/// No chain has more calls without an answer than it has passes.
#[tactic(auto, using(crate::proofs::Progress::Laws::open_calls_are_few))]
pub fn open_calls_are_few()
    ensures { OpenCallsAreFew }
{}

/// Bounded bypass: whatever other passes do, those whose turn it is make no more steps than were ahead of a call until it is
/// served, also if other calls come after it.
#[tactic(auto, using(crate::proofs::Progress::Laws::turns_are_few))]
pub fn turns_are_few()
    ensures { TurnsAreFew }
{}

/// No starvation under a fair scheduler: a call has its answer after more rounds than there were steps ahead of it. In a round each
/// pass that was in one of the calls up to it moves. Other passes, and those of other chains, may stop for ever.
#[tactic(auto, using(crate::proofs::Progress::Rounds::answers_come_soon))]
pub fn answers_come_soon()
    ensures { AnswersComeSoon }
{}

/// So after a number of rounds that depends on the configuration alone each call that had exchanged has its answer.
#[tactic(auto, using(crate::proofs::Progress::Rounds::each_call_is_answered))]
pub fn each_call_is_answered()
    ensures { EachCallIsAnswered }
{}

/// So a call that waits has waited for no more rounds than there were steps ahead of it.
#[tactic(auto, using(crate::proofs::Progress::Rounds::waits_are_short))]
pub fn waits_are_short()
    ensures { WaitsAreShort }
{}

/// And the pass of each such call has read its answer after the rounds that one service of each call before it takes, and `bound`
/// services of its own.
pub fn calls_are_served()
    ensures { CallsAreServed }
{}

/// From its begin on: a call has read its answer after a number of rounds that depends on the configuration alone, if each pass of its
/// chain that has a step moves in each round. Passes of other chains may stop for ever.
#[tactic(auto, using(crate::proofs::Progress::Ends::each_call_ends))]
pub fn each_call_ends()
    ensures { EachCallEnds }
{}

/// Passes that stop in their calls, as an abandoned one does, stop no call that exchanged before these: it is answered after as many
/// rounds of the other passes.
#[tactic(auto, using(crate::proofs::Progress::Stopped::none_before_stops))]
pub fn stopped_calls_stop_none_before()
    ensures { NoneBeforeStops }
{}

/// A pass that stops when it is its turn stops the calls behind it: those that have no answer then get none.
pub fn stopped_turns_stop_those_behind()
    ensures { ThoseBehindStop }
{}

/// A small run, in which one send waits for another: 68 steps are ahead of it when both have exchanged, 56 once both are linked, and
/// one fewer after the step of the pass whose turn it is.
#[tactic(auto, using(crate::proofs::SmallWaits::small_waits))]
pub fn small_waits()
    ensures { SmallWaits }
{}

/// Two machines in which a call never ends are refused by the law that each call ends: one with a combiner that waits for a link in place of a
/// hand-over, and one with a send that scans a full list again. No other law refuses these machines, since both are safe.
#[tactic(auto, using(crate::proofs::WrongSteps::wrong_steps))]
pub fn wrong_steps_are_refused()
    ensures { WrongSteps }
{}
