//! The laws of the list and of the history, after every run.
ghost use Rattle.cc_runs.specs.MachineLaws.{HistoryIsLegal, HistoryIsFifo, BusyNodesAreItems, PreparedNodeIsBusy, ResetAfterTheTake, PreparedAlone, LinksNameNodes, ScansAreShort, NumbersStayWithin, StepsAreReady, AnswersAreTold, PrefixesBegin};

/// After every run the history is legal: each answer is one that its call may get, and the items handed out are those
/// accepted, in their order, with at most `capacity` of them between.
pub fn histories_are_legal()
    ensures { HistoryIsLegal }
{}

/// After every run the items handed out are a prefix of those accepted, each sender's among them in its own order, none
/// twice, and none is accepted after a close.
pub fn histories_are_fifo()
    ensures { HistoryIsFifo }
{}

/// While no node is in preparation, the busy ordinary list nodes are one more than the items that were accepted and not
/// handed out: the dummy is busy too (two-lock queue, Michael and Scott, PODC 1996).
#[tactic(auto, using(crate::proofs::ListRuns::Laws::busy_nodes_are_items))]
pub fn busy_nodes_are_items()
    ensures { BusyNodesAreItems }
{}

/// While a node is in preparation, it is busy in addition to them.
#[tactic(auto, using(crate::proofs::ListRuns::Laws::prepared_node_is_busy))]
pub fn prepared_node_is_busy()
    ensures { PreparedNodeIsBusy }
{}

/// A list node that was in the list is reset only after the take that went past it was decided.
#[tactic(auto, using(crate::proofs::ListRuns::Laws::reset_after_the_take))]
pub fn nodes_are_reset_after_their_take()
    ensures { ResetAfterTheTake }
{}

/// From the reset of a list node up to its link no take holds it for a step to come.
#[tactic(auto, using(crate::proofs::ListRuns::Laws::prepared_alone))]
pub fn nodes_are_prepared_alone()
    ensures { PreparedAlone }
{}

/// Each link of a list node that is read is null or names a list node; and a scan for a free node starts at an ordinary
/// node, reads ordinary nodes alone, and finds one.
#[tactic(auto, using(crate::proofs::ListRuns::Laws::links_name_nodes))]
pub fn links_name_nodes()
    ensures { LinksNameNodes }
{}

/// A scan for a free node reads at most `capacity + 1` nodes.
#[tactic(auto, using(crate::proofs::ListRuns::Laws::scans_are_short))]
pub fn scans_are_short()
    ensures { ScansAreShort }
{}

/// At most `life` items are accepted; each place in an answer is below that, each total at most that, and each send's
/// number below 2^32.
#[tactic(auto, using(crate::proofs::ListRuns::Within::numbers_stay_within))]
pub fn numbers_stay_within()
    ensures { NumbersStayWithin }
{}

/// Each step that a pass can do after any run finds its words, and no number leaves its range.
pub fn steps_are_ready()
    ensures { StepsAreReady }
{}

/// The answer that a call has read, after any run, is the answer of its pass's last call in the history.
#[tactic(auto, using(crate::proofs::ListRuns::Ready::list_answers_told))]
pub fn answers_are_told()
    ensures { AnswersAreTold }
{}

/// A prefix of a run is a run, and its history begins that of the whole run: calls and answers are only added.
pub fn prefixes_of_runs_begin()
    ensures { PrefixesBegin }
{}
