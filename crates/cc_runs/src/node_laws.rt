//! The laws of the nodes of the chains, after every run.
ghost use Rattle.cc_runs.specs.NodeLaws.{NodeLawsOfRuns};

/// The laws of the nodes of a combining chain, after every run: a step touches its pass's own node, or, if the pass combines, one of
/// its chain; before its link a call finds no answer; a combiner hands over at a node that is awaited, and nobody but the
/// pass of that node reads 0 then; and it answers its own request or that of a pass that waits.
#[tactic(auto, using(crate::proofs::NodeLaws::node_laws))]
pub fn laws_of_nodes()
    ensures { NodeLawsOfRuns }
{}
