//! Laws of the audit over the definitions alone: the receipts of a legal history are clean, and their order changes no verdict.
ghost use Rattle.cc_audit.specs.Receipts.{LegalGivesClean};
ghost use Rattle.cc_audit.specs.Verdict.{AnyOrder, OneVerdict};

/// The receipts of a legal history have the verdict Clean: one for each send accepted, one for each take that got an
/// item, and the total of a close.
pub fn legal_gives_clean()
    ensures { LegalGivesClean }
{}

/// The same receipts have one verdict.
#[tactic(auto, using(crate::proofs::One::same))]
pub fn one_verdict()
    ensures { OneVerdict }
{}

/// The same receipts in another order have the same verdict.
pub fn any_order()
    ensures { AnyOrder }
{}
