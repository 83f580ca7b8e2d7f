//! Claims that the definitions of this crate refuse, and the law of a part.
ghost use Rattle.cc_log.specs.Part.{PartsHaveNoFault};
ghost use Rattle.cc_log.specs.Refused.{RefusedClaims};

/// Of each kind of mistake an example that no definition admits.
#[tactic(auto, using(crate::proofs::RefusedClaims::claims_refused))]
pub fn definitions_refuse()
    ensures { RefusedClaims }
{}

/// The law: no right verdict on a log that is a part is a fault, if the log that it is a part of has a legal order.
pub fn parts_have_no_fault()
    ensures { PartsHaveNoFault }
{}
