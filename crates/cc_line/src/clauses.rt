//! Claims that the definitions of a command line refuse.
ghost use Rattle.cc_line.specs.Refused.{RefusedClaims};

/// Of each kind of mistake an example that no definition admits.
#[tactic(auto, using(crate::proofs::RefusedClaims::claims_refused))]
pub fn definitions_refuse()
    ensures { RefusedClaims }
{}
