//! Claims that the clauses of this crate refuse.
ghost use Rattle.cc_place.specs.Refused.{RefusedClaims};

/// Of each kind of mistake an example that no clause admits.
#[tactic(auto, using(crate::proofs::RefusedClaims::claims_refused))]
pub fn clauses_refuse()
    ensures { RefusedClaims }
{}
