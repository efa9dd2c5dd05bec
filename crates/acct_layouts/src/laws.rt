//! The law of refusals, which callers cite by this function.
ghost use Rattle.acct_layouts.specs.Laws.{RefusalsHaveShape};

/// The outputs of a refusal have the shape of the operation, where the call can be encoded.
#[tactic(auto, using(crate::proofs::Refusing::refusals_have_shape))]
pub fn refusals_have_shape()
    ensures { RefusalsHaveShape }
{}
