//! Laws of clocks. The functions do nothing.

ghost use Rattle.clocks.specs.Laws.{JoinKnowsBoth};

/// A joined clock knows exactly what one of the two knows.
#[tactic(auto, using(crate::proofs::Clocks::knows_joined))]
pub fn a_join_knows_what_one_of_both_knows()
    ensures { JoinKnowsBoth }
{}
