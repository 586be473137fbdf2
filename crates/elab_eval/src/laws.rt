// The law of elaboration. The function does nothing: its clause is the law.
ghost use Rattle.elab_eval.specs.Elaborates.{OneOutcome};

/// A program has one outcome within a budget, at one cost.
#[tactic(auto, using(crate::proofs::Unique::one_outcome))]
pub fn outcome_is_one()
    ensures { OneOutcome }
{}
