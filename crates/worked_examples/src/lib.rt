//! The worked examples: their table is in specs/Table.antt, and what they assume can hold.
#![tactic(auto)]

ghost use Rattle.worked_examples.specs.Table.{WorkedExamples};
ghost use Rattle.worked_examples.specs.Witness.{Witness};

/// Every example of the table holds.
#[tactic(auto, using(crate::proofs::Worked::worked_examples))]
pub fn worked_examples()
    ensures { WorkedExamples }
{}

/// What the examples of calls assume can hold.
#[tactic(auto, using(crate::proofs::Witnesses::witness))]
pub fn witness()
    ensures { Witness }
{}
