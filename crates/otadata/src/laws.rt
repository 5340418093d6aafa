//! The laws of the definitions that the contracts of the other functions name.
ghost use Rattle.otadata.specs.CheckWord.{OneToOne};
ghost use Rattle.otadata.specs.Verdicts.{VerdictLaw, GoodLaw, ViewLaw};
ghost use Rattle.otadata.specs.RoundTrip.{MadeThenRead, ReadThenMade};
ghost use Rattle.otadata.specs.Examples.{Examples};

/// No two sequences have the same check word.
#[tactic(auto, using(crate::proofs::OneToOne::one_to_one))]
pub fn one_to_one()
    ensures { OneToOne }
{}

/// Of any bytes exactly one answer holds, the reader's.
#[tactic(auto, using(crate::proofs::OneVerdict::verdict_law))]
pub fn verdict_law()
    ensures { VerdictLaw }
{}

/// A record is good exactly where the reader gives one.
#[tactic(auto, using(crate::proofs::OneVerdict::good_law))]
pub fn good_law()
    ensures { GoodLaw }
{}

/// The reader's answer has the number and the values of the first test that fails, or of a good record.
#[tactic(auto, using(crate::proofs::OneVerdict::view_law))]
pub fn view_law()
    ensures { ViewLaw }
{}

/// A record made is read back as the same record.
#[tactic(auto, using(crate::proofs::RoundTrip::made_then_read))]
pub fn made_then_read()
    ensures { MadeThenRead }
{}

/// A good record, read and made again, is the same 32 bytes.
#[tactic(auto, using(crate::proofs::RoundTrip::read_then_made))]
pub fn read_then_made()
    ensures { ReadThenMade }
{}

/// Worked examples.
#[tactic(auto, using(crate::proofs::Examples::examples))]
pub fn examples()
    ensures { Examples }
{}
