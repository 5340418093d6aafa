//! The laws of the definitions that no other contract here names.
ghost use Rattle.sectors.specs.Examples.{BlankLaw, RefusedCalls};

/// A sector whose record is erased is blank, and reads as none.
#[tactic(auto, using(crate::proofs::Examples::blank_law))]
pub fn blank_reads_as_none()
    ensures { BlankLaw }
{}

/// Stores and rewrites that are refused.
#[tactic(auto, using(crate::proofs::Examples::refused_calls))]
pub fn refused_calls()
    ensures { RefusedCalls }
{}
