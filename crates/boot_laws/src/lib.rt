//! What holds of every boot, on any bytes, and of the boot after power cuts. Each law is what the function of its name ensures: the function
//! takes nothing, does nothing and gives nothing.
#![tactic(auto)]

ghost use Rattle.boot_laws.specs.Laws.{NeverLaw, ImageLaw, AcceptanceLaw, RefusalLaw, StateLaw, WithoutRollback};
ghost use Rattle.boot_laws.specs.PowerCut.{Demand3};
ghost use Rattle.boot_laws.specs.Witnesses.{Witnesses};

/// Boot never starts through an invalid or aborted record, nor, with anti-rollback on, an app below the eFuse version.
#[tactic(auto, using(crate::proofs::Laws::never_law))]
pub fn never_law()
    ensures { NeverLaw }
{}

/// The facts of a start are those of the app's image, which fits the board and ends within the app's part of the flash.
#[tactic(auto, using(crate::proofs::Laws::image_law))]
pub fn image_law()
    ensures { ImageLaw }
{}

/// Where boot accepts list, otadata and settings it refuses with 10 only; where it does not, with 1, 2 or 3.
#[tactic(auto, using(crate::proofs::Laws::acceptance_law))]
pub fn acceptance_law()
    ensures { AcceptanceLaw }
{}

/// A refusal gives the register back as given; 10 keeps the aborted marks, and any other refusal changes no byte.
#[tactic(auto, using(crate::proofs::Laws::refusal_law))]
pub fn refusal_law()
    ensures { RefusalLaw }
{}

/// At most states change: pending to aborted, or new to pending. With rollback off nothing changes.
#[tactic(auto, using(crate::proofs::Laws::state_law))]
pub fn state_law()
    ensures { StateLaw }
{}

/// With rollback off, new and pending are treated as undefined.
#[tactic(auto, using(crate::proofs::WithoutRollback::without_rollback))]
pub fn without_rollback()
    ensures { WithoutRollback }
{}

/// Through every list of cut rewrites of one sector, what that sector reads as, and which app the next boot starts.
#[tactic(auto, using(crate::proofs::PowerCut::demand_3))]
pub fn demand_3()
    ensures { Demand3 }
{}

/// All that the claim about cut rewrites assumes can hold at once, in either sector and with either outcome.
#[tactic(auto, using(crate::proofs::TwoOutcomes::witnesses))]
pub fn witnesses()
    ensures { Witnesses }
{}
