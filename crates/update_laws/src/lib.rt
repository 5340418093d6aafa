//! What holds of every set-boot and every mark, on any bytes: each law is the contract of the function of its name.
#![tactic(auto)]

ghost use Rattle.update_laws.specs.Laws.{RefusalLaw, RegisterLaw, ImageLaw, SetBootLaw, NextBootLaw, FallbackLaw, LastAppLaw, FallsBackLaw};

/// A refusal changes no byte of otadata, and leaves the register as it was given.
#[tactic(auto, using(crate::proofs::Refusals::refusal_law))]
pub fn refusal_law()
    ensures { RefusalLaw }
{}

/// Set-boot and mark-invalid leave the register as it was given.
#[tactic(auto, using(crate::proofs::Refusals::register_law))]
pub fn register_law()
    ensures { RegisterLaw }
{}

/// Set-boot and mark-valid give the length and the entry address of the slot's image.
#[tactic(auto, using(crate::proofs::Laws::image_law))]
pub fn image_law()
    ensures { ImageLaw }
{}

/// After a set-boot an active record names the slot.
#[tactic(auto, using(crate::proofs::Laws::set_boot_law))]
pub fn set_boot_law()
    ensures { SetBootLaw }
{}

/// After a set-boot the next boot starts the slot through that record.
#[tactic(auto, using(crate::proofs::Laws::next_boot_law))]
pub fn next_boot_law()
    ensures { NextBootLaw }
{}

/// After a mark-invalid the next boot starts an app.
#[tactic(auto, using(crate::proofs::Laws::fallback_law))]
pub fn fallback_law()
    ensures { FallbackLaw }
{}

/// A mark-invalid is refused with 9 exactly if boot, on the bytes that it would leave, finds nothing to start.
#[tactic(auto, using(crate::proofs::Laws::last_app_law))]
pub fn last_app_law()
    ensures { LastAppLaw }
{}

/// With the record of a sector invalid, boot finds nothing to start exactly if the readings without it leave nothing to fall back to.
#[tactic(auto, using(crate::proofs::Laws::falls_back_law))]
pub fn falls_back_law()
    ensures { FallsBackLaw }
{}
