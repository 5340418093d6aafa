//! The calls besides boot: set-boot, mark-valid, mark-invalid, the state query and the next update slot.
#![tactic(auto)]

mod boot_target;
mod laws;
mod marks;
mod queries;

ghost use Rattle.std.specs.Prelude.{◌≡◌, ◌<◌, OnOk};
ghost use Rattle.update.specs.Tests.{slot_test, pending_test};

use app_image::Facts;
pub use boot_target::set_boot;
pub use laws::answers_are_in_numbers;
pub use marks::{mark_invalid, mark_valid};
use node::{Refusal, Settings};
use otadata::{Reading, Slot};
pub use queries::{next_slot, state_query};
use slot_records::active_pending;

/// A set-boot or a mark-valid that is done: the register to burn after it, and the facts of the image that it checked.
#[derive(Clone, Copy, Debug, PartialEq, Eq)]
pub struct Completion {
    pub register: u32,
    pub facts: Facts,
}

/// Refuses a slot that is not below `n`.
#[tactic(auto, unfolding(crate::specs::Tests::slot_test))]
pub(crate) fn test_slot(n: u32, slot: Slot) -> Result<(), Refusal>
    ensures exact { result ≡ slot_test n slot }
    ensures below { OnOk result (slot.0 < n) }
{
    if slot.0 >= n {
        return Err(Refusal::NoSuchSlot);
    }
    Ok(())
}

/// Refuses an active record that is pending, with rollback on.
#[tactic(auto, unfolding(crate::specs::Tests::pending_test))]
pub(crate) fn test_pending(settings: Settings, readings: [Reading; 2]) -> Result<(), Refusal>
    ensures { result ≡ pending_test settings readings }
{
    if settings.rollback && active_pending(readings) {
        return Err(Refusal::ActivePending);
    }
    Ok(())
}
