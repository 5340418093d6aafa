//! The state query and the next update slot. They write nothing.
ghost use Rattle.std.specs.Prelude.{◌≡◌};
ghost use Rattle.update.specs.Queries.{state_naming, state_query, slot_after, next_slot};

use crate::{test_pending, test_slot};
use node::{Node, Refusal, Settings, test_size};
use otadata::{Reading, Slot, State};
use partitions::{App, PartitionList};
use sectors::{SECTOR_SIZE, SectorNumber, readings};
use slot_records::naming_record;

/// The state of the record that names the slot.
#[tactic(auto, unfolding(crate::specs::Queries::state_query))]
pub fn state_query(
    words: &[u32],
    flash: &[u8],
    otadata: &[u8],
    slot: Slot,
) -> Result<State, Refusal>
    ensures { result ≡ state_query words.now flash.now otadata.now slot }
{
    let list = PartitionList::new(words, flash)?;
    test_size(otadata.len())?;
    test_slot(list.slots(), slot)?;
    let (first, second) = otadata.split_at(SECTOR_SIZE);
    state_naming(readings(first, second), list.slots(), slot).ok_or(Refusal::NotNamed)
}

/// The state of the record that names the slot, with `n` slots.
#[tactic(auto, unfolding(crate::specs::Queries::state_naming))]
fn state_naming(readings: [Reading; 2], n: u32, slot: Slot) -> Option<State>
    ensures { result ≡ state_naming n slot readings }
{
    let [first, second] = readings;
    let reading = match naming_record(readings, n, slot)? {
        SectorNumber::Zero => first,
        SectorNumber::One => second,
    };
    Some(reading.ok()?.state)
}

/// The slot that the next update goes into.
#[tactic(auto, unfolding(crate::specs::Queries::next_slot))]
pub fn next_slot(
    words: &[u32],
    flash: &[u8],
    otadata: &[u8],
    settings: Settings,
    running: App,
) -> Result<Slot, Refusal>
    ensures { result ≡ next_slot words.now flash.now otadata.now settings running }
{
    let node = Node::new(words, flash, otadata.len(), settings)?;
    let next = slot_after(node.list.slots(), running)?;
    let (first, second) = otadata.split_at(SECTOR_SIZE);
    test_pending(node.settings, readings(first, second))?;
    Ok(next)
}

/// The slot after the running app's, of `n` slots; from factory, slot 0.
#[tactic(auto, unfolding(crate::specs::Queries::slot_after))]
fn slot_after(n: u32, running: App) -> Result<Slot, Refusal>
    ensures { result ≡ slot_after n running }
{
    match running {
        App::Factory => Ok(Slot(0)),
        App::OtaSlot(slot) => {
            test_slot(n, slot)?;
            Ok(Slot((slot.0 + 1) % n))
        }
    }
}
