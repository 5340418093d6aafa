//! Mark-valid and mark-invalid, of the running app.
ghost use Rattle.std.specs.Prelude.{◌≡◌};
ghost use Rattle.sectors.specs.Rewrite.{in_other_state};
ghost use Rattle.sectors.specs.Sector.{readings};
ghost use Rattle.sectors.specs.declared.reading.SectorNumber.TheVariants.{Zero, One};
ghost use Rattle.node.specs.Refused.{keeping_register};
ghost use Rattle.update.specs.Tests.{running_sector};
ghost use Rattle.update.specs.Marks.{confirmed, register_raised, confirmation, reply_to, left_at, mark_valid_reply, mark_valid_bytes};
ghost use Rattle.update.specs.Invalid.{settled_reading, readings_without, invalidation, reply_to as invalid_reply, left_at as invalid_at, mark_invalid_reply, mark_invalid_bytes, giving_register};

use crate::{Completion, test_slot};
use app_image::Facts;
use boot_choice::Choice;
use efuse::SecureVersion;
use node::{Node, Refusal, Refused, Settings};
use otadata::{Reading, Record, Slot, State, in_state};
use partitions::App;
use sectors::{SECTOR_SIZE, SectorNumber, read_sector, readings, restate};
use slot_records::active_naming;

/// Confirms the running app: the active record becomes valid. Gives the register to burn after this call, and the facts of the app's
/// image. A refusal returns the register as it was given.
pub fn mark_valid(
    words: &[u32],
    flash: &[u8],
    otadata: &mut [u8],
    settings: Settings,
    running: Slot,
) -> Result<Completion, Refused>
    ensures reply { result ≡ keeping_register settings (mark_valid_reply words.now flash.now otadata.old settings running) }
    ensures bytes { otadata.new ≡ mark_valid_bytes words.now flash.now otadata.old settings running }
{
    settings.keeping_register(set_valid(words, flash, otadata, settings, running))
}

/// Sets the running slot valid: what mark-valid comes to, or why it is refused.
#[tactic(auto, unfolding(crate::specs::Marks::mark_valid_reply, crate::specs::Marks::mark_valid_bytes, crate::specs::Tests::node_with))]
fn set_valid(
    words: &[u32],
    flash: &[u8],
    otadata: &mut [u8],
    settings: Settings,
    running: Slot,
) -> Result<Completion, Refusal>
    ensures reply { result ≡ mark_valid_reply words.now flash.now otadata.old settings running }
    ensures bytes { otadata.new ≡ mark_valid_bytes words.now flash.now otadata.old settings running }
{
    let node = Node::new(words, flash, otadata.len(), settings)?;
    test_slot(node.list.slots(), running)?;
    let (first, second) = otadata.split_at_mut(SECTOR_SIZE);
    confirm(&node, first, second, running)
}

/// Confirms the running slot, if the tests of the active record and of the image let it.
fn confirm(
    node: &Node<'_>,
    first: &mut [u8],
    second: &mut [u8],
    running: Slot,
) -> Result<Completion, Refusal>
    ensures reply { result ≡ reply_to node.now.settings (confirmation node.now (readings first.old second.old) running) }
    ensures first { first.new ≡ left_at Zero (confirmation node.now (readings first.old second.old) running) first.old }
    ensures second { second.new ≡ left_at One (confirmation node.now (readings first.old second.old) running) second.old }
{
    let (sector, facts) = confirmation(node, readings(first, second), running)?;
    match sector {
        SectorNumber::Zero => make_valid(first),
        SectorNumber::One => make_valid(second),
    }
    Ok(Completion {
        register: register_raised(node.settings, facts.version),
        facts,
    })
}

/// The sector of the active record, which names the running slot, and the facts of that slot's image.
#[tactic(auto, unfolding(crate::specs::Marks::confirmation))]
fn confirmation(
    node: &Node<'_>,
    readings: [Reading; 2],
    running: Slot,
) -> Result<(SectorNumber, Facts), Refusal>
    ensures { result ≡ confirmation node.now readings running }
{
    let sector = running_sector(node, readings, running)?;
    let facts = node.admit(App::OtaSlot(running))?;
    Ok((sector, facts))
}

/// The sector of the active record, if that names the running slot.
fn running_sector(
    node: &Node<'_>,
    readings: [Reading; 2],
    running: Slot,
) -> Result<SectorNumber, Refusal>
    ensures { result ≡ running_sector node.now readings running }
{
    active_naming(readings, node.list.slots(), running).ok_or(Refusal::NotNamed)
}

/// The record of the sector becomes valid. Nothing is written if it was.
#[tactic(auto, unfolding(crate::specs::Marks::confirmed))]
fn make_valid(sector: &mut [u8])
    ensures { sector.new ≡ confirmed sector.old }
{
    if !in_state(read_sector(sector), State::Valid) {
        let _ = restate(sector, State::Valid);
    }
}

/// With anti-rollback on, the register raised to the app's version.
fn register_raised(settings: Settings, version: SecureVersion) -> u32
    ensures { result ≡ register_raised settings version }
{
    if settings.anti_rollback {
        settings.raised_to(version)
    } else {
        settings.efuse
    }
}

/// Gives up the running app: the active record becomes invalid, if boot then has another app to start. Gives the register as it was
/// given, refused or done.
pub fn mark_invalid(
    words: &[u32],
    flash: &[u8],
    otadata: &mut [u8],
    settings: Settings,
    running: Slot,
) -> Result<u32, Refused>
    ensures reply { result ≡ giving_register settings (mark_invalid_reply words.now flash.now otadata.old settings running) }
    ensures bytes { otadata.new ≡ mark_invalid_bytes words.now flash.now otadata.old settings running }
{
    settings.keeping_register(set_invalid(words, flash, otadata, settings, running))?;
    Ok(settings.efuse)
}

/// Sets the running slot invalid, or gives why that is refused.
#[tactic(auto, unfolding(crate::specs::Invalid::mark_invalid_reply, crate::specs::Invalid::mark_invalid_bytes, crate::specs::Tests::node_with))]
fn set_invalid(
    words: &[u32],
    flash: &[u8],
    otadata: &mut [u8],
    settings: Settings,
    running: Slot,
) -> Result<(), Refusal>
    ensures reply { result ≡ mark_invalid_reply words.now flash.now otadata.old settings running }
    ensures bytes { otadata.new ≡ mark_invalid_bytes words.now flash.now otadata.old settings running }
{
    let node = Node::new(words, flash, otadata.len(), settings)?;
    test_slot(node.list.slots(), running)?;
    let (first, second) = otadata.split_at_mut(SECTOR_SIZE);
    give_up(&node, first, second, running)
}

/// Gives up the running slot, if the tests of the active record and of a fallback let it.
fn give_up(
    node: &Node<'_>,
    first: &mut [u8],
    second: &mut [u8],
    running: Slot,
) -> Result<(), Refusal>
    ensures reply { result ≡ invalid_reply (invalidation node.now (readings first.old second.old) running) }
    ensures first { first.new ≡ invalid_at Zero (invalidation node.now (readings first.old second.old) running) first.old }
    ensures second { second.new ≡ invalid_at One (invalidation node.now (readings first.old second.old) running) second.old }
{
    let _ = match invalidation(node, readings(first, second), running)? {
        SectorNumber::Zero => restate(first, State::Invalid),
        SectorNumber::One => restate(second, State::Invalid),
    };
    Ok(())
}

/// The sector of the active record, which names the running slot, if boot has an app to start without it.
#[tactic(auto, unfolding(crate::specs::Invalid::invalidation))]
fn invalidation(
    node: &Node<'_>,
    readings: [Reading; 2],
    running: Slot,
) -> Result<SectorNumber, Refusal>
    ensures { result ≡ invalidation node.now readings running }
{
    let sector = running_sector(node, readings, running)?;
    if Choice::of(node, readings_without(node.settings, readings, sector)).is_none() {
        return Err(Refusal::NoFallback);
    }
    Ok(sector)
}

/// What boot's first step makes of the readings, once the record of the sector is invalid.
#[tactic(auto, unfolding(crate::specs::Invalid::readings_without))]
fn readings_without(
    settings: Settings,
    readings: [Reading; 2],
    sector: SectorNumber,
) -> [Reading; 2]
    ensures { result ≡ readings_without settings sector readings }
{
    let [first, second] = readings;
    let left = match sector {
        SectorNumber::Zero => [in_other_state(first, State::Invalid), second],
        SectorNumber::One => [first, in_other_state(second, State::Invalid)],
    };
    left.map(|reading| settled(settings, reading))
}

/// With rollback on, a pending record becomes aborted.
#[tactic(auto, unfolding(crate::specs::Invalid::settled_reading))]
fn settled(settings: Settings, reading: Reading) -> Reading
    ensures { result ≡ settled_reading settings reading }
{
    if settings.rollback && in_state(reading, State::Pending) {
        in_other_state(reading, State::Aborted)
    } else {
        reading
    }
}

/// A good record in another state.
fn in_other_state(reading: Reading, state: State) -> Reading
    ensures { result ≡ in_other_state state reading }
{
    reading.map(|record| Record { state, ..record })
}
