//! Set-boot: the record that names a slot goes into the sector that is not active.
ghost use Rattle.std.specs.Prelude.{◌≡◌};
ghost use Rattle.sectors.specs.Sector.{readings};
ghost use Rattle.sectors.specs.declared.reading.SectorNumber.TheVariants.{Zero, One};
ghost use Rattle.node.specs.Refused.{keeping_register};
ghost use Rattle.update.specs.SetBoot.{overwritten, new_placement, decision, reply_to, left_at, set_boot_reply, set_boot_bytes};

use crate::{Completion, test_pending, test_slot};
use app_image::Facts;
use node::{Node, Refusal, Refused, Settings};
use otadata::{Reading, Record, Sequence, Slot, State};
use partitions::App;
use sectors::{SECTOR_SIZE, SectorNumber, readings, rewrite};
use slot_records::{Placement, active_naming, place_new};

/// Has the next boot try the slot first. Gives the register as it was given, refused or done, and the facts of the slot's image.
pub fn set_boot(
    words: &[u32],
    flash: &[u8],
    otadata: &mut [u8],
    settings: Settings,
    slot: Slot,
) -> Result<Completion, Refused>
    ensures reply { result ≡ keeping_register settings (set_boot_reply words.now flash.now otadata.old settings slot) }
    ensures bytes { otadata.new ≡ set_boot_bytes words.now flash.now otadata.old settings slot }
{
    settings.keeping_register(set(words, flash, otadata, settings, slot))
}

/// Sets the slot: what set-boot comes to, or why it is refused.
#[tactic(auto, unfolding(crate::specs::SetBoot::set_boot_reply, crate::specs::SetBoot::set_boot_bytes, crate::specs::Tests::node_with))]
fn set(
    words: &[u32],
    flash: &[u8],
    otadata: &mut [u8],
    settings: Settings,
    slot: Slot,
) -> Result<Completion, Refusal>
    ensures reply { result ≡ set_boot_reply words.now flash.now otadata.old settings slot }
    ensures bytes { otadata.new ≡ set_boot_bytes words.now flash.now otadata.old settings slot }
{
    let node = Node::new(words, flash, otadata.len(), settings)?;
    test_slot(node.list.slots(), slot)?;
    let (first, second) = otadata.split_at_mut(SECTOR_SIZE);
    point_to(&node, first, second, slot)
}

/// Points to the slot, if the tests of the image, of the active record and of the new sequence let it.
fn point_to(
    node: &Node<'_>,
    first: &mut [u8],
    second: &mut [u8],
    slot: Slot,
) -> Result<Completion, Refusal>
    ensures reply { result ≡ reply_to node.now.settings (decision node.now (readings first.old second.old) slot) }
    ensures first { first.new ≡ left_at node.now.settings Zero (decision node.now (readings first.old second.old) slot) first.old }
    ensures second { second.new ≡ left_at node.now.settings One (decision node.now (readings first.old second.old) slot) second.old }
{
    let (facts, write) = decision(node, readings(first, second), slot)?;
    if let Some(placed) = write {
        match placed.sector {
            SectorNumber::Zero => overwrite(first, node.settings, placed.sequence),
            SectorNumber::One => overwrite(second, node.settings, placed.sequence),
        }
    }
    Ok(Completion {
        register: node.settings.efuse,
        facts,
    })
}

/// The facts of the slot's image, and where the new record goes, if one is to be written.
#[tactic(auto, unfolding(crate::specs::SetBoot::decision))]
fn decision(
    node: &Node<'_>,
    readings: [Reading; 2],
    slot: Slot,
) -> Result<(Facts, Option<Placement>), Refusal>
    ensures { result ≡ decision node.now readings slot }
{
    let facts = node.admit(App::OtaSlot(slot))?;
    test_pending(node.settings, readings)?;
    let write = new_placement(readings, node.list.slots(), slot)?;
    Ok((facts, write))
}

/// Where the new record goes; nowhere where the active record names the slot already.
#[tactic(auto, unfolding(crate::specs::SetBoot::new_placement))]
fn new_placement(readings: [Reading; 2], n: u32, slot: Slot) -> Result<Option<Placement>, Refusal>
    ensures { result ≡ new_placement n slot readings }
{
    if active_naming(readings, n, slot).is_some() {
        return Ok(None);
    }
    let placed = place_new(readings, n, slot).ok_or(Refusal::SequenceSpent)?;
    Ok(Some(placed))
}

/// Rewrites the sector with a new record of the sequence: label 20 bytes 0xFF, state new with rollback on, else undefined.
#[tactic(auto, unfolding(crate::specs::SetBoot::overwritten))]
fn overwrite(sector: &mut [u8], settings: Settings, sequence: Sequence)
    ensures { sector.new ≡ overwritten settings sequence sector.old }
{
    let record = Record {
        sequence,
        label: [0xFF; 20],
        state: if settings.rollback {
            State::New
        } else {
            State::Undefined
        },
    };
    let _ = rewrite(sector, &record.to_bytes());
}
