//! The calls on a node: boot, set-boot, the marks, the state query and the next update slot.
ghost use Rattle.std.specs.Prelude.{◌≡◌, ◌≤◌};
ghost use Rattle.otadata.specs.Number.{reply_number};
ghost use Rattle.partitions.specs.declared.TheConstants.{MAX_FLASH};
ghost use Rattle.node.specs.Refusal.{number_of as refusal_number};
ghost use Rattle.boot.specs.Answer.{answer_of as boot_answer, sector_value, start_values};
ghost use Rattle.boot.specs.Boot.{boot_reply, boot_bytes};
ghost use Rattle.update.specs.Answer.{answer_of as update_answer, image_of, query_answer, next_answer};
ghost use Rattle.update.specs.SetBoot.{set_boot_reply, set_boot_bytes};
ghost use Rattle.update.specs.Marks.{mark_valid_reply, mark_valid_bytes};
ghost use Rattle.update.specs.Invalid.{mark_invalid_reply, mark_invalid_bytes};
ghost use Rattle.update.specs.Queries.{state_query, next_slot};
ghost use Rattle.c_api.specs.Interface.{answer, to_c, settings_of, slot_of, running_app, without_register};

use app_image::{Board, Revision};
use boot::{Start, boot};
use efuse::ChipId;
use node::{Refusal, Settings};
use otadata::{Numbered, Slot, number_of};
use partitions::App;
use sectors::SectorNumber;
use update::{mark_invalid, mark_valid, next_slot, set_boot, state_query};

/// The running app's number that stands for factory.
const FACTORY: u32 = 0xFFFF_FFFF;

/// Boot: 0 with the app to start, the sector used, the register, and the length and the entry address of the app's image, or a
/// refusal with the register as given.
#[tactic(auto, using(crate::proofs::Starts::length_fits))]
pub fn ota_boot(
    list: &[u32],
    flash: &[u8],
    otadata: &mut [u8],
    chip: u16,
    revision: u16,
    efuse: u32,
    rollback: u8,
    anti: u8,
    out: &mut [u32; 6],
) -> u32
    ensures answer { answer result out.new ≡ boot_answer (settings_of chip revision efuse rollback anti) (boot_reply list.now flash.now otadata.old (settings_of chip revision efuse rollback anti)) }
    ensures bytes { otadata.new ≡ boot_bytes list.now flash.now otadata.old (settings_of chip revision efuse rollback anti) }
{
    let settings = settings_of(chip, revision, efuse, rollback, anti);
    let reply = boot(list, flash, otadata, settings);
    *out = match reply {
        Ok(start) => started(start),
        Err(refused) => [0, 0, 2, refused.register, 0, 0],
    };
    number_of(reply)
}

/// Set-boot: 0 with the length and the entry address of the slot's image, or a refusal, with the image's own number and place where
/// that is 5.
pub fn ota_set_boot(
    list: &[u32],
    flash: &[u8],
    otadata: &mut [u8],
    chip: u16,
    revision: u16,
    efuse: u32,
    rollback: u8,
    anti: u8,
    slot: u32,
    out: &mut [u64; 4],
) -> u32
    ensures answer { answer result out.new ≡ without_register (update_answer (settings_of chip revision efuse rollback anti) (set_boot_reply list.now flash.now otadata.old (settings_of chip revision efuse rollback anti) (slot_of slot))) }
    ensures bytes { otadata.new ≡ set_boot_bytes list.now flash.now otadata.old (settings_of chip revision efuse rollback anti) (slot_of slot) }
{
    let settings = settings_of(chip, revision, efuse, rollback, anti);
    let reply = set_boot(list, flash, otadata, settings, Slot(slot));
    *out = match reply {
        Ok(done) => [0, 0, done.facts.length as u64, u64::from(done.facts.entry)],
        Err(refused) => {
            let (number, place) = image_of(refused.refusal);
            [number, place, 0, 0]
        }
    };
    number_of(reply)
}

/// Mark-valid of the running slot: 0 with the register to burn, and the length and the entry address of its image, or a refusal with
/// the register as given, and the image's own number and place where the refusal is 5.
pub fn ota_mark_valid(
    list: &[u32],
    flash: &[u8],
    otadata: &mut [u8],
    chip: u16,
    revision: u16,
    efuse: u32,
    rollback: u8,
    anti: u8,
    slot: u32,
    out: &mut [u64; 5],
) -> u32
    ensures answer { answer result out.new ≡ update_answer (settings_of chip revision efuse rollback anti) (mark_valid_reply list.now flash.now otadata.old (settings_of chip revision efuse rollback anti) (slot_of slot)) }
    ensures bytes { otadata.new ≡ mark_valid_bytes list.now flash.now otadata.old (settings_of chip revision efuse rollback anti) (slot_of slot) }
{
    let settings = settings_of(chip, revision, efuse, rollback, anti);
    let reply = mark_valid(list, flash, otadata, settings, Slot(slot));
    *out = match reply {
        Ok(done) => {
            let register = u64::from(done.register);
            [
                register,
                0,
                0,
                done.facts.length as u64,
                u64::from(done.facts.entry),
            ]
        }
        Err(refused) => {
            let (number, place) = image_of(refused.refusal);
            [u64::from(refused.register), number, place, 0, 0]
        }
    };
    number_of(reply)
}

/// Mark-invalid of the running slot: 0 or a refusal.
pub fn ota_mark_invalid(
    list: &[u32],
    flash: &[u8],
    otadata: &mut [u8],
    chip: u16,
    revision: u16,
    efuse: u32,
    rollback: u8,
    anti: u8,
    slot: u32,
) -> u32
    ensures number { result ≡ reply_number refusal_number (mark_invalid_reply list.now flash.now otadata.old (settings_of chip revision efuse rollback anti) (slot_of slot)) }
    ensures bytes { otadata.new ≡ mark_invalid_bytes list.now flash.now otadata.old (settings_of chip revision efuse rollback anti) (slot_of slot) }
{
    let settings = settings_of(chip, revision, efuse, rollback, anti);
    number_of(mark_invalid(list, flash, otadata, settings, Slot(slot)))
}

/// The state query: 0 with the state word, or a refusal.
pub fn ota_state_query(
    list: &[u32],
    flash: &[u8],
    otadata: &[u8],
    slot: u32,
    out: &mut [u32; 1],
) -> u32
    ensures { answer result out.new ≡ to_c 1 (query_answer (state_query list.now flash.now otadata.now (slot_of slot))) }
{
    let state = state_query(list, flash, otadata, Slot(slot));
    *out = [state.map_or(0, |state| state.word())];
    number_of(state)
}

/// The next update slot: 0 with the slot, or a refusal.
pub fn ota_next_slot(
    list: &[u32],
    flash: &[u8],
    otadata: &[u8],
    chip: u16,
    revision: u16,
    efuse: u32,
    rollback: u8,
    anti: u8,
    running: u32,
    out: &mut [u32; 1],
) -> u32
    ensures { answer result out.new ≡ to_c 1 (next_answer (next_slot list.now flash.now otadata.now (settings_of chip revision efuse rollback anti) (running_app running))) }
{
    let settings = settings_of(chip, revision, efuse, rollback, anti);
    let next = next_slot(list, flash, otadata, settings, running_app(running));
    *out = [next.map_or(0, |slot| slot.0)];
    number_of(next)
}

/// The settings of a node: a flag is on where it is not 0.
fn settings_of(chip: u16, revision: u16, efuse: u32, rollback: u8, anti: u8) -> Settings
    ensures { result ≡ settings_of chip revision efuse rollback anti }
{
    Settings {
        board: Board {
            chip: ChipId(chip),
            revision: Revision(revision),
        },
        efuse,
        rollback: rollback != 0,
        anti_rollback: anti != 0,
    }
}

/// A start in six words: 1 for factory or 2 for a slot, the slot, the sector, the register, the length and the entry address.
fn started(start: Start) -> [u32; 6]
    requires { start.facts.length ≤ MAX_FLASH }
    ensures { result ≡ start_values start }
{
    let (kind, slot) = match start.app {
        App::Factory => (1, 0),
        App::OtaSlot(slot) => (2, slot.0),
    };
    let sector = sector_value(start.through);
    [
        kind,
        slot,
        sector,
        start.register,
        start.facts.length as u32,
        start.facts.entry,
    ]
}

/// The number of a sector, 2 for none.
fn sector_value(through: Option<SectorNumber>) -> u32
    ensures { result ≡ sector_value through }
{
    through.map_or(2, |sector| sector.number() as u32)
}

/// The number and the place of the image's own refusal, zero of any other.
fn image_of(refusal: Refusal) -> (u64, u64)
    ensures { result ≡ image_of refusal }
{
    match refusal {
        Refusal::BadImage(image) => (u64::from(image.number()), image.place() as u64),
        _ => (0, 0),
    }
}

/// The running app.
fn running_app(running: u32) -> App
    ensures { result ≡ running_app running }
{
    if running == FACTORY {
        App::Factory
    } else {
        App::OtaSlot(Slot(running))
    }
}
