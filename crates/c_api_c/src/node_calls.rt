//! The calls on a node: boot, set-boot, the marks, the state query and the next update slot.
ghost use Rattle.std.specs.Prelude.{◌≡◌};
ghost use Rattle.otadata.specs.Number.{reply_number};
ghost use Rattle.node.specs.Refusal.{number_of as refusal_number};
ghost use Rattle.boot.specs.Answer.{answer_of as boot_answer};
ghost use Rattle.boot.specs.Boot.{boot_reply, boot_bytes};
ghost use Rattle.update.specs.Answer.{answer_of as update_answer, query_answer, next_answer};
ghost use Rattle.update.specs.SetBoot.{set_boot_reply, set_boot_bytes};
ghost use Rattle.update.specs.Marks.{mark_valid_reply, mark_valid_bytes};
ghost use Rattle.update.specs.Invalid.{mark_invalid_reply, mark_invalid_bytes};
ghost use Rattle.update.specs.Queries.{state_query, next_slot};
ghost use Rattle.c_api.specs.Interface.{answer, to_c, settings_of, slot_of, running_app, without_register};

/// Boot: 0 with the app to start, the sector used, the register, and the length and the entry address of the app's image, or a
/// refusal with the register as given.
#[unsafe(no_mangle)]
pub extern "C" fn ota_boot(
    list: &[u32],
    flash: &[u8],
    otadata: &mut [u8],
    chip: u16,
    revision: u16,
    efuse: u32,
    rollback: u8,
    anti: u8,
    out: &mut [u32; 6],
) -> u32
    ensures answer { answer result out.new ≡ boot_answer (settings_of chip revision efuse rollback anti) (boot_reply list.now flash.now otadata.old (settings_of chip revision efuse rollback anti)) }
    ensures bytes { otadata.new ≡ boot_bytes list.now flash.now otadata.old (settings_of chip revision efuse rollback anti) }
{
    c_api::ota_boot(
        list, flash, otadata, chip, revision, efuse, rollback, anti, out,
    )
}

/// Set-boot: 0 with the length and the entry address of the slot's image, or a refusal, with the image's own number and place where
/// that is 5.
#[unsafe(no_mangle)]
pub extern "C" fn ota_set_boot(
    list: &[u32],
    flash: &[u8],
    otadata: &mut [u8],
    chip: u16,
    revision: u16,
    efuse: u32,
    rollback: u8,
    anti: u8,
    slot: u32,
    out: &mut [u64; 4],
) -> u32
    ensures answer { answer result out.new ≡ without_register (update_answer (settings_of chip revision efuse rollback anti) (set_boot_reply list.now flash.now otadata.old (settings_of chip revision efuse rollback anti) (slot_of slot))) }
    ensures bytes { otadata.new ≡ set_boot_bytes list.now flash.now otadata.old (settings_of chip revision efuse rollback anti) (slot_of slot) }
{
    c_api::ota_set_boot(
        list, flash, otadata, chip, revision, efuse, rollback, anti, slot, out,
    )
}

/// Mark-valid of the running slot: 0 with the register to burn, and the length and the entry address of its image, or a refusal with
/// the register as given, and the image's own number and place where the refusal is 5.
#[unsafe(no_mangle)]
pub extern "C" fn ota_mark_valid(
    list: &[u32],
    flash: &[u8],
    otadata: &mut [u8],
    chip: u16,
    revision: u16,
    efuse: u32,
    rollback: u8,
    anti: u8,
    slot: u32,
    out: &mut [u64; 5],
) -> u32
    ensures answer { answer result out.new ≡ update_answer (settings_of chip revision efuse rollback anti) (mark_valid_reply list.now flash.now otadata.old (settings_of chip revision efuse rollback anti) (slot_of slot)) }
    ensures bytes { otadata.new ≡ mark_valid_bytes list.now flash.now otadata.old (settings_of chip revision efuse rollback anti) (slot_of slot) }
{
    c_api::ota_mark_valid(
        list, flash, otadata, chip, revision, efuse, rollback, anti, slot, out,
    )
}

/// Mark-invalid of the running slot: 0 or a refusal.
#[unsafe(no_mangle)]
pub extern "C" fn ota_mark_invalid(
    list: &[u32],
    flash: &[u8],
    otadata: &mut [u8],
    chip: u16,
    revision: u16,
    efuse: u32,
    rollback: u8,
    anti: u8,
    slot: u32,
) -> u32
    ensures number { result ≡ reply_number refusal_number (mark_invalid_reply list.now flash.now otadata.old (settings_of chip revision efuse rollback anti) (slot_of slot)) }
    ensures bytes { otadata.new ≡ mark_invalid_bytes list.now flash.now otadata.old (settings_of chip revision efuse rollback anti) (slot_of slot) }
{
    c_api::ota_mark_invalid(
        list, flash, otadata, chip, revision, efuse, rollback, anti, slot,
    )
}

/// The state query: 0 with the state word, or a refusal.
#[unsafe(no_mangle)]
pub extern "C" fn ota_state_query(
    list: &[u32],
    flash: &[u8],
    otadata: &[u8],
    slot: u32,
    out: &mut [u32; 1],
) -> u32
    ensures { answer result out.new ≡ to_c 1 (query_answer (state_query list.now flash.now otadata.now (slot_of slot))) }
{
    c_api::ota_state_query(list, flash, otadata, slot, out)
}

/// The next update slot: 0 with the slot, or a refusal.
#[unsafe(no_mangle)]
pub extern "C" fn ota_next_slot(
    list: &[u32],
    flash: &[u8],
    otadata: &[u8],
    chip: u16,
    revision: u16,
    efuse: u32,
    rollback: u8,
    anti: u8,
    running: u32,
    out: &mut [u32; 1],
) -> u32
    ensures { answer result out.new ≡ to_c 1 (next_answer (next_slot list.now flash.now otadata.now (settings_of chip revision efuse rollback anti) (running_app running))) }
{
    c_api::ota_next_slot(
        list, flash, otadata, chip, revision, efuse, rollback, anti, running, out,
    )
}
