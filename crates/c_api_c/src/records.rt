//! Records: the check word, making one, reading a sector, and the active record.
ghost use Rattle.std.specs.Prelude.{◌≡◌, map};
ghost use Rattle.otadata.specs.Answer.{answer_of};
ghost use Rattle.otadata.specs.CheckWord.{check_word};
ghost use Rattle.otadata.specs.Record.{made};
ghost use Rattle.sectors.specs.Part.{part_of};
ghost use Rattle.sectors.specs.Sector.{read_sector, active_part};
ghost use Rattle.c_api.specs.Interface.{answer, to_c, made_answer, active_answer};

use otadata::RECORD_SIZE;

/// The check word of a sequence.
#[unsafe(no_mangle)]
pub extern "C" fn ota_check_word(sequence: u32) -> u32
    ensures { result ≡ check_word sequence }
{
    c_api::ota_check_word(sequence)
}

/// Puts the check word of each sequence in its place, and returns 0.
#[unsafe(no_mangle)]
pub extern "C" fn ota_check_words(sequences: &mut [u32]) -> u32
    ensures { (result ≡ 0) × (sequences.new ≡ map check_word sequences.old) }
{
    c_api::ota_check_words(sequences)
}

/// Makes a record: 0, or 17 and 32 zero bytes.
#[unsafe(no_mangle)]
pub extern "C" fn ota_make_record(
    sequence: u32,
    label: &[u8; 20],
    state: u32,
    bytes: &mut [u8; RECORD_SIZE],
) -> u32
    ensures { answer result bytes.new ≡ made_answer (made (record { 0 = sequence }) label.now state) }
{
    c_api::ota_make_record(sequence, label, state, bytes)
}

/// Reads a sector: 0 with 1, the sequence and the state word of a good record, or with 2 for blank, 3 for a bad sequence, 4 for a bad
/// check word, 5 for a bad state; 2 for a wrong size.
#[unsafe(no_mangle)]
pub extern "C" fn ota_read_sector(sector: &[u8], out: &mut [u32; 3]) -> u32
    ensures { answer result out.new ≡ to_c 3 (answer_of (read_sector sector.now)) }
{
    c_api::ota_read_sector(sector, out)
}

/// Copies the active record: 32, or 0 for none.
#[unsafe(no_mangle)]
pub extern "C" fn ota_active<'a>(
    first: &'a [u8],
    second: &'a [u8],
    bytes: &mut [u8; RECORD_SIZE],
) -> u32
    ensures { answer result bytes.new ≡ active_answer (active_part (part_of first.entry) (part_of second.entry)).content bytes.old }
{
    c_api::ota_active(first, second, bytes)
}
