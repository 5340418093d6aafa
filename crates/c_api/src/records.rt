//! Records: the check word, making one, reading a sector, and the active record.
ghost use Rattle.std.specs.Prelude.{◌≡◌, map};
ghost use Rattle.otadata.specs.Answer.{answer_of};
ghost use Rattle.otadata.specs.CheckWord.{check_word};
ghost use Rattle.otadata.specs.Record.{made};
ghost use Rattle.sectors.specs.Part.{part_of};
ghost use Rattle.sectors.specs.Sector.{read_sector, active_part};
ghost use Rattle.c_api.specs.Interface.{answer, to_c, made_answer, active_answer};

use otadata::{RECORD_SIZE, Sequence, check_word, check_words, make, number_of};
use sectors::{active_record, read_sector};

/// The check word of a sequence.
pub fn ota_check_word(sequence: u32) -> u32
    ensures { result ≡ check_word sequence }
{
    check_word(Sequence(sequence))
}

/// Puts the check word of each sequence in its place, and returns 0.
pub fn ota_check_words(sequences: &mut [u32]) -> u32
    ensures { (result ≡ 0) × (sequences.new ≡ map check_word sequences.old) }
{
    check_words(sequences);
    0
}

/// Makes a record: 0, or 17 and 32 zero bytes.
pub fn ota_make_record(
    sequence: u32,
    label: &[u8; 20],
    state: u32,
    bytes: &mut [u8; RECORD_SIZE],
) -> u32
    ensures { answer result bytes.new ≡ made_answer (made (record { 0 = sequence }) label.now state) }
{
    let made = make(Sequence(sequence), *label, state);
    *bytes = made.unwrap_or([0; RECORD_SIZE]);
    number_of(made)
}

/// Reads a sector: 0 with 1, the sequence and the state word of a good record, or with 2 for blank, 3 for a bad sequence, 4 for a bad
/// check word, 5 for a bad state; 2 for a wrong size.
pub fn ota_read_sector(sector: &[u8], out: &mut [u32; 3]) -> u32
    ensures { answer result out.new ≡ to_c 3 (answer_of (read_sector sector.now)) }
{
    let reading = read_sector(sector);
    *out = match reading {
        Ok(record) => [1, record.sequence.0, record.state.word()],
        Err(fault) => [fault.code().unwrap_or(0), 0, 0],
    };
    number_of(reading)
}

/// Copies the active record: 32, or 0 for none.
pub fn ota_active<'a>(first: &'a [u8], second: &'a [u8], bytes: &mut [u8; RECORD_SIZE]) -> u32
    ensures { answer result bytes.new ≡ active_answer (active_part (part_of first.entry) (part_of second.entry)).content bytes.old }
{
    let Ok(active) = active_record(first, second).try_into() else {
        return 0;
    };
    *bytes = active;
    32
}
