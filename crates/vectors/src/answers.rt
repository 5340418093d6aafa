//! The answers to cases, five numbers each: that of the call, and what it gives.
ghost use Rattle.std.specs.Prelude.{◌≡◌};
ghost use Rattle.sha256.specs.Sha256.{digest};

use crate::buffers::{part, piece_end};
use crate::output::{sum, with_sum};
use c_api::{
    ota_check_image, ota_check_list, ota_check_word, ota_efuse_raise, ota_efuse_version,
    ota_make_record, ota_sha256,
};
use otadata::{Numbered, Reading, Record, Sequence, Slot, word_at};
use partitions::{App, app_part};

/// The answer to a case, with the list and the flash as they are.
pub(crate) fn answer(case: &[u8], list: &[u32], flash: &[u8]) -> [u32; 5] {
    let head = word_at(case, 0);
    let a = word_at(case, 4);
    let b = word_at(case, 8);
    let flash = part(flash, 0, word_at(case, 12) as usize);
    let kind = head % 256;
    let chip = (head / 65536) as u16;
    match kind {
        1 => [ota_check_word(a), 0, 0, 0, 0],
        2 => [Sequence(a).slot(b).0, 0, 0, 0, 0],
        3 => [ota_efuse_version(chip, a), 0, 0, 0, 0],
        4 => [ota_efuse_raise(chip, a, b), 0, 0, 0, 0],
        5 => read(case),
        6 => make(case),
        7 => {
            let mut out = [0u32; 2];
            let number = ota_check_list(list, a as usize + 4294967296 * (b as usize), &mut out);
            [number, out[0], out[1], 0, 0]
        }
        8 => of_part(app_part(list, flash, App::OtaSlot(Slot(a)))),
        9 => of_part(app_part(list, flash, App::Factory)),
        10 => {
            let mut out = [0u64; 4];
            let revision = (word_at(case, 128) % 65536) as u16;
            let number = ota_check_image(flash, chip, revision, &mut out);
            [
                number,
                (out[0] % 4294967296) as u32,
                (out[1] % 4294967296) as u32,
                (out[2] % 4294967296) as u32,
                (out[3] % 4294967296) as u32,
            ]
        }
        11 => digest(flash),
        12 => with_sum(0, &digest_by_pieces(case, flash)),
        _ => [0; 5],
    }
}

/// The answer to a record, and the sum of the record made again of what was read.
fn read(case: &[u8]) -> [u32; 5] {
    match record_of(case) {
        Err(fault) => [fault.number(), fault.code().unwrap_or(0), 0, 0, 0],
        Ok(record) => {
            let (sequence, state) = (record.sequence.0, record.state.word());
            let mut bytes = [0u8; 32];
            let number = ota_make_record(sequence, &record.label, state, &mut bytes);
            [number, 1, sequence, state, sum(&bytes)]
        }
    }
}

/// A record made with the label of the one in the case, which is zero where that one is not good.
fn make(case: &[u8]) -> [u32; 5] {
    let label = record_of(case).map_or([0; 20], |record| record.label);
    let mut bytes = [0u8; 32];
    let number = ota_make_record(word_at(case, 4), &label, word_at(case, 8), &mut bytes);
    with_sum(number, &bytes)
}

/// What the record in the case reads as.
fn record_of(case: &[u8]) -> Reading {
    Record::read(part(case, 16, word_at(case, 12) as usize))
}

/// The length and the sum of a part of the flash, and its first word: that is the place of the part where the flash was filled so.
fn of_part(found: &[u8]) -> [u32; 5] {
    [
        (found.len() % 4294967296) as u32,
        sum(found),
        word_at(found, 0),
        0,
        0,
    ]
}

/// The sum of a message's digest.
fn digest(message: &[u8]) -> [u32; 5] {
    let mut out = [0u8; 32];
    let number = ota_sha256(message, &mut out);
    with_sum(number, &out)
}

/// The digest of a message that is fed by pieces: as many as the case says, their lengths being its words, and then all that is left.
fn digest_by_pieces(case: &[u8], message: &[u8]) -> [u8; 32]
    ensures { result ≡ digest message.now }
{
    let mut hasher = sha256::fresh();
    let mut at = 0;
    // kept: the number of a piece is the place of its length in the case
    for i in 0..word_at(case, 8) {
        let n = word_at(case, 16 + i as usize % 60 * 4) as usize;
        let end = piece_end(message.len(), at, n);
        hasher = sha256::fed(hasher, &message[at..end]);
        at = end;
    }
    sha256::finished(sha256::fed(hasher, &message[at..]))
}
