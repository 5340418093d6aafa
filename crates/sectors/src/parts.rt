//! Parts for callers of the library, which no other part of this crate calls: a sector of otadata by its number, which may be any.
//! Where otadata has no such sector, its size is wrong and nothing is written.
ghost use Rattle.std.specs.Prelude.{◌≡◌, ◌+◌, ◌*◌, min};
ghost use Rattle.std.specs.Result.{result_unwrap_or};
ghost use Rattle.sectors.specs.Sector.{read_sector, higher_of};
ghost use Rattle.sectors.specs.Rewrite.{done};
ghost use Rattle.sectors.specs.Otadata.{sector_at, readings_of, with_state, rewrite_at};

use crate::SECTOR_SIZE;
use crate::reading::{SectorNumber, read_sector};
use crate::rewriting::{Refusal, restate, rewrite};
use otadata::{Reading, State};

/// What both sectors of otadata read as, indexed by sector number.
pub fn read_both(otadata: &[u8]) -> [Reading; 2]
    ensures { result ≡ readings_of otadata.now }
{
    [read_at(otadata, 0), read_at(otadata, 1)]
}

/// What sector `k` of otadata reads as.
pub fn read_at(otadata: &[u8], k: usize) -> Reading
    ensures { result ≡ read_sector (sector_at k otadata.now) }
{
    let (start, end) = bounds(k, otadata.len());
    read_sector(&otadata[start..end])
}

/// Gives the record of sector `k` another state, and what the sector then reads as. Without a good record nothing changes.
pub fn restate_at(otadata: &mut [u8], k: usize, state: State) -> Reading
    ensures bytes { otadata.new ≡ with_state state k otadata.old }
    ensures reading { result ≡ read_sector (sector_at k otadata.new) }
{
    let (start, end) = bounds(k, otadata.len());
    restate(&mut otadata[start..end], state)
}

/// A whole rewrite of sector `k` with the record.
///
/// # Errors
///
/// `WrongSize` where the record has not 32 bytes, or otadata has no sector `k`; then nothing is written.
pub fn rewrite_at(otadata: &mut [u8], k: usize, bytes: &[u8]) -> Result<(), Refusal>
    ensures reply { result ≡ done (rewrite_at k otadata.old bytes.now) }
    ensures bytes { otadata.new ≡ result_unwrap_or (rewrite_at k otadata.old bytes.now) otadata.old }
{
    let (start, end) = bounds(k, otadata.len());
    rewrite(&mut otadata[start..end], bytes)
}

/// The sector of the higher of two records, sector 0 on a tie: `first` and `second` say which of them count, `higher` whether the
/// second has the higher sequence.
pub fn higher_of(first: bool, second: bool, higher: bool) -> Option<SectorNumber>
    ensures { result ≡ higher_of first second higher }
{
    match (first, second) {
        (false, false) => None,
        (true, false) => Some(SectorNumber::Zero),
        (false, true) => Some(SectorNumber::One),
        (true, true) if higher => Some(SectorNumber::One),
        (true, true) => Some(SectorNumber::Zero),
    }
}

/// Where sector `k` begins and ends in otadata of `len` bytes; past their end, where they end.
fn bounds(k: usize, len: usize) -> (usize, usize)
    ensures start { result.0 ≡ min (k * SECTOR_SIZE) len }
    ensures end { result.1 ≡ min (k * SECTOR_SIZE + SECTOR_SIZE) len }
{
    let start = k.saturating_mul(SECTOR_SIZE).min(len);
    (start, start.saturating_add(SECTOR_SIZE).min(len))
}
