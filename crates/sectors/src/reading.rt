ghost use Rattle.std.specs.Prelude.{◌≡◌};
ghost use Rattle.sectors.specs.Part.{part_of};
ghost use Rattle.sectors.specs.Sector.{number_of_sector, other_than, read_sector, readings, usable_sequence, highest, active, record_part, active_part};

use crate::SECTOR_SIZE;
use otadata::{RECORD_SIZE, Reading, Record, Sequence};

/// One of the two sectors.
#[derive(Clone, Copy, Debug, PartialEq, Eq, PartialOrd, Ord, Hash)]
pub enum SectorNumber {
    /// Sector 0, the first 4,096 bytes of otadata.
    Zero,
    /// Sector 1, the 4,096 bytes after them.
    One,
}

impl SectorNumber {
    /// The number of the sector: 0 or 1.
    pub fn number(self) -> usize
        ensures { result ≡ number_of_sector self }
    {
        match self {
            SectorNumber::Zero => 0,
            SectorNumber::One => 1,
        }
    }

    /// The other sector.
    pub fn other(self) -> SectorNumber
        ensures { result ≡ other_than self }
    {
        match self {
            SectorNumber::Zero => SectorNumber::One,
            SectorNumber::One => SectorNumber::Zero,
        }
    }
}

/// The record of a sector, or an empty part of bytes that are no sector.
#[tactic(auto, unfolding(crate::specs::Sector::record_in))]
fn record_part(sector: &[u8]) -> &[u8]
    ensures { part_of result ≡ record_part (part_of sector.entry) }
{
    if sector.len() == SECTOR_SIZE {
        &sector[..RECORD_SIZE]
    } else {
        &sector[..0]
    }
}

/// What a sector reads as: its good record, or why it holds none. Bytes that are no sector have a wrong size.
pub fn read_sector(sector: &[u8]) -> Reading
    ensures { result ≡ read_sector sector.now }
{
    Record::read(record_part(sector))
}

/// What both sectors read as, indexed by sector number.
pub fn readings(first: &[u8], second: &[u8]) -> [Reading; 2]
    ensures { result ≡ readings first.now second.now }
{
    [read_sector(first), read_sector(second)]
}

/// The sequence of a usable record; none of another.
pub fn usable_sequence(reading: Reading) -> Option<Sequence>
    ensures { result ≡ usable_sequence reading }
{
    match reading {
        Ok(record) if record.state.is_usable() => Some(record.sequence),
        _ => None,
    }
}

/// The sector of the higher of two sequences, sector 0 on a tie.
pub fn highest(first: Option<Sequence>, second: Option<Sequence>) -> Option<SectorNumber>
    ensures { result ≡ highest first second }
{
    match (first, second) {
        (None, None) => None,
        (Some(_), None) => Some(SectorNumber::Zero),
        (None, Some(_)) => Some(SectorNumber::One),
        (Some(first), Some(second)) if first < second => Some(SectorNumber::One),
        (Some(_), Some(_)) => Some(SectorNumber::Zero),
    }
}

/// The sector of the active record: the usable one with the higher sequence, sector 0 on a tie.
pub fn active(readings: [Reading; 2]) -> Option<SectorNumber>
    ensures { result ≡ active readings }
{
    let [first, second] = readings;
    highest(usable_sequence(first), usable_sequence(second))
}

// kept: two lent sectors with one lifetime, since the record is handed back as a part of whichever of them holds it
/// The active record's 32 bytes, as a part of the sector that holds it, or an empty part. Bytes that are no sector hold no record.
pub fn active_record<'a>(first: &'a [u8], second: &'a [u8]) -> &'a [u8]
    ensures { part_of result ≡ active_part (part_of first.entry) (part_of second.entry) }
{
    match active(readings(first, second)) {
        None => &first[..0],
        Some(SectorNumber::Zero) => record_part(first),
        Some(SectorNumber::One) => record_part(second),
    }
}
