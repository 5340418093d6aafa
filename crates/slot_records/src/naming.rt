ghost use Rattle.std.specs.Prelude.{◌≡◌};
ghost use Rattle.slot_records.specs.Naming.{active_at, active_naming, naming_sequence, highest_naming, naming_record, active_pending};

use otadata::{Reading, Record, Sequence, Slot, State};
use sectors::{SectorNumber, active, highest};

/// The sector of the active record, if that names the slot, with `n` slots.
#[tactic(auto, unfolding(crate::specs::Naming::active_naming))]
pub fn active_naming(readings: [Reading; 2], n: u32, slot: Slot) -> Option<SectorNumber>
    ensures { result ≡ active_naming n slot readings }
{
    let (sector, record) = active_at(readings)?;
    if record.sequence.slot(n) == slot {
        Some(sector)
    } else {
        None
    }
}

/// The sector of the active record if that names the slot; else of the good record of highest sequence that names it.
#[tactic(auto, unfolding(crate::specs::Naming::naming_record))]
pub fn naming_record(readings: [Reading; 2], n: u32, slot: Slot) -> Option<SectorNumber>
    ensures { result ≡ naming_record n slot readings }
{
    active_naming(readings, n, slot).or_else(|| highest_naming(readings, n, slot))
}

/// Whether the active record is pending.
#[tactic(auto, unfolding(crate::specs::Naming::active_pending))]
pub fn active_pending(readings: [Reading; 2]) -> bool
    ensures { result ≡ active_pending readings }
{
    active_at(readings).is_some_and(|(_, active)| active.state == State::Pending)
}

/// The active record, with its sector.
#[tactic(auto, unfolding(crate::specs::Naming::active_at))]
pub(crate) fn active_at(readings: [Reading; 2]) -> Option<(SectorNumber, Record)>
    ensures { result ≡ active_at readings }
{
    let [first, second] = readings;
    let sector = active(readings)?;
    let reading = match sector {
        SectorNumber::Zero => first,
        SectorNumber::One => second,
    };
    Some((sector, reading.ok()?))
}

/// The sector of the good record of highest sequence that names the slot, sector 0 on a tie.
#[tactic(auto, unfolding(crate::specs::Naming::highest_naming))]
fn highest_naming(readings: [Reading; 2], n: u32, slot: Slot) -> Option<SectorNumber>
    ensures { result ≡ highest_naming n slot readings }
{
    let [first, second] = readings.map(|reading| naming_sequence(reading, n, slot));
    highest(first, second)
}

/// The sequence of a good record that names the slot.
#[tactic(auto, unfolding(crate::specs::Naming::naming_sequence))]
fn naming_sequence(reading: Reading, n: u32, slot: Slot) -> Option<Sequence>
    ensures { result ≡ naming_sequence n slot reading }
{
    let record = reading.ok()?;
    if record.sequence.slot(n) == slot {
        Some(record.sequence)
    } else {
        None
    }
}
