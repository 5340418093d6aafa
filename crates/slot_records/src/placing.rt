ghost use Rattle.std.specs.Prelude.{◌≡◌, ◌<◌};
ghost use Rattle.slot_records.specs.Placing.{next_sequence, placement, NextLaw, PlacementLaw};

use crate::Placement;
use crate::naming::active_at;
use otadata::{LAST_SEQUENCE, Reading, Sequence, Slot};
use sectors::SectorNumber;

/// Where a new record that names the slot goes, with `n` slots, and its sequence; nothing where there is no such slot, or the sequence
/// would pass the last one.
#[tactic(auto, using(crate::proofs::Next::next_law, crate::proofs::Placed::placement_law), unfolding(crate::specs::Placing::placement))]
pub fn place_new(readings: [Reading; 2], n: u32, slot: Slot) -> Option<Placement>
    ensures exact { result ≡ placement n slot readings }
    ensures next { NextLaw }
    ensures placed { PlacementLaw }
{
    if slot.0 >= n {
        return None;
    }
    let (sector, next) = match active_at(readings) {
        None => (SectorNumber::Zero, u64::from(slot.0) + 1),
        Some((active, record)) => (active.other(), next_number(record.sequence, n, slot)),
    };
    if next > u64::from(LAST_SEQUENCE) {
        return None;
    }
    Some(Placement {
        sector,
        sequence: Sequence(next as u32),
    })
}

/// The number of the smallest sequence above this one that names the slot. It may pass the last sequence.
#[tactic(auto, unfolding(crate::specs::Placing::next_sequence))]
fn next_number(above: Sequence, n: u32, slot: Slot) -> u64
    requires { slot.0 < n }
    ensures { result ≡ (next_sequence n slot above).0 }
{
    let n = u64::from(n);
    let above = u64::from(above.0);
    above + 1 + (u64::from(slot.0) + n - above % n) % n
}
