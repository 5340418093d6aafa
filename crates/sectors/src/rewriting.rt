ghost use Rattle.std.specs.Prelude.{◌≡◌};
ghost use Rattle.std.specs.Result.{result_unwrap_or};
ghost use Rattle.sectors.specs.Sector.{read_sector};
ghost use Rattle.sectors.specs.Rewrite.{done, single_store, rewrite, in_other_state, restated};
ghost use Rattle.sectors.specs.PowerCut.{StoreByStore, FinishedLaw, ReadingLaw};

use crate::reading::read_sector;
use crate::{SECTOR_SIZE, STORES};
use otadata::{Numbered, RECORD_SIZE, Reading, Record, State};

/// Why a store or a rewrite is refused.
#[derive(Clone, Copy, Debug, PartialEq, Eq, PartialOrd, Ord, Hash)]
pub enum Refusal {
    /// The sector has not 4,096 bytes, or the record not 32.
    WrongSize,
    /// There is no store of that number: a rewrite has stores 0 to 4,127.
    NoSuchStore,
}

impl Numbered for Refusal {
    ghost use Rattle.sectors.specs.Answer.{number_of};

    ghost number = { number_of };

    fn number(self) -> u32 {
        match self {
            Refusal::WrongSize => 2,
            Refusal::NoSuchStore => 12,
        }
    }
}

/// Store `m` of a rewrite of the sector with the record: erasing goes up from the first byte, programming down from the record's
/// last, so that the sequence comes last.
///
/// # Errors
///
/// `WrongSize`, then `NoSuchStore` from 4,128 on; nothing is written then.
#[tactic(auto, using(crate::proofs::Stores::store_by_store), unfolding(crate::specs::Rewrite::stored))]
pub fn store(sector: &mut [u8], bytes: &[u8], m: usize) -> Result<(), Refusal>
    ensures reply { result ≡ done (single_store sector.old bytes.now m) }
    ensures bytes { sector.new ≡ result_unwrap_or (single_store sector.old bytes.now m) sector.old }
    ensures law { StoreByStore }
{
    if sector.len() != SECTOR_SIZE || bytes.len() != RECORD_SIZE {
        return Err(Refusal::WrongSize);
    }
    if m >= STORES {
        return Err(Refusal::NoSuchStore);
    }
    if m < SECTOR_SIZE {
        sector[m] = 0xFF;
    } else {
        let at = RECORD_SIZE - 1 - (m - SECTOR_SIZE);
        sector[at] = bytes[at];
    }
    Ok(())
}

/// A whole rewrite of the sector with the record: the single store, from 0 to 4,127.
///
/// # Errors
///
/// `WrongSize`; nothing is written then.
// One copy of the loop serves every caller: copies within the callers took a third longer.
#[inline(never)]
#[tactic(auto, using(crate::proofs::Stores::cut_none, crate::proofs::Stores::turn_done, crate::proofs::Stores::turn_refused, crate::proofs::ReadingLaw::finished_law, crate::proofs::ReadingLaw::reading_law))]
pub fn rewrite(sector: &mut [u8], bytes: &[u8]) -> Result<(), Refusal>
    ensures reply { result ≡ done (rewrite sector.old bytes.now) }
    ensures bytes { sector.new ≡ result_unwrap_or (rewrite sector.old bytes.now) sector.old }
    ensures finished { FinishedLaw }
    ensures power_cut { ReadingLaw }
{
    // The invariant of this loop states the bytes after each store.
    for m in 0..STORES {
        store(sector, bytes, m)?;
    }
    Ok(())
}

/// Rewrites a sector whole with its record in another state; sequence and label stay. A sector without a good record stays as it
/// is. Gives what the sector then reads as.
#[tactic(auto, unfolding(crate::specs::Rewrite::restated))]
pub fn restate(sector: &mut [u8], state: State) -> Reading
    ensures bytes { sector.new ≡ restated state sector.old }
    ensures reading { result ≡ read_sector sector.new }
    ensures record { result ≡ in_other_state state (read_sector sector.old) }
{
    let record = Record {
        state,
        ..read_sector(sector)?
    };
    rewrite(sector, &record.to_bytes()).unwrap();
    Ok(record)
}
