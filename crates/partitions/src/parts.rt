//! Parts for callers that hold the words and the flash: each tests the list itself. No other part of this crate calls them.
ghost use Rattle.std.specs.Prelude.{◌≡◌, ◌≤◌, length};
ghost use Rattle.sectors.specs.Part.{part_of};
ghost use Rattle.partitions.specs.declared.TheConstants.{MAX_FLASH};
ghost use Rattle.partitions.specs.PartitionList.{check, app_part};

use crate::list::{App, BadList, PartitionList};
use crate::rules::{has_factory, right_entries, slot_count};

/// What a list that keeps its rules holds: the number of its slots, and whether factory is listed.
#[derive(Clone, Copy, Debug, PartialEq, Eq)]
pub struct Listing {
    pub slots: u32,
    pub factory: bool,
}

/// Tests a list for a flash of that many bytes.
#[tactic(auto, using(crate::proofs::ListRules::slots_fit), unfolding(crate::specs::PartitionList::check, crate::specs::PartitionList::right_entries))]
pub fn check(list: &[u32], capacity: usize) -> Result<Listing, BadList>
    ensures { result ≡ check list.now capacity }
{
    let entries = right_entries(list, capacity)?;
    Ok(Listing {
        slots: slot_count(entries) as u32,
        factory: has_factory(entries),
    })
}

/// The part of the flash that belongs to an app: exactly its entry's. Empty, at the start of the flash, where the list is refused or the
/// app is not listed.
#[tactic(auto, using(crate::proofs::ListRules::part_fits), unfolding(crate::specs::PartitionList::app_part, crate::specs::PartitionList::list_of))]
pub fn app_part<'a>(list: &[u32], flash: &'a [u8], app: App) -> &'a [u8]
    ensures value { part_of result ≡ app_part list.now (part_of flash.entry) app }
    ensures fits { length result.now ≤ MAX_FLASH }
{
    let Ok(partitions) = PartitionList::new(list, flash) else {
        return &flash[..0];
    };
    let Some(entry) = partitions.entry(app) else {
        return &flash[..0];
    };
    entry.part(flash)
}
