//! The rules that the entries of a list keep, and the entry of a subtype.
ghost use Rattle.std.specs.Prelude.{◌≡◌, ◌<◌, ◌^◌, map, IsTrue, IfOk};
ghost use Rattle.std.specs.Result.{result_map_both};
ghost use Rattle.partitions.specs.Entry.{entry_of};
ghost use Rattle.partitions.specs.PartitionList.{times_listed, slot_count, has_each_slot_once, all_keep_rules, are_apart, keep_rules, right_entries, has_factory, entry_with, is_apart_from_all};

use crate::entry::{Entry, FACTORY, FIRST_SLOT};
use crate::list::BadList;
use crate::{MAX_FLASH, MAX_SLOTS, MAX_WORDS};

/// The entries of the words, where they are a right list for a flash of that many bytes. A list that is too long is not walked.
#[tactic(auto, using(crate::proofs::ListRules::too_long), unfolding(crate::specs::PartitionList::right_entries, crate::specs::PartitionList::is_right))]
pub(crate) fn right_entries(words: &[u32], capacity: usize) -> Result<&[[u32; 3]], BadList>
    ensures value { result_map_both (λ entries. map entry_of entries.now) (λ refusal. refusal) result ≡ right_entries words.now capacity }
    ensures right { IfOk result (λ entries. IsTrue (keep_rules (map entry_of entries.now) capacity)) }
{
    // So a list of any length is tested in bounded time.
    if words.len() > MAX_WORDS {
        return Err(BadList);
    }
    let (entries, rest) = words.as_chunks::<3>();
    if rest.is_empty() && keep_rules(entries, capacity) {
        Ok(entries)
    } else {
        Err(BadList)
    }
}

/// Whether the entries keep the rules of a list.
#[tactic(auto, unfolding(crate::specs::PartitionList::keep_rules))]
fn keep_rules(entries: &[[u32; 3]], capacity: usize) -> bool
    ensures { result ≡ keep_rules (map entry_of entries.now) capacity }
{
    let slots = slot_count(entries);
    capacity <= MAX_FLASH
        && times_listed(u64::from(FACTORY), entries) <= 1
        && (2..=MAX_SLOTS).contains(&slots)
        && has_each_slot_once(slots, entries)
        && all_keep_rules(slots, capacity, entries)
        && are_apart(entries)
}

/// How often a subtype is listed.
#[tactic(auto, unfolding(crate::specs::PartitionList::times_listed))]
fn times_listed(subtype: u64, entries: &[[u32; 3]]) -> usize
    ensures { result ≡ times_listed subtype (map entry_of entries.now) }
{
    entries
        .iter()
        .map(Entry::from)
        .filter(|entry| u64::from(entry.subtype) == subtype)
        .count()
}

/// How many slots the entries are: all but factory.
#[tactic(auto, unfolding(crate::specs::PartitionList::slot_count))]
pub(crate) fn slot_count(entries: &[[u32; 3]]) -> usize
    ensures { result ≡ slot_count (map entry_of entries.now) }
{
    entries
        .iter()
        .map(Entry::from)
        .filter(|entry| entry.subtype != FACTORY)
        .count()
}

/// Whether each of that many slots is listed exactly once.
#[tactic(auto, unfolding(crate::specs::PartitionList::has_each_slot_once))]
fn has_each_slot_once(slots: usize, entries: &[[u32; 3]]) -> bool
    requires { slots < 2 ^ 32 }
    ensures { result ≡ has_each_slot_once slots (map entry_of entries.now) }
{
    (0..slots).all(|slot| times_listed(u64::from(FIRST_SLOT) + slot as u64, entries) == 1)
}

/// Whether each entry keeps the rules of one entry.
#[tactic(auto, unfolding(crate::specs::PartitionList::all_keep_rules))]
fn all_keep_rules(slots: usize, capacity: usize, entries: &[[u32; 3]]) -> bool
    ensures { result ≡ all_keep_rules slots capacity (map entry_of entries.now) }
{
    entries
        .iter()
        .map(Entry::from)
        .all(|entry| entry.keeps_rules(slots, capacity))
}

/// Whether factory is listed.
#[tactic(auto, unfolding(crate::specs::PartitionList::has_factory))]
pub(crate) fn has_factory(entries: &[[u32; 3]]) -> bool
    ensures { result ≡ has_factory (map entry_of entries.now) }
{
    entries
        .iter()
        .map(Entry::from)
        .any(|entry| entry.subtype == FACTORY)
}

/// The first entry of a subtype, if it is listed.
#[tactic(auto, unfolding(crate::specs::PartitionList::entry_with))]
pub(crate) fn entry_with(subtype: u64, entries: &[[u32; 3]]) -> Option<Entry>
    ensures { result ≡ entry_with subtype (map entry_of entries.now) }
{
    entries
        .iter()
        .map(Entry::from)
        .find(|entry| u64::from(entry.subtype) == subtype)
}

/// Whether no two entries share a byte.
#[tactic(auto, unfolding(crate::specs::PartitionList::are_apart))]
fn are_apart(entries: &[[u32; 3]]) -> bool
    ensures { result ≡ are_apart (map entry_of entries.now) }
{
    // kept: the pairs of a list are no chain of the library
    let mut rest = entries;
    while let Some((first, others)) = rest.split_first() {
        if !is_apart_from_all(Entry::from(first), others) {
            return false;
        }
        rest = others;
    }
    true
}

/// Whether an entry shares no byte with any of the others.
#[tactic(auto, unfolding(crate::specs::PartitionList::is_apart_from_all))]
fn is_apart_from_all(entry: Entry, others: &[[u32; 3]]) -> bool
    ensures { result ≡ is_apart_from_all entry (map entry_of others.now) }
{
    others
        .iter()
        .map(Entry::from)
        .all(|other| entry.is_apart_from(other))
}
