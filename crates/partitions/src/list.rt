ghost use Rattle.std.specs.Prelude.{◌≡◌, ◌≤◌};

use crate::entry::{Entry, FACTORY, FIRST_SLOT};
use crate::rules::{entry_with, has_factory, right_entries, slot_count};
use otadata::{Numbered, Slot};
use std::error::Error;
use std::fmt;
use std::marker::Model;

/// An app that a list may name.
#[derive(Clone, Copy, Debug, PartialEq, Eq)]
pub enum App {
    Factory,
    OtaSlot(Slot),
}

impl App {
    ghost use Rattle.partitions.specs.PartitionList.{subtype_of};

    /// The subtype that lists it.
    fn subtype(self) -> u64
        ensures { result ≡ subtype_of self }
    {
        match self {
            App::Factory => u64::from(FACTORY),
            App::OtaSlot(slot) => u64::from(FIRST_SLOT) + u64::from(slot.0),
        }
    }
}

/// The refusal of a list, or of a flash length, that breaks the rules.
#[derive(Clone, Copy, Debug, PartialEq, Eq)]
pub struct BadList;

impl Numbered for BadList {
    ghost use Rattle.partitions.specs.Answer.{number_of};

    ghost number = { number_of };

    fn number(self) -> u32 {
        1
    }
}

impl fmt::Display for BadList {
    ghost use Rattle.std.specs.Prelude.{Some, codes};

    ghost output = { λ _. Some (codes "bad partition list") };

    fn fmt<W: fmt::Write>(&self, f: &mut fmt::Formatter<W>) -> fmt::Result {
        f.write_str("bad partition list")
    }
}

impl Error for BadList {}

/// A list that keeps its rules, with the flash that it speaks of.
#[derive(Drop)]
pub struct PartitionList<'a> {
    entries: &'a [[u32; 3]],
    flash: &'a [u8],
    slots: u32,
}

impl<'a> Model for PartitionList<'a> {
    ghost use Rattle.std.specs.Prelude.{◌≡◌, map, length, IsTrue};
    ghost use Rattle.partitions.specs.Entry.{entry_of};
    ghost use Rattle.partitions.specs.PartitionList.{Partitions, keep_rules, slot_count};

    ghost Value = { Partitions };

    ghost view = { λ l. record { entries = map entry_of l.entries.now; flash = l.flash.now } };

    ghost invariant = { λ l. IsTrue (keep_rules (map entry_of l.entries.now) (length l.flash.now)) × (l.slots ≡ slot_count (map entry_of l.entries.now)) };
}

impl<'a> PartitionList<'a> {
    ghost use Rattle.std.specs.Prelude.{length, option_map, IfSome};
    ghost use Rattle.partitions.specs.declared.TheConstants.{MAX_FLASH};
    ghost use Rattle.partitions.specs.Entry.{end_of};
    ghost use Rattle.partitions.specs.PartitionList.{list_of, slot_count, has_factory, entry_with, subtype_of, image_of};

    /// The list of triples of subtype, offset and size, where it keeps its rules for the flash.
    #[tactic(auto, using(crate::proofs::ListRules::slots_fit), unfolding(crate::specs::PartitionList::list_of, crate::specs::PartitionList::right_entries))]
    pub fn new(words: &'a [u32], flash: &'a [u8]) -> Result<PartitionList<'a>, BadList>
        ensures { result ≡ list_of words.now flash.now }
    {
        let entries = right_entries(words, flash.len())?;
        let slots = slot_count(entries) as u32;
        Ok(PartitionList {
            entries,
            flash,
            slots,
        })
    }

    /// How many slots it has.
    #[tactic(auto, using(crate::proofs::ListRules::two_slots))]
    pub fn slots(&self) -> u32
        ensures value { result ≡ slot_count self.now.entries }
        ensures least { 2 ≤ result }
    {
        self.slots
    }

    /// Whether it lists factory.
    pub fn has_factory(&self) -> bool
        ensures { result ≡ has_factory self.now.entries }
    {
        has_factory(self.entries)
    }

    /// The part of the flash that belongs to an app, if it is listed.
    #[tactic(auto, using(crate::proofs::ListRules::bytes_fit), unfolding(crate::specs::PartitionList::image_of))]
    pub fn image(&self, app: App) -> Option<&'a [u8]>
        ensures value { option_map (λ part. part.now) result ≡ image_of self.now app }
        ensures fits { IfSome result (λ part. length part.now ≤ MAX_FLASH) }
    {
        let entry = self.entry(app)?;
        Some(entry.part(self.flash))
    }

    /// The entry of an app, if it is listed.
    #[tactic(auto, using(crate::proofs::ListRules::entry_ends))]
    pub(crate) fn entry(&self, app: App) -> Option<Entry>
        ensures value { result ≡ entry_with (subtype_of app) self.now.entries }
        ensures within { IfSome result (λ entry. end_of entry ≤ length self.now.flash) }
    {
        entry_with(app.subtype(), self.entries)
    }
}
