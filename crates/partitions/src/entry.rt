ghost use Rattle.std.specs.Prelude.{◌≡◌, ◌≤◌, length};

/// An entry of the list.
#[derive(Clone, Copy, Debug, PartialEq, Eq)]
pub struct Entry {
    pub subtype: u32,
    pub offset: u32,
    pub size: u32,
}

/// The subtype of factory.
pub(crate) const FACTORY: u32 = 0;

/// The subtype of OTA slot 0.
pub(crate) const FIRST_SLOT: u32 = 16;

impl From<&[u32; 3]> for Entry {
    ghost use Rattle.partitions.specs.Entry.{entry_of};

    ghost from_gives = { λ words entry. entry ≡ entry_of words.now };

    fn from(words: &[u32; 3]) -> Entry {
        let [subtype, offset, size] = *words;
        Entry {
            subtype,
            offset,
            size,
        }
    }
}

impl Entry {
    ghost use Rattle.sectors.specs.Part.{part_of};
    ghost use Rattle.partitions.specs.Entry.{end_of, keeps_rules, is_apart_from, entry_bytes, entry_part};

    /// The place after its last byte. The sum of two words fits a `usize`, so nothing wraps.
    pub fn end(self) -> usize
        ensures { result ≡ end_of self }
    {
        self.offset as usize + self.size as usize
    }

    /// Whether it keeps the rules of one entry, with that many slots and that many bytes of flash.
    pub fn keeps_rules(self, slots: usize, capacity: usize) -> bool
        ensures { result ≡ keeps_rules slots capacity self }
    {
        let is_known = self.subtype == FACTORY
            || self
                .subtype
                .checked_sub(FIRST_SLOT)
                .is_some_and(|slot| (slot as usize) < slots);
        is_known
            && self.offset % 65536 == 0
            && self.size != 0
            && self.size % 4096 == 0
            && self.end() <= capacity
    }

    /// Whether the two share no byte.
    pub fn is_apart_from(self, other: Entry) -> bool
        ensures { result ≡ is_apart_from self other }
    {
        self.end() <= other.offset as usize || other.end() <= self.offset as usize
    }

    /// Its part of a flash in which it ends.
    pub(crate) fn part<'a>(self, flash: &'a [u8]) -> &'a [u8]
        requires { end_of self ≤ length flash.now }
        ensures place { part_of result ≡ entry_part self (part_of flash.entry) }
        ensures bytes { result.now ≡ entry_bytes self flash.now }
    {
        &flash[self.offset as usize..self.end()]
    }
}
