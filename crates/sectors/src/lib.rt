//! The two otadata sectors: what they read as, the active record, and how a sector is rewritten.
#![tactic(auto)]

mod laws;
mod parts;
mod reading;
mod rewriting;

pub use laws::{blank_reads_as_none, refused_calls};
pub use parts::{higher_of, read_at, read_both, restate_at, rewrite_at};
pub use reading::{
    SectorNumber, active, active_record, highest, read_sector, readings, usable_sequence,
};
pub use rewriting::{Refusal, restate, rewrite, store};

/// The size of a sector in bytes.
pub const SECTOR_SIZE: usize = 4096;

/// The number of stores of a rewrite: one for each byte of the sector, then one for each byte of the record.
pub const STORES: usize = 4128;
