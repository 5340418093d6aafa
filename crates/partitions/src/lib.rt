//! The partition list of a node: its rules, its slots, and the part of the flash that belongs to an app.
#![tactic(auto)]

mod entry;
mod laws;
mod list;
mod parts;
mod rules;

pub use laws::{answer_number, entry_parts, right_means};
pub use list::{App, BadList, PartitionList};
pub use parts::{Listing, app_part, check};

/// The most slots that a list may have.
pub const MAX_SLOTS: usize = 16;

/// The most words that a list may have: three for each slot, and three for factory.
pub const MAX_WORDS: usize = 3 * (MAX_SLOTS + 1);

/// The most bytes that a flash may have.
pub const MAX_FLASH: usize = 16_777_216;
