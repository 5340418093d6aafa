//! The records of otadata: how they are read and made, and their check word.
#![tactic(auto)]

mod check;
pub mod laws;
mod numbers;
mod parts;
mod records;
mod states;

pub use check::{check_word, check_words};
pub use numbers::{Numbered, number_of};
pub use parts::{byte_at, in_state, sequence_of, usable, word_at, word_of};
pub use records::{Fault, NotGood, Reading, Record, Sequence, Slot, make};
pub use states::{NoState, State};

/// The size of a record in bytes.
pub const RECORD_SIZE: usize = 32;

/// The highest sequence of a good record.
pub const LAST_SEQUENCE: u32 = 4_294_967_294;
