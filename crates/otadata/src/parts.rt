//! Parts for callers of the library: what a reading says of its record, and words in any bytes.
ghost use Rattle.std.specs.Prelude.{◌≡◌};
ghost use Rattle.otadata.specs.Record.{usable, in_state, sequence_of};
ghost use Rattle.otadata.specs.Word.{byte_at, word_at, word_of_bytes};

use crate::records::{Reading, Sequence};
use crate::states::State;

/// Whether it is a good record that may be started: neither invalid nor aborted.
pub fn usable(reading: Reading) -> bool
    ensures { result ≡ usable reading }
{
    reading.is_ok_and(|record| record.state.is_usable())
}

/// Whether it is a good record in that state.
pub fn in_state(reading: Reading, state: State) -> bool
    ensures { result ≡ in_state state reading }
{
    reading.is_ok_and(|record| record.state == state)
}

/// The sequence of a good record.
pub fn sequence_of(reading: Reading) -> Option<Sequence>
    ensures { result ≡ sequence_of reading }
{
    reading.ok().map(|record| record.sequence)
}

/// Byte `i`, or 0 past the end.
pub fn byte_at(bytes: &[u8], i: usize) -> u8
    ensures { result ≡ byte_at bytes.now i }
{
    bytes.get(i).copied().unwrap_or(0)
}

/// The word in the four bytes from `at` on, the lowest first; a byte past the end counts as 0.
pub fn word_at(bytes: &[u8], at: usize) -> u32
    ensures { result ≡ word_at bytes.now at }
{
    let rest = bytes.get(at..).unwrap_or(&[]);
    word_of(
        byte_at(rest, 0),
        byte_at(rest, 1),
        byte_at(rest, 2),
        byte_at(rest, 3),
    )
}

/// The word of four bytes, the lowest first.
pub fn word_of(b0: u8, b1: u8, b2: u8, b3: u8) -> u32
    ensures { result ≡ word_of_bytes b0 b1 b2 b3 }
{
    u32::from_le_bytes([b0, b1, b2, b3])
}
