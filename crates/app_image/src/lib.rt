//! The check of an app image for a board.
#![tactic(auto)]

pub mod laws;
mod layout;
mod refusal;
mod sums;
mod tests_in_order;

ghost use Rattle.std.specs.Prelude.{◌≡◌, ◌≤◌, length};
ghost use Rattle.app_image.specs.Layout.{header_of, head_of};
ghost use Rattle.app_image.specs.Check.{check};

use efuse::{ChipId, SecureVersion};
use layout::checksum_place;
pub use layout::{Segment, segment_at};
pub use refusal::ImageRefusal;
pub use tests_in_order::test_header;
use tests_in_order::{
    facts_of, test_checksum, test_descriptor, test_digest, test_length, test_version,
};

/// The bytes of the shortest image: its header, the header of segment 0, and the descriptor.
pub const SHORTEST: usize = 288;

/// The bytes of an image's header.
pub const HEADER_SIZE: usize = 24;

/// The bytes of an image's head: its header, the header of segment 0, and the descriptor's word and secure version.
pub const HEAD_SIZE: usize = 40;

/// The bytes of a segment's header.
pub const SEGMENT_HEADER_SIZE: usize = 8;

/// The bytes of the appended digest.
pub const DIGEST_SIZE: usize = 32;

/// A chip's revision: major × 100 + minor.
#[derive(Clone, Copy, Debug, PartialEq, Eq, PartialOrd, Ord, Hash)]
pub struct Revision(pub u16);

/// The board that an image must fit: the chip's id, and its revision.
#[derive(Clone, Copy, Debug, PartialEq, Eq)]
pub struct Board {
    pub chip: ChipId,
    pub revision: Revision,
}

/// What is known of an accepted image: its whole length in bytes, its entry address, its secure version and its number of segments.
#[derive(Clone, Copy, Debug, PartialEq, Eq)]
pub struct Facts {
    pub length: usize,
    pub entry: u32,
    pub version: SecureVersion,
    pub segments: u8,
}

/// Checks an image for a board: the facts, or why it is refused. Bytes after the image are ignored.
#[tactic(auto, unfolding(crate::specs::Check::check))]
pub fn check(image: &[u8], board: Board) -> Result<Facts, ImageRefusal>
    ensures { result ≡ check image.now board }
{
    if image.len() < SHORTEST {
        return Err(ImageRefusal::TooShort);
    }
    test_header(header_of(image), board)?;
    let head = head_of(image);
    let ending = layout::walk(image, image[1])?;
    test_descriptor(head)?;
    test_length(image.len(), image[23], ending.end)?;
    test_checksum(image[checksum_place(ending.end)], ending)?;
    test_version(head, board.chip)?;
    test_digest(image, ending.end)?;
    Ok(facts_of(head, ending.end))
}

/// The header of an image.
fn header_of(image: &[u8]) -> &[u8; HEADER_SIZE]
    requires { HEADER_SIZE ≤ length image.now }
    ensures { result.now ≡ header_of image.now }
{
    image.first_chunk().unwrap()
}

/// The head of an image.
fn head_of(image: &[u8]) -> &[u8; HEAD_SIZE]
    requires { HEAD_SIZE ≤ length image.now }
    ensures { result.now ≡ head_of image.now }
{
    image.first_chunk().unwrap()
}
