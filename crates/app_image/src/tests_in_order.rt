//! The tests of an image, by the numbers of their refusals, each of the bytes that it reads alone.
ghost use Rattle.std.specs.Prelude.{◌≡◌, ◌≤◌, ◌<◌, ◌^◌, length, OnOk};
ghost use Rattle.app_image.specs.Layout.{digest_flag, whole_length, padded};
ghost use Rattle.app_image.specs.Check.{header_test, revision_fits, descriptor_test, length_test, checksum_test, version_test, digest_test, digest_compared, facts_of};

use crate::layout::{Ending, checksum_place, padded, whole_length};
use crate::{Board, DIGEST_SIZE, Facts, HEAD_SIZE, HEADER_SIZE, ImageRefusal, Revision};
use efuse::{ChipId, SecureVersion, width};

/// 21 to 23, 31 and 24: the magic byte, the number of segments, chip, revision and digest flag, of the header alone.
#[tactic(auto, unfolding(crate::specs::Check::header_test))]
pub fn test_header(header: &[u8; HEADER_SIZE], board: Board) -> Result<(), ImageRefusal>
    ensures { result ≡ header_test header.now board }
{
    if header[0] != 0xE9 {
        return Err(ImageRefusal::BadMagic);
    }
    if !(1..=16).contains(&header[1]) {
        return Err(ImageRefusal::BadSegmentCount);
    }
    if u16::from_le_bytes(header[12..14].try_into().unwrap()) != board.chip.0 {
        return Err(ImageRefusal::WrongChip);
    }
    if !revision_fits(header, board.revision) {
        return Err(ImageRefusal::WrongRevision);
    }
    if header[23] > 1 {
        return Err(ImageRefusal::BadDigestFlag);
    }
    Ok(())
}

/// Whether a revision is neither below the image's minimum nor above its maximum, where 0 and 65,535 mean no upper limit.
#[tactic(auto, unfolding(crate::specs::Check::revision_fits))]
fn revision_fits(header: &[u8; HEADER_SIZE], revision: Revision) -> bool
    ensures { result ≡ revision_fits header.now revision }
{
    let least = u16::from_le_bytes(header[15..17].try_into().unwrap());
    let most = u16::from_le_bytes(header[17..19].try_into().unwrap());
    revision.0 >= least && (most == 0 || most == 0xFFFF || revision.0 <= most)
}

/// 26: segment 0 has the bytes of a descriptor, and that begins with its word.
#[tactic(auto, unfolding(crate::specs::Check::descriptor_test))]
pub(crate) fn test_descriptor(head: &[u8; HEAD_SIZE]) -> Result<(), ImageRefusal>
    ensures { result ≡ descriptor_test head.now }
{
    let length = u32::from_le_bytes(head[28..32].try_into().unwrap());
    let word = u32::from_le_bytes(head[32..36].try_into().unwrap());
    if length < 256 || word != 0xABCD_5432 {
        return Err(ImageRefusal::NoDescriptor);
    }
    Ok(())
}

/// 27: padding and digest lie within the image, of so many bytes, for a digest flag and the end of its segments.
#[tactic(auto, unfolding(crate::specs::Check::length_test))]
pub(crate) fn test_length(size: usize, flag: u8, end: usize) -> Result<(), ImageRefusal>
    requires { end < 2 ^ 63 }
    ensures exact { result ≡ length_test size flag end }
    ensures fits { OnOk result (whole_length flag end ≤ size) }
{
    if size < whole_length(flag, end) {
        return Err(ImageRefusal::CutShort { end });
    }
    Ok(())
}

/// 28: the byte in the checksum's place is the checksum.
#[tactic(auto, unfolding(crate::specs::Check::checksum_test))]
pub(crate) fn test_checksum(stored: u8, ending: Ending) -> Result<(), ImageRefusal>
    requires { ending.end < 2 ^ 63 }
    ensures { result ≡ checksum_test stored ending }
{
    if stored != ending.checksum {
        let place = checksum_place(ending.end);
        return Err(ImageRefusal::WrongChecksum { place });
    }
    Ok(())
}

/// 29: the secure version is at most the width of the chip.
#[tactic(auto, unfolding(crate::specs::Check::version_test))]
pub(crate) fn test_version(head: &[u8; HEAD_SIZE], chip: ChipId) -> Result<(), ImageRefusal>
    ensures { result ≡ version_test head.now chip }
{
    if u32::from_le_bytes(head[36..40].try_into().unwrap()) > width(chip) {
        return Err(ImageRefusal::VersionTooHigh);
    }
    Ok(())
}

/// 30: the appended digest is that of all bytes before it. Only where the flag is 1 are they hashed.
#[tactic(auto, unfolding(crate::specs::Check::digest_test))]
pub(crate) fn test_digest(image: &[u8], end: usize) -> Result<(), ImageRefusal>
    requires { (HEADER_SIZE ≤ length image.now) × (end < 2 ^ 63) × (whole_length (digest_flag image.now) end ≤ length image.now) }
    ensures { result ≡ digest_test image.now end }
{
    if image[23] != 1 {
        return Ok(());
    }
    let place = padded(end);
    let appended: &[u8; DIGEST_SIZE] = image[place..place + DIGEST_SIZE].try_into().unwrap();
    compare_digest(appended, sha256::digest(&image[..place]), place)
}

/// 30, of the bytes in the digest's place and the digest of all before them.
#[tactic(auto, unfolding(crate::specs::Check::digest_compared))]
pub(crate) fn compare_digest(
    appended: &[u8; DIGEST_SIZE],
    digest: [u8; DIGEST_SIZE],
    place: usize,
) -> Result<(), ImageRefusal>
    ensures { result ≡ digest_compared appended.now digest place }
{
    if *appended != digest {
        return Err(ImageRefusal::WrongDigest { place });
    }
    Ok(())
}

/// What is known of an accepted image, of its head and where its segments end.
#[tactic(auto, unfolding(crate::specs::Check::facts_of))]
pub(crate) fn facts_of(head: &[u8; HEAD_SIZE], end: usize) -> Facts
    requires { end < 2 ^ 63 }
    ensures { result ≡ facts_of head.now end }
{
    Facts {
        length: whole_length(head[23], end),
        entry: u32::from_le_bytes(head[4..8].try_into().unwrap()),
        version: SecureVersion(u32::from_le_bytes(head[36..40].try_into().unwrap())),
        segments: head[1],
    }
}
