ghost use Rattle.std.specs.Prelude.{◌≡◌};
ghost use Rattle.app_image.specs.Refusal.{place_of};

use otadata::Numbered;
use std::error::Error;
use std::fmt;

/// Why an image is refused: the first of these that applies, in this order.
#[derive(Clone, Copy, Debug, PartialEq, Eq, PartialOrd, Ord, Hash)]
pub enum ImageRefusal {
    TooShort,
    BadMagic,
    BadSegmentCount,
    WrongChip,
    WrongRevision,
    BadDigestFlag,
    /// A segment passes the end of the image, or has a length that is no multiple of 4; where its header is.
    BadSegment { header: usize },
    NoDescriptor,
    /// Padding or digest passes the end of the image; where the segments end.
    CutShort { end: usize },
    WrongChecksum { place: usize },
    VersionTooHigh,
    WrongDigest { place: usize },
}

impl Numbered for ImageRefusal {
    ghost use Rattle.app_image.specs.Refusal.{number_of};

    ghost number = { number_of };

    fn number(self) -> u32 {
        match self {
            ImageRefusal::TooShort => 20,
            ImageRefusal::BadMagic => 21,
            ImageRefusal::BadSegmentCount => 22,
            ImageRefusal::WrongChip => 23,
            ImageRefusal::WrongRevision => 31,
            ImageRefusal::BadDigestFlag => 24,
            ImageRefusal::BadSegment { .. } => 25,
            ImageRefusal::NoDescriptor => 26,
            ImageRefusal::CutShort { .. } => 27,
            ImageRefusal::WrongChecksum { .. } => 28,
            ImageRefusal::VersionTooHigh => 29,
            ImageRefusal::WrongDigest { .. } => 30,
        }
    }
}

impl ImageRefusal {
    /// The place of the fault in the image, in bytes.
    pub fn place(self) -> usize
        ensures { result ≡ place_of self }
    {
        match self {
            ImageRefusal::TooShort | ImageRefusal::BadMagic => 0,
            ImageRefusal::BadSegmentCount => 1,
            ImageRefusal::WrongChip => 12,
            ImageRefusal::WrongRevision => 15,
            ImageRefusal::BadDigestFlag => 23,
            ImageRefusal::BadSegment { header } => header,
            ImageRefusal::NoDescriptor => 32,
            ImageRefusal::CutShort { end } => end,
            ImageRefusal::WrongChecksum { place } => place,
            ImageRefusal::VersionTooHigh => 36,
            ImageRefusal::WrongDigest { place } => place,
        }
    }
}

impl fmt::Display for ImageRefusal {
    ghost use Rattle.std.specs.Prelude.{Some};
    ghost use Rattle.app_image.specs.Refusal.{text_of};

    ghost output = { λ refusal. Some (text_of refusal) };

    fn fmt<W: fmt::Write>(&self, f: &mut fmt::Formatter<W>) -> fmt::Result {
        write!(
            f,
            "image refused with {} at {}",
            self.number(),
            self.place()
        )
    }
}

impl Error for ImageRefusal {}
