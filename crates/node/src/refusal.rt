ghost use Rattle.std.specs.Prelude.{◌≡◌};
ghost use Rattle.node.specs.declared.refusal.Refusal.TheVariants.{BadList as TheList, BadImage};

use app_image::ImageRefusal;
use otadata::Numbered;
use partitions::BadList;
use std::error::Error;
use std::fmt;

/// Why a call on a node is refused, in the order of the numbers 1 to 11.
#[derive(Clone, Copy, Debug, PartialEq, Eq)]
pub enum Refusal {
    /// The list, or the length of the flash, breaks the rules.
    BadList,
    /// Otadata is not two sectors long.
    WrongSize,
    /// Anti-rollback without rollback, or with a factory entry.
    BadSettings,
    /// The list has no such slot.
    NoSuchSlot,
    /// The app's image is refused, for this reason.
    BadImage(ImageRefusal),
    /// The app's version is below that of the register.
    BelowEfuse,
    /// The new record would need a sequence above the last.
    SequenceSpent,
    /// No record that counts names the slot.
    NotNamed,
    /// Boot would find nothing to start.
    NoFallback,
    /// Boot finds nothing to start.
    NothingBootable,
    /// The active record is pending.
    ActivePending,
}

impl Numbered for Refusal {
    ghost use Rattle.node.specs.Refusal.{number_of};

    ghost number = { number_of };

    fn number(self) -> u32 {
        match self {
            Refusal::BadList => 1,
            Refusal::WrongSize => 2,
            Refusal::BadSettings => 3,
            Refusal::NoSuchSlot => 4,
            Refusal::BadImage(_) => 5,
            Refusal::BelowEfuse => 6,
            Refusal::SequenceSpent => 7,
            Refusal::NotNamed => 8,
            Refusal::NoFallback => 9,
            Refusal::NothingBootable => 10,
            Refusal::ActivePending => 11,
        }
    }
}

impl From<BadList> for Refusal {
    ghost from_gives = { λ _ refusal. refusal ≡ TheList };

    fn from(_: BadList) -> Refusal {
        Refusal::BadList
    }
}

impl From<ImageRefusal> for Refusal {
    ghost from_gives = { λ image refusal. refusal ≡ BadImage image };

    fn from(image: ImageRefusal) -> Refusal {
        Refusal::BadImage(image)
    }
}

impl fmt::Display for Refusal {
    ghost use Rattle.std.specs.Prelude.{Some};
    ghost use Rattle.node.specs.Refusal.{name_of};

    ghost output = { λ refusal. Some (name_of refusal) };

    fn fmt<W: fmt::Write>(&self, f: &mut fmt::Formatter<W>) -> fmt::Result {
        f.write_str(match self {
            Refusal::BadList => "bad partition list",
            Refusal::WrongSize => "wrong size",
            Refusal::BadSettings => "settings that contradict each other",
            Refusal::NoSuchSlot => "no such slot",
            Refusal::BadImage(_) => "image refused",
            Refusal::BelowEfuse => "version below the eFuse version",
            Refusal::SequenceSpent => "no sequence left",
            Refusal::NotNamed => "slot not named",
            Refusal::NoFallback => "no app to fall back to",
            Refusal::NothingBootable => "nothing bootable",
            Refusal::ActivePending => "active record pending",
        })
    }
}

impl Error for Refusal {}

/// Why a call that may raise the register is refused, with the register as it was given, so that a caller takes the register from the
/// reply in every case.
#[derive(Clone, Copy, Debug, PartialEq, Eq)]
pub struct Refused {
    pub refusal: Refusal,
    pub register: u32,
}

impl Numbered for Refused {
    ghost use Rattle.node.specs.Refused.{number_of_refused};

    ghost number = { number_of_refused };

    fn number(self) -> u32 {
        self.refusal.number()
    }
}

impl fmt::Display for Refused {
    ghost use Rattle.std.specs.Prelude.{Some};
    ghost use Rattle.node.specs.Refusal.{name_of};

    ghost output = { λ refused. Some (name_of refused.refusal) };

    fn fmt<W: fmt::Write>(&self, f: &mut fmt::Formatter<W>) -> fmt::Result {
        self.refusal.fmt(f)
    }
}

impl Error for Refused {}
