//! The eFuse register of a chip.
ghost use Rattle.std.specs.Prelude.{◌≡◌};
ghost use Rattle.efuse.specs.Register.{width, version, raised};
ghost use Rattle.c_api.specs.Interface.{chip_of};

use efuse::{ChipId, SecureVersion, raise, version};

/// The version that a register holds.
pub fn ota_efuse_version(chip: u16, efuse: u32) -> u32
    ensures { result ≡ version (width (chip_of chip)) efuse }
{
    version(ChipId(chip), efuse).0
}

/// The register raised to a version.
pub fn ota_efuse_raise(chip: u16, efuse: u32, to: u32) -> u32
    ensures { result ≡ raised (width (chip_of chip)) efuse to }
{
    raise(ChipId(chip), efuse, SecureVersion(to))
}
