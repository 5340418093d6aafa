//! The eFuse register of a chip.
ghost use Rattle.std.specs.Prelude.{◌≡◌};
ghost use Rattle.efuse.specs.Register.{width, version, raised};
ghost use Rattle.c_api.specs.Interface.{chip_of};

/// The version that a register holds.
#[unsafe(no_mangle)]
pub extern "C" fn ota_efuse_version(chip: u16, efuse: u32) -> u32
    ensures { result ≡ version (width (chip_of chip)) efuse }
{
    c_api::ota_efuse_version(chip, efuse)
}

/// The register raised to a version.
#[unsafe(no_mangle)]
pub extern "C" fn ota_efuse_raise(chip: u16, efuse: u32, to: u32) -> u32
    ensures { result ≡ raised (width (chip_of chip)) efuse to }
{
    c_api::ota_efuse_raise(chip, efuse, to)
}
