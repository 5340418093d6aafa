//! The eFuse register of a chip: the secure version that it holds, and raising it.
#![tactic(auto)]

ghost use Rattle.std.specs.Prelude.{◌≡◌};
ghost use Rattle.efuse.specs.Register.{width, version, raised};

pub mod laws;

/// A chip id, as the settings give it and an image's header.
#[derive(Clone, Copy, Debug, PartialEq, Eq, PartialOrd, Ord, Hash)]
pub struct ChipId(pub u16);

/// A secure version: that of an app, or that of the register.
#[derive(Clone, Copy, Debug, PartialEq, Eq, PartialOrd, Ord, Hash)]
pub struct SecureVersion(pub u32);

/// The number of bits of the register that count, the lowest ones: 32 on the ESP32, 16 on every other chip.
#[tactic(auto, unfolding(crate::specs::Register::width))]
pub fn width(chip: ChipId) -> u32
    ensures { result ≡ width chip }
{
    if chip.0 == 0 { 32 } else { 16 }
}

/// The version that a register holds: the number of ones among the bits that count.
#[tactic(auto, using(crate::proofs::Widths::width_within, crate::proofs::Widths::ones_counted))]
pub fn version(chip: ChipId, register: u32) -> SecureVersion
    ensures { result.0 ≡ version (width chip) register }
{
    let counted = register & (u32::MAX >> (32 - width(chip)));
    SecureVersion(counted.count_ones())
}

/// The register raised to a version: its lowest clear bits are set until it holds that version, or none that counts is clear.
#[tactic(auto, using(crate::proofs::Turn::shift_fits, crate::proofs::Turn::bit_fits, crate::proofs::Turn::bit_counts, crate::proofs::Turn::bit_right, crate::proofs::Raising::raise_end))]
pub fn raise(chip: ChipId, register: u32, to: SecureVersion) -> u32
    ensures { result ≡ raised (width chip) register to.0 }
{
    let goal = to.0.min(width(chip));
    let mut raised = register;
    // kept: raising sets the lowest clear bit, found by the trailing zeros of the complement, until the version is reached
    while version(chip, raised).0 < goal {
        raised |= 1 << (!raised).trailing_zeros();
    }
    raised
}
