//! What holds of the register: each law is proved, and nothing here does anything.
ghost use Rattle.efuse.specs.Register.{AboveLaw, RaiseLaw};
ghost use Rattle.efuse.specs.Example.{Widths, Raised0x0B, RaisedPastTheWidth, Versions16, Raised16};

/// Bits above the width are not counted.
#[tactic(auto, using(crate::proofs::Counting::above_law))]
pub fn above_law()
    ensures { AboveLaw }
{}

/// What raising is, bit by bit.
#[tactic(auto, using(crate::proofs::RaiseLaw::raise_law))]
pub fn raise_law()
    ensures { RaiseLaw }
{}

/// The worked examples of the register.
#[tactic(auto, using(crate::proofs::Examples::widths, crate::proofs::Examples::raised_0x0b, crate::proofs::Examples::raised_past_the_width, crate::proofs::Examples::versions_16, crate::proofs::Examples::raised_16))]
pub fn examples()
    ensures widths { Widths }
    ensures raised_0x0b { Raised0x0B }
    ensures raised_past_the_width { RaisedPastTheWidth }
    ensures versions_16 { Versions16 }
    ensures raised_16 { Raised16 }
{}
