ghost use Rattle.std.specs.Prelude.{◌≡◌, ◌+◌, ◌≤◌, [], ◌∷◌, ◌++◌, length};
ghost use Rattle.std.specs.Fmt.{decimal};
ghost use Rattle.report_text.specs.Text.{padded};

use std::marker::Model;

/// A text of at most 256 bytes.
// kept: a buffer with a length beside it, since the library has no heap
#[derive(Clone, Copy)]
pub struct Text {
    bytes: [u8; 256],
    len: usize,
}

impl Model for Text {
    ghost use Rattle.std.specs.Prelude.{◌≡◌, ℕ, List, ◌-◌, ◌≤◌, ◌++◌, length, take, drop, replicate};
    ghost use Rattle.std.proofs.Common.{arith, sym, ap, ◌∙◌, take-append-drop, length-take-le};
    ghost use Rattle.report_text.specs.Text.{padded};

    ghost Value = { List ℕ };

    ghost view = { λ text. take text.len text.bytes };

    // the bytes behind the text are zero
    ghost invariant = { λ text. (text.len ≤ 256) × (length text.bytes ≡ 256) × (drop text.len text.bytes ≡ replicate (256 - text.len) 0) };

    ghost inverse = { λ text. record { bytes = padded text; len = length text } };

    ghost inverse_ok = { λ text h i.
        let size = length-take-le text.len text.bytes (omega (arith, h.0, h.1)) in
        record {
          bytes = (ap (λ n. take text.len text.bytes ++ replicate (256 - n) 0) size
              ∙ ap (λ rest. take text.len text.bytes ++ rest) (sym h.2)
              ∙ take-append-drop text.len text.bytes) i;
          len = size i;
        } };
}

impl Text {
    pub(crate) fn new() -> Text
        ensures { result ≡ [] }
    {
        Text {
            bytes: [0; 256],
            len: 0,
        }
    }

    /// Its bytes.
    pub fn as_bytes(&self) -> &[u8]
        ensures { result.now ≡ self.now }
    {
        &self.bytes[..self.len]
    }

    /// Its whole buffer: its bytes, and zeros after them.
    pub fn padded(&self) -> &[u8; 256]
        ensures { result.now ≡ padded self.now }
    {
        &self.bytes // with the zeros after the text
    }

    /// How many bytes it has.
    pub fn len(&self) -> usize
        ensures { result ≡ length self.now }
    {
        self.as_bytes().len()
    }

    /// Puts more text at the end.
    pub(crate) fn push_str(&mut self, more: &str)
        requires { length self.old + length more.now ≤ 256 }
        ensures text { self.new ≡ self.old ++ more.now }
        ensures size { length self.new ≡ length self.old + length more.now }
    {
        let end = self.len + more.len();
        self.bytes[self.len..end].copy_from_slice(more.as_bytes());
        self.len = end;
    }

    /// Puts a number at the end.
    // kept: `report` can't fail, and its clause `exact` holds the whole text; `write!` promises its text only where it succeeds
    #[tactic(auto, using(crate::proofs::Sizes::one_digit, crate::proofs::Sizes::one_digit_size, crate::proofs::Sizes::last_digit, crate::proofs::Sizes::last_digit_size))]
    pub(crate) fn push_decimal(&mut self, n: u32)
        requires { length self.old + length (decimal n) ≤ 256 }
        ensures text { self.new ≡ self.old ++ decimal n }
        ensures size { length self.new ≡ length self.old + length (decimal n) }
    {
        if n < 10 {
            return self.push_byte(b'0' + n as u8);
        }
        self.push_decimal(n / 10);
        self.push_byte(b'0' + (n % 10) as u8);
    }

    fn push_byte(&mut self, byte: u8)
        requires { length self.old + 1 ≤ 256 }
        ensures text { self.new ≡ self.old ++ byte ∷ [] }
        ensures size { length self.new ≡ length self.old + 1 }
    {
        self.bytes[self.len] = byte;
        self.len += 1;
    }
}
