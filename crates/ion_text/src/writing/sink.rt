//! What values are written to, piece by piece.
ghost use Rattle.std.specs.Prelude.{◌≡◌, ℕ, true, encode_utf8, fold, OnOk};
ghost use Rattle.base64.specs.Rfc4648.{encode};
ghost use Rattle.ion_model.specs.Write.{base64_digits};

/// What takes a text piece by piece.
pub trait TextSink {
    /// Why a piece isn't taken.
    type Fault;

    /// The sink after one more byte.
    ghost with_byte: { Self → ℕ → Self };

    /// Takes a character.
    fn push(&mut self, character: char) -> Result<(), Self::Fault>
        ensures { OnOk result (self.new ≡ fold with_byte self.old (encode_utf8 character)) };

    /// Takes a text.
    fn push_str(&mut self, more: &str) -> Result<(), Self::Fault>
        ensures { OnOk result (self.new ≡ fold with_byte self.old more.now) };

    /// Takes bytes in base64, with padding.
    fn push_base64(&mut self, bytes: &[u8]) -> Result<(), Self::Fault>
        ensures { OnOk result (self.new ≡ fold with_byte self.old (encode base64_digits 61 true bytes.now)) };
}
