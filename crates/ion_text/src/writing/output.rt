//! The text that values are written to.
ghost use Rattle.std.specs.Prelude.{◌≡◌, [], ◌∷◌, ◌++◌, IfOk};

use super::sink::TextSink;
use base64::engine::general_purpose::STANDARD;
use containers::{OutOfMemory, Text};
use std::alloc::Global;
use std::marker::Model;

/// For how many bytes a new output has room.
const ROOM: usize = 256;

/// A growing text, which contracts see as its bytes.
#[derive(Drop)]
pub struct Output {
    text: String,
}

impl Model for Output {
    ghost use Rattle.std.specs.Prelude.{ℕ, List, string_bytes};

    ghost Value = { List ℕ };

    ghost view = { λ o. string_bytes o.text };
}

impl Output {
    /// The empty output.
    pub fn new(alloc: Global) -> Result<Output, OutOfMemory>
        ensures { IfOk result (λ o. o ≡ []) }
    {
        Ok(Output {
            text: String::with_capacity(alloc, ROOM)?,
        })
    }

    /// The text. It takes no memory.
    pub fn into_text(self) -> Text
        ensures { result ≡ self }
    {
        let Output { text } = self;
        Text::from_string(text)
    }
}

impl TextSink for Output {
    type Fault = OutOfMemory;

    ghost with_byte = { λ bytes b. bytes ++ b ∷ [] };

    #[tactic(auto, using(crate::proofs::Compared::appended))]
    fn push(&mut self, character: char) -> Result<(), OutOfMemory> {
        self.text.push(character)?;
        Ok(())
    }

    #[tactic(auto, using(crate::proofs::Compared::appended))]
    fn push_str(&mut self, more: &str) -> Result<(), OutOfMemory> {
        self.text.push_str(more)?;
        Ok(())
    }

    fn push_base64(&mut self, bytes: &[u8]) -> Result<(), OutOfMemory> {
        STANDARD.encode_string(bytes, &mut self.text)?;
        Ok(())
    }
}
