//! A text that values are compared with while they are written.
ghost use Rattle.std.specs.Prelude.{◌≡◌, ◌≤◌, [], Some, true, fold, length, IsTrue, ◌↔◌};
ghost use Rattle.base64.specs.Rfc4648.{encode};
ghost use Rattle.ion_model.specs.Write.{base64_digits};
ghost use Rattle.ion_text.specs.Comparing.{without};

use super::sink::TextSink;
use base64::engine::general_purpose::STANDARD;
use std::convert::Infallible;
use std::marker::Model;

/// How many bytes are encoded at once: a multiple of three, so that only the last of them are padded.
const GROUP: usize = 48;

/// How many digits they have.
const DIGITS: usize = 64;

/// What is left of an expected text. Contracts see its bytes, or `None` after a piece that differs.
#[derive(Drop)]
pub struct Comparison<'a> {
    rest: &'a [u8],
    agrees: bool,
}

impl<'a> Model for Comparison<'a> {
    ghost use Rattle.std.specs.Prelude.{ℕ, List, Option, Some, None, if◌then◌else◌};

    ghost Value = { Option (List ℕ) };

    ghost view = { λ c. if c.agrees then Some c.rest.now else None };
}

impl<'a> Comparison<'a> {
    /// The comparison with the text, of which all is left.
    pub fn new(text: &'a [u8]) -> Comparison<'a>
        ensures { result ≡ Some text.now }
    {
        Comparison {
            rest: text,
            agrees: true,
        }
    }

    /// Whether all pieces agreed and nothing is left.
    pub fn is_at_end(&self) -> bool
        ensures { IsTrue result ↔ (self.now ≡ Some []) }
    {
        self.agrees && self.rest.is_empty()
    }

    /// Compares a piece with what is left, and steps over it.
    fn step_over(&mut self, piece: &[u8])
        ensures { self.new ≡ fold without self.old piece.now }
    {
        match self.rest.strip_prefix(piece) {
            Some(rest) => self.rest = rest,
            None => self.agrees = false,
        }
    }

    /// Compares bytes in base64 with what is left, and steps over them.
    fn step_over_group(&mut self, group: &[u8])
        requires { length group.now ≤ 48 }
        ensures { self.new ≡ fold without self.old (encode base64_digits 61 true group.now) }
    {
        let mut room = [0; DIGITS];
        let Ok(count) = STANDARD.encode_slice(group, &mut room) else {
            unreachable!();
        };
        self.step_over(&room[..count]);
    }
}

impl<'a> TextSink for Comparison<'a> {
    type Fault = Infallible;

    ghost with_byte = { without };

    fn push(&mut self, character: char) -> Result<(), Infallible> {
        let mut room = [0; 4];
        self.step_over(character.encode_utf8(&mut room).as_bytes());
        Ok(())
    }

    fn push_str(&mut self, more: &str) -> Result<(), Infallible> {
        self.step_over(more.as_bytes());
        Ok(())
    }

    fn push_base64(&mut self, bytes: &[u8]) -> Result<(), Infallible> {
        let mut done = 0;
        'groups: while done < bytes.len() {
            let end = done + (bytes.len() - done).min(GROUP);
            self.step_over_group(&bytes[done..end]);
            done = end;
        }
        Ok(())
    }
}
