ghost use Rattle.std.specs.Prelude.{◌≡◌, true, false, length, Err, IfOk, IsTrue, MatchOption};
ghost use Rattle.std.specs.Str.{is_utf8};
ghost use Rattle.std.specs.Str.Lossy.{utf8_valid_len};
ghost use Rattle.ion_model.specs.Read as spec;
ghost use Rattle.ion_model.specs.Short.{all_short};
ghost use Rattle.ion_text.specs.Stream.{Gives};

mod frames;
mod reader;

use ion_lexer::lex;
use ion_model::Lexed;
use ion_values::{IonFault, IonKind, OutOfMemory, Values};
pub use reader::{Reader, Refused};
use simdutf8::compat::from_utf8;
use std::alloc::Global;
use thiserror::Error;

/// Why no values are read.
#[derive(Clone, Copy, Debug, PartialEq, Eq, Error)]
pub enum ReadFault {
    /// The text is refused.
    #[error("the text is refused: {0:?}")]
    Ion(IonFault),
    #[error("out of memory")]
    OutOfMemory,
}

impl From<OutOfMemory> for ReadFault {
    ghost use Rattle.std.specs.Prelude.{◌≡◌};
    ghost use Rattle.ion_text.specs.declared.stream.ReadFault.TheVariants as fails;

    ghost from_gives = { λ _ e. e ≡ fails.OutOfMemory };

    fn from(_error: OutOfMemory) -> ReadFault {
        ReadFault::OutOfMemory
    }
}

/// The values of an Ion 1.0 text whose containers nest at most `depth` deep, version markers left
/// out. No list among them, annotations included, has more members than the text has bytes. `Ion`
/// tells where the text is refused first, and why: floats, symbol ids and symbol tables aren't
/// read, and numbers have limits.
#[tactic(auto, unfolding(ion_model::specs::Read::read_text))]
pub fn read_stream(alloc: Global, bytes: &[u8], depth: u32) -> Result<Values, ReadFault>
    ensures exact { Gives result (spec.read_text depth bytes.now) }
    ensures short { IfOk result (λ values. IsTrue (all_short (length bytes.now) values)) }
{
    if let Some(at) = ill_formed(bytes) {
        return Err(refused(at, IonKind::NotUtf8));
    }
    let values = read_utf8(alloc, bytes, depth)?;
    Ok(values)
}

/// Where the first bytes begin that aren't UTF-8, if there are any.
fn ill_formed(bytes: &[u8]) -> Option<usize>
    ensures { MatchOption result (is_utf8 bytes.now ≡ true) (λ at. (is_utf8 bytes.now ≡ false)
        × (at ≡ utf8_valid_len bytes.now)) }
{
    match from_utf8(bytes) {
        Ok(_) => None,
        Err(error) => Some(error.valid_up_to()),
    }
}

/// The values of a text that is UTF-8.
fn read_utf8(alloc: Global, bytes: &[u8], depth: u32) -> Result<Values, ReadFault>
    ensures { Gives result (spec.read_utf8 depth bytes.now) }
{
    let mut reader = Reader::new(alloc);
    let mut at = 0;
    while at < bytes.len() {
        let (_, rest) = bytes.split_at(at);
        match lex(alloc, rest)? {
            Lexed::Blank(more) => at += more + 1,
            Lexed::Token(token, more) => match reader.accept(alloc, depth, token) {
                Ok(()) => at += more + 1,
                Err(Refused::Kind(kind)) => return Err(refused(at, kind)),
                Err(Refused::Memory) => return Err(ReadFault::OutOfMemory),
            },
            Lexed::Refused(kind) => return Err(refused(at, kind)),
            Lexed::Cut => return Err(refused(bytes.len(), IonKind::Unclosed)),
        }
    }
    let values = reader.finish(alloc, bytes.len())?;
    Ok(values)
}

/// A text that is refused at this place.
fn refused(at: usize, kind: IonKind) -> ReadFault
    ensures { Gives (Err result) (spec.refused at kind) }
{
    ReadFault::Ion(IonFault {
        at: at as u64,
        kind,
    })
}
