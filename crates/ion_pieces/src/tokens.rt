//! The tokens in front of a text whose rest isn't there yet.
ghost use Rattle.std.specs.Prelude.{◌≡◌, ◌≤◌, true, IfOk};
ghost use Rattle.ion_model.specs.Spans.{span_of};
ghost use Rattle.ion_text.specs.Stream.{open_of};
ghost use Rattle.ion_pieces.specs.Frames.{frames_within};
ghost use Rattle.ion_pieces.specs.Fronts.{may_go_on, IsFront, Stands, Stops, WaitsWith};

use crate::frames::Frames;
use ion_lexer::lex;
use ion_model::Lexed;
use ion_text::{Reader, Refused};
use ion_values::{IonKind, OutOfMemory};
use std::alloc::Global;

/// Where the tokens in front of a text end.
#[derive(Drop)]
pub enum Stop {
    /// The token at offset `passed` may go on after the front.
    Waits { frames: Frames, passed: usize },
    /// The token at offset `place` is refused.
    Refused { place: usize, kind: IonKind },
}

/// The token in front, or `Cut` if it may go on after these bytes. If `whole` is set nothing follows them.
fn lex_front(alloc: Global, bytes: &[u8], whole: bool) -> Result<Lexed, OutOfMemory>
    requires { IsFront whole bytes.now }
    ensures { IfOk result (λ l. Stands whole bytes.now l) }
{
    let lexed = lex(alloc, bytes)?;
    if !whole && may_go_on(&lexed, bytes.len()) {
        return Ok(Lexed::Cut);
    }
    Ok(lexed)
}

/// Whether a comment ends where a text of length `len` ends.
fn may_go_on(lexed: &Lexed, len: usize) -> bool
    requires { span_of lexed.now ≤ len }
    ensures { result ≡ may_go_on lexed.now len }
{
    match lexed {
        Lexed::Blank(more) => *more > 0 && *more + 1 == len,
        _ => false,
    }
}

/// Takes the tokens in front, up to the first that may go on after these bytes.
pub fn read_tokens(
    alloc: Global,
    depth: u32,
    frames: Frames,
    bytes: &[u8],
    whole: bool,
) -> Result<Stop, OutOfMemory>
    requires { IsFront whole bytes.now }
    ensures { IfOk result (λ stop. Stops depth (open_of frames.reader) whole bytes.now stop) }
{
    let Frames { mut reader } = frames;
    let mut at = 0;
    'tokens: while at < bytes.len() {
        let (_, rest) = bytes.split_at(at);
        match lex_front(alloc, rest, whole)? {
            Lexed::Blank(more) => at += more + 1,
            Lexed::Token(token, more) => match reader.accept(alloc, depth, token) {
                Ok(()) => at += more + 1,
                Err(Refused::Kind(kind)) => return Ok(Stop::Refused { place: at, kind }),
                Err(Refused::Memory) => return Err(OutOfMemory),
            },
            Lexed::Refused(kind) => return Ok(Stop::Refused { place: at, kind }),
            Lexed::Cut => return Ok(waits(reader, at)),
        }
    }
    Ok(waits(reader, at))
}

/// The containers that are open after the first `passed` bytes.
fn waits(reader: Reader, passed: usize) -> Stop
    requires { frames_within (open_of reader) ≡ true }
    ensures { WaitsWith reader passed result }
{
    Stop::Waits {
        frames: Frames::of(reader),
        passed,
    }
}
