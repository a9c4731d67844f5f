//! What is known of a text so far.
ghost use Rattle.std.specs.Prelude.{◌≡◌, ◌++◌, ℕ, List, true, IfOk};
ghost use Rattle.std.specs.List.{list_all};
ghost use Rattle.std.specs.Str.{is_utf8};
ghost use Rattle.ion_values.specs.Within.{within};
ghost use Rattle.ion_model.specs.Read.{read_text, run};
ghost use Rattle.ion_text.specs.Stream.{open_of, Gives};
ghost use Rattle.ion_pieces.specs.Fronts.{EndsWhite};
ghost use Rattle.ion_pieces.specs.Pieces.{answer_in, first_fault, held_gives, led};

use crate::checks::{check_utf8, fault, sum};
use crate::frames::Frames;
use crate::tokens::{Stop, read_tokens};
use containers::Sequence;
use ion_text::ReadFault;
use ion_values::{IonFault, IonKind, OutOfMemory, Values};
use std::alloc::Global;

/// What the tokens so far make of a text.
#[derive(Drop)]
pub enum Known {
    /// These containers are open.
    Open(Frames),
    /// A token is refused. Bytes after it may still be found not to be UTF-8.
    Refused(IonFault),
    /// Bytes aren't UTF-8.
    NotUtf8(IonFault),
}

/// What is known of a text up to the last white space that was seen.
#[derive(Drop)]
pub struct Held {
    pub known: Known,
    /// The offset of the bytes.
    pub at: usize,
    /// The bytes after the last token, which are UTF-8.
    pub bytes: Vec<u8>,
    /// How many bytes there have to be before tokens are tried again.
    pub wait: usize,
}

impl Held {
    /// Nothing, at the start of a text. It takes no memory.
    pub fn new(alloc: Global) -> Held
        ensures { (depth : ℕ) (text : List ℕ) → held_gives depth result text ≡ read_text depth text }
    {
        Held {
            known: Known::Open(Frames::new(alloc)),
            at: 0,
            bytes: Vec::new(alloc),
            wait: 0,
        }
    }

    /// Takes more bytes, the last of which is white space.
    pub fn take(self, alloc: Global, depth: u32, more: &[u8]) -> Result<Held, OutOfMemory>
        requires { EndsWhite more.now }
        ensures { IfOk result (λ new. (z : List ℕ) → held_gives depth self (more.now ++ z) ≡ held_gives depth new z) }
    {
        let end = sum(self.at, self.bytes.len())?;
        match check_utf8(end, more) {
            Ok(()) => {
                let new = self.take_utf8(alloc, depth, more)?;
                Ok(new)
            }
            Err(ReadFault::Ion(fault)) => Ok(self.ill_formed(alloc, fault)),
            Err(ReadFault::OutOfMemory) => Err(OutOfMemory),
        }
    }

    /// Goes over more bytes that aren't UTF-8, with this fault unless such bytes came before.
    fn ill_formed(self, alloc: Global, fault: IonFault) -> Held
        ensures { (depth : ℕ) (z : List ℕ) → held_gives depth result z ≡ first_fault self.known fault }
    {
        let first = match self.known {
            Known::NotUtf8(first) => first,
            _ => fault,
        };
        Held {
            known: Known::NotUtf8(first),
            at: 0,
            bytes: Vec::new(alloc),
            wait: 0,
        }
    }

    /// Takes more bytes, which are UTF-8.
    fn take_utf8(self, alloc: Global, depth: u32, more: &[u8]) -> Result<Held, OutOfMemory>
        requires utf8 { is_utf8 more.now ≡ true }
        requires white { EndsWhite more.now }
        ensures { IfOk result (λ new. (z : List ℕ) → held_gives depth self (more.now ++ z) ≡ held_gives depth new z) }
    {
        let Held {
            known,
            at,
            bytes,
            wait,
        } = self;
        let bytes = joined(bytes, more)?;
        match known {
            Known::Open(frames) if bytes.len() >= wait => {
                let read = read_open(alloc, depth, frames, at, &bytes)?;
                Ok(read)
            }
            Known::Open(frames) => Ok(Held {
                known: Known::Open(frames),
                at,
                bytes,
                wait,
            }),
            known => Ok(Held {
                known,
                at: sum(at, bytes.len())?,
                bytes: Vec::new(alloc),
                wait: 0,
            }),
        }
    }

    /// The values that are left if the text ends after these bytes, or its first fault.
    pub fn finish(self, alloc: Global, depth: u32, rest: &[u8]) -> Result<Values, ReadFault>
        ensures gives { Gives result (held_gives depth self rest.now) }
        ensures within { IfOk result (λ values. list_all within values ≡ true) }
    {
        let Held {
            known,
            at,
            bytes,
            ..
        } = self;
        if let Known::NotUtf8(fault) = known {
            return Err(ReadFault::Ion(fault));
        }
        check_utf8(sum(at, bytes.len())?, rest)?;
        match known {
            Known::Open(frames) => {
                let bytes = joined(bytes, rest)?;
                finish_open(alloc, depth, frames, at, &bytes)
            }
            Known::Refused(fault) | Known::NotUtf8(fault) => Err(ReadFault::Ion(fault)),
        }
    }

    /// The values of the top level that are complete, and the rest without them. It takes no memory.
    pub fn hand_out(self, alloc: Global) -> (Values, Held)
        ensures led { (depth : ℕ) (z : List ℕ) → held_gives depth self z ≡ led result.0 (held_gives depth result.1 z) }
        ensures within { list_all within result.0 ≡ true }
    {
        let Held {
            known,
            at,
            bytes,
            wait,
        } = self;
        let (values, known) = known.hand_out(alloc);
        (
            values,
            Held {
                known,
                at,
                bytes,
                wait,
            },
        )
    }
}

impl Known {
    /// The values of the top level that are complete, none after a fault, and the rest without them.
    fn hand_out(self, alloc: Global) -> (Values, Known)
        ensures led { (depth at : ℕ) (held z : List ℕ)
            → answer_in depth self at held z ≡ led result.0 (answer_in depth result.1 at held z) }
        ensures within { list_all within result.0 ≡ true }
    {
        match self {
            Known::Open(frames) => {
                let (values, frames) = frames.hand_out(alloc);
                (values, Known::Open(frames))
            }
            known => (Sequence::new(alloc), known),
        }
    }
}

/// The bytes with more appended.
fn joined(mut bytes: Vec<u8>, more: &[u8]) -> Result<Vec<u8>, OutOfMemory>
    ensures { IfOk result (λ all. all.items ≡ bytes.items ++ more.now) }
{
    bytes.extend_from_slice(more)?;
    Ok(bytes)
}

/// Takes the tokens in front of the bytes, the last of which is white space, while these containers are open.
fn read_open(
    alloc: Global,
    depth: u32,
    frames: Frames,
    at: usize,
    bytes: &[u8],
) -> Result<Held, OutOfMemory>
    requires { EndsWhite bytes.now }
    ensures { IfOk result (λ new. (z : List ℕ)
        → answer_in depth (Known.Open frames) at bytes.now z ≡ held_gives depth new z) }
{
    match read_tokens(alloc, depth, frames, bytes, false)? {
        Stop::Waits { frames, passed } => {
            let (_, left) = bytes.split_at(passed);
            Ok(Held {
                known: Known::Open(frames),
                at: sum(at, passed)?,
                bytes: Vec::from_slice(alloc, left)?,
                wait: left.len().saturating_mul(2),
            })
        }
        Stop::Refused { place, kind } => Ok(Held {
            known: Known::Refused(fault(sum(at, place)?, kind)),
            at: sum(at, bytes.len())?,
            bytes: Vec::new(alloc),
            wait: 0,
        }),
    }
}

/// The values that are left if the text ends after the bytes, or its first fault. These containers are open before
/// the bytes.
fn finish_open(
    alloc: Global,
    depth: u32,
    frames: Frames,
    at: usize,
    bytes: &[u8],
) -> Result<Values, ReadFault>
    ensures gives { Gives result (run depth 0 at (open_of frames.reader) bytes.now) }
    ensures within { IfOk result (λ values. list_all within values ≡ true) }
{
    match read_tokens(alloc, depth, frames, bytes, true)? {
        Stop::Waits { frames, passed } if passed == bytes.len() => {
            frames.finish(alloc, sum(at, passed)?)
        }
        Stop::Waits { .. } => {
            let end = sum(at, bytes.len())?;
            Err(ReadFault::Ion(fault(end, IonKind::Unclosed)))
        }
        Stop::Refused { place, kind } => Err(ReadFault::Ion(fault(sum(at, place)?, kind))),
    }
}
