//! A text in pieces.
ghost use Rattle.std.specs.Prelude.{◌≡◌, ◌<◌, ◌++◌, List, ℕ, [], true, length, IfOk};
ghost use Rattle.std.specs.List.{list_all};
ghost use Rattle.ion_values.specs.Within.{within};
ghost use Rattle.ion_model.specs.Read.{read_text};
ghost use Rattle.ion_text.specs.Stream.{Gives};
ghost use Rattle.ion_pieces.specs.Fronts.{EndsWhite};
ghost use Rattle.ion_pieces.specs.Pieces.{gives, led};

use crate::held::Held;
use crate::white::white_end;
use ion_text::ReadFault;
use ion_values::{OutOfMemory, Values};
use std::alloc::Global;

/// A text that is read in pieces, as far as it was taken.
///
/// A token is read once white space stands after it. If white space parts the tokens, the bytes that are held are those
/// of one token at most.
#[derive(Drop)]
pub struct PieceReader {
    depth: u32,
    held: Held,
    /// The bytes after the last white space.
    rest: Vec<u8>,
}

impl PieceReader {
    /// The reader of a text whose containers nest at most `depth` deep. It takes no memory.
    pub fn new(alloc: Global, depth: u32) -> PieceReader
        ensures { (text : List ℕ) → gives result text ≡ read_text depth text }
    {
        PieceReader {
            depth,
            held: Held::new(alloc),
            rest: Vec::new(alloc),
        }
    }

    /// The values that end in the next piece, and the reader after it.
    ///
    /// After a fault it has no more values, and still reads. Bytes that aren't UTF-8 are reported before any other
    /// fault.
    pub fn take(self, alloc: Global, piece: &[u8]) -> Result<(Values, PieceReader), OutOfMemory>
        ensures gives { IfOk result (λ next. (more : List ℕ)
            → gives self (piece.now ++ more) ≡ led next.0 (gives next.1 more)) }
        ensures within { IfOk result (λ next. list_all within next.0 ≡ true) }
    {
        let (front, rest) = piece.split_at(white_end(piece));
        let ended = self.take_white(alloc, front)?;
        let whole = ended.hold(rest)?;
        Ok(whole.hand_out(alloc))
    }

    /// Takes bytes without looking at them.
    fn hold(self, more: &[u8]) -> Result<PieceReader, OutOfMemory>
        ensures { IfOk result (λ new. (z : List ℕ) → gives self (more.now ++ z) ≡ gives new z) }
    {
        let PieceReader {
            depth,
            held,
            mut rest,
        } = self;
        rest.extend_from_slice(more)?;
        Ok(PieceReader { depth, held, rest })
    }

    /// Takes bytes of which the last is white space, or none.
    fn take_white(self, alloc: Global, front: &[u8]) -> Result<PieceReader, OutOfMemory>
        requires { 0 < length front.now → EndsWhite front.now }
        ensures { IfOk result (λ new. (more : List ℕ) → gives self (front.now ++ more) ≡ gives new more) }
    {
        if front.is_empty() {
            return Ok(self);
        }
        let PieceReader {
            depth,
            held,
            mut rest,
        } = self;
        rest.extend_from_slice(front)?;
        Ok(PieceReader {
            depth,
            held: held.take(alloc, depth, &rest)?,
            rest: Vec::new(alloc),
        })
    }

    /// The values of the top level that are complete, and the reader without them. It takes no memory.
    fn hand_out(self, alloc: Global) -> (Values, PieceReader)
        ensures led { (more : List ℕ) → gives self more ≡ led result.0 (gives result.1 more) }
        ensures within { list_all within result.0 ≡ true }
    {
        let PieceReader { depth, held, rest } = self;
        let (values, held) = held.hand_out(alloc);
        (values, PieceReader { depth, held, rest })
    }

    /// The values that are left at the end of the text, or its first fault.
    pub fn finish(self, alloc: Global) -> Result<Values, ReadFault>
        ensures gives { Gives result (gives self []) }
        ensures within { IfOk result (λ values. list_all within values ≡ true) }
    {
        let PieceReader { depth, held, rest } = self;
        let values = held.finish(alloc, depth, &rest)?;
        Ok(values)
    }
}
