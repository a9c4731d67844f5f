//! The open containers of a text.
ghost use Rattle.std.specs.Prelude.{◌≡◌, ◌&&◌, true, IfOk};
ghost use Rattle.std.specs.List.{list_all};
ghost use Rattle.ion_values.specs.Within.{within};
ghost use Rattle.ion_model.specs.Table as table;
ghost use Rattle.ion_model.specs.Read.{finish};
ghost use Rattle.ion_text.specs.Stream.{open_of, Gives};
ghost use Rattle.ion_pieces.specs.Frames.{frame_within, frames_within, led_frame, led_open};

use containers::Sequence;
use ion_model::{Frame, Members};
use ion_text::{ReadFault, Reader};
use ion_values::Values;
use std::alloc::Global;
use std::mem;

/// The open containers of a text, whose values so far are within their ranges.
#[derive(Drop)]
pub struct Frames {
    pub reader: Reader,
    ghost within: { frames_within (open_of reader) ≡ true },
}

impl Frames {
    /// The top level of a text, before its first token. It takes no memory.
    pub fn new(alloc: Global) -> Frames
        ensures { open_of result.reader ≡ table.start }
    {
        Frames {
            reader: Reader::new(alloc),
        }
    }

    /// The containers that a reader has open.
    pub fn of(reader: Reader) -> Frames
        requires { frames_within (open_of reader) ≡ true }
        ensures { result.reader ≡ reader }
    {
        Frames { reader }
    }

    /// The values of the top level that are complete, and the containers without them. It takes no memory.
    pub fn hand_out(self, alloc: Global) -> (Values, Frames)
        ensures led { open_of self.reader ≡ led_open result.0 (open_of result.1.reader) }
        ensures within { list_all within result.0 ≡ true }
    {
        let Frames { mut reader } = self;
        let values = take_outermost(alloc, &mut reader);
        (values, Frames { reader })
    }

    /// The values that are left at the end of the text.
    pub fn finish(self, alloc: Global, end: usize) -> Result<Values, ReadFault>
        ensures gives { Gives result (finish end (open_of self.reader)) }
        ensures within { IfOk result (λ values. list_all within values ≡ true) }
    {
        let Frames { reader } = self;
        let values = reader.finish(alloc, end)?;
        Ok(values)
    }
}

/// Takes the values of the outermost container away. It takes no memory.
fn take_outermost(alloc: Global, reader: &mut Reader) -> Values
    ensures led { open_of reader.old ≡ led_open result (open_of reader.new) }
    ensures within { frames_within (open_of reader.old)
        ≡ (list_all within result && frames_within (open_of reader.new)) }
{
    match reader.outer.first_mut() {
        Some(outermost) => take_values(alloc, outermost),
        None => take_values(alloc, &mut reader.inner),
    }
}

/// Takes the values of the top level away. It takes no memory.
fn take_values(alloc: Global, frame: &mut Frame) -> Values
    ensures led { frame.old ≡ led_frame result frame.new }
    ensures within { frame_within frame.old ≡ (list_all within result && frame_within frame.new) }
{
    match &mut frame.members {
        Members::Stream(values) => mem::replace(values, Sequence::new(alloc)),
        _ => Sequence::new(alloc),
    }
}
