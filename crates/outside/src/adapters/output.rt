//! A sink over a writer.
ghost use Rattle.std.specs.Prelude.{◌≡◌, ◌<◌, None, IsErrOf, IfOk, length};
ghost use Rattle.std.specs.Io.{WritesAtMost};
ghost use Rattle.std.specs.Io.KnownBytes.{WriteAppends};
ghost use Rattle.outside.specs.Causes.{HasCause};

use super::faults::FaultCount;
use super::retry;
use crate::traits::{OutFault, Sink};
use std::io::Write;

/// A sink over a writer, as standard output. It tells nothing of its content; of a writer whose bytes are known its
/// own clauses say what it gave.
#[derive(Drop)]
pub struct OutputSink<W> {
    inner: W,
    faults: FaultCount,
}

impl<W> OutputSink<W> {
    /// A sink over this writer, which has not failed yet.
    pub fn new(inner: W) -> OutputSink<W>
        ensures { result ≡ record { inner = inner; faults = record { count = 0 } } }
    {
        OutputSink {
            inner,
            faults: FaultCount::new(),
        }
    }
}

impl<W: Write> Sink for OutputSink<W> {
    ghost told = { λ s. record { written = None; faults = s.faults.count } };

    fn faults(&self) -> u64 {
        self.faults.count
    }

    /// A writer that takes nothing of a piece that is not empty has failed.
    fn write(&mut self, piece: &[u8]) -> Result<usize, OutFault>
        ensures bound { WritesAtMost result piece.now }
        ensures some { IfOk result (λ taken. 0 < length piece.now → 0 < taken) }
        ensures bytes { WriteAppends (W.contents self.old.inner) (W.contents self.new.inner) result piece.now }
        ensures cause { HasCause self.old.faults.count self.new.faults.count result }
        ensures spent { self.old.faults.count ≡ u64.MAX → IsErrOf result OutFault.OutOfMemory × (self.new ≡ self.old) }
    {
        if self.faults.is_spent() {
            return Err(OutFault::OutOfMemory);
        }
        match retry::write(&mut self.inner, piece) {
            Ok(0) if !piece.is_empty() => Err(self.faults.fail()),
            Ok(taken) => Ok(taken),
            Err(error) => Err(self.faults.fault(&error)),
        }
    }
}
