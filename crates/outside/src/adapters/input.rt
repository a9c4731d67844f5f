//! A source over a reader.
ghost use Rattle.std.specs.Prelude.{◌≡◌, ◌<◌, None, IsErrOf, OnErr};
ghost use Rattle.std.specs.Io.{ReadsAtMost};
ghost use Rattle.std.specs.Io.KnownBytes.{ReadConsumes};
ghost use Rattle.outside.specs.Causes.{HasCause};

use super::faults::FaultCount;
use super::transfers;
use crate::traits::{OutFault, Source};
use std::io::Read;

/// A source over a reader, as standard input. It tells nothing of its content; of a reader whose bytes are known its
/// own clauses say what it took.
#[derive(Drop)]
pub struct InputSource<R> {
    inner: R,
    faults: FaultCount,
}

impl<R> InputSource<R> {
    /// A source over this reader, which has not failed yet.
    pub fn new(inner: R) -> InputSource<R>
        ensures { result ≡ record { inner = inner; faults = record { count = 0 } } }
    {
        InputSource {
            inner,
            faults: FaultCount::new(),
        }
    }
}

impl<R: Read> Source for InputSource<R> {
    ghost told = { λ s. record { left = None; faults = s.faults.count } };

    fn faults(&self) -> u64 {
        self.faults.count
    }

    fn read(&mut self, out: &mut [u8]) -> Result<usize, OutFault>
        ensures bound { ReadsAtMost result out.new }
        ensures bytes { ReadConsumes (R.remaining self.old.inner) (R.remaining self.new.inner) result out.new }
        ensures lent { OnErr result (out.new ≡ out.old) }
        ensures cause { HasCause self.old.faults.count self.new.faults.count result }
        ensures spent { self.old.faults.count ≡ u64.MAX → IsErrOf result OutFault.OutOfMemory × (self.new ≡ self.old) }
    {
        if self.faults.is_spent() {
            return Err(OutFault::OutOfMemory);
        }
        match transfers::read(&mut self.inner, out) {
            Ok(count) => Ok(count),
            Err(error) => Err(self.faults.fault(&error)),
        }
    }
}
