//! The count of an adapter's failures.
ghost use Rattle.std.specs.Prelude.{◌≡◌, ◌+◌, ◌<◌, ◌↔◌, IsTrue, IsFalse};
ghost use Rattle.std.specs.IoError.{error_kind};

use crate::traits::OutFault;
use std::io;
use std::io::ErrorKind;

/// How often an adapter has failed. At the greatest `u64` it is spent: the adapter touches nothing more.
#[derive(Clone, Copy)]
pub(crate) struct FaultCount {
    pub(super) count: u64,
}

impl FaultCount {
    pub(super) fn new() -> FaultCount
        ensures { result.count ≡ 0 }
    {
        FaultCount { count: 0 }
    }

    pub(super) fn is_spent(&self) -> bool
        ensures spent { IsTrue result ↔ (self.now.count ≡ u64.MAX) }
        ensures room { IsFalse result → self.now.count < u64.MAX }
    {
        self.count == u64::MAX
    }

    /// Counts a failure.
    pub(super) fn fail(&mut self) -> OutFault
        requires { self.old.count < u64.MAX }
        ensures fault { result ≡ OutFault.Failed }
        ensures count { self.new.count ≡ self.old.count + 1 }
    {
        self.count += 1;
        OutFault::Failed
    }

    /// The fault that stands for an error. Out of memory is no failure, and anything else is counted as one.
    pub(super) fn fault(&mut self, error: &io::Error) -> OutFault
        requires { self.old.count < u64.MAX }
        ensures memory { (result ≡ OutFault.OutOfMemory) ↔ (error_kind error.now ≡ ErrorKind.OutOfMemory) }
        ensures wanted { result ≡ OutFault.OutOfMemory → self.new ≡ self.old }
        ensures failed { result ≡ OutFault.Failed → self.new.count ≡ self.old.count + 1 }
    {
        if error.kind() == ErrorKind::OutOfMemory {
            OutFault::OutOfMemory
        } else {
            self.fail()
        }
    }
}
