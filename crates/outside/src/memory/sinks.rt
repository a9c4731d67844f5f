//! A sink into memory.
ghost use Rattle.std.specs.Prelude.{◌≡◌, ◌⊎◌, [], Some, IsErrOf};
ghost use Rattle.outside.specs.Memory.{write_answer, sink_after};
ghost use Rattle.outside.specs.FailPlan.{plan_of};

use crate::plan::{Failing, Plan};
use crate::traits::{OutFault, Sink};
use std::alloc::Global;
use std::marker::Model;

/// A sink into memory. It takes each piece whole. A write that wants memory leaves the list of failing calls as it was.
#[derive(Drop)]
pub struct MemorySink {
    bytes: Vec<u8>,
    plan: Plan,
}

impl Model for MemorySink {
    ghost use Rattle.outside.specs.Memory.{SinkHeld};

    ghost Value = { SinkHeld };

    ghost view = { λ s. record { written = s.bytes.items; plan = s.plan } };
}

impl MemorySink {
    /// A sink that holds nothing, whose writes fail by this list.
    pub fn new(alloc: Global, fails: Vec<Failing>) -> MemorySink
        ensures { result ≡ record { written = []; plan = plan_of fails.items } }
    {
        MemorySink {
            bytes: Vec::new(alloc),
            plan: Plan::new(fails),
        }
    }

    /// The bytes that were written.
    pub fn written(&self) -> &[u8]
        ensures { result.now ≡ self.now.written }
    {
        self.bytes.as_slice()
    }
}

impl Sink for MemorySink {
    ghost told = { λ s. record { written = Some s.written; faults = s.plan.used } };

    fn faults(&self) -> u64 {
        self.plan.used()
    }

    fn write(&mut self, piece: &[u8]) -> Result<usize, OutFault>
        ensures wanted { IsErrOf result OutFault.OutOfMemory → self.new ≡ self.old }
        ensures done { IsErrOf result OutFault.OutOfMemory
            ⊎ ((result ≡ write_answer self.old piece.now) × (self.new ≡ sink_after self.old piece.now)) }
    {
        if self.plan.due().is_some() {
            self.plan.count_call();
            return Err(OutFault::Failed);
        }
        self.bytes.extend_from_slice(piece)?;
        self.plan.count_call();
        Ok(piece.len())
    }
}
