//! A source over bytes in memory.
ghost use Rattle.std.specs.Prelude.{◌≡◌, Some, length};
ghost use Rattle.outside.specs.Memory.{read_answer, piece_after, source_after};
ghost use Rattle.outside.specs.FailPlan.{plan_of};

use crate::plan::{Failing, Plan};
use crate::traits::{OutFault, Source};
use std::marker::Model;

/// A source over bytes in memory. It gives all that fits into a piece.
#[derive(Drop)]
pub struct MemorySource {
    bytes: Vec<u8>,
    at: usize,
    plan: Plan,
}

impl Model for MemorySource {
    ghost use Rattle.std.specs.Prelude.{◌≤◌, drop, vec_len};
    ghost use Rattle.outside.specs.Memory.{SourceHeld};

    ghost Value = { SourceHeld };

    ghost view = { λ s. record { left = drop s.at s.bytes.items; plan = s.plan } };

    ghost invariant = { λ s. s.at ≤ vec_len s.bytes };
}

impl MemorySource {
    /// A source of these bytes, whose reads fail by this list.
    pub fn new(bytes: Vec<u8>, fails: Vec<Failing>) -> MemorySource
        ensures { result ≡ record { left = bytes.items; plan = plan_of fails.items } }
    {
        MemorySource {
            bytes,
            at: 0,
            plan: Plan::new(fails),
        }
    }
}

impl Source for MemorySource {
    ghost told = { λ s. record { left = Some s.left; faults = s.plan.used } };

    fn faults(&self) -> u64 {
        self.plan.used()
    }

    fn read(&mut self, out: &mut [u8]) -> Result<usize, OutFault>
        ensures answer { result ≡ read_answer self.old (length out.old) }
        ensures piece { out.new ≡ piece_after self.old out.old }
        ensures after { self.new ≡ source_after self.old (length out.old) }
    {
        let fails = self.plan.due().is_some();
        self.plan.count_call();
        if fails {
            return Err(OutFault::Failed);
        }
        let count = out.len().min(self.bytes.len() - self.at);
        out[..count].copy_from_slice(&self.bytes[self.at..self.at + count]);
        self.at += count;
        Ok(count)
    }
}
