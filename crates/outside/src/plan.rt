//! The calls of a form in memory that are to fail.
ghost use Rattle.std.specs.Prelude.{◌≡◌, ◌≤◌};

use std::marker::Model;

/// One call that is to fail: `passes` calls by `&mut` are let through, and the next one fails.
#[derive(Clone, Copy, Debug, PartialEq, Eq)]
pub struct Failing {
    /// How many calls pass before the one that fails.
    pub passes: u64,
    /// How many bytes of its piece a failing append leaves. A failing cut is done where this is not 0. At
    /// other calls it means nothing.
    pub kept: u64,
}

/// The calls that are still to fail.
#[derive(Drop)]
pub(crate) struct Plan {
    fails: Vec<Failing>,
    used: usize,
}

impl Model for Plan {
    ghost use Rattle.std.specs.Prelude.{◌≤◌, drop, vec_len};
    ghost use Rattle.outside.specs.FailPlan.{FailPlan};

    ghost Value = { FailPlan };

    ghost view = { λ p. record { coming = drop p.used p.fails.items; used = p.used } };

    ghost invariant = { λ p. p.used ≤ vec_len p.fails };
}

impl Plan {
    ghost use Rattle.outside.specs.FailPlan.{plan_of, due, after_call};

    pub(crate) fn new(fails: Vec<Failing>) -> Plan
        ensures { result ≡ plan_of fails.items }
    {
        Plan { fails, used: 0 }
    }

    /// How many entries are used up.
    pub(crate) fn used(&self) -> u64
        ensures { result ≡ self.now.used }
    {
        self.used as u64
    }

    /// The entry that fails the next call, if one does.
    pub(crate) fn due(&self) -> Option<Failing>
        ensures { result ≡ due self.now }
    {
        let entry = self.fails.get(self.used)?;
        if entry.passes == 0 {
            Some(*entry)
        } else {
            None
        }
    }

    /// Counts a call.
    pub(crate) fn count_call(&mut self)
        ensures { self.new ≡ after_call self.old }
    {
        if self.used < self.fails.len() {
            if self.fails[self.used].passes == 0 {
                self.used += 1;
            } else {
                self.fails[self.used].passes -= 1;
            }
        }
    }
}
