ghost use Rattle.std.specs.Prelude.{◌≡◌, ◌+◌, ◌-◌, ◌^◌, min};
ghost use Rattle.std.specs.declared.cmp.Ordering.{Ordering};
ghost use Rattle.std.specs.declared.cmp.Ordering.TheVariants.{Equal};
ghost use Rattle.std.specs.Ordering.{nat_cmp};
ghost use Rattle.std.specs.Cmp.{IsTotalOrder, nat_cmp_total};
ghost use Rattle.std.specs.Cmp.Lexicographic.{slice_cmp, nat_list_cmp_total};
ghost use Rattle.ion_values.specs.Keys.{compare_keys};
ghost use Rattle.ion_values.specs.KeyOrder.{keys_total};
ghost use Rattle.pmap.specs.KeyOrder.{same_number, same_document, documents_total, same_table, tables_total, same_bytes, same_key};

use ion_values::{Key, Text};
use ql_types::{DocId, Steps, TableId};
use std::cmp::Ordering;

/// A type in one total order, in which only the same values are equal.
pub trait Keyed {
    ghost order: { Self → Self → Ordering };

    /// How the value compares to the other one. It adds one to the counter, which stands still at its type's end.
    fn against(&self, other: &Self, steps: &mut Steps) -> Ordering
        ensures answer { result ≡ order self.now other.now }
        ensures counted { steps.new.taken ≡ min (steps.old.taken + 1) (2 ^ 64 - 1) };

    ghost total: { IsTotalOrder order };

    ghost same: { (a b : Self) → order a b ≡ Equal → a ≡ b };
}

fn tick(steps: &mut Steps)
    ensures { steps.new.taken ≡ min (steps.old.taken + 1) (2 ^ 64 - 1) }
{
    steps.taken = steps.taken.saturating_add(1);
}

impl Keyed for u64 {
    ghost order = { nat_cmp };

    ghost total = { nat_cmp_total };

    ghost same = { same_number };

    fn against(&self, other: &u64, steps: &mut Steps) -> Ordering {
        tick(steps);
        self.cmp(other)
    }
}

impl Keyed for DocId {
    ghost order = { λ a b. nat_cmp a.raw b.raw };

    ghost total = { documents_total };

    ghost same = { same_document };

    fn against(&self, other: &DocId, steps: &mut Steps) -> Ordering {
        tick(steps);
        self.raw.cmp(&other.raw)
    }
}

impl Keyed for TableId {
    ghost order = { λ a b. nat_cmp a.raw b.raw };

    ghost total = { tables_total };

    ghost same = { same_table };

    fn against(&self, other: &TableId, steps: &mut Steps) -> Ordering {
        tick(steps);
        self.raw.cmp(&other.raw)
    }
}

impl Keyed for Text {
    ghost order = { slice_cmp nat_cmp };

    ghost total = { nat_list_cmp_total };

    ghost same = { same_bytes };

    fn against(&self, other: &Text, steps: &mut Steps) -> Ordering {
        tick(steps);
        self.as_str().cmp(other.as_str())
    }
}

impl Keyed for Key {
    ghost order = { compare_keys };

    ghost total = { keys_total };

    ghost same = { same_key };

    fn against(&self, other: &Key, steps: &mut Steps) -> Ordering {
        tick(steps);
        self.cmp(other)
    }
}
