//! The drafts that are left of those that pend, lent.
ghost use Rattle.std.specs.Prelude.{◌≡◌, map, IfOk};
ghost use Rattle.std.specs.List.{filter};
ghost use Rattle.ledger_model.specs.Run.{final_revisions, is_left};

use crate::transaction::Txn;
use crate::views::is_left;
use containers::Sequence;
use ion_values::OutOfMemory;
use ledger_model::Draft;
use std::alloc::Global;

impl Txn {
    /// The drafts that the block's revisions are made of, lent: each touched document's last one, in order of first
    /// touch.
    pub fn left(&self, alloc: Global) -> Result<Sequence<&Draft>, OutOfMemory>
        ensures { IfOk result (λ left. map (λ d. d.now) left ≡ final_revisions self.now.done) }
    {
        let newest = self.done.log.newest(alloc)?;
        let left = those_left(alloc, newest.as_slice())?;
        Ok(left)
    }
}

/// Those of these drafts that are left.
fn those_left<'a>(alloc: Global, newest: &[&'a Draft]) -> Result<Sequence<&'a Draft>, OutOfMemory>
    ensures { IfOk result (λ left. map (λ d. d.now) left ≡ filter is_left (map (λ d. d.now) newest.now)) }
{
    let mut left = Sequence::new(alloc);
    'newest: for draft in newest {
        if is_left(draft) {
            left.push(*draft)?;
        }
    }
    Ok(left)
}
