//! What one statement does.
ghost use Rattle.std.specs.Prelude.{◌≡◌, []};
ghost use Rattle.ledger_model.specs.Run.{nothing};
ghost use Rattle.txn_core.specs.Effects.{effect_of};

use containers::Sequence;
use ion_values::Values;
use ledger_model::{Drafts, Item, SchemaList};
use std::alloc::Global;

/// What one statement does: its answer's rows, its changes of the schema, its revisions, how many ids it makes, and
/// what it reads.
#[derive(Drop)]
pub(crate) struct Effect {
    pub rows: Values,
    pub schema: SchemaList,
    pub log: Drafts,
    pub made: u32,
    pub footprint: Sequence<Item>,
}

impl Effect {
    /// Nothing is done. It takes no memory.
    pub(crate) fn new(alloc: Global) -> Effect
        ensures nothing { effect_of result ≡ nothing }
        ensures rows { result.rows ≡ [] }
        ensures schema { result.schema ≡ [] }
        ensures log { result.log ≡ [] }
        ensures footprint { result.footprint ≡ [] }
    {
        Effect {
            rows: Sequence::new(alloc),
            schema: Sequence::new(alloc),
            log: Sequence::new(alloc),
            made: 0,
            footprint: Sequence::new(alloc),
        }
    }
}
