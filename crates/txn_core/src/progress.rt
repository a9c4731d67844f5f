//! What a transaction's statements have done so far.
ghost use Rattle.std.specs.Prelude.{◌≡◌, [], ◌∷◌, ◌++◌, ◌+◌, ◌≤◌, OnOk, OnErr};
ghost use Rattle.std.specs.Vec.{vec_len, vec_capacity};
ghost use Rattle.ledger_model.specs.Run.{start};
ghost use Rattle.txn_core.specs.Effects.{progress_of};

use crate::log::Log;
use ion_values::OutOfMemory;
use ledger_model::{Draft, Item, Said, Schema};
use std::alloc::Global;

/// What was said and changed so far, the pending revisions in order, how many ids were made, and what was read,
/// statement by statement, repeats kept.
#[derive(Drop)]
pub(crate) struct Progress {
    pub said: Vec<Said>,
    pub schema: Vec<Schema>,
    pub log: Log,
    pub made: u32,
    pub footprint: Vec<Item>,
}

impl Progress {
    /// Nothing was said. It takes no memory.
    pub(crate) fn new(alloc: Global) -> Progress
        ensures { progress_of result ≡ start }
    {
        Progress {
            said: Vec::new(alloc),
            schema: Vec::new(alloc),
            log: Log::new(alloc),
            made: 0,
            footprint: Vec::new(alloc),
        }
    }

    /// Appends a statement, what it changed and what it read. If memory runs out, all is unchanged.
    pub(crate) fn add(
        &mut self,
        said: Said,
        schema: Vec<Schema>,
        log: Vec<Draft>,
        made: u32,
        footprint: Vec<Item>,
    ) -> Result<(), OutOfMemory>
        ensures said { OnOk result (self.new.said.items ≡ self.old.said.items ++ said ∷ []) }
        ensures schema { OnOk result (self.new.schema.items ≡ self.old.schema.items ++ schema.items) }
        ensures log { OnOk result (self.new.log ≡ self.old.log ++ log.items) }
        ensures made { OnOk result (self.new.made ≡ self.old.made + made) }
        ensures footprint { OnOk result (self.new.footprint.items ≡ self.old.footprint.items ++ footprint.items) }
        ensures same { OnErr result (progress_of self.new ≡ progress_of self.old) }
    {
        let (mut schema, mut footprint) = (schema, footprint);
        let sum = self.made.checked_add(made).ok_or(OutOfMemory)?;
        self.make_room(schema.len(), footprint.len())?;
        self.log.append(log)?;
        self.said.push_reserved(said);
        self.schema.append(&mut schema).unwrap();
        self.footprint.append(&mut footprint).unwrap();
        self.made = sum;
        Ok(())
    }

    /// Makes room for one statement more, and for its changes and items.
    fn make_room(&mut self, changes: usize, items: usize) -> Result<(), OutOfMemory>
        ensures same { progress_of self.new ≡ progress_of self.old }
        ensures said { OnOk result (vec_len self.new.said + 1 ≤ vec_capacity self.new.said) }
        ensures schema { OnOk result (vec_len self.new.schema + changes ≤ vec_capacity self.new.schema) }
        ensures footprint { OnOk result (vec_len self.new.footprint + items ≤ vec_capacity self.new.footprint) }
    {
        self.said.reserve(1)?;
        self.schema.reserve(changes)?;
        self.footprint.reserve(items)?;
        Ok(())
    }
}
