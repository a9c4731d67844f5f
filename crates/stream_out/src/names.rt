//! The names under which tables were created.
ghost use Rattle.std.specs.Prelude.{◌≡◌, List, [], ◌++◌, IfOk, OnOk};
ghost use Rattle.ledger_model.specs.declared.block.Schema as model;
ghost use Rattle.stream_out.specs.Streams as spec;
ghost use Rattle.stream_out.specs.Named.{NamesStand, Takes};

use ion_values::{OutOfMemory, Text};
use ledger_model::Schema;
use ql_types::TableId;
use std::alloc::Global;
use std::collections::BTreeMap;

/// The names under which the blocks so far created tables, by the tables' ids.
#[derive(Drop)]
pub struct Names {
    created: BTreeMap<u128, Text>,
}

impl Names {
    /// No names. It takes no memory.
    pub fn new(alloc: Global) -> Names
        ensures { NamesStand [] result }
    {
        Names {
            created: BTreeMap::new(alloc),
        }
    }

    /// Takes in a change of the schema.
    fn record(&mut self, alloc: Global, change: &Schema) -> Result<(), OutOfMemory>
        ensures { OnOk result (Takes change.now self.old self.new) }
    {
        match change {
            Schema::Create { name, table } => {
                let created = name.copy(alloc)?;
                self.created.insert(table.raw, created)?;
                Ok(())
            }
            Schema::Index { .. } => Ok(()),
            Schema::Drop { .. } => Ok(()),
            Schema::Redact { .. } => Ok(()),
        }
    }

    /// Takes in the changes of a block in order.
    pub fn record_all(&mut self, alloc: Global, schema: &[Schema]) -> Result<(), OutOfMemory>
        ensures { (before : List model.Schema) → NamesStand before self.old
            → OnOk result (NamesStand (before ++ schema.now) self.new) }
    {
        'changes: for change in schema {
            self.record(alloc, change)?;
        }
        Ok(())
    }

    /// The name of the table of this id, empty if none was created.
    pub(crate) fn name(&self, alloc: Global, table: TableId) -> Result<Text, OutOfMemory>
        ensures { (before : List model.Schema) → NamesStand before self.now
            → IfOk result (λ name. name ≡ spec.name_of before table.raw) }
    {
        match self.created.get(&table.raw) {
            Some(created) => {
                let name = created.copy(alloc)?;
                Ok(name)
            }
            None => Ok(Text::new(alloc)),
        }
    }
}
