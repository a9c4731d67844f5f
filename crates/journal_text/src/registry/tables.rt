//! The active tables, and the fields with an index.
ghost use Rattle.std.specs.Prelude.{◌≡◌, ◌++◌, List, [], true, IfOk};
ghost use Rattle.ledger_model.specs.State.{Table, Indexed, changed, indexed, all_changed, all_indexed};
ghost use Rattle.ledger_model.specs.declared.block.Schema.TheVariants as change;
ghost use Rattle.ledger_model.specs.Follows.{all_differ, change_follows, created_ids, is_active, is_named};
ghost use Rattle.ledger_model.specs.Follows.{schema_follows};
ghost use Rattle.journal_text.specs.Stands.{AllChange, Changes, TablesStand, table_ids};

use ion_values::{OutOfMemory, Text};
use ledger_model::Schema;
use ql_types::TableId;
use std::alloc::Global;
use std::collections::{BTreeMap, BTreeSet};

/// The active tables by name and by id, and the fields with an index, each with its table's id.
#[derive(Drop)]
pub(crate) struct Tables {
    names: BTreeMap<String, TableId>,
    active: BTreeSet<u128>,
    indexes: BTreeSet<(u128, String)>,
}

impl Tables {
    /// No tables. It takes no memory.
    pub(super) fn new(alloc: Global) -> Tables
        ensures { TablesStand [] [] result }
    {
        Tables {
            names: BTreeMap::new(alloc),
            active: BTreeSet::new(alloc),
            indexes: BTreeSet::new(alloc),
        }
    }

    /// Whether an active table has this id.
    pub(super) fn is_active(&self, id: TableId) -> bool
        ensures { (tables : List Table) (indexes : List Indexed) → TablesStand tables indexes self.now
            → result ≡ is_active tables id }
    {
        self.active.contains(&id.raw)
    }

    /// Whether the active table of this name has this id.
    fn is_named(&self, name: &Text, id: TableId) -> bool
        ensures { (tables : List Table) (indexes : List Indexed) → TablesStand tables indexes self.now
            → result ≡ is_named tables name.now id }
    {
        match self.names.get(name.as_str()) {
            Some(found) => found.raw == id.raw,
            None => false,
        }
    }

    /// Creates a table, if no active one has its name.
    fn create(&mut self, alloc: Global, name: &Text, id: TableId) -> Result<bool, OutOfMemory>
        ensures { (tables : List Table) (indexes : List Indexed) → TablesStand tables indexes self.old
            → IfOk result (λ b. Changes tables indexes (change.Create name.now id) b self.new) }
    {
        if self.names.contains_key(name.as_str()) {
            return Ok(false);
        }
        let name = String::from_str(alloc, name.as_str())?;
        self.names.insert(name, id)?;
        self.active.insert(id.raw)?;
        Ok(true)
    }

    /// Gives a field an index, if its table is active and it has none.
    fn index(&mut self, alloc: Global, field: &Text, id: TableId) -> Result<bool, OutOfMemory>
        ensures { (tables : List Table) (indexes : List Indexed) → TablesStand tables indexes self.old
            → IfOk result (λ b. Changes tables indexes (change.Index field.now id) b self.new) }
    {
        if !self.is_active(id) {
            return Ok(false);
        }
        let field = String::from_str(alloc, field.as_str())?;
        let is_new = self.indexes.insert((id.raw, field))?;
        Ok(is_new)
    }

    /// Drops a table, if it is the active one of this name.
    fn remove(&mut self, name: &Text, id: TableId) -> bool
        ensures { (tables : List Table) (indexes : List Indexed) → TablesStand tables indexes self.old
            → all_differ (table_ids tables) ≡ true → Changes tables indexes (change.Drop name.now id) result self.new }
    {
        if !self.is_named(name, id) {
            return false;
        }
        let _ = self.names.remove(name.as_str());
        let _ = self.active.remove(&id.raw);
        true
    }

    /// Makes a change of the schema, if it can be made.
    fn change(&mut self, alloc: Global, change: &Schema) -> Result<bool, OutOfMemory>
        ensures { (tables : List Table) (indexes : List Indexed) → TablesStand tables indexes self.old
            → all_differ (table_ids tables) ≡ true → IfOk result (λ b. Changes tables indexes change.now b self.new) }
    {
        match change {
            Schema::Create { name, table } => self.create(alloc, name, *table),
            Schema::Index { field, table } => self.index(alloc, field, *table),
            Schema::Drop { name, table } => Ok(self.remove(name, *table)),
            Schema::Redact { .. } => Ok(true),
        }
    }

    /// Makes the changes of the schema in order, as far as they can be made, and tells whether all of them can.
    pub(super) fn change_all(
        &mut self,
        alloc: Global,
        schema: &[Schema],
    ) -> Result<bool, OutOfMemory>
        ensures { (tables : List Table) (indexes : List Indexed) → TablesStand tables indexes self.old
            → all_differ (table_ids tables ++ created_ids schema.now) ≡ true
            → IfOk result (λ b. AllChange tables indexes schema.now b self.new) }
    {
        'changes: for change in schema {
            if !self.change(alloc, change)? {
                return Ok(false);
            }
        }
        Ok(true)
    }
}
