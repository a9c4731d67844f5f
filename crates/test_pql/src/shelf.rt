//! A table in memory.
ghost use Rattle.std.specs.Prelude.{◌≡◌, [], codes, if◌then◌else◌, IfOk};
ghost use Rattle.std.specs.Str.{bytes_eq};
ghost use Rattle.pql_model.specs.declared.tables.View.TheVariants.{User, Committed, History};

use containers::{Sequence, Text};
use ion_values::{OutOfMemory, copy};
use pql_model::{Probe, Row, Rows, Tables, View};
use std::alloc::Global;

/// The table `t` with its documents and their committed view, and no history. All other tables are
/// empty, and no row is found by a key.
#[derive(Drop)]
pub struct Shelf {
    pub documents: Rows,
    pub committed: Rows,
}

pub fn copied_rows(alloc: Global, rows: &Rows) -> Result<Rows, OutOfMemory>
    ensures { IfOk result (λ new. new ≡ rows.now) }
{
    let mut new = Sequence::new(alloc);
    'rows: for row in rows.as_slice() {
        new.push(Row {
            id: row.id,
            value: copy(alloc, &row.value)?,
        })?;
    }
    Ok(new)
}

fn seen(alloc: Global, shelf: &Shelf, table: &Text, view: &View) -> Result<Rows, OutOfMemory>
    ensures { IfOk result (λ rows.
        rows ≡ (if bytes_eq table.now (codes "t") then
        (elim view.now [ User ↦ shelf.now.documents | Committed ↦ shelf.now.committed | History a b ↦ [] ]) else [])) }
{
    if table.as_str() != "t" {
        return Ok(Sequence::new(alloc));
    }
    match view {
        View::User => copied_rows(alloc, &shelf.documents),
        View::Committed => copied_rows(alloc, &shelf.committed),
        View::History { .. } => Ok(Sequence::new(alloc)),
    }
}

impl Tables for Shelf {
    ghost view_rows = { λ s name v. if bytes_eq name (codes "t") then (elim v [ User ↦ s.documents | Committed ↦ s.committed | History a b ↦ [] ]) else [] };

    fn rows(
        &self,
        alloc: Global,
        table: &Text,
        view: &View,
        probe: &Probe,
    ) -> Result<Rows, OutOfMemory> {
        match probe {
            Probe::All => seen(alloc, self, table, view),
            _ => Err(OutOfMemory),
        }
    }
}
