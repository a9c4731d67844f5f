//! The stream of a journal.
ghost use Rattle.std.specs.Prelude.{◌≡◌, ◌≤◌, List, ◌++◌, map, length, IfOk, OnOk};
ghost use Rattle.ledger_model.specs.declared.block.Schema.{Schema};
ghost use Rattle.stream_out.specs.declared.record.Record.TheVariants as kind;
ghost use Rattle.stream_out.specs.Named.{NamesStand};
ghost use Rattle.stream_out.specs.Streams as spec;

use crate::names::Names;
use crate::record::{Details, Listed, Record, Records, RevisionSummary, Summary};
use block_copies::{block_with, copy_info, copy_revision};
use containers::Sequence;
use ion_values::OutOfMemory;
use ledger_model::{Block, Blocks, Revision};
use ql_types::TableId;
use std::alloc::Global;

fn listed_of(alloc: Global, revisions: &[Revision]) -> Result<Listed, OutOfMemory>
    ensures { IfOk result (λ listed. listed ≡ map spec.listed_as revisions.now) }
{
    let mut listed = Vec::with_capacity(alloc, revisions.len())?;
    for revision in revisions {
        listed.push(RevisionSummary {
            hash: revision.hash,
            document: revision.metadata.id,
        })?;
    }
    Ok(Sequence::from_vec(listed))
}

/// The summary of a block.
fn summary_of(alloc: Global, block: &Block) -> Result<Summary, OutOfMemory>
    ensures { IfOk result (λ summary. summary ≡ spec.summary_of block.now) }
{
    let listed = listed_of(alloc, block.revisions.as_slice())?;
    let info = copy_info(alloc, &block.info)?;
    let block = block_with(block, info, Sequence::new(alloc));
    Ok(Summary { block, listed })
}

/// The details of a revision of a document of this table.
fn details_of(
    alloc: Global,
    names: &Names,
    table: TableId,
    revision: &Revision,
) -> Result<Details, OutOfMemory>
    ensures { (changes : List Schema) → NamesStand changes names.now → IfOk result (λ details. details
        ≡ record { table = table; name = spec.name_of changes table.raw; revision = revision.now }) }
{
    let name = names.name(alloc, table)?;
    let revision = copy_revision(alloc, revision)?;
    Ok(Details {
        table,
        name,
        revision,
    })
}

fn push_details(
    alloc: Global,
    records: &mut Records,
    names: &Names,
    tables: &[TableId],
    revisions: &[Revision],
) -> Result<(), OutOfMemory>
    ensures { (changes : List Schema) → NamesStand changes names.now → OnOk result (records.new
        ≡ records.old ++ map kind.Details (spec.details_of changes tables.now revisions.now)) }
{
    let shorter = tables.len().min(revisions.len());
    'revisions: for at in 0..shorter {
        let details = details_of(alloc, names, tables[at], &revisions[at])?;
        records.push(Record::Details(details))?;
    }
    Ok(())
}

/// Puts the records of a block at the end: its summary, and then the details of its revisions in order. The names are
/// those of the tables that its block or one before it created.
pub fn push_block(
    alloc: Global,
    records: &mut Records,
    names: &Names,
    block: &Block,
) -> Result<(), OutOfMemory>
    ensures { (changes : List Schema) → NamesStand changes names.now
        → OnOk result (records.new ≡ records.old ++ spec.block_records changes block.now) }
{
    let summary = summary_of(alloc, block)?;
    records.push(Record::Summary(summary))?;
    let tables = block.info.tables.as_slice();
    let revisions = block.revisions.as_slice();
    push_details(alloc, records, names, tables, revisions)?;
    Ok(())
}

/// Puts the records of blocks at the end, and takes in the names of the tables that they create.
fn push_blocks(
    alloc: Global,
    records: &mut Records,
    names: &mut Names,
    blocks: &[Block],
) -> Result<(), OutOfMemory>
    ensures { (changes : List Schema) → NamesStand changes names.old
        → OnOk result (records.new ≡ records.old ++ spec.records_behind changes blocks.now) }
{
    'streamed: for block in blocks {
        names.record_all(alloc, block.info.schema.as_slice())?;
        push_block(alloc, records, names, block)?;
    }
    Ok(())
}

/// The names of the tables that blocks create.
pub fn names_in(alloc: Global, blocks: &[Block]) -> Result<Names, OutOfMemory>
    ensures { IfOk result (λ names. NamesStand (spec.changes_in blocks.now) names) }
{
    let mut names = Names::new(alloc);
    'changes: for block in blocks {
        names.record_all(alloc, block.info.schema.as_slice())?;
    }
    Ok(names)
}

/// The stream of the blocks from `from` up to but without `to`: a created record, the records of each block, and a
/// completed record.
pub fn stream(alloc: Global, blocks: &Blocks, from: u64, to: u64) -> Result<Records, OutOfMemory>
    requires order { from ≤ to }
    requires within { to ≤ length blocks.now.list }
    ensures { IfOk result (λ records. records ≡ spec.stream blocks.now.list from to) }
{
    let (before, behind) = blocks.as_slice().split_at(from as usize);
    let (told, _) = behind.split_at((to - from) as usize);
    let mut names = names_in(alloc, before)?;
    let mut records = Sequence::new(alloc);
    records.push(Record::Created)?;
    push_blocks(alloc, &mut records, &mut names, told)?;
    records.push(Record::Completed)?;
    Ok(records)
}
