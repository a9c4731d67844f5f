//! The block that a transaction becomes, with its line.
ghost use Rattle.std.specs.Prelude.{◌≡◌, [], ◌∷◌, ◌++◌, int_le, map, IfOk, OnOk, if◌then◌else◌};
ghost use Rattle.ion_values.specs.Time.{instant_of};
ghost use Rattle.ledger_model.specs.declared.block.Told.TheVariants as told;
ghost use Rattle.ledger_model.specs.Journal.{line, revision_value};
ghost use Rattle.ledger_model.specs.Legal.{last_hash};
ghost use Rattle.ledger_model.specs.Making.{header_of, revision_of, time_behind};
ghost use Rattle.block_form.specs.Hashed.{hashed_content, hashed_said};
ghost use Rattle.ledger_core.specs.NextBlock.{hashed_contents, next_block};

use crate::hashed_drafts::Hashed;
use crate::prepared::Prepared;
use block_form::{HashedContent, Telling, Valued, seal_revision, seal_with_value, strand_hash};
use containers::Sequence;
use ion_values::{IonTime, OutOfMemory, Text, Value};
use journal_text::line_of_value;
use ledger_model::{Block, Draft, Drafts, Header, Info, Metadata, Revision, TableIds, Told};
use ql_types::{BlockAddress, Hash32, IdMask, StrandId, TxId, id_raw};
use std::alloc::Global;
use txn_core::Finished;

/// A block that is made, with its line in the journal.
#[derive(Drop)]
pub(crate) struct Made {
    pub(crate) block: Block,
    pub(crate) text: Text,
}

/// The transaction as the next block after these: made at this time, or at that of the last block if that is later.
pub(crate) fn into_block(
    alloc: Global,
    txn: Prepared,
    time: IonTime,
    before: &[Block],
) -> Result<Made, OutOfMemory>
    ensures block { IfOk result (λ made. made.block ≡ next_block txn before.now time) }
    ensures text { IfOk result (λ made. made.text ≡ line made.block) }
{
    let (finished, hashed) = txn.finish(alloc)?;
    let header = header_of(&finished, time, before)?;
    let previous = last_hash(alloc, finished.mask, before)?;
    let (telling, valued) = parts_of(alloc, &header, finished, hashed)?;
    let (block, value) = seal_with_value(alloc, previous, header, telling, valued)?;
    let text = line_of_value(alloc, &value)?;
    Ok(Made { block, text })
}

/// What the block of this header tells of the transaction, and its revisions.
fn parts_of(
    alloc: Global,
    header: &Header,
    finished: Finished,
    hashed: Hashed,
) -> Result<(Telling, Valued), OutOfMemory>
    requires told { hashed.told ≡ hashed_said finished.said }
    requires contents { hashed.contents ≡ hashed_contents finished.drafts }
    ensures told { IfOk result (λ parts. parts.0.told ≡ hashed.told) }
    ensures info { IfOk result (λ parts. parts.0.info ≡ record {
      place = finished.place;
      said = told.Said finished.said;
      schema = finished.schema;
      tables = map (λ d. d.table) finished.drafts;
    }) }
    ensures revisions { IfOk result (λ parts. parts.1.revisions ≡ map (revision_of header.now) finished.drafts) }
    ensures values { IfOk result (λ parts. parts.1.values ≡ map revision_value parts.1.revisions) }
{
    let Finished {
        place,
        said,
        schema,
        drafts,
        ..
    } = finished;
    let Hashed { told, contents } = hashed;
    let tables = tables_of(alloc, drafts.as_slice())?;
    let valued = revisions_of(alloc, header, drafts, contents)?;
    let info = Info {
        place,
        said: Told::Said(said),
        schema,
        tables,
    };
    Ok((Telling { info, told }, valued))
}

/// The header of the block of this after these blocks. More revisions than a u32 counts find no memory.
fn header_of(finished: &Finished, time: IonTime, before: &[Block]) -> Result<Header, OutOfMemory>
    ensures { IfOk result (λ header. header ≡ header_of
        (record { mask = finished.now.mask.bits; number = finished.now.number }) before.now time finished.now.drafts) }
{
    let (mask, number) = (finished.mask, finished.number);
    let Ok(count) = u32::try_from(finished.drafts.len()) else {
        return Err(OutOfMemory);
    };
    let strand = StrandId { raw: mask.bits };
    let sequence = before.len() as u64;
    Ok(Header {
        address: BlockAddress { strand, sequence },
        tx: TxId {
            raw: id_raw(mask, number, 0),
        },
        time: time_behind(before, time),
        revisions: count,
    })
}

/// This time, or that of the last block if that isn't earlier.
fn time_behind(before: &[Block], time: IonTime) -> IonTime
    ensures { result ≡ time_behind before.now time }
{
    match before.last() {
        Some(last) => later_time(&last.header, time),
        None => time,
    }
}

/// This time, or the header's if that isn't earlier.
fn later_time(last: &Header, time: IonTime) -> IonTime
    ensures { result ≡ (if int_le (instant_of time) (instant_of last.now.time) then last.now.time else time) }
{
    let last = last.time;
    if time.instant() <= last.instant() {
        last
    } else {
        time
    }
}

/// The hash of the last block, or that of the strand if there is none.
fn last_hash(alloc: Global, mask: IdMask, before: &[Block]) -> Result<Hash32, OutOfMemory>
    ensures { IfOk result (λ hash. hash ≡ last_hash mask.bits before.now) }
{
    match before.last() {
        Some(last) => Ok(last.hash),
        None => strand_hash(alloc, StrandId { raw: mask.bits }),
    }
}

/// The table of each document, in order.
fn tables_of(alloc: Global, drafts: &[Draft]) -> Result<TableIds, OutOfMemory>
    ensures { IfOk result (λ tables. tables ≡ map (λ d. d.table) drafts.now) }
{
    let mut tables = Sequence::new(alloc);
    'drafts: for draft in drafts {
        tables.push(draft.table)?;
    }
    Ok(tables)
}

/// The revisions that the drafts become in the block of this header, in order.
fn revisions_of(
    alloc: Global,
    header: &Header,
    drafts: Drafts,
    contents: Sequence<HashedContent>,
) -> Result<Valued, OutOfMemory>
    requires { contents ≡ hashed_contents drafts }
    ensures revisions { IfOk result (λ all. all.revisions ≡ map (revision_of header.now) drafts) }
    ensures values { IfOk result (λ all. all.values ≡ map revision_value all.revisions) }
{
    let mut valued = Valued {
        revisions: Sequence::new(alloc),
        values: Sequence::new(alloc),
    };
    'drafts: for (draft, hashed) in drafts.into_vec().into_iter().zip(contents.into_vec()) {
        put_revision(alloc, header, draft, hashed, &mut valued)?;
    }
    Ok(valued)
}

/// Puts the revision that a draft becomes in the block of this header.
fn put_revision(
    alloc: Global,
    header: &Header,
    draft: Draft,
    hashed: HashedContent,
    valued: &mut Valued,
) -> Result<(), OutOfMemory>
    requires { hashed ≡ hashed_content draft.content }
    ensures revisions { OnOk result (valued.new.revisions ≡ valued.old.revisions ++ revision_of header.now draft ∷ []) }
    ensures values { OnOk result (valued.new.values ≡ valued.old.values
        ++ revision_value (revision_of header.now draft) ∷ []) }
{
    let (revision, value) = revision_of(alloc, header, draft, hashed)?;
    valued.revisions.push(revision)?;
    valued.values.push(value)?;
    Ok(())
}

/// The revision that a draft becomes in the block of this header, with its value.
fn revision_of(
    alloc: Global,
    header: &Header,
    draft: Draft,
    hashed: HashedContent,
) -> Result<(Revision, Value), OutOfMemory>
    requires { hashed ≡ hashed_content draft.content }
    ensures revision { IfOk result (λ made. made.0 ≡ revision_of header.now draft) }
    ensures value { IfOk result (λ made. made.1 ≡ revision_value made.0) }
{
    let metadata = Metadata {
        id: draft.id,
        version: draft.version,
        time: header.time,
        tx: header.tx,
    };
    let made = seal_revision(alloc, header.address, draft.content, hashed, metadata)?;
    Ok(made)
}
