//! What stands for the revisions of a block where they are listed alone. A value of a block tells the documents of its
//! revisions, so a summary is written as its block with what stands for them, and read as such a block.
ghost use Rattle.std.specs.Prelude.{◌≡◌, map, IfOk};
ghost use Rattle.ion_values.specs.Time.{IsTime};
ghost use Rattle.ledger_model.specs.Journal.{revision_value};
ghost use Rattle.stream_out.specs.Records as spec;

use crate::record::{RevisionSummary, Summary};
use block_copies::{block_with, copy_info};
use block_form::revision_value;
use containers::Sequence;
use ion_values::{IonTime, OutOfMemory, Precision, TimeParts, Values};
use ledger_model::{Block, Content, Metadata, Revision, Revisions};
use ql_types::{BlockAddress, StrandId, TxId};
use std::alloc::Global;

/// The beginning of 1970.
fn epoch() -> IonTime
    ensures { result ≡ spec.epoch }
{
    made(TimeParts {
        precision: Precision::Year,
        year: 1970,
        month: 1,
        day: 1,
        hour: 0,
        minute: 0,
        second: 0,
        digits: 0,
        nanos: 0,
        offset: None,
    })
}

fn made(parts: TimeParts) -> IonTime
    requires { IsTime parts }
    ensures { result ≡ parts }
{
    IonTime::new(parts).unwrap()
}

/// What stands for a revision that is listed: a delete of the document, with the hash.
fn stand_in(listed: &RevisionSummary) -> Revision
    ensures { result ≡ spec.stand_in listed.now }
{
    Revision {
        address: BlockAddress {
            strand: StrandId { raw: 0 },
            sequence: 0,
        },
        hash: listed.hash,
        content: Content::Deleted,
        metadata: Metadata {
            id: listed.document,
            version: 0,
            time: epoch(),
            tx: TxId { raw: 0 },
        },
    }
}

fn stand_ins(alloc: Global, listed: &[RevisionSummary]) -> Result<Revisions, OutOfMemory>
    ensures { IfOk result (λ revisions. revisions ≡ map spec.stand_in listed.now) }
{
    let mut revisions = Vec::with_capacity(alloc, listed.len())?;
    for one in listed {
        revisions.push(stand_in(one))?;
    }
    Ok(Sequence::from_vec(revisions))
}

/// The values of what stands for the revisions.
pub(crate) fn stand_in_values(
    alloc: Global,
    listed: &[RevisionSummary],
) -> Result<Values, OutOfMemory>
    ensures { IfOk result (λ values. values ≡ map revision_value (map spec.stand_in listed.now)) }
{
    let mut values = Vec::with_capacity(alloc, listed.len())?;
    for one in listed {
        values.push(revision_value(alloc, &stand_in(one))?)?;
    }
    Ok(Sequence::from_vec(values))
}

/// A copy of the block with what stands for its revisions.
pub(crate) fn stood_in(alloc: Global, summary: &Summary) -> Result<Block, OutOfMemory>
    ensures { IfOk result (λ block. block ≡ spec.stood_in summary.now) }
{
    let info = copy_info(alloc, &summary.block.info)?;
    let revisions = stand_ins(alloc, summary.listed.as_slice())?;
    Ok(block_with(&summary.block, info, revisions))
}
