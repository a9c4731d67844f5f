//! The revisions that blocks redact.
ghost use Rattle.std.specs.Prelude.{◌≡◌, List, [], ◌∷◌, IfOk, OnOk, if◌then◌else◌};
ghost use Rattle.ledger_model.specs.Follows.{is_redacted_in};
ghost use Rattle.ledger_model.specs.HashesAsked.{redacts_any};
ghost use Rattle.ledger_model.specs.State.{is_redact};
ghost use Rattle.ledger_model.specs.declared.block.Block.{Block};
ghost use Rattle.redact_tool.specs.Fronts.{redacting_front};
ghost use Rattle.redact_tool.specs.Redacting.{AreRedactions, Takes};

use ion_values::OutOfMemory;
use ledger_model::{Block, Revision, Schema};
use ql_types::TableId;
use std::alloc::Global;
use std::collections::BTreeSet;

/// The revisions that blocks redact: of each the strand and the place of its block, its table and its document.
#[derive(Drop)]
pub struct Redactions {
    revisions: BTreeSet<(u128, u64, u128, u128)>,
}

impl Redactions {
    /// Those of these blocks.
    pub fn of(alloc: Global, blocks: &[Block]) -> Result<Redactions, OutOfMemory>
        ensures { IfOk result (λ redactions. AreRedactions blocks.now redactions) }
    {
        let mut redactions = Redactions {
            revisions: BTreeSet::new(alloc),
        };
        'each: for block in blocks {
            redactions.take(block.info.schema.as_slice())?;
        }
        Ok(redactions)
    }

    /// Takes in the redactions among the changes of a block.
    fn take(&mut self, schema: &[Schema]) -> Result<(), OutOfMemory>
        ensures { OnOk result (Takes self.old schema.now self.new) }
    {
        'changes: for change in schema {
            self.take_one(change)?;
        }
        Ok(())
    }

    /// Takes in the change, if it is a redaction.
    fn take_one(&mut self, change: &Schema) -> Result<(), OutOfMemory>
        ensures { OnOk result (Takes self.old (change.now ∷ []) self.new) }
    {
        if let Schema::Redact {
            address,
            table,
            document,
        } = change
        {
            self.revisions.insert((
                address.strand.raw,
                address.sequence,
                table.raw,
                document.raw,
            ))?;
        }
        Ok(())
    }

    /// Whether one of the blocks redacts the revision, of a document of this table. It takes no memory.
    pub fn has(&self, table: TableId, revision: &Revision) -> bool
        ensures { (blocks : List Block) → AreRedactions blocks self.now
            → result ≡ is_redacted_in blocks (record { table = table; revision = revision.now }) }
    {
        self.revisions.contains(&(
            revision.address.strand.raw,
            revision.address.sequence,
            table.raw,
            revision.metadata.id.raw,
        ))
    }
}

fn is_redact(change: &Schema) -> bool
    ensures { result ≡ is_redact change.now }
{
    matches!(change, Schema::Redact { .. })
}

/// Whether the block redacts a revision.
fn redacts_any(block: &Block) -> bool
    ensures { result ≡ redacts_any block.now }
{
    block
        .info
        .schema
        .as_slice()
        .iter()
        .any(|change| is_redact(change))
}

/// The place after the block, if it redacts anything, or the front so far.
fn further(front: usize, next: usize, block: &Block) -> usize
    ensures { result ≡ (if redacts_any block.now then next else front) }
{
    if redacts_any(block) { next } else { front }
}

/// The number of blocks up to the last that redacts anything, with it.
pub fn front(blocks: &[Block]) -> usize
    ensures { result ≡ redacting_front blocks.now }
{
    let mut front = 0;
    'each: for at in 0..blocks.len() {
        front = further(front, at + 1, &blocks[at]);
    }
    front
}
