//! The digest of a journal, and the proof of a revision.
ghost use Rattle.std.specs.Prelude.{◌≡◌, length, IfOk, IfErr};
ghost use Rattle.std.specs.Prelude.{slice_get, option_and_then};
ghost use Rattle.ledger_model.specs.Compaction.{shown_revisions};
ghost use Rattle.ledger_model.specs.Damages.{Undamaged};
ghost use Rattle.cli_model.specs.Journals.{PublishesDigest, PublishesProof, tip_in};
ghost use Rattle.cli_model.specs.declared.Question.TheVariants as asks;
ghost use Rattle.cli_model.specs.Outputs.{bundle_text};
ghost use Rattle.ledger_cli.specs.Stops.{IsAnswerStop};

use crate::command_fault::CommandFault;
use crate::output::put_line;
use block_form::revision_value;
use ion_values::{OutOfMemory, Text};
use journal_reader::Journal;
use ledger_model::{Blocks, Revision};
use proof_model::{Digest, Proof, digest_value, proof_value, undamaged_is_chained};
use redact_tool::{Redactions, shown_revision};
use std::alloc::Global;

/// The tip that the words give, or the last block. If there is no block, it is 0.
fn tip_in(journal: &Journal, tip: Option<u64>) -> u64
    ensures { result ≡ tip_in tip journal.now.blocks }
{
    match tip {
        Some(tip) => tip,
        None => journal.blocks().len().saturating_sub(1),
    }
}

/// The text of the journal's digest with this tip.
pub fn digest_text(alloc: Global, journal: &Journal, tip: Option<u64>) -> Result<Text, CommandFault>
    ensures published { IfOk result (λ text.
        PublishesDigest (tip_in tip journal.now.blocks) journal.now.blocks text) }
    ensures stop { IfErr result (λ stop. IsAnswerStop (asks.Digest tip) journal.now.blocks stop) }
{
    let digest = journal.digest(alloc, tip_in(journal, tip))?;
    let mut text = Text::new(alloc);
    put_line(alloc, &mut text, &digest_value(alloc, &digest)?)?;
    Ok(text)
}

/// The text of a digest, a revision and its proof, a line each.
fn bundle_text(
    alloc: Global,
    digest: &Digest,
    revision: &Revision,
    proof: &Proof,
) -> Result<Text, OutOfMemory>
    ensures { IfOk result (λ text. text ≡ bundle_text digest.now revision.now proof.now) }
{
    let mut text = Text::new(alloc);
    put_line(alloc, &mut text, &digest_value(alloc, digest)?)?;
    put_line(alloc, &mut text, &revision_value(alloc, revision)?)?;
    put_line(alloc, &mut text, &proof_value(alloc, proof)?)?;
    Ok(text)
}

/// The revision at an index of the block of this number, with its data's hash where a block redacts it.
fn shown_at(
    alloc: Global,
    blocks: &Blocks,
    sequence: u64,
    index: u32,
) -> Result<Option<Revision>, OutOfMemory>
    requires { Undamaged blocks.now.list }
    ensures { IfOk result (λ found. found ≡ option_and_then
        (λ b. slice_get (shown_revisions blocks.now.list b.info.tables b.revisions) index)
        (slice_get blocks.now.list sequence)) }
{
    let Some(block) = blocks.get(sequence) else {
        return Ok(None);
    };
    let Some(revision) = block.revisions.get(index as usize) else {
        return Ok(None);
    };
    let Some(table) = block.info.tables.get(index as usize) else {
        return Ok(None);
    };
    let redactions = Redactions::of(alloc, blocks.as_slice())?;
    let shown = shown_revision(alloc, &redactions, *table, revision)?;
    Ok(Some(shown))
}

/// The text of the digest with this tip, of a revision, and of its proof.
pub fn proof_text(
    alloc: Global,
    journal: &Journal,
    sequence: u64,
    index: u32,
    tip: Option<u64>,
) -> Result<Text, CommandFault>
    ensures published { IfOk result (λ text.
        PublishesProof sequence index (tip_in tip journal.now.blocks) journal.now.blocks text) }
    ensures stop { IfErr result (λ stop. IsAnswerStop (asks.Proof sequence index tip) journal.now.blocks stop) }
{
    undamaged_is_chained();
    let tip = tip_in(journal, tip);
    let digest = journal.digest(alloc, tip)?;
    let proof = journal.prove(alloc, sequence, index, tip)?;
    let blocks = journal.blocks();
    let found = shown_at(alloc, blocks, sequence, index)?;
    let Some(revision) = found else {
        unreachable!();
    };
    let text = bundle_text(alloc, &digest, &revision, &proof)?;
    Ok(text)
}
