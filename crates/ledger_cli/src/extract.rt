//! The revision of a bundle in the journal of its digest.
ghost use Rattle.std.specs.Prelude.{◌≡◌, Some, IfOk};
ghost use Rattle.ledger_model.specs.Damages.{Undamaged};
ghost use Rattle.proof_extract.specs.declared.Extracted.TheVariants as extracted;
ghost use Rattle.laws_history.specs.Calls.{span};
ghost use Rattle.laws_history.specs.Streams.{TakesFew};
ghost use Rattle.cli_model.specs.Calls.{outside};
ghost use Rattle.cli_model.specs.Outputs.{extracted_text, extracted_value};
ghost use Rattle.cli_model.specs.Top.{Keeps};
ghost use Rattle.cli_args.specs.declared.Command.TheVariants as asked;
ghost use Rattle.ledger_cli.specs.Ends.{Works};
ghost use Rattle.ledger_cli.specs.Extracting.{ExtractsFrom, ExtractsIn, ReadsBundle, SpellsBundle};

use crate::command_fault::CommandFault;
use crate::input::read_all;
use crate::judging::DEEPEST;
use crate::output::{Output, put_line};
use crate::returned::{Resources, Returned};
use crate::verify::read_values;
use containers::{Bytes, Sequence};
use ion_values::{Body, OutOfMemory, Text, Value, Values};
use journal_reader::Journal;
use ledger_model::{Blocks, Revision};
use outside::{Clock, JournalStore, Source};
use proof_extract::{Extracted, extract, is_published};
use proof_model::{Digest, Proof, undamaged_is_chained};
use proof_verify::{faults_are_exact, read_bundle};
use std::alloc::Global;
use value_codec::parts::{number, plain, put, structure};

/// A digest, a revision, and a proof of it.
#[derive(Drop)]
pub struct Bundle {
    pub digest: Digest,
    pub revision: Revision,
    pub proof: Proof,
}

/// The bundle that values spell.
fn bundle_in(alloc: Global, values: &Values) -> Result<Bundle, CommandFault>
    ensures { SpellsBundle result values.now }
{
    let (digest, revision, proof) = read_bundle(alloc, values)?;
    Ok(Bundle {
        digest,
        revision,
        proof,
    })
}

/// The bundle that the source gives.
fn read_input<So: Source>(alloc: Global, source: &mut So) -> Result<Bundle, CommandFault>
    ensures reads { ReadsBundle result (span (So.told source.old) (So.told source.new)) }
    ensures few { TakesFew (span (So.told source.old) (So.told source.new)) }
{
    let input = read_all(alloc, source)?;
    let values = read_values(alloc, DEEPEST, &input)?;
    bundle_in(alloc, &values)
}

/// The value of a revision's index.
fn found_value(alloc: Global, index: u32) -> Result<Value, OutOfMemory>
    ensures { IfOk result (λ v. v ≡ extracted_value (extracted.Found index)) }
{
    let mut fields = Sequence::new(alloc);
    put(alloc, &mut fields, "found", number(alloc, u64::from(index)))?;
    Ok(structure(alloc, fields))
}

/// The value of two byte strings.
fn collision_value(alloc: Global, first: Bytes, second: Bytes) -> Result<Value, OutOfMemory>
    ensures { IfOk result (λ v. v ≡ extracted_value (extracted.Collision first second)) }
{
    let mut fields = Sequence::new(alloc);
    put(alloc, &mut fields, "first", plain(alloc, Body::Blob(first)))?;
    put(
        alloc,
        &mut fields,
        "second",
        plain(alloc, Body::Blob(second)),
    )?;
    Ok(structure(alloc, fields))
}

/// The value of what a proof comes to.
fn extracted_value(alloc: Global, what: Extracted) -> Result<Value, OutOfMemory>
    ensures { IfOk result (λ v. v ≡ extracted_value what) }
{
    match what {
        Extracted::Found { index } => found_value(alloc, index),
        Extracted::Collision { first, second } => collision_value(alloc, first, second),
    }
}

/// The text of what a proof comes to.
fn extracted_text(alloc: Global, what: Extracted) -> Result<Text, OutOfMemory>
    ensures { IfOk result (λ text. text ≡ extracted_text what) }
{
    let value = extracted_value(alloc, what)?;
    let mut text = Text::new(alloc);
    put_line(alloc, &mut text, &value)?;
    Ok(text)
}

/// What the bundle comes to in these blocks.
fn extract_from(alloc: Global, blocks: &Blocks, bundle: &Bundle) -> Result<Output, CommandFault>
    requires { Undamaged blocks.now.list }
    ensures { ExtractsFrom result bundle.now blocks.now.list }
{
    undamaged_is_chained();
    faults_are_exact();
    if !is_published(alloc, blocks, &bundle.digest)? {
        return Err(CommandFault::NotPublished);
    }
    let what = extract(
        alloc,
        blocks,
        &bundle.digest,
        &bundle.revision,
        &bundle.proof,
    )?;
    let text = extracted_text(alloc, what)?;
    Ok(Output::of_text(text))
}

/// What the bundle comes to in the journal that the store keeps. No byte of the store changes.
fn extract_stored<S: JournalStore>(
    alloc: Global,
    store: &mut S,
    bundle: &Bundle,
) -> Result<Output, CommandFault>
    ensures { ExtractsIn result bundle.now (span (S.told store.old) (S.told store.new)) }
{
    match Journal::read(alloc, store) {
        Ok(journal) => extract_from(alloc, journal.blocks(), bundle),
        Err(cause) => Err(CommandFault::from(cause)),
    }
}

/// Reads the bundle that the source gives, and then the journal that the store keeps, and finds its revision there.
///
/// The store is called only if the input is a bundle, and no byte of it changes. The clock isn't asked.
pub fn extract_input<So: Source, St: JournalStore, C: Clock>(
    alloc: Global,
    source: &mut So,
    resources: Resources<St, C>,
) -> Returned<Result<Output, CommandFault>, St, C>
    ensures works { Works (result.store ≡ resources.store) (Some asked.Extract) result.value
        (outside (span (So.told source.old) (So.told source.new))
        (span (St.told resources.store) (St.told result.store))
        (span (C.answers resources.clock) (C.answers result.clock))) }
    ensures keeps { Keeps (result.store ≡ resources.store) (Some asked.Extract)
        (outside (span (So.told source.old) (So.told source.new))
        (span (St.told resources.store) (St.told result.store))
        (span (C.answers resources.clock) (C.answers result.clock))) }
    ensures few { TakesFew (span (So.told source.old) (So.told source.new)) }
    ensures clock { result.clock ≡ resources.clock }
{
    let Resources { mut store, clock } = resources;
    match read_input(alloc, source) {
        Ok(bundle) => {
            let value = extract_stored(alloc, &mut store, &bundle);
            Returned {
                value,
                store,
                clock,
            }
        }
        Err(why) => Returned {
            value: Err(why),
            store,
            clock,
        },
    }
}
