//! The verdict on a bundle.
ghost use Rattle.std.specs.Prelude.{◌≡◌, IfOk, IfErr};
ghost use Rattle.laws_history.specs.Calls.{span};
ghost use Rattle.laws_history.specs.Streams.{TakesFew};
ghost use Rattle.cli_model.specs.Bundles.{IsAccepted};
ghost use Rattle.ledger_cli.specs.Bundles.{Decides, IsUnproved, ReadsValues, Verifies};

use crate::command_fault::CommandFault;
use crate::input::read_all;
use crate::judging::DEEPEST;
use crate::lines::BadInput;
use crate::output::Output;
use ion_text::{ReadFault, read_stream};
use ion_values::{Text, Values};
use outside::Source;
use proof_verify::{ProofFault, read_bundle, verify};
use std::alloc::Global;

/// The values that the input spells, which nest at most so deep.
pub fn read_values(alloc: Global, depth: u32, input: &[u8]) -> Result<Values, CommandFault>
    ensures { ReadsValues depth result input.now }
{
    match read_stream(alloc, input, depth) {
        Ok(values) => Ok(values),
        Err(ReadFault::Ion(fault)) => Err(CommandFault::BadInput(BadInput::Faulty(fault))),
        Err(ReadFault::OutOfMemory) => Err(CommandFault::OutOfMemory),
    }
}

/// Whether the values are a bundle whose proof is accepted.
fn judge(alloc: Global, values: &Values) -> Result<(), ProofFault>
    ensures accepted { IfOk result (λ _. IsAccepted values.now) }
    ensures refused { IfErr result (λ fault. IsUnproved values.now fault) }
{
    let (digest, revision, proof) = read_bundle(alloc, values)?;
    verify(alloc, &digest, &revision, &proof)
}

/// The text that says that the proof of the values is accepted.
fn verdict(alloc: Global, values: &Values) -> Result<Output, CommandFault>
    ensures { Decides result values.now }
{
    judge(alloc, values)?;
    let text = Text::from_text(alloc, "{verified:true}\n")?;
    Ok(Output::of_text(text))
}

/// Reads the bundle that the source gives, and says that its proof is accepted.
pub fn verify_input<So: Source>(alloc: Global, source: &mut So) -> Result<Output, CommandFault>
    ensures verifies { Verifies result (span (So.told source.old) (So.told source.new)) }
    ensures few { TakesFew (span (So.told source.old) (So.told source.new)) }
{
    let input = read_all(alloc, source)?;
    let values = read_values(alloc, DEEPEST, &input)?;
    verdict(alloc, &values)
}
