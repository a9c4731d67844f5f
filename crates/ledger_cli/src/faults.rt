//! The lines of proofs that aren't accepted.
ghost use Rattle.std.specs.Prelude.{◌≡◌, [], ◌∷◌, codes, IfOk};
ghost use Rattle.ledger_model.specs.Journal.{address_value, hash_value, id_value, number, string};
ghost use Rattle.ledger_model.specs.Values.{field};
ghost use Rattle.cli_model.specs.Lines.{proof_fault_fields, proof_fault_line};

use crate::named::{Named, with_name};
use containers::Sequence;
use ion_text::write;
use ion_values::{Fields, OutOfMemory, Text, Value};
use proof_verify::ProofFault;
use ql_types::{BlockAddress, Hash32, StrandId};
use std::alloc::Global;
use value_codec::parts::{address_value, hash_value, id_value, number, put, string, structure};

/// The field of a fault's number alone.
fn bare(alloc: Global, code: u64) -> Result<Fields, OutOfMemory>
    ensures { IfOk result (λ fields. fields ≡ field (codes "code") (number code) ∷ []) }
{
    let mut fields = Sequence::new(alloc);
    put(alloc, &mut fields, "code", number(alloc, code))?;
    Ok(fields)
}

/// The fields of a fault's number and a value.
fn with_one(alloc: Global, code: u64, first: Named<Value>) -> Result<Fields, OutOfMemory>
    ensures { IfOk result (λ fields. fields ≡ field (codes "code") (number code)
        ∷ field first.name.now first.value ∷ []) }
{
    let mut fields = bare(alloc, code)?;
    put(alloc, &mut fields, first.name, first.value)?;
    Ok(fields)
}

/// The fields of a fault's number and a text.
fn with_text(
    alloc: Global,
    code: u64,
    name: &'static str,
    text: &Text,
) -> Result<Fields, OutOfMemory>
    ensures { IfOk result (λ fields. fields ≡ field (codes "code") (number code)
        ∷ field name.now (string text.now) ∷ []) }
{
    let value = string(alloc, text)?;
    with_one(alloc, code, Named { name, value })
}

/// The fields of a fault's number and two values.
fn with_two(
    alloc: Global,
    code: u64,
    first: Named<Value>,
    second: Named<Value>,
) -> Result<Fields, OutOfMemory>
    ensures { IfOk result (λ fields. fields ≡ field (codes "code") (number code)
        ∷ field first.name.now first.value ∷ field second.name.now second.value ∷ []) }
{
    let mut fields = with_one(alloc, code, first)?;
    put(alloc, &mut fields, second.name, second.value)?;
    Ok(fields)
}

/// The fields of a fault's number and two numbers.
fn with_numbers(
    alloc: Global,
    code: u64,
    first: Named<u64>,
    second: Named<u64>,
) -> Result<Fields, OutOfMemory>
    ensures { IfOk result (λ fields. fields ≡ field (codes "code") (number code)
        ∷ field first.name.now (number first.value)
        ∷ field second.name.now (number second.value) ∷ []) }
{
    let one = Named {
        name: first.name,
        value: number(alloc, first.value),
    };
    let other = Named {
        name: second.name,
        value: number(alloc, second.value),
    };
    with_two(alloc, code, one, other)
}

/// The fields of a fault's number and two ids.
fn with_ids(
    alloc: Global,
    code: u64,
    first: Named<StrandId>,
    second: Named<StrandId>,
) -> Result<Fields, OutOfMemory>
    ensures { IfOk result (λ fields. fields ≡ field (codes "code") (number code)
        ∷ field first.name.now (id_value first.value.raw)
        ∷ field second.name.now (id_value second.value.raw) ∷ []) }
{
    let one = Named {
        name: first.name,
        value: id_value(alloc, first.value.raw)?,
    };
    let other = Named {
        name: second.name,
        value: id_value(alloc, second.value.raw)?,
    };
    with_two(alloc, code, one, other)
}

/// The fields of a fault's number and two addresses.
fn with_addresses(
    alloc: Global,
    code: u64,
    first: Named<BlockAddress>,
    second: Named<BlockAddress>,
) -> Result<Fields, OutOfMemory>
    ensures { IfOk result (λ fields. fields ≡ field (codes "code") (number code)
        ∷ field first.name.now (address_value first.value)
        ∷ field second.name.now (address_value second.value) ∷ []) }
{
    let one = Named {
        name: first.name,
        value: address_value(alloc, &first.value)?,
    };
    let other = Named {
        name: second.name,
        value: address_value(alloc, &second.value)?,
    };
    with_two(alloc, code, one, other)
}

/// The fields of a fault's number and two hashes.
fn with_hashes(
    alloc: Global,
    code: u64,
    first: Named<Hash32>,
    second: Named<Hash32>,
) -> Result<Fields, OutOfMemory>
    ensures { IfOk result (λ fields. fields ≡ field (codes "code") (number code)
        ∷ field first.name.now (hash_value first.value)
        ∷ field second.name.now (hash_value second.value) ∷ []) }
{
    let one = Named {
        name: first.name,
        value: hash_value(alloc, &first.value)?,
    };
    let other = Named {
        name: second.name,
        value: hash_value(alloc, &second.value)?,
    };
    with_two(alloc, code, one, other)
}

/// The number of a fault and its values, as fields.
fn fault_fields(alloc: Global, refused: &ProofFault) -> Result<Fields, OutOfMemory>
    ensures { IfOk result (λ fields. fields ≡ proof_fault_fields refused.now) }
{
    match refused {
        ProofFault::Malformed { field } => with_text(alloc, 1, "field", field),
        ProofFault::WrongStrand { proof, digest } => {
            with_ids(
                alloc,
                2,
                with_name("proof", *proof),
                with_name("digest", *digest),
            )
        }
        ProofFault::AddressDiffers { revision, proof } => {
            with_addresses(
                alloc,
                3,
                with_name("revision", *revision),
                with_name("proof", *proof),
            )
        }
        ProofFault::PastTip { sequence, tip } => {
            with_numbers(
                alloc,
                4,
                with_name("sequence", *sequence),
                with_name("tip", *tip),
            )
        }
        ProofFault::IndexPastCount { index, count } => {
            with_numbers(
                alloc,
                5,
                with_name("index", *index),
                with_name("count", *count),
            )
        }
        ProofFault::PathLength { wanted, given } => {
            with_numbers(
                alloc,
                6,
                with_name("wanted", *wanted),
                with_name("given", *given),
            )
        }
        ProofFault::HashFieldDiffers { stated, computed } => {
            with_hashes(
                alloc,
                7,
                with_name("stated", *stated),
                with_name("computed", *computed),
            )
        }
        ProofFault::RootDiffers {
            computed,
            published,
        } => with_hashes(
            alloc,
            8,
            with_name("computed", *computed),
            with_name("published", *published),
        ),
        ProofFault::OutOfMemory => bare(alloc, 9),
    }
}

/// The error line of a proof that isn't accepted.
pub fn proof_fault_line(alloc: Global, refused: &ProofFault) -> Result<Text, OutOfMemory>
    ensures { IfOk result (λ line. line ≡ proof_fault_line refused.now) }
{
    let value = structure(alloc, fault_fields(alloc, refused)?);
    let fault = write(alloc, &value)?;
    let mut line = Text::new(alloc);
    line.push_str("{status:7,fault:")?;
    line.push_str(fault.as_str())?;
    line.push_str("}\n")?;
    Ok(line)
}
