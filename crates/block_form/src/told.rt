//! What a block tells of its statements, as a field with its hash.
ghost use Rattle.std.specs.Prelude.{◌≡◌, IfOk};
ghost use Rattle.ledger_model.specs.declared.block.Told.TheVariants as told;
ghost use Rattle.ledger_model.specs.Values.{field};
ghost use Rattle.ledger_model.specs.Journal.{told_field};
ghost use Rattle.ledger_model.specs.Seals.{told_hash};
ghost use Rattle.block_form.specs.Hashed.{hashed_said, hashed_told};

use crate::said::said_values;
use ion_hash::field_hash;
use ion_values::{Field, OutOfMemory, Text, Value};
use ledger_model::{Said, Told};
use ql_types::Hash32;
use std::alloc::Global;
use value_codec::parts::{hash_value, list};

/// A field of a block's value, with its hash.
#[derive(Drop)]
pub struct HashedField {
    pub field: Field,
    pub hash: [u8; 32],
}

/// A field of this name.
pub(crate) fn field(alloc: Global, name: &str, value: Value) -> Result<Field, OutOfMemory>
    ensures { IfOk result (λ f. f ≡ field name.now value) }
{
    let name = Text::from_text(alloc, name)?;
    Ok(Field { name, value })
}

/// The field of these statements.
fn said_field(alloc: Global, said: &[Said]) -> Result<Field, OutOfMemory>
    ensures { IfOk result (λ f. f ≡ told_field (told.Said said.now)) }
{
    let said = said_values(alloc, said)?;
    field(alloc, "statements", list(alloc, said))
}

/// The field of the statements, or of their hash where it stands for them.
pub(crate) fn told_field(alloc: Global, told: &Told) -> Result<Field, OutOfMemory>
    ensures { IfOk result (λ f. f ≡ told_field told.now) }
{
    match told {
        Told::Said(said) => said_field(alloc, said.as_slice()),
        Told::Hashed(hash) => field(alloc, "statementsHash", hash_value(alloc, hash)?),
    }
}

/// The field of these statements in a block's value, with its hash. It hangs on nothing else of the block.
pub fn hash_said(alloc: Global, said: &[Said]) -> Result<HashedField, OutOfMemory>
    ensures { IfOk result (λ made. made ≡ hashed_said said.now) }
{
    let field = said_field(alloc, said)?;
    let hash = field_hash(alloc, &field)?;
    Ok(HashedField { field, hash })
}

/// The field of the statements with its hash, or that of the hash which stands for them.
pub(crate) fn hash_told(alloc: Global, told: &Told) -> Result<HashedField, OutOfMemory>
    ensures { IfOk result (λ made. made ≡ hashed_told told.now) }
{
    match told {
        Told::Said(said) => hash_said(alloc, said.as_slice()),
        Told::Hashed(hash) => {
            let field = told_field(alloc, told)?;
            let hash = hash.bytes;
            Ok(HashedField { field, hash })
        }
    }
}

/// The hash of the statements' field, or the one that stands in its place.
pub fn told_hash(alloc: Global, told: &Told) -> Result<Hash32, OutOfMemory>
    ensures { IfOk result (λ h. h.bytes ≡ told_hash told.now) }
{
    let HashedField { field: _, hash } = hash_told(alloc, told)?;
    Ok(Hash32 { bytes: hash })
}
