//! The fields of a struct by their names.
ghost use Rattle.std.specs.Prelude.{◌≡◌, IfOk};
ghost use Rattle.std.specs.Option.{option_copied};
ghost use Rattle.ledger_model.specs.ReadScript.{named, repeats};

use ion_values::{Field, OutOfMemory, Value};
use std::alloc::Global;
use std::collections::BTreeSet;

/// The value of the first field of that name.
pub fn value_named<'a>(name: &str, fields: &'a [Field]) -> Option<&'a Value>
    ensures { option_copied result ≡ named name.now fields.now }
{
    'fields: for field in fields {
        if field.name.as_str() == name {
            return Some(&field.value);
        }
    }
    None
}

/// Whether two fields have one name. The fields are gone over once, from the last to the first, with the names so far
/// in a set.
pub fn repeats(alloc: Global, fields: &[Field]) -> Result<bool, OutOfMemory>
    ensures { IfOk result (λ found. found ≡ repeats fields.now) }
{
    let mut names = BTreeSet::new(alloc);
    let mut left = fields.len();
    'fields: while left > 0 {
        left -= 1;
        if !names.insert(fields[left].name.as_str())? {
            return Ok(true);
        }
    }
    Ok(false)
}
