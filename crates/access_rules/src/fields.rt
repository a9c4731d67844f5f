//! The names that fields of a rule have.
ghost use Rattle.std.specs.Prelude.{◌≡◌};
ghost use Rattle.std.specs.List.{list_any};
ghost use Rattle.access_rules.specs.ReadRules.{is_known, is_unknown};

use ion_values::Field;

fn is_known(name: &str) -> bool
    ensures { result ≡ is_known name.now }
{
    name == "rule"
        || name == "effect"
        || name == "actions"
        || name == "tables"
        || name == "sessions"
}

fn is_unknown(field: &Field) -> bool
    ensures { result ≡ is_unknown field.now }
{
    !is_known(field.name.as_str())
}

/// Whether a field has a name that no field of a rule has.
pub(crate) fn has_unknown(fields: &[Field]) -> bool
    ensures { result ≡ list_any is_unknown fields.now }
{
    fields.iter().any(|field| is_unknown(field))
}
