//! Nulls.
ghost use Rattle.std.specs.Prelude.{◌≡◌};
ghost use Rattle.hash_model.specs.Serialize.{null_qualifier};

use ion_values::Kind;

/// The byte of a null: its type in the upper half, 15 in the lower.
pub fn qualifier_of_null(kind: Kind) -> u8
    ensures { result ≡ null_qualifier kind }
{
    match kind {
        Kind::Null => 0x0F,
        Kind::Bool => 0x1F,
        Kind::Int => 0x2F,
        Kind::Decimal => 0x5F,
        Kind::Timestamp => 0x6F,
        Kind::Symbol => 0x7F,
        Kind::String => 0x8F,
        Kind::Clob => 0x9F,
        Kind::Blob => 0xAF,
        Kind::List => 0xBF,
        Kind::Sexp => 0xCF,
        Kind::Struct => 0xDF,
    }
}
