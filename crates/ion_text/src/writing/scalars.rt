//! Nulls, truths, numbers and blobs.
ghost use Rattle.std.specs.Prelude.{◌≡◌, fold, OnOk};
ghost use Rattle.std.specs.Fmt.{signed_decimal};
ghost use Rattle.ion_model.specs.Write.{blob_text, bool_text, decimal_text, null_text};

use super::sink::TextSink;
use ion_values::{Decimal, Kind};
use itoa::Buffer;

fn null_word(kind: Kind) -> &'static str
    ensures { result.now ≡ null_text kind }
{
    match kind {
        Kind::Null => "null",
        Kind::Bool => "null.bool",
        Kind::Int => "null.int",
        Kind::Decimal => "null.decimal",
        Kind::Timestamp => "null.timestamp",
        Kind::Symbol => "null.symbol",
        Kind::String => "null.string",
        Kind::Clob => "null.clob",
        Kind::Blob => "null.blob",
        Kind::List => "null.list",
        Kind::Sexp => "null.sexp",
        Kind::Struct => "null.struct",
    }
}

/// Puts the text of a null.
pub fn put_null<S: TextSink>(out: &mut S, kind: Kind) -> Result<(), S::Fault>
    ensures { OnOk result (out.new ≡ fold S.with_byte out.old (null_text kind)) }
{
    out.push_str(null_word(kind))
}

/// Puts the text of a truth.
pub fn put_bool<S: TextSink>(out: &mut S, truth: bool) -> Result<(), S::Fault>
    ensures { OnOk result (out.new ≡ fold S.with_byte out.old (bool_text truth)) }
{
    out.push_str(if truth { "true" } else { "false" })
}

/// Puts an int in decimal.
pub fn put_int<S: TextSink>(out: &mut S, number: i128) -> Result<(), S::Fault>
    ensures { OnOk result (out.new ≡ fold S.with_byte out.old (signed_decimal number)) }
{
    let mut buffer = Buffer::new();
    out.push_str(buffer.format(number))
}

/// Puts the text of a decimal.
pub fn put_decimal<S: TextSink>(out: &mut S, number: &Decimal) -> Result<(), S::Fault>
    ensures { OnOk result (out.new ≡ fold S.with_byte out.old (decimal_text number.now)) }
{
    if number.negative_zero {
        out.push_str("-0")?;
    } else {
        put_int(out, number.coefficient)?;
    }
    out.push_str("d")?;
    put_int(out, number.exponent as i128)
}

/// Puts the text of a blob.
pub fn put_blob<S: TextSink>(out: &mut S, bytes: &[u8]) -> Result<(), S::Fault>
    ensures { OnOk result (out.new ≡ fold S.with_byte out.old (blob_text bytes.now)) }
{
    out.push_str("{{")?;
    out.push_base64(bytes)?;
    out.push_str("}}")
}
