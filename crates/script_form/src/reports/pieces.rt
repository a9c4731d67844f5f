//! Numbers, ids, texts and bytes.
ghost use Rattle.std.specs.Prelude.{◌≡◌, ◌++◌, OnOk};
ghost use Rattle.std.specs.Fmt.{decimal, signed_decimal};
ghost use Rattle.ion_model.specs.Write.{blob_text, body_text, bool_text, clob_text, string_text};
ghost use Rattle.ledger_model.specs.ItemText.{quoted_id};

use containers::{OutOfMemory, Sequence, Text};
use ion_text::write;
use ion_values::{Body, Value};
use ql_types::id_digits;
use std::alloc::Global;

/// Puts a number in decimal.
pub fn put_number(alloc: Global, out: &mut Text, number: u64) -> Result<(), OutOfMemory>
    ensures { OnOk result (out.new ≡ out.old ++ decimal number) }
{
    let digits = number.to_string(alloc)?;
    out.push_str(digits.as_str())
}

/// Puts an int in decimal.
pub fn put_int(alloc: Global, out: &mut Text, number: i128) -> Result<(), OutOfMemory>
    ensures { OnOk result (out.new ≡ out.old ++ signed_decimal number) }
{
    let digits = number.to_string(alloc)?;
    out.push_str(digits.as_str())
}

/// Puts the text of an id between double quotes.
pub fn put_id(out: &mut Text, raw: u128) -> Result<(), OutOfMemory>
    ensures { OnOk result (out.new ≡ out.old ++ quoted_id raw) }
{
    out.push_str("\"")?;
    let digits = id_digits(raw);
    'digits: for digit in &digits {
        out.push(char::from(*digit))?;
    }
    out.push_str("\"")
}

/// Puts the text of an unannotated value.
pub fn put_body(alloc: Global, out: &mut Text, body: Body) -> Result<(), OutOfMemory>
    ensures { OnOk result (out.new ≡ out.old ++ body_text body) }
{
    let value = Value {
        annotations: Sequence::new(alloc),
        body,
    };
    let text = write(alloc, &value)?;
    out.push_str(text.as_str())
}

/// Puts the text of a truth.
pub fn put_bool(out: &mut Text, truth: bool) -> Result<(), OutOfMemory>
    ensures { OnOk result (out.new ≡ out.old ++ bool_text truth) }
{
    out.push_str(if truth { "true" } else { "false" })
}

/// Puts the text of a string.
pub fn put_string(alloc: Global, out: &mut Text, text: &Text) -> Result<(), OutOfMemory>
    ensures { OnOk result (out.new ≡ out.old ++ string_text text.now) }
{
    let text = text.copy(alloc)?;
    put_body(alloc, out, Body::String(text))
}

/// Puts the text of a clob.
pub fn put_clob(alloc: Global, out: &mut Text, bytes: &[u8]) -> Result<(), OutOfMemory>
    ensures { OnOk result (out.new ≡ out.old ++ clob_text bytes.now) }
{
    let bytes = Sequence::from_slice(alloc, bytes)?;
    put_body(alloc, out, Body::Clob(bytes))
}

/// Puts the text of a blob.
pub fn put_blob(alloc: Global, out: &mut Text, bytes: &[u8]) -> Result<(), OutOfMemory>
    ensures { OnOk result (out.new ≡ out.old ++ blob_text bytes.now) }
{
    let bytes = Sequence::from_slice(alloc, bytes)?;
    put_body(alloc, out, Body::Blob(bytes))
}

/// Puts a number behind what stands before it.
pub fn put_counted(
    alloc: Global,
    out: &mut Text,
    before: &str,
    number: u64,
) -> Result<(), OutOfMemory>
    ensures { OnOk result (out.new ≡ out.old ++ (before.now ++ decimal number)) }
{
    out.push_str(before)?;
    put_number(alloc, out, number)
}

/// Puts a name as a string behind what stands before it.
pub fn put_named(
    alloc: Global,
    out: &mut Text,
    before: &str,
    name: &Text,
) -> Result<(), OutOfMemory>
    ensures { OnOk result (out.new ≡ out.old ++ (before.now ++ string_text name.now)) }
{
    out.push_str(before)?;
    put_string(alloc, out, name)
}

/// Puts an id between double quotes behind what stands before it.
pub fn put_identified(out: &mut Text, before: &str, raw: u128) -> Result<(), OutOfMemory>
    ensures { OnOk result (out.new ≡ out.old ++ (before.now ++ quoted_id raw)) }
{
    out.push_str(before)?;
    put_id(out, raw)
}
