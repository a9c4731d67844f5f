//! Frames, and what stands in them of values that hold no others.
ghost use Rattle.std.specs.Prelude.{◌≡◌, ◌≤◌, ◌++◌, ◌∷◌, [], drop, length, take, unsigned_abs, OnOk, IfOk};
ghost use Rattle.hash_model.specs.Numbers.{is_below_zero, magnitude};
ghost use Rattle.hash_model.specs.Serialize.{decimal_bytes, escape, escaped, framed, int_qualifier, null_qualifier, scalar, symbol_bytes};
ghost use Rattle.hash_model.specs.Timestamps.{timestamp_bytes};

use containers::OutOfMemory;
use ion_binary::{
    Buffer, put_decimal_fields, put_magnitude, put_timestamp_fields, qualifier_of_null,
};
use ion_values::{Decimal, IonTime, Kind};
use memchr::memchr3;
use std::alloc::Global;

/// Begins a frame.
pub const BEGIN: u8 = 0x0B;

/// Makes a byte of the content of it that would else begin or end a frame.
pub const ESCAPE: u8 = 0x0C;

/// Ends a frame.
pub const END: u8 = 0x0E;

fn put_escaped_byte(out: &mut Buffer, byte: u8) -> Result<(), OutOfMemory>
    ensures { OnOk result (out.new ≡ out.old ++ escaped byte) }
{
    if byte == BEGIN || byte == ESCAPE || byte == END {
        out.push(ESCAPE)?;
    }
    out.push(byte)
}

/// How many bytes in front stand as they are.
fn plain_len(bytes: &[u8]) -> usize
    ensures plain { escape bytes.now ≡ take result bytes.now ++ escape (drop result bytes.now) }
    ensures within { result ≤ length bytes.now }
{
    match memchr3(BEGIN, ESCAPE, END, bytes) {
        Some(len) => len,
        None => bytes.len(),
    }
}

/// Puts the bytes with an escape before each that would else begin, end or escape.
pub fn put_escaped(out: &mut Buffer, bytes: &[u8]) -> Result<(), OutOfMemory>
    ensures { OnOk result (out.new ≡ out.old ++ escape bytes.now) }
{
    let mut rest = bytes;
    'runs: loop {
        let (plain, others) = rest.split_at(plain_len(rest));
        out.extend(plain)?;
        let Some((byte, more)) = others.split_first() else {
            return Ok(());
        };
        put_escaped_byte(out, *byte)?;
        rest = more;
    }
}

/// Puts a scalar of which this is the representation.
pub fn put_scalar(
    out: &mut Buffer,
    type_qualifier: u8,
    representation: &[u8],
) -> Result<(), OutOfMemory>
    ensures { OnOk result (out.new ≡ out.old ++ scalar type_qualifier representation.now) }
{
    out.push(BEGIN)?;
    out.push(type_qualifier)?;
    put_escaped(out, representation)?;
    out.push(END)
}

/// Puts a symbol.
pub fn put_symbol(out: &mut Buffer, text: &str) -> Result<(), OutOfMemory>
    ensures { OnOk result (out.new ≡ out.old ++ symbol_bytes text.now) }
{
    put_scalar(out, 0x70, text.as_bytes())
}

/// Puts a null.
pub fn put_null(out: &mut Buffer, kind: Kind) -> Result<(), OutOfMemory>
    ensures { OnOk result (out.new ≡ out.old ++ framed (null_qualifier kind) []) }
{
    put_scalar(out, qualifier_of_null(kind), &[])
}

/// Puts an int.
pub fn put_int(alloc: Global, out: &mut Buffer, number: i128) -> Result<(), OutOfMemory>
    ensures { OnOk result (out.new ≡ out.old ++ scalar (int_qualifier number) (magnitude (unsigned_abs number))) }
{
    let mut representation = Buffer::new(alloc)?;
    put_magnitude(&mut representation, number.unsigned_abs())?;
    let type_qualifier = if number < 0 { 0x30 } else { 0x20 };
    put_scalar(out, type_qualifier, representation.as_slice())
}

fn decimal_representation(alloc: Global, number: &Decimal) -> Result<Buffer, OutOfMemory>
    ensures { IfOk result (λ bytes. bytes ≡ decimal_bytes number.now) }
{
    let mut representation = Buffer::new(alloc)?;
    put_decimal_fields(&mut representation, number)?;
    Ok(representation)
}

/// Puts a decimal.
pub fn put_decimal(alloc: Global, out: &mut Buffer, number: &Decimal) -> Result<(), OutOfMemory>
    ensures { OnOk result (out.new ≡ out.old ++ scalar 0x50 (decimal_bytes number.now)) }
{
    let representation = decimal_representation(alloc, number)?;
    put_scalar(out, 0x50, representation.as_slice())
}

/// Puts a timestamp.
pub fn put_time(alloc: Global, out: &mut Buffer, time: &IonTime) -> Result<(), OutOfMemory>
    ensures { OnOk result (out.new ≡ out.old ++ scalar 0x60 (timestamp_bytes time.now)) }
{
    let mut representation = Buffer::new(alloc)?;
    put_timestamp_fields(&mut representation, time)?;
    put_scalar(out, 0x60, representation.as_slice())
}
