//! Numbers: the basic field formats.
ghost use Rattle.std.specs.Prelude.{◌≡◌, ◌++◌, ◌<◌, ◌≤◌, ◌+◌, OnOk};
ghost use Rattle.hash_model.specs.Numbers.{digits_of, ended, int_field, magnitude, var_int, var_uint};

use super::buffer::Buffer;
use containers::OutOfMemory;

// The digits in the base, the first of them below the limit and with the mark added.
fn put_digits(
    out: &mut Buffer,
    base: u128,
    limit: u128,
    mark: u128,
    number: u128,
) -> Result<(), OutOfMemory>
    requires least { 2 ≤ base }
    requires most { base ≤ 256 }
    requires some { 1 ≤ limit }
    requires room { mark + limit ≤ 256 }
    ensures { OnOk result (out.new ≡ out.old ++ digits_of base limit mark number) }
{
    if number < limit {
        out.push((mark + number) as u8)
    } else {
        put_digits(out, base, limit, mark, number / base)?;
        out.push((number % base) as u8)
    }
}

// Groups of 7 bits, the first of them below the limit and with the mark added.
fn put_groups(out: &mut Buffer, limit: u128, mark: u128, number: u128) -> Result<(), OutOfMemory>
    requires some { 1 ≤ limit }
    requires room { mark + limit ≤ 128 }
    ensures { OnOk result (out.new ≡ out.old ++ ended (digits_of 128 limit mark number)) }
{
    if number < limit {
        out.push((128 + (mark + number)) as u8)
    } else {
        put_digits(out, 128, limit, mark, number / 128)?;
        out.push((128 + number % 128) as u8)
    }
}

/// Appends a magnitude, without leading zero bytes; zero has no bytes.
pub fn put_magnitude(out: &mut Buffer, number: u128) -> Result<(), OutOfMemory>
    ensures { OnOk result (out.new ≡ out.old ++ magnitude number) }
{
    if number == 0 {
        return Ok(());
    }
    put_digits(out, 256, 256, 0, number)
}

/// Appends an Int, whose sign is the first bit; a positive zero has no bytes.
pub fn put_int_field(out: &mut Buffer, negative: bool, number: u128) -> Result<(), OutOfMemory>
    ensures { OnOk result (out.new ≡ out.old ++ int_field negative number) }
{
    if number == 0 && !negative {
        return Ok(());
    }
    put_digits(out, 256, 128, if negative { 128 } else { 0 }, number)
}

/// Appends a VarUInt in its shortest form.
pub fn put_var_uint(out: &mut Buffer, number: u128) -> Result<(), OutOfMemory>
    ensures { OnOk result (out.new ≡ out.old ++ var_uint number) }
{
    put_groups(out, 128, 0, number)
}

/// Appends a VarInt in its shortest form.
pub fn put_var_int(out: &mut Buffer, negative: bool, number: u32) -> Result<(), OutOfMemory>
    ensures { OnOk result (out.new ≡ out.old ++ var_int negative number) }
{
    put_groups(out, 64, if negative { 64 } else { 0 }, number as u128)
}
