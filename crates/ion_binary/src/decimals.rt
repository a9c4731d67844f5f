//! Decimals.
ghost use Rattle.std.specs.Prelude.{◌≡◌, ◌++◌, unsigned_abs, OnOk};
ghost use Rattle.hash_model.specs.Numbers.{is_below_zero};
ghost use Rattle.hash_model.specs.Serialize.{decimal_bytes};

use super::buffer::Buffer;
use super::numbers::{put_int_field, put_var_int};
use containers::OutOfMemory;
use ion_values::Decimal;

/// Appends the exponent as a VarInt and the coefficient as an Int; nothing for a positive zero with the exponent 0.
pub fn put_decimal_fields(out: &mut Buffer, number: &Decimal) -> Result<(), OutOfMemory>
    ensures { OnOk result (out.new ≡ out.old ++ decimal_bytes number.now) }
{
    if number.exponent == 0 && number.coefficient == 0 && !number.negative_zero {
        return Ok(());
    }
    put_var_int(out, number.exponent < 0, number.exponent.unsigned_abs())?;
    put_int_field(
        out,
        number.negative_zero || number.coefficient < 0,
        number.coefficient.unsigned_abs(),
    )
}
