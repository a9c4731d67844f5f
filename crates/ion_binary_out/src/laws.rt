ghost use Rattle.ion_binary_out.specs.BinaryText.{DenotedValuesAreUnique};

use laws_serialization::{
    decimal_is_injective, magnitude_is_injective, timestamp_is_injective, var_uint_is_prefix_free,
};

/// Bytes denote at most one list of values.
pub fn denoted_values_are_unique()
    ensures { DenotedValuesAreUnique }
{
    magnitude_is_injective();
    var_uint_is_prefix_free();
    decimal_is_injective();
    timestamp_is_injective();
}
