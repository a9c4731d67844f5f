ghost use Rattle.laws_serialization.specs.Numbers.{DecimalIsInjective, IntFieldIsInjective, MagnitudeIsInjective, OffsetIsPrefixFree, TimestampIsInjective, VarIntIsPrefixFree, VarUIntIsPrefixFree};

/// A magnitude's bytes determine it.
pub fn magnitude_is_injective()
    ensures { MagnitudeIsInjective }
{}

/// An Int's bytes determine its sign, that of zero too, and its magnitude.
pub fn int_field_is_injective()
    ensures { IntFieldIsInjective }
{}

/// A VarUInt's bytes determine the number and where they end.
pub fn var_uint_is_prefix_free()
    ensures { VarUIntIsPrefixFree }
{}

/// A VarInt's bytes determine its sign, that of zero too, the number and where they end.
pub fn var_int_is_prefix_free()
    ensures { VarIntIsPrefixFree }
{}

/// The bytes of an offset, unknown or not, determine it and where they end.
pub fn offset_is_prefix_free()
    ensures { OffsetIsPrefixFree }
{}

/// A decimal's bytes determine it.
pub fn decimal_is_injective()
    ensures { DecimalIsInjective }
{}

/// A timestamp's bytes determine it.
pub fn timestamp_is_injective()
    ensures { TimestampIsInjective }
{}
