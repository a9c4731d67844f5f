ghost use Rattle.ion_extract.specs.Laws.{AnnotatedIsInjective, BytesDetermineBodies, EquivalentSerializeAlike, EscapeIsInjective, FieldFormIsInjective, FrameIsInjective, HashesDetermineFields, IntIsInjective, JoinedHashesAreInjective, JoinedIsInjective, NullQualifierIsInjective, SerializeIsPrefixFree};

/// Escaped bytes determine the bytes.
pub fn escape_is_injective()
    ensures { EscapeIsInjective }
{}

/// A frame determines its type qualifier and its content.
pub fn frame_is_injective()
    ensures { FrameIsInjective }
{}

/// A serialization in front of other bytes determines itself and where it ends.
pub fn serialize_is_prefix_free()
    ensures { SerializeIsPrefixFree }
{}

/// Joined serializations of members determine each of them.
pub fn joined_is_injective()
    ensures { JoinedIsInjective }
{}

/// A null's type qualifier determines its type.
pub fn null_qualifier_is_injective()
    ensures { NullQualifierIsInjective }
{}

/// An int's type qualifier and magnitude determine it.
pub fn int_is_injective()
    ensures { IntIsInjective }
{}

/// A serialization determines the annotations, and the serialization of the value without them.
pub fn annotated_is_injective()
    ensures { AnnotatedIsInjective }
{}

/// Hashes of 32 bytes, joined, determine the hashes.
pub fn joined_hashes_are_injective()
    ensures { JoinedHashesAreInjective }
{}

/// A field's hashed bytes determine its name and its value's serialization.
pub fn field_form_is_injective()
    ensures { FieldFormIsInjective }
{}

/// The hashes of fields, in order, determine the fields if fields of equal hash are equivalent.
pub fn hashes_determine_fields()
    ensures { HashesDetermineFields }
{}

/// The serialization of a value without annotations determines it, as far as those of its members determine them.
pub fn bytes_determine_bodies()
    ensures { BytesDetermineBodies }
{}

/// Equivalent values have one serialization.
pub fn equivalent_serialize_alike()
    ensures { EquivalentSerializeAlike }
{}
