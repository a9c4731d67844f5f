ghost use Rattle.laws_descent.specs.Laws.{FieldHashesAreLong, FourFieldsAreLong, FourHashesAreLong, HeadersAgree, IdsAreShort};

/// The serialization of a struct of four fields is longer than two hashes.
pub fn four_fields_are_long()
    ensures { FourFieldsAreLong }
{}

/// The serialization of a struct of four fields, from their hashes, is longer than two hashes.
pub fn four_hashes_are_long()
    ensures { FourHashesAreLong }
{}

/// The hash of a field has 32 bytes.
pub fn field_hashes_are_long()
    ensures { FieldHashesAreLong }
{}

/// The serialization of an id is shorter than two hashes.
pub fn ids_are_short()
    ensures { IdsAreShort }
{}

/// Equivalent values of headers have one sequence number and one count of revisions.
pub fn headers_agree()
    ensures { HeadersAgree }
{}
