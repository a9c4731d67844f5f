ghost use Rattle.ion_order.specs.Laws.{KeysTellEqual, NumbersAreOrdered, ValuesAreOrdered};

/// Two values compare as equal exactly where they have the same key.
pub fn keys_tell_equal()
    ensures { KeysTellEqual }
{}

/// Numbers are in one total order, ints and decimals together.
pub fn numbers_are_ordered()
    ensures { NumbersAreOrdered }
{}

/// The other way round a comparison is reversed, what is less than something less is less, and
/// values that compare as equal compare alike with all others.
pub fn values_are_ordered()
    ensures { ValuesAreOrdered }
{}
