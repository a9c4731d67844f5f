ghost use Rattle.hash_model.specs.Laws.{DigitsTellNumbers, UtcDatesTellInstants};

/// The digits of a number in a base, with the mark taken off the first, stand for the number, in the
/// shortest form whose first digit is below the limit.
pub fn digits_tell_numbers()
    ensures { DigitsTellNumbers }
{}

/// The date and the clock in UTC that stand in the bytes of a timestamp are those of its instant.
pub fn utc_dates_tell_instants()
    ensures { UtcDatesTellInstants }
{}
