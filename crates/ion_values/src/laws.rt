ghost use Rattle.ion_values.specs.Dates.{DaysAreNumbered};
ghost use Rattle.ion_values.specs.Keys.{EqualKeysAreOne, KeysAreOrdered};

/// Two keys are equal exactly where they are one.
pub fn equal_keys_are_one()
    ensures { EqualKeysAreOne }
{}

/// Keys are in one total order, in which equal keys alone tie.
pub fn keys_are_ordered()
    ensures { KeysAreOrdered }
{}

/// The day after a day has the next number, and the day before it the one before.
pub fn days_are_numbered()
    ensures { DaysAreNumbered }
{}
