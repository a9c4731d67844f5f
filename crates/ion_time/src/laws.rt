ghost use Rattle.ion_time.specs.Laws.{MillisNameTimes, MillisOrderTimes, NoneIsNearer};

/// At most one timestamp begins at a millisecond.
pub fn millis_name_times()
    ensures { MillisNameTimes }
{}

/// The timestamps are in the order of their milliseconds.
pub fn millis_order_times()
    ensures { MillisOrderTimes }
{}

/// The nearest millisecond is of the years 0001 to 9999, and none of these is nearer.
pub fn none_is_nearer()
    ensures { NoneIsNearer }
{}
