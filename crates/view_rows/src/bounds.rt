//! The bounds of a history.
ghost use Rattle.std.specs.Prelude.{◌≡◌, int_le};
ghost use Rattle.pql_model.specs.Made.{seen};
ghost use Rattle.ledger_model.specs.CommittedViews as spec;
ghost use Rattle.ledger_model.specs.CommittedViews.{moment_seen, on_bound};

use ion_values::{Body, Value};

/// The bounds of a history: each a value, or None where it isn't given.
#[derive(Clone, Copy)]
pub(crate) struct Bounds<'a> {
    pub start: &'a Option<Value>,
    pub end: &'a Option<Value>,
}

/// The moment that a bound names, in billionths of a second since 1970 in UTC, or None where it is no timestamp.
fn moment(bound: &Value) -> Option<i128>
    ensures { result ≡ moment_seen (seen bound.now) }
{
    match &bound.body {
        Body::Timestamp(time) => Some(time.instant()),
        _ => None,
    }
}

/// Whether the end isn't given, or is this moment or a later one.
fn ends_from(end: &Option<Value>, from: i128) -> bool
    ensures { result ≡ on_bound (int_le from) end.now }
{
    match end {
        None => true,
        Some(end) => match moment(end) {
            None => false,
            Some(end) => from <= end,
        },
    }
}

/// Whether the start isn't given, or something that was active from one moment, and before another where there is one,
/// began no earlier or was still active.
fn is_met(start: &Option<Value>, from: i128, to: Option<i128>) -> bool
    ensures { result ≡ on_bound (spec.lasts_from from to) start.now }
{
    match start {
        None => true,
        Some(start) => match moment(start) {
            None => false,
            Some(start) => lasts_from(from, to, start),
        },
    }
}

fn lasts_from(from: i128, to: Option<i128>, start: i128) -> bool
    ensures { result ≡ spec.lasts_from from to start }
{
    start <= from
        || match to {
            None => true,
            Some(to) => start < to,
        }
}

impl Bounds<'_> {
    fn are_in_order(&self) -> bool
        ensures { result ≡ spec.in_order self.now.start.now self.now.end.now }
    {
        match self.start {
            None => true,
            Some(start) => match moment(start) {
                None => false,
                Some(start) => ends_from(self.end, start),
            },
        }
    }

    /// Whether something was active between the bounds that was so from one moment, and before another where
    /// there is one.
    pub(crate) fn hold(&self, from: i128, to: Option<i128>) -> bool
        ensures { result ≡ spec.is_between self.now.start.now self.now.end.now from to }
    {
        self.are_in_order() && ends_from(self.end, from) && is_met(self.start, from, to)
    }
}
