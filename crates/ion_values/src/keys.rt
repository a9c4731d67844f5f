ghost use Rattle.std.specs.Prelude.{◌≡◌, Some, refl, IfOk};
ghost use Rattle.std.specs.Cmp.{partial_equiv_from_equiv, partial_order_from_agreeing_total};
ghost use Rattle.ion_values.specs.Keys.{compare_keys, is_same_key, kind_of};
ghost use Rattle.ion_values.specs.KeyOrder.{keys_total, same_key_equiv, ties_are_same};

use crate::value::Key;
use containers::{Bytes, OutOfMemory};
use std::alloc::Global;
use std::cmp::Ordering;

impl Key {
    /// A key that equals this one.
    pub fn copy(&self, alloc: Global) -> Result<Key, OutOfMemory>
        ensures { IfOk result (λ new. new ≡ self.now) }
    {
        Ok(match self {
            Key::Bool(truth) => Key::Bool(*truth),
            Key::Number {
                coefficient,
                exponent,
            } => Key::Number {
                coefficient: *coefficient,
                exponent: *exponent,
            },
            Key::Text(text) => Key::Text(text.copy(alloc)?),
            Key::Moment(moment) => Key::Moment(*moment),
            Key::Clob(bytes) => Key::Clob(Bytes::from_slice(alloc, bytes.as_slice())?),
            Key::Blob(bytes) => Key::Blob(Bytes::from_slice(alloc, bytes.as_slice())?),
        })
    }
}

impl PartialEq for Key {
    ghost eq = { is_same_key };

    ghost laws = { partial_equiv_from_equiv same_key_equiv };

    fn eq(&self, other: &Key) -> bool {
        match (self, other) {
            (Key::Bool(a), Key::Bool(b)) => a == b,
            (
                Key::Number {
                    coefficient: a,
                    exponent: b,
                },
                Key::Number {
                    coefficient: c,
                    exponent: d,
                },
            ) => a == c && b == d,
            (Key::Text(a), Key::Text(b)) => a.as_str() == b.as_str(),
            (Key::Moment(a), Key::Moment(b)) => a == b,
            (Key::Clob(a), Key::Clob(b)) => a.as_slice() == b.as_slice(),
            (Key::Blob(a), Key::Blob(b)) => a.as_slice() == b.as_slice(),
            _ => false,
        }
    }
}

impl Eq for Key {
    ghost laws = { same_key_equiv };
}

impl PartialOrd for Key {
    ghost partial_cmp = { λ a b. Some (compare_keys a b) };

    ghost laws = { partial_order_from_agreeing_total compare_keys keys_total (λ a b. refl) ties_are_same };

    fn partial_cmp(&self, other: &Key) -> Option<Ordering> {
        Some(self.cmp(other))
    }
}

/// Keys of one kind by what they hold, a number's by its coefficient and then its exponent, and keys
/// of different kinds as the type lists them.
impl Ord for Key {
    ghost cmp = { compare_keys };

    ghost total = { keys_total };

    ghost matches_partial_cmp = { λ a b. refl };

    ghost matches_eq = { ties_are_same };

    fn cmp(&self, other: &Key) -> Ordering {
        match (self, other) {
            (Key::Bool(a), Key::Bool(b)) => a.cmp(b),
            (
                Key::Number {
                    coefficient: a,
                    exponent: b,
                },
                Key::Number {
                    coefficient: c,
                    exponent: d,
                },
            ) => a.cmp(c).then(b.cmp(d)),
            (Key::Text(a), Key::Text(b)) => a.as_str().cmp(b.as_str()),
            (Key::Moment(a), Key::Moment(b)) => a.cmp(b),
            (Key::Clob(a), Key::Clob(b)) => a.as_slice().cmp(b.as_slice()),
            (Key::Blob(a), Key::Blob(b)) => a.as_slice().cmp(b.as_slice()),
            _ => kind_of(self).cmp(&kind_of(other)),
        }
    }
}

/// The place of a key's kind among the kinds.
fn kind_of(key: &Key) -> u8
    ensures { result ≡ kind_of key.now }
{
    match key {
        Key::Bool(_) => 0,
        Key::Number { .. } => 1,
        Key::Text(_) => 2,
        Key::Moment(_) => 3,
        Key::Clob(_) => 4,
        Key::Blob(_) => 5,
    }
}
