ghost use Rattle.std.specs.Prelude.{◌≡◌};

use pvec::{Row, Shared};
use std::marker::Model;

/// A key and what it leads to, which contracts see as a pair.
#[derive(Drop)]
pub(crate) struct Entry<K, X> {
    key: Shared<K>,
    value: Shared<X>,
}

/// Pairs in the order of their keys.
pub(crate) type Leaf<K, V> = Row<Entry<K, V>>;

/// Leaves in order, each beside its first key.
pub(crate) type Middle<K, V> = Row<Entry<K, Leaf<K, V>>>;

/// Middle rows in order, each beside its first key.
pub(crate) type Upper<K, V> = Row<Entry<K, Middle<K, V>>>;

impl<K, X> Model for Entry<K, X> {
    ghost use Rattle.std.specs.Coded.{coded×};

    ghost Value = { K × X };

    ghost coded = { coded× K.code X.code };

    ghost view = { λ e. (e.key, e.value) };
}

impl<K, X> Entry<K, X> {
    pub(crate) fn new(key: Shared<K>, value: Shared<X>) -> Entry<K, X>
        ensures { result ≡ (key, value) }
    {
        Entry { key, value }
    }

    pub(crate) fn key(&self) -> &K
        ensures { result.now ≡ self.now.0 }
    {
        self.key.get()
    }

    /// The key as it is shared.
    pub(crate) fn shared_key(&self) -> &Shared<K>
        ensures { result.now ≡ self.now.0 }
    {
        &self.key
    }

    pub(crate) fn value(&self) -> &X
        ensures { result.now ≡ self.now.1 }
    {
        self.value.get()
    }
}
