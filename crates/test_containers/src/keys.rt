//! Keys of all kinds.
use ion_values::{Bytes, Key, Text};
use pmap::{Keyed, PMap};
use ql_types::{DocId, Steps, TableId};
use std::alloc::Global;
use std::sync::Arc;
use std::test::Fail;

fn number(coefficient: i128, exponent: i32) -> Key {
    Key::Number {
        coefficient,
        exponent,
    }
}

/// Keys of all kinds in their order: by kind, then by content.
fn key(alloc: Global, place: u64) -> Option<Key> {
    match place {
        0 => Some(Key::Bool(false)),
        1 => Some(Key::Bool(true)),
        2 => Some(number(-3, 0)),
        3 => Some(number(2, -1)),
        4 => Some(number(2, 0)),
        5 => Some(Key::Text(Text::from_text(alloc, "a").ok()?)),
        6 => Some(Key::Text(Text::from_text(alloc, "aa").ok()?)),
        7 => Some(Key::Moment(-1)),
        8 => Some(Key::Clob(Bytes::from_slice(alloc, &[97]).ok()?)),
        _ => Some(Key::Blob(Bytes::from_slice(alloc, &[97]).ok()?)),
    }
}

/// The map with the key of this place, which leads to the place.
fn put(alloc: Global, map: &PMap<Key, u64>, place: u64) -> Option<PMap<Key, u64>> {
    let key = Arc::new(alloc, key(alloc, place)?).ok()?;
    map.insert(key, Arc::new(alloc, place).ok()?).ok()
}

/// The map of the ten keys, put in another order.
fn ten(alloc: Global) -> Option<PMap<Key, u64>> {
    let mut map = PMap::new(alloc);
    for place in [0, 7, 4, 1, 8, 5, 2, 9, 6, 3] {
        map = put(alloc, &map, place)?;
    }
    Some(map)
}

/// Whether the map's pairs are in the keys' order.
fn is_in_order(map: &PMap<Key, u64>) -> bool {
    let mut next = 0;
    for (_, place) in map.pairs() {
        if *place != next || next >= 10 {
            return false;
        }
        next += 1;
    }
    next == 10
}

/// Whether ids and texts are in their order, a step each.
fn are_compared(alloc: Global) -> Option<bool> {
    let mut steps = Steps { taken: 0 };
    let text = Text::from_text(alloc, "name").ok()?;
    let documents = DocId { raw: 1 }.against(&DocId { raw: 2 }, &mut steps);
    let tables = TableId { raw: 2 }.against(&TableId { raw: 1 }, &mut steps);
    let texts = text.against(&text, &mut steps);
    Some(documents.is_lt() && tables.is_gt() && texts.is_eq() && steps.taken == 3)
}

#[test]
fn keys_are_in_their_order(rt: HostRuntime) -> Result<(), Fail> {
    let alloc = rt.alloc();
    assert!(rt; are_compared(alloc) == Some(true));
    match ten(alloc) {
        Some(map) => assert!(rt; is_in_order(&map)),
        None => assert!(rt; false),
    }
    Ok(())
}
