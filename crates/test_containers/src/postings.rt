//! Postings, change by change.
use index_post::Postings;
use ion_values::Key;
use std::alloc::Global;
use std::mem;
use std::test::Fail;

/// `change POSITION OLD NEW` changes the key of a position, `-` being none. `now KEY` and `before KEY` tell the
/// positions of a key, in order, now and before the last change.
const LINES: &str = "change 4 - 5
change 1 - 5
change 3 - 5
change 1 - 5
change 2 - 6
now 5 1 3 4
change 3 5 6
before 5 1 3 4
now 5 1 4
now 6 2 3
change 2 6 -
before 5 1 4
before 6 2 3
now 6 3
now 7";

fn number(coefficient: i128) -> Key {
    Key::Number {
        coefficient,
        exponent: 0,
    }
}

/// The key that a word tells.
fn key_of(word: &str) -> Option<Key> {
    Some(number(word.parse::<i128>().ok()?))
}

fn changed(postings: &Postings, told: &str) -> Option<Postings> {
    let (position, keys) = told.split_once(' ')?;
    let (old, new) = keys.split_once(' ')?;
    let position = position.parse::<u64>().ok()?;
    let (old, new) = (key_of(old), key_of(new));
    postings.change(position, old.as_ref(), new.as_ref()).ok()
}

/// The positions of a key, in order.
fn positions_text(alloc: Global, postings: &Postings, key: &Key) -> Option<String> {
    let mut told = String::new(alloc);
    for position in postings.of(key) {
        let position = format!(in alloc; " {position}");
        told.push_str(position.ok()?.as_str()).ok()?;
    }
    Some(told)
}

/// Whether a key has the positions that are told behind it.
fn has(alloc: Global, postings: &Postings, told: &str) -> Option<bool> {
    let (word, wanted) = told.split_once(' ').unwrap_or((told, ""));
    let key = key_of(word)?;
    Some(positions_text(alloc, postings, &key)?.as_str().trim_start() == wanted)
}

/// Postings, and what they were before the last change.
#[derive(Drop)]
struct Both {
    before: Postings,
    now: Postings,
}

impl Both {
    /// Makes the change, or tells whether the postings are what the line says.
    fn take(&mut self, alloc: Global, line: &str) -> Option<bool> {
        let (verb, told) = line.split_once(' ')?;
        match verb {
            "now" => has(alloc, &self.now, told),
            "before" => has(alloc, &self.before, told),
            _ => {
                let next = changed(&self.now, told)?;
                self.before = mem::replace(&mut self.now, next);
                Some(true)
            }
        }
    }
}

/// The first line that doesn't come out as it says.
fn failing(alloc: Global) -> Option<&'static str> {
    let mut both = Both {
        before: Postings::new(alloc),
        now: Postings::new(alloc),
    };
    for line in LINES.lines() {
        if both.take(alloc, line) != Some(true) {
            return Some(line);
        }
    }
    None
}

#[test]
fn positions_come_in_order(rt: HostRuntime) -> Result<(), Fail> {
    assert_eq!(rt; failing(rt.alloc()), None);
    Ok(())
}
