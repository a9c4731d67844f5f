//! Maps of numbers, step by step.
use pmap::PMap;
use ql_types::Steps;
use std::alloc::Global;
use std::mem;
use std::sync::Arc;
use std::test::Fail;

/// The steps change the map:
///
/// - `fill COUNT FACTOR FLIP` makes it that of `COUNT` pairs, a number times the factor with the bits flipped first;
/// - `put KEY VALUE` and `drop KEY` change a pair; `clear COUNT` drops the keys below the count, each of which is
///   then gone;
/// - `new` makes it empty, and `share` one that is shared.
///
/// The other lines tell what it is:
///
/// - `now` and `before`: its pairs with keys below 10, all of them, and those before the last step,
/// - `len` how many it has;
/// - `get KEY VALUE` a pair that is found in 36 steps, `none KEY` a key it has not;
/// - `range LOW HIGH` the keys in a range, `keys COUNT` that the keys are the numbers below the count.
const LINES: &str = "# pairs of many rows: 3,001 has 12 binary digits
fill 3000 1 1
len 3000
get 0 1
get 1 0
get 1536 1537
get 2999 2998
none 3000
keys 3000
# removed pairs are gone
fill 1000 1 0
clear 999
drop 5
len 1
range 0 2000 999
drop 999
len 0
range 0 2000
put 7 8
get 7 8
# earlier versions stay
new
now
put 5 50
before
now 5:50
put 6 60
before 5:50
now 5:50 6:60
put 5 51
before 5:50 6:60
now 5:51 6:60
drop 6
before 5:51 6:60
now 5:51
share
before 5:51
now 5:51
none 6
# ranges have both ends
fill 1000 10 0
range 2555 2580 2560 2570 2580
range 9980 20000 9980 9990
range 30 20";

/// The value of a key.
fn value_of(map: &PMap<u64, u64>, key: u64) -> Option<u64> {
    map.get(&key, &mut Steps { taken: 0 }).copied()
}

fn put(alloc: Global, map: &PMap<u64, u64>, key: u64, value: u64) -> Option<PMap<u64, u64>> {
    let key = Arc::new(alloc, key).ok()?;
    map.insert(key, Arc::new(alloc, value).ok()?).ok()
}

fn filled(alloc: Global, count: u64, factor: u64, flip: u64) -> Option<PMap<u64, u64>> {
    let mut map = PMap::new(alloc);
    for number in 0..count {
        let key = number.checked_mul(factor)? ^ flip;
        map = put(alloc, &map, key, number)?;
    }
    Some(map)
}

/// The map without the keys below the count, or None where one of them is still found.
fn cleared(map: &PMap<u64, u64>, count: u64) -> Option<PMap<u64, u64>> {
    let mut left = map.share().ok()?;
    for key in 0..count {
        left = left.remove(&key).ok()?;
        if value_of(&left, key).is_some() {
            return None;
        }
    }
    Some(left)
}

/// The number that a word tells.
fn number(word: Option<&str>) -> Option<u64> {
    word?.parse::<u64>().ok()
}

/// The map behind a step.
fn behind(alloc: Global, map: &PMap<u64, u64>, line: &str) -> Option<PMap<u64, u64>> {
    let mut words = line.split(' ');
    match words.next()? {
        "new" => Some(PMap::new(alloc)),
        "share" => map.share().ok(),
        "put" => put(alloc, map, number(words.next())?, number(words.next())?),
        "drop" => map.remove(&number(words.next())?).ok(),
        "clear" => cleared(map, number(words.next())?),
        "fill" => {
            let (count, factor) = (number(words.next())?, number(words.next())?);
            filled(alloc, count, factor, number(words.next())?)
        }
        _ => None,
    }
}

/// The pairs with keys below 10, each found by its key.
fn found_text(alloc: Global, map: &PMap<u64, u64>) -> Option<String> {
    let mut told = String::new(alloc);
    for key in 0..10u64 {
        if let Some(value) = value_of(map, key) {
            let pair = format!(in alloc; " {key}:{value}");
            told.push_str(pair.ok()?.as_str()).ok()?;
        }
    }
    Some(told)
}

/// All pairs, in order.
fn pairs_text(alloc: Global, map: &PMap<u64, u64>) -> Option<String> {
    let mut told = String::new(alloc);
    for (key, value) in map.pairs() {
        let pair = format!(in alloc; " {key}:{value}");
        told.push_str(pair.ok()?.as_str()).ok()?;
    }
    Some(told)
}

/// The keys in a range, in order.
fn range_text(alloc: Global, map: &PMap<u64, u64>, low: u64, high: u64) -> Option<String> {
    let mut told = String::new(alloc);
    for (key, _) in map.range(&low, &high) {
        let key = format!(in alloc; " {key}");
        told.push_str(key.ok()?.as_str()).ok()?;
    }
    Some(told)
}

/// Whether the map has these pairs, found and in order.
fn has(alloc: Global, map: &PMap<u64, u64>, pairs: &str) -> Option<bool> {
    let found = found_text(alloc, map)?;
    Some(found.as_str() == pairs && pairs_text(alloc, map)?.as_str() == pairs)
}

/// Whether the keys are the numbers below the count, in order.
fn has_keys(map: &PMap<u64, u64>, count: u64) -> bool {
    let mut next = 0;
    for (key, _) in map.pairs() {
        if *key != next || next >= count {
            return false;
        }
        next += 1;
    }
    next == count
}

/// Whether the key leads to the value in 36 steps.
fn leads(map: &PMap<u64, u64>, key: u64, value: u64) -> bool {
    let mut steps = Steps { taken: 0 };
    map.get(&key, &mut steps).copied() == Some(value) && steps.taken <= 36
}

fn is_range(alloc: Global, map: &PMap<u64, u64>, told: &str) -> Option<bool> {
    let mut words = told.splitn(3, ' ');
    let (low, high) = (number(words.next())?, number(words.next())?);
    let keys = range_text(alloc, map, low, high)?;
    Some(keys.as_str().trim_start() == words.next().unwrap_or(""))
}

/// Whether the map is what the line tells, or None where it tells nothing of it.
fn is_so(alloc: Global, map: &PMap<u64, u64>, line: &str) -> Option<bool> {
    if let Some(told) = line.strip_prefix("range ") {
        return is_range(alloc, map, told);
    }
    let mut words = line.split(' ');
    match words.next()? {
        "len" => Some(map.len() == number(words.next())?),
        "get" => Some(leads(map, number(words.next())?, number(words.next())?)),
        "none" => Some(value_of(map, number(words.next())?).is_none()),
        "keys" => Some(has_keys(map, number(words.next())?)),
        _ => None,
    }
}

/// A map, and what it was before the last step.
#[derive(Drop)]
struct Maps {
    before: PMap<u64, u64>,
    now: PMap<u64, u64>,
}

impl Maps {
    /// Takes the step, or tells whether the map is what the line says.
    fn take(&mut self, alloc: Global, line: &str) -> Option<bool> {
        if let Some(pairs) = line.strip_prefix("now") {
            return has(alloc, &self.now, pairs);
        }
        if let Some(pairs) = line.strip_prefix("before") {
            return has(alloc, &self.before, pairs);
        }
        if let Some(so) = is_so(alloc, &self.now, line) {
            return Some(so);
        }
        let next = behind(alloc, &self.now, line)?;
        self.before = mem::replace(&mut self.now, next);
        Some(true)
    }
}

/// The first line that doesn't come out as it says.
fn failing(alloc: Global) -> Option<&'static str> {
    let mut maps = Maps {
        before: PMap::new(alloc),
        now: PMap::new(alloc),
    };
    for line in LINES.lines() {
        if !line.starts_with("#") && maps.take(alloc, line) != Some(true) {
            return Some(line);
        }
    }
    None
}

#[test]
fn maps_are_told(rt: HostRuntime) -> Result<(), Fail> {
    assert_eq!(rt; failing(rt.alloc()), None);
    Ok(())
}
