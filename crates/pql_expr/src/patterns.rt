//! The patterns of LIKE: `%` is any run of characters, `_` one character.
ghost use Rattle.std.specs.Prelude.{◌≡◌, ◌<◌, ◌≤◌, ◌+◌, ◌==◌, ◌&&◌, [], length, take, drop, vec_len, false, IfOk, IfSome, OnOk};
ghost use Rattle.std.specs.Option.{option_map_or};
ghost use Rattle.pql_model.specs.Texts as spec;
ghost use Rattle.pql_expr.specs.Ends.{by_length, longer, takes};

use containers::OutOfMemory;
use std::alloc::Global;
use std::mem;

const ANY_RUN: char = '%';

const ANY_CHARACTER: char = '_';

// Whether each end of the text fits the empty pattern, by the length of the end.
fn of_no_pattern(alloc: Global, text: &[char]) -> Result<Vec<bool>, OutOfMemory>
    ensures value { IfOk result (λ ends. ends.items ≡ by_length (spec.fits []) text.now) }
    ensures room { IfOk result (λ ends. vec_len ends ≡ length text.now + 1) }
{
    let mut ends = Vec::new(alloc);
    ends.push(true)?;
    let mut at = text.len();
    'ends: while at > 0 {
        at -= 1;
        ends.push(false)?;
    }
    Ok(ends)
}

// Whether an end of the text fits a pattern that begins with `first`, where the end begins with
// `character`: `here` says whether the end fits the pattern behind `first`, `behind` whether what is
// behind its first character does, and `last` whether that fits the whole pattern.
fn is_longer(first: char, character: char, here: bool, behind: bool, last: bool) -> bool
    ensures { result ≡ longer first character here behind last }
{
    if first == ANY_RUN {
        return here || last;
    }
    (first == ANY_CHARACTER || first == character) && behind
}

// Whether no characters fit a pattern that begins with `first`, where `behind` says whether they fit
// the pattern behind it.
fn is_empty_run(first: char, behind: bool) -> bool
    ensures { result ≡ ((first == 37) && behind) }
{
    first == ANY_RUN && behind
}

// Puts the same of a pattern into `ends`, from what is known of the pattern behind its first character.
fn of_longer(
    pattern: &[char],
    text: &[char],
    shorter: &[bool],
    ends: &mut Vec<bool>,
) -> Result<(), OutOfMemory>
    requires some { 0 < length pattern.now }
    requires room { length shorter.now ≡ length text.now + 1 }
    requires known { shorter.now ≡ by_length (spec.fits (drop 1 pattern.now)) text.now }
    ensures value { OnOk result (ends.new.items ≡ by_length (spec.fits pattern.now) text.now) }
    ensures room { OnOk result (vec_len ends.new ≡ length text.now + 1) }
{
    let first = pattern[0];
    let mut fits = is_empty_run(first, shorter[0]);
    ends.clear();
    ends.push(fits)?;
    let mut at = text.len();
    'ends: while at > 0 {
        at -= 1;
        let length = text.len() - at;
        fits = is_longer(first, text[at], shorter[length], shorter[length - 1], fits);
        ends.push(fits)?;
    }
    Ok(())
}

// Whether the whole text fits the pattern, by the ends of both. It takes memory for the text and time for the product
// of the two lengths.
fn fits_by_ends(alloc: Global, pattern: &[char], text: &[char]) -> Result<bool, OutOfMemory>
    ensures { IfOk result (λ holds. holds ≡ spec.fits pattern.now text.now) }
{
    let mut ends = of_no_pattern(alloc, text)?;
    let mut longer = Vec::new(alloc);
    let mut at = pattern.len();
    'pattern: while at > 0 {
        at -= 1;
        of_longer(&pattern[at..], text, ends.as_slice(), &mut longer)?;
        mem::swap(&mut ends, &mut longer);
    }
    Ok(ends[text.len()])
}

fn is_any_run(first: char) -> bool
    ensures { result ≡ (first == 37) }
{
    first == ANY_RUN
}

// Whether a character of a pattern, other than `%`, takes the character.
fn takes(first: char, character: char) -> bool
    ensures { result ≡ takes first character }
{
    first == ANY_CHARACTER || first == character
}

// How many characters stand in front of the pattern's first `%`, where the text begins with characters that they take,
// and None where it doesn't.
fn front(pattern: &[char], text: &[char]) -> Option<usize>
    ensures within { IfSome result (λ n. (n ≤ length pattern.now) × (n ≤ length text.now)) }
    ensures fits { spec.fits pattern.now text.now
        ≡ option_map_or (λ n. spec.fits (drop n pattern.now) (drop n text.now)) result false }
{
    let mut at = 0;
    'characters: while at < pattern.len() {
        let first = pattern[at];
        if is_any_run(first) {
            return Some(at);
        }
        if at == text.len() {
            return None;
        }
        if !takes(first, text[at]) {
            return None;
        }
        at += 1;
    }
    Some(at)
}

// How much of the pattern and of the text is left in front of the characters behind the pattern's last `%`, where the
// text ends with characters that these take, and None where it doesn't.
fn back(pattern: &[char], text: &[char]) -> Option<(usize, usize)>
    ensures within { IfSome result (λ n. (n.0 ≤ length pattern.now) × (n.1 ≤ length text.now)) }
    ensures fits { spec.fits pattern.now text.now
        ≡ option_map_or (λ n. spec.fits (take n.0 pattern.now) (take n.1 text.now)) result false }
{
    let mut pattern_left = pattern.len();
    let mut text_left = text.len();
    'characters: while pattern_left > 0 {
        let last = pattern[pattern_left - 1];
        if is_any_run(last) {
            return Some((pattern_left, text_left));
        }
        if text_left == 0 {
            return None;
        }
        if !takes(last, text[text_left - 1]) {
            return None;
        }
        pattern_left -= 1;
        text_left -= 1;
    }
    Some((pattern_left, text_left))
}

fn is_empty(text: &[char]) -> bool
    ensures { result ≡ spec.is_empty text.now }
{
    match text {
        [] => true,
        _ => false,
    }
}

// Whether the text fits a pattern of which nothing stands in front of the first `%` or behind the last one.
fn fits_between(alloc: Global, pattern: &[char], text: &[char]) -> Result<bool, OutOfMemory>
    ensures { IfOk result (λ holds. holds ≡ spec.fits pattern.now text.now) }
{
    match pattern {
        [] => Ok(is_empty(text)),
        [only] if is_any_run(*only) => Ok(true),
        _ => fits_by_ends(alloc, pattern, text),
    }
}

fn fits_behind(alloc: Global, pattern: &[char], text: &[char]) -> Result<bool, OutOfMemory>
    ensures { IfOk result (λ holds. holds ≡ spec.fits pattern.now text.now) }
{
    match back(pattern, text) {
        Some((pattern_left, text_left)) => fits_between(
            alloc,
            &pattern[..pattern_left],
            &text[..text_left],
        ),
        None => Ok(false),
    }
}

/// Whether the whole text fits the pattern. What stands in front of the pattern's first `%` and behind its last one is
/// compared with the text's ends. For what is between it takes memory for the text and time for the product of the two
/// lengths.
pub fn fits(alloc: Global, pattern: &[char], text: &[char]) -> Result<bool, OutOfMemory>
    ensures { IfOk result (λ holds. holds ≡ spec.fits pattern.now text.now) }
{
    match front(pattern, text) {
        Some(at) => fits_behind(alloc, &pattern[at..], &text[at..]),
        None => Ok(false),
    }
}
