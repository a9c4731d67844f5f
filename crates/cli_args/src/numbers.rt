//! Numbers among the words.
ghost use Rattle.std.specs.Prelude.{◌≡◌};
ghost use Rattle.std.specs.Char.{is_ascii_digit};
ghost use Rattle.std.specs.List.{list_all};
ghost use Rattle.cli_args.specs.Numbers.{count_of, from_one_to, has_zero_in_front, is_number, number_of};

/// The number of 64 bits that the word writes.
///
/// It has decimal digits without a sign and without a zero in front.
#[tactic(auto, unfolding(crate::specs::Numbers::number_of))]
pub fn number_of(word: &str) -> Option<u64>
    ensures { result ≡ number_of 64 word.now }
{
    if !is_number(word.as_bytes()) {
        return None;
    }
    word.parse::<u64>().ok()
}

/// The number of 32 bits that the word writes.
///
/// It has decimal digits without a sign and without a zero in front.
#[tactic(auto, unfolding(crate::specs::Numbers::number_of))]
pub fn small_number_of(word: &str) -> Option<u32>
    ensures { result ≡ number_of 32 word.now }
{
    if !is_number(word.as_bytes()) {
        return None;
    }
    word.parse::<u32>().ok()
}

/// The number, where it is from 1 to this many.
fn from_one_to(most: u32, count: u32) -> Option<u32>
    ensures { result ≡ from_one_to most count }
{
    if count == 0 || count > most {
        return None;
    }
    Some(count)
}

/// How many of something the word says, from 1 to this many.
pub fn count_of(word: &str, most: u32) -> Option<u32>
    ensures { result ≡ count_of most word.now }
{
    from_one_to(most, small_number_of(word)?)
}

fn is_number(word: &[u8]) -> bool
    ensures { result ≡ is_number word.now }
{
    !word.is_empty() && are_digits(word) && !has_zero_in_front(word)
}

/// Whether a zero stands in front of another byte.
fn has_zero_in_front(word: &[u8]) -> bool
    ensures { result ≡ has_zero_in_front word.now }
{
    match word {
        [first, _, ..] => *first == b'0',
        _ => false,
    }
}

fn are_digits(word: &[u8]) -> bool
    ensures { result ≡ list_all is_ascii_digit word.now }
{
    word.iter().all(|byte| byte.is_ascii_digit())
}
