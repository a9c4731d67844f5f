//! Hashes, ids and addresses: the small types that every layer of the ledger names.
#![tactic(auto)]

ghost use Rattle.std.specs.Prelude.{◌≡◌, ◌≢◌, ℕ, ◌+◌, ◌*◌, ◌<◌, ◌≤◌, ◌^◌, ◌++◌, All, IfSome, IsTrue, MatchResult, SomeIff, drop, length};
ghost use Rattle.std.specs.Result.{result_ok};
ghost use Rattle.ql_types.specs.Ids.{raw_id, transaction_in, thing_in, digits_of, id_text, is_letter_or_digit, value_of, id_in};

/// A SHA-256 digest (FIPS 180-4).
#[derive(Clone, Copy, Debug, PartialEq, Eq)]
pub struct Hash32 {
    pub bytes: [u8; 32],
}

/// A digest, or the empty hash of nothing.
#[derive(Clone, Copy, Debug, PartialEq, Eq)]
pub enum Hash {
    Empty,
    Full(Hash32),
}

/// The id of a journal strand.
#[derive(Clone, Copy, Debug, PartialEq, Eq)]
pub struct StrandId {
    pub raw: u128,
}

/// The id of a transaction.
#[derive(Clone, Copy, Debug, PartialEq, Eq)]
pub struct TxId {
    pub raw: u128,
}

/// The id of a document.
#[derive(Clone, Copy, Debug, PartialEq, Eq)]
pub struct DocId {
    pub raw: u128,
}

/// The id of a table.
#[derive(Clone, Copy, Debug, PartialEq, Eq)]
pub struct TableId {
    pub raw: u128,
}

/// Where a block stands: its strand, and its place there, from 0.
#[derive(Clone, Copy, Debug, PartialEq, Eq)]
pub struct BlockAddress {
    pub strand: StrandId,
    pub sequence: u64,
}

/// Where a transaction stands in a script: its session, and its place there, both from 1.
#[derive(Clone, Copy, Debug, PartialEq, Eq)]
pub struct Place {
    pub session: u32,
    pub transaction: u32,
}

/// What the numbers of a journal's ids are mixed with.
#[derive(Clone, Copy, Debug, PartialEq, Eq)]
pub struct IdMask {
    pub bits: u128,
}

/// The text is not an id.
#[derive(Clone, Copy, Debug, PartialEq, Eq)]
pub struct NotAnId;

/// A counter of steps.
#[derive(Clone, Copy, Debug, PartialEq, Eq)]
pub struct Steps {
    pub taken: u64,
}

/// The digits of ids, from 0 to 61.
const ALPHABET: [u8; 62] = *b"0123456789ABCDEFGHIJKLMNOPQRSTUVWXYZabcdefghijklmnopqrstuvwxyz";

/// The number of the id of what transaction `n` makes, counted from 1: 0 in `i` is the transaction
/// itself, and 1 and up are the tables and documents that it makes, in order.
pub fn id_raw(mask: IdMask, n: u64, i: u32) -> u128
    requires { i < 2 ^ 24 }
    ensures { result ≡ raw_id mask.bits n i }
{
    (u128::from(n) * (1 << 24) + u128::from(i)) ^ mask.bits
}

/// What `id_raw` made the id's number of: the transaction and the thing. None comes where the transaction's number
/// would not fit 64 bits.
pub fn id_parts(mask: IdMask, raw: u128) -> Option<(u64, u32)>
    ensures parts { SomeIff result (transaction_in mask.bits raw < 2 ^ 64) (
      transaction_in mask.bits raw,
      thing_in mask.bits raw,
    ) }
    ensures made { IfSome result (λ parts. raw ≡ raw_id mask.bits parts.0 parts.1) }
    ensures undoes { (n i : ℕ) → n < 2 ^ 64 → i < 2 ^ 24 → raw ≡ raw_id mask.bits n i → result ≡ Some (n, i) }
{
    let number = raw ^ mask.bits;
    let n = u64::try_from(number / (1 << 24)).ok()?;
    let i = (number % (1 << 24)) as u32;
    Some((n, i))
}

/// How many numbers ten digits spell. Each of them fits 64 bits.
const TEN_DIGITS: u128 = 839_299_365_868_340_224;

/// The 22 digits of the id of this number, most significant first. The number is divided into three parts that fit 64
/// bits, and then each part into its digits.
pub fn id_digits(raw: u128) -> [u8; 22]
    ensures text { result ≡ id_text raw }
    ensures letters { All (λ byte. IsTrue (is_letter_or_digit byte)) result }
    ensures ascii { All (λ byte. byte < 128) result }
    ensures long { length result ≡ 22 }
{
    let mut text = [0; 22];
    let front = raw / TEN_DIGITS;
    put_digits(&mut text, 12, 10, (raw % TEN_DIGITS) as u64);
    put_digits(&mut text, 2, 10, (front % TEN_DIGITS) as u64);
    put_digits(&mut text, 0, 2, (front / TEN_DIGITS) as u64);
    text
}

/// Writes a number's last `count` digits from a place on. The bytes after them stay.
fn put_digits(text: &mut [u8; 22], from: usize, count: usize, number: u64)
    requires { from + count ≤ 22 }
    ensures { drop from text.new ≡ digits_of count number ++ drop (from + count) text.old }
{
    let mut rest = number;
    'digits: for written in 0..count {
        text[from + count - 1 - written] = ALPHABET[(rest % 62) as usize];
        rest /= 62;
    }
}

/// The number of a digit of ids.
fn value_of(digit: u8) -> Option<u8>
    ensures { result ≡ value_of digit }
{
    match digit {
        b'0'..=b'9' => Some(digit - b'0'),
        b'A'..=b'Z' => Some(digit - b'A' + 10),
        b'a'..=b'z' => Some(digit - b'a' + 36),
        _ => None,
    }
}

/// The number that digits spell, the last of which has this value and the others spell `number`.
fn with_digit(number: u128, value: u8) -> Option<u128>
    ensures { SomeIff result (number * 62 + value < 2 ^ 128) (number * 62 + value) }
{
    number.checked_mul(62)?.checked_add(u128::from(value))
}

/// The number of the id with this text, if there is one.
#[tactic(auto, unfolding(crate::proofs::Spelled::spelled_behind))]
fn id_in(text: &[u8]) -> Option<u128>
    ensures { result ≡ id_in text.now }
{
    if text.len() != 22 {
        return None;
    }
    let mut number = 0;
    'digits: for digit in text {
        number = with_digit(number, value_of(*digit)?)?;
    }
    Some(number)
}

/// The number of the id with this text. `NotAnId` comes where the text isn't 22 digits, or their number doesn't fit
/// 128 bits.
pub fn id_read(text: &[u8]) -> Result<u128, NotAnId>
    ensures value { result_ok result ≡ id_in text.now }
    ensures text { MatchResult result (λ raw. id_text raw ≡ text.now) (λ _. (raw : ℕ) → raw < 2 ^ 128 →
        id_text raw ≢ text.now) }
{
    id_in(text).ok_or(NotAnId)
}
