//! The parts of blocks that values spell.
ghost use Rattle.std.specs.Prelude.{◌≡◌, ◌^◌};
ghost use Rattle.std.specs.Option.{option_copied};
ghost use Rattle.value_codec.specs.ReadParts as spec;

use ion_values::{Body, Field, IonTime, Value};
use ledger_model::blob_in;
pub use ledger_model::{fields_in, list_in, string_in};
use ql_types::{BlockAddress, Hash, Hash32, StrandId, id_read};

/// The number of an unannotated int of at most 64 bits without a sign.
pub fn number_in(v: &Value) -> Option<u64>
    ensures { result ≡ spec.number_in (2 ^ 64) v.now }
{
    if !v.annotations.is_empty() {
        return None;
    }
    match &v.body {
        Body::Int(number) => u64::try_from(*number).ok(),
        _ => None,
    }
}

/// The number of an unannotated int of at most 32 bits without a sign.
pub fn small_number_in(v: &Value) -> Option<u32>
    ensures { result ≡ spec.number_in (2 ^ 32) v.now }
{
    if !v.annotations.is_empty() {
        return None;
    }
    match &v.body {
        Body::Int(number) => u32::try_from(*number).ok(),
        _ => None,
    }
}

/// The moment of an unannotated timestamp.
pub fn moment_in(v: &Value) -> Option<IonTime>
    ensures { result ≡ spec.moment_in v.now }
{
    if !v.annotations.is_empty() {
        return None;
    }
    match &v.body {
        Body::Timestamp(time) => Some(*time),
        _ => None,
    }
}

/// The number of an id.
pub fn id_in(v: &Value) -> Option<u128>
    ensures { result ≡ spec.id_in v.now }
{
    let text = string_in(v)?;
    id_read(text.as_str().as_bytes()).ok()
}

/// The hash of these bytes.
fn hash_of_bytes(bytes: &[u8]) -> Option<Hash32>
    ensures { result ≡ spec.hash_of_bytes bytes.now }
{
    if bytes.len() != 32 {
        return None;
    }
    let mut hash = Hash32 { bytes: [0; 32] };
    hash.bytes.copy_from_slice(bytes);
    Some(hash)
}

/// The hash whose bytes an unannotated blob has.
#[tactic(auto, unfolding(crate::specs::ReadParts::hash_in))]
pub fn hash_in(v: &Value) -> Option<Hash32>
    ensures { result ≡ spec.hash_in v.now }
{
    let bytes = blob_in(v)?;
    hash_of_bytes(bytes.as_slice())
}

/// The hash of these bytes, which is empty where there are none.
fn entry_of_bytes(bytes: &[u8]) -> Option<Hash>
    ensures { result ≡ spec.entry_of_bytes bytes.now }
{
    if bytes.is_empty() {
        return Some(Hash::Empty);
    }
    let hash = hash_of_bytes(bytes)?;
    Some(Hash::Full(hash))
}

/// The hash of an entry of a block, which is empty where the blob has no bytes.
pub fn entry_in(v: &Value) -> Option<Hash>
    ensures { result ≡ spec.entry_in v.now }
{
    let bytes = blob_in(v)?;
    entry_of_bytes(bytes.as_slice())
}

/// The value of a field of this name.
pub fn named<'a>(field: &'a Field, name: &str) -> Option<&'a Value>
    ensures { option_copied result ≡ spec.named name.now field.now }
{
    if field.name.as_str() == name {
        Some(&field.value)
    } else {
        None
    }
}

/// The address of a block.
pub fn address_in(v: &Value) -> Option<BlockAddress>
    ensures { result ≡ spec.address_in v.now }
{
    let [strand, sequence] = fields_in(v)?.as_slice() else {
        return None;
    };
    let strand = id_in(named(strand, "strandId")?)?;
    let sequence = number_in(named(sequence, "sequenceNo")?)?;
    Some(BlockAddress {
        strand: StrandId { raw: strand },
        sequence,
    })
}
