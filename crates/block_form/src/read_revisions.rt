//! Revisions that values spell. Their data are moved out of the values.
ghost use Rattle.std.specs.Prelude.{◌≡◌, ◌≢◌, [], ◌∷◌, length, IfOk};
ghost use Rattle.ledger_model.specs.Script.{each};
ghost use Rattle.block_form.specs.ReadBack as spec;

use ion_values::{Field, Fields, OutOfMemory, Value, Values, copy};
use ledger_model::{Content, Metadata, Revision, Revisions};
use ql_types::{DocId, TxId};
use std::alloc::Global;
use value_codec::read_parts::{address_in, fields_in, hash_in, id_in, moment_in, named, number_in};
use value_codec::takes::{into_fields, into_named, with_room};

fn metadata_in(v: &Value) -> Option<Metadata>
    ensures { result ≡ spec.metadata_in v.now }
{
    let [id, version, time, tx] = fields_in(v)?.as_slice() else {
        return None;
    };
    let id = id_in(named(id, "id")?)?;
    let version = number_in(named(version, "version")?)?;
    let time = moment_in(named(time, "txTime")?)?;
    let tx = id_in(named(tx, "txId")?)?;
    Some(Metadata {
        id: DocId { raw: id },
        version,
        time,
        tx: TxId { raw: tx },
    })
}

/// The revision of this content.
fn with_content(
    content: Content,
    address: &Field,
    hash: &Field,
    metadata: &Field,
) -> Option<Revision>
    ensures { result ≡ spec.with_content content address.now hash.now metadata.now }
{
    let address = address_in(named(address, "blockAddress")?)?;
    let hash = hash_in(named(hash, "hash")?)?;
    let metadata = metadata_in(named(metadata, "metadata")?)?;
    Some(Revision {
        address,
        hash,
        content,
        metadata,
    })
}

/// The data of a field, or the hash that stands in their place.
fn content_of(field: Field) -> Option<Content>
    ensures { result ≡ spec.content_of field }
{
    if field.name.as_str() == "dataHash" {
        let hash = hash_in(&field.value)?;
        return Some(Content::Redacted(hash));
    }
    let value = into_named(field, "data")?;
    Some(Content::Kept(value))
}

/// The revision that has the data of a field, or their hash.
fn with_data(address: &Field, hash: &Field, told: Field, metadata: &Field) -> Option<Revision>
    ensures { result ≡ spec.revision_of (address.now ∷ hash.now ∷ told ∷ metadata.now ∷ []) }
{
    let content = content_of(told)?;
    with_content(content, address, hash, metadata)
}

/// The revision of four fields, which is no delete.
fn kept_in(fields: Fields) -> Option<Revision>
    requires { length fields ≢ 3 }
    ensures { result ≡ spec.revision_of fields }
{
    if fields.len() != 4 {
        return None;
    }
    let mut fields = fields;
    let metadata = fields.pop()?;
    let kept = fields.pop()?;
    let [address, hash] = fields.as_slice() else {
        return None;
    };
    with_data(address, hash, kept, &metadata)
}

fn revision_of(fields: Fields) -> Option<Revision>
    ensures { result ≡ spec.revision_of fields }
{
    if let [address, hash, metadata] = fields.as_slice() {
        return with_content(Content::Deleted, address, hash, metadata);
    }
    kept_in(fields)
}

fn into_revision(v: Value) -> Option<Revision>
    ensures { result ≡ spec.revision_in v }
{
    revision_of(into_fields(v)?)
}

/// The revision whose value this is, or None where it is no revision's.
pub fn revision_in(alloc: Global, v: &Value) -> Result<Option<Revision>, OutOfMemory>
    ensures { IfOk result (λ r. r ≡ spec.revision_in v.now) }
{
    let copied = copy(alloc, v)?;
    Ok(into_revision(copied))
}

pub fn into_revisions(alloc: Global, values: Values) -> Result<Option<Revisions>, OutOfMemory>
    ensures { IfOk result (λ revisions. revisions ≡ each spec.revision_in values) }
{
    let mut revisions = with_room(alloc, values.len())?;
    'revisions: for value in values.into_vec() {
        match into_revision(value) {
            Some(revision) => revisions.push(revision)?,
            None => return Ok(None),
        }
    }
    Ok(Some(revisions))
}
