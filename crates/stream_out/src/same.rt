//! Records compared, the fields of structs in order. Nothing here takes memory.
ghost use Rattle.std.specs.Prelude.{◌≡◌};
ghost use Rattle.std.specs.Cmp.Lexicographic.{pointwise};
ghost use Rattle.ledger_model.specs.Damages as damages;
ghost use Rattle.ledger_model.specs.Follows as follows;
ghost use Rattle.stream_out.specs.Same as spec;

use crate::record::{Details, RevisionSummary, Summary};
use ion_same::{same_value, same_values};
use ledger_model::{Block, Content, Header, Info, Metadata, Revision, Said, Schema, Told};
use ql_types::{BlockAddress, Hash, Hash32, Place, TableId};

pub(crate) fn same_hash(a: &Hash32, b: &Hash32) -> bool
    ensures { result ≡ damages.same_hash a.now b.now }
{
    a.bytes == b.bytes
}

fn same_entry(a: &Hash, b: &Hash) -> bool
    ensures { result ≡ damages.same_entry a.now b.now }
{
    match (a, b) {
        (Hash::Empty, Hash::Empty) => true,
        (Hash::Full(a), Hash::Full(b)) => same_hash(a, b),
        _ => false,
    }
}

fn same_entries(a: &[Hash; 3], b: &[Hash; 3]) -> bool
    ensures { result ≡ pointwise damages.same_entry a.now b.now }
{
    let [a0, a1, a2] = a;
    let [b0, b1, b2] = b;
    same_entry(a0, b0) && same_entry(a1, b1) && same_entry(a2, b2)
}

fn same_address(a: &BlockAddress, b: &BlockAddress) -> bool
    ensures { result ≡ follows.same_address a.now b.now }
{
    a.strand.raw == b.strand.raw && a.sequence == b.sequence
}

fn same_said(a: &Said, b: &Said) -> bool
    ensures { result ≡ spec.same_said a.now b.now }
{
    a.text.as_str() == b.text.as_str()
        && same_values(a.params.as_slice(), b.params.as_slice())
        && same_values(a.answer.rows.as_slice(), b.answer.rows.as_slice())
}

fn all_said_same(a: &[Said], b: &[Said]) -> bool
    ensures { result ≡ pointwise spec.same_said a.now b.now }
{
    if a.len() != b.len() {
        return false;
    }
    for at in 0..a.len() {
        if !same_said(&a[at], &b[at]) {
            return false;
        }
    }
    true
}

fn same_told(a: &Told, b: &Told) -> bool
    ensures { result ≡ spec.same_told a.now b.now }
{
    match (a, b) {
        (Told::Said(a), Told::Said(b)) => all_said_same(a.as_slice(), b.as_slice()),
        (Told::Hashed(a), Told::Hashed(b)) => same_hash(a, b),
        _ => false,
    }
}

fn same_table(a: &TableId, b: &TableId) -> bool
    ensures { result ≡ spec.same_table a.now b.now }
{
    a.raw == b.raw
}

fn same_change(a: &Schema, b: &Schema) -> bool
    ensures { result ≡ spec.same_change a.now b.now }
{
    match (a, b) {
        (Schema::Create { name: a, table: s }, Schema::Create { name: b, table: t }) => {
            a.as_str() == b.as_str() && same_table(s, t)
        }
        (Schema::Index { field: a, table: s }, Schema::Index { field: b, table: t }) => {
            a.as_str() == b.as_str() && same_table(s, t)
        }
        (Schema::Drop { name: a, table: s }, Schema::Drop { name: b, table: t }) => {
            a.as_str() == b.as_str() && same_table(s, t)
        }
        (
            Schema::Redact {
                address: a,
                table: s,
                document: d,
            },
            Schema::Redact {
                address: b,
                table: t,
                document: e,
            },
        ) => same_address(a, b) && same_table(s, t) && d.raw == e.raw,
        _ => false,
    }
}

fn same_schema(a: &[Schema], b: &[Schema]) -> bool
    ensures { result ≡ pointwise spec.same_change a.now b.now }
{
    if a.len() != b.len() {
        return false;
    }
    for at in 0..a.len() {
        if !same_change(&a[at], &b[at]) {
            return false;
        }
    }
    true
}

fn same_tables(a: &[TableId], b: &[TableId]) -> bool
    ensures { result ≡ pointwise spec.same_table a.now b.now }
{
    if a.len() != b.len() {
        return false;
    }
    for at in 0..a.len() {
        if !same_table(&a[at], &b[at]) {
            return false;
        }
    }
    true
}

fn same_place(a: &Place, b: &Place) -> bool
    ensures { result ≡ spec.same_place a.now b.now }
{
    a.session == b.session && a.transaction == b.transaction
}

fn same_info(a: &Info, b: &Info) -> bool
    ensures { result ≡ spec.same_info a.now b.now }
{
    same_place(&a.place, &b.place)
        && same_told(&a.said, &b.said)
        && same_schema(a.schema.as_slice(), b.schema.as_slice())
        && same_tables(a.tables.as_slice(), b.tables.as_slice())
}

fn same_content(a: &Content, b: &Content) -> bool
    ensures { result ≡ spec.same_content a.now b.now }
{
    match (a, b) {
        (Content::Deleted, Content::Deleted) => true,
        (Content::Kept(a), Content::Kept(b)) => same_value(a, b),
        (Content::Redacted(a), Content::Redacted(b)) => same_hash(a, b),
        _ => false,
    }
}

fn same_metadata(a: &Metadata, b: &Metadata) -> bool
    ensures { result ≡ spec.same_metadata a.now b.now }
{
    a.id.raw == b.id.raw && a.version == b.version && a.time == b.time && a.tx.raw == b.tx.raw
}

fn same_revision(a: &Revision, b: &Revision) -> bool
    ensures { result ≡ spec.same_revision a.now b.now }
{
    same_address(&a.address, &b.address)
        && same_hash(&a.hash, &b.hash)
        && same_content(&a.content, &b.content)
        && same_metadata(&a.metadata, &b.metadata)
}

fn same_revisions(a: &[Revision], b: &[Revision]) -> bool
    ensures { result ≡ pointwise spec.same_revision a.now b.now }
{
    if a.len() != b.len() {
        return false;
    }
    for at in 0..a.len() {
        if !same_revision(&a[at], &b[at]) {
            return false;
        }
    }
    true
}

fn same_header(a: &Header, b: &Header) -> bool
    ensures { result ≡ spec.same_header a.now b.now }
{
    same_address(&a.address, &b.address)
        && a.tx.raw == b.tx.raw
        && a.time == b.time
        && a.revisions == b.revisions
}

fn same_hashes(a: &Block, b: &Block) -> bool
    ensures { result ≡ spec.same_hashes a.now b.now }
{
    same_hash(&a.hash, &b.hash)
        && same_hash(&a.entries, &b.entries)
        && same_hash(&a.previous, &b.previous)
        && same_entries(&a.list, &b.list)
}

fn same_block(a: &Block, b: &Block) -> bool
    ensures { result ≡ spec.same_block a.now b.now }
{
    same_header(&a.header, &b.header)
        && same_hashes(a, b)
        && same_info(&a.info, &b.info)
        && same_revisions(a.revisions.as_slice(), b.revisions.as_slice())
}

fn same_listed(a: &RevisionSummary, b: &RevisionSummary) -> bool
    ensures { result ≡ spec.same_listed a.now b.now }
{
    same_hash(&a.hash, &b.hash) && a.document.raw == b.document.raw
}

fn all_listed_same(a: &[RevisionSummary], b: &[RevisionSummary]) -> bool
    ensures { result ≡ pointwise spec.same_listed a.now b.now }
{
    if a.len() != b.len() {
        return false;
    }
    for at in 0..a.len() {
        if !same_listed(&a[at], &b[at]) {
            return false;
        }
    }
    true
}

/// Whether two summaries are equal.
pub(crate) fn same_summary(a: &Summary, b: &Summary) -> bool
    ensures { result ≡ spec.same_summary a.now b.now }
{
    same_block(&a.block, &b.block) && all_listed_same(a.listed.as_slice(), b.listed.as_slice())
}

/// Whether the details of two revisions are equal.
pub(crate) fn same_details(a: &Details, b: &Details) -> bool
    ensures { result ≡ spec.same_details a.now b.now }
{
    same_table(&a.table, &b.table)
        && a.name.as_str() == b.name.as_str()
        && same_revision(&a.revision, &b.revision)
}
