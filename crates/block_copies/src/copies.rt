//! Copies of the parts of blocks, whole or with another part.
ghost use Rattle.std.specs.Prelude.{◌≡◌, IfOk};

use containers::Sequence;
use ion_values::{OutOfMemory, copy, copy_values};
use ledger_model::{
    Answer, Block, Content, Info, Revision, Revisions, Said, SaidList, Schema, SchemaList, Told,
};
use std::alloc::Global;

fn copy_said(alloc: Global, said: &Said) -> Result<Said, OutOfMemory>
    ensures { IfOk result (λ new. new ≡ said.now) }
{
    let text = said.text.copy(alloc)?;
    let params = copy_values(alloc, said.params.as_slice())?;
    let rows = copy_values(alloc, said.answer.rows.as_slice())?;
    Ok(Said {
        text,
        params,
        answer: Answer { rows },
    })
}

fn copy_all_said(alloc: Global, said: &[Said]) -> Result<SaidList, OutOfMemory>
    ensures { IfOk result (λ new. new ≡ said.now) }
{
    let mut new = Vec::with_capacity(alloc, said.len())?;
    for one in said {
        new.push(copy_said(alloc, one)?)?;
    }
    Ok(Sequence::from_vec(new))
}

/// A copy of what a transaction said, or of its hash.
pub fn copy_told(alloc: Global, told: &Told) -> Result<Told, OutOfMemory>
    ensures { IfOk result (λ new. new ≡ told.now) }
{
    match told {
        Told::Said(said) => Ok(Told::Said(copy_all_said(alloc, said.as_slice())?)),
        Told::Hashed(hash) => Ok(Told::Hashed(*hash)),
    }
}

fn copy_change(alloc: Global, change: &Schema) -> Result<Schema, OutOfMemory>
    ensures { IfOk result (λ new. new ≡ change.now) }
{
    match change {
        Schema::Create { name, table } => Ok(Schema::Create {
            name: name.copy(alloc)?,
            table: *table,
        }),
        Schema::Index { field, table } => Ok(Schema::Index {
            field: field.copy(alloc)?,
            table: *table,
        }),
        Schema::Drop { name, table } => Ok(Schema::Drop {
            name: name.copy(alloc)?,
            table: *table,
        }),
        Schema::Redact {
            address,
            table,
            document,
        } => Ok(Schema::Redact {
            address: *address,
            table: *table,
            document: *document,
        }),
    }
}

fn copy_schema(alloc: Global, schema: &[Schema]) -> Result<SchemaList, OutOfMemory>
    ensures { IfOk result (λ new. new ≡ schema.now) }
{
    let mut new = Vec::with_capacity(alloc, schema.len())?;
    for change in schema {
        new.push(copy_change(alloc, change)?)?;
    }
    Ok(Sequence::from_vec(new))
}

/// A copy of what a transaction said and did, with something else said.
pub fn info_with(alloc: Global, info: &Info, said: Told) -> Result<Info, OutOfMemory>
    ensures { IfOk result (λ new. new ≡ record info.now { said = said }) }
{
    let schema = copy_schema(alloc, info.schema.as_slice())?;
    let tables = Sequence::from_slice(alloc, info.tables.as_slice())?;
    Ok(Info {
        place: info.place,
        said,
        schema,
        tables,
    })
}

/// A copy of what a transaction said and did.
pub fn copy_info(alloc: Global, info: &Info) -> Result<Info, OutOfMemory>
    ensures { IfOk result (λ new. new ≡ info.now) }
{
    let said = copy_told(alloc, &info.said)?;
    info_with(alloc, info, said)
}

/// A copy of a revision's content.
pub fn copy_content(alloc: Global, content: &Content) -> Result<Content, OutOfMemory>
    ensures { IfOk result (λ new. new ≡ content.now) }
{
    match content {
        Content::Deleted => Ok(Content::Deleted),
        Content::Kept(value) => Ok(Content::Kept(copy(alloc, value)?)),
        Content::Redacted(hash) => Ok(Content::Redacted(*hash)),
    }
}

/// The revision with another content.
pub fn revision_with(revision: &Revision, content: Content) -> Revision
    ensures { result ≡ record revision.now { content = content } }
{
    Revision {
        address: revision.address,
        hash: revision.hash,
        content,
        metadata: revision.metadata,
    }
}

/// A copy of a revision.
pub fn copy_revision(alloc: Global, revision: &Revision) -> Result<Revision, OutOfMemory>
    ensures { IfOk result (λ new. new ≡ revision.now) }
{
    let content = copy_content(alloc, &revision.content)?;
    Ok(revision_with(revision, content))
}

/// The block with other info and other revisions.
pub fn block_with(block: &Block, info: Info, revisions: Revisions) -> Block
    ensures { result ≡ record block.now { info = info; revisions = revisions } }
{
    Block {
        header: block.header,
        hash: block.hash,
        entries: block.entries,
        previous: block.previous,
        list: block.list,
        info,
        revisions,
    }
}
