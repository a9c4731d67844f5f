//! Blocks: their hashes, and blocks as values.
ghost use Rattle.std.specs.Prelude.{◌≡◌, true, map, IfOk};
ghost use Rattle.ledger_model.specs.declared.block.Told.TheVariants as told;
ghost use Rattle.ledger_model.specs.Journal.{revision_value};
ghost use Rattle.ledger_model.specs.Seals.{IsSealed};
ghost use Rattle.block_form.specs.Hashed.{hashed_told};

use block_form::{
    Telling, Valued, from_ion, hash_content, hash_said, revision_hash, seal, seal_revision,
    seal_with_value, strand_hash, to_ion,
};
use containers::Sequence;
use ion_text::read_stream;
use ion_values::{Body, IonTime, Kind, OutOfMemory, Text, Value};
use ledger_model::{
    Answer, Block, Content, Header, Info, Metadata, Revision, Revisions, Said, SaidList, Told,
};
use pair_hash::dot;
use ql_types::{BlockAddress, DocId, Hash, Hash32, Place, StrandId, TableId, TxId};
use std::alloc::Global;
use std::test::Fail;

/// The hash of `0B 80`, twenty-two digits 0, and `0E`: the id of the strand of number 0 as a string.
const STRAND_HASH: [u8; 32] = [
    0xe7, 0x79, 0x49, 0x2d, 0x1e, 0x26, 0xa8, 0x98, 0x4c, 0x0b, 0xdb, 0x5e, 0x52, 0x17, 0xe5, 0x59,
    0xa4, 0xf5, 0x8a, 0x8d, 0x27, 0x27, 0xa4, 0x21, 0x52, 0x9f, 0x0c, 0x4a, 0x3d, 0xfc, 0xbf, 0x30,
];

/// The hash of the block below. A separate script, ../block_form/vectors/make.py, computed it.
const BLOCK_HASH: [u8; 32] = [
    0xe8, 0x0e, 0x3d, 0xf0, 0xac, 0xf7, 0x10, 0x17, 0xf1, 0xec, 0x63, 0xfb, 0x31, 0x69, 0xac, 0xda,
    0x0d, 0xf1, 0x08, 0xf3, 0x78, 0x9b, 0x9e, 0x8b, 0xe3, 0xd3, 0x06, 0x5b, 0x6f, 0x51, 0x9b, 0x11,
];

/// Whether the block's hash is that of its list of hashes and of the hash before it. Of a sealed block it is, by the
/// contracts alone.
fn has_hash_of_its_list(block: &Block) -> bool
    requires { IsSealed block.now }
    ensures { result ≡ true }
{
    let [info, revisions, header] = block.list;
    let entries = dot(dot(info, revisions), header);
    dot(entries, Hash::Full(block.previous)) == Hash::Full(block.hash)
}

/// The year 2020.
fn year(alloc: Global) -> Option<IonTime> {
    let values = read_stream(alloc, b"2020T", 0).ok()?;
    match values.as_slice() {
        [value] => match &value.body {
            Body::Timestamp(time) => Some(*time),
            _ => None,
        },
        _ => None,
    }
}

/// What the one revision of the block keeps: null.
fn content(alloc: Global) -> Content {
    Content::Kept(Value {
        annotations: Sequence::new(alloc),
        body: Body::Null(Kind::Null),
    })
}

fn said(alloc: Global) -> Result<SaidList, OutOfMemory> {
    let text = Text::from_text(alloc, "a")?;
    let mut said = Sequence::new(alloc);
    said.push(Said {
        text,
        params: Sequence::new(alloc),
        answer: Answer {
            rows: Sequence::new(alloc),
        },
    })?;
    Ok(said)
}

/// What the transaction said and did: these statements.
fn info(alloc: Global, said: SaidList) -> Result<Info, OutOfMemory>
    ensures { IfOk result (λ info. info.said ≡ told.Said said) }
{
    let tables = Sequence::from_slice(alloc, &[TableId { raw: (1 << 24) + 1 }])?;
    Ok(Info {
        place: Place {
            session: 1,
            transaction: 1,
        },
        said: Told::Said(said),
        schema: Sequence::new(alloc),
        tables,
    })
}

fn header(time: IonTime) -> Header {
    Header {
        address: BlockAddress {
            strand: StrandId { raw: 0 },
            sequence: 0,
        },
        tx: TxId { raw: 1 << 24 },
        time,
        revisions: 1,
    }
}

fn metadata(header: &Header) -> Metadata {
    Metadata {
        id: DocId { raw: (1 << 24) + 2 },
        version: 0,
        time: header.time,
        tx: header.tx,
    }
}

fn revision(alloc: Global, header: &Header, content: Content) -> Result<Revision, OutOfMemory> {
    let metadata = metadata(header);
    let hash = revision_hash(alloc, &content, &metadata)?;
    Ok(Revision {
        address: header.address,
        hash,
        content,
        metadata,
    })
}

fn revisions(alloc: Global, header: &Header, content: Content) -> Result<Revisions, OutOfMemory> {
    let mut revisions = Sequence::new(alloc);
    revisions.push(revision(alloc, header, content)?)?;
    Ok(revisions)
}

/// A block of one revision.
fn block(alloc: Global, time: IonTime, previous: Hash32) -> Result<Block, OutOfMemory>
    ensures { IfOk result IsSealed }
{
    let header = header(time);
    let revisions = revisions(alloc, &header, content(alloc))?;
    let info = info(alloc, said(alloc)?)?;
    seal(alloc, previous, header, info, revisions)
}

/// The block's statement, hashed before.
fn telling(alloc: Global) -> Result<Telling, OutOfMemory>
    ensures { IfOk result (λ telling. telling.told ≡ hashed_told telling.info.said) }
{
    let said = said(alloc)?;
    let told = hash_said(alloc, said.as_slice())?;
    let info = info(alloc, said)?;
    Ok(Telling { info, told })
}

/// The block's revision, of a content that is hashed before.
fn valued(alloc: Global, header: &Header, content: Content) -> Result<Valued, OutOfMemory>
    ensures { IfOk result (λ valued. valued.values ≡ map revision_value valued.revisions) }
{
    let hashed = hash_content(alloc, &content)?;
    let metadata = metadata(header);
    let (revision, value) = seal_revision(alloc, header.address, content, hashed, metadata)?;
    let revisions = Sequence::from_vec(vec![in alloc; revision]?);
    let values = Sequence::from_vec(vec![in alloc; value]?);
    Ok(Valued { revisions, values })
}

/// The hash of the block whose parts are hashed before it is sealed.
fn hash_of_parts(
    alloc: Global,
    time: IonTime,
    previous: Hash32,
    content: Content,
) -> Result<Hash32, OutOfMemory> {
    let header = header(time);
    let valued = valued(alloc, &header, content)?;
    let telling = telling(alloc)?;
    let (block, _value) = seal_with_value(alloc, previous, header, telling, valued)?;
    Ok(block.hash)
}

/// That content with the hash of its data in their place.
fn redacted(alloc: Global) -> Option<Content> {
    let hashed = hash_content(alloc, &content(alloc)).ok()?;
    Some(Content::Redacted(hashed.hash?))
}

#[test]
fn a_block_has_its_hash(rt: HostRuntime) -> Result<(), Fail> {
    let alloc = rt.alloc();
    let time = year(alloc).ok_or("no year")?;
    let strand = strand_hash(alloc, StrandId { raw: 0 })?;
    assert!(rt; strand.bytes == STRAND_HASH);
    let first = block(alloc, time, strand)?;
    assert!(rt; first.hash.bytes == BLOCK_HASH);
    assert!(rt; has_hash_of_its_list(&first));
    Ok(())
}

/// Whether the block of parts that are hashed before has its hash, the data standing there or their hash alone.
fn has_hash_by_parts(alloc: Global) -> Option<bool> {
    let time = year(alloc)?;
    let strand = strand_hash(alloc, StrandId { raw: 0 }).ok()?;
    let kept = hash_of_parts(alloc, time, strand, content(alloc)).ok()?;
    let stood_for = hash_of_parts(alloc, time, strand, redacted(alloc)?).ok()?;
    Some(kept.bytes == BLOCK_HASH && stood_for.bytes == BLOCK_HASH)
}

#[test]
fn a_block_has_its_hash_by_parts(rt: HostRuntime) {
    assert!(rt; has_hash_by_parts(rt.alloc()) == Some(true));
}

/// Whether a value is read as the block.
fn is_read_as(alloc: Global, value: &Value, block: &Block) -> Option<bool> {
    let read = from_ion(alloc, value).ok()??;
    Some(read.hash == block.hash && read.header.revisions == 1 && read.info.tables.len() == 1)
}

/// Whether a block as a value is read as that block.
fn is_read_back(alloc: Global) -> Option<bool> {
    let block = block(alloc, year(alloc)?, Hash32 { bytes: [7; 32] }).ok()?;
    let value = to_ion(alloc, &block).ok()?;
    is_read_as(alloc, &value, &block)
}

#[test]
fn a_value_is_read_as_its_block(rt: HostRuntime) {
    assert_eq!(rt; is_read_back(rt.alloc()), Some(true));
}
