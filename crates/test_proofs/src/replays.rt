//! What is rebuilt from a later block on, of records of the stream of three blocks, of which the last has one revision.
//! tests/streams.py has the rows of replays from the first block on.
use containers::Text;
use journal_text::{line, read_journal};
use ledger_model::Blocks;
use std::alloc::Global;
use stream_out::{Replay, ReplayFault, read_record, record_value, stream};
use test_fixtures::{ONE_BLOCK, THREE_BLOCKS};

/// The first block that is streamed, the records that are delivered, counted from 0, and how many blocks are rebuilt.
/// The records from block 1 on are: created, two summaries, the details, completed.
const ROWS: &str = "1:0 1 2 3 4:2
1:3 2 1:2
1:2 3 4:0
2:2 1:1
3:0 1:0";

/// What comes of the record at this place of the stream from a block on, written and read.
fn deliver(
    alloc: Global,
    replay: &mut Replay,
    blocks: &Blocks,
    from: u64,
    at: usize,
) -> Option<Result<(), ReplayFault>> {
    if from > blocks.len() {
        return None;
    }
    let records = stream(alloc, blocks, from, blocks.len()).ok()?;
    let value = record_value(alloc, records.get(at)?).ok()?;
    let told = read_record(alloc, &value).ok()??;
    Some(replay.deliver(alloc, told))
}

fn delivered(alloc: Global, blocks: &Blocks, from: u64, places: &str) -> Option<Replay> {
    let mut replay = Replay::new(alloc, from);
    for place in places.split(' ') {
        let at = place.parse::<usize>().ok()?;
        deliver(alloc, &mut replay, blocks, from, at)?.ok()?;
    }
    Some(replay)
}

fn lines_of(alloc: Global, blocks: &Blocks) -> Option<Text> {
    let mut text = Text::new(alloc);
    for block in blocks.as_slice() {
        text.push_str(line(alloc, block).ok()?.as_str()).ok()?;
    }
    Some(text)
}

/// The lines of `count` blocks of the journal, from number `from` on.
fn wanted(alloc: Global, from: usize, count: usize) -> Option<Text> {
    let mut text = Text::new(alloc);
    for line in THREE_BLOCKS.split('\n').skip(from).take(count) {
        text.push_str(line).ok()?;
        text.push_str("\n").ok()?;
    }
    Some(text)
}

fn row_holds(alloc: Global, blocks: &Blocks, row: &str) -> Option<bool> {
    let (from, rest) = row.split_once(":")?;
    let (places, count) = rest.split_once(":")?;
    let replay = delivered(alloc, blocks, from.parse::<u64>().ok()?, places)?;
    let text = lines_of(alloc, replay.blocks())?;
    let wanted = wanted(
        alloc,
        from.parse::<usize>().ok()?,
        count.parse::<usize>().ok()?,
    )?;
    Some(text.as_str() == wanted.as_str())
}

fn rows_hold(alloc: Global) -> Option<bool> {
    let (blocks, _) = read_journal(alloc, THREE_BLOCKS.as_bytes()).ok()?;
    for row in ROWS.split('\n') {
        if !row_holds(alloc, &blocks, row)? {
            return Some(false);
        }
    }
    Some(true)
}

/// The details of block 0, for a replay from block 1 on.
fn is_below(alloc: Global) -> Option<bool> {
    let (blocks, _) = read_journal(alloc, ONE_BLOCK.as_bytes()).ok()?;
    let answer = deliver(alloc, &mut Replay::new(alloc, 1), &blocks, 0, 2)?;
    Some(
        answer
            == Err(ReplayFault::Below {
                sequence: 0,
                from: 1,
            }),
    )
}

#[test]
fn deliveries_rebuild_what_their_records_tell(rt: HostRuntime) {
    assert!(rt; rows_hold(rt.alloc()) == Some(true));
}

#[test]
fn details_of_an_earlier_block_are_below(rt: HostRuntime) {
    assert!(rt; is_below(rt.alloc()) == Some(true));
}
