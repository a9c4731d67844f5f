//! Proofs of a journal without blocks, by the tree that grew with it.
ghost use Rattle.std.specs.Prelude.{◌≡◌, IfSome};
ghost use Rattle.proof_model.specs.Chained.{Chained};
ghost use Rattle.proof_model.specs.Issued.{block_hashes};

use journal_text::read_journal;
use ledger_model::Blocks;
use pad_tree::Grow;
use proof_issue::{NoSuch, prove_grown};
use proof_model::undamaged_is_chained;
use std::alloc::Global;

/// The blocks of an undamaged journal.
fn blocks_of(alloc: Global, journal: &str) -> Option<Blocks>
    ensures { IfSome result (λ blocks. Chained blocks.list) }
{
    undamaged_is_chained();
    let (blocks, _) = read_journal(alloc, journal.as_bytes()).ok()?;
    Some(blocks)
}

/// The tree over the blocks, of which there are at most three.
fn tree_of(alloc: Global, blocks: &Blocks) -> Option<Grow>
    ensures { IfSome result (λ tree. tree.leaves ≡ block_hashes blocks.now.list) }
{
    if blocks.len() > 3 {
        return None;
    }
    let mut tree = Grow::new(alloc).ok()?;
    'leaves: for block in blocks.as_slice() {
        tree.append(block.hash).ok()?;
    }
    Some(tree)
}

/// Why there is no proof of the revision at an index of a block of the journal.
fn refusal(alloc: Global, journal: &str, sequence: u64, index: u32) -> Option<NoSuch> {
    let blocks = blocks_of(alloc, journal)?;
    let tree = tree_of(alloc, &blocks)?;
    prove_grown(alloc, &blocks, &tree, sequence, index).err()
}

#[test]
fn there_is_no_such_proof(rt: HostRuntime) {
    for (sequence, index) in [(0, 0), (5, 1)] {
        let refused = NoSuch::Block {
            sequence,
            blocks: 0,
        };
        assert!(rt; refusal(rt.alloc(), "", sequence, index) == Some(refused));
    }
}
