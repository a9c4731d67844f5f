//! What the program claims of each of its commands, as definitions in specs/, which the contract of its top call cites.
#![tactic(auto)]

/// What is asked of a journal. Blocks and revisions are counted from 0.
#[derive(Clone, Copy, Debug, PartialEq, Eq)]
pub enum Question {
    /// The digest with this tip, or with the last block as the tip.
    Digest {
        tip: Option<u64>,
    },
    /// The proof of a revision of a block, for the digest with this tip, or with the last block as the tip.
    Proof {
        sequence: u64,
        index: u32,
        tip: Option<u64>,
    },
    /// The number of blocks and the number of their revisions.
    Counts,
    /// The lines of the blocks without what they redact.
    Compact,
    /// The blocks, in Ion's binary encoding, without what they redact.
    Export,
}
