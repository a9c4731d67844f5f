//! What a journal keeps when it is compacted: definitions in specs/ and laws in proofs/.
#![tactic(auto)]

mod laws;

pub use laws::compaction_keeps;
