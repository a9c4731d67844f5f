//! Whether a proof shows that a revision is in the journal of a digest, with no journal at hand.
#![tactic(auto)]

mod bundles;
mod checks;

pub use bundles::read_bundle;
pub use checks::{faults_are_exact, verify};
use ion_values::{OutOfMemory, Text};
use ql_types::{BlockAddress, Hash32, StrandId};

/// Why a proof isn't accepted.
#[derive(Debug, Drop)]
pub enum ProofFault {
    /// The values aren't a bundle: `count` where there aren't three, else the first that can't be read, as `digest`,
    /// `revision` or `proof`.
    Malformed {
        field: Text,
    },
    /// The proof's header is of another strand than the digest.
    WrongStrand {
        proof: StrandId,
        digest: StrandId,
    },
    /// The revision has another address than the proof's header.
    AddressDiffers {
        revision: BlockAddress,
        proof: BlockAddress,
    },
    /// The block is past the digest's tip.
    PastTip {
        sequence: u64,
        tip: u64,
    },
    /// The block has no revision of this index, which counts from 0.
    IndexPastCount {
        index: u64,
        count: u64,
    },
    /// The path hasn't as many hashes as lead from the revision to the digest.
    PathLength {
        wanted: u64,
        given: u64,
    },
    /// The revision's hash isn't that of its parts.
    HashFieldDiffers {
        stated: Hash32,
        computed: Hash32,
    },
    /// The path doesn't lead to the digest.
    RootDiffers {
        computed: Hash32,
        published: Hash32,
    },
    /// The allocator had no memory left.
    OutOfMemory,
}

impl From<OutOfMemory> for ProofFault {
    ghost use Rattle.std.specs.Prelude.{◌≡◌};
    ghost use Rattle.proof_verify.specs.declared.ProofFault.TheVariants as fault;

    ghost from_gives = { λ _ e. e ≡ fault.OutOfMemory };

    fn from(_error: OutOfMemory) -> ProofFault {
        ProofFault::OutOfMemory
    }
}
