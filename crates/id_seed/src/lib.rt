//! The mask of a ledger's ids from a seed.
#![tactic(auto)]

ghost use Rattle.std.specs.Prelude.{◌≡◌};
ghost use Rattle.id_seed.specs.Seed.{seed_key, mask_of};

use ql_types::IdMask;
use rand_chacha::ChaCha20Rng;
use rand_core::SeedableRng;
use rand_core::utils::NextWord;

/// The seed in 8 bytes, the lowest first, and then zeros.
fn key(seed: u64) -> [u8; 32]
    ensures { result ≡ seed_key seed }
{
    let mut key = [0; 32];
    key[..8].copy_from_slice(&seed.to_le_bytes());
    key
}

/// The mask that a seed gives: the first four words, the lowest first, of the key stream of ChaCha20 whose key is the
/// seed in 8 bytes, the lowest first, and then zeros.
pub fn from_seed(seed: u64) -> IdMask
    ensures { result.bits ≡ mask_of seed }
{
    let mut words = ChaCha20Rng::from_seed(key(seed));
    let first = u128::from(words.next_word());
    let second = u128::from(words.next_word());
    let third = u128::from(words.next_word());
    let fourth = u128::from(words.next_word());
    IdMask {
        bits: first | second << 32 | third << 64 | fourth << 96,
    }
}
