//! The amounts of a made workload.
ghost use Rattle.std.specs.Prelude.{◌≡◌, ◌+◌, ◌<◌, ◌^◌};
ghost use Rattle.id_seed.specs.Seed.{seed_key};
ghost use Rattle.workload.specs.Made.{amount_at, session_stream};

use rand_chacha::ChaCha20Rng;
use rand_core::SeedableRng;
use rand_core::utils::NextWord;

/// The seed in 8 bytes, the lowest first, and then zeros.
fn key(seed: u64) -> [u8; 32]
    ensures { result ≡ seed_key seed }
{
    let mut key = [0; 32];
    key[..8].copy_from_slice(&seed.to_le_bytes());
    key
}

/// The stream of a session under the key of the seed, at its first word.
pub fn session_stream(seed: u64, session: u32) -> ChaCha20Rng
    ensures { result ≡ session_stream seed session 0 }
{
    let mut words = ChaCha20Rng::from_seed(key(seed));
    words.set_stream(u64::from(session));
    words
}

/// The amount that the next word gives.
pub fn next_amount(words: &mut ChaCha20Rng) -> u32
    requires { words.old.word_pos < 2 ^ 32 }
    ensures amount { result ≡ amount_at words.old }
    ensures next { words.new ≡ record words.old { word_pos = words.old.word_pos + 1 } }
{
    words.next_word() % 1000
}
