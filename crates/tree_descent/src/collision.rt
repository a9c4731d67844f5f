//! Two byte strings of equal SHA-256.
ghost use Rattle.std.specs.Prelude.{◌≡◌, MatchResult};
ghost use Rattle.sha2.specs.Sha256.{sha256};
ghost use Rattle.tree_descent.specs.Collisions.{IsStop};

use containers::{Bytes, OutOfMemory};

/// Why a walk ends before its goal: two different byte strings of equal SHA-256 were found, or memory ran out.
#[derive(Drop)]
pub enum Stop {
    Collision { first: Bytes, second: Bytes },
    OutOfMemory,
}

impl From<OutOfMemory> for Stop {
    ghost use Rattle.std.specs.Prelude.{◌≡◌};
    ghost use Rattle.tree_descent.specs.declared.collision.Stop.TheVariants as stop;

    ghost from_gives = { λ _ e. e ≡ stop.OutOfMemory };

    fn from(_error: OutOfMemory) -> Stop {
        Stop::OutOfMemory
    }
}

/// Stops with these two byte strings if they differ.
pub fn stop_if_different(first: Bytes, second: Bytes) -> Result<(), Stop>
    requires { sha256 first ≡ sha256 second }
    ensures { MatchResult result (λ _. first ≡ second) IsStop }
{
    if first.as_slice() != second.as_slice() {
        return Err(Stop::Collision { first, second });
    }
    Ok(())
}
