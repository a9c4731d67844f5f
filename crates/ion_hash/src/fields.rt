//! Hashes of fields, in order.
ghost use Rattle.std.specs.Prelude.{◌≡◌, ◌++◌, OnOk, IfOk};
ghost use Rattle.hash_model.specs.Serialize.{escape, in_order, joined};

use super::scalars::put_escaped;
use containers::OutOfMemory;
use ion_binary::Buffer;

/// The hashes in the order of their bytes.
pub fn ordered(hashes: Vec<[u8; 32]>) -> Result<Vec<[u8; 32]>, OutOfMemory>
    ensures { IfOk result (λ sorted. sorted.items ≡ in_order hashes.items) }
{
    let mut sorted = hashes;
    sorted.sort()?;
    Ok(sorted)
}

/// Puts the hashes one after the other, escaped.
pub fn put_hashes(out: &mut Buffer, hashes: &[[u8; 32]]) -> Result<(), OutOfMemory>
    ensures { OnOk result (out.new ≡ out.old ++ escape (joined hashes.now)) }
{
    for hash in hashes {
        put_escaped(out, hash)?;
    }
    Ok(())
}
