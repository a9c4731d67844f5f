//! Bytes from a reader and to a writer.
ghost use Rattle.std.specs.Prelude.{◌≡◌, ℕ, take, OnOk, OnErr, IfErr};
ghost use Rattle.std.specs.IoError.{error_kind};
ghost use Rattle.std.specs.Io.{ReadsAtMost};
ghost use Rattle.std.specs.Io.KnownBytes.{Appends, Keeps, ReadConsumes};

use super::retry;
use std::io;
use std::io::{ErrorKind, Read, Write};

/// The most that one call reads.
pub(super) const PIECE: usize = 65536;

/// Reads once, by a piece of its own, so that `out` stays as it was after an error.
pub(super) fn read<R: Read>(reader: &mut R, out: &mut [u8]) -> io::Result<usize>
    ensures bound { ReadsAtMost result out.new }
    ensures bytes { ReadConsumes (R.remaining reader.old) (R.remaining reader.new) result out.new }
    ensures lent { OnErr result (out.new ≡ out.old) }
{
    let mut piece = [0u8; PIECE];
    let room = out.len().min(PIECE);
    let count = retry::read(reader, &mut piece[..room])?;
    out[..count].copy_from_slice(&piece[..count]);
    Ok(count)
}

/// Appends the whole piece. An error after a part of it was taken is a short write, whatever its kind: only want of
/// memory before that leaves the writer as it was.
pub(super) fn append<W: Write>(writer: &mut W, piece: &[u8]) -> io::Result<()>
    ensures whole { OnOk result (Appends (W.contents writer.old) (W.contents writer.new) piece.now) }
    ensures part { OnErr result ((kept : ℕ) × Appends (W.contents writer.old) (W.contents writer.new)
        (take kept piece.now)) }
    ensures none { IfErr result (λ e. error_kind e ≡ ErrorKind.OutOfMemory →
        Keeps (W.contents writer.old) (W.contents writer.new)) }
{
    let mut at = 0;
    'pieces: while at < piece.len() {
        match retry::write(writer, &piece[at..]) {
            Ok(0) => return Err(io::Error::from(ErrorKind::WriteZero)),
            Ok(taken) => at += taken,
            Err(error) if at == 0 => return Err(error),
            Err(_) => return Err(io::Error::from(ErrorKind::WriteZero)),
        }
    }
    Ok(())
}
