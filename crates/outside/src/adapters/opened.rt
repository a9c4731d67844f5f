//! A journal's file that is open and locked.
ghost use Rattle.std.specs.Prelude.{◌≡◌, ◌+◌, ◌≤◌, ◌↔◌, length, IfOk, IfSome, IsTrue, OnErr};
ghost use Rattle.std.specs.Io.{ReadsAtMost};

use super::transfers;
use std::fs::{Metadata, OpenFile};
use std::io;
use std::io::{ErrorKind, Read, Seek, SeekFrom, Write};
use std::os::unix::fs::MetadataExt;

/// A file that is open and locked.
#[derive(Drop)]
pub(super) struct OpenJournal<F> {
    file: F,
    /// What the last call left, where that is known.
    left: Option<Shape>,
    /// The size in bytes to which the file may grow, where there is one.
    limit: Option<u64>,
}

/// What changes if another program cuts a file, appends to it, removes or replaces it.
#[derive(Clone, Copy, PartialEq, Eq)]
struct Shape {
    size: u64,
    /// Some path leads to the file.
    is_named: bool,
}

impl Shape {
    fn of(found: &Metadata) -> Shape {
        Shape {
            size: found.len(),
            is_named: found.nlink() > 0,
        }
    }

    /// Whether another one was left.
    fn is_other_than(self, left: Option<Shape>) -> bool {
        match left {
            Some(left) => left != self,
            None => false,
        }
    }
}

impl<F> OpenJournal<F> {
    /// The file, of which nothing is known yet.
    pub(super) fn new(file: F, limit: Option<u64>) -> OpenJournal<F> {
        OpenJournal {
            file,
            left: None,
            limit,
        }
    }
}

impl<F: Read + Write + Seek + OpenFile> OpenJournal<F> {
    pub(super) fn size(&mut self) -> io::Result<u64> {
        let shape = self.shape()?;
        Ok(shape.size)
    }

    /// What is so of the file. It fails where that isn't what the last call left.
    fn shape(&mut self) -> io::Result<Shape> {
        let shape = Shape::of(&self.file.metadata()?);
        if shape.is_other_than(self.left) {
            return Err(io::Error::from(ErrorKind::InvalidData));
        }
        self.left = Some(shape);
        Ok(shape)
    }

    pub(super) fn read_at(&mut self, at: u64, out: &mut [u8]) -> io::Result<usize>
        ensures bound { ReadsAtMost result out.new }
        ensures lent { OnErr result (out.new ≡ out.old) }
    {
        if at >= self.file.metadata()?.len() {
            return Ok(0);
        }
        self.file.seek(SeekFrom::Start(at))?;
        transfers::read(&mut self.file, out)
    }

    /// Appends the whole piece. It appends nothing where another program changed the file, or where the file would pass
    /// its limit.
    pub(super) fn append(&mut self, piece: &[u8]) -> io::Result<()> {
        let shape = self.shape()?;
        let size = grown(shape.size, piece, self.limit)?;
        self.left = None;
        transfers::append(&mut self.file, piece)?;
        self.left = Some(Shape { size, ..shape });
        Ok(())
    }

    pub(super) fn cut(&mut self, size: u64) -> io::Result<()> {
        let shape = self.shape()?;
        if size < shape.size {
            self.left = None;
            self.file.set_len(size)?;
            self.left = Some(Shape { size, ..shape });
        }
        Ok(())
    }

    pub(super) fn sync(&self) -> io::Result<()> {
        self.file.sync_all()
    }
}

/// The size after a piece is appended, where the limit allows it.
fn grown(size: u64, piece: &[u8], limit: Option<u64>) -> io::Result<u64>
    ensures sum { IfOk result (λ sum. sum ≡ size + length piece.now) }
    ensures within { IfOk result (λ sum. IfSome limit (λ most. sum ≤ most)) }
{
    match size.checked_add(piece.len() as u64) {
        Some(sum) if is_within(sum, limit) => Ok(sum),
        _ => Err(io::Error::from(ErrorKind::FileTooLarge)),
    }
}

fn is_within(size: u64, limit: Option<u64>) -> bool
    ensures { IsTrue result ↔ IfSome limit (λ most. size ≤ most) }
{
    match limit {
        Some(most) => size <= most,
        None => true,
    }
}
