//! A store over a file.
ghost use Rattle.std.specs.Prelude.{◌≡◌, ◌<◌, None, Ok, false, IsOk, OnErr, IsErrOf};
ghost use Rattle.std.specs.Result.{result_ok};
ghost use Rattle.std.specs.Io.{ReadsAtMost};
ghost use Rattle.outside.specs.Causes.{HasCause, is_failed};

use super::faults::FaultCount;
use super::held::{HeldFile, LockFile, StoreAccess};
use crate::traits::{JournalStore, OutFault};
use std::io;
use std::rt::Files;

/// A store over a file. It tells nothing of its content. The first call opens the file, takes the lock that keeps other
/// processes from changing it, and keeps it open. It fails where another process has a lock that excludes this one, and
/// where the file is no regular file or no journal. A missing file has the size 0, and the first append makes it; where
/// another process made it in between, that append and each later call fails. A store that is opened to be read fails
/// at each append and each cut. Any call but a read fails where another program has changed the file's size or
/// removed the file since the last call, and an append fails that would pass the process's limit on the size of
/// files.
#[derive(Drop)]
pub struct FileStore<'a, R: Files> {
    file: HeldFile<'a, R>,
    faults: FaultCount,
    last_failed: bool,
}

impl<'a, R: Files> FileStore<'a, R> {
    /// A store over the file at this path, which is not touched yet.
    pub fn new(rt: &'a R, path: &'a str, access: StoreAccess) -> FileStore<'a, R>
        ensures path { result.file.path.now ≡ path.now }
        ensures access { result.file.access ≡ access }
        ensures count { result.faults.count ≡ 0 }
        ensures last { result.last_failed ≡ false }
    {
        FileStore {
            file: HeldFile::new(rt, path, access),
            faults: FaultCount::new(),
            last_failed: false,
        }
    }

    /// Begins a call. A store that has failed too often to count is touched no more.
    fn begin(&mut self) -> Result<(), OutFault>
        ensures memory { OnErr result (IsErrOf result OutFault.OutOfMemory) }
        ensures spent { self.old.faults.count ≡ u64.MAX → IsErrOf result OutFault.OutOfMemory }
        ensures room { IsOk result → self.new.faults.count < u64.MAX }
        ensures count { self.new.faults ≡ self.old.faults }
        ensures last { self.new.last_failed ≡ false }
    {
        self.last_failed = false;
        if self.faults.is_spent() {
            return Err(OutFault::OutOfMemory);
        }
        Ok(())
    }

    /// Ends a call with the outcome of the system's calls.
    fn end<T>(&mut self, outcome: io::Result<T>) -> Result<T, OutFault>
        requires { self.old.faults.count < u64.MAX }
        ensures same { result_ok result ≡ result_ok outcome }
        ensures last { self.new.last_failed ≡ is_failed result }
        ensures cause { HasCause self.old.faults.count self.new.faults.count result }
    {
        match outcome {
            Ok(value) => {
                self.last_failed = false;
                Ok(value)
            }
            Err(error) => {
                let fault = self.faults.fault(&error);
                self.last_failed = fault == OutFault::Failed;
                Err(fault)
            }
        }
    }
}

impl<R: Files> JournalStore for FileStore<'_, R>
where
    R::File: LockFile,
{
    ghost told = { λ s. record { content = None; last_failed = s.last_failed; faults = s.faults.count } };

    fn faults(&self) -> u64 {
        self.faults.count
    }

    fn size(&mut self) -> Result<u64, OutFault>
        ensures last { self.new.last_failed ≡ is_failed result }
        ensures cause { HasCause self.old.faults.count self.new.faults.count result }
        ensures spent { self.old.faults.count ≡ u64.MAX → IsErrOf result OutFault.OutOfMemory }
    {
        self.begin()?;
        let size = self.file.size();
        self.end(size)
    }

    fn read_at(&mut self, at: u64, out: &mut [u8]) -> Result<usize, OutFault>
        ensures bound { ReadsAtMost result out.new }
        ensures lent { OnErr result (out.new ≡ out.old) }
        ensures last { self.new.last_failed ≡ is_failed result }
        ensures cause { HasCause self.old.faults.count self.new.faults.count result }
        ensures spent { self.old.faults.count ≡ u64.MAX → IsErrOf result OutFault.OutOfMemory }
    {
        self.begin()?;
        let read = self.file.read_at(at, out);
        self.end(read)
    }

    fn append(&mut self, piece: &[u8]) -> Result<(), OutFault>
        ensures last { self.new.last_failed ≡ is_failed result }
        ensures cause { HasCause self.old.faults.count self.new.faults.count result }
        ensures spent { self.old.faults.count ≡ u64.MAX → IsErrOf result OutFault.OutOfMemory }
    {
        self.begin()?;
        let added = self.file.append(piece);
        self.end(added)
    }

    fn cut(&mut self, size: u64) -> Result<(), OutFault>
        ensures last { self.new.last_failed ≡ is_failed result }
        ensures cause { HasCause self.old.faults.count self.new.faults.count result }
        ensures spent { self.old.faults.count ≡ u64.MAX → IsErrOf result OutFault.OutOfMemory }
    {
        self.begin()?;
        let cut = self.file.cut(size);
        self.end(cut)
    }

    fn sync(&mut self) -> Result<(), OutFault>
        ensures last { self.new.last_failed ≡ is_failed result }
        ensures cause { HasCause self.old.faults.count self.new.faults.count result }
        ensures spent { self.old.faults.count ≡ u64.MAX → IsErrOf result OutFault.OutOfMemory }
    {
        self.begin()?;
        let synced = self.file.sync();
        self.end(synced)
    }
}
