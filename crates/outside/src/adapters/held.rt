//! The file of a store.
ghost use Rattle.std.specs.Prelude.{◌≡◌, OnErr};
ghost use Rattle.std.specs.Io.{ReadsAtMost};

use super::journals::may_be_journal;
use super::limits::size_limit;
use super::opened::OpenJournal;
use std::fs::{File, Files, OpenFile, OpenOptions};
use std::io::ErrorKind;
use std::path::Path;
use std::{fs, io};

/// What a store is opened for.
#[derive(Clone, Copy, Debug, PartialEq, Eq)]
pub enum StoreAccess {
    /// To read it, beside others that read it.
    Read,
    /// To read it and to change it, alone.
    Change,
}

/// An open file that can be locked against other processes.
pub trait LockFile {
    /// Takes the lock on the whole file, which is held until the file is closed. Where another open of the file has a
    /// lock, it fails at once.
    fn lock_at_once(&self) -> io::Result<()>;

    /// Takes a share of the lock on the whole file, which is held until the file is closed. Where another open of the
    /// file has the whole lock, it fails at once.
    fn share_at_once(&self) -> io::Result<()>;
}

impl LockFile for File {
    fn lock_at_once(&self) -> io::Result<()> {
        self.try_lock()?;
        Ok(())
    }

    fn share_at_once(&self) -> io::Result<()> {
        self.try_lock_shared()?;
        Ok(())
    }
}

/// What is known of the file.
#[derive(Drop)]
enum Found<F> {
    /// No call has touched it yet.
    Untouched,
    /// There was none at the first call.
    Missing,
    /// There was none at the first call, and another process made it or took its lock since.
    Taken,
    /// It is open, and no other process has a lock of it that excludes this access.
    Held(OpenJournal<F>),
}

/// The file at a path. The first call opens it, takes its lock and keeps it open; where there is none, it is made by
/// the first append. One that was made by another process in between is not touched.
#[derive(Drop)]
pub(super) struct HeldFile<'a, R: Files> {
    rt: &'a R,
    path: &'a str,
    access: StoreAccess,
    found: Found<R::File>,
    is_folder_synced: bool,
}

impl<'a, R: Files> HeldFile<'a, R> {
    pub(super) fn new(rt: &'a R, path: &'a str, access: StoreAccess) -> HeldFile<'a, R>
        ensures path { result.path.now ≡ path.now }
        ensures access { result.access ≡ access }
    {
        HeldFile {
            rt,
            path,
            access,
            found: Found::Untouched,
            is_folder_synced: false,
        }
    }
}

impl<R: Files> HeldFile<'_, R>
where
    R::File: LockFile,
{
    /// Opens the file at the first call.
    fn find(&mut self) -> io::Result<()> {
        match self.found {
            Found::Untouched => {
                self.found = match open_journal(self.rt, self.path, self.access)? {
                    Some(file) => Found::Held(file),
                    None => Found::Missing,
                };
                Ok(())
            }
            Found::Taken => Err(io::Error::from(ErrorKind::AlreadyExists)),
            Found::Missing | Found::Held(_) => Ok(()),
        }
    }

    /// Opens the file at the first call, for a call that changes it.
    fn find_to_change(&mut self) -> io::Result<()> {
        match self.access {
            StoreAccess::Read => Err(io::Error::from(ErrorKind::PermissionDenied)),
            StoreAccess::Change => self.find(),
        }
    }

    /// Makes the file where there was none.
    fn make(&mut self) -> io::Result<()> {
        if let Found::Missing = self.found {
            match make_journal(self.rt, self.path) {
                Ok(file) => self.found = Found::Held(file),
                Err(error) => {
                    let kind = error.kind();
                    if kind == ErrorKind::AlreadyExists || kind == ErrorKind::WouldBlock {
                        self.found = Found::Taken;
                    }
                    return Err(error);
                }
            }
        }
        Ok(())
    }

    pub(super) fn size(&mut self) -> io::Result<u64> {
        self.find()?;
        match &mut self.found {
            Found::Held(file) => file.size(),
            _ => Ok(0),
        }
    }

    pub(super) fn read_at(&mut self, at: u64, out: &mut [u8]) -> io::Result<usize>
        ensures bound { ReadsAtMost result out.new }
        ensures lent { OnErr result (out.new ≡ out.old) }
    {
        self.find()?;
        match &mut self.found {
            Found::Held(file) => file.read_at(at, out),
            _ => Ok(0),
        }
    }

    pub(super) fn append(&mut self, piece: &[u8]) -> io::Result<()> {
        self.find_to_change()?;
        self.make()?;
        match &mut self.found {
            Found::Held(file) => file.append(piece),
            _ => Err(io::Error::from(ErrorKind::NotFound)),
        }
    }

    pub(super) fn cut(&mut self, size: u64) -> io::Result<()> {
        self.find_to_change()?;
        match &mut self.found {
            Found::Held(file) => file.cut(size),
            _ => Ok(()),
        }
    }

    /// Syncs the file, and at the first time the folder too, so that the file's name survives a stop of the machine.
    pub(super) fn sync(&mut self) -> io::Result<()> {
        self.find()?;
        if let Found::Held(file) = &self.found {
            file.sync()?;
            if !self.is_folder_synced {
                sync_folder(self.rt, self.path)?;
                self.is_folder_synced = true;
            }
        }
        Ok(())
    }
}

/// The locked file at the path, where there is one. A file that is no journal is refused.
fn open_journal<R: Files>(
    rt: &R,
    path: &str,
    access: StoreAccess,
) -> io::Result<Option<OpenJournal<R::File>>>
where
    R::File: LockFile,
{
    if !is_file(rt, path)? {
        return Ok(None);
    }
    let mut file = OpenOptions::new()
        .read(true)
        .append(access == StoreAccess::Change)
        .open(rt, path)?;
    lock(&file, access)?;
    if file.metadata()?.is_file() && may_be_journal(&mut file)? {
        Ok(Some(OpenJournal::new(file, size_limit(rt))))
    } else {
        Err(io::Error::from(ErrorKind::InvalidData))
    }
}

/// Whether a regular file stands at the path. Anything else that stands there is refused: a read of it might wait for
/// ever or never come to an end. A link to nothing is refused too, since the file behind it would not be made.
fn is_file<R: Files>(rt: &R, path: &str) -> io::Result<bool> {
    match fs::metadata(rt, path) {
        Ok(found) if found.is_file() => Ok(true),
        Ok(_) => Err(io::Error::from(ErrorKind::InvalidInput)),
        Err(error) if error.kind() == ErrorKind::NotFound => is_nothing(rt, path),
        Err(error) => Err(error),
    }
}

/// `false` where nothing stands at the path, not even a link.
fn is_nothing<R: Files>(rt: &R, path: &str) -> io::Result<bool> {
    match fs::symlink_metadata(rt, path) {
        Ok(_) => Err(io::Error::from(ErrorKind::InvalidInput)),
        Err(error) if error.kind() == ErrorKind::NotFound => Ok(false),
        Err(error) => Err(error),
    }
}

fn lock<F: LockFile>(file: &F, access: StoreAccess) -> io::Result<()> {
    match access {
        StoreAccess::Read => file.share_at_once(),
        StoreAccess::Change => file.lock_at_once(),
    }
}

/// A new, locked file at the path. It fails where there is one.
fn make_journal<R: Files>(rt: &R, path: &str) -> io::Result<OpenJournal<R::File>>
where
    R::File: LockFile,
{
    let file = OpenOptions::new()
        .read(true)
        .append(true)
        .create_new(true)
        .open(rt, path)?;
    file.lock_at_once()?;
    Ok(OpenJournal::new(file, size_limit(rt)))
}

/// Syncs the folder of the path. One that may be searched and not read can't be synced by this process.
fn sync_folder<R: Files>(rt: &R, path: &str) -> io::Result<()> {
    match File::open(rt, folder_of(path)) {
        Ok(folder) => folder.sync_all(),
        Err(error) if error.kind() == ErrorKind::PermissionDenied => Ok(()),
        Err(error) => Err(error),
    }
}

/// The folder in which the path's last name stands.
fn folder_of(path: &str) -> &str {
    match Path::new(path).parent() {
        Some(folder) if !folder.as_str().is_empty() => folder.as_str(),
        _ => ".",
    }
}
