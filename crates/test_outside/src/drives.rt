//! A store over a drive that writes down which calls reach it.
use outside::{FileStore, JournalStore, LockFile, OutFault, StoreAccess};
use std::alloc::Allocator;
use std::cell::{Cell, RefCell};
use std::fs::{Files, Metadata, OpenFile, OpenOptions};
use std::io;
use std::io::{ErrorKind, Read, Seek, SeekFrom, Write};

/// A drive with one folder, `folder`, and at most one file in it.
#[derive(Drop)]
struct Drive<'a> {
    calls: &'a RefCell<String>,
    size: &'a Cell<u64>,
    has_file: bool,
    is_locked: bool,
    cannot_sync: bool,
}

/// The file or the folder, open.
#[derive(Drop)]
struct Handle<'a> {
    calls: &'a RefCell<String>,
    size: &'a Cell<u64>,
    name: &'a str,
    is_locked: bool,
    cannot_sync: bool,
}

fn note(calls: &RefCell<String>, call: &str, name: &str) {
    if let Ok(mut calls) = calls.try_borrow_mut() {
        let _ = calls.push_str(call);
        let _ = calls.push_str(name);
    }
}

impl<'a> Drive<'a> {
    fn handle(&self, name: &'a str) -> Handle<'a> {
        Handle {
            calls: self.calls,
            size: self.size,
            name,
            is_locked: self.is_locked,
            cannot_sync: self.cannot_sync,
        }
    }
}

fn unserved<T>() -> io::Result<T> {
    Err(io::Error::from(ErrorKind::Unsupported))
}

impl<'a> Files for Drive<'a> {
    type File = Handle<'a>;

    type Dir = Handle<'a>;

    fn open_file(&self, how: &OpenOptions, path: &str) -> io::Result<Handle<'a>> {
        if path == "folder" {
            return Ok(self.handle(" folder"));
        }
        if how.asks_create_new() {
            note(self.calls, "make", "\n");
            return Ok(self.handle(" file"));
        }
        if !self.has_file || path != "folder/file" {
            return Err(io::Error::from(ErrorKind::NotFound));
        }
        let call = if how.asks_append() {
            "open"
        } else {
            "open to read"
        };
        note(self.calls, call, "\n");
        Ok(self.handle(" file"))
    }

    fn open_dir(&self, _path: &str) -> io::Result<Handle<'a>> {
        unserved()
    }

    fn metadata(&self, path: &str) -> io::Result<Metadata> {
        if !self.has_file || path != "folder/file" {
            return Err(io::Error::from(ErrorKind::NotFound));
        }
        Ok(Metadata::of_file(self.size.get()))
    }

    fn symlink_metadata(&self, path: &str) -> io::Result<Metadata> {
        self.metadata(path)
    }

    fn copy(&self, _from: &str, _to: &str) -> io::Result<u64> {
        unserved()
    }

    fn rename(&self, _from: &str, _to: &str) -> io::Result<()> {
        unserved()
    }

    fn remove_file(&self, _path: &str) -> io::Result<()> {
        unserved()
    }

    fn create_dir(&self, _path: &str) -> io::Result<()> {
        unserved()
    }

    fn remove_dir(&self, _path: &str) -> io::Result<()> {
        unserved()
    }

    fn remove_dir_all<B: Allocator>(&self, _alloc: B, _path: &str) -> io::Result<()> {
        unserved()
    }
}

impl Read for Handle<'_> {
    fn read(&mut self, _buf: &mut [u8]) -> io::Result<usize> {
        Ok(0)
    }
}

impl Write for Handle<'_> {
    fn write(&mut self, buf: &[u8]) -> io::Result<usize> {
        note(self.calls, "write", "\n");
        let size = self.size.get();
        self.size.set(size.saturating_add(buf.len() as u64));
        Ok(buf.len())
    }

    fn flush(&mut self) -> io::Result<()> {
        Ok(())
    }
}

impl Seek for Handle<'_> {
    fn seek(&mut self, _to: SeekFrom) -> io::Result<u64> {
        Ok(0)
    }
}

impl OpenFile for Handle<'_> {
    fn metadata(&self) -> io::Result<Metadata> {
        Ok(Metadata::of_file(self.size.get()))
    }

    fn set_len(&self, size: u64) -> io::Result<()> {
        note(self.calls, "cut", "\n");
        self.size.set(size);
        Ok(())
    }

    fn sync_all(&self) -> io::Result<()> {
        if self.cannot_sync {
            return Err(io::Error::from(ErrorKind::Other));
        }
        note(self.calls, "sync", self.name);
        note(self.calls, "\n", "");
        Ok(())
    }

    fn sync_data(&self) -> io::Result<()> {
        unserved()
    }
}

impl LockFile for Handle<'_> {
    fn lock_at_once(&self) -> io::Result<()> {
        if self.is_locked {
            return Err(io::Error::from(ErrorKind::WouldBlock));
        }
        note(self.calls, "lock", "\n");
        Ok(())
    }

    fn share_at_once(&self) -> io::Result<()> {
        if self.is_locked {
            return Err(io::Error::from(ErrorKind::WouldBlock));
        }
        note(self.calls, "share", "\n");
        Ok(())
    }
}

/// Whether the calls that were noted are these.
fn are_noted(calls: &RefCell<String>, wanted: &str) -> bool {
    match calls.try_borrow() {
        Ok(calls) => calls.as_str() == wanted,
        Err(_) => false,
    }
}

#[test]
fn syncs_reach_the_file_and_once_its_folder(rt: HostRuntime) {
    let (calls, size) = (RefCell::new(String::new(rt.alloc())), Cell::new(0));
    let drive = Drive {
        calls: &calls,
        size: &size,
        has_file: false,
        is_locked: false,
        cannot_sync: false,
    };
    let mut store = FileStore::new(&drive, "folder/file", StoreAccess::Change);
    assert_eq!(rt; (store.size(), store.sync()), (Ok(0), Ok(())));
    for piece in ["a", "b"] {
        assert_eq!(rt; store.append(piece.as_bytes()), Ok(()));
        assert_eq!(rt; store.sync(), Ok(()));
    }
    assert_eq!(rt; store.cut(1), Ok(()));
    let wanted = "make\nlock\nwrite\nsync file\nsync folder\nwrite\nsync file\ncut\n";
    assert!(rt; are_noted(&calls, wanted));
}

#[test]
fn failed_syncs_and_locks_are_failures(rt: HostRuntime) {
    for (is_locked, cannot_sync, wanted) in [
        (true, false, "open\n"),
        (false, true, "open\nlock\n"),
    ] {
        let (calls, size) = (RefCell::new(String::new(rt.alloc())), Cell::new(0));
        let drive = Drive {
            calls: &calls,
            size: &size,
            has_file: true,
            is_locked,
            cannot_sync,
        };
        let mut store = FileStore::new(&drive, "folder/file", StoreAccess::Change);
        assert_eq!(rt; (store.sync(), store.faults()), (Err(OutFault::Failed), 1));
        assert!(rt; are_noted(&calls, wanted));
    }
}

#[test]
fn a_new_file_that_another_locks_is_left(rt: HostRuntime) {
    let (calls, size) = (RefCell::new(String::new(rt.alloc())), Cell::new(0));
    let drive = Drive {
        calls: &calls,
        size: &size,
        has_file: false,
        is_locked: true,
        cannot_sync: false,
    };
    let mut store = FileStore::new(&drive, "folder/file", StoreAccess::Change);
    assert_eq!(rt;
        (store.size(), store.append(b"a")),
        (Ok(0), Err(OutFault::Failed))
    );
    assert_eq!(rt; (store.cut(0), store.faults()), (Err(OutFault::Failed), 2));
    assert!(rt; are_noted(&calls, "make\n"));
}

#[test]
fn a_store_to_be_read_shares_the_lock_and_changes_nothing(rt: HostRuntime) {
    let (calls, size) = (RefCell::new(String::new(rt.alloc())), Cell::new(9));
    let drive = Drive {
        calls: &calls,
        size: &size,
        has_file: true,
        is_locked: false,
        cannot_sync: false,
    };
    let mut store = FileStore::new(&drive, "folder/file", StoreAccess::Read);
    assert_eq!(rt;
        (store.size(), store.append(b"a"), store.cut(0)),
        (Ok(9), Err(OutFault::Failed), Err(OutFault::Failed))
    );
    assert!(rt; are_noted(&calls, "open to read\nshare\n"));
}

#[test]
fn a_size_that_another_program_changed_is_a_failure(rt: HostRuntime) {
    let (calls, size) = (RefCell::new(String::new(rt.alloc())), Cell::new(9));
    let drive = Drive {
        calls: &calls,
        size: &size,
        has_file: true,
        is_locked: false,
        cannot_sync: false,
    };
    let mut store = FileStore::new(&drive, "folder/file", StoreAccess::Change);
    assert_eq!(rt; (store.append(b"a"), store.append(b"b")), (Ok(()), Ok(())));
    size.set(10);
    assert_eq!(rt;
        (store.append(b"c"), store.faults()),
        (Err(OutFault::Failed), 1)
    );
    assert!(rt; are_noted(&calls, "open\nlock\nwrite\nwrite\n"));
}
