//! A store over real files.
use crate::calls::{crosses_threads, five_calls};
use outside::{FileStore, JournalStore, OutFault, StoreAccess};
use std::alloc::{AllocError, Global};
use std::fs;
use std::test::Fail;

const FAILED: OutFault = OutFault::Failed;

/// `length` bytes, 0 to 250 again and again.
fn counted(alloc: Global, length: usize) -> Result<Vec<u8>, AllocError> {
    let mut bytes = Vec::new(alloc);
    for i in 0..length {
        bytes.push((i % 251) as u8)?;
    }
    Ok(bytes)
}

#[test]
fn a_file_is_read_back_at_its_places(rt: HostRuntime) -> Result<(), Fail> {
    let path = "outside_read_back.tmp";
    let _ = fs::remove_file(&rt, path);
    let bytes = counted(rt.alloc(), 70_008)?;
    let mut store = FileStore::new(&rt, path, StoreAccess::Change);
    crosses_threads(&store);
    assert_eq!(rt; store.size(), Ok(0));
    let mut rest = bytes.as_slice();
    for length in [1, 40_000, 30_000, 7] {
        let (piece, more) = rest.split_at(length.min(rest.len()));
        assert_eq!(rt; store.append(piece), Ok(()));
        rest = more;
    }
    assert_eq!(rt; store.size(), Ok(70_008));
    let mut piece = [0u8; 4];
    for at in [0usize, 1, 39_999, 65_534, 65_536, 70_004] {
        assert_eq!(rt; store.read_at(at as u64, &mut piece), Ok(4));
        assert_eq!(rt; piece.as_slice(), bytes.get(at..at + 4).unwrap_or(b""));
    }
    assert_eq!(rt; store.read_at(70_008, &mut piece), Ok(0));
    fs::remove_file(&rt, path)?;
    Ok(())
}

#[test]
fn a_file_is_held_by_one_store(rt: HostRuntime) -> Result<(), Fail> {
    let path = "outside_held.tmp";
    let _ = fs::remove_file(&rt, path);
    {
        let mut first = FileStore::new(&rt, path, StoreAccess::Change);
        let mut second = FileStore::new(&rt, path, StoreAccess::Change);
        assert_eq!(rt; (second.size(), first.append(b"\nxy")), (Ok(0), Ok(())));
        assert_eq!(rt;
            (second.append(b"z"), second.cut(0)),
            (Err(FAILED), Err(FAILED))
        );
        let mut third = FileStore::new(&rt, path, StoreAccess::Change);
        assert_eq!(rt;
            (third.size(), third.append(b"z"), third.faults()),
            (Err(FAILED), Err(FAILED), 2)
        );
        assert_eq!(rt; fs::read_to_string(&rt, path)?.as_str(), "\nxy");
    }
    let mut next = FileStore::new(&rt, path, StoreAccess::Change);
    assert_eq!(rt; five_calls(&mut next), [true; 5]);
    assert_eq!(rt; fs::read_to_string(&rt, path)?.as_str(), "\nxya");
    fs::remove_file(&rt, path)?;
    Ok(())
}

// Each row has a file's text, and whether it may be a journal.
#[test]
fn what_is_no_journal_is_left(rt: HostRuntime) -> Result<(), Fail> {
    let path = "outside_no_journal.tmp";
    for (text, may_be) in [
        ("", true),
        ("{", true),
        ("{blockAddress:{strandId:\"0", true),
        ("Dear Ada,\n", true),
        ("Dear Ada,", false),
        ("{blockaddress:{strandId:\"0", false),
        ("{blockAddress:{strandId:'0", false),
    ] {
        fs::write(&rt, path, text)?;
        let mut store = FileStore::new(&rt, path, StoreAccess::Change);
        assert_eq!(rt; store.cut(0).is_ok(), may_be, "{text}");
        let left = if may_be { "" } else { text };
        assert_eq!(rt; fs::read_to_string(&rt, path)?.as_str(), left);
    }
    fs::remove_file(&rt, path)?;
    Ok(())
}

#[test]
fn a_file_is_read_by_two_stores(rt: HostRuntime) -> Result<(), Fail> {
    let path = "outside_shared.tmp";
    fs::write(&rt, path, "\nxy")?;
    {
        let mut first = FileStore::new(&rt, path, StoreAccess::Read);
        let mut second = FileStore::new(&rt, path, StoreAccess::Read);
        let mut third = FileStore::new(&rt, path, StoreAccess::Change);
        assert_eq!(rt;
            (first.size(), second.size(), third.size()),
            (Ok(3), Ok(3), Err(FAILED))
        );
        assert_eq!(rt;
            (second.append(b"z"), second.cut(0)),
            (Err(FAILED), Err(FAILED))
        );
    }
    assert_eq!(rt; fs::read_to_string(&rt, path)?.as_str(), "\nxy");
    fs::remove_file(&rt, path)?;
    Ok(())
}

#[test]
fn a_file_that_was_removed_fails(rt: HostRuntime) -> Result<(), Fail> {
    let path = "outside_removed.tmp";
    let _ = fs::remove_file(&rt, path);
    let mut store = FileStore::new(&rt, path, StoreAccess::Change);
    assert_eq!(rt; store.append(b"\n"), Ok(()));
    fs::remove_file(&rt, path)?;
    assert_eq!(rt; (store.append(b"a"), store.faults()), (Err(FAILED), 1));
    Ok(())
}

#[test]
fn what_cannot_be_opened_fails(rt: HostRuntime) -> Result<(), Fail> {
    let (file, folder) = ("outside_plain.tmp", "outside_folder.tmp");
    fs::write(&rt, file, "")?;
    let _ = fs::create_dir(&rt, folder);
    let mut below = FileStore::new(&rt, "outside_plain.tmp/journal", StoreAccess::Change);
    assert_eq!(rt; (below.size(), below.faults()), (Err(FAILED), 1));
    let mut store = FileStore::new(&rt, folder, StoreAccess::Change);
    assert_eq!(rt; (store.cut(0), store.faults()), (Err(FAILED), 1));
    let mut missing = FileStore::new(&rt, "no_such_folder/journal", StoreAccess::Change);
    let fine = five_calls(&mut missing);
    assert_eq!(rt;
        (fine, missing.faults()),
        ([false, true, true, true, true], 1)
    );
    fs::remove_file(&rt, file)?;
    fs::remove_dir(&rt, folder)?;
    Ok(())
}
