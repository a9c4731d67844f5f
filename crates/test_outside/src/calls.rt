//! Calls that several tests make.
use outside::JournalStore;

/// Appends three bytes, cuts to four, asks for the size, reads and syncs. It answers which calls succeed.
pub(crate) fn five_calls<St: JournalStore>(store: &mut St) -> [bool; 5] {
    let mut piece = [0u8; 8];
    [
        store.append(b"abc").is_ok(),
        store.cut(4).is_ok(),
        store.size().is_ok(),
        store.read_at(1, &mut piece).is_ok(),
        store.sync().is_ok(),
    ]
}

/// Whether a value may be sent to another thread.
pub(crate) fn crosses_threads<T: Send>(_value: &T) {}
