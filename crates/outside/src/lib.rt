//! What lies outside the program: its input, its output, the store of its journal, its clock and the
//! gate before each step, as traits; forms of them in memory, whose calls can be made to fail; and
//! adapters over the real streams, files and clock.
#![tactic(auto)]

mod adapters;
mod memory;
mod plan;
mod traits;

pub use adapters::{
    FileStore, InputSource, LockFile, OutputSink, StandardStreams, StoreAccess, SystemClock,
    WaitingStream,
};
pub use memory::{FreeGate, MemorySink, MemorySource, MemoryStore, SetClock, SureStore};
pub use plan::Failing;
pub use traits::{Clock, Gate, JournalStore, OutFault, Sink, Source, Step};
