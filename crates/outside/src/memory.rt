//! Forms of the outside in memory, whose calls fail where a list says so.
mod changes;
mod clocks;
mod content;
mod gates;
mod sinks;
mod sources;
mod stores;
mod sure;

pub use clocks::SetClock;
pub use gates::FreeGate;
pub use sinks::MemorySink;
pub use sources::MemorySource;
pub use stores::MemoryStore;
pub use sure::SureStore;
