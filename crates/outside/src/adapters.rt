//! Adapters over the real streams, files and clock. They tell nothing of content: what the system gives and takes is
//! trusted.
mod clock;
mod faults;
mod files;
mod held;
mod input;
mod journals;
mod limits;
mod opened;
mod output;
mod retry;
mod standard;
mod transfers;
mod waiting;

pub use clock::SystemClock;
pub use files::FileStore;
pub use held::{LockFile, StoreAccess};
pub use input::InputSource;
pub use output::OutputSink;
pub use standard::StandardStreams;
pub use waiting::WaitingStream;
