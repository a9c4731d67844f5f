//! The text format of Ion 1.0: a reader, and a writer with one spelling of each value.
#![tactic(auto)]

mod laws;
mod stream;
mod writing;

pub use ion_values::{IonFault, IonKind};
pub use laws::{read_is_within, written_is_read};
pub use stream::{ReadFault, Reader, Refused, read_stream};
pub use writing::{is_text_of, write};
