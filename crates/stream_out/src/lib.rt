//! Journal streams: a journal as a stream of records, and a journal rebuilt from records that were lost, repeated or
//! reordered.
#![tactic(auto)]

mod journal;
mod names;
mod read_records;
mod record;
mod replay;
mod same;
mod stand_ins;
mod values;

pub use journal::{names_in, push_block, stream};
pub use names::Names;
pub use read_records::{read_record, values_tell_records};
pub use record::{Details, Listed, Record, Records, RevisionSummary, Summary};
pub use replay::{Replay, ReplayFault, deliveries_rebuild};
pub use values::{record_line, record_value};
