//! Scripts read from values, and the reports of their runs.
#![tactic(auto)]

mod reports;
mod scripts;

pub use ledger_model::{ScriptFault, ScriptKind};
pub use reports::{
    put_blob, put_body, put_cause, put_id, put_item, put_number, put_rows, put_string, report,
};
pub use scripts::{ScriptAnswer, read_script};
