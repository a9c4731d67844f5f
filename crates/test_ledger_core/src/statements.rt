//! Statements that rows tell.
use containers::Sequence;
use ion_text::read_stream;
use ion_values::Text;
use ledger_model::{Asked, Request};
use std::alloc::Global;

/// A statement, its text and behind a bar its parameters.
fn request_of(alloc: Global, told: &str) -> Option<Request> {
    let (text, params) = told.split_once('|').unwrap_or((told, ""));
    let params = read_stream(alloc, params.as_bytes(), 80).ok()?;
    let text = Text::from_text(alloc, text).ok()?;
    Some(Request { text, params })
}

/// The statements between semicolons.
pub(crate) fn asked_of(alloc: Global, told: &str) -> Option<Asked> {
    let mut asked = Sequence::new(alloc);
    for statement in told.split(';') {
        asked.push(request_of(alloc, statement)?).ok()?;
    }
    Some(asked)
}
