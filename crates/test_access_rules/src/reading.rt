//! What texts are read as, and demands as they are written.
use access_rules::{Demand, Demands, Rules, demands, read_rules};
use ion_text::read_stream;
use ion_values::{Value, Values};
use pql_model::{Statement, parameters};
use pql_parse::parse;
use std::alloc::Global;

/// The values of an Ion text.
pub(crate) fn values(alloc: Global, text: &str) -> Option<Values> {
    read_stream(alloc, text.as_bytes(), 80).ok()
}

/// The set `r` of an Ion text.
pub(crate) fn rules_of(alloc: Global, text: &str) -> Option<Rules> {
    let values = values(alloc, text)?;
    read_rules(alloc, values.as_slice().first()?, "r").ok()
}

fn demands_with(alloc: Global, statement: &Statement, params: &[Value]) -> Option<Demands> {
    if parameters(statement) as usize == params.len() {
        demands(alloc, statement, params).ok()
    } else {
        None
    }
}

/// The demands of a statement's text, whose parameters stand after ` of `.
pub(crate) fn demands_of(alloc: Global, text: &str) -> Option<Demands> {
    let (text, params) = text.split_once(" of ").unwrap_or((text, ""));
    let statement = parse(alloc, text).ok()?;
    let params = values(alloc, params)?;
    demands_with(alloc, &statement, params.as_slice())
}

/// Appends the demand: the name of its action, and its table.
pub(crate) fn put_demand(out: &mut String, demand: &Demand) -> Option<()> {
    out.push_str(demand.action.name()).ok()?;
    out.push(' ').ok()?;
    out.push_str(demand.table.as_str()).ok()
}
