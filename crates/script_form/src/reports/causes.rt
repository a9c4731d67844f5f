//! Why a statement was refused.
ghost use Rattle.std.specs.Prelude.{◌≡◌, ◌++◌, OnOk};
ghost use Rattle.ledger_model.specs.CauseText.{cause_text, kind_name, not_a_document_text, parameter_count_text, parse_kind_name};

use super::pieces::{put_counted, put_named};
use containers::{OutOfMemory, Text};
use ion_values::Kind;
use ledger_model::{ParseKind, Refusal};
use std::alloc::Global;

/// Puts the code and the fields of a refusal.
pub fn put_cause(alloc: Global, out: &mut Text, cause: &Refusal) -> Result<(), OutOfMemory>
    ensures { OnOk result (out.new ≡ out.old ++ cause_text cause.now) }
{
    match cause {
        Refusal::ParseFault { at, kind } => {
            put_counted(alloc, out, "code:1,at:", *at)?;
            out.push_str(",kind:")?;
            put_parse_kind(out, *kind)
        }
        Refusal::NoSuchTable { name } => put_named(alloc, out, "code:2,name:", name),
        Refusal::TableExists { name } => put_named(alloc, out, "code:3,name:", name),
        Refusal::ReservedName { name } => put_named(alloc, out, "code:4,name:", name),
        Refusal::IndexExists { name, field } => {
            put_named(alloc, out, "code:5,name:", name)?;
            put_named(alloc, out, ",field:", field)
        }
        Refusal::TooManyTables { count } => put_counted(alloc, out, "code:6,count:", *count),
        Refusal::TooManyIndexes { count } => put_counted(alloc, out, "code:7,count:", *count),
        Refusal::TooManyRevisions { count } => put_counted(alloc, out, "code:8,count:", *count),
        Refusal::DocumentTooLarge { bytes } => put_counted(alloc, out, "code:9,bytes:", *bytes),
        Refusal::NotADocument { kind } => put_not_a_document(out, *kind),
        Refusal::ParameterCount { wanted, given } => {
            put_parameter_count(alloc, out, *wanted, *given)
        }
        Refusal::TooDeep { depth } => { put_counted(alloc, out, "code:12,depth:", *depth as u64) }
        Refusal::Ended => out.push_str("code:13"),
        Refusal::OutOfMemory => out.push_str("code:14"),
        Refusal::NoSuchRevision => out.push_str("code:15"),
        Refusal::StillLatest { version } => {
            put_counted(alloc, out, "code:16,version:", *version)
        }
        Refusal::AlreadyRedacted { version } => {
            put_counted(alloc, out, "code:17,version:", *version)
        }
        Refusal::TooManyRedactions { count } => put_counted(alloc, out, "code:18,count:", *count),
    }
}

fn put_not_a_document(out: &mut Text, kind: Kind) -> Result<(), OutOfMemory>
    ensures { OnOk result (out.new ≡ out.old ++ not_a_document_text kind) }
{
    out.push_str("code:10,kind:")?;
    put_kind(out, kind)?;
    Ok(())
}

fn put_parameter_count(
    alloc: Global,
    out: &mut Text,
    wanted: u64,
    given: u64,
) -> Result<(), OutOfMemory>
    ensures { OnOk result (out.new ≡ out.old ++ parameter_count_text wanted given) }
{
    put_counted(alloc, out, "code:11,wanted:", wanted)?;
    put_counted(alloc, out, ",given:", given)?;
    Ok(())
}

fn put_kind(out: &mut Text, kind: Kind) -> Result<(), OutOfMemory>
    ensures { OnOk result (out.new ≡ out.old ++ kind_name kind) }
{
    out.push_str(match kind {
        Kind::Null => "Null",
        Kind::Bool => "Bool",
        Kind::Int => "Int",
        Kind::Decimal => "Decimal",
        Kind::Timestamp => "Timestamp",
        Kind::Symbol => "Symbol",
        Kind::String => "String",
        Kind::Clob => "Clob",
        Kind::Blob => "Blob",
        Kind::List => "List",
        Kind::Sexp => "Sexp",
        Kind::Struct => "Struct",
    })
}

fn put_parse_kind(out: &mut Text, kind: ParseKind) -> Result<(), OutOfMemory>
    ensures { OnOk result (out.new ≡ out.old ++ parse_kind_name kind) }
{
    out.push_str(match kind {
        ParseKind::NotAToken => "NotAToken",
        ParseKind::Unexpected => "Unexpected",
        ParseKind::TextEnds => "TextEnds",
        ParseKind::TooLong => "TooLong",
        ParseKind::TooDeep => "TooDeep",
        ParseKind::TooWide => "TooWide",
        ParseKind::FloatRefused => "FloatRefused",
        ParseKind::IonLiteral => "IonLiteral",
        ParseKind::UnknownName => "UnknownName",
        ParseKind::BadTarget => "BadTarget",
        ParseKind::MixedAggregate => "MixedAggregate",
    })
}
