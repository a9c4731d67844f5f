//! The lines that are written in place of a report.
ghost use Rattle.std.specs.Prelude.{◌≡◌, ◌++◌, IfOk, OnOk};
ghost use Rattle.std.specs.Fmt.{decimal};
ghost use Rattle.cli_model.specs.Lines.{bad_range_line, damage_name, damaged_line, fault_text, faulty, input_line};
ghost use Rattle.cli_model.specs.Lines.{kind_name, no_such_line, no_such_text, not_empty_line, script_fault_text};
ghost use Rattle.cli_model.specs.Lines.{script_kind_name};
ghost use Rattle.ledger_cli.specs.Judgements.{cause_of};

use crate::named::Named;
use ion_values::{IonFault, IonKind, OutOfMemory, Text};
use ledger_model::{Damage, ScriptFault, ScriptKind};
use proof_issue::NoSuch;
use std::alloc::Global;

/// Why an input is refused.
#[derive(Clone, Copy, Debug, PartialEq, Eq)]
pub enum BadInput {
    /// It is longer than the longest.
    TooLong,
    /// It is no Ion text that is read.
    Faulty(IonFault),
    /// Its first value isn't named sets of rules.
    BadRules,
    /// None of those sets has the name.
    NoSuchRules,
    /// Its values spell no script.
    Misspelt(ScriptFault),
    /// The value of this number, counted from 0, is no record.
    NotARecord { at: u64 },
    /// It is a record that differs from the one of its place among those before it, for the block of a number.
    RecordDiffers { at: u64, sequence: u64 },
}

/// The error line of an input that is refused.
pub fn input_line(alloc: Global, cause: BadInput) -> Result<Text, OutOfMemory>
    ensures { IfOk result (λ line. line ≡ input_line (cause_of cause)) }
{
    let mut line = Text::new(alloc);
    line.push_str("{status:2,fault:{")?;
    push_cause(alloc, &mut line, cause)?;
    line.push_str("}}\n")?;
    Ok(line)
}

/// Writes why an input is refused, and where.
fn push_cause(alloc: Global, line: &mut Text, cause: BadInput) -> Result<(), OutOfMemory>
    ensures { OnOk result (line.new ≡ line.old ++ fault_text (cause_of cause)) }
{
    match cause {
        BadInput::TooLong => line.push_str("kind:InputTooLong")?,
        BadInput::Faulty(fault) => push_fault(alloc, line, fault)?,
        BadInput::BadRules => line.push_str("kind:BadRules")?,
        BadInput::NoSuchRules => line.push_str("kind:NoSuchRules")?,
        BadInput::Misspelt(fault) => push_script_fault(alloc, line, fault)?,
        BadInput::NotARecord { at } => push_number(
            alloc,
            line,
            Named {
                name: "kind:NotARecord,at:",
                value: at,
            },
        )?,
        BadInput::RecordDiffers { at, sequence } => push_two(
            alloc,
            line,
            Named {
                name: "kind:RecordDiffers,at:",
                value: at,
            },
            Named {
                name: ",sequence:",
                value: sequence,
            },
        )?,
    }
    Ok(())
}

/// Writes the place and the kind of a fault.
fn push_fault(alloc: Global, line: &mut Text, fault: IonFault) -> Result<(), OutOfMemory>
    ensures { OnOk result (line.new ≡ line.old ++ fault_text (faulty fault)) }
{
    let at = fault.at.to_string(alloc)?;
    line.push_str("at:")?;
    line.push_str(at.as_str())?;
    line.push_str(",kind:")?;
    line.push_str(kind_name(fault.kind))?;
    Ok(())
}

/// The name of a kind of faults.
fn kind_name(kind: IonKind) -> &'static str
    ensures { result.now ≡ kind_name kind }
{
    match kind {
        IonKind::NotUtf8 => "NotUtf8",
        IonKind::BadToken => "BadToken",
        IonKind::Unclosed => "Unclosed",
        IonKind::FloatRefused => "FloatRefused",
        IonKind::TooWide => "TooWide",
        IonKind::TooDeep => "TooDeep",
        IonKind::SymbolIdRefused => "SymbolIdRefused",
        IonKind::BadTimestamp => "BadTimestamp",
        IonKind::BadBase64 => "BadBase64",
    }
}

/// Writes the session, the transaction and the kind of a script's fault.
fn push_script_fault(alloc: Global, line: &mut Text, fault: ScriptFault) -> Result<(), OutOfMemory>
    ensures { OnOk result (line.new ≡ line.old ++ script_fault_text fault) }
{
    let session = fault.session.to_string(alloc)?;
    let transaction = fault.transaction.to_string(alloc)?;
    line.push_str("session:")?;
    line.push_str(session.as_str())?;
    line.push_str(",transaction:")?;
    line.push_str(transaction.as_str())?;
    line.push_str(",kind:")?;
    line.push_str(script_kind_name(fault.kind))?;
    Ok(())
}

/// The name of a kind of faults of scripts.
fn script_kind_name(kind: ScriptKind) -> &'static str
    ensures { result.now ≡ script_kind_name kind }
{
    match kind {
        ScriptKind::TooManySessions => "TooManySessions",
        ScriptKind::NotASession => "NotASession",
        ScriptKind::NotATransaction => "NotATransaction",
        ScriptKind::RepeatedField => "RepeatedField",
        ScriptKind::UnknownField => "UnknownField",
        ScriptKind::MissingField => "MissingField",
        ScriptKind::NotAStatement => "NotAStatement",
        ScriptKind::BadRetries => "BadRetries",
        ScriptKind::BadDigest => "BadDigest",
        ScriptKind::BadEnd => "BadEnd",
    }
}

/// The error line of a digest or proof that doesn't exist.
pub fn no_such_line(alloc: Global, refused: NoSuch) -> Result<Text, OutOfMemory>
    ensures { IfOk result (λ line. line ≡ no_such_line refused) }
{
    let mut line = Text::new(alloc);
    line.push_str("{status:2,fault:{")?;
    push_no_such(alloc, &mut line, refused)?;
    line.push_str("}}\n")?;
    Ok(line)
}

/// The error line of a journal that must be empty, but has this number of blocks.
pub fn not_empty_line(alloc: Global, blocks: u64) -> Result<Text, OutOfMemory>
    ensures { IfOk result (λ line. line ≡ not_empty_line blocks) }
{
    let number = blocks.to_string(alloc)?;
    let mut line = Text::new(alloc);
    line.push_str("{status:2,fault:{kind:JournalNotEmpty,blocks:")?;
    line.push_str(number.as_str())?;
    line.push_str("}}\n")?;
    Ok(line)
}

/// Writes why there is no such digest or proof.
fn push_no_such(alloc: Global, line: &mut Text, refused: NoSuch) -> Result<(), OutOfMemory>
    ensures { OnOk result (line.new ≡ line.old ++ no_such_text refused) }
{
    match refused {
        NoSuch::Block { sequence, blocks } => push_two(
            alloc,
            line,
            Named {
                name: "kind:NoSuchBlock,sequence:",
                value: sequence,
            },
            Named {
                name: ",blocks:",
                value: blocks,
            },
        )?,
        NoSuch::Revision { index, count } => push_two(
            alloc,
            line,
            Named {
                name: "kind:NoSuchRevision,index:",
                value: u64::from(index),
            },
            Named {
                name: ",count:",
                value: u64::from(count),
            },
        )?,
        NoSuch::PastTip { sequence, tip } => push_two(
            alloc,
            line,
            Named {
                name: "kind:PastTip,sequence:",
                value: sequence,
            },
            Named {
                name: ",tip:",
                value: tip,
            },
        )?,
        NoSuch::OutOfMemory => line.push_str("kind:OutOfMemory")?,
    }
    Ok(())
}

/// The error line of a range of blocks that ends before it begins.
pub fn bad_range_line(alloc: Global, from: u64, to: u64) -> Result<Text, OutOfMemory>
    ensures { IfOk result (λ line. line ≡ bad_range_line from to) }
{
    let mut line = Text::new(alloc);
    line.push_str("{status:2,fault:{")?;
    push_two(
        alloc,
        &mut line,
        Named {
            name: "kind:BadRange,from:",
            value: from,
        },
        Named {
            name: ",to:",
            value: to,
        },
    )?;
    line.push_str("}}\n")?;
    Ok(line)
}

/// Writes a number after its name.
fn push_number(alloc: Global, line: &mut Text, first: Named<u64>) -> Result<(), OutOfMemory>
    ensures { OnOk result (line.new ≡ line.old ++ (first.name.now ++ decimal first.value)) }
{
    let number = first.value.to_string(alloc)?;
    line.push_str(first.name)?;
    line.push_str(number.as_str())?;
    Ok(())
}

/// Writes two numbers, each after its name.
fn push_two(
    alloc: Global,
    line: &mut Text,
    first: Named<u64>,
    second: Named<u64>,
) -> Result<(), OutOfMemory>
    ensures { OnOk result (line.new ≡ line.old ++ (first.name.now ++ decimal first.value
        ++ second.name.now ++ decimal second.value)) }
{
    let number = first.value.to_string(alloc)?;
    let other = second.value.to_string(alloc)?;
    line.push_str(first.name)?;
    line.push_str(number.as_str())?;
    line.push_str(second.name)?;
    line.push_str(other.as_str())?;
    Ok(())
}

/// The error line of a journal whose line of this number, counted from 0, fails this check first.
pub fn damaged_line(alloc: Global, sequence: u64, kind: Damage) -> Result<Text, OutOfMemory>
    ensures { IfOk result (λ line. line ≡ damaged_line sequence kind) }
{
    let number = sequence.to_string(alloc)?;
    let mut line = Text::new(alloc);
    line.push_str("{status:3,fault:{sequence:")?;
    line.push_str(number.as_str())?;
    line.push_str(",kind:")?;
    line.push_str(damage_name(kind))?;
    line.push_str("}}\n")?;
    Ok(line)
}

/// The name of a check that a line fails.
fn damage_name(kind: Damage) -> &'static str
    ensures { result.now ≡ damage_name kind }
{
    match kind {
        Damage::NotALine => "NotALine",
        Damage::WrongAddress => "WrongAddress",
        Damage::WrongId => "WrongId",
        Damage::TimeFell => "TimeFell",
        Damage::WrongPrevious => "WrongPrevious",
        Damage::WrongHash => "WrongHash",
        Damage::WrongState => "WrongState",
        Damage::Unasked => "Unasked",
    }
}
