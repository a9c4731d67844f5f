//! The answers of a committed transaction.
ghost use Rattle.std.specs.Prelude.{◌≡◌, ◌++◌, map, slice_get, OnOk};
ghost use Rattle.ion_model.specs.Write.{joined, value_text};
ghost use Rattle.ledger_model.specs.Journal.{said_in};
ghost use Rattle.ledger_model.specs.Report.{answer_text, answers_text};

use containers::{OutOfMemory, Text};
use ion_text::write;
use ion_values::Value;
use ledger_model::{Blocks, Said, Told};
use std::alloc::Global;

/// Puts the answers of the block of this number.
pub fn put_block(
    alloc: Global,
    out: &mut Text,
    blocks: &Blocks,
    number: u64,
) -> Result<(), OutOfMemory>
    ensures { OnOk result (out.new ≡ out.old ++ answers_text (slice_get blocks.now.list number)) }
{
    match blocks.get(number) {
        Some(block) => put_told(alloc, out, &block.info.said),
        None => Ok(()),
    }
}

/// Puts the answers that are told, of which there are none where the statements' hash alone is.
fn put_told(alloc: Global, out: &mut Text, told: &Told) -> Result<(), OutOfMemory>
    ensures { OnOk result (out.new ≡ out.old ++ joined (map answer_text (said_in told.now))) }
{
    match told {
        Told::Said(said) => put_answers(alloc, out, said.as_slice()),
        Told::Hashed(_) => Ok(()),
    }
}

fn put_answers(alloc: Global, out: &mut Text, said: &[Said]) -> Result<(), OutOfMemory>
    ensures { OnOk result (out.new ≡ out.old ++ joined (map answer_text said.now)) }
{
    let [first, more @ ..] = said else {
        return Ok(());
    };
    put_answer(alloc, out, first)?;
    'answers: for next in more {
        out.push_str(",")?;
        put_answer(alloc, out, next)?;
    }
    Ok(())
}

fn put_answer(alloc: Global, out: &mut Text, said: &Said) -> Result<(), OutOfMemory>
    ensures { OnOk result (out.new ≡ out.old ++ answer_text said.now) }
{
    out.push_str("[")?;
    put_rows(alloc, out, said.answer.rows.as_slice())?;
    out.push_str("]")
}

/// Puts the texts of values with commas between them.
pub fn put_rows(alloc: Global, out: &mut Text, rows: &[Value]) -> Result<(), OutOfMemory>
    ensures { OnOk result (out.new ≡ out.old ++ joined (map value_text rows.now)) }
{
    let [first, more @ ..] = rows else {
        return Ok(());
    };
    put_value(alloc, out, first)?;
    'rows: for next in more {
        out.push_str(",")?;
        put_value(alloc, out, next)?;
    }
    Ok(())
}

fn put_value(alloc: Global, out: &mut Text, v: &Value) -> Result<(), OutOfMemory>
    ensures { OnOk result (out.new ≡ out.old ++ value_text v.now) }
{
    let text = write(alloc, v)?;
    out.push_str(text.as_str())
}
