//! The report of a run: a line for each transaction.
ghost use Rattle.std.specs.Prelude.{◌≡◌, ◌++◌, IfOk, OnOk};
ghost use Rattle.ledger_model.specs.Report.{outcome_line, report};

mod answers;
mod causes;
mod items;
mod moments;
mod outcomes;
mod pieces;

pub use answers::put_rows;
pub use causes::put_cause;
use containers::{OutOfMemory, Text};
pub use items::put_item;
use ledger_model::{Blocks, Outcomes, PlacedOutcome};
use outcomes::put_outcome;
pub use pieces::{put_blob, put_body, put_id, put_number, put_string};
use std::alloc::Global;

/// The report of these outcomes on these blocks: a line of Ion text for each, in order, with each of its
/// fields. A committed transaction's answers are those of its block.
pub fn report(alloc: Global, blocks: &Blocks, outcomes: &Outcomes) -> Result<Text, OutOfMemory>
    ensures { IfOk result (λ text. text ≡ report blocks.now.list outcomes.now) }
{
    let mut out = Text::new(alloc);
    'outcomes: for outcome in outcomes.as_slice() {
        put_line(alloc, &mut out, blocks, outcome)?;
    }
    Ok(out)
}

fn put_line(
    alloc: Global,
    out: &mut Text,
    blocks: &Blocks,
    placed: &PlacedOutcome,
) -> Result<(), OutOfMemory>
    ensures { OnOk result (out.new ≡ out.old ++ outcome_line blocks.now.list placed.now) }
{
    out.push_str("{session:")?;
    put_number(alloc, out, u64::from(placed.place.session))?;
    out.push_str(",transaction:")?;
    put_number(alloc, out, u64::from(placed.place.transaction))?;
    out.push_str(",outcome:")?;
    put_outcome(alloc, out, blocks, &placed.outcome)?;
    out.push_str("}\n")
}
