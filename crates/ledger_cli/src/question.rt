//! Questions to a journal: its digest, the proof of a revision, how much it holds, and its blocks.
ghost use Rattle.std.specs.Prelude.{◌≡◌, IfOk, IfErr};
ghost use Rattle.laws_history.specs.Calls.{span};
ghost use Rattle.cli_model.specs.Journals.{Answers};
ghost use Rattle.ledger_cli.specs.Questions.{Tells};
ghost use Rattle.ledger_cli.specs.Stops.{IsAnswerStop};

use crate::command_fault::CommandFault;
use crate::compact::compact_text;
use crate::counts::counts_text;
use crate::export::export_bytes;
use crate::output::Output;
use crate::prove::{digest_text, proof_text};
use crate::returned::{Resources, Returned};
use cli_model::Question;
use journal_reader::Journal;
use outside::JournalStore;
use std::alloc::Global;

/// The answer to the question, or why there is none. The clock isn't asked.
pub fn ask<S: JournalStore, C>(
    alloc: Global,
    question: Question,
    resources: Resources<S, C>,
) -> Returned<Result<Output, CommandFault>, S, C>
    ensures tells { Tells question result.value (span (S.told resources.store) (S.told result.store)) }
    ensures clock { result.clock ≡ resources.clock }
{
    let Resources { mut store, clock } = resources;
    let value = ask_store(alloc, question, &mut store);
    Returned {
        value,
        store,
        clock,
    }
}

/// The answer of the journal that the store keeps. No byte of the store changes.
fn ask_store<S: JournalStore>(
    alloc: Global,
    question: Question,
    store: &mut S,
) -> Result<Output, CommandFault>
    ensures { Tells question result (span (S.told store.old) (S.told store.new)) }
{
    match Journal::read(alloc, store) {
        Ok(journal) => {
            journal.blocks();
            answer_in(alloc, question, &journal)
        }
        Err(cause) => Err(CommandFault::from(cause)),
    }
}

/// The answer of this journal.
fn answer_in(alloc: Global, question: Question, journal: &Journal) -> Result<Output, CommandFault>
    ensures answers { IfOk result (λ text. Answers question journal.now.blocks text) }
    ensures stop { IfErr result (λ stop. IsAnswerStop question journal.now.blocks stop) }
{
    match question {
        Question::Digest { tip } => Ok(Output::of_text(digest_text(alloc, journal, tip)?)),
        Question::Proof {
            sequence,
            index,
            tip,
        } => Ok(Output::of_text(proof_text(alloc, journal, sequence, index, tip)?)),
        Question::Counts => Ok(Output::of_text(counts_text(alloc, journal.blocks())?)),
        Question::Compact => Ok(Output::of_text(compact_text(alloc, journal)?)),
        Question::Export => export_bytes(alloc, journal),
    }
}
