//! That what a transaction keeps is within the ranges of its types, as every value of these types is. Nothing is done
//! here but looking.
ghost use Rattle.std.specs.Prelude.{IsTrue};
ghost use Rattle.std.specs.List.{list_all};
ghost use Rattle.laws_validity.specs.Makes.{IsWithinAll, change_within, content_within, draft_within, said_within};

use crate::transaction::Txn;
use ion_values::{is_within, text_is_within, values_are_within};
use ledger_model::{Content, Draft, Said, Schema};

impl Txn {
    /// What the transaction keeps is within its ranges. It does nothing.
    pub fn is_within(&self)
        ensures { IsWithinAll self.now.done }
    {
        said_are_within(self.done.said.as_slice());
        changes_are_within(self.done.schema.as_slice());
        drafts_are_within(self.done.log.as_slice());
    }
}

/// What was said is within its ranges.
fn said_are_within(all: &[Said])
    ensures { IsTrue (list_all said_within all.now) }
{
    'all: for said in all {
        said_is_within(said);
    }
}

fn said_is_within(said: &Said)
    ensures { IsTrue (said_within said.now) }
{
    text_is_within(&said.text);
    values_are_within(said.params.as_slice());
    values_are_within(said.answer.rows.as_slice());
}

/// The names in changes of the schema are within their ranges.
fn changes_are_within(changes: &[Schema])
    ensures { IsTrue (list_all change_within changes.now) }
{
    'changes: for change in changes {
        change_is_within(change);
    }
}

fn change_is_within(change: &Schema)
    ensures { IsTrue (change_within change.now) }
{
    match change {
        Schema::Create { name, .. } => text_is_within(name),
        Schema::Index { field, .. } => text_is_within(field),
        Schema::Drop { name, .. } => text_is_within(name),
        Schema::Redact { .. } => {}
    }
}

/// The contents of revisions are within their ranges.
fn drafts_are_within(drafts: &[Draft])
    ensures { IsTrue (list_all draft_within drafts.now) }
{
    'drafts: for draft in drafts {
        content_is_within(&draft.content);
    }
}

fn content_is_within(content: &Content)
    ensures { IsTrue (content_within content.now) }
{
    match content {
        Content::Deleted | Content::Redacted(_) => {}
        Content::Kept(value) => is_within(value),
    }
}
