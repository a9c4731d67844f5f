//! EXEC REDACT_REVISION.
ghost use Rattle.std.specs.Prelude.{◌≡◌, nat_le, IfOk};
ghost use Rattle.ledger_model.specs.Follows.{is_latest, named_by};
ghost use Rattle.ledger_model.specs.Redacting as spec;
ghost use Rattle.ledger_model.specs.State.{is_redact, is_redacted_by};
ghost use Rattle.ledger_model.specs.Whole.{is_redacted};
ghost use Rattle.txn_core.specs.Effects.{effect_of};
ghost use Rattle.txn_core.specs.Stops.{Does};
ghost use Rattle.versions.specs.Held.{recorded_of};

use crate::effect::Effect;
use crate::redaction_arguments::{Arguments, named_revision};
use crate::stopped::ExecuteFault;
use crate::transaction::Txn;
use containers::Sequence;
use ion_values::{OutOfMemory, Value};
use ledger_model::{Content, Refusal, Schema};
use std::alloc::Global;
use value_codec::parts::{address_value, id_value, number, put, structure};
use versions::{Recorded, Versions, redacts};

/// The most revisions that a transaction redacts.
const MOST_REDACTIONS: u64 = 40;

impl Txn {
    /// What redacts the revision that the arguments name. It stops with `NoSuchRevision` where they name none that is
    /// committed, and where the revision isn't redacted.
    #[tactic(auto, using(crate::proofs::Redactions::name_redacted, crate::proofs::Redactions::name_missing))]
    pub(crate) fn redact(
        &self,
        alloc: Global,
        of: Arguments<'_>,
        params: &[Value],
    ) -> Result<Effect, ExecuteFault>
        ensures { Does result
            (spec.redacting self.now.base self.now.done params.now of.entry.address.now of.entry.table.now
            of.entry.document.now) }
    {
        match named_revision(alloc, of, params)? {
            Some(name) => self.redact_named(alloc, name.redaction()),
            None => Err(ExecuteFault::Refused(Refusal::NoSuchRevision)),
        }
    }

    /// What redacts the revision that the change names.
    fn redact_named(&self, alloc: Global, change: Schema) -> Result<Effect, ExecuteFault>
        ensures { Does result (spec.of_revision self.now.base.revisions self.now.done.schema change
            (named_by self.now.base.revisions change)) }
    {
        let Some(recorded) = self.base.named(&change) else {
            return Err(ExecuteFault::Refused(Refusal::NoSuchRevision));
        };
        if let Some(cause) = self.not_redacted(recorded) {
            return Err(ExecuteFault::Refused(cause));
        }
        let effect = redaction(alloc, change, recorded)?;
        Ok(effect)
    }

    /// Why the revision isn't redacted, where it isn't.
    fn not_redacted(&self, recorded: &Recorded) -> Option<Refusal>
        ensures { result ≡ spec.not_redacted self.now.base.revisions self.now.done.schema (recorded_of recorded.now) }
    {
        let version = recorded.revision.metadata.version;
        let changes = self.done.schema.as_slice();
        if is_latest(&self.base, recorded) {
            return Some(Refusal::StillLatest { version });
        }
        if is_redacted_so_far(changes, recorded) {
            return Some(Refusal::AlreadyRedacted { version });
        }
        if has_redacted_most(changes) {
            return Some(Refusal::TooManyRedactions {
                count: MOST_REDACTIONS + 1,
            });
        }
        None
    }
}

/// Whether the revision is its document's latest.
fn is_latest(base: &Versions, recorded: &Recorded) -> bool
    ensures { result ≡ is_latest base.now.revisions (recorded_of recorded.now) }
{
    let at = &recorded.revision.address;
    match base.recorded(recorded.revision.metadata.id) {
        Some(last) => {
            let latest = &last.revision.address;
            latest.strand.raw == at.strand.raw && latest.sequence == at.sequence
        }
        None => false,
    }
}

fn is_redacted(content: &Content) -> bool
    ensures { result ≡ is_redacted content.now }
{
    matches!(content, Content::Redacted(_))
}

/// Whether one of the changes redacts the revision.
fn is_redacted_by(changes: &[Schema], recorded: &Recorded) -> bool
    ensures { result ≡ is_redacted_by changes.now (recorded_of recorded.now) }
{
    'changes: for change in changes {
        if redacts(recorded, change) {
            return true;
        }
    }
    false
}

/// Whether the revision is redacted already, or one of the changes redacts it.
fn is_redacted_so_far(changes: &[Schema], recorded: &Recorded) -> bool
    ensures { result ≡ spec.is_redacted_so_far changes.now (recorded_of recorded.now) }
{
    is_redacted(&recorded.revision.content) || is_redacted_by(changes, recorded)
}

fn is_redact(change: &Schema) -> bool
    ensures { result ≡ is_redact change.now }
{
    matches!(change, Schema::Redact { .. })
}

/// How many revisions the changes redact.
fn redaction_count(changes: &[Schema]) -> u64
    ensures { result ≡ spec.redaction_count changes.now }
{
    let mut count: u64 = 0;
    'changes: for change in changes {
        if is_redact(change) {
            count += 1;
        }
    }
    count
}

/// Whether the changes redact as many revisions as a transaction may.
fn has_redacted_most(changes: &[Schema]) -> bool
    ensures { result ≡ nat_le 40 (spec.redaction_count changes.now) }
{
    redaction_count(changes) >= MOST_REDACTIONS
}

/// The revision as it is answered.
fn revision_row(alloc: Global, recorded: &Recorded) -> Result<Value, OutOfMemory>
    ensures { IfOk result (λ row. row ≡ spec.revision_row (recorded_of recorded.now)) }
{
    let revision = &recorded.revision;
    let mut fields = Sequence::new(alloc);
    put(
        alloc,
        &mut fields,
        "blockAddress",
        address_value(alloc, &revision.address)?,
    )?;
    put(
        alloc,
        &mut fields,
        "tableId",
        id_value(alloc, recorded.table.raw)?,
    )?;
    put(
        alloc,
        &mut fields,
        "documentId",
        id_value(alloc, revision.metadata.id.raw)?,
    )?;
    put(
        alloc,
        &mut fields,
        "version",
        number(alloc, revision.metadata.version),
    )?;
    Ok(structure(alloc, fields))
}

/// What redacts this revision by this change.
#[tactic(auto, using(crate::proofs::Redactions::revision_redacted))]
fn redaction(alloc: Global, change: Schema, recorded: &Recorded) -> Result<Effect, OutOfMemory>
    ensures { IfOk result (λ e. effect_of e ≡ spec.redaction change (recorded_of recorded.now)) }
{
    let mut effect = Effect::new(alloc);
    effect.rows.push(revision_row(alloc, recorded)?)?;
    effect.schema.push(change)?;
    Ok(effect)
}
