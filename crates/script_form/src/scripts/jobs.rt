//! A transaction of a script.
ghost use Rattle.std.specs.Prelude.{◌≡◌};
ghost use Rattle.ledger_model.specs.ReadScript.{job_of_fields, job_said, read_job};
ghost use Rattle.script_form.specs.Answers.{GivesKind};

use super::fields::{abort_said, digest_said, has_unknown, retries_said, statements_said};
use ion_values::{Fields, OutOfMemory, Value};
use ledger_model::{Job, ScriptKind, repeats};
use std::alloc::Global;
use value_codec::takes::into_fields;

/// Why no transaction is read.
#[derive(Clone, Copy, Debug, PartialEq, Eq)]
pub enum JobFault {
    Kind(ScriptKind),
    OutOfMemory,
}

impl From<OutOfMemory> for JobFault {
    ghost use Rattle.std.specs.Prelude.{◌≡◌};
    ghost use Rattle.script_form.specs.declared.scripts.jobs.JobFault.TheVariants as stop;

    ghost from_gives = { λ _ e. e ≡ stop.OutOfMemory };

    fn from(_error: OutOfMemory) -> JobFault {
        JobFault::OutOfMemory
    }
}

/// What the fields say, one after another. The statements are moved out of them.
fn job_said(alloc: Global, fields: Fields) -> Result<Job, JobFault>
    ensures { GivesKind result (job_said fields) }
{
    let retries = retries_said(fields.as_slice());
    let digest = digest_said(fields.as_slice());
    let abort = abort_said(fields.as_slice());
    let statements = statements_said(alloc, fields)?;
    Ok(Job {
        statements,
        retries: retries?,
        digest: digest?,
        abort: abort?,
        denied: None,
    })
}

fn job_of_fields(alloc: Global, fields: Fields) -> Result<Job, JobFault>
    ensures { GivesKind result (job_of_fields fields) }
{
    if repeats(alloc, fields.as_slice())? {
        return Err(JobFault::Kind(ScriptKind::RepeatedField));
    }
    if has_unknown(fields.as_slice()) {
        return Err(JobFault::Kind(ScriptKind::UnknownField));
    }
    let job = job_said(alloc, fields)?;
    Ok(job)
}

/// The transaction that a value spells, or the first of the kinds of faults that it has.
pub fn read_job(alloc: Global, value: Value) -> Result<Job, JobFault>
    ensures { GivesKind result (read_job value) }
{
    let Some(fields) = into_fields(value) else {
        return Err(JobFault::Kind(ScriptKind::NotATransaction));
    };
    let job = job_of_fields(alloc, fields)?;
    Ok(job)
}
