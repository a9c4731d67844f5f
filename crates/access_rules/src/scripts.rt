//! Scripts under rules.
ghost use Rattle.std.specs.Prelude.{◌≡◌, IfOk};
ghost use Rattle.access_rules.specs.Scripts as spec;

use crate::requests::denied;
use crate::rule::Rules;
use containers::{OutOfMemory, Sequence};
use ledger_model::{Job, Script, Session};
use std::alloc::Global;

/// The script under the rules: each transaction with what they deny its session of it.
///
/// Sessions are counted from 1. `OutOfMemory` comes also if there are more than 2^32 - 1 sessions, or as many
/// statements in a transaction.
pub fn script_under(alloc: Global, rules: &Rules, script: Script) -> Result<Script, OutOfMemory>
    ensures { IfOk result (λ under. under ≡ spec.script_under rules.now script) }
{
    let mut number: u32 = 0;
    let mut under = Sequence::new(alloc);
    'sessions: for session in script.into_vec() {
        if number == u32::MAX {
            return Err(OutOfMemory);
        }
        number += 1;
        let ruled = session_under(alloc, rules, number, session)?;
        under.push(ruled)?;
    }
    Ok(under.fitted())
}

/// The session of that number under the rules.
fn session_under(
    alloc: Global,
    rules: &Rules,
    number: u32,
    session: Session,
) -> Result<Session, OutOfMemory>
    ensures { IfOk result (λ under. under ≡ spec.session_under rules.now number session) }
{
    let mut under = Sequence::new(alloc);
    'jobs: for job in session.into_vec() {
        let ruled = job_under(alloc, rules, number, job)?;
        under.push(ruled)?;
    }
    Ok(under.fitted())
}

/// The transaction with what the rules deny that session of it.
fn job_under(alloc: Global, rules: &Rules, session: u32, job: Job) -> Result<Job, OutOfMemory>
    ensures { IfOk result (λ under. under ≡ spec.job_under rules.now session job) }
{
    let denied = denied(alloc, rules, session, job.statements.as_slice())?;
    Ok(Job { denied, ..job })
}
