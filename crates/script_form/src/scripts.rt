//! Scripts: sessions, and the transactions in them.
ghost use Rattle.std.specs.Prelude.{◌≡◌, ◌<◌, ◌≤◌, ◌^◌, length, take, All};
ghost use Rattle.ledger_model.specs.ReadScript.{fault_at, read_each, read_placed, read_script, read_session};
ghost use Rattle.ledger_model.specs.declared.script.ScriptKind.TheVariants as kind;
ghost use Rattle.script_form.specs.Answers.{Gives, IsCountable, members_in};

mod fields;
mod jobs;
mod statements;

use containers::Sequence;
use ion_values::{OutOfMemory, Value, Values};
use jobs::{JobFault, read_job};
use ledger_model::{Job, Script, ScriptKind, Session};
use std::alloc::Global;
use value_codec::takes::into_list;

/// Why no script is read.
#[derive(Clone, Copy, Debug, PartialEq, Eq)]
pub enum ScriptAnswer {
    /// The values spell none: this is the first fault in script order. Sessions and transactions are
    /// counted from 1, and the transaction is 0 where a session is at fault.
    Fault {
        session: u32,
        transaction: u32,
        kind: ScriptKind,
    },
    OutOfMemory,
}

impl From<OutOfMemory> for ScriptAnswer {
    ghost use Rattle.std.specs.Prelude.{◌≡◌};
    ghost use Rattle.script_form.specs.declared.scripts.ScriptAnswer.TheVariants as answer;

    ghost from_gives = { λ _ e. e ≡ answer.OutOfMemory };

    fn from(_error: OutOfMemory) -> ScriptAnswer {
        ScriptAnswer::OutOfMemory
    }
}

/// How many sessions a script has at most.
const MOST_SESSIONS: usize = 1024;

/// The script that the values of an input spell: a session is a list of transactions, and a transaction
/// a struct of its statements, its retries, its digest and its end, of which all but the statements may
/// be left out. Statements and parameters are moved out of the values. `Fault` tells the first fault in
/// script order; that there are more than 1,024 sessions is found behind the faults of these.
pub fn read_script(alloc: Global, values: Values) -> Result<Script, ScriptAnswer>
    requires { All IsCountable values }
    ensures { Gives result (read_script values) }
{
    let has_more = values.len() > MOST_SESSIONS;
    let script = read_sessions(alloc, served(values))?;
    if has_more {
        return Err(fault_at(1025, 0, ScriptKind::TooManySessions));
    }
    Ok(script)
}

/// The first 1,024 values, which are read as sessions.
fn served(values: Values) -> Values
    ensures value { result ≡ take 1024 values }
    ensures few { length result ≤ 1024 }
{
    let mut values = values.into_vec();
    values.truncate(MOST_SESSIONS);
    Sequence::from_vec(values)
}

fn fault_at(session: u32, transaction: u32, kind: ScriptKind) -> ScriptAnswer
    ensures { result ≡ ScriptAnswer.Fault session transaction kind }
{
    ScriptAnswer::Fault {
        session,
        transaction,
        kind,
    }
}

/// The sessions that values spell, the first one being session 1.
fn read_sessions(alloc: Global, values: Values) -> Result<Script, ScriptAnswer>
    requires few { length values < 2 ^ 32 }
    requires countable { All IsCountable values }
    ensures { Gives result (read_each read_session 1 values) }
{
    let mut script = Sequence::new(alloc);
    let mut session: u32 = 0;
    'sessions: for value in values.into_vec() {
        session += 1;
        let read = read_session(alloc, session, value)?;
        script.push(read)?;
    }
    Ok(script)
}

/// The session that a value spells.
fn read_session(alloc: Global, session: u32, value: Value) -> Result<Session, ScriptAnswer>
    requires { IsCountable value }
    ensures { Gives result (read_session session value) }
{
    let Some(members) = into_list(value) else {
        return Err(fault_at(session, 0, ScriptKind::NotASession));
    };
    let jobs = read_jobs(alloc, session, members)?;
    Ok(jobs)
}

/// The transactions that the members of a session spell, the first one being transaction 1.
fn read_jobs(alloc: Global, session: u32, members: Values) -> Result<Session, ScriptAnswer>
    requires { length members < 2 ^ 32 }
    ensures { Gives result (read_each (read_placed session) 1 members) }
{
    let mut jobs = Sequence::new(alloc);
    let mut transaction: u32 = 0;
    'jobs: for member in members.into_vec() {
        transaction += 1;
        let job = read_placed(alloc, session, transaction, member)?;
        jobs.push(job)?;
    }
    Ok(jobs)
}

/// The transaction that a value spells at a place of the script.
fn read_placed(
    alloc: Global,
    session: u32,
    transaction: u32,
    value: Value,
) -> Result<Job, ScriptAnswer>
    ensures { Gives result (read_placed session transaction value) }
{
    match read_job(alloc, value) {
        Ok(job) => Ok(job),
        Err(JobFault::Kind(kind)) => Err(fault_at(session, transaction, kind)),
        Err(JobFault::OutOfMemory) => Err(ScriptAnswer::OutOfMemory),
    }
}
