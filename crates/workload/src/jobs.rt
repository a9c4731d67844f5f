//! The transactions of a made workload.
ghost use Rattle.std.specs.Prelude.{◌≡◌, ◌∷◌, [], IfOk};
ghost use Rattle.ledger_model.specs.Journal.{number};
ghost use Rattle.ledger_model.specs.Script.{text_alone};
ghost use Rattle.ledger_model.specs.Values.{field};
ghost use Rattle.workload.specs.Made.{asked_with, job_of, made_document, made_first, made_job, made_session, made_sessions};

use crate::amounts::{next_amount, session_stream};
use containers::Sequence;
use ion_values::{Body, Field, OutOfMemory, Text, Value};
use ledger_model::{Job, Request, Script, Session};
use std::alloc::Global;

/// A statement without parameters.
fn text_alone(alloc: Global, text: &str) -> Result<Request, OutOfMemory>
    ensures { IfOk result (λ r. r ≡ text_alone text.now) }
{
    Ok(Request {
        text: Text::from_text(alloc, text)?,
        params: Sequence::new(alloc),
    })
}

/// A statement with one parameter.
fn asked_with(alloc: Global, text: &str, param: Value) -> Result<Request, OutOfMemory>
    ensures { IfOk result (λ r. r ≡ asked_with text.now param) }
{
    let mut params = Sequence::new(alloc);
    params.push(param)?;
    Ok(Request {
        text: Text::from_text(alloc, text)?,
        params,
    })
}

/// The transaction of two statements, as a script has it that says no more.
fn job_of(alloc: Global, first: Request, second: Request) -> Result<Job, OutOfMemory>
    ensures { IfOk result (λ job. job ≡ job_of (first ∷ second ∷ [])) }
{
    let mut statements = Sequence::new(alloc);
    statements.push(first)?;
    statements.push(second)?;
    Ok(Job {
        statements,
        retries: 4,
        digest: None,
        abort: false,
        denied: None,
    })
}

/// The transaction of session 0, which makes the table `made` with an index on the field `s`. It runs before the
/// sessions.
pub fn made_first(alloc: Global) -> Result<Job, OutOfMemory>
    ensures { IfOk result (λ job. job ≡ made_first) }
{
    let table = text_alone(alloc, "CREATE TABLE made")?;
    let index = text_alone(alloc, "CREATE INDEX ON made (s)")?;
    let job = job_of(alloc, table, index)?;
    Ok(job)
}

/// A number as an int.
fn number(alloc: Global, value: u32) -> Value
    ensures { result ≡ number value }
{
    Value {
        annotations: Sequence::new(alloc),
        body: Body::Int(i128::from(value)),
    }
}

/// A field with a number.
fn field(alloc: Global, name: &str, value: u32) -> Result<Field, OutOfMemory>
    ensures { IfOk result (λ f. f ≡ field name.now (number value)) }
{
    Ok(Field {
        name: Text::from_text(alloc, name)?,
        value: number(alloc, value),
    })
}

/// The document that a transaction of a session inserts.
fn made_document(
    alloc: Global,
    session: u32,
    transaction: u32,
    amount: u32,
) -> Result<Value, OutOfMemory>
    ensures { IfOk result (λ v. v ≡ made_document session transaction amount) }
{
    let mut fields = Sequence::new(alloc);
    fields.push(field(alloc, "s", session)?)?;
    fields.push(field(alloc, "t", transaction)?)?;
    fields.push(field(alloc, "amount", amount)?)?;
    Ok(Value {
        annotations: Sequence::new(alloc),
        body: Body::Struct(fields),
    })
}

/// A transaction of a session: it inserts a document and counts those of the session.
fn made_job(alloc: Global, session: u32, transaction: u32, amount: u32) -> Result<Job, OutOfMemory>
    ensures { IfOk result (λ job. job ≡ made_job session transaction amount) }
{
    let document = made_document(alloc, session, transaction, amount)?;
    let insert = asked_with(alloc, "INSERT INTO made ?", document)?;
    let count = asked_with(
        alloc,
        "SELECT COUNT(*) FROM made AS m WHERE m.s = ?",
        number(alloc, session),
    )?;
    let job = job_of(alloc, insert, count)?;
    Ok(job)
}

/// The transactions of a session.
fn made_session(
    alloc: Global,
    seed: u64,
    session: u32,
    transactions: u32,
) -> Result<Session, OutOfMemory>
    ensures { IfOk result (λ jobs. jobs ≡ made_session seed session transactions) }
{
    let mut words = session_stream(seed, session);
    let mut jobs = Sequence::new(alloc);
    'jobs: for at in 0..transactions {
        let amount = next_amount(&mut words);
        jobs.push(made_job(alloc, session, at + 1, amount)?)?;
    }
    Ok(jobs)
}

/// The sessions from 1 to `sessions`, each of `transactions` transactions. Their amounts are the words, modulo 1,000,
/// of the key streams of ChaCha20 whose key is the seed in 8 bytes, the lowest first, and then zeros; a session's
/// number is its stream's.
pub fn made_sessions(
    alloc: Global,
    seed: u64,
    sessions: u32,
    transactions: u32,
) -> Result<Script, OutOfMemory>
    ensures { IfOk result (λ script. script ≡ made_sessions seed sessions transactions) }
{
    let mut script = Sequence::new(alloc);
    'sessions: for at in 0..sessions {
        script.push(made_session(alloc, seed, at + 1, transactions)?)?;
    }
    Ok(script)
}
