//! Scripts that values spell, and why others spell none.
use ion_text::read_stream;
use ion_values::{OutOfMemory, Text, Value};
use ledger_model::{Job, Request, Script, ScriptKind};
use script_form::{ScriptAnswer, read_script};
use std::alloc::Global;
use test_rows::{put_number, spelled};

/// What the values of a text are read as.
fn read(alloc: Global, text: &str) -> Option<Result<Script, ScriptAnswer>> {
    if text.len() > 100_000 {
        return None;
    }
    match read_stream(alloc, text.as_bytes(), 80) {
        Ok(values) => Some(read_script(alloc, values)),
        Err(_) => None,
    }
}

/// Puts the script that a text spells, or the first fault with its session and its transaction.
pub fn put_script(alloc: Global, given: &Value, out: &mut Text) -> Option<()> {
    let text = spelled(alloc, given)?;
    match read(alloc, text.as_str())? {
        Ok(script) => put_sessions(alloc, &script, out).ok(),
        Err(
            ScriptAnswer::Fault {
                session,
                transaction,
                kind,
            },
        ) => {
            out.push_str(name_of(kind)).ok()?;
            put_place(alloc, session, transaction, out).ok()
        }
        Err(ScriptAnswer::OutOfMemory) => None,
    }
}

fn put_place(
    alloc: Global,
    session: u32,
    transaction: u32,
    out: &mut Text,
) -> Result<(), OutOfMemory> {
    out.push_str(" at ")?;
    put_number(alloc, out, i128::from(session))?;
    out.push_str(", ")?;
    put_number(alloc, out, i128::from(transaction))
}

fn name_of(kind: ScriptKind) -> &'static str {
    match kind {
        ScriptKind::TooManySessions => "TooManySessions",
        ScriptKind::NotASession => "NotASession",
        ScriptKind::NotATransaction => "NotATransaction",
        ScriptKind::RepeatedField => "RepeatedField",
        ScriptKind::UnknownField => "UnknownField",
        ScriptKind::MissingField => "MissingField",
        ScriptKind::NotAStatement => "NotAStatement",
        ScriptKind::BadRetries => "BadRetries",
        ScriptKind::BadDigest => "BadDigest",
        ScriptKind::BadEnd => "BadEnd",
    }
}

/// Puts the retries, the end and the digest of each transaction, and its statements' numbers of parameters and texts.
fn put_sessions(alloc: Global, script: &Script, out: &mut Text) -> Result<(), OutOfMemory> {
    out.push_str("sessions")?;
    for session in script.as_slice() {
        out.push_str("/")?;
        put_jobs(alloc, session.as_slice(), out)?;
    }
    Ok(())
}

fn put_jobs(alloc: Global, jobs: &[Job], out: &mut Text) -> Result<(), OutOfMemory> {
    for job in jobs {
        out.push_str("(")?;
        put_number(alloc, out, i128::from(job.retries))?;
        put_ends(job, out)?;
        put_statements(alloc, job.statements.as_slice(), out)?;
        out.push_str(")")?;
    }
    Ok(())
}

fn put_ends(job: &Job, out: &mut Text) -> Result<(), OutOfMemory> {
    out.push_str(if job.abort { " true" } else { " false" })?;
    out.push_str(if job.digest.is_some() {
        " true"
    } else {
        " false"
    })
}

fn put_statements(alloc: Global, asked: &[Request], out: &mut Text) -> Result<(), OutOfMemory> {
    for request in asked {
        out.push_str(" ")?;
        put_number(alloc, out, request.params.len() as i128)?;
        out.push_str(" ")?;
        out.push_str(request.text.as_str())?;
    }
    Ok(())
}
