//! The program: `ledger JOURNAL COMMAND [WORD..]`. It hands the real streams, the journal's file and the system's
//! clock to the top call, and ends with its status. A standard stream that it was started without fails at each call.
#![tactic(auto)]

use ledger_cli::ledger_top;
use outside::{
    FileStore, FreeGate, InputSource, OutputSink, StandardStreams, StoreAccess, SystemClock,
    WaitingStream,
};
use std::process::ExitCode;
use std::rt::Env;
use std::{env, io};

/// Why there is no journal to run on.
enum NoJournal {
    /// The words name none, or a word is not UTF-8.
    NotNamed,
    OutOfMemory,
}

/// The words behind the program's name: the journal's path, and what to do.
fn words_of<R: Env + AllocGlobal>(rt: &R) -> Result<Vec<String>, NoJournal> {
    let args = match env::args(rt) {
        Ok(args) => args,
        Err(error) if error.kind() == io::ErrorKind::OutOfMemory => {
            return Err(NoJournal::OutOfMemory);
        }
        Err(_) => return Err(NoJournal::NotNamed),
    };
    let mut words = Vec::new(rt.alloc());
    for word in args {
        if words.push(word).is_err() {
            return Err(NoJournal::OutOfMemory);
        }
    }
    Ok(words)
}

fn main(rt: HostRuntime) -> ExitCode {
    let Ok(_standard) = StandardStreams::hold(&rt) else {
        return no_streams(&rt);
    };
    let words = match words_of(&rt) {
        Ok(words) => words,
        Err(NoJournal::OutOfMemory) => return ExitCode::from(8),
        Err(NoJournal::NotNamed) => return no_journal(&rt),
    };
    let [_program, path, command @ ..] = words.as_slice() else {
        return no_journal(&rt);
    };
    let mut source = InputSource::new(WaitingStream::new(&rt, rt.reader()));
    let mut sink = OutputSink::new(WaitingStream::new(&rt, io::writer(&rt)));
    let store = FileStore::new(&rt, path.as_str(), access_of(command));
    let Ok(clock_rt) = rt.clone() else {
        return ExitCode::from(8);
    };
    let clock = SystemClock::new(clock_rt);
    let ended = ledger_top(
        &rt,
        rt.alloc(),
        command,
        &mut source,
        &mut sink,
        store,
        clock,
        &FreeGate,
    );
    ExitCode::from(ended.status)
}

/// What the command opens the journal for: `run` and `make` change it, and every other command only reads it.
fn access_of(command: &[String]) -> StoreAccess {
    match command.first() {
        Some(word) if word.as_str() == "run" || word.as_str() == "make" => StoreAccess::Change,
        _ => StoreAccess::Read,
    }
}

/// Says on standard error that the journal might get the descriptor of a standard stream, so that it is not opened.
fn no_streams(rt: &impl Eprint) -> ExitCode {
    let _ = rt.eprintln("ledger: no standard streams");
    ExitCode::from(5)
}

/// Says on standard error that no journal is named.
fn no_journal(rt: &impl Eprint) -> ExitCode {
    let _ = rt.eprintln("ledger: no journal");
    ExitCode::from(1)
}
