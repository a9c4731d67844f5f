//! The top call of the ledger: it does what the words of a command line ask for.
#![tactic(auto)]

mod command_fault;
mod compact;
mod counts;
mod ends;
mod export;
mod extract;
mod faults;
mod input;
mod journal;
mod judging;
mod lines;
mod make;
mod named;
mod output;
mod prove;
mod question;
mod replay;
mod returned;
mod run;
mod stream;
mod times;
mod top;
mod verify;
mod work;
mod writing;

pub use top::{Ended, ledger_top};
