//! Who runs a script, and which of its sessions each worker runs.

use ledger_model::Session;

/// The runtime and the gate of a run, and the number of its workers.
#[derive(Drop)]
pub struct Crew<'a, R, G> {
    pub rt: &'a R,
    pub gate: &'a G,
    pub workers: u32,
}

/// A script, and the number of workers to which its sessions are dealt.
#[derive(Drop)]
pub(crate) struct Deal<'a> {
    pub(crate) script: &'a [Session],
    pub(crate) workers: u32,
}

/// The sessions of one worker: those whose numbers leave this rest, divided by the number of workers.
#[derive(Clone, Copy)]
pub struct Share {
    pub workers: u32,
    pub rest: u32,
}
