//! What runs the statements of a worker's transactions.
ghost use Rattle.std.specs.Prelude.{◌≡◌, false, IfOk};
ghost use Rattle.ledger_model.specs.Run.{run, start};
ghost use Rattle.txn_core.specs.Runs.{IsRunOf, ran_of};

use ion_values::OutOfMemory;
use ledger_model::Request;
use outside::{Gate, Step};
use ql_types::Place;
use std::alloc::Global;
use std::sync::Wait;
use txn_core::{ExecuteFault, Ran, Statements, Txn};

/// A gate, and the statements that were read. Contracts say nothing of them.
#[derive(Drop)]
pub(crate) struct Runner<'a, G: Gate> {
    pub(crate) alloc: Global,
    pub(crate) gate: &'a G,
    statements: Statements,
}

impl<'a, G: Gate> Runner<'a, G> {
    /// A runner at this gate, which has read no statement. It takes no memory.
    pub(crate) fn new(alloc: Global, gate: &'a G) -> Runner<'a, G> {
        Runner {
            alloc,
            gate,
            statements: Statements::new(alloc),
        }
    }
}

/// Running the statements of a transaction, at a runtime that threads share.
pub(crate) trait Runs {
    /// Runs all statements of a transaction that has run none, and calls the gate before each. `OutOfMemory` comes also
    /// where the transaction makes more than 2^24 - 1 tables and documents, or has more than 2^32 - 1 statements.
    fn run_gated<R: Wait + Sync>(
        &mut self,
        rt: &R,
        place: Place,
        txn: Txn,
        asked: &[Request],
    ) -> Result<Ran, OutOfMemory>
        requires fresh { txn.done ≡ start }
        requires goes_on { txn.ended ≡ false }
        ensures ran { IfOk result (λ r. ran_of r ≡ run txn.begun txn.base asked.now) }
        ensures of { IfOk result (λ r. IsRunOf txn r) };
}

impl<'a, G: Gate> Runs for Runner<'a, G> {
    fn run_gated<R: Wait + Sync>(
        &mut self,
        rt: &R,
        place: Place,
        txn: Txn,
        asked: &[Request],
    ) -> Result<Ran, OutOfMemory> {
        let mut txn = txn;
        let mut statement: u32 = 0;
        'statements: for request in asked {
            if statement == u32::MAX {
                return Err(OutOfMemory);
            }
            statement += 1;
            self.gate.at(rt, place, Step::BeforeExecute);
            let text = request.text.as_str();
            let params = request.params.as_slice();
            match txn.perform(self.alloc, &mut self.statements, text, params) {
                Ok(()) => {}
                Err(ExecuteFault::Refused(cause)) => return Ok(Ran::Refused { statement, cause }),
                Err(ExecuteFault::OutOfMemory) => return Err(OutOfMemory),
            }
        }
        Ok(Ran::Done(txn))
    }
}
