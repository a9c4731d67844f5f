//! What there is if no journal was loaded.
ghost use Rattle.std.specs.Prelude.{◌≡◌, Err};
ghost use Rattle.ledger_cli.specs.Stops.{load_stop};

use crate::command_fault::CommandFault;
use crate::returned::Returned;
use ledger_core::LoadFault;

/// No value for this cause, and the store and the clock that were given.
pub fn unloaded<T, S, C>(fault: LoadFault<S, C>) -> Returned<Result<T, CommandFault>, S, C>
    ensures value { result.value ≡ Err (load_stop fault.cause) }
    ensures store { result.store ≡ fault.store }
    ensures clock { result.clock ≡ fault.clock }
{
    let LoadFault {
        cause,
        store,
        clock,
    } = fault;
    Returned {
        value: Err(CommandFault::from(cause)),
        store,
        clock,
    }
}
