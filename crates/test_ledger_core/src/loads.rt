//! Loads of a store that fails.
use crate::bench::{Bench, clock_at};
use crate::stores::store_of;
use ledger_core::{LoadCause, LoadFault};
use outside::{Clock, MemoryStore, SetClock};
use std::alloc::Global;
use std::test::Fail;
use test_fixtures::THREE_STATEMENTS;

/// Whether the store failed once, and it is given back as it was, with the clock, which stands at 7.
fn is_given_back(fault: LoadFault<MemoryStore, SetClock>) -> bool {
    let LoadFault {
        cause,
        store,
        mut clock,
    } = fault;
    cause == LoadCause::StoreFault { count: 1 }
        && store.held().len() == THREE_STATEMENTS.len()
        && clock.now() == 7
}

/// Whether the load of a line fails by its store, whose call after `passes` fails. The store and the clock have to
/// come back.
fn fails(alloc: Global, passes: u64) -> Option<bool> {
    let store = store_of(alloc, THREE_STATEMENTS, passes, 0)?;
    match Bench::load(alloc, store, clock_at(alloc, 7)?)? {
        Ok(_) => None,
        Err(fault) => Some(is_given_back(fault)),
    }
}

#[test]
fn a_failed_read_gives_the_store_back(rt: HostRuntime) -> Result<(), Fail> {
    let alloc = rt.alloc();
    assert!(rt; fails(alloc, 0) == Some(true) && fails(alloc, 1) == Some(true));
    Ok(())
}
