//! Each form in memory once, with calls that fail.
use crate::calls::five_calls;
use outside::{
    Clock, Failing, FreeGate, Gate, MemorySink, MemorySource, MemoryStore, OutFault, SetClock,
    Sink, Source, Step, SureStore,
};
use ql_types::Place;
use std::test::Fail;

const FAILED: OutFault = OutFault::Failed;

/// The second call fails, and the next one too.
const TWO: [Failing; 2] = [
    Failing { passes: 1, kept: 0 },
    Failing { passes: 0, kept: 0 },
];

#[test]
fn source_in_memory(rt: HostRuntime) -> Result<(), Fail> {
    let bytes = b"hello".to_vec(rt.alloc())?;
    let mut source = MemorySource::new(bytes, TWO.to_vec(rt.alloc())?);
    let mut piece = *b"...";
    for (answer, faults, left) in [
        (Ok(3), 0, *b"hel"),
        (Err(FAILED), 1, *b"hel"),
        (Err(FAILED), 2, *b"hel"),
        (Ok(2), 2, *b"lol"),
        (Ok(0), 2, *b"lol"),
    ] {
        assert_eq!(rt;
            (source.read(&mut piece), source.faults()),
            (answer, faults)
        );
        assert_eq!(rt; piece, left);
    }
    Ok(())
}

#[test]
fn sink_in_memory(rt: HostRuntime) -> Result<(), Fail> {
    let mut sink = MemorySink::new(rt.alloc(), TWO.to_vec(rt.alloc())?);
    for want in [(Ok(3), 0), (Err(FAILED), 1), (Err(FAILED), 2), (Ok(3), 2)] {
        assert_eq!(rt; (sink.write(b"abc"), sink.faults()), want);
    }
    assert_eq!(rt; sink.written(), b"abcabc".as_slice());
    Ok(())
}

#[test]
fn stores_in_memory(rt: HostRuntime) -> Result<(), Fail> {
    for (passes, kept, fine, want) in [
        (0, 1, [false, true, true, true, true], "xya"),
        (1, 0, [true, false, true, true, true], "xyabc"),
        (1, 1, [true, false, true, true, true], "xyab"),
        (4, 0, [true, true, true, true, false], "xyab"),
    ] {
        let fails = [Failing { passes, kept }].to_vec(rt.alloc())?;
        let mut store = MemoryStore::new(rt.alloc(), b"xy".to_vec(rt.alloc())?, fails);
        assert_eq!(rt; five_calls(&mut store), fine);
        assert_eq!(rt; store.held(), want.as_bytes());
    }
    let mut store = SureStore::new(rt.alloc(), b"xy".to_vec(rt.alloc())?);
    assert_eq!(rt; five_calls(&mut store), [true; 5]);
    assert_eq!(rt; store.held(), b"xyab".as_slice());
    Ok(())
}

#[test]
fn clock_and_gate_in_memory(rt: HostRuntime) -> Result<(), Fail> {
    let mut clock = SetClock::new([5, -3].to_vec(rt.alloc())?);
    for time in [5, -3, -3] {
        assert_eq!(rt; clock.now(), time);
    }
    let place = Place {
        session: 1,
        transaction: 1,
    };
    FreeGate.at(&rt, place, Step::BeforeBegin);
    Ok(())
}
