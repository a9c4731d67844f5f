//! Words that are read.
use crate::words::asked;
use cli_args::{Command, IdSource, MakeOptions};
use ion_values::Text;
use std::alloc::Global;

/// What the words of a run are to say.
#[derive(Clone, Copy)]
struct Wanted<'a> {
    ids: IdSource,
    time: Option<i64>,
    workers: u32,
    rules: Option<&'a str>,
}

fn is_named(rules: &Option<Text>, wanted: Option<&str>) -> bool {
    match (rules, wanted) {
        (Some(name), Some(wanted)) => name.as_str() == wanted,
        (None, None) => true,
        _ => false,
    }
}

/// Whether the words of a line ask for such a run.
fn is_run(alloc: Global, line: &str, wanted: Wanted<'_>) -> bool {
    match asked(alloc, line) {
        Some(Ok(Command::Run(options))) => {
            options.ids == wanted.ids
                && options.time == wanted.time
                && options.workers == wanted.workers
                && is_named(&options.rules, wanted.rules)
        }
        _ => false,
    }
}

/// Whether the words of a line ask for this workload.
fn is_make(alloc: Global, line: &str, wanted: MakeOptions) -> bool {
    match asked(alloc, line) {
        Some(Ok(Command::Make(options))) => options == wanted,
        _ => false,
    }
}

/// Whether the words of a line ask for the digest with this tip.
fn is_digest(alloc: Global, line: &str, wanted: Option<u64>) -> bool {
    match asked(alloc, line) {
        Some(Ok(Command::Digest { tip })) => tip == wanted,
        _ => false,
    }
}

/// Whether the words of a line ask for the proof of this revision of this block with this tip.
fn is_prove(alloc: Global, line: &str, wanted: (u64, u32, Option<u64>)) -> bool {
    match asked(alloc, line) {
        Some(
            Ok(
                Command::Prove {
                    sequence,
                    index,
                    tip,
                },
            ),
        ) => (sequence, index, tip) == wanted,
        _ => false,
    }
}

fn is_verify(alloc: Global, line: &str) -> bool {
    match asked(alloc, line) {
        Some(Ok(Command::Verify)) => true,
        _ => false,
    }
}

fn is_extract(alloc: Global, line: &str) -> bool {
    match asked(alloc, line) {
        Some(Ok(Command::Extract)) => true,
        _ => false,
    }
}

fn is_compact(alloc: Global, line: &str) -> bool {
    match asked(alloc, line) {
        Some(Ok(Command::Compact)) => true,
        _ => false,
    }
}

fn is_export(alloc: Global, line: &str) -> bool {
    match asked(alloc, line) {
        Some(Ok(Command::Export)) => true,
        _ => false,
    }
}

/// Whether the words of a line ask for the stream from this block, up to but without that one.
fn is_stream(alloc: Global, line: &str, wanted: (u64, Option<u64>)) -> bool {
    match asked(alloc, line) {
        Some(Ok(Command::Stream { from, to })) => (from, to) == wanted,
        _ => false,
    }
}

fn is_replay(alloc: Global, line: &str) -> bool {
    match asked(alloc, line) {
        Some(Ok(Command::Replay)) => true,
        _ => false,
    }
}

fn is_audit(alloc: Global, line: &str) -> bool {
    match asked(alloc, line) {
        Some(Ok(Command::Audit)) => true,
        _ => false,
    }
}

/// A run that takes its ids from there, at the clock's times, by four workers, under no rules.
fn from_ids(ids: IdSource) -> Wanted<'static> {
    Wanted {
        ids,
        time: None,
        workers: 4,
        rules: None,
    }
}

#[test]
fn words_of_run(rt: HostRuntime) {
    for (line, ids) in [
        ("run", IdSource::FirstAnswer),
        ("run --", IdSource::FirstAnswer),
        ("run --plain-ids", IdSource::Plain),
        ("run --seed 0", IdSource::Seed(0)),
        ("run --seed=1", IdSource::Seed(1)),
        ("run --seed 70", IdSource::Seed(70)),
        (
            "run --seed 18446744073709551615",
            IdSource::Seed(18_446_744_073_709_551_615),
        ),
    ] {
        assert!(rt; is_run(rt.alloc(), line, from_ids(ids)), "{line}");
    }
}

// Each row is a line and the milliseconds between 1970 and the moment that it names.
#[test]
fn times_of_run(rt: HostRuntime) {
    for (line, time) in [
        ("run --plain-ids --at 1970T", 0),
        ("run --at 2020T --plain-ids", 1_577_836_800_000),
        ("run --plain-ids --at=2020-01T", 1_577_836_800_000),
        ("run --plain-ids --at 2020-01-01", 1_577_836_800_000),
        (
            "run --plain-ids --at 2020-01-01T00:00:00.000Z",
            1_577_836_800_000,
        ),
        (
            "run --plain-ids --at 2020-01-01T00:00+01:00",
            1_577_833_200_000,
        ),
        (
            "run --plain-ids --at 2020-01-01T00:00:00.0019-00:00",
            1_577_836_800_001,
        ),
        ("run --plain-ids --at 1969-12-31T23:59:59.9995Z", -1),
        ("run --plain-ids --at 1969-12-31T23:59:59.999Z", -1),
        ("run --plain-ids --at 1969-12-31T23:59:59.9989Z", -2),
        ("run --plain-ids --at 0001T", -62_135_596_800_000),
        (
            "run --plain-ids --at 9999-12-31T23:59:59.999999999Z",
            253_402_300_799_999,
        ),
    ] {
        let wanted = Wanted {
            time: Some(time),
            ..from_ids(IdSource::Plain)
        };
        assert!(rt; is_run(rt.alloc(), line, wanted), "{line}");
    }
}

#[test]
fn workers_of_run(rt: HostRuntime) {
    for (line, workers) in [
        ("run --workers 1 --plain-ids", 1),
        ("run --plain-ids --workers=2", 2),
        ("run --plain-ids", 4),
        ("run --workers 64 --plain-ids", 64),
    ] {
        let wanted = Wanted {
            workers,
            ..from_ids(IdSource::Plain)
        };
        assert!(rt; is_run(rt.alloc(), line, wanted), "{line}");
    }
}

#[test]
fn rules_of_run(rt: HostRuntime) {
    for (line, rules) in [
        ("run --rules r --plain-ids", "r"),
        ("run --plain-ids --rules=clerks", "clerks"),
        ("run --rules= --plain-ids", ""),
    ] {
        let wanted = Wanted {
            rules: Some(rules),
            ..from_ids(IdSource::Plain)
        };
        assert!(rt; is_run(rt.alloc(), line, wanted), "{line}");
    }
}

#[test]
fn words_of_stream(rt: HostRuntime) {
    for (line, from, to) in [
        ("stream", 0, None),
        ("stream --from 3", 3, None),
        ("stream --to=7 --from=2", 2, Some(7)),
        ("stream --from 0 --to 0", 0, Some(0)),
        (
            "stream --from 18446744073709551615",
            18_446_744_073_709_551_615,
            None,
        ),
    ] {
        assert!(rt; is_stream(rt.alloc(), line, (from, to)), "{line}");
    }
}

// Each row is a line, a seed, how many sessions, how many transactions of each, and how many workers.
#[test]
fn words_of_make(rt: HostRuntime) {
    for (line, seed, sessions, transactions, workers) in [
        ("make --seed 1 --sessions 2 --transactions 3", 1, 2, 3, 4),
        (
            "make --workers 1 --transactions=3 --sessions=2 --seed=0",
            0,
            2,
            3,
            1,
        ),
        (
            "make --seed 18446744073709551615 --sessions 1024 --transactions 97 --workers 64",
            18_446_744_073_709_551_615,
            1024,
            97,
            64,
        ),
        (
            "make --seed 7 --sessions 100 --transactions 1000",
            7,
            100,
            1000,
            4,
        ),
    ] {
        let wanted = MakeOptions {
            seed,
            sessions,
            transactions,
            workers,
        };
        assert!(rt; is_make(rt.alloc(), line, wanted), "{line}");
    }
}

#[test]
fn words_of_digest(rt: HostRuntime) {
    for (line, tip) in [
        ("digest", None),
        ("digest --tip 0", Some(0)),
        ("digest --tip=3", Some(3)),
        (
            "digest --tip 18446744073709551615",
            Some(18_446_744_073_709_551_615),
        ),
    ] {
        assert!(rt; is_digest(rt.alloc(), line, tip), "{line}");
    }
}

#[test]
fn words_of_prove(rt: HostRuntime) {
    for (line, sequence, index, tip) in [
        ("prove 2 0", 2, 0, None),
        ("prove -- 2 0", 2, 0, None),
        ("prove --tip 5 4 1", 4, 1, Some(5)),
        ("prove 4 --tip=5 1", 4, 1, Some(5)),
        (
            "prove 18446744073709551615 4294967295 --tip 0",
            18_446_744_073_709_551_615,
            4_294_967_295,
            Some(0),
        ),
    ] {
        assert!(rt;
            is_prove(rt.alloc(), line, (sequence, index, tip)),
            "{line}"
        );
    }
}

#[test]
fn words_without_values(rt: HostRuntime) {
    assert!(rt; is_verify(rt.alloc(), "verify"));
    assert!(rt; is_verify(rt.alloc(), "verify --"));
    assert!(rt; is_audit(rt.alloc(), "audit"));
    assert!(rt; is_extract(rt.alloc(), "extract"));
    assert!(rt; is_extract(rt.alloc(), "extract --"));
    assert!(rt; is_compact(rt.alloc(), "compact"));
    assert!(rt; is_compact(rt.alloc(), "compact --"));
    assert!(rt; is_export(rt.alloc(), "export"));
    assert!(rt; is_export(rt.alloc(), "export --"));
    assert!(rt; is_replay(rt.alloc(), "replay"));
    assert!(rt; is_replay(rt.alloc(), "replay --"));
}
