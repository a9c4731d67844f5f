//! Words that are refused.
use crate::words::asked;
use cli_args::{Command, WordsFault, command_in};

// The words of other programs, and of none.
const COMMANDS: &str = "
frobnicate
frobnicate --seed 1
Run
runs
--seed 1
--plain-ids run
--help
help";

const RUNS: &str = "run extra
run run
run --workers 0
run --workers 65
run --workers
run --workers=
run --workers -1
run --workers +1
run --workers 04
run --workers x
run --workers 4294967297
run --workers 1 --workers 1
run --tip 1
run --see 1
run -s 1
run -1
run --help
run -h
run --version
run -V
run --plain-ids --plain-ids
run --plain-ids=true
run --seed 1 --plain-ids
run --plain-ids --seed=1
run --seed
run --seed --plain-ids
run --seed 1 --seed 1
run --seed=1 --seed=2
run --seed=
run --seed -1
run --seed=-1
run --seed +1
run --seed=+1
run --seed 1.
run --seed 007
run --seed 0x1
run --seed 1_0
run --seed a
run --seed 18446744073709551616
run --rules
run --rules r --rules r
run --rules r s
run --rules -r
run --rules --plain-ids
run --rules r --seed 1 --plain-ids";

const TIMES: &str = "run --at
run --at=
run --at 2020T --at 2020T
run --at 5
run --at 2020
run --at a
run --at now
run --at '2020T'
run --at \"2020T\"
run --at a::2020T
run --at null.timestamp
run --at [2020T]
run --at (2020T)
run --at [
run --at 2020T/**/2021T
run --at 2019-02-29
run --at 2020-13T
run --at 0000T
run --at 2020-01-01T24:00Z
run --at 2020-01-01T00:00:60Z
run --at 2020-01-01T00:00
run --at 2020-01-01T00:00:00.0000000000Z
run --at 0001-01-01T00:00+00:01";

const PROOFS: &str = "digest 1
digest --seed 1
digest --help
digest --tip
digest --tip=
digest --tip 1 --tip 1
digest --tip -1
digest --tip +1
digest --tip 01
digest --tip x
digest --tip 18446744073709551616
digest --rules r
prove
prove 1
prove 1 2 3
prove --tip 1
prove 1 --tip 2
prove 01 0
prove 0 00
prove -1 0
prove +1 0
prove 1 +0
prove 1 -- -1
prove x 0
prove 0 x
prove 18446744073709551616 0
prove 0 4294967296
prove 0 0 --tip
prove 0 0 --tip x
prove 0 0 --tip 1 --tip 1
prove 0 0 --plain-ids
verify 1
verify --tip 1
verify --help
extract 1
extract --tip 1
extracts
audit 1
audit --plain-ids
audit --rules r
audit --version
compact 1
compact --tip 1
compact --plain-ids
compact --help
compacts
Compact
export 1
export --tip 1
Export
stream 1
stream --from
stream --from 01
stream --from -1
stream --to +1
stream --to x
stream --to 18446744073709551616
stream --from 1 --from 1
stream --tip 1
Stream
replay 1
replay --from 0
Replay";

const MAKES: &str = "make
make --seed 1
make --seed 1 --sessions 2
make --seed 1 --transactions 3
make --sessions 2 --transactions 3
make 1 --sessions 2 --transactions 3
make --seed 1 --sessions 2 --transactions 3 4
make --seed 1 --sessions 0 --transactions 3
make --seed 1 --sessions 1025 --transactions 3
make --seed 1 --sessions 2 --transactions 0
make --seed 1 --sessions 2 --transactions 1001
make --seed 1 --sessions 101 --transactions 1000
make --seed 1 --sessions 1024 --transactions 98
make --seed 1 --sessions 02 --transactions 3
make --seed 1 --sessions 2 --transactions +3
make --seed -1 --sessions 2 --transactions 3
make --seed 18446744073709551616 --sessions 2 --transactions 3
make --seed 1 --seed 1 --sessions 2 --transactions 3
make --seed 1 --sessions 2 --sessions 2 --transactions 3
make --seed 1 --sessions 2 --transactions 3 --transactions 3
make --seed 1 --sessions 2 --transactions 3 --workers 0
make --seed 1 --sessions 2 --transactions 3 --workers 65
make --seed 1 --sessions 2 --transactions 3 --workers
make --seed 1 --sessions 2 --transactions 3 --plain-ids
make --seed 1 --sessions 2 --transactions 3 --at 2020T
make --seed 1 --sessions 2 --transactions 3 --rules r
make --seed 1 --sessions 2 --transactions 3 --help";

fn is_refused(answer: &Option<Result<Command, WordsFault>>) -> bool {
    match answer {
        Some(Err(WordsFault::Refused)) => true,
        _ => false,
    }
}

#[test]
fn words_that_are_refused(rt: HostRuntime) {
    for lines in [COMMANDS, RUNS, TIMES, PROOFS, MAKES] {
        for line in lines.lines() {
            let answer = asked(rt.alloc(), line);
            assert!(rt; is_refused(&answer), "{line}");
        }
    }
}

#[test]
fn no_words(rt: HostRuntime) {
    let answer = Some(command_in(rt.alloc(), &[]));
    assert!(rt; is_refused(&answer));
}
