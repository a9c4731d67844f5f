//! What statements demand. A row of the table is a statement, its parameters after ` of `, and after ` is` its
//! demands in order, each after a colon.
use crate::reading::{demands_of, put_demand};
use access_rules::Demand;
use std::alloc::Global;

/// Statements of one source.
pub(crate) const SINGLE: &str = r#"SELECT * FROM t is: PartiQLSelect t
SELECT * FROM _ql_committed_t is: PartiQLSelect t
SELECT * FROM history(t) AS h is: PartiQLHistoryFunction t
SELECT * FROM history(t, `2020T`, `2021T`) AS h BY i is: PartiQLHistoryFunction t
SELECT * FROM history(_ql_committed_t) AS h is: PartiQLHistoryFunction _ql_committed_t
SELECT * FROM nowhere is: PartiQLSelect nowhere
SELECT * FROM _ql_x is: PartiQLSelect _ql_x
SELECT * FROM _ql_committed__ql_committed_t is: PartiQLSelect _ql_committed_t
SELECT * FROM "two words" is: PartiQLSelect two words
SELECT * FROM "*" is: PartiQLSelect *
SELECT * FROM "T" is: PartiQLSelect T
SELECT * FROM T is: PartiQLSelect T
SELECT VALUE 'DELETE FROM u' FROM t WHERE t.u = ? of 1 is: PartiQLSelect t
SELECT COUNT(*) FROM t BY i WHERE i = 'x' is: PartiQLSelect t
INSERT INTO t {} is: PartiQLInsert t
INSERT INTO t VALUE 5 is: PartiQLInsert t
INSERT INTO t ? of {a:5} is: PartiQLInsert t
INSERT INTO _ql_committed_t {} is: PartiQLInsert _ql_committed_t
INSERT INTO nowhere {} is: PartiQLInsert nowhere
UPDATE t SET a = 1 is: PartiQLUpdate t
UPDATE t SET a = a, b = ? WHERE c = ? of 1 2 is: PartiQLUpdate t
UPDATE t AS x REMOVE x.a WHERE x.b = 1 is: PartiQLUpdate t
UPDATE t BY i INSERT INTO t.items VALUE 1 is: PartiQLUpdate t
DELETE FROM t is: PartiQLDelete t
DELETE FROM t AS x BY i WHERE x.a = 1 AND i = 'y' is: PartiQLDelete t
DELETE FROM _ql_committed_t is: PartiQLDelete t
DELETE FROM nowhere WHERE a = 1 is: PartiQLDelete nowhere
CREATE TABLE t is: PartiQLCreateTable t
CREATE TABLE _ql_x is: PartiQLCreateTable _ql_x
CREATE TABLE _ql_committed_t is: PartiQLCreateTable _ql_committed_t
CREATE INDEX ON t (a) is: PartiQLCreateIndex t
CREATE INDEX ON _ql_committed_t (a) is: PartiQLCreateIndex _ql_committed_t
DROP TABLE t is: PartiQLDropTable t
DROP TABLE _ql_committed_t is: PartiQLDropTable _ql_committed_t
DROP TABLE "T" is: PartiQLDropTable T
DROP TABLE "*" is: PartiQLDropTable *"#;

/// SELECT of several sources.
pub(crate) const JOINED: &str = r#"SELECT * FROM u, t is: PartiQLSelect u: PartiQLSelect t
SELECT * FROM t AS x, x.items AS i is: PartiQLSelect t
SELECT * FROM t AS x, x.items AS i, u is: PartiQLSelect t: PartiQLSelect u
SELECT * FROM t AS x, @x AS y is: PartiQLSelect t
SELECT * FROM t AS u, u AS y is: PartiQLSelect t
SELECT * FROM t AS x, t AS y, u is: PartiQLSelect t: PartiQLSelect t: PartiQLSelect u
SELECT * FROM t, history(t) AS h is: PartiQLSelect t: PartiQLHistoryFunction t
SELECT * FROM history(u) AS h, t is: PartiQLHistoryFunction u: PartiQLSelect t
SELECT * FROM _ql_committed_t AS c, _ql_committed_u AS d is: PartiQLSelect t: PartiQLSelect u
SELECT COUNT(*) FROM _ql_committed_u AS c JOIN t AS x ON TRUE is: PartiQLSelect u: PartiQLSelect t
SELECT * FROM t CROSS JOIN u, nowhere is: PartiQLSelect t: PartiQLSelect u: PartiQLSelect nowhere"#;

/// FROM with a change.
pub(crate) const CHANGING: &str = r#"FROM t SET a = 1 is: PartiQLUpdate t
FROM t AS x REMOVE x.a is: PartiQLUpdate t
FROM t AS x INSERT INTO x.items VALUE 1 is: PartiQLUpdate t
FROM t AS x, u AS y SET x.a = y.g is: PartiQLUpdate t: PartiQLSelect u
FROM u AS y, t AS x SET x.a = y.g is: PartiQLSelect u: PartiQLUpdate t
FROM history(u) AS h, t AS x SET x.a = 1 is: PartiQLHistoryFunction u: PartiQLUpdate t
FROM t AS x, history(u) AS h REMOVE x.a is: PartiQLUpdate t: PartiQLHistoryFunction u
FROM u AS y, t AS x, "T" AS z SET x.a = 1 is: PartiQLSelect u: PartiQLUpdate t: PartiQLSelect T
FROM t AS x, _ql_committed_u AS c SET x.a = 1 is: PartiQLUpdate t: PartiQLSelect u
FROM t AS x, t AS y SET x.a = y.a is: PartiQLUpdate t: PartiQLSelect t
FROM t AS x, t AS y SET x.a = 1, y.a = 2 is: PartiQLUpdate t: PartiQLUpdate t
FROM t AS x, u AS y SET x.a = 1, y.g = 2 is: PartiQLUpdate t: PartiQLUpdate u
FROM t AS x, u AS y SET y.g = 1, x.a = 2 is: PartiQLUpdate t: PartiQLUpdate u
FROM t AS x, x.items AS i, u AS y SET x.a = i is: PartiQLUpdate t: PartiQLSelect u
FROM u AS y, t AS x, "T" AS z INSERT INTO x.l VALUE y.g is: PartiQLSelect u: PartiQLUpdate t: PartiQLSelect T
FROM t AS x, u AS x SET x.a = 1 is: PartiQLSelect t: PartiQLUpdate u
FROM t, u REMOVE u.a is: PartiQLSelect t: PartiQLUpdate u"#;

/// EXEC REDACT_REVISION, whose table is the text of an argument, or else the empty one.
pub(crate) const REDACTING: &str =
    r#"EXEC REDACT_REVISION ?, ?, ? of {strandId:"s",sequenceNo:0} "t" "d" is: PartiQLRedact t
EXEC REDACT_REVISION ?, ?, ? of 1 t 2 is: PartiQLRedact t
EXEC REDACT_REVISION ?, ?, ? of 1 a::"t" 2 is: PartiQLRedact t
EXEC REDACT_REVISION ?, 't', ? of 1 2 is: PartiQLRedact t
EXEC REDACT_REVISION `{}`, 'two words', 'd' is: PartiQLRedact two words
EXEC REDACT_REVISION ?, '*', ? of 1 2 is: PartiQLRedact *
EXEC REDACT_REVISION ?, '_ql_committed_t', ? of 1 2 is: PartiQLRedact _ql_committed_t
EXEC REDACT_REVISION ?, 5, ? of 1 2 is: PartiQLRedact "#;

fn put_all(out: &mut String, demands: &[Demand]) -> Option<()> {
    for demand in demands {
        out.push_str(": ").ok()?;
        put_demand(out, demand)?;
    }
    Some(())
}

/// The demands of a statement, each after a colon.
pub(crate) fn demanded(alloc: Global, text: &str) -> Option<String> {
    let demands = demands_of(alloc, text)?;
    let mut out = String::new(alloc);
    put_all(&mut out, demands.as_slice())?;
    Some(out)
}
