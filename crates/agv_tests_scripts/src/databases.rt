//! Databases that others have changed: each line is tested in a database of its own.

use crate::ways::{Way, in_database};
use agv_tests_support::lines::whole;
use agv_tests_support::scripts::starts::{A_TO_B, LAYOUT, ONE_EDGE, READY};
use agv_tests_support::scripts::written::{DROPPED, PICKED};
use std::alloc::Global;
use std::process::Abort;

/// Plays a script in a database of its own for each of these lines, in which `%` is the end of a line: the base,
/// `before`, the line, and `behind`.
pub(crate) fn check_each(
    rt: &impl Abort,
    alloc: Global,
    base: &[&str],
    before: &str,
    lines: &str,
    behind: &str,
) {
    let base = whole(alloc, base).expect(rt, "a script");
    for line in lines.lines() {
        if !line.is_empty() {
            let line = line.replace(alloc, '%', "\n").expect(rt, "memory");
            let text = format!(in alloc; "{base}{before}{line}{behind}\n");
            let text = text.expect(rt, "memory");
            in_database(rt, alloc, &Way::Calls(text.as_str()));
        }
    }
}

// ---- rows that were changed

/// After the first order, with one of its two edges released: a hold is missing or there is one too many, an edge of
/// the way is missing, or the table of used names is.
const DAMAGES: &str = "
DELETE FROM hold WHERE id = 'E12'
INSERT INTO hold VALUES ('edge', 'E23', 'KIT', '0001')
DELETE FROM leg WHERE k = 1
UPDATE load SET kind = 'checking', station = NULL WHERE id = 'L1'
DROP TABLE used
";

/// Two of them break a rule of worlds; the other two don't count here, since holds are no part of a world.
const UNLAWFUL: &str = "
DELETE FROM leg WHERE k = 1
UPDATE load SET kind = 'checking', station = NULL WHERE id = 'L1'
";

const LAWFUL: &str = "
DELETE FROM hold WHERE id = 'E12'
INSERT INTO hold VALUES ('edge', 'E23', 'KIT', '0001')
";

/// Checks that a damaged database gives no desk and stays as it is.
#[test]
fn damaged_databases(rt: HostRuntime) {
    let alloc = rt.alloc();
    let base = &[
        "create ok",
        LAYOUT,
        READY,
        A_TO_B,
        ONE_EDGE,
        "adopt ok\nlawful true",
    ];
    let behind = "\nadopt Damaged\ncreate Damaged\nopen Damaged\nmigrate Damaged";
    check_each(&rt, alloc, base, "sql ", DAMAGES, behind);
    check_each(&rt, alloc, base, "sql ", UNLAWFUL, "\nlawful false");
    check_each(&rt, alloc, base, "sql ", LAWFUL, "\nlawful true");
    let nothing = "-- nothing";
    check_each(
        &rt,
        alloc,
        &[],
        "sql ",
        nothing,
        "\nadopt Damaged\nmigrate Damaged",
    );
    check_each(
        &rt,
        alloc,
        &[],
        "sql ",
        nothing,
        "\nopen ok\nrows\n| meta 1 2\ncreate Damaged\nopen ok",
    );
}

/// What others may have besides the desk's tables, and what another lawful world has: one more node, a greater capacity
/// of a station, loads elsewhere, names that were used, a vehicle that is paused, one more vehicle with its capacity
/// and what it holds, a greater capacity of the vehicle, one more job, and a job to the other station at its node.
const KEPT: &str = "
-- nothing
CREATE TABLE other (a TEXT); INSERT INTO other (a) VALUES ('b')
CREATE TABLE loads (load TEXT PRIMARY KEY, trip INTEGER) STRICT
CREATE VIEW standing AS SELECT id, station FROM load
CREATE INDEX by_phase ON job (phase); CREATE INDEX by_kind ON load (kind, id)
CREATE UNIQUE INDEX one_at_a_node ON vehicle (node)
DROP INDEX load_station; DROP INDEX load_vehicle; DROP INDEX job_load; DROP INDEX job_target
INSERT INTO node (id) VALUES ('N4')
UPDATE station SET capacity = 999 WHERE id = 'C'
UPDATE load SET kind = 'left' WHERE id = 'L3'
INSERT INTO load VALUES ('L9', 'station', 'C', NULL, NULL)
INSERT INTO used (kind, id) VALUES ('order', 'O9'), ('ref', 'R9')
DELETE FROM used WHERE kind = 'ref'
UPDATE vehicle SET pending = NULL, paused = 1
INSERT INTO node VALUES ('N4'); INSERT INTO vehicle VALUES ('KIT', '0002', 'N4', NULL, NULL, NULL, NULL, 0, 0, 0, 0, 0, 0, NULL); INSERT INTO capacity VALUES ('KIT', '0002', 4); INSERT INTO hold VALUES ('node', 'N4', 'KIT', '0002')
UPDATE capacity SET capacity = 3
INSERT INTO job VALUES ('J0', 'L2', 'A', 'C', 'done')
UPDATE job SET target = 'C'
";

/// Checks that a lawful world is adopted, whoever wrote it, and that the desk goes on there.
#[test]
fn databases_of_others(rt: HostRuntime) {
    let alloc = rt.alloc();
    let base = &["create ok", LAYOUT, READY, PICKED];
    let behind = whole(alloc, &["\nadopt ok\nopen ok", DROPPED]);
    let behind = behind.expect(&rt, "a script");
    check_each(&rt, alloc, base, "sql ", KEPT, behind.as_str());
}

/// An index that others have put on the desk's tables refuses a change: the call fails and nothing of it is written,
/// whether the row would replace another or be a new one. Without the index it is written.
const REFUSING: &str = r#"
CREATE UNIQUE INDEX one_of_a_kind ON load (kind)
CREATE UNIQUE INDEX one_of_a_kind ON used (kind)
"#;

const REFUSED: &str = r#"
POST /loads/L2/leave {"ref":"R2"}
fault Storage
open ok
row load L2 checking NULL NULL NULL
sql DROP INDEX one_of_a_kind
POST /loads/L2/leave {"ref":"R2"}
200 {}
row load L2 left NULL NULL NULL
row used ref R2
"#;

#[test]
fn refused_changes(rt: HostRuntime) {
    let base = &["create ok", LAYOUT, READY, PICKED];
    check_each(&rt, rt.alloc(), base, "sql ", REFUSING, REFUSED);
}
