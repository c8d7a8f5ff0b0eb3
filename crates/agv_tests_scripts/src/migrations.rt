//! Databases of the first schema: some that are migrated, some that can't be, and migrations that stop midway.

use crate::databases::check_each;
use crate::stops::{Work, stop_each};
use agv_tests_support::lines::texts_of;
use std::alloc::Global;
use std::process::Abort;

/// The tables of the first schema, and its number.
const FIRST: &str = "
sql
| CREATE TABLE meta (id INT PRIMARY KEY, schema INTEGER NOT NULL) STRICT;
| CREATE TABLE node (id TEXT PRIMARY KEY) STRICT;
| CREATE TABLE edge (id TEXT PRIMARY KEY, start TEXT NOT NULL, finish TEXT NOT NULL) STRICT;
| CREATE TABLE station (id TEXT PRIMARY KEY, node TEXT NOT NULL, capacity INTEGER NOT NULL) STRICT;
| CREATE TABLE vehicle (manufacturer TEXT, serial TEXT, node TEXT NOT NULL, rest_edge TEXT, rest_node TEXT, last_header INTEGER,
|   reported TEXT, ready INTEGER NOT NULL, paused INTEGER NOT NULL, order_header INTEGER NOT NULL, order_at INTEGER NOT NULL,
|   instant_header INTEGER NOT NULL, instant_at INTEGER NOT NULL, pending TEXT, PRIMARY KEY (manufacturer, serial)) STRICT;
| CREATE TABLE trip (order_id TEXT PRIMARY KEY, manufacturer TEXT NOT NULL, serial TEXT NOT NULL, job TEXT NOT NULL,
|   start TEXT NOT NULL, first INTEGER NOT NULL, base INTEGER NOT NULL, sent INTEGER NOT NULL, confirmed INTEGER,
|   seen INTEGER NOT NULL, pick_at INTEGER NOT NULL, drop_at INTEGER NOT NULL, pick_status TEXT NOT NULL,
|   drop_status TEXT NOT NULL, UNIQUE (manufacturer, serial), UNIQUE (job)) STRICT;
| CREATE TABLE leg (order_id TEXT, k INTEGER, edge TEXT NOT NULL, PRIMARY KEY (order_id, k)) STRICT;
| CREATE TABLE load (id TEXT PRIMARY KEY, kind TEXT NOT NULL, station TEXT, manufacturer TEXT, serial TEXT) STRICT;
| CREATE TABLE job (id TEXT PRIMARY KEY, load TEXT NOT NULL, origin TEXT NOT NULL, target TEXT NOT NULL, phase TEXT NOT NULL) STRICT;
| CREATE TABLE hold (kind TEXT, id TEXT, manufacturer TEXT NOT NULL, serial TEXT NOT NULL, PRIMARY KEY (kind, id)) STRICT;
| CREATE TABLE used (kind TEXT, id TEXT, PRIMARY KEY (kind, id)) STRICT;
| INSERT INTO meta VALUES (1, 1);
";

/// A line of three nodes with three stations, and a load.
const PLACES: &str = "
sql
| INSERT INTO node VALUES ('N1'), ('N2'), ('N3');
| INSERT INTO edge VALUES ('E12', 'N1', 'N2'), ('E21', 'N2', 'N1'), ('E23', 'N2', 'N3'), ('E32', 'N3', 'N2');
| INSERT INTO station VALUES ('A', 'N1', 1), ('B', 'N3', 1), ('C', 'N3', 2);
| INSERT INTO load VALUES ('L1', 'station', 'A', NULL, NULL);
";

/// An order was begun, and one of its two edges released.
const BEGUN: &str = "
sql
| INSERT INTO vehicle VALUES ('KIT', '0001', 'N1', NULL, NULL, 1, NULL, 1, 0, 1, 1700000000000, 0, 0, NULL);
| INSERT INTO trip VALUES ('O1', 'KIT', '0001', 'J1', 'N1', 0, 1, 0, NULL, 0, 0, 2, 'WAITING', 'WAITING');
| INSERT INTO leg VALUES ('O1', 0, 'E12'), ('O1', 1, 'E23');
| INSERT INTO job VALUES ('J1', 'L1', 'A', 'B', 'riding');
| INSERT INTO hold VALUES ('node', 'N1', 'KIT', '0001'), ('edge', 'E12', 'KIT', '0001'), ('node', 'N2', 'KIT', '0001');
| INSERT INTO used VALUES ('order', 'O1');
";

/// The vehicle's order was cancelled before it passed the first edge: the vehicle is astray.
const ASTRAY: &str = "
sql
| INSERT INTO vehicle VALUES ('KIT', '0001', 'N1', 'E12', 'N2', 2, 'O1', 1, 0, 1, 1700000000000, 1, 1700000000000, NULL);
| INSERT INTO job VALUES ('J1', 'L1', 'A', 'B', 'stopped');
| INSERT INTO hold VALUES ('node', 'N1', 'KIT', '0001'), ('edge', 'E12', 'KIT', '0001'), ('node', 'N2', 'KIT', '0001');
| INSERT INTO used VALUES ('order', 'O1');
";

/// The rows of a database with a begun order.
const BEGUN_BEFORE: &str = "
rows
| meta 1 1
| node N1
| node N2
| node N3
| edge E12 N1 N2
| edge E21 N2 N1
| edge E23 N2 N3
| edge E32 N3 N2
| station A N1 1
| station B N3 1
| station C N3 2
| vehicle KIT 0001 N1 NULL NULL 1 NULL 1 0 1 1700000000000 0 0 NULL
| trip O1 KIT 0001 J1 N1 0 1 0 NULL 0 0 2 WAITING WAITING
| leg O1 0 E12
| leg O1 1 E23
| load L1 station A NULL NULL
| job J1 L1 A B riding
| hold edge E12 KIT 0001
| hold node N1 KIT 0001
| hold node N2 KIT 0001
| used order O1
| no capacity
| no journey
| no act
";

/// The rows of a database without a vehicle.
const PLACES_BEFORE: &str = "
rows
| meta 1 1
| node N1
| node N2
| node N3
| edge E12 N1 N2
| edge E21 N2 N1
| edge E23 N2 N3
| edge E32 N3 N2
| station A N1 1
| station B N3 1
| station C N3 2
| load L1 station A NULL NULL
| no capacity
| no journey
| no act
";

/// The rows of a database with a begun order after its migration.
const BEGUN_ROWS: &str = "
rows
| meta 1 2
| node N1
| node N2
| node N3
| edge E12 N1 N2
| edge E21 N2 N1
| edge E23 N2 N3
| edge E32 N3 N2
| station A N1 1
| station B N3 1
| station C N3 2
| vehicle KIT 0001 N1 NULL NULL 1 NULL 1 0 1 1700000000000 0 0 NULL
| leg O1 0 E12
| leg O1 1 E23
| load L1 station A NULL NULL
| job J1 L1 A B riding
| hold edge E12 KIT 0001
| hold node N1 KIT 0001
| hold node N2 KIT 0001
| used order O1
| capacity KIT 0001 1
| journey O1 KIT 0001 N1 0 1 0 NULL 0
| act O1 0 J1 pick 0 WAITING
| act O1 1 J1 drop 2 WAITING
";

/// The rows of a database without a vehicle after its migration.
const PLACES_ROWS: &str = "
rows
| meta 1 2
| node N1
| node N2
| node N3
| edge E12 N1 N2
| edge E21 N2 N1
| edge E23 N2 N3
| edge E32 N3 N2
| station A N1 1
| station B N3 1
| station C N3 2
| load L1 station A NULL NULL
";

/// The message of the order is the same as before.
const MESSAGE: &str = r#"
GET /uagv/v2/KIT/0001/order
200 {"edges":[{"actions":[],"edgeId":"E12","endNodeId":"N2","released":true,"sequenceId":1,"startNodeId":"N1"},{"actions":[],"edgeId":"E23","endNodeId":"N3","released":false,"sequenceId":3,"startNodeId":"N2"}],"headerId":1,"manufacturer":"KIT","nodes":[{"actions":[{"actionId":"O1.0","actionParameters":[{"key":"stationType","value":"station"},{"key":"stationName","value":"A"},{"key":"loadType","value":"load"},{"key":"loadId","value":"L1"}],"actionType":"pick","blockingType":"HARD"}],"nodeId":"N1","released":true,"sequenceId":0},{"actions":[],"nodeId":"N2","released":true,"sequenceId":2},{"actions":[{"actionId":"O1.1","actionParameters":[{"key":"stationType","value":"station"},{"key":"stationName","value":"B"},{"key":"loadType","value":"load"},{"key":"loadId","value":"L1"}],"actionType":"drop","blockingType":"HARD"}],"nodeId":"N3","released":false,"sequenceId":4}],"orderId":"O1","orderUpdateId":0,"serialNumber":"0001","timestamp":"2023-11-14T22:13:20.00Z","version":"2.0.0"}
"#;

/// 100 vehicles, each on a trip of its own.
const HUNDRED: &str = "
sql
*100 | INSERT INTO node VALUES ('P#'), ('Q#');
*100 | INSERT INTO edge VALUES ('E#', 'P#', 'Q#');
*100 | INSERT INTO station VALUES ('A#', 'P#', 1), ('B#', 'Q#', 1);
*100 | INSERT INTO vehicle VALUES ('KIT', 'V#', 'P#', NULL, NULL, 1, NULL, 1, 0, 1, 1700000000000, 0, 0, NULL);
*100 | INSERT INTO trip VALUES ('O#', 'KIT', 'V#', 'J#', 'P#', 0, 1, 0, NULL, 0, 0, 1, 'WAITING', 'WAITING');
*100 | INSERT INTO leg VALUES ('O#', 0, 'E#');
*100 | INSERT INTO load VALUES ('L#', 'station', 'A#', NULL, NULL);
*100 | INSERT INTO job VALUES ('J#', 'L#', 'A#', 'B#', 'riding');
*100 | INSERT INTO hold VALUES ('node', 'P#', 'KIT', 'V#'), ('edge', 'E#', 'KIT', 'V#'), ('node', 'Q#', 'KIT', 'V#');
*100 | INSERT INTO used VALUES ('order', 'O#');
";

const HUNDRED_ROWS: &str = "
rows
| meta 1 2
*100 | node P#
*100 | node Q#
*100 | edge E# P# Q#
*100 | station A# P# 1
*100 | station B# Q# 1
*100 | vehicle KIT V# P# NULL NULL 1 NULL 1 0 1 1700000000000 0 0 NULL
*100 | leg O# 0 E#
*100 | load L# station A# NULL NULL
*100 | job J# L# A# B# riding
*100 | hold edge E# KIT V#
*100 | hold node P# KIT V#
*100 | hold node Q# KIT V#
*100 | used order O#
*100 | capacity KIT V# 1
*100 | journey O# KIT V# P# 0 1 0 NULL 0
*100 | act O# 0 J# pick 0 WAITING%| act O# 1 J# drop 1 WAITING
";

/// Databases of the first schema that are migrated: the rows before, and those after.
const MOVED: [&[&str]; 3] = [
    &[
        FIRST,
        PLACES,
        BEGUN,
        BEGUN_BEFORE,
        "migrate ok",
        BEGUN_ROWS,
        MESSAGE,
    ],
    &[FIRST, PLACES, PLACES_BEFORE, "migrate ok", PLACES_ROWS],
    &[FIRST, HUNDRED, "migrate ok", HUNDRED_ROWS],
];

/// Checks that a database that was migrated is adopted, and isn't migrated again.
#[test]
fn moved_databases(rt: HostRuntime) {
    let alloc = rt.alloc();
    for parts in &MOVED {
        let behind = "\nadopt ok\nmigrate Damaged\nopen ok";
        check_each(&rt, alloc, parts, "sql ", "-- nothing", behind);
    }
}

/// Rows that break a rule, tables that are missing or of something else, names that are taken, and another schema.
const NOT_MOVED: &str = "
DELETE FROM hold WHERE id = 'N2'
UPDATE load SET station = 'Z'
UPDATE vehicle SET rest_node = NULL
INSERT INTO leg VALUES ('O1', 0, 'E12')
UPDATE meta SET schema = 2
DROP TABLE used
DROP TABLE node; CREATE TABLE node (id TEXT PRIMARY KEY, x TEXT) STRICT
CREATE TABLE act (a TEXT)
CREATE VIEW journey AS SELECT id FROM load
CREATE INDEX capacity ON load (id)
";

/// An order is open and a cancelOrder is pending.
const PENDING: &str =
    "UPDATE vehicle SET pending = 'cancelOrder', instant_header = 1, instant_at = 1700000000000";

/// Checks that these databases aren't migrated and stay as they are, and that the calls that don't migrate refuse a
/// database of the first schema.
#[test]
fn databases_that_are_not_moved(rt: HostRuntime) {
    let alloc = rt.alloc();
    let astray = &[FIRST, PLACES, ASTRAY];
    check_each(&rt, alloc, astray, "sql ", NOT_MOVED, "\nmigrate Damaged");
    let open = &[FIRST, PLACES, BEGUN];
    check_each(
        &rt,
        alloc,
        open,
        "sql ",
        PENDING,
        "\nadopt Damaged\nopen Damaged\nmigrate ok",
    );
    let held = "; DELETE FROM hold WHERE id = 'N2'\nmigrate Damaged";
    check_each(&rt, alloc, open, "sql ", PENDING, held);
}

/// Migrates a database whose files fail at each of their calls in turn, where the machine then stops.
fn stop_move(rt: &impl Abort, alloc: Global, parts: &[&str], before: &str, after: &str) {
    let texts = texts_of(alloc, parts).expect(rt, "a script");
    let before = texts_of(alloc, &[before]).expect(rt, "rows");
    let after = texts_of(alloc, &[after]).expect(rt, "rows");
    let work = Work::Move(before.as_str(), after.as_str());
    for of_log in [true, false] {
        stop_each(rt, alloc, texts.as_str(), &work, of_log);
    }
}

#[test]
fn moves_that_stop(rt: HostRuntime) {
    let alloc = rt.alloc();
    let begun = &[FIRST, PLACES, BEGUN];
    stop_move(&rt, alloc, begun, BEGUN_BEFORE, BEGUN_ROWS);
    stop_move(&rt, alloc, &[FIRST, PLACES], PLACES_BEFORE, PLACES_ROWS);
}
