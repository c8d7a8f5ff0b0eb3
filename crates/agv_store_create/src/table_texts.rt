//! The SQL texts that create the tables of the desk.
ghost use Rattle.std.specs.Prelude.{◌≡◌, not, map};
ghost use Rattle.sqlite_catalog.specs.Change.{is_used};
ghost use Rattle.agv_store_create.specs.SchemaTexts.{table_texts, making_steps, meta_forms_texts, DefineTables};

use sqlite_catalog::layout::is_used;
use sqlite_schema::schema::Schema;

const META: &str = "CREATE TABLE meta (id INT PRIMARY KEY, schema INTEGER NOT NULL) STRICT";

const NODE: &str = "CREATE TABLE node (id TEXT PRIMARY KEY) STRICT";

const EDGE: &str =
    "CREATE TABLE edge (id TEXT PRIMARY KEY, start TEXT NOT NULL, finish TEXT NOT NULL) STRICT";

const STATION: &str =
    "CREATE TABLE station (id TEXT PRIMARY KEY, node TEXT NOT NULL, capacity INTEGER NOT NULL) STRICT";

const VEHICLE: &str =
    "CREATE TABLE vehicle (manufacturer TEXT, serial TEXT, node TEXT NOT NULL, rest_edge TEXT, rest_node TEXT, last_header INTEGER, reported TEXT, ready INTEGER NOT NULL, paused INTEGER NOT NULL, order_header INTEGER NOT NULL, order_at INTEGER NOT NULL, instant_header INTEGER NOT NULL, instant_at INTEGER NOT NULL, pending TEXT, PRIMARY KEY (manufacturer, serial)) STRICT";

const TRIP: &str =
    "CREATE TABLE trip (order_id TEXT PRIMARY KEY, manufacturer TEXT NOT NULL, serial TEXT NOT NULL, job TEXT NOT NULL, start TEXT NOT NULL, first INTEGER NOT NULL, base INTEGER NOT NULL, sent INTEGER NOT NULL, confirmed INTEGER, seen INTEGER NOT NULL, pick_at INTEGER NOT NULL, drop_at INTEGER NOT NULL, pick_status TEXT NOT NULL, drop_status TEXT NOT NULL, UNIQUE (manufacturer, serial), UNIQUE (job)) STRICT";

const LEG: &str =
    "CREATE TABLE leg (order_id TEXT, k INTEGER, edge TEXT NOT NULL, PRIMARY KEY (order_id, k)) STRICT";

const LOAD: &str =
    "CREATE TABLE load (id TEXT PRIMARY KEY, kind TEXT NOT NULL, station TEXT, manufacturer TEXT, serial TEXT) STRICT";

const JOB: &str =
    "CREATE TABLE job (id TEXT PRIMARY KEY, load TEXT NOT NULL, origin TEXT NOT NULL, target TEXT NOT NULL, phase TEXT NOT NULL) STRICT";

const HOLD: &str =
    "CREATE TABLE hold (kind TEXT, id TEXT, manufacturer TEXT NOT NULL, serial TEXT NOT NULL, PRIMARY KEY (kind, id)) STRICT";

const USED: &str = "CREATE TABLE used (kind TEXT, id TEXT, PRIMARY KEY (kind, id)) STRICT";

pub const CAPACITY: &str =
    "CREATE TABLE capacity (manufacturer TEXT, serial TEXT, capacity INTEGER NOT NULL, PRIMARY KEY (manufacturer, serial)) STRICT";

pub const JOURNEY: &str =
    "CREATE TABLE journey (order_id TEXT PRIMARY KEY, manufacturer TEXT NOT NULL, serial TEXT NOT NULL, start TEXT NOT NULL, first INTEGER NOT NULL, base INTEGER NOT NULL, sent INTEGER NOT NULL, confirmed INTEGER, seen INTEGER NOT NULL, UNIQUE (manufacturer, serial)) STRICT";

pub const ACT: &str =
    "CREATE TABLE act (order_id TEXT, n INTEGER, job TEXT NOT NULL, kind TEXT NOT NULL, place_at INTEGER NOT NULL, status TEXT NOT NULL, PRIMARY KEY (order_id, n), UNIQUE (job, kind)) STRICT";

/// Returns the texts that define the tables, one for each, in the order in which they are executed.
pub fn creation_texts() -> [&'static str; 14]
    ensures { map (λ text. text.now) result ≡ table_texts }
{
    [
        META, NODE, EDGE, STATION, VEHICLE, TRIP, LEG, LOAD, JOB, HOLD, USED, CAPACITY, JOURNEY,
        ACT,
    ]
}

/// Returns the texts of the tables accepted as `meta`: the first column may be the rowid, and then NOT NULL or not, and
/// UNIQUE or not.
pub(crate) fn meta_forms_texts() -> [&'static str; 5]
    ensures { map (λ text. text.now) result ≡ meta_forms_texts }
{
    [
        META,
        "CREATE TABLE meta (id INTEGER PRIMARY KEY, schema INTEGER NOT NULL) STRICT",
        "CREATE TABLE meta (id INTEGER PRIMARY KEY NOT NULL, schema INTEGER NOT NULL) STRICT",
        "CREATE TABLE meta (id INTEGER PRIMARY KEY UNIQUE, schema INTEGER NOT NULL) STRICT",
        "CREATE TABLE meta (id INTEGER PRIMARY KEY NOT NULL UNIQUE, schema INTEGER NOT NULL) STRICT",
    ]
}

/// Proves that each text defines its table.
pub fn texts_define_the_tables()
    ensures { DefineTables }
{}

/// Returns the texts of the creation in the order in which they are executed, each with whether it is executed: an
/// index whose name is taken is left out.
pub(crate) fn making_steps(schema: &Schema) -> [(bool, &'static str); 19]
    ensures { map (λ step. (step.0, step.1.now)) result ≡ making_steps schema.now }
{
    [
        (true, META),
        (true, NODE),
        (true, EDGE),
        (true, STATION),
        (true, VEHICLE),
        (true, TRIP),
        (true, LEG),
        (true, LOAD),
        (true, JOB),
        (true, HOLD),
        (true, USED),
        (true, CAPACITY),
        (true, JOURNEY),
        (true, ACT),
        (
            is_free(schema, "load_station"),
            "CREATE INDEX load_station ON load (station)",
        ),
        (
            is_free(schema, "load_vehicle"),
            "CREATE INDEX load_vehicle ON load (manufacturer, serial)",
        ),
        (
            is_free(schema, "job_load"),
            "CREATE INDEX job_load ON job (load, phase)",
        ),
        (
            is_free(schema, "job_target"),
            "CREATE INDEX job_target ON job (target, phase)",
        ),
        (true, "INSERT INTO meta (id, schema) VALUES (1, 2)"),
    ]
}

/// Returns whether no table, view or index has the name.
fn is_free(schema: &Schema, name: &str) -> bool
    ensures { result ≡ not (is_used schema.now name.now) }
{
    !is_used(schema, name.as_bytes())
}
