//! Scripts of stocktakes.

use crate::scripts::starts::{A_TO_B, LAYOUT, READY};

/// A load that was at A is found at C.
pub const FOUND: &str = r#"
POST /loads {"load":"L1","station":"A"}
200 {}
POST /stocktakes/R2
| station,load
| A,
| C,L1
200 {"moved":1,"unknown":[]}
moves L1 station C
GET /loads/L1
200 {"job":null,"load":"L1","place":"station C"}
POST /stocktakes/R2
| station,load
| A,
| C,L1
409 {"name":"RefUsed","refusal":49}
POST /stocktakes/R3
| station,load
| A,
| C,L1
200 {"moved":0,"unknown":[]}
moves
POST /stocktakes/R4
| station,load
| C,L1
| C,L9
200 {"moved":0,"unknown":["L9"]}
row load L1 station C NULL NULL
row used ref R4
"#;

/// A load in a job is not moved.
const IN_JOB: &str = r#"
POST /stocktakes/R2
| station,load
| A,
| C,L1
409 {"name":"InJob","refusal":35}
GET /loads/L1
200 {"job":"J1","load":"L1","place":"station A"}
"#;

/// One load at A, and one at C.
const TWO_LOADS: &str = r#"
POST /loads {"load":"L1","station":"A"}
200 {}
POST /loads {"load":"L3","station":"C"}
200 {}
"#;

/// A stocktake that counts no station.
const NOTHING_COUNTED: &str = r#"
POST /stocktakes/R1
| station,load
200 {"moved":0,"unknown":[]}
moves
row used ref R1
"#;

/// A load that is not found goes to the checking place.
const MISSING: &str = r#"
POST /stocktakes/R1
| station,load
| C,
200 {"moved":1,"unknown":[]}
moves L3 checking
GET /loads/L3
200 {"job":null,"load":"L3","place":"checking"}
GET /loads/L1
200 {"job":null,"load":"L1","place":"station A"}
"#;

/// A load that the desk does not know is listed as unknown.
const UNKNOWN: &str = r#"
POST /stocktakes/R1
| station,load
| C,L3
| C,L9
200 {"moved":0,"unknown":["L9"]}
"#;

/// A load that has left is listed as unknown too, in the order of the rows.
const GONE: &str = r#"
POST /loads/L3/leave {"ref":"R0"}
200 {}
POST /stocktakes/R1
| station,load
| C,L9
| C,L3
| A,L1
200 {"moved":0,"unknown":["L9","L3"]}
"#;

/// Stocktakes with rows that are refused move nothing.
const BAD_ROWS: &str = r#"
POST /stocktakes/R1
| station,load
| A,L1
| C,L1
409 {"name":"CountTwice","refusal":80}
POST /stocktakes/R1
| station,load
| A,L1
| A,L3
409 {"name":"Full","refusal":34}
POST /stocktakes/R1
| station,load
| D,L1
404 {"name":"NoStation","refusal":22}
GET /loads/L1
200 {"job":null,"load":"L1","place":"station A"}
GET /loads/L3
200 {"job":null,"load":"L3","place":"station C"}
"#;

/// The load of C is picked up, and a stocktake finds it at C.
const ABOARD: &str = r#"
POST /jobs {"job":"J1","load":"L3","to":"B"}
200 {}
POST /orders {"order":"O1","job":"J1","manufacturer":"KIT","serialNumber":"0001","edges":2}
200 {"orderUpdateId":0}
state 0001 2 O1 0 N3 4 O1.0=FINISHED
200 {"accepted":true}
moves L3 vehicle KIT/0001
POST /stocktakes/R1
| station,load
| C,L3
409 {"name":"OnVehicle","refusal":81}
"#;

/// Scripts of stocktakes in which a load is found elsewhere.
pub const STOCKTAKES: &[&[&str]] = &[&[LAYOUT, READY, FOUND], &[LAYOUT, READY, A_TO_B, IN_JOB]];

/// Scripts of stocktakes with two loads.
pub const OF_TWO_LOADS: &[&[&str]] = &[
    &[LAYOUT, READY, TWO_LOADS, NOTHING_COUNTED],
    &[LAYOUT, READY, TWO_LOADS, MISSING],
    &[LAYOUT, READY, TWO_LOADS, UNKNOWN],
    &[LAYOUT, READY, TWO_LOADS, GONE],
    &[LAYOUT, READY, TWO_LOADS, BAD_ROWS],
    &[LAYOUT, READY, TWO_LOADS, ABOARD],
];
