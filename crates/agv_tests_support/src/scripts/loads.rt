//! Scripts in which loads are registered, are found elsewhere, and leave.

use crate::scripts::starts::{A_TO_B, LAYOUT, READY};

/// A load comes to the checking place, without a layout.
const TWICE: &str = r#"
POST /loads {"load":"L1"}
200 {}
GET /loads/L1
200 {"job":null,"load":"L1","place":"checking"}
POST /loads {"load":"L1"}
409 {"name":"Exists","refusal":30}
GET /loads/L1
200 {"job":null,"load":"L1","place":"checking"}
GET /export/layout
200
| kind,id,from,to
GET /export/vehicles
200
| manufacturer,serialNumber,node,capacity,ready,paused,astray,headerId,pending,order,sent,confirmed,released,edges,seen,restEdge,restNode
rows
| meta 1 2
| load L1 checking NULL NULL NULL
"#;

/// A has room for one load.
const NO_ROOM: &str = r#"
POST /loads {"load":"L1","station":"A"}
200 {}
POST /loads {"load":"L2","station":"A"}
409 {"name":"Full","refusal":34}
GET /loads/L2
404 {"name":"NoLoad","refusal":23}
GET /report/stock
200
| station A at N1: 1 of 1, reserved 0
|   L1
| station B at N3: 0 of 1, reserved 0
| station C at N3: 0 of 2, reserved 0
| checking: 0
| vehicle KIT/0001: 0
| left: 0
GET /export/loads
200
| load,place,at
| L1,station,A
GET /uagv/v2/KIT/0001/order
204
GET /vehicles/KIT/0001
200 {"astray":false,"capacity":1,"confirmed":null,"headerId":1,"manufacturer":"KIT","node":"N1","order":null,"paused":false,"pending":null,"ready":true,"sent":null,"serialNumber":"0001"}
"#;

/// A load leaves after its job is deleted.
const LEAVES: &str = r#"
POST /loads/L1/leave {"ref":"R1"}
409 {"name":"InJob","refusal":35}
row job J1 L1 A B waiting
GET /export/jobs
200
| job,load,from,to,phase,manufacturer,serialNumber,order
| J1,L1,A,B,waiting,,,
DELETE /jobs/J1
200 {}
DELETE /jobs/J1
409 {"name":"JobState","refusal":50}
row job J1 L1 A B stopped
POST /loads/L1/leave {"ref":"R1"}
200 {}
moves L1 left
GET /loads/L1
200 {"job":null,"load":"L1","place":"left"}
row load L1 left NULL NULL NULL
row used ref R1
"#;

/// Scripts of loads.
pub const LOADS: &[&[&str]] = &[
    &[TWICE],
    &[LAYOUT, READY, NO_ROOM],
    &[LAYOUT, READY, A_TO_B, LEAVES],
];
