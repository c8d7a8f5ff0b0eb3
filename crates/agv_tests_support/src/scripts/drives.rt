//! Scripts of drives: orders without actions, which lead a vehicle to a node; and what is told of a job.

use crate::scripts::starts::{A_TO_B, BOTH_EDGES, LAYOUT, READY, READY_AT_N3};

/// KIT/0001 drives to N3, with the first of two edges released.
const BEGUN: &str = r#"
POST /drives {"order":"G1","manufacturer":"KIT","serialNumber":"0001","to":"N3","edges":1}
200 {"orderUpdateId":0}
GET /uagv/v2/KIT/0001/order
200 {"edges":[{"actions":[],"edgeId":"E12","endNodeId":"N2","released":true,"sequenceId":1,"startNodeId":"N1"},{"actions":[],"edgeId":"E23","endNodeId":"N3","released":false,"sequenceId":3,"startNodeId":"N2"}],"headerId":1,"manufacturer":"KIT","nodes":[{"actions":[],"nodeId":"N1","released":true,"sequenceId":0},{"actions":[],"nodeId":"N2","released":true,"sequenceId":2},{"actions":[],"nodeId":"N3","released":false,"sequenceId":4}],"orderId":"G1","orderUpdateId":0,"serialNumber":"0001","timestamp":"2023-11-14T22:13:20.00Z","version":"2.0.0"}
GET /report/holds
200
| node N1 KIT/0001
| node N2 KIT/0001
| edge E12 KIT/0001
| held 3 of 7
rows
| meta 1 2
| node N1
| node N2
| node N3
| edge E12 N1 N2
| edge E21 N2 N1
| edge E23 N2 N3
| edge E32 N3 N2
| station A N1 1
| station B N3 1
| station C N3 2
| vehicle KIT 0001 N1 NULL NULL 1 NULL 1 0 1 1700000000000 0 0 NULL
| leg G1 0 E12
| leg G1 1 E23
| hold edge E12 KIT 0001
| hold node N1 KIT 0001
| hold node N2 KIT 0001
| used order G1
| capacity KIT 0001 1
| journey G1 KIT 0001 N1 0 1 0 NULL 0
"#;

/// The same name is used, and the vehicle has an order; before it confirms the first message no more is released.
const ONCE: &str = r#"
POST /drives {"order":"G1","manufacturer":"KIT","serialNumber":"0001","to":"N3","edges":1}
409 {"name":"Exists","refusal":30}
POST /drives {"order":"G2","manufacturer":"KIT","serialNumber":"0001","to":"N2","edges":1}
409 {"name":"Busy","refusal":38}
POST /vehicles/KIT/0001/advance {"order":"G1","orderUpdateId":1,"edges":1}
409 {"name":"NotConfirmed","refusal":43}
"#;

/// The track is freed behind the vehicle as it drives, and the order ends at its last node.
const DRIVEN: &str = r#"
state 0001 2 G1 0 N1 0
200 {"accepted":true}
GET /report/holds
200
| node N1 KIT/0001
| node N2 KIT/0001
| edge E12 KIT/0001
| held 3 of 7
POST /vehicles/KIT/0001/advance {"order":"G1","orderUpdateId":1,"edges":2}
409 {"name":"Beyond","refusal":45}
POST /vehicles/KIT/0001/advance {"order":"G1","orderUpdateId":1,"edges":1}
200 {"orderUpdateId":1}
GET /uagv/v2/KIT/0001/order
200 {"edges":[{"actions":[],"edgeId":"E23","endNodeId":"N3","released":true,"sequenceId":3,"startNodeId":"N2"}],"headerId":2,"manufacturer":"KIT","nodes":[{"actions":[],"nodeId":"N2","released":true,"sequenceId":2},{"actions":[],"nodeId":"N3","released":true,"sequenceId":4}],"orderId":"G1","orderUpdateId":1,"serialNumber":"0001","timestamp":"2023-11-14T22:13:20.00Z","version":"2.0.0"}
state 0001 3 G1 1 N2 2
200 {"accepted":true}
GET /report/holds
200
| node N2 KIT/0001
| node N3 KIT/0001
| edge E23 KIT/0001
| held 3 of 7
GET /vehicles/KIT/0001
200 {"astray":false,"capacity":1,"confirmed":1,"headerId":3,"manufacturer":"KIT","node":"N2","order":"G1","paused":false,"pending":null,"ready":true,"sent":1,"serialNumber":"0001"}
state 0001 4 G1 1 N3 4
200 {"accepted":true}
GET /uagv/v2/KIT/0001/order
204
GET /report/holds
200
| node N3 KIT/0001
| held 1 of 7
GET /vehicles/KIT/0001
200 {"astray":false,"capacity":1,"confirmed":null,"headerId":4,"manufacturer":"KIT","node":"N3","order":null,"paused":false,"pending":null,"ready":true,"sent":null,"serialNumber":"0001"}
POST /drives {"order":"G1","manufacturer":"KIT","serialNumber":"0001","to":"N1","edges":0}
409 {"name":"Exists","refusal":30}
"#;

/// The refusals of a drive, one behind the other.
const REFUSED: &str = r#"
POST /drives {"order":"G1","manufacturer":"KIT","serialNumber":"0003","to":"N9","edges":9}
404 {"name":"NoVehicle","refusal":20}
POST /drives {"order":"G1","manufacturer":"KIT","serialNumber":"0001","to":"N9","edges":9}
404 {"name":"NoNode","refusal":21}
POST /drives {"order":"G1","manufacturer":"KIT","serialNumber":"0001","to":"N1","edges":0}
409 {"name":"NoWalk","refusal":46}
POST /drives {"order":"G1","manufacturer":"KIT","serialNumber":"0001","to":"N3","edges":3}
409 {"name":"Beyond","refusal":45}
POST /drives {"order":"G1","manufacturer":"KIT","serialNumber":"0001","to":"N3","edges":2}
409 {"by":"KIT/0002","name":"Held","refusal":33,"what":"node N3"}
POST /vehicles/KIT/0001/pause
200 {"actionId":"instant-1"}
POST /drives {"order":"G1","manufacturer":"KIT","serialNumber":"0001","to":"N3","edges":0}
200 {"orderUpdateId":0}
POST /vehicles/KIT/0001/place {"ref":"R1","node":"N1"}
200 {}
GET /report/holds
200
| node N1 KIT/0001
| node N3 KIT/0002
| held 2 of 7
state 0001 2 G9 0 N1 0
200 {"accepted":true}
POST /drives {"order":"G9","manufacturer":"KIT","serialNumber":"0001","to":"N2","edges":1}
409 {"name":"OrderKnown","refusal":52}
"#;

/// A cancelled drive leaves the vehicle astray where it has not reached the end of what was released.
const CANCELLED: &str = r#"
POST /drives {"order":"G1","manufacturer":"KIT","serialNumber":"0001","to":"N2","edges":1}
200 {"orderUpdateId":0}
POST /vehicles/KIT/0001/cancel
200 {"actionId":"instant-1"}
state 0001 2 G1 0 N1 0 instant-1=FINISHED
200 {"accepted":true}
GET /report/holds
200
| node N1 KIT/0001
| node N2 KIT/0001
| edge E12 KIT/0001
| held 3 of 7
POST /drives {"order":"G2","manufacturer":"KIT","serialNumber":"0001","to":"N3","edges":0}
409 {"name":"Astray","refusal":39}
POST /vehicles/KIT/0001/place {"ref":"R1","node":"N2"}
200 {}
POST /drives {"order":"G2","manufacturer":"KIT","serialNumber":"0001","to":"N3","edges":0}
200 {"orderUpdateId":0}
"#;

/// What is told of a job while it waits, while it rides, and after its order was cancelled with the load aboard.
const TOLD: &str = r#"
GET /jobs/J1/phase
200 {"from":"A","job":"J1","load":"L1","order":null,"phase":"waiting","to":"B","vehicle":null}
GET /jobs/J2/phase
404 {"name":"NoJob","refusal":24}
"#;

/// The job rides, its load is picked, and the order is cancelled.
const ABOARD: &str = r#"
GET /jobs/J1/phase
200 {"from":"A","job":"J1","load":"L1","order":"O1","phase":"riding","to":"B","vehicle":"KIT/0001"}
state 0001 2 O1 0 N1 0 O1.0=FINISHED
200 {"accepted":true}
moves L1 vehicle KIT/0001
POST /vehicles/KIT/0001/cancel
200 {"actionId":"instant-1"}
state 0001 3 O1 0 N3 4 O1.0=FINISHED O1.1=FAILED instant-1=FINISHED
200 {"accepted":true}
GET /jobs/J1/phase
200 {"from":"A","job":"J1","load":"L1","order":null,"phase":"stopped","to":"B","vehicle":null}
"#;

/// The vehicle drives with the load aboard, which stays there.
const WITH_LOAD: &str = r#"
POST /drives {"order":"G1","manufacturer":"KIT","serialNumber":"0001","to":"N1","edges":2}
200 {"orderUpdateId":0}
GET /loads/L1
200 {"job":null,"load":"L1","place":"vehicle KIT/0001"}
state 0001 4 G1 0 N1 4
200 {"accepted":true}
GET /loads/L1
200 {"job":null,"load":"L1","place":"vehicle KIT/0001"}
GET /report/holds
200
| node N1 KIT/0001
| held 1 of 7
row job J1 L1 A B stopped
"#;

/// Drives of vehicles for one load.
pub const DRIVES: &[&[&str]] = &[
    &[LAYOUT, READY, BEGUN, ONCE, DRIVEN],
    &[LAYOUT, READY, READY_AT_N3, REFUSED],
    &[LAYOUT, READY, CANCELLED],
    &[LAYOUT, READY, A_TO_B, TOLD, BOTH_EDGES, ABOARD, WITH_LOAD],
];
