//! Scripts of what a vehicle holds on its way, and of a way of one node.

use crate::scripts::starts::{LAYOUT, READY_AT_N3};

/// From N3 to the load at N1 and back, over all nodes and edges: a node that is passed twice is freed at its last pass.
const THERE_AND_BACK: &str = r#"
POST /loads {"load":"L1","station":"A"}
200 {}
POST /jobs {"job":"J1","load":"L1","to":"C"}
200 {}
POST /orders {"order":"O3","job":"J1","manufacturer":"KIT","serialNumber":"0002","edges":4}
200 {"orderUpdateId":0}
GET /report/holds
200
| node N1 KIT/0002
| node N2 KIT/0002
| node N3 KIT/0002
| edge E12 KIT/0002
| edge E21 KIT/0002
| edge E23 KIT/0002
| edge E32 KIT/0002
| held 7 of 7
state 0002 2 O3 0 N2 2
200 {"accepted":true}
GET /report/holds
200
| node N1 KIT/0002
| node N2 KIT/0002
| node N3 KIT/0002
| edge E12 KIT/0002
| edge E21 KIT/0002
| edge E23 KIT/0002
| held 6 of 7
state 0002 3 O3 0 N1 4
200 {"accepted":true}
GET /report/holds
200
| node N1 KIT/0002
| node N2 KIT/0002
| node N3 KIT/0002
| edge E12 KIT/0002
| edge E23 KIT/0002
| held 5 of 7
GET /vehicles/KIT/0002
200 {"astray":false,"capacity":1,"confirmed":0,"headerId":3,"manufacturer":"KIT","node":"N1","order":"O3","paused":false,"pending":null,"ready":true,"sent":0,"serialNumber":"0002"}
row vehicle KIT 0002 N1 NULL NULL 3 O3 1 0 1 1700000000000 0 0 NULL
"#;

/// From one station of N3 to the other.
const ON_THE_SPOT: &str = r#"
POST /loads {"load":"L4","station":"B"}
200 {}
POST /jobs {"job":"J1","load":"L4","to":"C"}
200 {}
POST /orders {"order":"O4","job":"J1","manufacturer":"KIT","serialNumber":"0002","edges":0}
200 {"orderUpdateId":0}
GET /uagv/v2/KIT/0002/order
200 {"edges":[],"headerId":1,"manufacturer":"KIT","nodes":[{"actions":[{"actionId":"O4.0","actionParameters":[{"key":"stationType","value":"station"},{"key":"stationName","value":"B"},{"key":"loadType","value":"load"},{"key":"loadId","value":"L4"}],"actionType":"pick","blockingType":"HARD"},{"actionId":"O4.1","actionParameters":[{"key":"stationType","value":"station"},{"key":"stationName","value":"C"},{"key":"loadType","value":"load"},{"key":"loadId","value":"L4"}],"actionType":"drop","blockingType":"HARD"}],"nodeId":"N3","released":true,"sequenceId":0}],"orderId":"O4","orderUpdateId":0,"serialNumber":"0002","timestamp":"2023-11-14T22:13:20.00Z","version":"2.0.0"}
state 0002 2 O4 0 N3 0 O4.0=FINISHED O4.1=FINISHED
200 {"accepted":true}
moves L4 vehicle KIT/0002, L4 station C
GET /loads/L4
200 {"job":null,"load":"L4","place":"station C"}
row job J1 L4 B C done
GET /uagv/v2/KIT/0002/order
204
GET /report/holds
200
| node N3 KIT/0002
| held 1 of 7
"#;

/// Scripts of ways.
pub const WAYS: &[&[&str]] = &[
    &[LAYOUT, READY_AT_N3, THERE_AND_BACK],
    &[LAYOUT, READY_AT_N3, ON_THE_SPOT],
];
