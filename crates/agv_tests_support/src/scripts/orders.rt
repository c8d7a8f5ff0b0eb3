//! Scripts in which an order begins, more of it is released, and its way may be held by another vehicle.

use crate::scripts::starts::{A_TO_B, LAYOUT, ONE_EDGE, READY, READY_AT_N3};

/// The first edge of two is released.
const BEGUN: &str = r#"
GET /uagv/v2/KIT/0001/order
200 {"edges":[{"actions":[],"edgeId":"E12","endNodeId":"N2","released":true,"sequenceId":1,"startNodeId":"N1"},{"actions":[],"edgeId":"E23","endNodeId":"N3","released":false,"sequenceId":3,"startNodeId":"N2"}],"headerId":1,"manufacturer":"KIT","nodes":[{"actions":[{"actionId":"O1.0","actionParameters":[{"key":"stationType","value":"station"},{"key":"stationName","value":"A"},{"key":"loadType","value":"load"},{"key":"loadId","value":"L1"}],"actionType":"pick","blockingType":"HARD"}],"nodeId":"N1","released":true,"sequenceId":0},{"actions":[],"nodeId":"N2","released":true,"sequenceId":2},{"actions":[{"actionId":"O1.1","actionParameters":[{"key":"stationType","value":"station"},{"key":"stationName","value":"B"},{"key":"loadType","value":"load"},{"key":"loadId","value":"L1"}],"actionType":"drop","blockingType":"HARD"}],"nodeId":"N3","released":false,"sequenceId":4}],"orderId":"O1","orderUpdateId":0,"serialNumber":"0001","timestamp":"2023-11-14T22:13:20.00Z","version":"2.0.0"}
GET /report/holds
200
| node N1 KIT/0001
| node N2 KIT/0001
| edge E12 KIT/0001
| held 3 of 7
row job J1 L1 A B riding
GET /loads/L1
200 {"job":"J1","load":"L1","place":"station A"}
rows
| meta 1 2
| node N1
| node N2
| node N3
| edge E12 N1 N2
| edge E21 N2 N1
| edge E23 N2 N3
| edge E32 N3 N2
| station A N1 1
| station B N3 1
| station C N3 2
| vehicle KIT 0001 N1 NULL NULL 1 NULL 1 0 1 1700000000000 0 0 NULL
| leg O1 0 E12
| leg O1 1 E23
| load L1 station A NULL NULL
| job J1 L1 A B riding
| hold edge E12 KIT 0001
| hold node N1 KIT 0001
| hold node N2 KIT 0001
| used order O1
| capacity KIT 0001 1
| journey O1 KIT 0001 N1 0 1 0 NULL 0
| act O1 0 J1 pick 0 WAITING
| act O1 1 J1 drop 2 WAITING
"#;

/// The second edge is released once the first message is confirmed.
const RELEASED: &str = r#"
POST /vehicles/KIT/0001/advance {"order":"O1","orderUpdateId":1,"edges":1}
409 {"name":"NotConfirmed","refusal":43}
state 0001 2 O1 0 N1 0
200 {"accepted":true}
GET /vehicles/KIT/0001
200 {"astray":false,"capacity":1,"confirmed":0,"headerId":2,"manufacturer":"KIT","node":"N1","order":"O1","paused":false,"pending":null,"ready":true,"sent":0,"serialNumber":"0001"}
row vehicle KIT 0001 N1 NULL NULL 2 O1 1 0 1 1700000000000 0 0 NULL
POST /vehicles/KIT/0001/advance {"order":"O1","orderUpdateId":1,"edges":1}
200 {"orderUpdateId":1}
GET /uagv/v2/KIT/0001/order
200 {"edges":[{"actions":[],"edgeId":"E23","endNodeId":"N3","released":true,"sequenceId":3,"startNodeId":"N2"}],"headerId":2,"manufacturer":"KIT","nodes":[{"actions":[],"nodeId":"N2","released":true,"sequenceId":2},{"actions":[{"actionId":"O1.1","actionParameters":[{"key":"stationType","value":"station"},{"key":"stationName","value":"B"},{"key":"loadType","value":"load"},{"key":"loadId","value":"L1"}],"actionType":"drop","blockingType":"HARD"}],"nodeId":"N3","released":true,"sequenceId":4}],"orderId":"O1","orderUpdateId":1,"serialNumber":"0001","timestamp":"2023-11-14T22:13:20.00Z","version":"2.0.0"}
GET /report/holds
200
| node N1 KIT/0001
| node N2 KIT/0001
| node N3 KIT/0001
| edge E12 KIT/0001
| edge E23 KIT/0001
| held 5 of 7
POST /vehicles/KIT/0001/advance {"order":"O1","orderUpdateId":1,"edges":1}
409 {"name":"WrongUpdate","refusal":44,"sent":1}
"#;

/// The load is picked.
const ABOARD: &str = r#"
state 0001 2 O1 0 N1 0 O1.0=FINISHED
200 {"accepted":true}
moves L1 vehicle KIT/0001
GET /loads/L1
200 {"job":"J1","load":"L1","place":"vehicle KIT/0001"}
"#;

/// KIT/0002 needs the node that KIT/0001 holds.
const ACROSS: &str = r#"
POST /loads {"load":"L3","station":"C"}
200 {}
POST /jobs {"job":"J2","load":"L3","to":"A"}
200 {}
POST /orders {"order":"O2","job":"J2","manufacturer":"KIT","serialNumber":"0002","edges":0}
200 {"orderUpdateId":0}
state 0002 2 O2 0 N3 0
200 {"accepted":true}
POST /vehicles/KIT/0002/advance {"order":"O2","orderUpdateId":1,"edges":1}
409 {"by":"KIT/0001","name":"Held","refusal":33,"what":"node N2"}
GET /report/holds
200
| node N1 KIT/0001
| node N2 KIT/0001
| node N3 KIT/0002
| edge E12 KIT/0001
| held 4 of 7
row job J2 L3 C A riding
"#;

/// The way goes on to B, where the load is dropped.
const CARRIED: &str = r#"
POST /vehicles/KIT/0001/advance {"order":"O1","orderUpdateId":1,"edges":1}
200 {"orderUpdateId":1}
GET /uagv/v2/KIT/0001/order
200 {"edges":[{"actions":[],"edgeId":"E23","endNodeId":"N3","released":true,"sequenceId":3,"startNodeId":"N2"}],"headerId":2,"manufacturer":"KIT","nodes":[{"actions":[],"nodeId":"N2","released":true,"sequenceId":2},{"actions":[{"actionId":"O1.1","actionParameters":[{"key":"stationType","value":"station"},{"key":"stationName","value":"B"},{"key":"loadType","value":"load"},{"key":"loadId","value":"L1"}],"actionType":"drop","blockingType":"HARD"}],"nodeId":"N3","released":true,"sequenceId":4}],"orderId":"O1","orderUpdateId":1,"serialNumber":"0001","timestamp":"2023-11-14T22:13:20.00Z","version":"2.0.0"}
state 0001 3 O1 1 N2 2 O1.0=FINISHED
200 {"accepted":true}
GET /report/holds
200
| node N2 KIT/0001
| node N3 KIT/0001
| edge E23 KIT/0001
| held 3 of 7
state 0001 4 O1 1 N3 4 O1.0=FINISHED O1.1=FINISHED
200 {"accepted":true}
moves L1 station B
GET /loads/L1
200 {"job":null,"load":"L1","place":"station B"}
GET /report/stock
200
| station A at N1: 0 of 1, reserved 0
| station B at N3: 1 of 1, reserved 0
|   L1
| station C at N3: 0 of 2, reserved 0
| checking: 0
| vehicle KIT/0001: 0
| left: 0
GET /uagv/v2/KIT/0001/order
204
row job J1 L1 A B done
GET /report/holds
200
| node N3 KIT/0001
| held 1 of 7
"#;

/// A message has the moment of the call that made it.
const LATER: &str = r#"
at 1700000001239
state 0001 2 O1 0 N1 0
200 {"accepted":true}
POST /vehicles/KIT/0001/advance {"order":"O1","orderUpdateId":1,"edges":1}
200 {"orderUpdateId":1}
GET /uagv/v2/KIT/0001/order
200 {"edges":[{"actions":[],"edgeId":"E23","endNodeId":"N3","released":true,"sequenceId":3,"startNodeId":"N2"}],"headerId":2,"manufacturer":"KIT","nodes":[{"actions":[],"nodeId":"N2","released":true,"sequenceId":2},{"actions":[{"actionId":"O1.1","actionParameters":[{"key":"stationType","value":"station"},{"key":"stationName","value":"B"},{"key":"loadType","value":"load"},{"key":"loadId","value":"L1"}],"actionType":"drop","blockingType":"HARD"}],"nodeId":"N3","released":true,"sequenceId":4}],"orderId":"O1","orderUpdateId":1,"serialNumber":"0001","timestamp":"2023-11-14T22:13:21.23Z","version":"2.0.0"}
row vehicle KIT 0001 N1 NULL NULL 2 O1 1 0 2 1700000001239 0 0 NULL
at 1700000002000
POST /vehicles/KIT/0001/pause
200 {"actionId":"instant-1"}
GET /uagv/v2/KIT/0001/order
200 {"edges":[{"actions":[],"edgeId":"E23","endNodeId":"N3","released":true,"sequenceId":3,"startNodeId":"N2"}],"headerId":2,"manufacturer":"KIT","nodes":[{"actions":[],"nodeId":"N2","released":true,"sequenceId":2},{"actions":[{"actionId":"O1.1","actionParameters":[{"key":"stationType","value":"station"},{"key":"stationName","value":"B"},{"key":"loadType","value":"load"},{"key":"loadId","value":"L1"}],"actionType":"drop","blockingType":"HARD"}],"nodeId":"N3","released":true,"sequenceId":4}],"orderId":"O1","orderUpdateId":1,"serialNumber":"0001","timestamp":"2023-11-14T22:13:21.23Z","version":"2.0.0"}
row vehicle KIT 0001 N1 NULL NULL 2 O1 1 0 2 1700000001239 1 1700000002000 startPause
"#;

/// The load is picked at A, on its way to B; another one came to the checking place, and a third one has left. The
/// vehicle is to pause.
pub const PICKED: &str = r#"
POST /loads {"load":"L1","station":"A"}
200 {}
POST /loads {"load":"L2"}
200 {}
POST /loads {"load":"L3","station":"C"}
200 {}
POST /loads/L3/leave {"ref":"R1"}
200 {}
POST /jobs {"job":"J1","load":"L1","to":"B"}
200 {}
POST /orders {"order":"O1","job":"J1","manufacturer":"KIT","serialNumber":"0001","edges":1}
200 {"orderUpdateId":0}
state 0001 2 O1 0 N1 0 O1.0=FINISHED
200 {"accepted":true}
POST /vehicles/KIT/0001/pause
200 {"actionId":"instant-1"}
rows
| meta 1 2
| node N1
| node N2
| node N3
| edge E12 N1 N2
| edge E21 N2 N1
| edge E23 N2 N3
| edge E32 N3 N2
| station A N1 1
| station B N3 1
| station C N3 2
| vehicle KIT 0001 N1 NULL NULL 2 O1 1 0 1 1700000000000 1 1700000000000 startPause
| leg O1 0 E12
| leg O1 1 E23
| load L1 vehicle NULL KIT 0001
| load L2 checking NULL NULL NULL
| load L3 left NULL NULL NULL
| job J1 L1 A B riding
| hold edge E12 KIT 0001
| hold node N1 KIT 0001
| hold node N2 KIT 0001
| used order O1
| used ref R1
| capacity KIT 0001 1
| journey O1 KIT 0001 N1 0 1 0 0 0
| act O1 0 J1 pick 0 FINISHED
| act O1 1 J1 drop 2 WAITING
"#;

/// Scripts of orders in one message.
pub const ORDERS: &[&[&str]] = &[
    &[LAYOUT, READY, PICKED],
    &[LAYOUT, READY, A_TO_B, ONE_EDGE, BEGUN],
    &[LAYOUT, READY, A_TO_B, ONE_EDGE, RELEASED],
];

/// Scripts of orders in two messages, and of a way that is held.
pub const UPDATES: &[&[&str]] = &[
    &[LAYOUT, READY, A_TO_B, ONE_EDGE, LATER],
    &[LAYOUT, READY, READY_AT_N3, A_TO_B, ONE_EDGE, ABOARD, ACROSS],
    &[LAYOUT, READY, A_TO_B, ONE_EDGE, BEGUN, ABOARD, CARRIED],
];
