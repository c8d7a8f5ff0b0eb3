//! Scripts of a vehicle for two loads, and orders over two jobs.

use crate::scripts::starts::LAYOUT;

/// KIT/0003 is ready at N1, and carries two loads.
const READY_FOR_TWO: &str = r#"
POST /vehicles {"manufacturer":"KIT","serialNumber":"0003","node":"N1","capacity":2}
200 {}
state 0003 1 - 0 N1 0
200 {"accepted":true}
"#;

/// The second load is picked while the first one is on the vehicle.
const TWO_JOBS: &str = r#"
POST /loads {"load":"L1","station":"A"}
200 {}
POST /loads {"load":"L2","station":"C"}
200 {}
POST /jobs {"job":"J1","load":"L1","to":"C"}
200 {}
POST /jobs {"job":"J2","load":"L2","to":"B"}
200 {}
POST /orders {"order":"O5","stops":[{"action":"pick","job":"J1"},{"action":"pick","job":"J2"},{"action":"drop","job":"J1"},{"action":"drop","job":"J2"}],"manufacturer":"KIT","serialNumber":"0003","edges":2}
200 {"orderUpdateId":0}
row capacity KIT 0003 2
row journey O5 KIT 0003 N1 0 2 0 NULL 0
row act O5 0 J1 pick 0 WAITING
row act O5 1 J2 pick 2 WAITING
row act O5 2 J1 drop 2 WAITING
row act O5 3 J2 drop 2 WAITING
GET /uagv/v2/KIT/0003/order
200 {"edges":[{"actions":[],"edgeId":"E12","endNodeId":"N2","released":true,"sequenceId":1,"startNodeId":"N1"},{"actions":[],"edgeId":"E23","endNodeId":"N3","released":true,"sequenceId":3,"startNodeId":"N2"}],"headerId":1,"manufacturer":"KIT","nodes":[{"actions":[{"actionId":"O5.0","actionParameters":[{"key":"stationType","value":"station"},{"key":"stationName","value":"A"},{"key":"loadType","value":"load"},{"key":"loadId","value":"L1"}],"actionType":"pick","blockingType":"HARD"}],"nodeId":"N1","released":true,"sequenceId":0},{"actions":[],"nodeId":"N2","released":true,"sequenceId":2},{"actions":[{"actionId":"O5.1","actionParameters":[{"key":"stationType","value":"station"},{"key":"stationName","value":"C"},{"key":"loadType","value":"load"},{"key":"loadId","value":"L2"}],"actionType":"pick","blockingType":"HARD"},{"actionId":"O5.2","actionParameters":[{"key":"stationType","value":"station"},{"key":"stationName","value":"C"},{"key":"loadType","value":"load"},{"key":"loadId","value":"L1"}],"actionType":"drop","blockingType":"HARD"},{"actionId":"O5.3","actionParameters":[{"key":"stationType","value":"station"},{"key":"stationName","value":"B"},{"key":"loadType","value":"load"},{"key":"loadId","value":"L2"}],"actionType":"drop","blockingType":"HARD"}],"nodeId":"N3","released":true,"sequenceId":4}],"orderId":"O5","orderUpdateId":0,"serialNumber":"0003","timestamp":"2023-11-14T22:13:20.00Z","version":"2.0.0"}
row job J1 L1 A C riding
row job J2 L2 C B riding
GET /report/holds
200
| node N1 KIT/0003
| node N2 KIT/0003
| node N3 KIT/0003
| edge E12 KIT/0003
| edge E23 KIT/0003
| held 5 of 7
"#;

/// Both loads are picked, and the first one is dropped: its job is done, and it can have another.
const FIRST_DROPPED: &str = r#"
state 0003 2 O5 0 N3 4 O5.0=FINISHED O5.1=FINISHED O5.2=FINISHED O5.3=RUNNING
200 {"accepted":true}
moves L1 vehicle KIT/0003, L2 vehicle KIT/0003, L1 station C
row journey O5 KIT 0003 N1 0 2 0 0 2
row act O5 0 J1 pick 0 FINISHED
row act O5 1 J2 pick 2 FINISHED
row act O5 2 J1 drop 2 FINISHED
row act O5 3 J2 drop 2 RUNNING
row job J1 L1 A C done
row job J2 L2 C B riding
GET /report/holds
200
| node N3 KIT/0003
| held 1 of 7
POST /jobs {"job":"J3","load":"L1","to":"A"}
200 {}
"#;

/// The second drop fails, and the order ends: the load stays on the vehicle.
const SECOND_FAILED: &str = r#"
state 0003 3 O5 0 N3 4 O5.3=FAILED
200 {"accepted":true}
GET /uagv/v2/KIT/0003/order
204
moves
rows
| meta 1 2
| node N1
| node N2
| node N3
| edge E12 N1 N2
| edge E21 N2 N1
| edge E23 N2 N3
| edge E32 N3 N2
| station A N1 1
| station B N3 1
| station C N3 2
| vehicle KIT 0003 N3 NULL NULL 3 O5 1 0 1 1700000000000 0 0 NULL
| load L1 station C NULL NULL
| load L2 vehicle NULL KIT 0003
| job J1 L1 A C done
| job J2 L2 C B stopped
| job J3 L1 C A waiting
| hold node N3 KIT 0003
| used order O5
| capacity KIT 0003 2
GET /loads/L2
200 {"job":null,"load":"L2","place":"vehicle KIT/0003"}
GET /loads/L1
200 {"job":"J3","load":"L1","place":"station C"}
GET /vehicles/KIT/0003
200 {"astray":false,"capacity":2,"confirmed":null,"headerId":3,"manufacturer":"KIT","node":"N3","order":null,"paused":false,"pending":null,"ready":true,"sent":null,"serialNumber":"0003"}
"#;

/// One load is on the vehicle, so the capacity is enough for one more job.
const MORE: &str = r#"
POST /loads {"load":"L5","station":"C"}
200 {}
POST /jobs {"job":"J4","load":"L5","to":"B"}
200 {}
POST /orders {"order":"O6","stops":[{"action":"pick","job":"J3"},{"action":"drop","job":"J3"},{"action":"pick","job":"J4"},{"action":"drop","job":"J4"}],"manufacturer":"KIT","serialNumber":"0003","edges":0}
409 {"name":"Loaded","refusal":40}
POST /orders {"order":"O6","stops":[{"action":"pick","job":"J3"},{"action":"drop","job":"J3"}],"manufacturer":"KIT","serialNumber":"0003","edges":0}
200 {"orderUpdateId":0}
row job J3 L1 C A riding
row job J4 L5 C B waiting
row journey O6 KIT 0003 N3 0 0 0 NULL 0
row act O6 0 J3 pick 0 WAITING
row act O6 1 J3 drop 2 WAITING
POST /orders {"order":"O7","stops":[{"action":"pick","job":"J4"},{"action":"pick","job":"J4"},{"action":"drop","job":"J4"}],"manufacturer":"KIT","serialNumber":"0003","edges":0}
409 {"name":"BadStops","refusal":53}
POST /orders {"order":"O7","stops":[],"manufacturer":"KIT","serialNumber":"0003","edges":0}
409 {"name":"BadStops","refusal":53}
"#;

/// A vehicle's capacity is from 1 to 4 loads.
const FOR_FOUR: &str = r#"
POST /vehicles {"manufacturer":"KIT","serialNumber":"0003","node":"N1","capacity":0}
409 {"name":"Limit","refusal":51}
POST /vehicles {"manufacturer":"KIT","serialNumber":"0003","node":"N1","capacity":5}
409 {"name":"Limit","refusal":51}
POST /vehicles {"manufacturer":"KIT","serialNumber":"0003","node":"N1","capacity":4}
200 {}
"#;

/// A vehicle's capacity is 1 where the largest one is 1.
const FOR_ONE: &str = r#"
POST /vehicles {"manufacturer":"KIT","serialNumber":"0003","node":"N1","capacity":2}
409 {"name":"Limit","refusal":51}
POST /vehicles {"manufacturer":"KIT","serialNumber":"0003","node":"N1","capacity":0}
409 {"name":"Limit","refusal":51}
POST /vehicles {"manufacturer":"KIT","serialNumber":"0003","node":"N1","capacity":1}
200 {}
"#;

/// Scripts for vehicles of up to four loads.
pub const TWO_LOADS: &[&[&str]] = &[
    &[
        LAYOUT,
        READY_FOR_TWO,
        TWO_JOBS,
        FIRST_DROPPED,
        SECOND_FAILED,
        MORE,
    ],
    &[LAYOUT, FOR_FOUR],
];

/// The script for vehicles of one load.
pub const ONE_LOAD: &[&[&str]] = &[&[LAYOUT, FOR_ONE]];
