//! Scripts in which trips are carried out, and states are posted again.

use crate::scripts::starts::{A_TO_B, BOTH_EDGES, LAYOUT, READY};

/// One state says that the load is picked and dropped.
const DELIVERED: &str = r#"
state 0001 2 O1 0 N3 4 O1.0=FINISHED O1.1=FINISHED
200 {"accepted":true}
moves L1 vehicle KIT/0001, L1 station B
GET /loads/L1
200 {"job":null,"load":"L1","place":"station B"}
row job J1 L1 A B done
GET /report/holds
200
| node N3 KIT/0001
| held 1 of 7
GET /uagv/v2/KIT/0001/order
204
GET /vehicles/KIT/0001
200 {"astray":false,"capacity":1,"confirmed":null,"headerId":2,"manufacturer":"KIT","node":"N3","order":null,"paused":false,"pending":null,"ready":true,"sent":null,"serialNumber":"0001"}
row vehicle KIT 0001 N3 NULL NULL 2 O1 1 0 1 1700000000000 0 0 NULL
"#;

/// The same state is old; after a resync it is accepted, and moves nothing.
const AGAIN: &str = r#"
state 0001 2 O1 0 N3 4 O1.0=FINISHED O1.1=FINISHED
200 {"accepted":false}
POST /vehicles/KIT/0001/resync
200 {}
GET /vehicles/KIT/0001
200 {"astray":false,"capacity":1,"confirmed":null,"headerId":null,"manufacturer":"KIT","node":"N3","order":null,"paused":false,"pending":null,"ready":true,"sent":null,"serialNumber":"0001"}
state 0001 2 O1 0 N3 4 O1.0=FINISHED O1.1=FINISHED
200 {"accepted":true}
moves
GET /loads/L1
200 {"job":null,"load":"L1","place":"station B"}
GET /report/holds
200
| node N3 KIT/0001
| held 1 of 7
row vehicle KIT 0001 N3 NULL NULL 2 O1 1 0 1 1700000000000 0 0 NULL
"#;

/// After a resync the vehicle's first state is refused, since it names a node that the vehicle has left.
const BACKWARDS: &str = r#"
POST /vehicles/KIT/0001/resync
200 {}
state 0001 1 - 0 N1 0
409 {"name":"NotThere","refusal":71}
moves
GET /report/holds
200
| node N3 KIT/0001
| held 1 of 7
row job J1 L1 A B done
GET /loads/L1
200 {"job":null,"load":"L1","place":"station B"}
"#;

/// A state is refused that reports a drop of a load that was not picked.
const NOT_PICKED: &str = r#"
state 0001 2 O1 0 N1 0 O1.0=FAILED
200 {"accepted":true}
state 0001 3 O1 0 N3 4 O1.0=FAILED O1.1=FINISHED
409 {"name":"DropFirst","refusal":69}
GET /loads/L1
200 {"job":"J1","load":"L1","place":"station A"}
row job J1 L1 A B riding
"#;

/// States are refused for a number, a position and the vehicle in them; another one is accepted.
const PREFIX: &str = r#"
POST /uagv/v2/KIT/0001/state {"headerId":2,"timestamp":"2023-11-14T22:13:19.50Z","version":"2.0.0","manufacturer":"KIT","serialNumber":"0001","orderId":"","orderUpdateId":0,"lastNodeId":"N1","lastNodeSequenceId":0,"driving":false,"nodeStates":[],"edgeStates":[],"actionStates":[],"agvPosition":{},"batteryState":{"batteryCharge":80.5,"charging":false},"operatingMode":"AUTOMATIC","errors":[],"safetyState":{"eStop":"NONE","fieldViolation":false}}
422 {"name":"Fraction","refusal":8}
POST /uagv/v2/KIT/0001/state {"headerId":2,"timestamp":"2023-11-14T22:13:19.50Z","version":"2.0.0","manufacturer":"KIT","serialNumber":"0001","orderId":"","orderUpdateId":0,"lastNodeId":"N1","lastNodeSequenceId":0,"driving":false,"nodeStates":[],"edgeStates":[],"actionStates":[],"agvPosition":{},"batteryState":{"batteryCharge":80,"charging":false},"operatingMode":"AUTOMATIC","errors":[],"safetyState":{"eStop":"NONE","fieldViolation":false}}
422 {"name":"Position","refusal":9}
POST /uagv/v2/KIT/0002/state {"headerId":2,"timestamp":"2023-11-14T22:13:19.50Z","version":"2.0.0","manufacturer":"KIT","serialNumber":"0001","orderId":"","orderUpdateId":0,"lastNodeId":"N1","lastNodeSequenceId":0,"nodeStates":[],"edgeStates":[],"actionStates":[],"operatingMode":"AUTOMATIC","errors":[],"safetyState":{"eStop":"NONE"}}
422 {"name":"WrongVehicle","refusal":14}
state 0001 2 - 0 N1 0
200 {"accepted":true}
"#;

/// Scripts of trips.
pub const TRIPS: &[&[&str]] = &[
    &[
        LAYOUT, READY, A_TO_B, BOTH_EDGES, DELIVERED, AGAIN, BACKWARDS,
    ],
    &[LAYOUT, READY, A_TO_B, BOTH_EDGES, NOT_PICKED],
    &[LAYOUT, READY, PREFIX],
];

/// The parts in which an order is carried out with one state.
pub const CARRIED_OUT: &[&str] = &[LAYOUT, READY, A_TO_B, BOTH_EDGES, DELIVERED];
