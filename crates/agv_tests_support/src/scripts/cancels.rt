//! Scripts in which orders are cancelled, and people correct what is left.

use crate::scripts::starts::{A_TO_B, BOTH_EDGES, LAYOUT, ONE_EDGE, READY};

/// The order of KIT/0001 is being cancelled.
pub const CANCELLED: &str = r#"
GET /uagv/v2/KIT/0001/instantActions
204
POST /vehicles/KIT/0001/cancel
200 {"actionId":"instant-1"}
GET /uagv/v2/KIT/0001/instantActions
200 {"actions":[{"actionId":"instant-1","actionParameters":[],"actionType":"cancelOrder","blockingType":"HARD"}],"headerId":1,"manufacturer":"KIT","serialNumber":"0001","timestamp":"2023-11-14T22:13:20.00Z","version":"2.0.0"}
"#;

/// The vehicle stops before it has picked its load, and may be on the way to N2: it holds the edge
/// and the node.
pub const STOPPED: &str = r#"
state 0001 2 O1 0 N1 0 instant-1=FINISHED
200 {"accepted":true}
GET /uagv/v2/KIT/0001/instantActions
204
GET /report/holds
200
| node N1 KIT/0001
| node N2 KIT/0001
| edge E12 KIT/0001
| held 3 of 7
row job J1 L1 A B stopped
GET /loads/L1
200 {"job":null,"load":"L1","place":"station A"}
GET /vehicles/KIT/0001
200 {"astray":true,"capacity":1,"confirmed":null,"headerId":2,"manufacturer":"KIT","node":"N1","order":null,"paused":false,"pending":null,"ready":true,"sent":null,"serialNumber":"0001"}
row vehicle KIT 0001 N1 E12 N2 2 O1 1 0 1 1700000000000 1 1700000000000 NULL
"#;

/// The vehicle gets no order until it is placed.
pub const PLACED: &str = r#"
POST /jobs {"job":"J2","load":"L1","to":"B"}
200 {}
POST /orders {"order":"O2","job":"J2","manufacturer":"KIT","serialNumber":"0001","edges":1}
409 {"name":"Astray","refusal":39}
POST /vehicles/KIT/0001/place {"ref":"R1","node":"N2"}
200 {}
GET /report/holds
200
| node N2 KIT/0001
| held 1 of 7
GET /vehicles/KIT/0001
200 {"astray":false,"capacity":1,"confirmed":null,"headerId":2,"manufacturer":"KIT","node":"N2","order":null,"paused":false,"pending":null,"ready":true,"sent":null,"serialNumber":"0001"}
row vehicle KIT 0001 N2 NULL NULL 2 O1 1 0 1 1700000000000 1 1700000000000 NULL
row job J2 L1 A B waiting
"#;

/// The cancellation is refused while the vehicle picks its load; it stops after that, with the load on it.
const STOPPED_ABOARD: &str = r#"
state 0001 2 O1 0 N1 0 O1.0=RUNNING instant-1=FINISHED
409 {"name":"CancelEarly","refusal":70}
state 0001 3 O1 0 N1 0 O1.0=FINISHED instant-1=FINISHED
200 {"accepted":true}
moves L1 vehicle KIT/0001
GET /loads/L1
200 {"job":null,"load":"L1","place":"vehicle KIT/0001"}
row job J1 L1 A B stopped
GET /report/holds
200
| node N1 KIT/0001
| node N2 KIT/0001
| edge E12 KIT/0001
| held 3 of 7
GET /vehicles/KIT/0001
200 {"astray":true,"capacity":1,"confirmed":null,"headerId":3,"manufacturer":"KIT","node":"N1","order":null,"paused":false,"pending":null,"ready":true,"sent":null,"serialNumber":"0001"}
row vehicle KIT 0001 N1 E12 N2 3 O1 1 0 1 1700000000000 1 1700000000000 NULL
"#;

/// The state is posted again, the vehicle is placed, and its load is found at B.
const SET_RIGHT: &str = r#"
state 0001 3 O1 0 N1 0 O1.0=FINISHED instant-1=FINISHED
200 {"accepted":false}
POST /vehicles/KIT/0001/place {"ref":"R1","node":"N1"}
200 {}
moves
POST /loads/L1/correct {"ref":"R1","station":"B"}
409 {"name":"RefUsed","refusal":49}
POST /loads/L1/correct {"ref":"R2","station":"B"}
200 {}
moves L1 station B
GET /loads/L1
200 {"job":null,"load":"L1","place":"station B"}
GET /report/holds
200
| node N1 KIT/0001
| held 1 of 7
"#;

/// A state reports an action that was not sent yet; it is accepted again once the action was sent.
const CANCELLED_BY_OLD: &str = r#"
state 0001 2 O1 0 N1 0 instant-1=FINISHED
200 {"accepted":true}
row job J1 L1 A B riding
POST /vehicles/KIT/0001/resync
200 {}
POST /vehicles/KIT/0001/cancel
200 {"actionId":"instant-1"}
state 0001 2 O1 0 N1 0 instant-1=FINISHED
200 {"accepted":true}
moves
row job J1 L1 A B stopped
GET /report/holds
200
| node N1 KIT/0001
| node N2 KIT/0001
| edge E12 KIT/0001
| held 3 of 7
"#;

/// Scripts of cancelled orders.
pub const CANCELS: &[&[&str]] = &[
    &[LAYOUT, READY, A_TO_B, ONE_EDGE, CANCELLED, STOPPED, PLACED],
    &[
        LAYOUT,
        READY,
        A_TO_B,
        ONE_EDGE,
        CANCELLED,
        STOPPED_ABOARD,
        SET_RIGHT,
    ],
    &[LAYOUT, READY, A_TO_B, BOTH_EDGES, CANCELLED_BY_OLD],
];

/// The parts in which an order is cancelled, and the vehicle is placed.
pub const PLACED_THEN: &[&str] = &[LAYOUT, READY, A_TO_B, ONE_EDGE, CANCELLED, STOPPED, PLACED];
