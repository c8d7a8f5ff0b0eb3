//! Scripts of refusals, each for its own reason, in the order in which a user could meet them.

use crate::scripts::starts::{A_TO_B, LAYOUT, READY};

/// Calls for an unknown vehicle are refused.
const NO_VEHICLE: &str = r#"
POST /orders {"order":"O1","job":"J1","manufacturer":"KIT","serialNumber":"0009","edges":0}
404 {"name":"NoVehicle","refusal":20}
POST /vehicles/KIT/0009/advance {"order":"O1","orderUpdateId":1,"edges":1}
404 {"name":"NoVehicle","refusal":20}
POST /vehicles/KIT/0009/cancel
404 {"name":"NoVehicle","refusal":20}
POST /vehicles/KIT/0009/pause
404 {"name":"NoVehicle","refusal":20}
POST /vehicles/KIT/0009/resume
404 {"name":"NoVehicle","refusal":20}
POST /vehicles/KIT/0009/place {"ref":"R1","node":"N9"}
404 {"name":"NoVehicle","refusal":20}
POST /vehicles/KIT/0009/resync
404 {"name":"NoVehicle","refusal":20}
state 0009 1 - 0 N1 0
404 {"name":"NoVehicle","refusal":20}
GET /uagv/v2/KIT/0009/order
404 {"name":"NoVehicle","refusal":20}
GET /uagv/v2/KIT/0009/instantActions
404 {"name":"NoVehicle","refusal":20}
GET /vehicles/KIT/0009
404 {"name":"NoVehicle","refusal":20}
"#;

/// Calls that name an unknown node, station, load, job or order are refused.
const UNKNOWN: &str = r#"
POST /vehicles {"manufacturer":"KIT","serialNumber":"0002","node":"N9"}
404 {"name":"NoNode","refusal":21}
POST /vehicles/KIT/0001/place {"ref":"R1","node":"N9"}
404 {"name":"NoNode","refusal":21}
POST /loads {"load":"L1","station":"D"}
404 {"name":"NoStation","refusal":22}
POST /loads/L9/correct {"ref":"R1","station":"D"}
404 {"name":"NoLoad","refusal":23}
POST /loads/L9/leave {"ref":"R1"}
404 {"name":"NoLoad","refusal":23}
GET /loads/L9
404 {"name":"NoLoad","refusal":23}
POST /jobs {"job":"J1","load":"L9","to":"D"}
404 {"name":"NoLoad","refusal":23}
DELETE /jobs/J1
404 {"name":"NoJob","refusal":24}
POST /orders {"order":"O1","job":"J1","manufacturer":"KIT","serialNumber":"0001","edges":0}
404 {"name":"NoJob","refusal":24}
POST /vehicles/KIT/0001/advance {"order":"O1","orderUpdateId":1,"edges":1}
409 {"name":"NoOrder","refusal":25}
POST /vehicles/KIT/0001/cancel
409 {"name":"NoOrder","refusal":25}
GET /uagv/v2/KIT/0001/order
204
GET /uagv/v2/KIT/0001/instantActions
204
"#;

/// Two vehicles stand at two nodes.
const HELD: &str = r#"
POST /vehicles {"manufacturer":"KIT","serialNumber":"0001","node":"N2"}
409 {"name":"Exists","refusal":30}
POST /vehicles {"manufacturer":"KIT","serialNumber":"0002","node":"N1"}
409 {"by":"KIT/0001","name":"Held","refusal":33,"what":"node N1"}
POST /vehicles {"manufacturer":"KIT","serialNumber":"0002","node":"N2"}
200 {}
POST /vehicles/KIT/0002/place {"ref":"R1","node":"N1"}
409 {"by":"KIT/0001","name":"Held","refusal":33,"what":"node N1"}
POST /vehicles/KIT/0002/place {"ref":"R1","node":"N2"}
200 {}
POST /vehicles/KIT/0002/place {"ref":"R1","node":"N3"}
409 {"name":"RefUsed","refusal":49}
"#;

/// Refusals of calls for a load at the checking place, at a station, in a job, and after it has left.
const LOADS: &str = r#"
POST /loads {"load":"L2"}
200 {}
POST /jobs {"job":"J1","load":"L2","to":"B"}
409 {"name":"Elsewhere","refusal":36}
POST /loads/L2/correct {"ref":"R1","station":"B"}
200 {}
POST /jobs {"job":"J1","load":"L2","to":"D"}
404 {"name":"NoStation","refusal":22}
POST /jobs {"job":"J1","load":"L2","to":"B"}
409 {"name":"SameStation","refusal":37}
POST /loads/L2/correct {"ref":"R2","station":"B"}
409 {"name":"SameStation","refusal":37}
POST /loads {"load":"L1","station":"A"}
200 {}
POST /loads/L2/correct {"ref":"R2","station":"A"}
409 {"name":"Full","refusal":34}
POST /jobs {"job":"J1","load":"L2","to":"A"}
409 {"name":"Full","refusal":34}
POST /jobs {"job":"J1","load":"L2","to":"C"}
200 {}
POST /jobs {"job":"J1","load":"L2","to":"C"}
409 {"name":"Exists","refusal":30}
POST /jobs {"job":"J2","load":"L2","to":"C"}
409 {"name":"InJob","refusal":35}
POST /loads/L2/correct {"ref":"R2","station":"C"}
409 {"name":"InJob","refusal":35}
POST /loads/L1/leave {"ref":"R1"}
409 {"name":"RefUsed","refusal":49}
POST /loads/L1/leave {"ref":"R2"}
200 {}
POST /loads/L1/leave {"ref":"R3"}
409 {"name":"Elsewhere","refusal":36}
POST /loads/L1/correct {"ref":"R3","station":"C"}
409 {"name":"Elsewhere","refusal":36}
POST /jobs {"job":"J2","load":"L1","to":"C"}
409 {"name":"Elsewhere","refusal":36}
POST /loads {"load":"L1"}
409 {"name":"Exists","refusal":30}
"#;

/// A vehicle that has not posted a state yet.
const NOT_READY: &str = r#"
POST /vehicles {"manufacturer":"KIT","serialNumber":"0001","node":"N1"}
200 {}
"#;

/// The vehicle is not ready at first, and then reports an order that the desk does not know.
const NO_ORDER_YET: &str = r#"
POST /orders {"order":"O1","job":"J1","manufacturer":"KIT","serialNumber":"0001","edges":1}
409 {"name":"NotReady","refusal":41}
state 0001 1 O7 0 N2 0
409 {"name":"NotThere","refusal":71}
state 0001 1 O7 0 N1 0
200 {"accepted":true}
POST /orders {"order":"O7","job":"J1","manufacturer":"KIT","serialNumber":"0001","edges":1}
409 {"name":"OrderKnown","refusal":52}
POST /orders {"order":"O1","job":"J1","manufacturer":"KIT","serialNumber":"0001","edges":3}
409 {"name":"Beyond","refusal":45}
POST /orders {"order":"O1","job":"J1","manufacturer":"KIT","serialNumber":"0001","edges":1}
200 {"orderUpdateId":0}
"#;

/// Refusals while the vehicle has an open order.
const BUSY: &str = r#"
POST /orders {"order":"O1","job":"J1","manufacturer":"KIT","serialNumber":"0001","edges":1}
409 {"name":"Exists","refusal":30}
POST /orders {"order":"O2","job":"J1","manufacturer":"KIT","serialNumber":"0001","edges":1}
409 {"name":"JobState","refusal":50}
state 0001 2 O1 0 N1 0 O1.0=FINISHED
200 {"accepted":true}
POST /loads {"load":"L2","station":"C"}
200 {}
POST /jobs {"job":"J2","load":"L2","to":"A"}
200 {}
POST /orders {"order":"O2","job":"J2","manufacturer":"KIT","serialNumber":"0001","edges":0}
409 {"name":"Busy","refusal":38}
state 0001 3 O9 0 N1 0
409 {"name":"OtherOrder","refusal":60}
state 0001 3 O1 1 N1 0
409 {"name":"UpdateNotSent","refusal":61}
state 0001 3 O1 0 N3 4
409 {"name":"BeyondBase","refusal":65}
POST /vehicles/KIT/0001/advance {"order":"O2","orderUpdateId":1,"edges":1}
409 {"name":"NoOrder","refusal":25}
POST /vehicles/KIT/0001/advance {"order":"O1","orderUpdateId":1,"edges":0}
409 {"name":"Beyond","refusal":45}
POST /vehicles/KIT/0001/advance {"order":"O1","orderUpdateId":1,"edges":2}
409 {"name":"Beyond","refusal":45}
"#;

/// Refusals while the order is cancelled, and after it, with the load still on the vehicle.
const CANCELLED: &str = r#"
POST /vehicles/KIT/0001/cancel
200 {"actionId":"instant-1"}
POST /vehicles/KIT/0001/cancel
409 {"name":"InstantPending","refusal":42}
POST /vehicles/KIT/0001/advance {"order":"O1","orderUpdateId":1,"edges":1}
409 {"name":"InstantPending","refusal":42}
state 0001 3 O1 0 N1 0 instant-1=FINISHED
200 {"accepted":true}
POST /orders {"order":"O2","job":"J2","manufacturer":"KIT","serialNumber":"0001","edges":0}
409 {"name":"Astray","refusal":39}
POST /vehicles/KIT/0001/place {"ref":"R1","node":"N1"}
200 {}
POST /orders {"order":"O2","job":"J2","manufacturer":"KIT","serialNumber":"0001","edges":0}
409 {"name":"Loaded","refusal":40}
"#;

/// Scripts of calls that name something unknown, held or in another place.
pub const REFUSALS: &[&[&str]] = &[
    &[LAYOUT, READY, NO_VEHICLE],
    &[LAYOUT, READY, UNKNOWN],
    &[LAYOUT, READY, HELD],
    &[LAYOUT, READY, LOADS],
];

/// A script of refused orders.
pub const REFUSED_ORDERS: &[&[&str]] = &[&[
    LAYOUT,
    NOT_READY,
    A_TO_B,
    NO_ORDER_YET,
    BUSY,
    CANCELLED,
]];
