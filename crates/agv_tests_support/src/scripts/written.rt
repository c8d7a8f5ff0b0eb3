//! Scripts with all rows of all tables: of a transport, and of two vehicles. The order of one of them is cancelled on
//! its way: it holds the next edge and node until a person places it.

use crate::scripts::starts::{LAYOUT, READY, READY_AT_N3};

/// A load is picked at A, on its way to B; another one came to the checking place, and a third one has left. The
/// vehicle is to pause. It holds its node, the first edge and the edge's end.
pub const PICKED: &str = r#"
POST /loads {"load":"L1","station":"A"}
200 {}
POST /loads {"load":"L2"}
200 {}
POST /loads {"load":"L3","station":"C"}
200 {}
POST /loads/L3/leave {"ref":"R1"}
200 {}
POST /jobs {"job":"J1","load":"L1","to":"B"}
200 {}
POST /orders {"order":"O1","job":"J1","manufacturer":"KIT","serialNumber":"0001","edges":1}
200 {"orderUpdateId":0}
state 0001 2 O1 0 N1 0 O1.0=FINISHED
200 {"accepted":true}
POST /vehicles/KIT/0001/pause
200 {"actionId":"instant-1"}
rows
| meta 1 2
| node N1
| node N2
| node N3
| edge E12 N1 N2
| edge E21 N2 N1
| edge E23 N2 N3
| edge E32 N3 N2
| station A N1 1
| station B N3 1
| station C N3 2
| vehicle KIT 0001 N1 NULL NULL 2 O1 1 0 1 1700000000000 1 1700000000000 startPause
| leg O1 0 E12
| leg O1 1 E23
| load L1 vehicle NULL KIT 0001
| load L2 checking NULL NULL NULL
| load L3 left NULL NULL NULL
| job J1 L1 A B riding
| hold edge E12 KIT 0001
| hold node N1 KIT 0001
| hold node N2 KIT 0001
| used order O1
| used ref R1
| capacity KIT 0001 1
| journey O1 KIT 0001 N1 0 1 0 0 0
| act O1 0 J1 pick 0 FINISHED
| act O1 1 J1 drop 2 WAITING
GET /report/stock
200
| station A at N1: 0 of 1, reserved 0
| station B at N3: 0 of 1, reserved 1
| station C at N3: 0 of 2, reserved 0
| checking: 1
|   L2
| vehicle KIT/0001: 1
|   L1
| left: 1
GET /report/holds
200
| node N1 KIT/0001
| node N2 KIT/0001
| edge E12 KIT/0001
| held 3 of 7
GET /export/loads
200
| load,place,at
| L1,vehicle,KIT/0001
| L2,checking,
| L3,left,
GET /export/jobs
200
| job,load,from,to,phase,manufacturer,serialNumber,order
| J1,L1,A,B,riding,KIT,0001,O1
GET /export/vehicles
200
| manufacturer,serialNumber,node,capacity,ready,paused,astray,headerId,pending,order,sent,confirmed,released,edges,seen,restEdge,restNode
| KIT,0001,N1,1,true,false,false,2,startPause,O1,0,0,1,2,0,,
GET /export/layout
200
| kind,id,from,to
| node,N1,,
| node,N2,,
| node,N3,,
| edge,E12,N1,N2
| edge,E21,N2,N1
| edge,E23,N2,N3
| edge,E32,N3,N2
| station,A,N1,1
| station,B,N3,1
| station,C,N3,2
"#;

/// The vehicle gets the remaining edges of its way and drops the load at B; then a load comes to A with a job to C,
/// which is deleted.
pub const DROPPED: &str = r#"
POST /vehicles/KIT/0001/advance {"order":"O1","orderUpdateId":1,"edges":1}
200 {"orderUpdateId":1}
state 0001 3 O1 1 N3 4 O1.0=FINISHED O1.1=FINISHED
200 {"accepted":true}
POST /loads/L2/correct {"ref":"R2","station":"A"}
200 {}
POST /jobs {"job":"J2","load":"L2","to":"C"}
200 {}
DELETE /jobs/J2
200 {}
GET /export/jobs
200
| job,load,from,to,phase,manufacturer,serialNumber,order
"#;

/// The trip and its edges are gone, and the vehicle holds the node where it stands.
const DROPPED_ROWS: &str = "
rows
| meta 1 2
| node N1
| node N2
| node N3
| edge E12 N1 N2
| edge E21 N2 N1
| edge E23 N2 N3
| edge E32 N3 N2
| station A N1 1
| station B N3 1
| station C N3 2
| vehicle KIT 0001 N3 NULL NULL 3 O1 1 0 2 1700000000000 1 1700000000000 startPause
| load L1 station B NULL NULL
| load L2 station A NULL NULL
| load L3 left NULL NULL NULL
| job J1 L1 A B done
| job J2 L2 A C stopped
| hold node N3 KIT 0001
| used order O1
| used ref R1
| used ref R2
| capacity KIT 0001 1
";

/// KIT/0001 has picked its load at A and is to drop it at B, but its order is to be cancelled: it holds the way to N2.
/// KIT/0002 picks at C, to drop at A, and holds its node.
const MEETING: &str = r#"
POST /loads {"load":"L1","station":"A"}
200 {}
POST /loads {"load":"L2","station":"C"}
200 {}
POST /jobs {"job":"J1","load":"L1","to":"B"}
200 {}
POST /orders {"order":"O1","job":"J1","manufacturer":"KIT","serialNumber":"0001","edges":1}
200 {"orderUpdateId":0}
state 0001 2 O1 0 N1 0 O1.0=FINISHED
200 {"accepted":true}
POST /jobs {"job":"J2","load":"L2","to":"A"}
200 {}
POST /orders {"order":"O2","job":"J2","manufacturer":"KIT","serialNumber":"0002","edges":0}
200 {"orderUpdateId":0}
state 0002 2 O2 0 N3 0 O2.0=RUNNING
200 {"accepted":true}
POST /vehicles/KIT/0001/cancel
200 {"actionId":"instant-1"}
rows
| meta 1 2
| node N1
| node N2
| node N3
| edge E12 N1 N2
| edge E21 N2 N1
| edge E23 N2 N3
| edge E32 N3 N2
| station A N1 1
| station B N3 1
| station C N3 2
| vehicle KIT 0001 N1 NULL NULL 2 O1 1 0 1 1700000000000 1 1700000000000 cancelOrder
| vehicle KIT 0002 N3 NULL NULL 2 O2 1 0 1 1700000000000 0 0 NULL
| leg O1 0 E12
| leg O1 1 E23
| leg O2 0 E32
| leg O2 1 E21
| load L1 vehicle NULL KIT 0001
| load L2 station C NULL NULL
| job J1 L1 A B riding
| job J2 L2 C A riding
| hold edge E12 KIT 0001
| hold node N1 KIT 0001
| hold node N2 KIT 0001
| hold node N3 KIT 0002
| used order O1
| used order O2
| capacity KIT 0001 1
| capacity KIT 0002 1
| journey O1 KIT 0001 N1 0 1 0 0 0
| journey O2 KIT 0002 N3 0 0 0 0 0
| act O1 0 J1 pick 0 FINISHED
| act O1 1 J1 drop 2 WAITING
| act O2 0 J2 pick 0 RUNNING
| act O2 1 J2 drop 2 WAITING
"#;

/// The order of KIT/0001 ends, and it may be on its way: E12 and N2 are its rest, and it holds them. Its load is on it,
/// and its job is stopped. KIT/0002 has picked.
const CANCELLED: &str = r#"
state 0001 3 O1 0 N1 0 O1.0=FINISHED instant-1=FINISHED
200 {"accepted":true}
state 0002 3 O2 0 N3 0 O2.0=FINISHED
200 {"accepted":true}
GET /export/jobs
200
| job,load,from,to,phase,manufacturer,serialNumber,order
| J2,L2,C,A,riding,KIT,0002,O2
GET /export/vehicles
200
| manufacturer,serialNumber,node,capacity,ready,paused,astray,headerId,pending,order,sent,confirmed,released,edges,seen,restEdge,restNode
| KIT,0001,N1,1,true,false,true,3,,,,,,,,E12,N2
| KIT,0002,N3,1,true,false,false,3,,O2,0,0,0,2,0,,
rows
| meta 1 2
| node N1
| node N2
| node N3
| edge E12 N1 N2
| edge E21 N2 N1
| edge E23 N2 N3
| edge E32 N3 N2
| station A N1 1
| station B N3 1
| station C N3 2
| vehicle KIT 0001 N1 E12 N2 3 O1 1 0 1 1700000000000 1 1700000000000 NULL
| vehicle KIT 0002 N3 NULL NULL 3 O2 1 0 1 1700000000000 0 0 NULL
| leg O2 0 E32
| leg O2 1 E21
| load L1 vehicle NULL KIT 0001
| load L2 vehicle NULL KIT 0002
| job J1 L1 A B stopped
| job J2 L2 C A riding
| hold edge E12 KIT 0001
| hold node N1 KIT 0001
| hold node N2 KIT 0001
| hold node N3 KIT 0002
| used order O1
| used order O2
| capacity KIT 0001 1
| capacity KIT 0002 1
| journey O2 KIT 0002 N3 0 0 0 0 0
| act O2 0 J2 pick 0 FINISHED
| act O2 1 J2 drop 2 WAITING
"#;

/// A person places KIT/0001 and corrects its load's place to B, a stocktake finds that load at C, and a resync forgets
/// the number of the last state. KIT/0002 has track released as far as N2, by an update that it has not confirmed.
const SET_RIGHT: &str = r#"
POST /vehicles/KIT/0001/place {"ref":"R1","node":"N1"}
200 {}
POST /loads/L1/correct {"ref":"R2","station":"B"}
200 {}
POST /stocktakes/R3
| station,load
| B,
| C,L1
200 {"moved":1,"unknown":[]}
POST /vehicles/KIT/0001/resync
200 {}
POST /vehicles/KIT/0002/advance {"order":"O2","orderUpdateId":1,"edges":1}
200 {"orderUpdateId":1}
rows
| meta 1 2
| node N1
| node N2
| node N3
| edge E12 N1 N2
| edge E21 N2 N1
| edge E23 N2 N3
| edge E32 N3 N2
| station A N1 1
| station B N3 1
| station C N3 2
| vehicle KIT 0001 N1 NULL NULL NULL O1 1 0 1 1700000000000 1 1700000000000 NULL
| vehicle KIT 0002 N3 NULL NULL 3 O2 1 0 2 1700000000000 0 0 NULL
| leg O2 0 E32
| leg O2 1 E21
| load L1 station C NULL NULL
| load L2 vehicle NULL KIT 0002
| job J1 L1 A B stopped
| job J2 L2 C A riding
| hold edge E32 KIT 0002
| hold node N1 KIT 0001
| hold node N2 KIT 0002
| hold node N3 KIT 0002
| used order O1
| used order O2
| used ref R1
| used ref R2
| used ref R3
| capacity KIT 0001 1
| capacity KIT 0002 1
| journey O2 KIT 0002 N3 0 1 1 0 0
| act O2 0 J2 pick 0 FINISHED
| act O2 1 J2 drop 2 WAITING
"#;

/// The scripts with all rows.
pub const WRITTEN: &[&[&str]] = &[
    &[LAYOUT, READY, PICKED, DROPPED, DROPPED_ROWS],
    &[LAYOUT, READY, READY_AT_N3, MEETING, CANCELLED, SET_RIGHT],
];
