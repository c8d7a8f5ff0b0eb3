//! The parts with which scripts begin.

/// The layout of the examples.
pub const LAYOUT: &str = r#"
PUT /layout
| kind,id,from,to
| node,N1,,
| node,N2,,
| node,N3,,
| edge,E12,N1,N2
| edge,E21,N2,N1
| edge,E23,N2,N3
| edge,E32,N3,N2
| station,A,N1,1
| station,B,N3,1
| station,C,N3,2
200 {}
"#;

/// KIT/0001 is ready at N1.
pub const READY: &str = r#"
POST /vehicles {"manufacturer":"KIT","serialNumber":"0001","node":"N1"}
200 {}
state 0001 1 - 0 N1 0
200 {"accepted":true}
"#;

/// KIT/0002 is ready at N3.
pub const READY_AT_N3: &str = r#"
POST /vehicles {"manufacturer":"KIT","serialNumber":"0002","node":"N3"}
200 {}
state 0002 1 - 0 N3 0
200 {"accepted":true}
"#;

/// A load at A has a job to B.
pub const A_TO_B: &str = r#"
POST /loads {"load":"L1","station":"A"}
200 {}
moves L1 station A
POST /jobs {"job":"J1","load":"L1","to":"B"}
200 {}
"#;

/// KIT/0001 has the order, with the first of two edges released.
pub const ONE_EDGE: &str = r#"
POST /orders {"order":"O1","job":"J1","manufacturer":"KIT","serialNumber":"0001","edges":1}
200 {"orderUpdateId":0}
"#;

/// KIT/0001 has the order, with both edges released.
pub const BOTH_EDGES: &str = r#"
POST /orders {"order":"O1","job":"J1","manufacturer":"KIT","serialNumber":"0001","edges":2}
200 {"orderUpdateId":0}
"#;
