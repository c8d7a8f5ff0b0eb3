//! Scripts of layouts: the layout is set once, and there are at most 100 vehicles.

use crate::scripts::starts::{LAYOUT, READY};

/// A second layout is refused.
const AGAIN: &str = r#"
PUT /layout
| kind,id,from,to
| node,N1,,
| node,N2,,
| node,N3,,
| edge,E12,N1,N2
| edge,E21,N2,N1
| edge,E23,N2,N3
| edge,E32,N3,N2
| station,A,N1,1
| station,B,N3,1
| station,C,N3,2
409 {"name":"LayoutSet","refusal":31}
"#;

/// A layout is refused with an edge that leads to an unknown node.
const NO_END: &str = r#"
PUT /layout
| kind,id,from,to
| node,N1,,
| edge,E12,N1,N2
409 {"name":"LayoutBad","refusal":32}
rows
| meta 1 2
"#;

/// A layout of 101 nodes without edges, and 100 vehicles.
pub const ALONE: &str = r#"
PUT /layout
| kind,id,from,to
*101 | node,P#,,
200 {}
*100 POST /vehicles {"manufacturer":"KIT","serialNumber":"V#","node":"P#"}%200 {}
"#;

/// One more vehicle is refused.
const ONE_MORE: &str = r#"
POST /vehicles {"manufacturer":"KIT","serialNumber":"V100","node":"P100"}
409 {"name":"Limit","refusal":51}
GET /vehicles/KIT/V100
404 {"name":"NoVehicle","refusal":20}
"#;

/// Scripts of layouts.
pub const LAYOUTS: &[&[&str]] = &[&[LAYOUT, READY, AGAIN], &[NO_END, LAYOUT]];

/// The script of the most vehicles.
pub const MOST_VEHICLES: &[&[&str]] = &[&[ALONE, ONE_MORE]];
