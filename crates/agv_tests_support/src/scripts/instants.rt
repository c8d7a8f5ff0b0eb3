//! Scripts in which vehicles pause and resume, and the numbers of states run out.

use crate::scripts::starts::{LAYOUT, READY};

/// Only one instant action is pending at a time.
const PAUSED: &str = r#"
POST /vehicles/KIT/0001/pause
200 {"actionId":"instant-1"}
POST /vehicles/KIT/0001/resume
409 {"name":"InstantPending","refusal":42}
state 0001 4294967295 - 0 N1 0 instant-1=FINISHED
200 {"accepted":true}
GET /uagv/v2/KIT/0001/instantActions
204
"#;

/// The vehicle is to resume.
const RESUMED: &str = r#"
POST /vehicles/KIT/0001/resume
200 {"actionId":"instant-2"}
GET /uagv/v2/KIT/0001/instantActions
200 {"actions":[{"actionId":"instant-2","actionParameters":[],"actionType":"stopPause","blockingType":"HARD"}],"headerId":2,"manufacturer":"KIT","serialNumber":"0001","timestamp":"2023-11-14T22:13:20.00Z","version":"2.0.0"}
GET /vehicles/KIT/0001
200 {"astray":false,"capacity":1,"confirmed":null,"headerId":4294967295,"manufacturer":"KIT","node":"N1","order":null,"paused":false,"pending":"stopPause","ready":true,"sent":null,"serialNumber":"0001"}
row vehicle KIT 0001 N1 NULL NULL 4294967295 NULL 1 0 0 0 2 1700000000000 stopPause
"#;

/// After a state with the largest number every state is old, until a resync.
const OLD: &str = r#"
state 0001 4294967295 - 0 N1 0
200 {"accepted":false}
state 0001 2 - 0 N1 0
200 {"accepted":false}
POST /vehicles/KIT/0001/resync
200 {}
state 0001 2 - 0 N1 0
200 {"accepted":true}
"#;

/// Scripts of instant actions.
pub const INSTANTS: &[&[&str]] = &[
    &[LAYOUT, READY, PAUSED, RESUMED],
    &[LAYOUT, READY, PAUSED, OLD],
];
