//! Paths and methods with their lines of the table of routes, and the calls that bodies make there. In a body `|` ends
//! a line.

use crate::cases::{check_text, part, parts, row, shown, unmarked};
use agv_face_http::{Route, Routes, call_of};
use agv_header::Refusal;
use http::Method;
use std::alloc::Global;
use std::process::Abort;

/// Returns the line of the table of routes for a method and a target.
fn route_at(
    rt: &impl Abort,
    alloc: Global,
    routes: &Routes,
    method: &str,
    target: &[u8],
) -> Result<Route, Refusal> {
    let method = Method::from_bytes(alloc, method.as_bytes()).expect(rt, "a method");
    routes.route_of(&method, target)
}

/// Checks the route of one line of a table.
fn check_route(rt: &impl Abort, alloc: Global, routes: &Routes, line: &str) {
    let (text, wanted) = row(rt, line);
    let (method, target) = parts(rt, text, " ");
    let found = route_at(rt, alloc, routes, method, target.as_bytes());
    check_text(rt, shown(rt, alloc, &found).as_str(), wanted, text);
}

/// Checks the route of each method and target of a table.
fn check_routes(rt: &impl Abort, alloc: Global, routes: &Routes, table: &str) {
    for line in table.lines() {
        check_route(rt, alloc, routes, line);
    }
}

/// Each path of the table of routes has one method; another method is refused, naming it.
const TABLE: &str = "\
PUT /layout => Ok(Fixed(SetLayout))
POST /vehicles => Ok(Fixed(RegisterVehicle))
POST /loads => Ok(Fixed(RegisterLoad))
POST /loads/L1/correct => Ok(OfName(CorrectLoad, L1))
POST /loads/L1/leave => Ok(OfName(LeaveLoad, L1))
POST /jobs => Ok(Fixed(AddJob))
DELETE /jobs/J1 => Ok(OfName(StopJob, J1))
POST /orders => Ok(Fixed(StartOrder))
POST /drives => Ok(Fixed(StartDrive))
POST /vehicles/KIT/0001/advance => Ok(OfVehicle(Advance, VehicleKey { manufacturer: KIT, serial: 0001 }))
POST /vehicles/KIT/0001/cancel => Ok(OfVehicle(Cancel, VehicleKey { manufacturer: KIT, serial: 0001 }))
POST /vehicles/KIT/0001/pause => Ok(OfVehicle(Pause, VehicleKey { manufacturer: KIT, serial: 0001 }))
POST /vehicles/KIT/0001/resume => Ok(OfVehicle(Resume, VehicleKey { manufacturer: KIT, serial: 0001 }))
POST /vehicles/KIT/0001/place => Ok(OfVehicle(PlaceVehicle, VehicleKey { manufacturer: KIT, serial: 0001 }))
POST /vehicles/KIT/0001/resync => Ok(OfVehicle(Resync, VehicleKey { manufacturer: KIT, serial: 0001 }))
POST /uagv/v2/KIT/0001/state => Ok(OfVehicle(State, VehicleKey { manufacturer: KIT, serial: 0001 }))
GET /uagv/v2/KIT/0001/order => Ok(OfVehicle(GetOrder, VehicleKey { manufacturer: KIT, serial: 0001 }))
GET /uagv/v2/KIT/0001/instantActions => Ok(OfVehicle(GetInstant, VehicleKey { manufacturer: KIT, serial: 0001 }))
POST /stocktakes/R1 => Ok(OfName(Stocktake, R1))
GET /loads/L1 => Ok(OfName(GetLoad, L1))
GET /jobs/J1/phase => Ok(OfName(GetJob, J1))
GET /vehicles/KIT/0001 => Ok(OfVehicle(GetVehicle, VehicleKey { manufacturer: KIT, serial: 0001 }))
GET /report/stock => Ok(Fixed(Report(Stock)))
GET /report/holds => Ok(Fixed(Report(Holds)))
GET /export/loads => Ok(Fixed(Report(Loads)))
GET /export/jobs => Ok(Fixed(Report(Jobs)))
GET /export/vehicles => Ok(Fixed(Report(Vehicles)))
GET /export/layout => Ok(Fixed(Report(Layout)))
GET /layout => Err(BadMethod { allow: Put })
PUT /vehicles => Err(BadMethod { allow: Post })
DELETE /loads => Err(BadMethod { allow: Post })
HEAD /loads/L1/correct => Err(BadMethod { allow: Post })
PATCH /loads/L1/leave => Err(BadMethod { allow: Post })
OPTIONS /jobs => Err(BadMethod { allow: Post })
get /jobs/J1 => Err(BadMethod { allow: Delete })
GET /orders => Err(BadMethod { allow: Post })
DELETE /drives => Err(BadMethod { allow: Post })
PUT /vehicles/KIT/0001/advance => Err(BadMethod { allow: Post })
DELETE /vehicles/KIT/0001/cancel => Err(BadMethod { allow: Post })
HEAD /vehicles/KIT/0001/pause => Err(BadMethod { allow: Post })
PATCH /vehicles/KIT/0001/resume => Err(BadMethod { allow: Post })
OPTIONS /vehicles/KIT/0001/place => Err(BadMethod { allow: Post })
get /vehicles/KIT/0001/resync => Err(BadMethod { allow: Post })
GET /uagv/v2/KIT/0001/state => Err(BadMethod { allow: Post })
POST /uagv/v2/KIT/0001/order => Err(BadMethod { allow: Get })
PUT /uagv/v2/KIT/0001/instantActions => Err(BadMethod { allow: Get })
DELETE /stocktakes/R1 => Err(BadMethod { allow: Post })
HEAD /loads/L1 => Err(BadMethod { allow: Get })
POST /jobs/J1/phase => Err(BadMethod { allow: Get })
PATCH /vehicles/KIT/0001 => Err(BadMethod { allow: Get })
OPTIONS /report/stock => Err(BadMethod { allow: Get })
get /report/holds => Err(BadMethod { allow: Get })
POST /export/loads => Err(BadMethod { allow: Get })
DELETE /export/jobs => Err(BadMethod { allow: Get })
HEAD /export/vehicles => Err(BadMethod { allow: Get })
PUT /export/layout => Err(BadMethod { allow: Get })
";

/// A question mark ends the path; a name may be the same as a word of another path, and has at most 32 bytes; and
/// targets that are no path, with any method.
const PATHS: &str = "\
GET /loads/L1? => Ok(OfName(GetLoad, L1))
GET /loads/L1?x=1 => Ok(OfName(GetLoad, L1))
GET /loads/L1?/ => Ok(OfName(GetLoad, L1))
GET /loads/L1?a?b=%20 => Ok(OfName(GetLoad, L1))
GET /loads/correct => Ok(OfName(GetLoad, correct))
POST /loads/leave/leave => Ok(OfName(LeaveLoad, leave))
DELETE /jobs/jobs => Ok(OfName(StopJob, jobs))
GET /vehicles/KIT/advance => Ok(OfVehicle(GetVehicle, VehicleKey { manufacturer: KIT, serial: advance }))
POST /vehicles/KIT/advance => Err(BadMethod { allow: Get })
POST /vehicles/cancel/pause/resume => Ok(OfVehicle(Resume, VehicleKey { manufacturer: cancel, serial: pause }))
GET /loads/abcdefghijklmnopqrstuvwxyz-_.789 => Ok(OfName(GetLoad, abcdefghijklmnopqrstuvwxyz-_.789))
GET /loads/abcdefghijklmnopqrstuvwxyz-_.789z => Err(NoPath)
PUT /loads/abcdefghijklmnopqrstuvwxyz-_.789z => Err(NoPath)
GET /vehicles/KIT/abcdefghijklmnopqrstuvwxyz-_.789z => Err(NoPath)
GET /vehicles/abcdefghijklmnopqrstuvwxyz-_.789z/0001 => Err(NoPath)
GET  => Err(NoPath)
POST / => Err(NoPath)
GET ? => Err(NoPath)
POST /? => Err(NoPath)
GET * => Err(NoPath)
POST layout => Err(NoPath)
GET /Layout => Err(NoPath)
POST /LAYOUT => Err(NoPath)
GET /layou => Err(NoPath)
POST /layouts => Err(NoPath)
GET /layout/ => Err(NoPath)
POST //layout => Err(NoPath)
GET /./layout => Err(NoPath)
POST /nothing => Err(NoPath)
GET /loads/ => Err(NoPath)
POST /loads//correct => Err(NoPath)
GET /loads// => Err(NoPath)
POST /loads/L1/ => Err(NoPath)
GET /loads/L1// => Err(NoPath)
POST /loads/L1% => Err(NoPath)
GET /loads/L1# => Err(NoPath)
POST /loads/L1/?x => Err(NoPath)
GET /loads/L1  => Err(NoPath)
POST /loads/L1/x/y/z => Err(NoPath)
GET /loads/L1ä => Err(NoPath)
POST x/loads/L1 => Err(NoPath)
GET ?/loads/L1 => Err(NoPath)
POST /loads/L%31 => Err(NoPath)
GET /loads/L 1 => Err(NoPath)
POST /loads/{load} => Err(NoPath)
GET /loads/* => Err(NoPath)
POST /loads/L1/Correct => Err(NoPath)
GET /loads/L1/correct/ => Err(NoPath)
POST /loads/L1/remove => Err(NoPath)
GET /loads/L%31/leave => Err(NoPath)
POST /jobs/ => Err(NoPath)
GET /jobs/J1/ => Err(NoPath)
POST /jobs/J,1 => Err(NoPath)
GET /jobs//phase => Err(NoPath)
GET /jobs/J1/phase/ => Err(NoPath)
GET /drives/O1 => Err(NoPath)
GET /orders/O1 => Err(NoPath)
POST /vehicles/KIT => Err(NoPath)
GET /vehicles/KIT/ => Err(NoPath)
POST /vehicles//0001 => Err(NoPath)
GET /vehicles/KIT/0001/ => Err(NoPath)
POST /vehicles/KIT/0001/stop => Err(NoPath)
GET /vehicles/K T/0001/pause => Err(NoPath)
POST /vehicles/KIT/00%201/pause => Err(NoPath)
GET /uagv/v3/KIT/0001/state => Err(NoPath)
POST /uagv/v2/KIT/0001/connection => Err(NoPath)
GET /uagv/v2/KIT/state => Err(NoPath)
POST /stocktakes => Err(NoPath)
GET /report => Err(NoPath)
POST http://127.0.0.1/loads/L1 => Err(NoPath)
";

#[test]
fn each_path_has_one_method(rt: HostRuntime) {
    let routes = Routes::new(rt.alloc()).expect(&rt, "memory");
    check_routes(&rt, rt.alloc(), &routes, TABLE);
    check_routes(&rt, rt.alloc(), &routes, PATHS);
    let found = route_at(&rt, rt.alloc(), &routes, "GET", b"/loads/\xff");
    check_text(
        &rt,
        shown(&rt, rt.alloc(), &found).as_str(),
        "Err(NoPath)",
        "no text",
    );
}

/// Returns the call that a method, a target and a body make.
fn call_at(rt: &impl Abort, alloc: Global, routes: &Routes, text: &str, body: &[u8]) -> String {
    let target = part(rt, text, ' ', 1).as_bytes();
    let route = route_at(rt, alloc, routes, part(rt, text, ' ', 0), target).expect(rt, text);
    shown(rt, alloc, &call_of(alloc, &route, body))
}

/// Checks the call of one line of a table.
fn check_call(rt: &impl Abort, alloc: Global, routes: &Routes, line: &str) {
    let (text, wanted) = row(rt, line);
    let (_, behind) = parts(rt, text, " ");
    let (_, said) = parts(rt, behind, " ");
    let body = unmarked(rt, alloc, said, '|', "\n");
    let found = call_at(rt, alloc, routes, text, body.as_bytes());
    check_text(rt, found.as_str(), wanted, text);
}

/// Checks the call of each request of a table.
fn check_calls(rt: &impl Abort, alloc: Global, routes: &Routes, table: &str) {
    for line in table.lines() {
        check_call(rt, alloc, routes, line);
    }
}

/// Each call. The last of two members with one name counts, members that a body doesn't have are ignored, and a call
/// without a body ignores the body. An order gives a job, which means its pick and its drop, or its stops.
const CALLS: &str =
    r#"POST /vehicles {"manufacturer":"KIT","serialNumber":"0001","node":"N1"} => Ok(RegisterVehicle { key: VehicleKey { manufacturer: KIT, serial: 0001 }, node: N1, capacity: 1 })
POST /vehicles {"capacity":null,"manufacturer":"KIT","serialNumber":"0001","node":"N1"} => Ok(RegisterVehicle { key: VehicleKey { manufacturer: KIT, serial: 0001 }, node: N1, capacity: 1 })
POST /vehicles {"manufacturer":"KIT","serialNumber":"0001","node":"N1","capacity":0} => Ok(RegisterVehicle { key: VehicleKey { manufacturer: KIT, serial: 0001 }, node: N1, capacity: 0 })
POST /loads {"load":"L1"} => Ok(RegisterLoad { load: L1, station: None })
POST /loads {"load":"L0","station":"A","load":"L1","station":null} => Ok(RegisterLoad { load: L1, station: None })
POST /loads  { "station" : "A" , "load" : "L1", "Load" : "L2" } => Ok(RegisterLoad { load: L1, station: Some(A) })
POST /loads {"load":"\u0041Zaz09_.:-"} => Ok(RegisterLoad { load: AZaz09_.:-, station: None })
POST /loads {"load":"abcdefghijklmnopqrstuvwxyz_.:-79"} => Ok(RegisterLoad { load: abcdefghijklmnopqrstuvwxyz_.:-79, station: None })
POST /loads/L1/correct {"ref":"R1","load":"L2"} => Ok(CorrectLoad { load: L1, reference: R1, station: None })
POST /loads/L1/correct {"ref":"R1","station":"A"} => Ok(CorrectLoad { load: L1, reference: R1, station: Some(A) })
POST /loads/L1/leave {"ref":"R1"} => Ok(LeaveLoad { load: L1, reference: R1 })
POST /jobs {"to":"B","job":"J1","load":"L1"} => Ok(AddJob { job: J1, load: L1, to: B })
DELETE /jobs/J1  => Ok(StopJob { job: J1 })
POST /vehicles/KIT/0001/advance {"order":"O1","orderUpdateId":4294967295,"edges":0} => Ok(Advance { key: VehicleKey { manufacturer: KIT, serial: 0001 }, order: O1, update: 4294967295, edges: 0 })
POST /vehicles/KIT/0001/cancel { => Ok(Cancel { key: VehicleKey { manufacturer: KIT, serial: 0001 } })
POST /vehicles/KIT/0001/pause 1.5 => Ok(Pause { key: VehicleKey { manufacturer: KIT, serial: 0001 } })
POST /vehicles/KIT/0001/resume  => Ok(Resume { key: VehicleKey { manufacturer: KIT, serial: 0001 } })
POST /vehicles/KIT/0001/place {"ref":"R1","node":"N2","manufacturer":"X"} => Ok(PlaceVehicle { key: VehicleKey { manufacturer: KIT, serial: 0001 }, reference: R1, node: N2 })
POST /vehicles/KIT/0001/resync [] => Ok(Resync { key: VehicleKey { manufacturer: KIT, serial: 0001 } })
POST /orders {"order":"O1","job":"J1","manufacturer":"KIT","serialNumber":"0001","edges":1} => Ok(StartOrder { order: O1, key: VehicleKey { manufacturer: KIT, serial: 0001 }, stops: Sequence { kept: [Stop { kind: Pick, job: J1 }, Stop { kind: Drop, job: J1 }] }, edges: 1 })
POST /orders {"order":"O1","job":"J1","stops":null,"manufacturer":"KIT","serialNumber":"0001","edges":0} => Ok(StartOrder { order: O1, key: VehicleKey { manufacturer: KIT, serial: 0001 }, stops: Sequence { kept: [Stop { kind: Pick, job: J1 }, Stop { kind: Drop, job: J1 }] }, edges: 0 })
POST /orders {"order":"O1","stops":[{"action":"pick","job":"J1"},{"job":"J2","action":"pick","more":[]},{"action":"drop","job":"J1"}],"manufacturer":"KIT","serialNumber":"0001","edges":0} => Ok(StartOrder { order: O1, key: VehicleKey { manufacturer: KIT, serial: 0001 }, stops: Sequence { kept: [Stop { kind: Pick, job: J1 }, Stop { kind: Pick, job: J2 }, Stop { kind: Drop, job: J1 }] }, edges: 0 })
POST /orders {"order":"O1","stops":[],"job":null,"manufacturer":"KIT","serialNumber":"0001","edges":0} => Ok(StartOrder { order: O1, key: VehicleKey { manufacturer: KIT, serial: 0001 }, stops: Sequence { kept: [] }, edges: 0 })
POST /drives {"order":"O1","manufacturer":"KIT","serialNumber":"0001","to":"N7","edges":2,"job":"J1"} => Ok(StartDrive { order: O1, key: VehicleKey { manufacturer: KIT, serial: 0001 }, to: N7, edges: 2 })
GET /uagv/v2/KIT/0001/order  => Ok(GetOrder { key: VehicleKey { manufacturer: KIT, serial: 0001 } })
GET /uagv/v2/KIT/0001/instantActions  => Ok(GetInstant { key: VehicleKey { manufacturer: KIT, serial: 0001 } })
GET /loads/L1  => Ok(GetLoad { load: L1 })
GET /jobs/J1/phase { => Ok(GetJob { job: J1 })
GET /vehicles/KIT/0001  => Ok(GetVehicle { key: VehicleKey { manufacturer: KIT, serial: 0001 } })
GET /report/stock  => Ok(Report(Stock))
GET /report/holds  => Ok(Report(Holds))
GET /export/loads  => Ok(Report(Loads))
GET /export/jobs  => Ok(Report(Jobs))
GET /export/vehicles  => Ok(Report(Vehicles))
GET /export/layout  => Ok(Report(Layout))
PUT /layout kind,id,from,to|node,N1,,|edge,E12,N1,N2|station,A,N1,1| => Ok(SetLayout { rows: Sequence { kept: [Node { id: N1 }, Edge { id: E12, start: N1, finish: N2 }, Station { id: A, node: N1, capacity: 1 }] } })
PUT /layout kind,id,from,to| => Ok(SetLayout { rows: Sequence { kept: [] } })
PUT /layout  => Err(Refused(BadCsv))
PUT /layout kind,id,from,to|zone,N1,,| => Err(Refused(BadCsv))
POST /stocktakes/R1 station,load|A,|C,L1| => Ok(Stocktake { reference: R1, rows: Sequence { kept: [(A, None), (C, Some(L1))] } })
POST /stocktakes/R1 station,load| => Ok(Stocktake { reference: R1, rows: Sequence { kept: [] } })
POST /stocktakes/R1  => Err(Refused(BadCsv))
POST /stocktakes/R1 station,load|A,L1,| => Err(Refused(BadCsv))
"#;

/// The faults of a state, in the order in which they are found: a number with a fraction, a position, a body without a
/// required member, the version, the timestamp, and the vehicle.
const STATES: &str =
    r#"POST /uagv/v2/KIT/0001/state {"headerId":1,"timestamp":"2023-11-14T22:13:19.50Z","version":"2.0.0","manufacturer":"KIT","serialNumber":"0001","orderId":"","orderUpdateId":0,"lastNodeId":"","lastNodeSequenceId":0,"operatingMode":"MANUAL","nodeStates":[],"actionStates":[],"errors":[],"safetyState":{"eStop":"NONE"}} => Ok(State { key: VehicleKey { manufacturer: KIT, serial: 0001 }, state: StateMessage { header_id: 1, at: Moment { ms: 1699999999500 }, manufacturer: Text { text: "KIT" }, serial: Text { text: "0001" }, order_id: Text { text: "" }, update: 0, last_node: Text { text: "" }, last_seq: 0, node_seqs: Sequence { kept: [] }, actions: Sequence { kept: [] }, ready: false, paused: false } })
POST /uagv/v2/KIT/0001/state {"velocity":0.5,"orderId":"","orderUpdateId":0,"lastNodeId":"","lastNodeSequenceId":0,"operatingMode":"MANUAL","nodeStates":[],"actionStates":[],"errors":[],"safetyState":{"eStop":"NONE"}} => Err(Refused(Fraction))
POST /uagv/v2/KIT/0001/state {"velocity":{},"orderId":"","orderUpdateId":0,"lastNodeId":"","lastNodeSequenceId":0,"operatingMode":"MANUAL","nodeStates":[],"actionStates":[],"errors":[],"safetyState":{"eStop":"NONE"}} => Err(Refused(Position))
POST /uagv/v2/KIT/0001/state {"velocity":{},"headerId":"1","timestamp":"now","version":"1.0.0","manufacturer":"X","serialNumber":"0001","orderId":"","orderUpdateId":0,"lastNodeId":"","lastNodeSequenceId":0,"operatingMode":"MANUAL","nodeStates":[],"actionStates":[],"errors":[],"safetyState":{"eStop":"NONE"}} => Err(Refused(Position))
POST /uagv/v2/KIT/0001/state {"headerId":"1","timestamp":"now","version":"1.0.0","manufacturer":"X","serialNumber":"0001","orderId":"","orderUpdateId":0,"lastNodeId":"","lastNodeSequenceId":0,"operatingMode":"MANUAL","nodeStates":[],"actionStates":[],"errors":[],"safetyState":{"eStop":"NONE"}} => Err(Refused(BadBody))
POST /uagv/v2/KIT/0001/state {"headerId":1,"timestamp":"now","version":"1.0.0","manufacturer":"X","serialNumber":"0001","orderId":"","orderUpdateId":0,"lastNodeId":"","lastNodeSequenceId":0,"operatingMode":"MANUAL","nodeStates":[],"actionStates":[],"errors":[],"safetyState":{"eStop":"NONE"}} => Err(Refused(Version))
POST /uagv/v2/KIT/0001/state {"headerId":1,"timestamp":"now","version":"2.0.0","manufacturer":"X","serialNumber":"0001","orderId":"","orderUpdateId":0,"lastNodeId":"","lastNodeSequenceId":0,"operatingMode":"MANUAL","nodeStates":[],"actionStates":[],"errors":[],"safetyState":{"eStop":"NONE"}} => Err(Refused(BadTimestamp))
POST /uagv/v2/KIT/0001/state {"headerId":1,"timestamp":"2023-11-14T22:13:19.50Z","version":"2.0.0","manufacturer":"X","serialNumber":"0001","orderId":"","orderUpdateId":0,"lastNodeId":"","lastNodeSequenceId":0,"operatingMode":"MANUAL","nodeStates":[],"actionStates":[],"errors":[],"safetyState":{"eStop":"NONE"}} => Err(Refused(WrongVehicle))
POST /uagv/v2/KIT/0001/state {"headerId":1,"timestamp":"2023-11-14T22:13:19.50Z","version":"2.0.0","manufacturer":"KIT","serialNumber":"1","orderId":"","orderUpdateId":0,"lastNodeId":"","lastNodeSequenceId":0,"operatingMode":"MANUAL","nodeStates":[],"actionStates":[],"errors":[],"safetyState":{"eStop":"NONE"}} => Err(Refused(WrongVehicle))
POST /uagv/v2/KIT/0001/state {"agvPosition":{}} => Err(Refused(Position))
"#;

/// Bodies that aren't JSON, have a number with a fraction, or aren't an object with the required members, in this
/// order; and the stops of an order, which gives its job or its stops and never both.
const BODIES: &str = r#"POST /loads  => Err(Refused(BadJson))
POST /loads   => Err(Refused(BadJson))
POST /loads { => Err(Refused(BadJson))
POST /loads {} => Err(Refused(BadBody))
POST /loads {}{} => Err(Refused(BadJson))
POST /loads {}  => Err(Refused(BadBody))
POST /loads [] => Err(Refused(BadBody))
POST /loads null => Err(Refused(BadBody))
POST /loads true => Err(Refused(BadBody))
POST /loads 1 => Err(Refused(BadBody))
POST /loads "L1" => Err(Refused(BadBody))
POST /loads 1.5 => Err(Refused(Fraction))
POST /loads [1.5] => Err(Refused(Fraction))
POST /loads {"a":{"b":[1,1e2]}} => Err(Refused(Fraction))
POST /loads {"a":1.5 => Err(Refused(BadJson))
POST /loads [1.5,] => Err(Refused(BadJson))
POST /loads 'L1' => Err(Refused(BadJson))
POST /loads station,load => Err(Refused(BadJson))
POST /loads {"load":"L1","a":1.0} => Err(Refused(Fraction))
POST /loads {"load":"a/b"} => Err(Refused(BadBody))
POST /loads {"load":["L1"]} => Err(Refused(BadBody))
POST /loads {"load":"ä"} => Err(Refused(BadBody))
POST /loads {"load":"abcdefghijklmnopqrstuvwxyz_.:-789"} => Err(Refused(BadBody))
POST /orders {"order":"O1","job":"J1","stops":[],"manufacturer":"KIT","serialNumber":"0001","edges":0} => Err(Refused(BadBody))
POST /orders {"order":"O1","x":1,"manufacturer":"KIT","serialNumber":"0001","edges":0} => Err(Refused(BadBody))
POST /orders {"order":"O1","stops":true,"manufacturer":"KIT","serialNumber":"0001","edges":0} => Err(Refused(BadBody))
POST /orders {"order":"O1","stops":{},"manufacturer":"KIT","serialNumber":"0001","edges":0} => Err(Refused(BadBody))
POST /orders {"order":"O1","stops":"pick","manufacturer":"KIT","serialNumber":"0001","edges":0} => Err(Refused(BadBody))
POST /orders {"order":"O1","stops":[null],"manufacturer":"KIT","serialNumber":"0001","edges":0} => Err(Refused(BadBody))
POST /orders {"order":"O1","stops":[1],"manufacturer":"KIT","serialNumber":"0001","edges":0} => Err(Refused(BadBody))
POST /orders {"order":"O1","stops":[[]],"manufacturer":"KIT","serialNumber":"0001","edges":0} => Err(Refused(BadBody))
POST /orders {"order":"O1","stops":[{}],"manufacturer":"KIT","serialNumber":"0001","edges":0} => Err(Refused(BadBody))
POST /orders {"order":"O1","stops":[{"action":"drop"}],"manufacturer":"KIT","serialNumber":"0001","edges":0} => Err(Refused(BadBody))
POST /orders {"order":"O1","stops":[{"job":"J1"}],"manufacturer":"KIT","serialNumber":"0001","edges":0} => Err(Refused(BadBody))
POST /orders {"order":"O1","stops":[{"action":"drop","job":null}],"manufacturer":"KIT","serialNumber":"0001","edges":0} => Err(Refused(BadBody))
POST /orders {"order":"O1","stops":[{"action":"drop","job":""}],"manufacturer":"KIT","serialNumber":"0001","edges":0} => Err(Refused(BadBody))
POST /orders {"order":"O1","stops":[{"action":null,"job":"J1"}],"manufacturer":"KIT","serialNumber":"0001","edges":0} => Err(Refused(BadBody))
POST /orders {"order":"O1","stops":[{"action":"DROP","job":"J1"}],"manufacturer":"KIT","serialNumber":"0001","edges":0} => Err(Refused(BadBody))
POST /orders {"order":"O1","stops":[{"action":"move","job":"J1"}],"manufacturer":"KIT","serialNumber":"0001","edges":0} => Err(Refused(BadBody))
POST /orders {"order":"O1","stops":[{"action":"drop","job":"J1"},{"action":"","job":"J1"}],"manufacturer":"KIT","serialNumber":"0001","edges":0} => Err(Refused(BadBody))
"#;

/// Each member of each command, missing and with a wrong value.
const MEMBERS: &str =
    r#"POST /vehicles {"serialNumber":"0001","node":"N1","capacity":2} => Err(Refused(BadBody))
POST /vehicles {"manufacturer":null,"serialNumber":"0001","node":"N1","capacity":2} => Err(Refused(BadBody))
POST /vehicles {"manufacturer":"KIT","node":"N1","capacity":2} => Err(Refused(BadBody))
POST /vehicles {"manufacturer":"KIT","serialNumber":1,"node":"N1","capacity":2} => Err(Refused(BadBody))
POST /vehicles {"manufacturer":"KIT","serialNumber":"0001","capacity":2} => Err(Refused(BadBody))
POST /vehicles {"manufacturer":"KIT","serialNumber":"0001","node":"","capacity":2} => Err(Refused(BadBody))
POST /vehicles {"manufacturer":"KIT","serialNumber":"0001","node":"N1","capacity":"1"} => Err(Refused(BadBody))
POST /vehicles {"manufacturer":"KIT","serialNumber":"0001","node":"N1","capacity":4294967296} => Err(Refused(BadBody))
POST /loads {"station":"A"} => Err(Refused(BadBody))
POST /loads {"load":"a b","station":"A"} => Err(Refused(BadBody))
POST /loads {"load":"L1","station":1} => Err(Refused(BadBody))
POST /loads {"load":"L1","station":""} => Err(Refused(BadBody))
POST /loads/L1/correct {"station":"A"} => Err(Refused(BadBody))
POST /loads/L1/correct {"ref":null,"station":"A"} => Err(Refused(BadBody))
POST /loads/L1/correct {"ref":"R1","station":1} => Err(Refused(BadBody))
POST /loads/L1/correct {"ref":"R1","station":"a b"} => Err(Refused(BadBody))
POST /loads/L1/leave {} => Err(Refused(BadBody))
POST /loads/L1/leave {"ref":1} => Err(Refused(BadBody))
POST /jobs {"load":"L1","to":"B"} => Err(Refused(BadBody))
POST /jobs {"job":"","load":"L1","to":"B"} => Err(Refused(BadBody))
POST /jobs {"job":"J1","to":"B"} => Err(Refused(BadBody))
POST /jobs {"job":"J1","load":"a b","to":"B"} => Err(Refused(BadBody))
POST /jobs {"job":"J1","load":"L1"} => Err(Refused(BadBody))
POST /jobs {"job":"J1","load":"L1","to":null} => Err(Refused(BadBody))
POST /orders {"job":"J1","manufacturer":"KIT","serialNumber":"0001","edges":1} => Err(Refused(BadBody))
POST /orders {"order":1,"job":"J1","manufacturer":"KIT","serialNumber":"0001","edges":1} => Err(Refused(BadBody))
POST /orders {"order":"O1","manufacturer":"KIT","serialNumber":"0001","edges":1} => Err(Refused(BadBody))
POST /orders {"order":"O1","job":"","manufacturer":"KIT","serialNumber":"0001","edges":1} => Err(Refused(BadBody))
POST /orders {"order":"O1","job":"J1","serialNumber":"0001","edges":1} => Err(Refused(BadBody))
POST /orders {"order":"O1","job":"J1","manufacturer":"a b","serialNumber":"0001","edges":1} => Err(Refused(BadBody))
POST /orders {"order":"O1","job":"J1","manufacturer":"KIT","edges":1} => Err(Refused(BadBody))
POST /orders {"order":"O1","job":"J1","manufacturer":"KIT","serialNumber":null,"edges":1} => Err(Refused(BadBody))
POST /orders {"order":"O1","job":"J1","manufacturer":"KIT","serialNumber":"0001"} => Err(Refused(BadBody))
POST /orders {"order":"O1","job":"J1","manufacturer":"KIT","serialNumber":"0001","edges":null} => Err(Refused(BadBody))
POST /drives {"manufacturer":"KIT","serialNumber":"0001","to":"N7","edges":1} => Err(Refused(BadBody))
POST /drives {"order":"O 1","manufacturer":"KIT","serialNumber":"0001","to":"N7","edges":1} => Err(Refused(BadBody))
POST /drives {"order":"O1","serialNumber":"0001","to":"N7","edges":1} => Err(Refused(BadBody))
POST /drives {"order":"O1","manufacturer":1,"serialNumber":"0001","to":"N7","edges":1} => Err(Refused(BadBody))
POST /drives {"order":"O1","manufacturer":"KIT","to":"N7","edges":1} => Err(Refused(BadBody))
POST /drives {"order":"O1","manufacturer":"KIT","serialNumber":"","to":"N7","edges":1} => Err(Refused(BadBody))
POST /drives {"order":"O1","manufacturer":"KIT","serialNumber":"0001","edges":1} => Err(Refused(BadBody))
POST /drives {"order":"O1","manufacturer":"KIT","serialNumber":"0001","to":null,"edges":1} => Err(Refused(BadBody))
POST /drives {"order":"O1","manufacturer":"KIT","serialNumber":"0001","to":"N7"} => Err(Refused(BadBody))
POST /drives {"order":"O1","manufacturer":"KIT","serialNumber":"0001","to":"N7","edges":-1} => Err(Refused(BadBody))
POST /vehicles/KIT/0001/advance {"orderUpdateId":1,"edges":1} => Err(Refused(BadBody))
POST /vehicles/KIT/0001/advance {"order":1,"orderUpdateId":1,"edges":1} => Err(Refused(BadBody))
POST /vehicles/KIT/0001/advance {"order":"O1","edges":1} => Err(Refused(BadBody))
POST /vehicles/KIT/0001/advance {"order":"O1","orderUpdateId":"1","edges":1} => Err(Refused(BadBody))
POST /vehicles/KIT/0001/advance {"order":"O1","orderUpdateId":1} => Err(Refused(BadBody))
POST /vehicles/KIT/0001/advance {"order":"O1","orderUpdateId":1,"edges":4294967296} => Err(Refused(BadBody))
POST /vehicles/KIT/0001/place {"node":"N2"} => Err(Refused(BadBody))
POST /vehicles/KIT/0001/place {"ref":"","node":"N2"} => Err(Refused(BadBody))
POST /vehicles/KIT/0001/place {"ref":"R1"} => Err(Refused(BadBody))
POST /vehicles/KIT/0001/place {"ref":"R1","node":"a b"} => Err(Refused(BadBody))
"#;

#[test]
fn bodies_say_calls(rt: HostRuntime) {
    let routes = Routes::new(rt.alloc()).expect(&rt, "memory");
    check_calls(&rt, rt.alloc(), &routes, CALLS);
    check_calls(&rt, rt.alloc(), &routes, STATES);
}

#[test]
fn bodies_are_refused(rt: HostRuntime) {
    let routes = Routes::new(rt.alloc()).expect(&rt, "memory");
    check_calls(&rt, rt.alloc(), &routes, BODIES);
    check_calls(&rt, rt.alloc(), &routes, MEMBERS);
    let found = call_at(
        &rt,
        rt.alloc(),
        &routes,
        "POST /loads",
        b"{\"load\":\"\xff\"}",
    );
    check_text(&rt, found.as_str(), "Err(Refused(BadJson))", "no text");
}
