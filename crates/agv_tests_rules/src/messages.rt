//! State messages, after the field lists of VDA 5050 2.0 ("state"), and the texts of instant actions. The expected
//! values are written by hand, after the formats and the public standard.

use crate::cases::{check, check_text, kit, number, parts, row, shown, word};
use agv_header::Moment;
use agv_message::{
    BodyFault, Header, InstantKind, InstantMessage, StateMessage, Status, instant_text, read_body,
    read_state,
};
use std::alloc::Global;
use std::process::Abort;
use std::str;

/// A state of the vehicle KIT/0001 without an order at N1.
pub(crate) const STATE: &str =
    r#"{"headerId":1,"timestamp":"2023-11-14T22:13:19.50Z","version":"2.0.0","manufacturer":"KIT","serialNumber":"0001","orderId":"","orderUpdateId":0,"lastNodeId":"N1","lastNodeSequenceId":0,"driving":false,"nodeStates":[],"edgeStates":[],"actionStates":[],"batteryState":{"batteryCharge":80,"charging":false},"operatingMode":"AUTOMATIC","errors":[],"safetyState":{"eStop":"NONE","fieldViolation":false}}"#;

/// Reads a state, or returns why the text is none.
pub(crate) fn state_of(alloc: Global, text: &str) -> Result<StateMessage, BodyFault> {
    match read_body(alloc, text.as_bytes()) {
        Ok(body) => read_state(alloc, &body),
        Err(fault) => Err(fault),
    }
}

/// Returns the name of the refusal, or `read` if there is no fault.
fn fault_name(fault: Option<BodyFault>) -> &'static str {
    match fault {
        None => "read",
        Some(BodyFault::Refused(refusal)) => refusal.name(),
        Some(BodyFault::Memory) => "an allocation failed",
    }
}

/// Replaces one part of a text; the change has the old part, a bar and the new part.
pub(crate) fn changed(rt: &impl Abort, alloc: Global, text: &str, change: &str) -> String {
    let (old, new) = parts(rt, change, "|");
    let (before, after) = parts(rt, text, old);
    format!(in alloc; "{before}{new}{after}").expect(rt, "memory")
}

/// Returns this many nested lists.
fn nested(rt: &impl Abort, alloc: Global, depth: usize) -> String {
    let open = "[".repeat(alloc, depth).expect(rt, "memory");
    let close = "]".repeat(alloc, depth).expect(rt, "memory");
    format!(in alloc; "{open}{close}").expect(rt, "memory")
}

/// Returns whether the vehicle is ready and whether it is paused, in a state with one part changed.
fn readiness(rt: &impl Abort, alloc: Global, change: &str) -> String {
    let text = changed(rt, alloc, STATE, change);
    let state = state_of(alloc, text.as_str()).expect(rt, change);
    shown(rt, alloc, &(state.ready, state.paused))
}

/// Returns a status and its name.
fn status(rt: &impl Abort, alloc: Global, text: &str) -> String {
    match Status::of(text) {
        Some(status) => shown(rt, alloc, &(status, status.name())),
        None => shown(rt, alloc, &text),
    }
}

/// Returns the header of a message with this number to KIT/0001.
pub(crate) fn header(rt: &impl Abort, number: u32) -> Header {
    Header {
        number,
        at: Moment::of(1_700_000_000_000).expect(rt, "a moment"),
        key: kit(rt, "0001"),
    }
}

/// Returns the text of an instantActions message with this number and kind.
fn instant(rt: &impl Abort, alloc: Global, text: &str) -> String {
    let kind = match word(rt, text, 1) {
        "cancelOrder" => InstantKind::CancelOrder,
        "startPause" => InstantKind::StartPause,
        _ => InstantKind::StopPause,
    };
    let header = header(rt, number(rt, word(rt, text, 0)));
    let bytes = instant_text(alloc, &header, &InstantMessage { kind }).expect(rt, "memory");
    String::from_str(alloc, str::from_utf8(&bytes).expect(rt, text)).expect(rt, "memory")
}

/// Returns the name of the refusal of a body, or `read`.
fn body_fault(alloc: Global, text: &str) -> &'static str {
    fault_name(read_body(alloc, text.as_bytes()).err())
}

/// Returns the name of the refusal of a state, or `read`.
fn state_fault(alloc: Global, text: &str) -> &'static str {
    fault_name(state_of(alloc, text).err())
}

/// Returns the answer of a call of this name.
fn answer(rt: &impl Abort, alloc: Global, call: &str, text: &str) -> String {
    match call {
        "state" => shown(rt, alloc, &state_of(alloc, text)),
        "ready" => readiness(rt, alloc, text),
        "status" => status(rt, alloc, text),
        "instant" => instant(rt, alloc, text),
        _ => {
            let fault = fault(rt, alloc, call, text);
            String::from_str(alloc, fault).expect(rt, "memory")
        }
    }
}

/// Returns the name of the refusal of a text, or `read`.
fn fault(rt: &impl Abort, alloc: Global, call: &str, text: &str) -> &'static str {
    match call {
        "body" => body_fault(alloc, text),
        "nested" => body_fault(alloc, nested(rt, alloc, number(rt, text) as usize).as_str()),
        "change" => state_fault(alloc, changed(rt, alloc, STATE, text).as_str()),
        _ => state_fault(alloc, text),
    }
}

/// Each member of a state without an order, of one under way with two nodes ahead and an action done, and of one with
/// an action of each status; the readiness of the vehicle in a state; statuses; and instant actions.
const READ: &str =
    r#"state {"headerId":1,"timestamp":"2023-11-14T22:13:19.50Z","version":"2.0.0","manufacturer":"KIT","serialNumber":"0001","orderId":"","orderUpdateId":0,"lastNodeId":"N1","lastNodeSequenceId":0,"driving":false,"nodeStates":[],"edgeStates":[],"actionStates":[],"batteryState":{"batteryCharge":80,"charging":false},"operatingMode":"AUTOMATIC","errors":[],"safetyState":{"eStop":"NONE","fieldViolation":false}} => Ok(StateMessage { header_id: 1, at: Moment { ms: 1699999999500 }, manufacturer: Text { text: "KIT" }, serial: Text { text: "0001" }, order_id: Text { text: "" }, update: 0, last_node: Text { text: "N1" }, last_seq: 0, node_seqs: Sequence { kept: [] }, actions: Sequence { kept: [] }, ready: true, paused: false })
state {"headerId":1207,"timestamp":"2024-02-29T06:14:07.5Z","version":"2.0.0","manufacturer":"ACME","serialNumber":"agv-17","orderId":"order-311","orderUpdateId":2,"zoneSetId":"night","lastNodeId":"n4","lastNodeSequenceId":6,"driving":true,"paused":false,"newBaseRequest":true,"distanceSinceLastNode":3,"operatingMode":"AUTOMATIC","nodeStates":[{"nodeId":"n5","sequenceId":8,"nodeDescription":"gate","released":true},{"nodeId":"n9","sequenceId":10,"released":false}],"edgeStates":[{"edgeId":"e45","sequenceId":7,"edgeDescription":"ramp","released":true},{"edgeId":"e59","sequenceId":9,"released":false}],"actionStates":[{"actionId":"order-311.0","actionType":"pick","actionDescription":"from rack 3","actionStatus":"FINISHED","resultDescription":"ok"},{"actionId":"order-311.1","actionType":"drop","actionStatus":"WAITING"}],"loads":[{"loadId":"P-8","loadType":"EPAL","weight":212}],"batteryState":{"batteryCharge":64,"batteryVoltage":48,"batteryHealth":97,"charging":false,"reach":5400},"errors":[],"information":[],"safetyState":{"eStop":"NONE","fieldViolation":false}} => Ok(StateMessage { header_id: 1207, at: Moment { ms: 1709187247500 }, manufacturer: Text { text: "ACME" }, serial: Text { text: "agv-17" }, order_id: Text { text: "order-311" }, update: 2, last_node: Text { text: "n4" }, last_seq: 6, node_seqs: Sequence { kept: [8, 10] }, actions: Sequence { kept: [(Text { text: "order-311.0" }, Finished), (Text { text: "order-311.1" }, Waiting)] }, ready: true, paused: false })
state {"headerId":10,"timestamp":"2024-02-29T06:14:09Z","version":"2.0.0","manufacturer":"ACME","serialNumber":"agv-17","orderId":"o","orderUpdateId":0,"lastNodeId":"n1","lastNodeSequenceId":0,"driving":false,"operatingMode":"AUTOMATIC","nodeStates":[],"edgeStates":[],"actionStates":[{"actionId":"a","actionStatus":"WAITING"},{"actionId":"b","actionStatus":"INITIALIZING"},{"actionId":"c","actionStatus":"RUNNING"},{"actionId":"d","actionStatus":"PAUSED"},{"actionId":"e","actionStatus":"FINISHED"},{"actionId":"größe","actionStatus":"FAILED"}],"batteryState":{"batteryCharge":64,"charging":false},"errors":[],"safetyState":{"eStop":"NONE","fieldViolation":false}} => Ok(StateMessage { header_id: 10, at: Moment { ms: 1709187249000 }, manufacturer: Text { text: "ACME" }, serial: Text { text: "agv-17" }, order_id: Text { text: "o" }, update: 0, last_node: Text { text: "n1" }, last_seq: 0, node_seqs: Sequence { kept: [] }, actions: Sequence { kept: [(Text { text: "a" }, Waiting), (Text { text: "b" }, Initializing), (Text { text: "c" }, Running), (Text { text: "d" }, Paused), (Text { text: "e" }, Finished), (Text { text: "größe" }, Failed)] }, ready: true, paused: false })
ready "AUTOMATIC"|"SEMIAUTOMATIC" => (true, false)
ready "AUTOMATIC"|"MANUAL" => (false, false)
ready "AUTOMATIC"|"SERVICE" => (false, false)
ready "AUTOMATIC"|"TEACHIN" => (false, false)
ready "AUTOMATIC"|"automatic" => (false, false)
ready "NONE"|"AUTOACK" => (false, false)
ready "NONE"|"MANUAL" => (false, false)
ready "NONE"|"REMOTE" => (false, false)
ready "errors":[]|"errors":[{"errorLevel":"WARNING"}] => (true, false)
ready "errors":[]|"errors":[{"errorLevel":"FATAL"},{"errorLevel":"WARNING"}] => (false, false)
ready "driving":false|"paused":true => (true, true)
ready "driving":false|"paused":false => (true, false)
ready "driving":false|"paused":null => (true, false)
status WAITING => (Waiting, "WAITING")
status INITIALIZING => (Initializing, "INITIALIZING")
status RUNNING => (Running, "RUNNING")
status PAUSED => (Paused, "PAUSED")
status FINISHED => (Finished, "FINISHED")
status FAILED => (Failed, "FAILED")
status waiting => "waiting"
instant 1 cancelOrder => {"actions":[{"actionId":"instant-1","actionParameters":[],"actionType":"cancelOrder","blockingType":"HARD"}],"headerId":1,"manufacturer":"KIT","serialNumber":"0001","timestamp":"2023-11-14T22:13:20.00Z","version":"2.0.0"}
instant 2 startPause => {"actions":[{"actionId":"instant-2","actionParameters":[],"actionType":"startPause","blockingType":"HARD"}],"headerId":2,"manufacturer":"KIT","serialNumber":"0001","timestamp":"2023-11-14T22:13:20.00Z","version":"2.0.0"}
instant 4294967295 stopPause => {"actions":[{"actionId":"instant-4294967295","actionParameters":[],"actionType":"stopPause","blockingType":"HARD"}],"headerId":4294967295,"manufacturer":"KIT","serialNumber":"0001","timestamp":"2023-11-14T22:13:20.00Z","version":"2.0.0"}
"#;

/// Bodies, and states with one part changed: absent, null and of the wrong kind. Positions are refused whatever else is
/// wrong, and fractions before all else; the version comes before the timestamp; the last of two members with one name
/// counts. The last two are an order and instant actions, which are no states.
const REFUSED: &str = r#"body {"a":1} => read
body -9223372036854775808 => read
body 18446744073709551615 => read
body {"a":1.0} => Fraction
body {"a":1e0} => Fraction
body -0.0 => Fraction
body -0 => Fraction
body 18446744073709551616 => Fraction
body -9223372036854775809 => Fraction
body {"x":[1,{"y":[[2,{"z":1e0}]]}]} => Fraction
body {"x":[1,{"y":[[2,{"z":-0.0}]]}]} => Fraction
body {"x":[1,{"y":[[2,18446744073709551616]]}]} => Fraction
body {"a": => BadJson
body  => BadJson
body {"a":1.} => BadJson
body {"a":01} => BadJson
body 1e400 => BadJson
body {"a":1.5,"a":1} => read
body {} {} => BadJson
nested 127 => read
nested 128 => BadJson
change "errors":[],| => BadBody
change "errors":[]|"errors":null => BadBody
change "errors":[]|"errors":{} => BadBody
change "errors":[]|"errors":[{"errorType":"x"}] => BadBody
change "errors":[]|"errors":[{"errorType":"batteryLow","errorLevel":"WARNING","errorDescription":"below 10 %","errorReferences":[{"referenceKey":"nodeId","referenceValue":"n1"}]}],"information":[{"infoType":"lidar","infoLevel":"DEBUG"}],"acmeFork":{"height":120,"position":{"x":1,"y":2}} => read
change "headerId":1|"headerId":4294967295 => read
change "headerId":1|"headerId":4294967296 => BadBody
change "headerId":1|"headerId":-1 => BadBody
change "headerId":1|"headerId":"1" => BadBody
change "orderId":""|"orderId":null => BadBody
change "nodeStates":[]|"nodeStates":[{}] => BadBody
change "nodeStates":[]|"nodeStates":[2] => BadBody
change "nodeStates":[]|"nodeStates":[{"sequenceId":2}] => read
change "nodeStates":[]|"nodeStates":[{"sequenceId":2,"nodePosition":null}] => read
change "actionStates":[]|"actionStates":[{"actionId":"O.0","actionStatus":"DONE"}] => BadBody
change "actionStates":[]|"actionStates":[{"actionId":0,"actionStatus":"FAILED"}] => BadBody
change "eStop":"NONE"|"eStop":null => BadBody
change "eStop":"NONE",| => BadBody
change "driving":false,| => read
change "edgeStates":[],| => read
change "edgeStates":[]|"edgeStates":null => read
change "driving":false|"paused":0 => BadBody
change "driving":false|"agvPosition":null,"velocity":null => read
change "driving":false|"loads":[{"loadId":"P-8","loadPosition":"front","boundingBoxReference":{"x":0,"y":0,"z":1,"theta":0}}] => read
change "driving":false|"agvPosition":{"x":12,"y":3,"theta":0,"mapId":"hall 2","positionInitialized":true} => Position
change "driving":false|"agvPosition":{"x":12.25,"y":3.5,"theta":0.1,"mapId":"hall 2"} => Fraction
change "driving":false|"agvPosition":{} => Position
change "errors":[]|"velocity":0 => Position
change "driving":false|"velocity":{"vx":0,"vy":0,"omega":0} => Position
change "nodeStates":[]|"nodeStates":[{"nodePosition":{}}] => Position
change "nodeStates":[]|"nodeStates":[{"sequenceId":2},{"sequenceId":4,"nodePosition":{"x":1,"y":2,"theta":0,"mapId":"hall 2"}}] => Position
change "nodeStates":[]|"nodeStates":{"nodePosition":{}} => BadBody
change "edgeStates":[]|"edgeStates":[0,{"trajectory":[]}] => Position
change "edgeStates":[]|"edgeStates":[{"edgeId":"e12","sequenceId":1,"trajectory":{"degree":1,"knotVector":[0,0,1,1]}}] => Position
change "edgeStates":[]|"edgeStates":[{"nodePosition":{}}] => read
change "batteryCharge":80|"batteryCharge":80.5 => Fraction
change "2.0.0"|"1.1.0" => Version
change "2.0.0"|"20.0.0" => Version
change "2.0.0"|"2" => Version
change "2.0.0"|"2.1.0" => read
change "2023-11-14T22:13:19.50Z"|"now" => BadTimestamp
change "2023-11-14T22:13:19.50Z","version":"2.0.0"|"now","version":"1.1" => Version
change 2023-11-14|2023-02-31 => BadTimestamp
change 2023-11-14|2100-01-01 => BadTimestamp
change "headerId":1|"headerId":"x","headerId":2 => read
change "headerId":1|"headerId":2,"headerId":"x" => BadBody
no [] => BadBody
no null => BadBody
no 7 => BadBody
no "" => BadBody
no {"headerId":1,"timestamp":"2024-02-29T06:00:00.00Z","version":"2.0.0","manufacturer":"ACME","serialNumber":"agv-17","orderId":"order-311","orderUpdateId":0,"nodes":[{"nodeId":"n1","sequenceId":0,"released":true,"nodePosition":{"x":1,"y":2,"mapId":"hall 2"},"actions":[]}],"edges":[]} => BadBody
no {"headerId":1,"timestamp":"2024-02-29T06:00:00.00Z","version":"2.0.0","manufacturer":"ACME","serialNumber":"agv-17","actions":[{"actionType":"cancelOrder","actionId":"instant-1","blockingType":"HARD"}]} => BadBody
"#;

/// Checks the answer of each line of a table.
fn check_rows(rt: &impl Abort, alloc: Global, table: &str) {
    for line in table.lines() {
        let (question, wanted) = row(rt, line);
        let (call, text) = parts(rt, question, " ");
        let found = answer(rt, alloc, call, text);
        check_text(rt, found.as_str(), wanted, question);
    }
}

#[test]
fn messages_are_read(rt: HostRuntime) {
    check_rows(&rt, rt.alloc(), READ);
}

#[test]
fn messages_are_refused(rt: HostRuntime) {
    check_rows(&rt, rt.alloc(), REFUSED);
    let found = fault_name(read_body(rt.alloc(), b"\"\xff\"").err());
    check_text(&rt, found, "BadJson", "no text");
}

/// Returns a state with 1,001 copies of the item in a list that was empty.
fn filled(rt: &impl Abort, alloc: Global, state: &str, list: &str, item: &str) -> String {
    let most = format!(in alloc; "{item},").expect(rt, "memory");
    let most = most.repeat(alloc, 1000).expect(rt, "memory");
    let change = format!(in alloc; "\"{list}\":[]|\"{list}\":[{most}{item}]");
    changed(rt, alloc, state, change.expect(rt, "memory").as_str())
}

/// Returns how many nodes ahead and how many actions are read from a state.
fn lengths(rt: &impl Abort, alloc: Global, text: &str) -> (usize, usize) {
    let state = state_of(alloc, text).expect(rt, "a state");
    (state.node_seqs.len(), state.actions.len())
}

/// A state of more than 60,000 bytes.
#[test]
fn the_largest_state_is_read(rt: HostRuntime) {
    let nodes = filled(&rt, rt.alloc(), STATE, "nodeStates", r#"{"sequenceId":4}"#);
    let action = r#"{"actionId":"O1.0","actionStatus":"RUNNING"}"#;
    let text = filled(&rt, rt.alloc(), nodes.as_str(), "actionStates", action);
    check(&rt, 60_000 < text.len(), "the size");
    let found = lengths(&rt, rt.alloc(), text.as_str());
    check(&rt, found == (1001, 1001), "the lists");
}
