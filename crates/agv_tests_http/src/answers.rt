//! The bytes of answers, worked out by hand. A line has the status, the type, a header line that not every answer has,
//! and the body; `~` is CR LF.

use crate::cases::{check, check_text, name, part, row, unmarked};
use agv_desk::{Answer, Report};
use agv_face_http::{answer_bytes, memory_answer, put_answer, storage_answer};
use agv_header::{Name, Refusal, Thing, VehicleKey, Verb};
use agv_message::Sequence;
use agv_stock::{Phase, Place};
use agv_world_core::{Carrier, JobRow};
use std::alloc::Global;
use std::process::Abort;
use std::str;

/// Compares bytes with the expected text.
fn check_bytes(rt: &impl Abort, found: &[u8], wanted: &str) {
    let text = str::from_utf8(found).expect(rt, wanted);
    check_text(rt, text, wanted, "an answer");
}

/// What the buffer has before an answer.
const BEFORE: &str = "the answer before";

/// Appends the answer to another in a buffer of this capacity, and compares.
fn check_put(
    rt: &impl Abort,
    alloc: Global,
    answer: &Answer,
    close: bool,
    buffer: usize,
    wanted: &str,
) {
    let mut out = Vec::with_capacity(alloc, buffer).expect(rt, "memory");
    out.extend_from_slice(BEFORE.as_bytes())
        .expect(rt, "memory");
    put_answer(answer, close, &mut out).expect(rt, "memory");
    let whole = format!(in alloc; "{BEFORE}{wanted}").expect(rt, "memory");
    check_bytes(rt, &out, whole.as_str());
}

/// Checks the answer written alone, and after another in a buffer that fits both, in one that is a byte too short, and
/// in one without capacity.
fn check_written(rt: &impl Abort, alloc: Global, answer: &Answer, close: bool, wanted: &str) {
    let found = answer_bytes(alloc, answer, close).expect(rt, "memory");
    check_bytes(rt, &found, wanted);
    let len = BEFORE.len().saturating_add(wanted.len());
    for buffer in [len, len.saturating_sub(1), 0] {
        check_put(rt, alloc, answer, close, buffer, wanted);
    }
}

/// Returns the expected text of the answer that a line describes; `close` is the `Connection` line, if the stream ends.
fn text_of(rt: &impl Abort, alloc: Global, line: &str, close: &str) -> String {
    let body = part(rt, line, '|', 3);
    let len = body.len();
    let status = part(rt, line, '|', 0);
    let kind = part(rt, line, '|', 1);
    let more = part(rt, line, '|', 2);
    let text = format!(in alloc;
        "HTTP/1.1 {status}~Content-Length: {len}~Content-Type: {kind}~{more}{close}~"
    );
    let mut head = unmarked(rt, alloc, text.expect(rt, "memory").as_str(), '~', "\r\n");
    head.push_str(body).expect(rt, "memory");
    head
}

/// Checks an answer after which the stream goes on, and one after which it ends.
fn check_answer(rt: &impl Abort, alloc: Global, answer: &Answer, line: &str) {
    let open = text_of(rt, alloc, line, "");
    check_written(rt, alloc, answer, false, open.as_str());
    let last = text_of(rt, alloc, line, "Connection: close~");
    check_written(rt, alloc, answer, true, last.as_str());
}

/// Returns the answer for a load at the checking place that has no job.
fn checked(load: Name) -> Answer {
    let place = Place::Checking;
    let job = None;
    Answer::Load { load, place, job }
}

/// Returns the answer for a job of L1 from A to B that waits; or rides, if a vehicle carries it out.
fn told_job(job: Name, load: Name, origin: Name, target: Name, carrier: Option<Carrier>) -> Answer {
    let phase = match carrier {
        None => Phase::Waiting,
        Some(_) => Phase::Riding,
    };
    let row = JobRow {
        load,
        origin,
        target,
        phase,
    };
    Answer::Job { job, row, carrier }
}

/// Returns the answer for a job of L1 from A to B that KIT/0001 carries out by this order, or that waits.
fn job(rt: &impl Abort, named: Name, order: Option<Name>) -> Answer {
    let vehicle = VehicleKey {
        manufacturer: name(rt, "KIT"),
        serial: name(rt, "0001"),
    };
    let carrier = match order {
        None => None,
        Some(order) => Some(Carrier { vehicle, order }),
    };
    told_job(named, name(rt, "L1"), name(rt, "A"), name(rt, "B"), carrier)
}

/// Returns a report whose text is `a report`.
fn reported(rt: &impl Abort, alloc: Global, report: Report) -> Answer {
    let text = Vec::from_slice(alloc, b"a report").expect(rt, "memory");
    Answer::Report {
        report,
        text: Sequence::from(text),
    }
}

/// Returns the answer of this name; after the name is its number, its truth value or its load.
fn answer(rt: &impl Abort, alloc: Global, text: &str) -> Answer {
    let more = part(rt, text, ' ', 1);
    match part(rt, text, ' ', 0) {
        "done" => Answer::Done,
        "update" => Answer::Update(more.parse::<u32>().expect(rt, text)),
        "instructed" => Answer::Instructed(more.parse::<u32>().expect(rt, text)),
        "accepted" => Answer::Accepted(more == "true"),
        "load" => checked(name(rt, more)),
        "job" => job(rt, name(rt, more), None),
        "riding" => job(rt, name(rt, more), Some(name(rt, "O1"))),
        "stock" => reported(rt, alloc, Report::Stock),
        "holds" => reported(rt, alloc, Report::Holds),
        "jobs" => reported(rt, alloc, Report::Jobs),
        "vehicles" => reported(rt, alloc, Report::Vehicles),
        "layout" => reported(rt, alloc, Report::Layout),
        _ => reported(rt, alloc, Report::Loads),
    }
}

const SHORT: &str = r#"done - => 200 OK|application/json||{}
update 4294967295 => 200 OK|application/json||{"orderUpdateId":4294967295}
update 0 => 200 OK|application/json||{"orderUpdateId":0}
instructed 1 => 200 OK|application/json||{"actionId":"instant-1"}
accepted true => 200 OK|application/json||{"accepted":true}
accepted false => 200 OK|application/json||{"accepted":false}
load L1 => 200 OK|application/json||{"job":null,"load":"L1","place":"checking"}
job J1 => 200 OK|application/json||{"from":"A","job":"J1","load":"L1","order":null,"phase":"waiting","to":"B","vehicle":null}
riding J1 => 200 OK|application/json||{"from":"A","job":"J1","load":"L1","order":"O1","phase":"riding","to":"B","vehicle":"KIT/0001"}
stock - => 200 OK|text/plain||a report
holds - => 200 OK|text/plain||a report
loads - => 200 OK|text/csv||a report
jobs - => 200 OK|text/csv||a report
vehicles - => 200 OK|text/csv||a report
layout - => 200 OK|text/csv||a report
"#;

/// Checks a line of the table.
fn check_short(rt: &impl Abort, alloc: Global, line: &str) {
    let (text, wanted) = row(rt, line);
    check_answer(rt, alloc, &answer(rt, alloc, text), wanted);
}

#[test]
fn short_answers(rt: HostRuntime) {
    for line in SHORT.lines() {
        check_short(&rt, rt.alloc(), line);
    }
}

#[test]
fn no_message(rt: HostRuntime) {
    let open = "HTTP/1.1 204 No Content\r\n\r\n";
    check_written(&rt, rt.alloc(), &Answer::NoMessage, false, open);
    let last = "HTTP/1.1 204 No Content\r\nConnection: close\r\n\r\n";
    check_written(&rt, rt.alloc(), &Answer::NoMessage, true, last);
}

/// Each refusal without fields.
const REFUSALS: [Refusal; 57] = [
    Refusal::BadHead,
    Refusal::NoLength,
    Refusal::TooLarge,
    Refusal::Coding,
    Refusal::NoPath,
    Refusal::BadJson,
    Refusal::Fraction,
    Refusal::Position,
    Refusal::BadBody,
    Refusal::BadCsv,
    Refusal::Version,
    Refusal::BadTimestamp,
    Refusal::WrongVehicle,
    Refusal::NoVehicle,
    Refusal::NoNode,
    Refusal::NoStation,
    Refusal::NoLoad,
    Refusal::NoJob,
    Refusal::NoOrder,
    Refusal::Exists,
    Refusal::LayoutSet,
    Refusal::LayoutBad,
    Refusal::Full,
    Refusal::InJob,
    Refusal::Elsewhere,
    Refusal::SameStation,
    Refusal::Busy,
    Refusal::Astray,
    Refusal::Loaded,
    Refusal::NotReady,
    Refusal::InstantPending,
    Refusal::NotConfirmed,
    Refusal::Beyond,
    Refusal::NoWalk,
    Refusal::TooLong,
    Refusal::Spent,
    Refusal::RefUsed,
    Refusal::JobState,
    Refusal::Limit,
    Refusal::OrderKnown,
    Refusal::BadStops,
    Refusal::OtherOrder,
    Refusal::UpdateNotSent,
    Refusal::UpdateBackwards,
    Refusal::NotOurNode,
    Refusal::Backwards,
    Refusal::BeyondBase,
    Refusal::ActionTwice,
    Refusal::ActionBackwards,
    Refusal::ActionEarly,
    Refusal::DropFirst,
    Refusal::CancelEarly,
    Refusal::NotThere,
    Refusal::CountTwice,
    Refusal::OnVehicle,
    Refusal::Memory,
    Refusal::Storage,
];

/// The status and the body of each of them, in the same order.
const REFUSED: &str = r#"400 Bad Request|application/json||{"name":"BadHead","refusal":1}
411 Length Required|application/json||{"name":"NoLength","refusal":2}
413 Payload Too Large|application/json||{"name":"TooLarge","refusal":3}
501 Not Implemented|application/json||{"name":"Coding","refusal":4}
404 Not Found|application/json||{"name":"NoPath","refusal":5}
400 Bad Request|application/json||{"name":"BadJson","refusal":7}
422 Unprocessable Entity|application/json||{"name":"Fraction","refusal":8}
422 Unprocessable Entity|application/json||{"name":"Position","refusal":9}
400 Bad Request|application/json||{"name":"BadBody","refusal":10}
400 Bad Request|application/json||{"name":"BadCsv","refusal":11}
422 Unprocessable Entity|application/json||{"name":"Version","refusal":12}
422 Unprocessable Entity|application/json||{"name":"BadTimestamp","refusal":13}
422 Unprocessable Entity|application/json||{"name":"WrongVehicle","refusal":14}
404 Not Found|application/json||{"name":"NoVehicle","refusal":20}
404 Not Found|application/json||{"name":"NoNode","refusal":21}
404 Not Found|application/json||{"name":"NoStation","refusal":22}
404 Not Found|application/json||{"name":"NoLoad","refusal":23}
404 Not Found|application/json||{"name":"NoJob","refusal":24}
409 Conflict|application/json||{"name":"NoOrder","refusal":25}
409 Conflict|application/json||{"name":"Exists","refusal":30}
409 Conflict|application/json||{"name":"LayoutSet","refusal":31}
409 Conflict|application/json||{"name":"LayoutBad","refusal":32}
409 Conflict|application/json||{"name":"Full","refusal":34}
409 Conflict|application/json||{"name":"InJob","refusal":35}
409 Conflict|application/json||{"name":"Elsewhere","refusal":36}
409 Conflict|application/json||{"name":"SameStation","refusal":37}
409 Conflict|application/json||{"name":"Busy","refusal":38}
409 Conflict|application/json||{"name":"Astray","refusal":39}
409 Conflict|application/json||{"name":"Loaded","refusal":40}
409 Conflict|application/json||{"name":"NotReady","refusal":41}
409 Conflict|application/json||{"name":"InstantPending","refusal":42}
409 Conflict|application/json||{"name":"NotConfirmed","refusal":43}
409 Conflict|application/json||{"name":"Beyond","refusal":45}
409 Conflict|application/json||{"name":"NoWalk","refusal":46}
409 Conflict|application/json||{"name":"TooLong","refusal":47}
409 Conflict|application/json||{"name":"Spent","refusal":48}
409 Conflict|application/json||{"name":"RefUsed","refusal":49}
409 Conflict|application/json||{"name":"JobState","refusal":50}
409 Conflict|application/json||{"name":"Limit","refusal":51}
409 Conflict|application/json||{"name":"OrderKnown","refusal":52}
409 Conflict|application/json||{"name":"BadStops","refusal":53}
409 Conflict|application/json||{"name":"OtherOrder","refusal":60}
409 Conflict|application/json||{"name":"UpdateNotSent","refusal":61}
409 Conflict|application/json||{"name":"UpdateBackwards","refusal":62}
409 Conflict|application/json||{"name":"NotOurNode","refusal":63}
409 Conflict|application/json||{"name":"Backwards","refusal":64}
409 Conflict|application/json||{"name":"BeyondBase","refusal":65}
409 Conflict|application/json||{"name":"ActionTwice","refusal":66}
409 Conflict|application/json||{"name":"ActionBackwards","refusal":67}
409 Conflict|application/json||{"name":"ActionEarly","refusal":68}
409 Conflict|application/json||{"name":"DropFirst","refusal":69}
409 Conflict|application/json||{"name":"CancelEarly","refusal":70}
409 Conflict|application/json||{"name":"NotThere","refusal":71}
409 Conflict|application/json||{"name":"CountTwice","refusal":80}
409 Conflict|application/json||{"name":"OnVehicle","refusal":81}
503 Service Unavailable|application/json||{"name":"Memory","refusal":90}
503 Service Unavailable|application/json||{"name":"Storage","refusal":91}
"#;

/// Checks the answer of a refusal.
fn check_refusal(rt: &impl Abort, alloc: Global, refusal: Refusal, line: &str) {
    check_answer(rt, alloc, &Answer::Refused(refusal), line);
}

#[test]
fn refusals(rt: HostRuntime) {
    let mut lines = REFUSED.lines();
    for refusal in &REFUSALS {
        let line = lines.next().expect(&rt, "a line");
        check_refusal(&rt, rt.alloc(), *refusal, line);
    }
    check(&rt, lines.next().is_none(), "each line");
}

/// Returns the refusal that KIT/0001 holds this thing.
fn held(rt: &impl Abort, what: Thing) -> Refusal {
    let manufacturer = name(rt, "KIT");
    let serial = name(rt, "0001");
    let by = VehicleKey {
        manufacturer,
        serial,
    };
    Refusal::Held { what, by }
}

/// Compares the answers of the refusals with fields.
#[test]
fn refusals_with_fields(rt: HostRuntime) {
    let alloc = rt.alloc();
    let node = held(&rt, Thing::Node(name(&rt, "N2")));
    check_refusal(
        &rt,
        alloc,
        node,
        r#"409 Conflict|application/json||{"by":"KIT/0001","name":"Held","refusal":33,"what":"node N2"}"#,
    );
    let edge = held(&rt, Thing::Edge(name(&rt, "E12")));
    check_refusal(
        &rt,
        alloc,
        edge,
        r#"409 Conflict|application/json||{"by":"KIT/0001","name":"Held","refusal":33,"what":"edge E12"}"#,
    );
    let update = Refusal::WrongUpdate { sent: 1 };
    check_refusal(
        &rt,
        alloc,
        update,
        r#"409 Conflict|application/json||{"name":"WrongUpdate","refusal":44,"sent":1}"#,
    );
}

/// Checks the answer that names the method of a path.
fn check_method(rt: &impl Abort, alloc: Global, allow: Verb, word: &str) {
    let line = format!(in alloc;
        r#"405 Method Not Allowed|application/json|Allow: {word}~|{{"name":"BadMethod","refusal":6}}"#
    );
    let refusal = Refusal::BadMethod { allow };
    check_refusal(rt, alloc, refusal, line.expect(rt, word).as_str());
}

#[test]
fn refused_methods(rt: HostRuntime) {
    check_method(&rt, rt.alloc(), Verb::Get, "GET");
    check_method(&rt, rt.alloc(), Verb::Post, "POST");
    check_method(&rt, rt.alloc(), Verb::Put, "PUT");
    check_method(&rt, rt.alloc(), Verb::Delete, "DELETE");
}

/// Compares the two answers for faults of the machine.
#[test]
fn last_words(rt: HostRuntime) {
    let line = r#"503 Service Unavailable|application/json||{"name":"Memory","refusal":90}"#;
    let memory = text_of(&rt, rt.alloc(), line, "Connection: close~");
    check_bytes(&rt, memory_answer(), memory.as_str());
    let line = r#"503 Service Unavailable|application/json||{"name":"Storage","refusal":91}"#;
    let storage = text_of(&rt, rt.alloc(), line, "Connection: close~");
    check_bytes(&rt, storage_answer(), storage.as_str());
}
