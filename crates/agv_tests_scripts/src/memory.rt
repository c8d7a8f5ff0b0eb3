//! A desk that keeps its world in memory, and whose floor fails at each query of a call in turn before it answers.
ghost use Rattle.std.specs.Prelude.{◌≤◌};

use crate::cases::{check, check_bytes, check_text, moment};
use agv_desk::{Answer, Call, Decision, decide, moves_of};
use agv_face_http::{Heard, RequestRef, Routes, answer_bytes, call_of, read_request};
use agv_header::{Moment, Name, Refusal};
use agv_message::BodyFault;
use agv_stock::Place;
use agv_tests_support::fails_at::FailsAt;
use agv_tests_support::lines::{MOMENT, Said, answer_of, asks, parted, request_of, said_in};
use agv_world::{Fault, PlainFloor, TestsLawful, World};
use std::alloc::Global;
use std::process::Abort;

/// The most queries of a call.
const MOST: usize = 1000;

/// A call, or the refusal of a request that makes none.
pub(crate) type Asked = Result<Call, Refusal>;

/// Returns the call that a request makes.
fn call_in(rt: &impl Abort, alloc: Global, routes: &Routes, request: &RequestRef<'_>) -> Asked {
    let route = routes.route_of(&request.method, request.target)?;
    match call_of(alloc, &route, request.body) {
        Ok(call) => Ok(call),
        Err(BodyFault::Refused(refusal)) => Err(refusal),
        Err(BodyFault::Memory) => panic!(rt; "memory"),
    }
}

/// Returns the call that a request's bytes make.
pub(crate) fn asked(rt: &impl Abort, alloc: Global, routes: &Routes, request: &str) -> Asked {
    match read_request(alloc, request.as_bytes(), true).expect(rt, "memory") {
        Heard::Request(heard) => {
            check(rt, heard.len == request.len(), request);
            call_in(rt, alloc, routes, &heard)
        }
        _ => panic!(rt; "no request: `{request}`"),
    }
}

/// A desk that keeps its world in memory.
#[derive(Drop)]
pub(crate) struct InMemory {
    pub(crate) world: World,
    /// The most loads that a vehicle may carry at once: 1 to 4.
    seats: u32,
    /// The moves of the last call.
    moves: Vec<(Name, Place)>,
    ghost few: { (1 ≤ seats) × (seats ≤ 4) },
}

/// Returns a desk with the empty world, for vehicles of at most this many loads: 1 to 4.
pub(crate) fn in_memory(alloc: Global, seats: u32) -> InMemory
    requires { (1 ≤ seats) × (seats ≤ 4) }
{
    InMemory {
        world: World::empty(alloc),
        seats,
        moves: Vec::new(alloc),
    }
}

/// Checks that a refused call changes nothing.
fn check_changes(rt: &impl Abort, decision: &Decision) {
    if let Answer::Refused(_) = &decision.answer {
        check(rt, decision.changes.is_empty(), "changes of a refused call");
    }
}

/// Appends a load and where it goes.
fn put_move(rt: &impl Abort, text: &mut String, load: &Name, place: &Place) {
    if !text.is_empty() {
        text.push_str(", ").expect(rt, "memory");
    }
    let put = match place {
        Place::Station(id) => write!(text, "{load} station {id}"),
        Place::Vehicle(key) => write!(text, "{load} vehicle {}/{}", key.manufacturer, key.serial),
        Place::Checking => write!(text, "{load} checking"),
        Place::Left => write!(text, "{load} left"),
    };
    put.expect(rt, "memory");
}

/// Decides a call where the store answers at most this many queries, and returns `None` where it fails; it has to fail
/// with `Storage`.
fn decided_at(
    rt: &impl Abort,
    alloc: Global,
    floor: PlainFloor<'_>,
    most: usize,
    at: Moment,
    call: &Call,
) -> Option<Decision> {
    let mut store = FailsAt::new(floor, most);
    match decide(alloc, &mut store, at, call) {
        Ok(decision) => {
            check(rt, !store.has_failed(), "an answer after a fault");
            Some(decision)
        }
        Err(fault) => {
            check(rt, fault == Fault::Storage, "the fault");
            check(rt, store.has_failed(), "a fault of a store that answers");
            None
        }
    }
}

impl InMemory {
    /// Decides a call over a copy of its world, after the store has failed at each of the call's queries in turn.
    fn decided(&self, rt: &impl Abort, alloc: Global, at: Moment, call: &Call) -> Decision {
        let world = self.world.copy().expect(rt, "memory");
        for most in 0..MOST {
            let floor = PlainFloor::new(alloc, &world, self.seats);
            if let Some(decision) = decided_at(rt, alloc, floor, most, at, call) {
                return decision;
            }
        }
        panic!(rt; "a call that asks too much")
    }

    /// Decides a call, applies its changes, and checks that the world is lawful.
    fn decide(&mut self, rt: &impl Abort, alloc: Global, at: Moment, call: &Call) -> Answer {
        let decision = self.decided(rt, alloc, at, call);
        check_changes(rt, &decision);
        self.moves = moves_of(alloc, &decision).expect(rt, "memory");
        let applied = self.world.apply(decision.changes.as_slice());
        applied.expect(rt, "memory");
        let lawful = self.world.is_lawful(alloc, self.seats).expect(rt, "memory");
        check(rt, lawful, "a lawful world");
        decision.answer
    }

    /// Returns the answer; a report is only named.
    pub(crate) fn answer(
        &mut self,
        rt: &impl Abort,
        alloc: Global,
        at: Moment,
        asked: &Asked,
    ) -> Vec<u8> {
        let answer = match asked {
            Ok(call) => self.decide(rt, alloc, at, call),
            Err(refusal) => Answer::Refused(*refusal),
        };
        answer_bytes(alloc, &answer, false).expect(rt, "memory")
    }

    /// Compares the moves of the last call.
    pub(crate) fn check_moves(&self, rt: &impl Abort, alloc: Global, wanted: &str) {
        let mut text = String::new(alloc);
        for (load, place) in &self.moves {
            put_move(rt, &mut text, load, place);
        }
        check_text(rt, text.as_str(), wanted, "the moves");
    }
}

/// A script that is played in memory only.
#[derive(Drop)]
struct Play {
    desk: InMemory,
    at: Moment,
    /// The last request, and its answer.
    request: String,
    found: Vec<u8>,
}

impl Play {
    /// Decides a request.
    fn ask(&mut self, rt: &impl Abort, alloc: Global, routes: &Routes, said: &Said<'_>) {
        self.request = request_of(alloc, said).expect(rt, said.line);
        let asked = asked(rt, alloc, routes, self.request.as_str());
        self.found = self.desk.answer(rt, alloc, self.at, &asked);
    }

    /// Compares the last answer.
    fn compare(&self, rt: &impl Abort, alloc: Global, said: &Said<'_>) {
        let wanted = answer_of(alloc, self.request.as_str(), said).expect(rt, said.line);
        check_bytes(rt, &self.found, wanted.as_str(), self.request.as_str());
    }

    /// Plays a line. The bytes of reports are not compared.
    fn play(&mut self, rt: &impl Abort, alloc: Global, routes: &Routes, said: &Said<'_>) {
        let (word, rest) = parted(said.line);
        if asks(word) {
            self.ask(rt, alloc, routes, said);
        } else if word == "at" {
            self.at = moment(rt, rest.parse::<i64>().expect(rt, rest));
        } else if word == "moves" {
            self.desk.check_moves(rt, alloc, rest);
        } else if word.parse::<u32>().is_ok() && said.text.is_empty() {
            self.compare(rt, alloc, said);
        }
    }
}

/// Plays a script in memory only, with vehicles for at most this many loads: 1 to 4.
pub(crate) fn play_in_memory(rt: &impl Abort, alloc: Global, seats: u32, text: &str)
    requires { (1 ≤ seats) × (seats ≤ 4) }
{
    let routes = Routes::new(alloc).expect(rt, "memory");
    let mut play = Play {
        desk: in_memory(alloc, seats),
        at: moment(rt, MOMENT),
        request: String::new(alloc),
        found: Vec::new(alloc),
    };
    for said in &said_in(alloc, text).expect(rt, "a script") {
        play.play(rt, alloc, &routes, said);
    }
}
