//! The calls of a script as one list, which a desk serves at once.

use crate::cases::{check, check_bytes, moment};
use crate::desks::desk;
use crate::memory::{Asked, InMemory, asked, in_memory};
use crate::tables::{told_text, world_text};
use agv_desk::{Answer, Call};
use agv_face_http::{Routes, answer_bytes};
use agv_header::Moment;
use agv_store::Desk;
use agv_tests_support::lines::{MOMENT, answer_of, asks, parted, request_of, said_in};
use sqlite::{Alter, Connection};
use std::alloc::Global;
use std::process::Abort;

/// The calls of a script, with their answers and the worlds between them.
#[derive(Drop)]
pub(crate) struct List {
    pub(crate) calls: Vec<(Moment, Call)>,
    /// The bytes of each answer.
    answers: Vec<String>,
    /// The texts of the world before the first call, and after each.
    worlds: Vec<String>,
}

impl List {
    /// Adds a call, and the world after it, and returns whether there is a call: a request that makes none is left out.
    fn put(
        &mut self,
        rt: &impl Abort,
        alloc: Global,
        memory: &mut InMemory,
        at: Moment,
        asked: Asked,
    ) -> bool {
        memory.answer(rt, alloc, at, &asked);
        let Ok(call) = asked else {
            return false;
        };
        let world = world_text(rt, alloc, &memory.world);
        self.calls.push((at, call)).expect(rt, "memory");
        self.worlds.push(world).expect(rt, "memory");
        true
    }

    /// Returns the calls from number `n` on.
    pub(crate) fn calls_from(&self, rt: &impl Abort, n: usize) -> &[(Moment, Call)] {
        self.calls.get(n..).expect(rt, "calls")
    }

    /// Compares these answers with those expected from call `n` on.
    pub(crate) fn check_answers(&self, rt: &impl Abort, alloc: Global, n: usize, found: &[Answer]) {
        let wanted = self.answers.get(n..).expect(rt, "answers");
        check(rt, found.len() <= wanted.len(), "at most an answer a call");
        for (answer, text) in found.iter().zip(wanted) {
            let bytes = answer_bytes(alloc, answer, false).expect(rt, "memory");
            check_bytes(rt, &bytes, text.as_str(), text.as_str());
        }
    }

    /// Returns whether this is the world before call `n`.
    pub(crate) fn is_before(&self, n: usize, world: &str) -> bool {
        self.worlds
            .get(n)
            .is_some_and(|text| text.as_str() == world)
    }
}

/// Reads the calls of a script.
pub(crate) fn list_of(rt: &impl Abort, alloc: Global, text: &str) -> List {
    let routes = Routes::new(alloc).expect(rt, "memory");
    let mut memory = in_memory(alloc, 4);
    let mut at = moment(rt, MOMENT);
    let mut list = List {
        calls: Vec::new(alloc),
        answers: Vec::new(alloc),
        worlds: Vec::new(alloc),
    };
    let empty = world_text(rt, alloc, &memory.world);
    list.worlds.push(empty).expect(rt, "memory");
    let mut request = String::new(alloc);
    let mut is_call = false;
    for said in &said_in(alloc, text).expect(rt, "a script") {
        let (word, rest) = parted(said.line);
        match word {
            "at" => at = moment(rt, rest.parse::<i64>().expect(rt, rest)),
            "moves" | "row" | "rows" => {}
            _ => {
                if asks(word) {
                    request = request_of(alloc, said).expect(rt, said.line);
                    let asked = asked(rt, alloc, &routes, request.as_str());
                    is_call = list.put(rt, alloc, &mut memory, at, asked);
                } else if is_call {
                    let answer = answer_of(alloc, request.as_str(), said).expect(rt, said.line);
                    list.answers.push(answer).expect(rt, "memory");
                }
            }
        }
    }
    list
}

/// Has the desk serve all calls from number `n` on, and compares its world with the last one.
pub(crate) fn serve_from<S: Alter + Drop>(
    rt: &impl Abort,
    alloc: Global,
    mut desk: Desk<S>,
    list: &List,
    n: usize,
) {
    let calls = list.calls_from(rt, n);
    let (answers, fault) = desk.run(calls);
    check(rt, fault.is_none(), "no fault");
    check(rt, answers.len() == calls.len(), "an answer to each call");
    list.check_answers(rt, alloc, n, &answers);
    let mut conn = crate::desks::desk(rt, alloc, desk.release_conn(), "adopt").release_conn();
    let world = told_text(rt, alloc, &mut conn);
    check(
        rt,
        list.is_before(list.calls.len(), world.as_str()),
        world.as_str(),
    );
}

/// Makes a desk in this database, and has it serve all calls.
pub(crate) fn serve_list<S: Alter + Drop>(
    rt: &impl Abort,
    alloc: Global,
    conn: Connection<S>,
    list: &List,
) {
    let desk = desk(rt, alloc, conn, "create");
    serve_from(rt, alloc, desk, list, 0);
}
