//! Playing scripts in a database: a desk is adopted before each call and released after it. Each answer is compared
//! with the expected one and with the one decided in memory, and the world that is read from the tables with the one in
//! memory. Besides the lines of `lines` of `agv_tests_support`, a script has lines about the database:
//!
//! ```text
//! sql                       statements after it, that others execute; from here on nothing is decided in memory
//! create Damaged            a call that opens a desk, and its fault, or `ok`; after a fault the rows are unchanged
//! fault Storage             the last call has this fault and no answer
//! lawful true               whether the world of the tables is lawful
//! ```

use crate::cases::{check, check_bytes, check_text, moment, shown};
use crate::desks::{desk, opened};
use crate::memory::{Asked, InMemory, asked, in_memory};
use crate::tables::{check_read, check_row, check_rows, is_lawful, rows_text};
use agv_desk::Answer;
use agv_face_http::{Routes, answer_bytes};
use agv_header::Moment;
use agv_store::Desk;
use agv_tests_support::lines::{MOMENT, Said, answer_of, asks, parted, request_of, said_in};
use sqlite::{Alter, Connection};
use std::alloc::Global;
use std::process::Abort;

/// Returns the answer of a desk; where the store fails, the name of the fault.
fn answer<S: Alter + Drop>(
    rt: &impl Abort,
    alloc: Global,
    desk: &mut Desk<S>,
    at: Moment,
    asked: &Asked,
) -> Vec<u8> {
    let answer = match asked {
        Err(refusal) => Answer::Refused(*refusal),
        Ok(call) => match desk.serve(at, call) {
            Ok(answer) => answer,
            Err(fault) => {
                check(rt, desk.failed(), "the store has failed");
                let fault = shown(rt, alloc, &fault);
                return fault.into_bytes();
            }
        },
    };
    check(rt, !desk.failed(), "the store works");
    answer_bytes(alloc, &answer, false).expect(rt, "memory")
}

/// Returns whether a report is asked for, which a decision only names.
fn asks_report(asked: &Asked) -> bool {
    match asked {
        Ok(call) => call.report().is_some(),
        Err(_) => false,
    }
}

/// The state of playing a script.
#[derive(Drop)]
struct Player {
    routes: Routes,
    memory: InMemory,
    /// Whether others have changed the rows.
    changed: bool,
    at: Moment,
    /// The last request, and its answer.
    request: String,
    found: Vec<u8>,
}

impl Player {
    /// Serves a request by the desk of the database, and in memory.
    fn call<S: Alter + Drop>(
        &mut self,
        rt: &impl Abort,
        alloc: Global,
        conn: Connection<S>,
        said: &Said<'_>,
    ) -> Connection<S> {
        self.request = request_of(alloc, said).expect(rt, said.line);
        let asked = asked(rt, alloc, &self.routes, self.request.as_str());
        let mut desk = desk(rt, alloc, conn, "adopt");
        let found = answer(rt, alloc, &mut desk, self.at, &asked);
        let mut conn = desk.release_conn();
        if !self.changed {
            let decided = self.memory.answer(rt, alloc, self.at, &asked);
            check(
                rt,
                asks_report(&asked) || found == decided,
                self.request.as_str(),
            );
            check_read(rt, alloc, &self.memory.world, &mut conn);
        }
        self.found = found;
        conn
    }

    /// Compares the last answer or fault.
    fn compare<S: Alter>(
        &mut self,
        rt: &impl Abort,
        alloc: Global,
        conn: &mut Connection<S>,
        said: &Said<'_>,
    ) {
        let (word, rest) = parted(said.line);
        match word {
            "at" => self.at = moment(rt, rest.parse::<i64>().expect(rt, rest)),
            "moves" => self.memory.check_moves(rt, alloc, rest),
            "row" => check_row(rt, alloc, conn, rest),
            "rows" => check_rows(rt, alloc, conn, said.text.as_str()),
            "lawful" => {
                let lawful = shown(rt, alloc, &is_lawful(rt, alloc, conn));
                check_text(rt, lawful.as_str(), rest, said.line);
            }
            "fault" => check_bytes(rt, &self.found, rest, self.request.as_str()),
            _ => {
                let wanted = answer_of(alloc, self.request.as_str(), said);
                let wanted = wanted.expect(rt, said.line);
                check_bytes(rt, &self.found, wanted.as_str(), self.request.as_str());
            }
        }
    }
}

/// Executes statements.
fn execute<S: Alter>(rt: &impl Abort, conn: &mut Connection<S>, texts: &str) {
    conn.execute_batch(texts).expect(rt, texts);
}

/// Opens a desk by the call of this name. Where it gives none, the rows have to be unchanged.
fn open<S: Alter + Drop>(
    rt: &impl Abort,
    alloc: Global,
    conn: Connection<S>,
    way: &str,
    wanted: &str,
) -> Connection<S> {
    let mut conn = conn;
    let before = rows_text(rt, alloc, &mut conn);
    match opened(rt, alloc, conn, way) {
        Ok(desk) => {
            check(rt, wanted == "ok", way);
            check(rt, !desk.failed(), "the store works");
            desk.release_conn()
        }
        Err((conn, why)) => {
            let mut conn = conn;
            check_text(rt, shown(rt, alloc, &why).as_str(), wanted, way);
            check_rows(rt, alloc, &mut conn, before.as_str());
            conn
        }
    }
}

/// Plays a script in this database.
pub(crate) fn play<S: Alter + Drop>(
    rt: &impl Abort,
    alloc: Global,
    conn: Connection<S>,
    text: &str,
) {
    let mut conn = conn;
    let mut player = Player {
        routes: Routes::new(alloc).expect(rt, "memory"),
        memory: in_memory(alloc, 4),
        changed: false,
        at: moment(rt, MOMENT),
        request: String::new(alloc),
        found: Vec::new(alloc),
    };
    for said in &said_in(alloc, text).expect(rt, "a script") {
        let (word, rest) = parted(said.line);
        match word {
            "create" | "adopt" | "open" | "migrate" => {
                conn = open(rt, alloc, conn, word, rest);
            }
            "sql" => {
                player.changed = true;
                execute(rt, &mut conn, rest);
                execute(rt, &mut conn, said.text.as_str());
            }
            _ => {
                if asks(word) {
                    conn = player.call(rt, alloc, conn, said);
                } else {
                    player.compare(rt, alloc, &mut conn, said);
                }
            }
        }
    }
}
