//! The command line: `replay --db FILE|memory --at MILLIS`, `serve --db FILE --port P
//! --connections N`, `report --db FILE stock|holds`, and `migrate --db FILE`.
ghost use Rattle.std.specs.Prelude.{◌≡◌, [], ◌∷◌, IfOk, IfErr, IfSome, IsSome, false, map, codes};
ghost use Rattle.clap.specs.Words.{found_of, new_app, rows_of, rule_of, with_rule};
ghost use Rattle.agv_app_line.specs.CommandLine.{AreApps, AreKinds, Choice, Gives, HasOneMore, HasValues, IsApp, IsLine, IsLineFault, IsOneOf, db, desk, desk_top, kind_word, migrate, name_of, number, positional, replay, report, report_kind, required_option, serve};
ghost use Rattle.agv_app_line.specs.declared.line.ReportKind.{ReportKind};

use crate::LineFault;
use clap::error::ErrorKind;
use clap::{Arg, ArgAction, ArgMatches, Command, value_parser};
use std::alloc::{AllocError, Global};

/// A report of the desk.
#[derive(Clone, Copy, Debug, PartialEq, Eq)]
pub enum ReportKind {
    /// The loads, each with its place.
    Stock,
    /// The nodes and edges that vehicles hold.
    Holds,
}

/// What the arguments ask for.
#[derive(Clone, Copy)]
pub enum Line<'a> {
    /// Answers the requests of standard input.
    Replay {
        /// The file of the records, or `memory`.
        db: &'a str,
        /// The moment of every request, in milliseconds since 1970-01-01T00:00:00Z, from 0 to
        /// 4102444799999.
        at: u64,
    },
    /// Answers the requests of a number of connections, one after another.
    Serve {
        /// The file of the records.
        db: &'a str,
        /// The port on this machine; at 0 the system picks one.
        port: u16,
        /// The number of connections after which the program ends.
        connections: u32,
    },
    /// Prints a report.
    Report {
        /// The file of the records.
        db: &'a str,
        /// Which report it is.
        kind: ReportKind,
    },
    /// Migrates a file of the first schema to the second, in which a vehicle may carry several loads.
    Migrate {
        /// The file of the records.
        db: &'a str,
    },
}

/// The names of the reports.
static KINDS: [&str; 2] = ["stock", "holds"];

/// Parses the arguments.
pub fn line_of<'a>(alloc: Global, words: &'a [&'a str]) -> Result<Line<'a>, LineFault>
    ensures line { IfOk result (IsLine (map (λ word. word.now) words.now)) }
    ensures fault { IfErr result (IsLineFault (map (λ word. word.now) words.now)) }
{
    let matches = match desk_command(alloc)?.try_get_matches_from(words) {
        Ok(matches) => matches,
        Err(error) if error.kind() == ErrorKind::OutOfMemory => return Err(LineFault::Memory),
        Err(error) => return Err(LineFault::Refused(error)),
    };
    // Words in which `clap` finds no fault name a subcommand, with a value of each argument.
    let Some((name, found)) = matches.subcommand() else {
        unreachable!()
    };
    Ok(named_line(name, found))
}

/// Returns the command, with its four subcommands.
fn desk_command<'a>(alloc: Global) -> Result<Command<'a>, AllocError>
    ensures { IfOk result (λ command. (kinds : Choice) × AreKinds kinds × IsApp (desk kinds) command) }
{
    let subs = desk_subcommands(alloc)?;
    top_command(alloc).subcommands(subs)
}

/// Returns the four subcommands.
fn desk_subcommands<'a>(alloc: Global) -> Result<Vec<Command<'a>>, AllocError>
    ensures { IfOk result (λ subs. (kinds : Choice) × AreKinds kinds × AreApps (replay ∷ serve ∷ report kinds ∷ migrate ∷ []) subs.items) }
{
    let replay = with_one_more(Ok(Vec::new(alloc)), replay_command(alloc));
    let serve = with_one_more(replay, serve_command(alloc));
    let report = with_one_more(serve, report_command(alloc));
    with_one_more(report, migrate_command(alloc))
}

/// Appends the value to the list, if both were made. It takes results, so that a value is dropped early here only; and
/// it is generic, since a command is a large type.
fn with_one_more<T: Drop>(
    list: Result<Vec<T>, AllocError>,
    value: Result<T, AllocError>,
) -> Result<Vec<T>, AllocError>
    ensures { IfOk result (HasOneMore list value) }
{
    let mut list = list?;
    list.push(value?)?;
    Ok(list)
}

/// Returns the command without subcommands.
fn top_command<'a>(alloc: Global) -> Command<'a>
    ensures { IsApp desk_top result }
{
    let about =
        "Nulvrader 0.1.0, the control desk of one warehouse: its vehicles, loads and orders";
    let example = "Example: desk replay --db memory --at 1700000000000 < requests.txt";
    named_command(alloc, "desk", about, example)
        .no_binary_name(true)
        .subcommand_required(true)
}

/// Returns a command of this name, with the texts of its help.
fn named_command<'a>(alloc: Global, name: &'a str, about: &'a str, example: &'a str) -> Command<'a>
    ensures { IsApp (new_app name.now) result }
{
    Command::new(alloc, name).about(about).after_help(example)
}

/// Returns the subcommand `replay`.
fn replay_command<'a>(alloc: Global) -> Result<Command<'a>, AllocError>
    ensures { IfOk result (IsApp replay) }
{
    let about = "Reads requests from standard input and writes the answers to standard output";
    let example = "Example: desk replay --db memory --at 1700000000000 < requests.txt";
    named_command(alloc, "replay", about, example)
        .arg(required_arg(
            alloc,
            "db",
            "FILE|memory",
            "The file that keeps the records; `memory` keeps them for this run only",
        ))?
        .arg(number_arg(
            alloc,
            "at",
            "MILLIS",
            4_102_444_799_999,
            "The moment of all requests, in milliseconds since the start of 1970 (UTC)",
        ))
}

/// Returns the option `--db FILE`.
fn file_arg<'a>(alloc: Global) -> Arg<'a>
    ensures rule { rule_of result ≡ db }
    ensures local { result.global ≡ false }
{
    required_arg(alloc, "db", "FILE", "The file that keeps the records")
}

/// Returns a required positional argument; `value` is its name in the help.
fn positional_arg<'a>(alloc: Global, name: &'a str, value: &'a str, help: &'a str) -> Arg<'a>
    ensures rule { rule_of result ≡ positional name.now }
    ensures local { result.global ≡ false }
{
    Arg::new(alloc, name)
        .required(true)
        .action(ArgAction::Set)
        .value_name(value)
        .help(help)
}

/// Returns a required option with one value; `value` is its name in the help.
fn required_arg<'a>(alloc: Global, name: &'a str, value: &'a str, help: &'a str) -> Arg<'a>
    ensures rule { rule_of result ≡ required_option name.now }
    ensures local { result.global ≡ false }
{
    positional_arg(alloc, name, value, help).long(name)
}

/// Returns a required option whose value is a number from 0 to `most`.
fn number_arg<'a>(alloc: Global, name: &'a str, value: &'a str, most: i64, help: &'a str) -> Arg<'a>
    ensures rule { rule_of result ≡ number name.now most }
    ensures local { result.global ≡ false }
{
    required_arg(alloc, name, value, help).value_parser(value_parser!(u64).range(..=most))
}

/// Returns a command of this name with the option `--db FILE`.
fn file_command<'a>(
    alloc: Global,
    name: &'a str,
    about: &'a str,
    example: &'a str,
) -> Result<Command<'a>, AllocError>
    ensures { IfOk result (IsApp (with_rule (new_app name.now) db)) }
{
    named_command(alloc, name, about, example).arg(file_arg(alloc))
}

/// Returns the subcommand `serve`.
fn serve_command<'a>(alloc: Global) -> Result<Command<'a>, AllocError>
    ensures { IfOk result (IsApp serve) }
{
    let about = "Answers requests over the network, to programs on this machine (127.0.0.1)";
    let example = "Example: desk serve --db desk.db --port 8080 --connections 100";
    file_command(alloc, "serve", about, example)?
        .arg(number_arg(
            alloc,
            "port",
            "P",
            65_535,
            "The port on this machine, 0 to 65535; 0 picks a free one and prints it",
        ))?
        .arg(number_arg(
            alloc,
            "connections",
            "N",
            4_294_967_295,
            "How many connections are served, one after another, before the program ends",
        ))
}

/// Returns the subcommand `report`.
fn report_command<'a>(alloc: Global) -> Result<Command<'a>, AllocError>
    ensures { IfOk result (λ command. (kinds : Choice) × AreKinds kinds × IsApp (report kinds) command) }
{
    let about = "Prints a report of the records: where the loads are, or what the vehicles hold";
    let example = "Example: desk report --db desk.db stock";
    file_command(alloc, "report", about, example)?.arg(kind_arg(alloc))
}

/// Returns the positional argument for the name of a report.
fn kind_arg<'a>(alloc: Global) -> Arg<'a>
    ensures rule { (kinds : Choice) × AreKinds kinds × (rule_of result ≡ report_kind kinds) }
    ensures local { result.global ≡ false }
{
    let help =
        "`stock`: each load and its place; `holds`: the nodes and edges that each vehicle holds";
    positional_arg(alloc, "kind", "REPORT", help).value_parser(KINDS.as_slice())
}

/// Returns the subcommand `migrate`.
fn migrate_command<'a>(alloc: Global) -> Result<Command<'a>, AllocError>
    ensures { IfOk result (IsApp migrate) }
{
    let about = "Migrates a file of the first schema (one load a vehicle) to the second";
    let example = "Example: sqlite3 desk.db '.backup before.db'; desk migrate --db desk.db";
    file_command(alloc, "migrate", about, example)
}

/// Returns the line of the subcommand `name`.
fn named_line<'a>(name: &str, found: &ArgMatches<'a>) -> Line<'a>
    requires named { (kinds : Choice) × AreKinds kinds × IsOneOf (desk kinds).subs name.now (rows_of (found_of found.now)) }
    ensures name { name_of result ≡ name.now }
    ensures values { Gives (rows_of (found_of found.now)) result }
{
    match name {
        "replay" => replay_line(found),
        "serve" => serve_line(found),
        "report" => report_line(found),
        "migrate" => migrate_line(found),
        _ => unreachable!(),
    }
}

/// Returns the line of `replay`.
fn replay_line<'a>(found: &ArgMatches<'a>) -> Line<'a>
    requires values { HasValues (rows_of (found_of found.now)) replay.top.rules }
    ensures name { name_of result ≡ codes "replay" }
    ensures values { Gives (rows_of (found_of found.now)) result }
{
    let Some(db) = found.get_str("db") else {
        unreachable!()
    };
    let Some(at) = found.get_one::<u64>("at") else {
        unreachable!()
    };
    Line::Replay { db, at }
}

/// Returns the line of `serve`.
fn serve_line<'a>(found: &ArgMatches<'a>) -> Line<'a>
    requires values { HasValues (rows_of (found_of found.now)) serve.top.rules }
    ensures name { name_of result ≡ codes "serve" }
    ensures values { Gives (rows_of (found_of found.now)) result }
{
    let Some(db) = found.get_str("db") else {
        unreachable!()
    };
    let Some(port) = found.get_one::<u16>("port") else {
        unreachable!()
    };
    let Some(connections) = found.get_one::<u32>("connections") else {
        unreachable!()
    };
    Line::Serve {
        db,
        port,
        connections,
    }
}

/// Returns the line of `report`.
fn report_line<'a>(found: &ArgMatches<'a>) -> Line<'a>
    requires values { (kinds : Choice) × AreKinds kinds × HasValues (rows_of (found_of found.now)) (report kinds).top.rules }
    ensures name { name_of result ≡ codes "report" }
    ensures values { Gives (rows_of (found_of found.now)) result }
{
    let Some(db) = found.get_str("db") else {
        unreachable!()
    };
    let Some(word) = found.get_str("kind") else {
        unreachable!()
    };
    let Some(kind) = kind_named(word) else {
        unreachable!()
    };
    Line::Report { db, kind }
}

/// Returns the report of this name, if any.
fn kind_named(word: &str) -> Option<ReportKind>
    ensures named { IfSome result (λ kind. word.now ≡ kind_word kind) }
    ensures known { (kind : ReportKind) → (word.now ≡ kind_word kind) → IsSome result }
{
    match word {
        "stock" => Some(ReportKind::Stock),
        "holds" => Some(ReportKind::Holds),
        _ => None,
    }
}

/// Returns the line of `migrate`.
fn migrate_line<'a>(found: &ArgMatches<'a>) -> Line<'a>
    requires values { HasValues (rows_of (found_of found.now)) migrate.top.rules }
    ensures name { name_of result ≡ codes "migrate" }
    ensures values { Gives (rows_of (found_of found.now)) result }
{
    let Some(db) = found.get_str("db") else {
        unreachable!()
    };
    Line::Migrate { db }
}
