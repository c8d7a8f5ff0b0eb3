//! The scripts of `agv_tests_support`: requests and their answers as text, worked out by hand. Each is played over a
//! world in memory and by a desk over its tables, whose answers and rows are compared; and as one list. The tables are
//! on files in memory, as those of the program are with `--db memory`. `tests/test_scripts.py` and
//! `tests/test_stream_rows.py` serve scripts as streams of bytes, over the program.
//!
//! - `scripts` plays each script.
//! - `memory` plays them over a world in memory, whose floor fails at each query in turn.
//! - `player` plays them call by call in a database, and checks more of it: `databases` has databases that others have
//!   changed, and `migrations` databases of the first schema. `tables` reads the rows.
//! - `lists` has a desk serve the calls of a script in one list, and `stops` while the files fail and the machine
//!   stops.
//! - `desks` opens databases and desks, and `ways` runs a test in a new database: everything else is generic over the
//!   store.
//! - `cases` compares results with the expected ones.
#![tactic(auto)]

#[cfg(test)]
mod cases;
#[cfg(test)]
mod databases;
#[cfg(test)]
mod desks;
#[cfg(test)]
mod lists;
#[cfg(test)]
mod memory;
#[cfg(test)]
mod migrations;
#[cfg(test)]
mod player;
#[cfg(test)]
mod scripts;
#[cfg(test)]
mod stops;
#[cfg(test)]
mod tables;
#[cfg(test)]
mod ways;
