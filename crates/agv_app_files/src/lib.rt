//! The databases of the program: in memory, and in a file.
//!
//! [`open_in_memory`] creates a new one in memory, whose calls cost the same at any size. It is the store over files,
//! with its log, its pages and its indexes, over two [`MemoryFile`]s: files in memory, which meet the contract of
//! `sqlite_disk`'s `Disk` as those of the system do. They end with the connection. A file that gets no memory has no
//! room, which [`InMemory`] answers as out of memory. Such a store is always clean ([`laws`]). [`open_file`] opens the
//! database in a file, and creates one if there is none; [`open_files`] does so over files that are already open.
#![tactic(auto)]

mod file;
pub mod laws;
mod memory;
mod memory_file;
mod memory_store;
mod new_database;

pub use file::{open_file, open_files};
pub use memory::open_in_memory;
pub use memory_file::MemoryFile;
pub use memory_store::InMemory;
