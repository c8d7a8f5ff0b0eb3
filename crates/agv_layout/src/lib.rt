//! The layout of one warehouse, and the routes on it.
//!
//! - A [`Layout`] has nodes, edges from node to node, and stations at nodes. [`Layout::of_rows`]
//!   makes one from rows, in any order, and refuses rows that are not a valid layout. [`Layout::rows`]
//!   lists the rows again.
//! - [`Layout::node`], [`Layout::edge`] and [`Layout::station`] look a name up, without memory.
//! - [`Layout::nodes`], [`Layout::edges`] and [`Layout::stations`] iterate over a layout in the order of names, and
//!   [`Layout::node_count`] and its like count, all without memory.
//! - [`Layout::hops`] is the least number of edges from one node to another, and [`Layout::route`]
//!   the walk to take: of all walks of this many edges the first by the names of its edges.
//! - [`laws`] proves that the definitions of these contracts agree.
#![tactic(auto)]

mod distances;
mod draft;
mod edge;
mod fault;
pub mod laws;
mod layout;
mod listed;
mod route;
mod row;
mod station;

pub use edge::{Edge, EdgeEnds};
pub use fault::LayoutFault;
pub use layout::Layout;
pub use row::LayoutRow;
pub use station::{Station, StationSite};
