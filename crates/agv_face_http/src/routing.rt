//! The table of routes (`specs/routing/Table.antt`): a `route` is one of its lines with the names in the path, and
//! `routes` finds the route of a method and a target. `table` inserts the lines into the router, which keeps a `line`
//! for each.

pub(crate) mod line;
pub(crate) mod route;
pub(crate) mod routes;
pub(crate) mod table;
