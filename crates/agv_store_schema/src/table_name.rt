//! The fourteen tables of the desk, by name.

/// A table of the desk's database. What it holds is in docs/TABLES.md.
#[derive(Clone, Copy, Debug)]
pub enum TableName {
    Meta,
    Node,
    Edge,
    Station,
    Vehicle,
    /// The open trips of the first schema; in this schema it is empty.
    Trip,
    Leg,
    Load,
    Job,
    Hold,
    Used,
    Capacity,
    Journey,
    Act,
}
