//! The rows of the table `capacity`.

use agv_world_core::Row;

/// How many loads a vehicle may carry at once.
#[derive(Clone, Copy, Debug)]
pub struct CapacityRow {
    pub capacity: u32,
}

impl Row for CapacityRow {
    ghost same = { λ row clone e. e };
}
