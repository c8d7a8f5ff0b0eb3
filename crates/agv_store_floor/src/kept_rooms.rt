//! A lower bound on how many more loads fit at a station, cached beside the connection, so that the loads at a station
//! and the live jobs to it need not be counted for each call (`kept_rooms` of agv_store_known).
ghost use Rattle.std.specs.Prelude.{◌≡◌, ◌≤◌, true, Some};
ghost use Rattle.agv_world_core.specs.Questions.{has_room_at, room_at};
ghost use Rattle.agv_store_schema.specs.Connections.{IsClean, IsOpen};
ghost use Rattle.agv_store_floor.specs.Floors.{world_at};

use crate::keyed_floor::KeyedFloor;
use agv_header::{Memory, Name};
use agv_store_known::kept_rooms::is_some_left;
use sqlite::Alter;

impl<S: Alter + Drop> KeyedFloor<S> {
    /// Returns whether at least one more load is known to fit at a station.
    pub(crate) fn keeps_room(&self, station: Name) -> bool
        ensures { result ≡ true → IsClean S.Store self.now.held → IsOpen S.Store self.now.held → has_room_at (world_at S.Store self.now.held) station ≡ Some true }
    {
        is_some_left(&self.known.rooms, station)
    }

    /// Caches the room that was counted at a station.
    pub(crate) fn keep_room(&mut self, station: Name, room: u32) -> Result<(), Memory>
        requires some { 1 ≤ room }
        requires counted { IsClean S.Store self.old.held → IsOpen S.Store self.old.held → Some room ≡ room_at (world_at S.Store self.old.held) station }
        ensures { self.new ≡ self.old }
    {
        self.known.rooms.insert(station, room)?;
        Ok(())
    }
}
