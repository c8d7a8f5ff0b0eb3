//! A lower bound on how many more loads fit at a station, cached beside the tables, so that the loads at a station and
//! the live jobs to it need not be counted for each call. The bound is lowered by one for each written row that puts a
//! load at the station or is of a live job to it, whatever the row was before. Once a station has no room left by this
//! bound, its loads and jobs have to be counted again.
ghost use Rattle.std.specs.Prelude.{◌≡◌, true};
ghost use Rattle.agv_world_core.specs.Changes.{change};
ghost use Rattle.agv_world_core.specs.Maps.{Maps};
ghost use Rattle.agv_store_known.specs.KeptRooms.{AreLeft, IsLowered, IsRoomLeft, takes_room_at};

use crate::kept_layout::is_of_layout;
use agv_header::Name;
use agv_stock::station_of_place;
use agv_world_core::Change;
use std::alloc::Global;
use std::collections::BTreeMap;

/// Stations, each with a number of loads: at least that many more fit there.
pub type RoomsLeft = BTreeMap<Name, u32>;

/// Returns the rooms of no station.
pub(crate) fn none(alloc: Global) -> RoomsLeft
    ensures { (maps : Maps) → AreLeft result maps }
{
    BTreeMap::new(alloc)
}

/// Returns whether at least one more load is known to fit at the station.
pub fn is_some_left(rooms: &RoomsLeft, station: Name) -> bool
    ensures { result ≡ true → (maps : Maps) → AreLeft rooms.now maps → IsRoomLeft maps station 1 }
{
    match rooms.get(&station) {
        None => false,
        Some(room) => *room != 0,
    }
}

/// Updates the rooms for a change; drops all of them if it writes a row of the layout.
pub(crate) fn follow(rooms: &mut RoomsLeft, one: &Change)
    ensures { (maps : Maps) → AreLeft rooms.old maps → AreLeft rooms.new (change maps one.now) }
{
    if is_of_layout(one) {
        rooms.clear();
        return;
    }
    if let Some(station) = takes_room_at(one) {
        lower_at(rooms, station);
    }
}

/// Lowers the room at a station by one. A room that becomes empty, or for which there is no memory, is dropped.
fn lower_at(rooms: &mut RoomsLeft, station: Name)
    ensures { IsLowered rooms.old rooms.new station }
{
    if let Some(room) = rooms.remove(&station) {
        if room > 1 {
            let _kept = rooms.insert(station, room - 1);
        }
    }
}

/// Returns the station where a written row puts a load, or to which it has a live job.
fn takes_room_at(change: &Change) -> Option<Name>
    ensures { result ≡ takes_room_at change.now }
{
    match change {
        Change::Load(_, place) => station_of_place(*place),
        Change::Job(_, job) => {
            if job.phase.is_live() {
                Some(job.target)
            } else {
                None
            }
        }
        Change::Node(_)
        | Change::Edge(_, _)
        | Change::Station(_, _)
        | Change::Vehicle(_, _)
        | Change::Trip(_, _)
        | Change::Leg(_, _)
        | Change::Hold(_, _)
        | Change::Used(_) => None,
    }
}
