//! The layout, cached beside the connection, so that it is read only once (`kept_layout` of agv_store_known).
ghost use Rattle.std.specs.Prelude.{◌≡◌, is_some, true, Some, IfOk, IfSome};
ghost use Rattle.std.specs.FinMap as map;
ghost use Rattle.std.specs.FinSet as set;
ghost use Rattle.agv_world_core.specs.Asks.{Asks};
ghost use Rattle.agv_world_core.specs.Questions.{layout_set};
ghost use Rattle.agv_store_schema.specs.Connections.{IsClean, IsOpen};
ghost use Rattle.agv_store_floor.specs.Floors.{facts_of, world_at};

use crate::flags::note;
use crate::keyed_floor::KeyedFloor;
use agv_header::{Memory, Name};
use agv_layout::laws::{gives_itself, needs_a_node};
use agv_layout::{Layout, StationSite};
use agv_store_ask::known_layout::{known_station, knows_node};
use agv_store_known::kept_layout::copy_of;
use agv_store_read_tables::layout_reading::query_layout;
use agv_world_core::Fault;
use sqlite::Alter;

impl<S: Alter + Drop> KeyedFloor<S> {
    /// Returns whether a layout is cached that has this node.
    pub(crate) fn keeps_node(&self, id: Name) -> bool
        ensures { result ≡ true → IsClean S.Store self.now.held → IsOpen S.Store self.now.held → set.contains (world_at S.Store self.now.held).layout.nodes id ≡ true }
    {
        knows_node(&self.known.layout, id)
    }

    /// Returns the node of a station and how many loads fit there, if a layout is cached that has the station.
    pub(crate) fn kept_station(&self, id: Name) -> Option<StationSite>
        ensures { IfSome result (λ site. IsClean S.Store self.now.held → IsOpen S.Store self.now.held → map.get (world_at S.Store self.now.held).layout.stations id ≡ Some site) }
    {
        known_station(&self.known.layout, id)
    }

    /// Returns whether a layout is cached.
    pub(crate) fn keeps_layout(&self) -> bool
        ensures { result ≡ true → IsClean S.Store self.now.held → IsOpen S.Store self.now.held → is_some (layout_set (world_at S.Store self.now.held)) ≡ true }
    {
        gives_itself();
        match &self.known.layout {
            None => false,
            Some(layout) => {
                layout.layout_law();
                true
            }
        }
    }

    /// Returns a copy of the cached layout, if any.
    pub(crate) fn kept_layout(&self) -> Result<Option<Layout>, Memory>
        ensures { IfOk result (λ kept. IfSome kept (λ layout. IsClean S.Store self.now.held → IsOpen S.Store self.now.held → Some layout ≡ layout_set (world_at S.Store self.now.held))) }
    {
        gives_itself();
        match &self.known.layout {
            None => Ok(None),
            Some(layout) => {
                layout.layout_law();
                let copy = layout.copy()?;
                Ok(Some(copy))
            }
        }
    }

    /// Reads the layout from the tables.
    pub(crate) fn layout_asked(&mut self) -> Result<Option<Layout>, Fault>
        ensures { Asks (facts_of S.Store) self.old self.new result (λ world layout. layout ≡ layout_set world) }
    {
        let asked = query_layout(self.alloc, &mut self.conn);
        note(&mut self.failed, &mut self.in_doubt, asked)
    }

    /// Caches a copy of the layout.
    pub(crate) fn keep_layout(&mut self, layout: &Option<Layout>) -> Result<(), Memory>
        requires { IsClean S.Store self.old.held → IsOpen S.Store self.old.held → layout.now ≡ layout_set (world_at S.Store self.old.held) }
        ensures { self.new ≡ self.old }
    {
        gives_itself();
        needs_a_node();
        let copy = copy_of(layout)?;
        self.known.layout = copy;
        Ok(())
    }
}
