//! Reading the layout.
ghost use Rattle.std.specs.Prelude.{◌≡◌, Some, IsPermutation};
ghost use Rattle.agv_world_core.specs.Questions.{layout_set};
ghost use Rattle.agv_world_core.specs.Told.{world_of};
ghost use Rattle.agv_store_rows.specs.Columns.{edge_columns, node_columns, station_columns};
ghost use Rattle.agv_store_schema.specs.DeskRows.{place_of, table_at};
ghost use Rattle.agv_store_read.specs.ReadTables.{Reads};
ghost use Rattle.agv_store_rows.specs.Rows.{rows_for, rows_in};
ghost use Rattle.agv_store_read.specs.TablesRead.{TellsAll};
ghost use Rattle.agv_store_read.specs.WorldAnswers.{AnswersQuery};
ghost use Rattle.agv_store_schema.specs.declared.table_name.TableName.TheVariants as the;

use crate::table_reading::{query_edges, query_nodes, query_stations};
use agv_layout::{EdgeEnds, Layout, StationSite};
use agv_store_read::OpenFault;
use agv_world_core::{ByLeg, ByName, ByVehicle, Names, UsedNames, World};
use sqlite::{Alter, Connection};
use std::alloc::Global;

/// Reads the layout; returns `None` if it is not set yet.
///
/// # Errors
/// As [`OpenFault`] says.
pub fn query_layout<S: Alter>(
    alloc: Global,
    conn: &mut Connection<S>,
) -> Result<Option<Layout>, OpenFault>
    ensures { AnswersQuery S.Store conn.old conn.new result (λ world layout. layout ≡ layout_set world) }
{
    let tables = query_layout_tables(alloc, conn)?;
    let (nodes, edges, stations) = tables;
    let world = World {
        nodes,
        edges,
        stations,
        vehicles: ByVehicle::new(alloc),
        trips: ByName::new(alloc),
        legs: ByLeg::new(alloc),
        loads: ByName::new(alloc),
        jobs: ByName::new(alloc),
        used: UsedNames::new(alloc),
    };
    layout_in_tables(alloc, &world)
}

/// Reads the nodes, the edges and the stations of the layout.
///
/// # Errors
/// As [`OpenFault`] says.
pub fn query_layout_tables<S: Alter>(
    alloc: Global,
    conn: &mut Connection<S>,
) -> Result<(Names, ByName<EdgeEnds>, ByName<StationSite>), OpenFault>
    ensures { TellsAll S.Store conn.old conn.new result
        (λ world tables. (tables.0 ≡ world.layout.nodes) × (tables.1 ≡ world.layout.edges) × (tables.2 ≡ world.layout.stations))
        (λ lists tables. IsPermutation (table_at (place_of the.Node) lists) (rows_for node_columns tables.0)
        × IsPermutation (table_at (place_of the.Edge) lists) (rows_in edge_columns tables.1)
        × IsPermutation (table_at (place_of the.Station) lists) (rows_in station_columns tables.2)) }
{
    let nodes = query_nodes(alloc, conn)?;
    let edges = query_edges(alloc, conn)?;
    let stations = query_stations(alloc, conn)?;
    Ok((nodes, edges, stations))
}

/// Returns the layout of the tables, if it is set.
fn layout_in_tables(alloc: Global, tables: &World) -> Result<Option<Layout>, OpenFault>
    ensures { Reads result (Some (layout_set (world_of tables.now))) }
{
    Ok(tables.layout(alloc)?)
}
