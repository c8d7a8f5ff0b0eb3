//! The rows of the world fit the columns of their tables. The function does nothing: its clauses are the law.
ghost use Rattle.std.specs.Prelude.{ℕ, List};
ghost use Rattle.agv_header.specs.declared.key.Thing.{Thing};
ghost use Rattle.agv_header.specs.declared.key.VehicleKey.{VehicleKey};
ghost use Rattle.agv_layout.specs.declared.edge.EdgeEnds.{EdgeEnds};
ghost use Rattle.agv_layout.specs.declared.station.StationSite.{StationSite};
ghost use Rattle.agv_stock.specs.declared.place.Place.{Place};
ghost use Rattle.agv_world_core.specs.declared.key.LegKey.{LegKey};
ghost use Rattle.agv_world_core.specs.declared.key.UseKey.{UseKey};
ghost use Rattle.agv_world_core.specs.declared.row.JobRow.{JobRow};
ghost use Rattle.agv_world_core.specs.declared.row.VehicleRow.{VehicleRow};
ghost use Rattle.agv_store_rows.specs.Columns.{meta_columns, node_columns, edge_columns, station_columns, vehicle_columns, capacity_columns, journey_columns, act_columns, leg_columns, load_columns, job_columns, hold_columns, used_columns};
ghost use Rattle.agv_store_schema.specs.DeskRows.{FitsTable};
ghost use Rattle.agv_store_schema.specs.declared.table_name.TableName.TheVariants as the;
ghost use Rattle.agv_store_rows.specs.declared.capacity_row.CapacityRow.{CapacityRow};
ghost use Rattle.agv_store_rows.specs.declared.act_key.ActKey.{ActKey};
ghost use Rattle.agv_store_rows.specs.declared.act_row.ActRow.{ActRow};
ghost use Rattle.agv_store_rows.specs.declared.journey_row.JourneyRow.{JourneyRow};

/// Proves that a row has as many values as its table has columns, each NULL or of the column's type.
pub fn rows_fit_their_tables()
    ensures meta { (id schema : ℕ) → FitsTable the.Meta (meta_columns id schema) }
    ensures node { (id : List ℕ) → FitsTable the.Node (node_columns id) }
    ensures edge { (id : List ℕ) (ends : EdgeEnds) → FitsTable the.Edge (edge_columns id ends) }
    ensures station { (id : List ℕ) (site : StationSite) → FitsTable the.Station (station_columns id site) }
    ensures vehicle { (key : VehicleKey) (row : VehicleRow) → FitsTable the.Vehicle (vehicle_columns key row) }
    ensures capacity { (key : VehicleKey) (own : CapacityRow) → FitsTable the.Capacity (capacity_columns key own) }
    ensures journey { (order : List ℕ) (row : JourneyRow) → FitsTable the.Journey (journey_columns order row) }
    ensures act { (key : ActKey) (row : ActRow) → FitsTable the.Act (act_columns key row) }
    ensures leg { (key : LegKey) (edge : List ℕ) → FitsTable the.Leg (leg_columns key edge) }
    ensures load { (id : List ℕ) (place : Place) → FitsTable the.Load (load_columns id place) }
    ensures job { (id : List ℕ) (job : JobRow) → FitsTable the.Job (job_columns id job) }
    ensures hold { (thing : Thing) (key : VehicleKey) → FitsTable the.Hold (hold_columns thing key) }
    ensures used { (key : UseKey) → FitsTable the.Used (used_columns key) }
{}
