//! Laws about how the rows of a world are written into columns. Each function does nothing: its clauses are the law.
ghost use Rattle.std.specs.Prelude.{◌≡◌, ℕ, List, Some};
ghost use Rattle.sqlite_value.specs.Order.{Row};
ghost use Rattle.agv_header.specs.Name.{IsName};
ghost use Rattle.agv_header.specs.declared.key.Thing.{Thing};
ghost use Rattle.agv_header.specs.declared.key.VehicleKey.{VehicleKey};
ghost use Rattle.agv_layout.specs.declared.edge.EdgeEnds.{EdgeEnds};
ghost use Rattle.agv_layout.specs.declared.station.StationSite.{StationSite};
ghost use Rattle.agv_stock.specs.declared.place.Place.{Place};
ghost use Rattle.agv_world_core.specs.Lawful.{IsKey};
ghost use Rattle.agv_world_core.specs.declared.key.LegKey.{LegKey};
ghost use Rattle.agv_world_core.specs.declared.key.UseKey.{UseKey};
ghost use Rattle.agv_world_core.specs.declared.row.JobRow.{JobRow};
ghost use Rattle.agv_world_core.specs.declared.row.VehicleRow.{VehicleRow};
ghost use Rattle.agv_store_rows.specs.Columns.{meta_columns, meta_in, node_columns, node_in, edge_columns, edge_in, station_columns, station_in, vehicle_columns, vehicle_in, capacity_columns, capacity_in, journey_columns, journey_in, act_columns, act_in, leg_columns, leg_in, load_columns, load_in, job_columns, job_in, hold_columns, hold_in, used_columns, used_in};
ghost use Rattle.agv_store_rows.specs.TypedRows.{IsNumber, AreEnds, IsStationSite, IsVehicleRow, IsJourneyRow, IsActRow, IsActRowKey, IsLegKey, IsPlace, IsJobRow, IsThing};
ghost use Rattle.agv_store_rows.specs.declared.capacity_row.CapacityRow.{CapacityRow};
ghost use Rattle.agv_store_rows.specs.declared.act_key.ActKey.{ActKey};
ghost use Rattle.agv_store_rows.specs.declared.act_row.ActRow.{ActRow};
ghost use Rattle.agv_store_rows.specs.declared.journey_row.JourneyRow.{JourneyRow};

/// Proves that decoding the columns of a row of the world gives that row, except for the capacity of a vehicle, which
/// has a row of its own.
pub fn columns_tell_their_row()
    ensures meta { (id schema : ℕ) → IsNumber id → IsNumber schema → meta_in (meta_columns id schema) ≡ Some (id, schema) }
    ensures node { (id : List ℕ) → IsName id → node_in (node_columns id) ≡ Some id }
    ensures edge { (id : List ℕ) (ends : EdgeEnds) → IsName id → AreEnds ends → edge_in (edge_columns id ends) ≡ Some (id, ends) }
    ensures station { (id : List ℕ) (site : StationSite) → IsName id → IsStationSite site → station_in (station_columns id site) ≡ Some (id, site) }
    ensures vehicle { (key : VehicleKey) (row : VehicleRow) → IsKey key → IsVehicleRow row → vehicle_in (vehicle_columns key row) ≡ Some (key, record row { capacity = 1 }) }
    ensures capacity { (key : VehicleKey) (own : CapacityRow) → IsKey key → IsNumber own.capacity → capacity_in (capacity_columns key own) ≡ Some (key, own) }
    ensures journey { (order : List ℕ) (row : JourneyRow) → IsName order → IsJourneyRow row → journey_in (journey_columns order row) ≡ Some (order, row) }
    ensures act { (key : ActKey) (row : ActRow) → IsActRowKey key → IsActRow row → act_in (act_columns key row) ≡ Some (key, row) }
    ensures leg { (key : LegKey) (edge : List ℕ) → IsLegKey key → IsName edge → leg_in (leg_columns key edge) ≡ Some (key, edge) }
    ensures load { (id : List ℕ) (place : Place) → IsName id → IsPlace place → load_in (load_columns id place) ≡ Some (id, place) }
    ensures job { (id : List ℕ) (job : JobRow) → IsName id → IsJobRow job → job_in (job_columns id job) ≡ Some (id, job) }
    ensures hold { (thing : Thing) (key : VehicleKey) → IsThing thing → IsKey key → hold_in (hold_columns thing key) ≡ Some (thing, key) }
    ensures used { (key : UseKey) → IsName key.name → used_in (used_columns key) ≡ Some key }
{}

/// Proves that a row of SQL that decodes to a row of the world has exactly the columns that are written for it.
pub fn a_row_told_writes_its_columns()
    ensures meta { (row : Row) (id schema : ℕ) → meta_in row ≡ Some (id, schema) → row ≡ meta_columns id schema }
    ensures node { (row : Row) (id : List ℕ) → node_in row ≡ Some id → row ≡ node_columns id }
    ensures edge { (row : Row) (id : List ℕ) (ends : EdgeEnds) → edge_in row ≡ Some (id, ends) → row ≡ edge_columns id ends }
    ensures station { (row : Row) (id : List ℕ) (site : StationSite) → station_in row ≡ Some (id, site) → row ≡ station_columns id site }
    ensures vehicle { (row : Row) (key : VehicleKey) (vehicle : VehicleRow) → vehicle_in row ≡ Some (key, vehicle) → row ≡ vehicle_columns key vehicle }
    ensures capacity { (row : Row) (key : VehicleKey) (own : CapacityRow) → capacity_in row ≡ Some (key, own) → row ≡ capacity_columns key own }
    ensures journey { (row : Row) (order : List ℕ) (journey : JourneyRow) → journey_in row ≡ Some (order, journey) → row ≡ journey_columns order journey }
    ensures act { (row : Row) (key : ActKey) (act : ActRow) → act_in row ≡ Some (key, act) → row ≡ act_columns key act }
    ensures leg { (row : Row) (key : LegKey) (edge : List ℕ) → leg_in row ≡ Some (key, edge) → row ≡ leg_columns key edge }
    ensures load { (row : Row) (id : List ℕ) (place : Place) → load_in row ≡ Some (id, place) → row ≡ load_columns id place }
    ensures job { (row : Row) (id : List ℕ) (job : JobRow) → job_in row ≡ Some (id, job) → row ≡ job_columns id job }
    ensures hold { (row : Row) (thing : Thing) (key : VehicleKey) → hold_in row ≡ Some (thing, key) → row ≡ hold_columns thing key }
    ensures used { (row : Row) (key : UseKey) → used_in row ≡ Some key → row ≡ used_columns key }
{}
