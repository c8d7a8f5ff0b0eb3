//! Laws about what a look-up returns of the rows of a world. Each function does nothing: its clause is the law.
ghost use Rattle.std.specs.Prelude.{◌≡◌, ◌∷◌, [], ℕ, List, if◌then◌else◌};
ghost use Rattle.std.specs.FinMap as finite;
ghost use Rattle.std.specs.FinSet as set;
ghost use Rattle.sqlite_value.specs.Order.{Row};
ghost use Rattle.agv_header.specs.declared.key.Thing.{Thing};
ghost use Rattle.agv_header.specs.declared.key.VehicleKey.{VehicleKey};
ghost use Rattle.agv_world_core.specs.Maps.{Maps};
ghost use Rattle.agv_world_core.specs.declared.key.LegKey.{LegKey};
ghost use Rattle.agv_world_core.specs.declared.key.UseKey.{UseKey};
ghost use Rattle.agv_store_ask.specs.QueriedRows.{ShowAsked};
ghost use Rattle.agv_store_rows.specs.ValueEncodings.{number_cell};
ghost use Rattle.agv_store_rows.specs.Columns.{meta_columns, node_columns, edge_columns, station_columns, vehicle_columns, vehicle_capacity_columns, journey_columns, act_columns, leg_columns, load_columns, job_columns, hold_columns, used_columns};
ghost use Rattle.agv_store_schema.specs.DeskRows.{rows_of_key};
ghost use Rattle.agv_store_rows.specs.RowKeys.{name_key, vehicle_key, act_row_key, leg_key, hold_key};
ghost use Rattle.agv_store_rows.specs.Rows.{ShowAll, TellRows, row_if};
ghost use Rattle.agv_store_rows.specs.TripRows.{acts_of, journeys_of};
ghost use Rattle.agv_store_rows.specs.declared.act_key.ActKey.{ActKey};
ghost use Rattle.agv_store_schema.specs.declared.table_name.TableName.TheVariants as the;

/// Proves that, in lists with the rows of the maps of a world, the rows of a key are the one that the maps have at the
/// key, or none.
pub fn a_key_shows_its_row()
    ensures meta { (lists : List (List Row)) (maps : Maps) → TellRows lists maps → (id : ℕ)
        → rows_of_key the.Meta (number_cell id ∷ []) lists ≡ row_if (meta_columns id) (finite.get maps.meta id) }
    ensures node { (lists : List (List Row)) (maps : Maps) → TellRows lists maps → (id : List ℕ)
        → rows_of_key the.Node (name_key id) lists ≡ (if set.contains maps.nodes id then node_columns id ∷ [] else []) }
    ensures edge { (lists : List (List Row)) (maps : Maps) → TellRows lists maps → (id : List ℕ)
        → rows_of_key the.Edge (name_key id) lists ≡ row_if (edge_columns id) (finite.get maps.edges id) }
    ensures station { (lists : List (List Row)) (maps : Maps) → TellRows lists maps → (id : List ℕ)
        → rows_of_key the.Station (name_key id) lists ≡ row_if (station_columns id) (finite.get maps.stations id) }
    ensures vehicle { (lists : List (List Row)) (maps : Maps) → TellRows lists maps → (key : VehicleKey)
        → rows_of_key the.Vehicle (vehicle_key key) lists ≡ row_if (vehicle_columns key) (finite.get maps.vehicles key) }
    ensures capacity { (lists : List (List Row)) (maps : Maps) → TellRows lists maps → (key : VehicleKey)
        → rows_of_key the.Capacity (vehicle_key key) lists ≡ row_if (vehicle_capacity_columns key) (finite.get maps.vehicles key) }
    ensures journey { (lists : List (List Row)) (maps : Maps) → TellRows lists maps → (order : List ℕ)
        → rows_of_key the.Journey (name_key order) lists ≡ row_if (journey_columns order) (finite.get (journeys_of maps.trips) order) }
    ensures act { (lists : List (List Row)) (maps : Maps) → TellRows lists maps → (key : ActKey)
        → rows_of_key the.Act (act_row_key key) lists ≡ row_if (act_columns key) (finite.get (acts_of maps.trips) key) }
    ensures leg { (lists : List (List Row)) (maps : Maps) → TellRows lists maps → (key : LegKey)
        → rows_of_key the.Leg (leg_key key) lists ≡ row_if (leg_columns key) (finite.get maps.legs key) }
    ensures load { (lists : List (List Row)) (maps : Maps) → TellRows lists maps → (id : List ℕ)
        → rows_of_key the.Load (name_key id) lists ≡ row_if (load_columns id) (finite.get maps.loads id) }
    ensures job { (lists : List (List Row)) (maps : Maps) → TellRows lists maps → (id : List ℕ)
        → rows_of_key the.Job (name_key id) lists ≡ row_if (job_columns id) (finite.get maps.jobs id) }
    ensures hold { (lists : List (List Row)) (maps : Maps) → TellRows lists maps → (thing : Thing)
        → rows_of_key the.Hold (hold_key thing) lists ≡ row_if (hold_columns thing) (finite.get maps.holds thing) }
    ensures used { (lists : List (List Row)) (maps : Maps) → TellRows lists maps → (key : UseKey)
        → rows_of_key the.Used (used_columns key) lists ≡ (if set.contains maps.used key then used_columns key ∷ [] else []) }
{}

/// Proves that, in lists with the rows of the maps of a world, the rows of a table that pass a test are the columns of
/// the entries of the world's table that pass it.
pub fn a_test_shows_its_rows()
    ensures { (lists : List (List Row)) (maps : Maps) → TellRows lists maps → ShowAll lists maps }
{}

/// Proves that, in lists with the rows of the maps of a world, each look-up and each count by other columns than the
/// key is of the rows of exactly those entries of the world's table that it asks for: the journey of a vehicle, the
/// acts and the edges of an order, the loads at a station or on a vehicle, and the jobs of a load or to a station that
/// are in a phase.
pub fn a_query_shows_its_rows()
    ensures { (lists : List (List Row)) (maps : Maps) → TellRows lists maps → ShowAsked lists maps }
{}
