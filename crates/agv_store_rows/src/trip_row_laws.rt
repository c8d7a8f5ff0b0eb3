//! Laws about the rows of open trips, for all trips. Each function does nothing: its clauses are the law.
ghost use Rattle.std.specs.Prelude.{◌≡◌, ◌∷◌, ◌++◌, [], ℕ, List, not, filter, slice_get, IsPermutation};
ghost use Rattle.std.specs.FinMap as finite;
ghost use Rattle.std.specs.List.Sorted.{IsStrictlySortedBy};
ghost use Rattle.std.specs.Map.{keys_of};
ghost use Rattle.std.specs.Option.{option_and_then, option_map};
ghost use Rattle.agv_header.specs.Name.{name_cmp};
ghost use Rattle.agv_world_core.specs.declared.row.TripRow.{TripRow};
ghost use Rattle.agv_store_rows.specs.ActKeys.{act_cmp};
ghost use Rattle.agv_store_rows.specs.TripRows.{act_row, act_rows, acts_of, all_act_rows, is_journey_of, is_of, journey_of, journey_rows, journeys_of, rows_if};
ghost use Rattle.agv_store_rows.specs.declared.act_key.ActKey.{ActKey};

/// Proves that the keys of the rows are strictly ascending: no two journeys have the same order id, and no two acts the
/// same order id and number. So the tables list exactly these rows, and a table of the acts of one trip lists exactly
/// those.
pub fn rows_have_keys()
    ensures journeys { (trips : finite.FinMap name_cmp TripRow) → IsStrictlySortedBy name_cmp (keys_of (journey_rows trips)) }
    ensures acts { (trips : finite.FinMap name_cmp TripRow) → IsStrictlySortedBy act_cmp (keys_of (all_act_rows trips)) }
    ensures journeys_listed { (trips : finite.FinMap name_cmp TripRow) → finite.entries (journeys_of trips) ≡ journey_rows trips }
    ensures acts_listed { (trips : finite.FinMap name_cmp TripRow) → finite.entries (acts_of trips) ≡ all_act_rows trips }
    ensures own_acts_listed { (order : List ℕ) (trip : TripRow) → finite.entries (finite.from_entries {R = act_cmp} (act_rows order trip)) ≡ act_rows order trip }
{}

/// Proves that the tables have at a key the row of the trip of that order, or of its act of that number.
pub fn tables_have_rows()
    ensures journeys { (trips : finite.FinMap name_cmp TripRow) (order : List ℕ) → finite.get (journeys_of trips) order ≡ option_map journey_of (finite.get trips order) }
    ensures acts { (trips : finite.FinMap name_cmp TripRow) (key : ActKey)
        → finite.get (acts_of trips) key ≡ option_and_then (λ trip. option_map act_row (slice_get trip.acts key.n)) (finite.get trips key.order) }
{}

/// Proves that the rows of an order are those of its trip; there are none if the order has no open trip.
pub fn rows_are_of_trips()
    ensures journeys { (trips : finite.FinMap name_cmp TripRow) (order : List ℕ)
        → filter (is_journey_of order) (journey_rows trips) ≡ rows_if (λ trip. (order, journey_of trip) ∷ []) (finite.get trips order) }
    ensures acts { (trips : finite.FinMap name_cmp TripRow) (order : List ℕ)
        → filter (is_of order) (all_act_rows trips) ≡ rows_if (act_rows order) (finite.get trips order) }
{}

/// Proves that removing the trip of an order removes the rows of the order, and that writing it puts its rows in place
/// of those of the order.
pub fn rows_follow_changes()
    ensures journeys_removed { (trips : finite.FinMap name_cmp TripRow) (order : List ℕ)
        → journey_rows (finite.remove trips order) ≡ filter (λ row. not (is_journey_of order row)) (journey_rows trips) }
    ensures acts_removed { (trips : finite.FinMap name_cmp TripRow) (order : List ℕ)
        → all_act_rows (finite.remove trips order) ≡ filter (λ row. not (is_of order row)) (all_act_rows trips) }
    ensures journeys_written { (trips : finite.FinMap name_cmp TripRow) (order : List ℕ) (trip : TripRow)
        → IsPermutation ((order, journey_of trip) ∷ filter (λ row. not (is_journey_of order row)) (journey_rows trips)) (journey_rows (finite.insert trips order trip)) }
    ensures acts_written { (trips : finite.FinMap name_cmp TripRow) (order : List ℕ) (trip : TripRow)
        → IsPermutation (act_rows order trip ++ filter (λ row. not (is_of order row)) (all_act_rows trips)) (all_act_rows (finite.insert trips order trip)) }
{}
