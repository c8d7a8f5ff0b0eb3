//! Laws of the definitions that the contracts of this crate cite. Each function does nothing: its
//! clause is the law.
ghost use Rattle.std.specs.Prelude.{◌≡◌, ◌↔◌, ◌<◌, ◌≤◌, ◌*◌, ℕ, List, [], filter, length, IsTrue, None, Some, Ok, Err};
ghost use Rattle.agv_header.specs.declared.key.VehicleKey.{VehicleKey as KeyOf};
ghost use Rattle.agv_layout.specs.Layout.{Layout as LayoutOf, Name as NameOf};
ghost use Rattle.agv_stock.specs.declared.job.Job.{Job as JobOf};
ghost use Rattle.agv_layout.specs.declared.edge.Edge.{Edge as EdgeOf};
ghost use Rattle.agv_order.specs.declared.act.Act.{Act as ActOf};
ghost use Rattle.agv_order.specs.declared.fault.PlanFault.TheVariants as fault;
ghost use Rattle.agv_layout.specs.Walk.{IsRoute};
ghost use Rattle.agv_order.specs.Drives.{drive_planned, IsDriveTo};
ghost use Rattle.agv_order.specs.Plans.{planned};
ghost use Rattle.agv_order.specs.Tours.{MakesStops, IsPlanOf};
ghost use Rattle.agv_order.specs.WellFormed.{IsWellFormed};
ghost use Rattle.agv_order.specs.WellFormedTest.{is_well_formed};
ghost use Rattle.agv_order.specs.declared.joins.Joined.TheVariants.{Taken, Same};
ghost use Rattle.agv_order.specs.declared.joins.JoinRefusal.TheVariants as refusal;
ghost use Rattle.agv_order.specs.declared.stop.Stop.{Stop as StopOf};
ghost use Rattle.agv_order.specs.declared.trip.Trip.{Trip as TripOf};
ghost use Rattle.agv_order.specs.Joins.{join_of};
ghost use Rattle.agv_order.specs.Messages.{whole_of, message_of};
ghost use Rattle.agv_order.specs.Releases.{CanRelease, released};
ghost use Rattle.agv_order.specs.StopPlaces.{ArePaired, CanBeDone, stop_picks};
ghost use Rattle.agv_order.specs.Stops.{are_paired, stops_fit};

/// Proves that a vehicle which holds the whole order of a trip, and takes the update that releases more of it,
/// then holds the whole order of the trip after that release.
pub fn joins_next_update()
    ensures { (trip : TripOf) (n : ℕ) → CanRelease trip n
        → join_of (Some (whole_of trip)) (message_of (released trip n)) ≡ Ok (Taken (whole_of (released trip n))) }
{}

/// Proves that a vehicle which holds the whole order of a trip discards another message of the same update, and
/// refuses each earlier one.
pub fn takes_no_earlier_update()
    ensures { (trip earlier : TripOf) → earlier.order ≡ trip.order
        → (earlier.sent ≡ trip.sent → join_of (Some (whole_of trip)) (message_of earlier) ≡ Ok Same)
        × (earlier.sent < trip.sent → join_of (Some (whole_of trip)) (message_of earlier) ≡ Err refusal.Lower) }
{}

/// Proves that a trip planned for at most eight stops that fit is well formed.
pub fn plans_are_well_formed()
    ensures { (layout : LayoutOf) (vehicle : KeyOf) (jobs : List JobOf) (stops : List StopOf) (order at : NameOf) (base : ℕ) (trip : TripOf)
        → IsTrue (stops_fit stops) → length stops ≤ 8
        → planned layout vehicle jobs stops order at base ≡ Ok trip → IsWellFormed layout trip }
{}

/// Proves that a well-formed trip, whose last update the vehicle has confirmed, stays so when more of it is released.
pub fn releases_keep_trips_well_formed()
    ensures { (layout : LayoutOf) (trip : TripOf) (n : ℕ) → IsWellFormed layout trip → trip.confirmed ≡ Some trip.sent
        → CanRelease trip n → IsWellFormed layout (released trip n) }
{}

/// Proves that stops can be carried out exactly if there is at least one, and each job that a stop names is picked
/// at exactly one place of the list, and dropped at exactly one, later place.
pub fn fits_as_said()
    ensures { (stops : List StopOf) → IsTrue (stops_fit stops) ↔ CanBeDone stops }
{}

/// Proves that each job that a stop names is picked and then dropped exactly if it is picked at exactly one place of
/// the list, and dropped at exactly one, later place.
pub fn pairs_as_said()
    ensures { (stops : List StopOf) → IsTrue (are_paired stops) ↔ ArePaired stops }
{}

/// Proves that stops which can be carried out are paired.
pub fn fitting_stops_are_paired()
    ensures { (stops : List StopOf) → IsTrue (stops_fit stops) → IsTrue (are_paired stops) }
{}

/// Proves that paired stops are twice as many as the picks among them.
pub fn stops_twice()
    ensures { (stops : List StopOf) → IsTrue (are_paired stops) → length stops ≡ 2 * length (filter stop_picks stops) }
{}

/// Proves what a drive is by the layout's routes: it leads from the vehicle's node to the other one by the route, over
/// at least one edge, without an act; and there is one if the route has 1 to 200 edges, and as many as are to be
/// released. It proves of each refusal exactly when it comes.
pub fn drives_go_by_the_route()
    ensures goes { (layout : LayoutOf) (vehicle : KeyOf) (order at to : NameOf) (base : ℕ) (trip : TripOf)
        → drive_planned layout vehicle order at to base ≡ Ok trip → IsDriveTo layout vehicle order at to base trip × (0 < length trip.edges) }
    ensures made { (layout : LayoutOf) (vehicle : KeyOf) (order at to : NameOf) (base : ℕ) (ids : List NameOf)
        → IsRoute layout at to ids → 0 < length ids → length ids ≤ 200 → base ≤ length ids
        → (trip : TripOf) × (drive_planned layout vehicle order at to base ≡ Ok trip) }
    ensures none { (layout : LayoutOf) (vehicle : KeyOf) (order at to : NameOf) (base : ℕ)
        → (drive_planned layout vehicle order at to base ≡ Err fault.NoWalk) ↔ ((ids : List NameOf) → IsRoute layout at to ids → ids ≡ []) }
    ensures long { (layout : LayoutOf) (vehicle : KeyOf) (order at to : NameOf) (base : ℕ)
        → (drive_planned layout vehicle order at to base ≡ Err fault.TooLong) ↔ ((ids : List NameOf) × IsRoute layout at to ids × (200 < length ids)) }
    ensures beyond { (layout : LayoutOf) (vehicle : KeyOf) (order at to : NameOf) (base : ℕ)
        → (drive_planned layout vehicle order at to base ≡ Err fault.Beyond)
        ↔ ((ids : List NameOf) × IsRoute layout at to ids × (0 < length ids) × (length ids ≤ 200) × (length ids < base)) }
{}

/// Proves that a drive that is planned is well formed.
pub fn drives_are_well_formed()
    ensures { (layout : LayoutOf) (vehicle : KeyOf) (order at to : NameOf) (base : ℕ) (trip : TripOf)
        → drive_planned layout vehicle order at to base ≡ Ok trip → IsWellFormed layout trip }
{}

/// Proves what a plan is by the layout's routes: it leads from the vehicle's node to the node of each stop in turn,
/// each time by the route, and the act of each stop is where its part of the way ends. If there is no plan because
/// no walk leads to a stop, no edges and acts go from stop to stop in this way.
pub fn plans_go_by_routes()
    ensures goes { (layout : LayoutOf) (jobs : List JobOf) (vehicle : KeyOf) (stops : List StopOf) (order at : NameOf) (base : ℕ) (trip : TripOf)
        → planned layout vehicle jobs stops order at base ≡ Ok trip → IsPlanOf layout jobs stops at base trip }
    ensures none { (layout : LayoutOf) (jobs : List JobOf) (vehicle : KeyOf) (stops : List StopOf) (order at : NameOf) (base : ℕ)
        → planned layout vehicle jobs stops order at base ≡ Err fault.NoWalk
        → (edges : List EdgeOf) (acts : List ActOf) → ¬ MakesStops layout jobs at 0 stops edges acts }
{}

/// Proves that a vehicle which holds no order, and takes the first message of a trip, holds its whole order.
pub fn takes_the_first_message()
    ensures { (trip : TripOf) → trip.sent ≡ 0 → trip.first ≡ 0
        → join_of None (message_of trip) ≡ Ok (Taken (whole_of trip)) }
{}

/// Proves that the test of well-formed trips is equivalent to their definition, on any layout.
pub fn tests_well_formed()
    ensures { (layout : LayoutOf) (trip : TripOf) → IsTrue (is_well_formed layout trip) ↔ IsWellFormed layout trip }
{}
