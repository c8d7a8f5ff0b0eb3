//! The keys of rows as SQL parameters.
ghost use Rattle.std.specs.Prelude.{◌≡◌};
ghost use Rattle.sqlite.specs.Values.{bound};
ghost use Rattle.agv_store_rows.specs.RowKeys.{name_key, vehicle_key, leg_key, hold_key};

use crate::row_values::name_value;
use agv_header::{Name, Thing, VehicleKey};
use agv_world_core::LegKey;
use sqlite::types::{ToSql, ValueRef};

/// Returns the key of a row whose key is one name.
pub fn name_key_values(id: &Name) -> [ValueRef<'_>; 1]
    ensures { bound result ≡ name_key id.now }
{
    [name_value(id)]
}

/// Returns the key of a vehicle's row.
pub fn vehicle_key_values(key: &VehicleKey) -> [ValueRef<'_>; 2]
    ensures { bound result ≡ vehicle_key key.now }
{
    [name_value(&key.manufacturer), name_value(&key.serial)]
}

/// Returns the key of the row of an edge of an open trip.
pub fn leg_key_values(key: &LegKey) -> [ValueRef<'_>; 2]
    ensures { bound result ≡ leg_key key.now }
{
    [name_value(&key.order), key.k.to_sql()]
}

/// Returns the key of the row of a hold.
pub fn hold_key_values(thing: &Thing) -> [ValueRef<'_>; 2]
    ensures { bound result ≡ hold_key thing.now }
{
    let (kind, id) = match thing {
        Thing::Node(id) => ("node", id),
        Thing::Edge(id) => ("edge", id),
    };
    [kind.to_sql(), name_value(id)]
}
