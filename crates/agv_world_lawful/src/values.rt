//! What is true of the values in every table: names are valid, and numbers are in their ranges. Each
//! function does nothing: a proof calls it for its clause.
ghost use Rattle.std.specs.Prelude.{◌≡◌, Some};
ghost use Rattle.std.specs.FinMap as map;
ghost use Rattle.agv_header.specs.declared.key.VehicleKey.{VehicleKey as Vehicle};
ghost use Rattle.agv_world_lawful.specs.Values.{HasValues, IsSentValue, IsVehicleValue};
ghost use Rattle.agv_world_core.specs.declared.row.VehicleRow.{VehicleRow as Row};

use agv_world_core::{Sent, VehicleRow, World};

/// Proves that the names and the numbers of the tables are valid.
pub(crate) fn has_values(world: &World)
    ensures { HasValues world.now }
{
    world.nodes.names_law();
    world.edges.names_law();
    world.stations.names_law();
    world.vehicles.keys_law();
    vehicle_values(world);
    world.loads.names_law();
    world.jobs.names_law();
    world.used.names_law();
}

/// Proves that the values of each vehicle's row are valid.
fn vehicle_values(world: &World)
    ensures { (key : Vehicle) (row : Row) → map.get world.now.vehicles key ≡ Some row → IsVehicleValue row }
{
    for (_, row) in world.vehicles.iter() {
        row_values(*row);
    }
}

/// Proves that the numbers of a vehicle's row are in their ranges, and the order that it has
/// reported, if any, is a valid name.
fn row_values(row: VehicleRow)
    ensures { IsVehicleValue row }
{
    sent_values(row.orders);
    sent_values(row.instants);
    if let Some(order) = row.reported {
        let _bytes = order.as_bytes();
    }
}

/// Proves that the number and the moment of a topic's last message are in their ranges.
fn sent_values(sent: Sent)
    ensures { IsSentValue sent }
{
    let _moment = sent.at.ms();
}
