//! The description of a vehicle.
ghost use Rattle.std.specs.Prelude.{◌≡◌, is_some};
ghost use Rattle.serde_json.specs.Written.{compact_text};
ghost use Rattle.agv_message_json.specs.Appending.{Appended};
ghost use Rattle.agv_face_http.specs.answers.VehicleBody.{vehicle_data, vehicle_parts};

use crate::answers::piece::{Piece, put_pieces};
use agv_desk::OpenOrder;
use agv_header::{Memory, Name, VehicleKey};
use agv_world_core::VehicleRow;

/// Appends the description of a vehicle.
pub fn put_vehicle(
    out: &mut Vec<u8>,
    key: &VehicleKey,
    row: &VehicleRow,
    order: &Option<OpenOrder>,
) -> Result<(), Memory>
    ensures { Appended result out.old out.new (compact_text (vehicle_data key.now row.now order.now)) }
{
    let astray = is_astray(row);
    match order {
        None => put_parts(out, astray, key, row, &None, None, None),
        Some(open) => {
            let name = Some(open.order);
            put_parts(
                out,
                astray,
                key,
                row,
                &name,
                Some(open.sent),
                open.confirmed,
            )
        }
    }
}

/// Returns whether the vehicle's row has a rest.
fn is_astray(row: &VehicleRow) -> bool
    ensures { result ≡ is_some row.now.rest }
{
    row.rest.is_some()
}

/// Appends the description of a vehicle whose open order has the name `order`, the last update `sent`, and the
/// last confirmed update `confirmed`.
fn put_parts<'a>(
    out: &mut Vec<u8>,
    astray: bool,
    key: &'a VehicleKey,
    row: &'a VehicleRow,
    order: &'a Option<Name>,
    sent: Option<u32>,
    confirmed: Option<u32>,
) -> Result<(), Memory>
    ensures { Appended result out.old out.new
        (compact_text (vehicle_parts astray key.now row.now order.now sent confirmed)) }
{
    let pieces = [
        Piece::Text("{\"astray\":"),
        Piece::Truth(astray),
        Piece::Text(",\"capacity\":"),
        Piece::Number(row.capacity as u64),
        Piece::Text(",\"confirmed\":"),
        Piece::MaybeNumber(confirmed),
        Piece::Text(",\"headerId\":"),
        Piece::MaybeNumber(row.last_header),
        Piece::Text(",\"manufacturer\":"),
        Piece::Name(&key.manufacturer),
        Piece::Text(",\"node\":"),
        Piece::Name(&row.node),
        Piece::Text(",\"order\":"),
        Piece::MaybeName(order),
        Piece::Text(",\"paused\":"),
        Piece::Truth(row.paused),
        Piece::Text(",\"pending\":"),
        Piece::MaybeKind(row.pending),
        Piece::Text(",\"ready\":"),
        Piece::Truth(row.ready),
        Piece::Text(",\"sent\":"),
        Piece::MaybeNumber(sent),
        Piece::Text(",\"serialNumber\":"),
        Piece::Name(&key.serial),
        Piece::Text("}"),
    ];
    put_pieces(out, &pieces)
}
