//! The description of a job.
ghost use Rattle.serde_json.specs.Written.{compact_text};
ghost use Rattle.agv_message_json.specs.Appending.{Appended};
ghost use Rattle.agv_face_http.specs.answers.JobBody.{job_data, job_parts};

use crate::answers::piece::{Piece, put_pieces};
use agv_header::{Memory, Name, VehicleKey};
use agv_world_core::{Carrier, JobRow};

/// Appends the description of a job.
pub fn put_job(
    out: &mut Vec<u8>,
    job: &Name,
    row: &JobRow,
    carrier: &Option<Carrier>,
) -> Result<(), Memory>
    ensures { Appended result out.old out.new (compact_text (job_data job.now row.now carrier.now)) }
{
    match carrier {
        None => put_parts(out, job, row, &None, &None),
        Some(carrier) => put_parts(out, job, row, &Some(carrier.order), &Some(carrier.vehicle)),
    }
}

/// Appends the description of a job that this vehicle carries out by this order.
fn put_parts<'a>(
    out: &mut Vec<u8>,
    job: &'a Name,
    row: &'a JobRow,
    order: &'a Option<Name>,
    vehicle: &'a Option<VehicleKey>,
) -> Result<(), Memory>
    ensures { Appended result out.old out.new (compact_text (job_parts job.now row.now order.now vehicle.now)) }
{
    let pieces = [
        Piece::Text("{\"from\":"),
        Piece::Name(&row.origin),
        Piece::Text(",\"job\":"),
        Piece::Name(job),
        Piece::Text(",\"load\":"),
        Piece::Name(&row.load),
        Piece::Text(",\"order\":"),
        Piece::MaybeName(order),
        Piece::Text(",\"phase\":"),
        Piece::Phase(row.phase),
        Piece::Text(",\"to\":"),
        Piece::Name(&row.target),
        Piece::Text(",\"vehicle\":"),
        Piece::MaybeKey(vehicle),
        Piece::Text("}"),
    ];
    put_pieces(out, &pieces)
}
