//! Bodies that are tables: the layout file and the stocktake file.
ghost use Rattle.std.specs.Prelude.{◌≡◌, Ok, IfErr, IfOk};
ghost use Rattle.agv_face_http.specs.bodies.CsvBodies.{stocktake_call, layout_call};
ghost use Rattle.agv_message_json.specs.Body.{IsFaultOf};

use agv_count::{CsvFault, read_count, read_layout};
use agv_desk::Call;
use agv_header::{Name, Refusal};
use agv_message_json::BodyFault;
use std::alloc::Global;

/// Returns the call that the body of `SetLayout` makes.
///
/// `Refused` with `BadCsv` where the body is no layout file; `Memory` when out of memory.
#[tactic(auto, unfolding(crate::specs::bodies::CsvBodies::layout_call))]
pub fn layout_call(alloc: Global, body: &[u8]) -> Result<Call, BodyFault>
    ensures ok { IfOk result (λ call. layout_call body.now ≡ Ok call) }
    ensures err { IfErr result (λ fault. IsFaultOf fault (layout_call body.now)) }
{
    match read_layout(alloc, body) {
        Ok(rows) => Ok(Call::SetLayout { rows: rows.into() }),
        Err(CsvFault::BadCsv) => Err(BodyFault::Refused(Refusal::BadCsv)),
        Err(CsvFault::Memory) => Err(BodyFault::Memory),
    }
}

/// Returns the call that the body of `Stocktake` makes.
///
/// `Refused` with `BadCsv` where the body is no stocktake file; `Memory` when out of memory.
#[tactic(auto, unfolding(crate::specs::bodies::CsvBodies::stocktake_call))]
pub fn stocktake_call(alloc: Global, reference: &Name, body: &[u8]) -> Result<Call, BodyFault>
    ensures ok { IfOk result (λ call. stocktake_call reference.now body.now ≡ Ok call) }
    ensures err { IfErr result (λ fault. IsFaultOf fault (stocktake_call reference.now body.now)) }
{
    match read_count(alloc, body) {
        Ok(rows) => Ok(Call::Stocktake {
            reference: *reference,
            rows: rows.into(),
        }),
        Err(CsvFault::BadCsv) => Err(BodyFault::Refused(Refusal::BadCsv)),
        Err(CsvFault::Memory) => Err(BodyFault::Memory),
    }
}
