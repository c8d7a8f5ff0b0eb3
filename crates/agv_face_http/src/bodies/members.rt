//! Readers of the members of a JSON object, for bodies. `agv_message_json` finds the members.
ghost use Rattle.std.specs.Prelude.{◌≡◌};
ghost use Rattle.serde_json.specs.View.{view};
ghost use Rattle.agv_face_http.specs.bodies.Members.{key_at, name_at, name_in, optional_name_at, whole_in, whole_or_at};

use agv_header::{Name, VehicleKey};
use agv_message_json::{below_2_32, member};
use serde_json::Value;

/// Reads the member as a name.
#[tactic(auto, unfolding(crate::specs::bodies::Members::name_at, agv_message_json::specs::Members::text_at))]
pub(crate) fn name(object: &Value, member_name: &str) -> Option<Name>
    ensures { result ≡ name_at member_name.now (view object.now) }
{
    name_in(member(object, member_name)?)
}

/// Reads the member as a name, `Some(None)` where it is absent.
#[tactic(auto, unfolding(crate::specs::bodies::Members::optional_name_at))]
pub(crate) fn optional_name(object: &Value, member_name: &str) -> Option<Option<Name>>
    ensures { result ≡ optional_name_at member_name.now (view object.now) }
{
    match member(object, member_name) {
        Some(value) => Some(Some(name_in(value)?)),
        None => Some(None),
    }
}

/// Reads a value as a name.
fn name_in(value: &Value) -> Option<Name>
    ensures { result ≡ name_in (view value.now) }
{
    Name::of_bytes(value.as_str()?.as_bytes())
}

/// Reads the member as a whole number from 0 to 4294967295, or returns `absent` where it is absent.
#[tactic(auto, unfolding(crate::specs::bodies::Members::whole_or_at))]
pub(crate) fn whole_or(object: &Value, member_name: &str, absent: u32) -> Option<u32>
    ensures { result ≡ whole_or_at absent member_name.now (view object.now) }
{
    match member(object, member_name) {
        Some(value) => whole_in(value),
        None => Some(absent),
    }
}

/// Reads a value as a whole number from 0 to 4294967295.
fn whole_in(value: &Value) -> Option<u32>
    ensures { result ≡ whole_in (view value.now) }
{
    below_2_32(value.as_u64()?)
}

/// Reads the vehicle that the members `manufacturer` and `serialNumber` name.
#[tactic(auto, unfolding(crate::specs::bodies::Members::key_at))]
pub(crate) fn key(object: &Value) -> Option<VehicleKey>
    ensures { result ≡ key_at (view object.now) }
{
    let manufacturer = name(object, "manufacturer")?;
    let serial = name(object, "serialNumber")?;
    Some(VehicleKey {
        manufacturer,
        serial,
    })
}
