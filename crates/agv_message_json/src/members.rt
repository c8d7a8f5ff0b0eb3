//! Members of a JSON object: each reader returns the member of that name if it is there, isn't
//! null, and has the right kind.
ghost use Rattle.std.specs.Prelude.{◌≡◌, Some, None, option_map, if◌then◌else◌, map};
ghost use Rattle.serde_json.specs.View.{view};
ghost use Rattle.agv_message_json.specs.Members.{unless_null, member_at, has as has_member, below_2_32, whole_at, text_at, items_at, truth_at};

use serde_json::Value;

/// Returns the member of that name, unless it is null; `None` if the value is no object. It takes no memory.
#[tactic(auto, unfolding(crate::specs::Members::member_at))]
pub fn member<'a>(object: &'a Value, name: &str) -> Option<&'a Value>
    ensures { option_map (λ value. view value.now) result ≡ member_at name.now (view object.now) }
{
    let found = object.get(name)?;
    if is_null(found) { None } else { Some(found) }
}

/// Returns whether the value is null.
fn is_null(value: &Value) -> bool
    ensures { (if result then None else Some (view value.now)) ≡ unless_null (view value.now) }
{
    matches!(value, Value::Null)
}

/// Returns whether there is a member of that name that isn't null.
pub fn has(object: &Value, name: &str) -> bool
    ensures { result ≡ has_member name.now (view object.now) }
{
    member(object, name).is_some()
}

/// Returns the number as a `u32`, if it is at most 4294967295.
pub fn below_2_32(number: u64) -> Option<u32>
    ensures { result ≡ below_2_32 number }
{
    u32::try_from(number).ok()
}

/// Returns the member as a whole number from 0 to 4294967295, or `None` if it is absent or something else.
#[tactic(auto, unfolding(crate::specs::Members::whole_at))]
pub fn whole(object: &Value, name: &str) -> Option<u32>
    ensures { result ≡ whole_at name.now (view object.now) }
{
    below_2_32(member(object, name)?.as_u64()?)
}

/// Returns the member as a string, or `None` if it is absent or something else.
#[tactic(auto, unfolding(crate::specs::Members::text_at))]
pub fn text<'a>(object: &'a Value, name: &str) -> Option<&'a str>
    ensures { option_map (λ text. text.now) result ≡ text_at name.now (view object.now) }
{
    member(object, name)?.as_str()
}

/// Returns the items of a member that is an array, or `None` if it is absent or something else. It takes no memory.
#[tactic(auto, unfolding(crate::specs::Members::items_at))]
pub fn items<'a>(object: &'a Value, name: &str) -> Option<&'a [Value]>
    ensures { option_map (λ items. map view items.now) result ≡ items_at name.now (view object.now) }
{
    Some(member(object, name)?.as_array()?.as_slice())
}

/// Returns the member as a boolean: `false` if it is absent, and `None` if it is something else.
#[tactic(auto, unfolding(crate::specs::Members::truth_at))]
pub fn truth(object: &Value, name: &str) -> Option<bool>
    ensures { result ≡ truth_at name.now (view object.now) }
{
    match member(object, name) {
        Some(value) => value.as_bool(),
        None => Some(false),
    }
}
