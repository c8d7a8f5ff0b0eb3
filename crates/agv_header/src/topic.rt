//! Topics, which name the vehicle and the kind of a message.
ghost use Rattle.std.specs.Prelude.{◌≡◌, ℕ, List, Some, Ok, IfOk, IfSome, IsSomeAnd, string_bytes};
ghost use Rattle.agv_header.specs.Name.{IsName};
ghost use Rattle.agv_header.specs.declared.key.VehicleKey.{VehicleKey as Key};
ghost use Rattle.agv_header.specs.declared.topic.Topic.{Topic as Kind};
ghost use Rattle.agv_header.specs.Topic.{topic_name, with_levels, topic_of, IsTopicText};

use crate::{Memory, Name, VehicleKey};
use std::alloc::Global;
use thiserror::Error;

/// The topics that the desk and a vehicle's gateway exchange.
#[derive(Clone, Copy, Debug, PartialEq, Eq)]
pub enum Topic {
    Order,
    InstantActions,
    State,
}

/// The error of a text that is no topic of the desk.
#[derive(Clone, Copy, Debug, PartialEq, Eq, Error)]
#[error("the text is no topic of the desk")]
pub struct NotTopic;

/// Reads the vehicle and the topic that a text names, as `uagv/v2/KIT/0001/order`. It takes no
/// memory.
///
/// Returns `NotTopic` if the text is `topic_text` of no vehicle and topic.
pub fn read_topic(text: &str) -> Result<(VehicleKey, Topic), NotTopic>
    ensures reads { IfOk result (λ found. IsTopicText text.now found.0 found.1) }
    ensures all { (key : Key) (topic : Kind) → IsTopicText text.now key topic
        → result ≡ Ok (key, topic) }
{
    named(text).ok_or(NotTopic)
}

/// Returns the vehicle and the topic that a text names, if it names them.
fn named(text: &str) -> Option<(VehicleKey, Topic)>
    ensures reads { IfSome result (λ found. IsTopicText text.now found.0 found.1) }
    ensures all { (key : Key) (topic : Kind) → IsTopicText text.now key topic
        → result ≡ Some (key, topic) }
{
    let (manufacturer, serial, name) = levels(text)?;
    let key = VehicleKey {
        manufacturer: Name::read(manufacturer).ok()?,
        serial: Name::read(serial).ok()?,
    };
    Some((key, topic_named(name)?))
}

/// Splits a text at its slashes into the manufacturer, the serial number and the topic name.
fn levels(text: &str) -> Option<(&str, &str, &str)>
    ensures reads { IfSome result
        (λ parts. text.now ≡ with_levels parts.0.now parts.1.now parts.2.now) }
    ensures all { (manufacturer serial name : List ℕ) → IsName manufacturer → IsName serial
        → text.now ≡ with_levels manufacturer serial name
        → IsSomeAnd result
        (λ parts. (parts.0.now ≡ manufacturer) × (parts.1.now ≡ serial) × (parts.2.now ≡ name)) }
{
    let rest = text.strip_prefix("uagv/v2/")?;
    let (manufacturer, rest) = rest.split_once('/')?;
    let (serial, name) = rest.split_once('/')?;
    Some((manufacturer, serial, name))
}

/// Returns the topic with this name, if there is one.
fn topic_named(name: &str) -> Option<Topic>
    ensures reads { IfSome result (λ topic. name.now ≡ topic_name topic) }
    ensures all { (topic : Kind) → name.now ≡ topic_name topic → result ≡ Some topic }
{
    match name {
        "order" => Some(Topic::Order),
        "instantActions" => Some(Topic::InstantActions),
        "state" => Some(Topic::State),
        _ => None,
    }
}

/// Writes a vehicle's topic: `uagv/v2/MANUFACTURER/SERIAL/` and `order`, `instantActions` or
/// `state`.
pub fn topic_text(alloc: Global, key: &VehicleKey, topic: Topic) -> Result<String, Memory>
    ensures { IfOk result (λ text. string_bytes text ≡ topic_of key.now topic) }
{
    Ok(format!(in alloc;
        "uagv/v2/{}/{}/{}",
        key.manufacturer,
        key.serial,
        name_of(topic)
    )?)
}

/// Returns the name of a topic.
fn name_of(topic: Topic) -> &'static str
    ensures { result.now ≡ topic_name topic }
{
    match topic {
        Topic::Order => "order",
        Topic::InstantActions => "instantActions",
        Topic::State => "state",
    }
}
