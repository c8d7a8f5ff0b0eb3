//! Names, topics, stamps, moments and header numbers, with values worked out by hand or taken from other programs
//! (`date -u`).

use crate::cases::{check_text, kit, name, number, number_or_none, row, shown, word};
use agv_header::{
    Moment, Name, Topic, is_fresh, next_number, read_stamp, read_topic, stamp_text, topic_text,
};
use std::alloc::Global;
use std::process::Abort;

/// Returns the topic of KIT/0001 with this name.
fn topic(rt: &impl Abort, alloc: Global, text: &str) -> String {
    let topic = match text {
        "order" => Topic::Order,
        "instantActions" => Topic::InstantActions,
        _ => Topic::State,
    };
    topic_text(alloc, &kit(rt, "0001"), topic).expect(rt, "memory")
}

/// Reads a moment.
fn moment(rt: &impl Abort, text: &str) -> Option<Moment> {
    Moment::of(text.parse::<i64>().expect(rt, text))
}

/// Returns the stamp of the moment of this many milliseconds.
fn stamp(rt: &impl Abort, alloc: Global, text: &str) -> String {
    let moment = moment(rt, text).expect(rt, text);
    check_text(
        rt,
        shown(rt, alloc, &moment.ms()).as_str(),
        text,
        "milliseconds",
    );
    stamp_text(alloc, moment).expect(rt, "memory")
}

/// Reads a name, and compares its text and bytes with what it was read from.
fn read_name(rt: &impl Abort, alloc: Global, text: &str) -> String {
    let read = Name::read(text);
    if let Ok(name) = read {
        let same = name.as_str() == text && name.as_bytes() == text.as_bytes();
        return shown(rt, alloc, &same);
    }
    shown(rt, alloc, &read)
}

/// Returns whether the second number is fresh after the first.
fn fresh(rt: &impl Abort, alloc: Global, text: &str) -> String {
    let last = number_or_none(rt, word(rt, text, 0));
    shown(rt, alloc, &is_fresh(last, number(rt, word(rt, text, 1))))
}

/// Returns the answer of a call of this name.
fn answer(rt: &impl Abort, alloc: Global, call: &str, text: &str) -> String {
    match call {
        "name" => read_name(rt, alloc, text),
        "topic" => shown(rt, alloc, &read_topic(text)),
        "text" => topic(rt, alloc, text),
        "read" => shown(rt, alloc, &read_stamp(text)),
        "stamp" => stamp(rt, alloc, text),
        "moment" => shown(rt, alloc, &moment(rt, text)),
        "fresh" => fresh(rt, alloc, text),
        _ => shown(rt, alloc, &next_number(number(rt, text))),
    }
}

const TABLE: &str = "\
name aaaaaaaaaaaaaaaaaaaaaaaaaaaaaaaa => true
name aaaaaaaaaaaaaaaaaaaaaaaaaaaaaaaaa => Err(NotName)
name KIT => true
name 0001 => true
name A-Z_a.z:0-9 => true
name  => Err(NotName)
name a b => Err(NotName)
name a/b => Err(NotName)
name ä => Err(NotName)
topic uagv/v2/KIT/0001/order => Ok((VehicleKey { manufacturer: KIT, serial: 0001 }, Order))
topic uagv/v2/KIT/0001/instantActions => Ok((VehicleKey { manufacturer: KIT, serial: 0001 }, InstantActions))
topic uagv/v2/KIT/0001/state => Ok((VehicleKey { manufacturer: KIT, serial: 0001 }, State))
topic uagv/v3/KIT/0001/order => Err(NotTopic)
topic uagv/v2/KIT/0001/orders => Err(NotTopic)
topic uagv/v2/KIT/0001/order/ => Err(NotTopic)
topic uagv/v2/KIT/0001 => Err(NotTopic)
topic uagv/v2//0001/order => Err(NotTopic)
topic uagv/v2/KIT/00 01/order => Err(NotTopic)
topic /uagv/v2/KIT/0001/order => Err(NotTopic)
topic  => Err(NotTopic)
text order => uagv/v2/KIT/0001/order
text instantActions => uagv/v2/KIT/0001/instantActions
text state => uagv/v2/KIT/0001/state
stamp 0 => 1970-01-01T00:00:00.00Z
stamp 9 => 1970-01-01T00:00:00.00Z
stamp 668691603120 => 1991-03-11T11:40:03.12Z
stamp 668691603129 => 1991-03-11T11:40:03.12Z
stamp 951782399999 => 2000-02-28T23:59:59.99Z
stamp 951782400000 => 2000-02-29T00:00:00.00Z
stamp 951868800000 => 2000-03-01T00:00:00.00Z
stamp 1700000000000 => 2023-11-14T22:13:20.00Z
stamp 4102444799999 => 2099-12-31T23:59:59.99Z
read 1970-01-01T00:00:00.00Z => Ok(Moment { ms: 0 })
read 1991-03-11T11:40:03.12Z => Ok(Moment { ms: 668691603120 })
read 1991-03-11T11:40:03.1299999Z => Ok(Moment { ms: 668691603129 })
read 2000-02-28T23:59:59.99Z => Ok(Moment { ms: 951782399990 })
read 2000-02-29T00:00:00.00Z => Ok(Moment { ms: 951782400000 })
read 2000-03-01T00:00:00.00Z => Ok(Moment { ms: 951868800000 })
read 2023-11-14T22:13:20.00Z => Ok(Moment { ms: 1700000000000 })
read 2099-12-31T23:59:59.99Z => Ok(Moment { ms: 4102444799990 })
read 1970-01-01T01:00:00.000000001+01:00 => Ok(Moment { ms: 0 })
read 2099-12-31T23:59:59.999999999Z => Ok(Moment { ms: 4102444799999 })
read 2100-01-01T00:00:00Z => Err(Bad)
read 1969-12-31T23:59:59.9999Z => Err(Bad)
read 2023-02-29T00:00:00Z => Err(Bad)
read 2023-02-31T00:00:00Z => Err(Bad)
read 1991-03-11T11:40:03.12 => Err(Bad)
read now => Err(Bad)
read  => Err(Bad)
moment -1 => None
moment 0 => Some(Moment { ms: 0 })
moment 4102444799999 => Some(Moment { ms: 4102444799999 })
moment 4102444800000 => None
fresh - 0 => true
fresh 1 2 => true
fresh 2 2 => false
fresh 3 2 => false
next 0 => Some(1)
next 4294967294 => Some(4294967295)
next 4294967295 => None
";

#[test]
fn names(rt: HostRuntime) {
    for line in TABLE.lines() {
        let (call, wanted) = row(&rt, line);
        let text = call.split_once(' ').expect(&rt, line).1;
        let found = answer(&rt, rt.alloc(), word(&rt, call, 0), text);
        check_text(&rt, found.as_str(), wanted, call);
    }
}
