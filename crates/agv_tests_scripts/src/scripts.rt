//! Playing the scripts: over a world in memory, call by call, as one list, and on files that fail.

use crate::lists::list_of;
use crate::memory::play_in_memory;
use crate::stops::stop_script;
use crate::ways::{Way, in_database};
use agv_tests_support::lines::whole;
use agv_tests_support::scripts::{FOR_ONE, cancels, stocktakes, trips, two_loads};
use std::alloc::Global;
use std::process::Abort;

/// Joins the parts of a script.
fn text_of(rt: &impl Abort, alloc: Global, parts: &[&str]) -> String {
    whole(alloc, parts).expect(rt, "a script")
}

/// Plays a script, from a new desk on, call by call.
fn play(rt: &impl Abort, alloc: Global, text: &str) {
    let text = format!(in alloc; "create ok\n{text}").expect(rt, "memory");
    in_database(rt, alloc, &Way::Calls(text.as_str()));
}

/// Serves a script as one list.
fn serve(rt: &impl Abort, alloc: Global, text: &str) {
    let list = list_of(rt, alloc, text);
    in_database(rt, alloc, &Way::List(&list));
}

/// Plays the scripts of vehicles for one load, on desks that allow vehicles for up to four, and on desks that don't.
#[test]
fn call_by_call(rt: HostRuntime) {
    for scripts in FOR_ONE {
        for parts in scripts {
            let text = text_of(&rt, rt.alloc(), parts);
            play_in_memory(&rt, rt.alloc(), 1, text.as_str());
            play(&rt, rt.alloc(), text.as_str());
        }
    }
}

#[test]
fn as_lists(rt: HostRuntime) {
    for scripts in FOR_ONE {
        for parts in scripts {
            let text = text_of(&rt, rt.alloc(), parts);
            serve(&rt, rt.alloc(), text.as_str());
        }
    }
}

/// Plays the scripts of vehicles for up to four loads, and in memory those that hold only if each is for one.
#[test]
fn up_to_four_loads(rt: HostRuntime) {
    for parts in two_loads::TWO_LOADS {
        let text = text_of(&rt, rt.alloc(), parts);
        play(&rt, rt.alloc(), text.as_str());
        serve(&rt, rt.alloc(), text.as_str());
    }
    for parts in two_loads::ONE_LOAD {
        let text = text_of(&rt, rt.alloc(), parts);
        play_in_memory(&rt, rt.alloc(), 1, text.as_str());
    }
}

/// Serves an order that is carried out. The next tests serve one that is cancelled, and a stocktake.
#[test]
fn files_fail_while_an_order_is_carried_out(rt: HostRuntime) {
    let text = text_of(&rt, rt.alloc(), trips::CARRIED_OUT);
    stop_script(&rt, rt.alloc(), text.as_str());
}

#[test]
fn files_fail_while_an_order_is_cancelled(rt: HostRuntime) {
    let text = text_of(&rt, rt.alloc(), cancels::PLACED_THEN);
    stop_script(&rt, rt.alloc(), text.as_str());
}

#[test]
fn files_fail_while_stock_is_taken(rt: HostRuntime) {
    let text = text_of(&rt, rt.alloc(), stocktakes::STOCKTAKES[0]);
    stop_script(&rt, rt.alloc(), text.as_str());
}
