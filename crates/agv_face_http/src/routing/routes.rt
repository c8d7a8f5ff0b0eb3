//! Finding the line of the table of routes for a request.
ghost use Rattle.std.specs.Prelude.{◌≡◌, ℕ, List, [], ◌∷◌, IsAscii, option_and_then, option_map, position};
ghost use Rattle.agv_face_http.specs.routing.RouterRows.{router_rows};
ghost use Rattle.agv_face_http.specs.routing.Paths.{is_question_mark, path_of};
ghost use Rattle.agv_face_http.specs.routing.Table.{at_path, if_method, route_at, route_with, with_route};
ghost use Rattle.agv_header.specs.Refusal.{verb_text};
ghost use Rattle.agv_face_http.specs.routing.Taken.{IsTaken, all_names, both, listed};
ghost use Rattle.matchit.specs.Params.{walk};

use crate::Route;
use crate::routing::line::{Line, Names, RouteKind, route_for};
use crate::routing::table::table_of_routes;
use agv_header::{Memory, Name, Refusal, Verb};
use http::Method;
use matchit::{Params, Router};
use std::alloc::Global;
use std::marker::Model;
use std::str;

/// The paths and methods that the desk serves, as a router. It is made once.
#[derive(Drop)]
pub struct Routes {
    router: Router<Line>,
}

impl Model for Routes {
    ghost Value = { Unit {0} };

    ghost view = { λ _. tt };

    ghost invariant = { λ a. a.router ≡ router_rows };
}

impl Routes {
    /// Makes the router of the table of routes.
    ///
    /// `Memory` when out of memory, and no other error: no two lines of the table conflict.
    pub fn new(alloc: Global) -> Result<Routes, Memory> {
        let router = table_of_routes(alloc)?;
        Ok(Routes { router })
    }

    /// Returns the call of a request with this method and target. It allocates nothing.
    ///
    /// - `NoPath` where the path, which is the target up to its first `?`, is none of the table, or has something other
    ///   than a name where a name belongs. Nothing in it is decoded.
    /// - `BadMethod` where the path is served by another method, `allow`.
    pub fn route_of(&self, method: &Method, target: &[u8]) -> Result<Route, Refusal>
        ensures { result ≡ route_at method.now target.now }
    {
        let served = method_route_at_path(&self.router, path_in(target));
        if_allowed(method.as_str().as_bytes(), served)
    }
}

/// Returns the method and the route of a path.
fn method_route_at_path(router: &Router<Line>, path: &[u8]) -> Option<(Verb, Route)>
    requires { router.now ≡ router_rows }
    ensures { result ≡ at_path path.now }
{
    if !path.is_ascii() {
        return None;
    }
    match str::from_utf8(path) {
        Ok(text) => method_route_at_text(router, text),
        Err(_) => unreachable!(),
    }
}

/// Returns the method and the route of an ASCII path.
fn method_route_at_text(router: &Router<Line>, path: &str) -> Option<(Verb, Route)>
    requires table { router.now ≡ router_rows }
    requires ascii { IsAscii path.now }
    ensures { result ≡ at_path path.now }
{
    match router.at(path) {
        Ok(found) => method_route_by_line(*found.value, &found.params),
        Err(_) => None,
    }
}

/// Returns what a line serves at a path, by what the parameters took.
fn method_route_by_line(line: Line, params: &Params<'_, '_>) -> Option<(Verb, Route)>
    ensures { (taken : List (List ℕ)) → IsTaken (walk params.now.pattern.now params.now.text.now params.now.path.now params.now.names.now 0 0) taken
        → result ≡ with_route line.method (option_and_then (route_with line.kind) (all_names taken)) }
{
    with_method(line.method, route_of_names(line.kind, names_of(params)))
}

/// Pairs the method with the route, if there is one.
fn with_method(method: Verb, route: Option<Route>) -> Option<(Verb, Route)>
    ensures { result ≡ with_route method route }
{
    Some((method, route?))
}

/// Returns the route of a line with these names, if there are any.
fn route_of_names(kind: RouteKind, names: Option<Names>) -> Option<Route>
    ensures { result ≡ option_and_then (route_with kind) (option_map listed names) }
{
    route_for(kind, names?)
}

/// Returns the names in a path, or `None` where a parameter isn't a name.
fn names_of(params: &Params<'_, '_>) -> Option<Names>
    ensures { (taken : List (List ℕ)) → IsTaken (walk params.now.pattern.now params.now.text.now params.now.path.now params.now.names.now 0 0) taken
        → option_map listed result ≡ all_names taken }
{
    let mut taken = params.iter();
    let Some((_, first)) = taken.next() else {
        return Some(Names::Zero);
    };
    let first = Name::of_bytes(first.as_bytes());
    let Some((_, second)) = taken.next() else {
        return one_name(first);
    };
    two_names(first, Name::of_bytes(second.as_bytes()))
}

/// Returns the one name as [`Names`], if it is a name.
fn one_name(first: Option<Name>) -> Option<Names>
    ensures { option_map listed result ≡ option_map (λ name. name ∷ []) first }
{
    Some(Names::One(first?))
}

/// Returns the two names as [`Names`], if both are names.
fn two_names(first: Option<Name>, second: Option<Name>) -> Option<Names>
    ensures { option_map listed result ≡ both first second }
{
    Some(Names::Two(first?, second?))
}

/// Returns the target up to the first question mark.
fn path_in(target: &[u8]) -> &[u8]
    ensures { result.now ≡ path_of target.now }
{
    match question_mark_in(target) {
        Some(end) => &target[..end],
        None => target,
    }
}

/// Returns the position of the first question mark.
fn question_mark_in(target: &[u8]) -> Option<usize>
    ensures { result ≡ position is_question_mark target.now }
{
    target.iter().position(|byte| *byte == b'?')
}

/// Returns the route if the method is the path's own; another method is refused, naming the path's.
fn if_allowed(method: &[u8], served: Option<(Verb, Route)>) -> Result<Route, Refusal>
    ensures { result ≡ if_method method.now served }
{
    match served {
        None => Err(Refusal::NoPath),
        Some((allow, route)) => {
            if method == text_of(allow) {
                Ok(route)
            } else {
                Err(Refusal::BadMethod { allow })
            }
        }
    }
}

/// Returns the bytes of a method.
fn text_of(method: Verb) -> &'static [u8]
    ensures { result.now ≡ verb_text method }
{
    method.name().as_bytes()
}
