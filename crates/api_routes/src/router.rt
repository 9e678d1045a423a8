//! The router of all requests, made of the tables of routes.
ghost use Rattle.std.specs.Prelude.{◌≡◌, IfOk, OnOk, MatchOption, map};
ghost use Rattle.wire_model.specs.Routes.{route_of, beside, command_route};
ghost use Rattle.api_routes.specs.Router.{all_routes, with_route, with_commands, with_reads};
ghost use Rattle.api_routes.specs.Routing.{Leads, route_meant};

use crate::path::{Route, beside_routes, read_route, route_of_bytes};
use matchit::Router;
use site_ids::NoMemory;
use std::alloc::Global;
use std::marker::Model;
use wire_model::{COMMAND_ROUTES, CommandForm, CommandRoute, READ_ROUTES, ReadForm, ReadRoute};

/// What a route of the router leads to.
#[derive(Clone, Copy, Debug, PartialEq, Eq)]
pub enum Target {
    /// Commands of this form, if the route is built.
    Command(Option<CommandForm>),
    /// What is read of the page that is named after so many bytes, if the route is built.
    Read(usize, Option<ReadForm>),
}

/// The parameter of a route, for the part of a path that names a page.
const PARAMETER: &str = "{id}";

/// The router of all requests, made once. It stays as it is, and so may serve many threads.
#[derive(Drop)]
pub struct Routes {
    router: Router<Target>,
}

impl Model for Routes {
    ghost use Rattle.std.specs.Prelude.{◌≡◌};
    ghost use Rattle.matchit.specs.Rows.{RowsOf};
    ghost use Rattle.matchit.specs.Router.{RouteOf};
    ghost use Rattle.api_routes.specs.Router.{all_routes};
    ghost use Rattle.api_routes.specs.declared.router.Target.{Target};

    ghost Value = { RowsOf (RouteOf Target) };

    ghost view = { λ routes. routes.router };

    ghost invariant = { λ routes. routes.router ≡ all_routes };
}

impl Routes {
    /// The router with every route. It takes memory for each route, and none later.
    pub fn new(alloc: Global) -> Result<Routes, NoMemory>
        ensures { IfOk result (λ routes. routes ≡ all_routes) }
    {
        let mut router = Router::new(alloc);
        add_commands(&mut router, &COMMAND_ROUTES)?;
        add_reads(alloc, &mut router, &READ_ROUTES)?;
        Ok(Routes { router })
    }

    /// What a path leads to: one look-up, which takes no memory.
    pub fn route<'p>(&self, path: &'p [u8]) -> Route<'p>
        ensures { route_meant result ≡ route_of path.now }
    {
        let Ok(text) = str::from_utf8(path) else {
            return route_of_bytes(path);
        };
        match self.find(text) {
            None => beside_routes(path),
            Some(Target::Command(form)) => command_route(form),
            Some(Target::Read(front, form)) => read_route(&path[front..], form),
        }
    }

    /// What the router has for a path, or `None` if the path is no route.
    fn find(&self, path: &str) -> Option<Target>
        ensures { MatchOption result (route_of path.now ≡ beside path.now) (Leads path.now) }
    {
        match self.router.at(path) {
            Ok(found) => Some(*found.value),
            Err(_) => None,
        }
    }
}

/// The route of commands of a form, if it is built.
fn command_route<'p>(form: Option<CommandForm>) -> Route<'p>
    ensures { route_meant result ≡ command_route form }
{
    match form {
        Some(form) => Route::Command(form),
        None => Route::Unbuilt,
    }
}

/// Adds a route. No two of the routes conflict, so only running out of memory refuses one.
fn add(router: &mut Router<Target>, route: &str, target: Target) -> Result<(), NoMemory>
    ensures { OnOk result (router.new ≡ with_route route.now target router.old) }
{
    let Ok(()) = router.insert(route, target) else {
        return Err(NoMemory);
    };
    Ok(())
}

/// Adds the routes of commands of a table.
fn add_commands(router: &mut Router<Target>, mut table: &[CommandRoute]) -> Result<(), NoMemory>
    ensures { OnOk result (router.new
        ≡ with_commands (map (λ row. (row.0.now, row.1)) table.entry.now) router.old) }
{
    while let [row, rest @ ..] = table {
        add(router, row.0, Target::Command(row.1))?;
        table = rest;
    }
    Ok(())
}

/// Adds the routes of reads of a table.
fn add_reads(
    alloc: Global,
    router: &mut Router<Target>,
    mut table: &[ReadRoute],
) -> Result<(), NoMemory>
    ensures { OnOk result (router.new
        ≡ with_reads (map (λ row. (row.0.now, row.1)) table.entry.now) router.old) }
{
    while let [row, rest @ ..] = table {
        let mut route = String::from_str(alloc, row.0)?;
        route.push_str(PARAMETER)?;
        add(router, &route, Target::Read(row.0.len(), row.1))?;
        table = rest;
    }
    Ok(())
}
