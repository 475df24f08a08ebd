//! Which route a path has.
ghost use Rattle.std.specs.Prelude.{◌≡◌, IfOk, None, OnOk};
ghost use Rattle.matchit.specs.Order.{placed};
ghost use Rattle.matchit.specs.Router.{nearest};
ghost use Rattle.matchit.specs.declared.error.InsertError.TheVariants.{OutOfMemory};
ghost use Rattle.http_requests.specs.Routes.{IsLiteral, literal_row, route_of, route_table, valued};

use matchit::{InsertError, Router};
use std::alloc::{AllocError, Global};

/// What a path leads to.
#[derive(Clone, Copy, Debug, PartialEq, Eq)]
pub enum Route {
    /// `/api/aggregators`: the names of the aggregators.
    Aggregators,
    /// `/api/put`: putting points.
    Put,
    /// `/api/query`: the points of series.
    Query,
    /// `/api/query/last`: the last points of series.
    Last,
    /// `/api/search/lookup`: the series of a metric.
    Lookup,
    /// `/api/suggest`: names that begin with a prefix.
    Suggest,
    /// `/api/uid/assign`: giving ids to names.
    Assign,
    /// `/api/version`: the program's version.
    Version,
}

/// A router with the eight routes. It fails only for want of memory.
#[tactic(auto, unfolding(matchit::specs::Route::scan))]
pub fn make_router(alloc: Global) -> Result<Router<Route>, AllocError>
    ensures { IfOk result (λ router. valued router ≡ route_table) }
{
    let mut router = Router::new(alloc);
    add(&mut router, "/api/aggregators", Route::Aggregators)?;
    add(&mut router, "/api/put", Route::Put)?;
    add(&mut router, "/api/query", Route::Query)?;
    add(&mut router, "/api/query/last", Route::Last)?;
    add(&mut router, "/api/search/lookup", Route::Lookup)?;
    add(&mut router, "/api/suggest", Route::Suggest)?;
    add(&mut router, "/api/uid/assign", Route::Assign)?;
    add(&mut router, "/api/version", Route::Version)?;
    Ok(router)
}

/// The route of a path: the one whose text the path is, if there is one. Bytes that are no text have none.
pub fn route_of(router: &Router<Route>, path: &[u8]) -> Option<Route>
    requires { valued router.now ≡ route_table }
    ensures { result ≡ route_of path.now }
{
    let Ok(path) = std::str::from_utf8(path) else {
        return None;
    };
    match router.at(path) {
        Ok(found) => Some(*found.value),
        Err(_) => None,
    }
}

/// Adds a path that has no parameters, and that no route stands in the way of.
fn add(router: &mut Router<Route>, path: &str, route: Route) -> Result<(), AllocError>
    requires literal { IsLiteral path.now }
    requires free { nearest path.now router.old ≡ None }
    ensures { OnOk result (router.new ≡ placed (literal_row path.now route) router.old) }
{
    match router.insert(path, route) {
        Ok(()) => Ok(()),
        Err(fault) => Err(want_of_memory(&fault)),
    }
}

/// The want of memory that a fault is.
fn want_of_memory(fault: &InsertError) -> AllocError
    requires { fault.now ≡ OutOfMemory }
{
    AllocError
}
