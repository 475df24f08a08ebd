//! A request with its route.
ghost use Rattle.std.specs.Prelude.{◌≡◌, ℕ, false};
ghost use Rattle.http_requests.specs.Routes.{route_table, valued};
ghost use Rattle.http_api.specs.CallWork.{asks_clock, asks_moment, call_route, work_of};

use http_requests::http_call::Call;
use http_requests::routes::{Route, route_of};
use matchit::Router;
use std::marker::Model;

/// A request with the route of its path, which is looked up once. Contracts see it as the request.
#[derive(Drop)]
pub struct RoutedCall {
    call: Call,
    route: Option<Route>,
}

impl Model for RoutedCall {
    ghost use Rattle.std.specs.Prelude.{◌≡◌};
    ghost use Rattle.http_requests.specs.declared.http_call.Call.{Call};
    ghost use Rattle.http_api.specs.CallWork.{call_route};

    ghost Value = { Call };

    ghost view = { λ r. r.call };

    ghost invariant = { λ r. r.route ≡ call_route r.call };
}

impl RoutedCall {
    /// A request with the route of its path, where it isn't refused.
    pub fn of(router: &Router<Route>, call: Call) -> RoutedCall
        requires { valued router.now ≡ route_table }
        ensures { result ≡ call }
    {
        let route = route_unless(router, &call);
        RoutedCall { call, route }
    }

    /// The request.
    pub fn call(&self) -> &Call
        ensures { result.now ≡ self.now }
    {
        &self.call
    }

    /// Whether no request is read behind it.
    pub fn closing(&self) -> bool
        ensures { result ≡ self.now.closing }
    {
        self.call.closing
    }

    /// The route of its path, where it has one and the request isn't refused.
    pub fn route(&self) -> Option<Route>
        ensures { result ≡ call_route self.now }
    {
        self.route
    }

    /// Whether the clock is asked for it: where its path is that of queries or of last points, whatever its method. A request for which
    /// it isn't asked asks for the same at every moment.
    pub fn asks_clock(&self) -> bool
        ensures asks { result ≡ asks_clock self.now }
        ensures alike { result ≡ false → (a b : ℕ) → work_of a self.now ≡ work_of b self.now }
    {
        asks_moment(self.route)
    }
}

/// The route of a request that isn't refused, by its path.
fn route_unless(router: &Router<Route>, call: &Call) -> Option<Route>
    requires { valued router.now ≡ route_table }
    ensures { result ≡ call_route call.now }
{
    match call.refused {
        Some(_) => None,
        None => route_of(router, call.path.list()),
    }
}

/// Whether the clock is asked for a request of this route.
fn asks_moment(route: Option<Route>) -> bool
    ensures { result ≡ asks_moment route }
{
    match route {
        Some(Route::Query) => true,
        Some(Route::Last) => true,
        _ => false,
    }
}
