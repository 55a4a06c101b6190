//! The routes, by path.
ghost use Rattle.std.specs.Prelude.{◌≡◌, IfOk, OnOk, Err, IsUtf8, Some, map};
ghost use Rattle.http_routes.specs.Finding.{route_verdict, route_at};
ghost use Rattle.http_routes.specs.Table.{served_by_path, router_rows, with_routes};

use crate::route::Route::{Company, Operator};
use crate::route::{CompanyRoute, OperatorRoute, Route, Served};
use matchit::{InsertError, Router};
use std::alloc::{AllocError, Global};
use std::str;

/// Why no route is served.
#[derive(Clone, Copy, PartialEq, Eq, Debug)]
pub enum RouteFault {
    /// No route has this path.
    NotFound,
    /// The path has no route by this method.
    BadMethod,
}

/// The routes of the desk, which are built once and kept.
#[derive(Drop)]
pub struct Routes {
    router: Router<Served>,
    ghost all: { router ≡ router_rows },
}

/// A path without a route, which each row of the table completes.
const NOTHING: Served = Served {
    get: None,
    post: None,
};

/// Lists paths, each with the route of every method that it takes.
macro_rules! routes {
    ($($path:literal => $($method:ident $route:expr),+;)*) => {
        [$(($path, Served { $($method: Some($route),)+ ..NOTHING })),*]
    };
}

/// The routes of the desk, one row for each path.
const ROUTES: [(&str, Served); 18] = routes! {
    "/c/{company}/changes" => get Company(CompanyRoute::Changes);
    "/c/{company}/exposure" => get Company(CompanyRoute::Exposure);
    "/c/{company}/rates" => get Company(CompanyRoute::Rates);
    "/c/{company}/retries" => post Company(CompanyRoute::Retry);
    "/c/{company}/returns" => get Company(CompanyRoute::Returns);
    "/c/{company}/statement" => get Company(CompanyRoute::Statement);
    "/c/{company}/submissions/{ref}" => get Company(CompanyRoute::LookUp);
    "/c/{company}/submissions" => post Company(CompanyRoute::Submit);
    "/ops/companies" =>
        get Operator(OperatorRoute::Companies), post Operator(OperatorRoute::PutCompany);
    "/ops/cut" => post Operator(OperatorRoute::Cut);
    "/ops/day" => post Operator(OperatorRoute::SetDay);
    "/ops/files/{day}/{modifier}" => get Operator(OperatorRoute::FileText);
    "/ops/holidays" => post Operator(OperatorRoute::SetHolidays);
    "/ops/limits" => post Operator(OperatorRoute::PutLimits);
    "/ops/returns" => post Operator(OperatorRoute::TakeFile);
    "/ops/settlement" => get Operator(OperatorRoute::Settlement);
    "/ops/status" => get Operator(OperatorRoute::Status);
    "/ops/suspense" => get Operator(OperatorRoute::Suspense);
};

/// Adds paths to a router, one after another.
fn add_routes(
    router: &mut Router<Served>,
    routes: &[(&'static str, Served)],
) -> Result<(), InsertError>
    ensures { OnOk result (router.new ≡ with_routes router.old (map served_by_path routes.now)) }
{
    for route in routes {
        let (path, served) = *route;
        router.insert(path, served)?;
    }
    Ok(())
}

/// The router of all paths.
fn build(alloc: Global) -> Result<Router<Served>, InsertError>
    ensures { IfOk result (λ router. router ≡ router_rows) }
{
    let mut router = Router::new(alloc);
    add_routes(&mut router, &ROUTES)?;
    Ok(router)
}

/// Returns the route that a path serves by this method. A request's method is compared as a text,
/// since to read it may take memory.
fn judge(method: &[u8], served: &Served) -> Result<Route, RouteFault>
    ensures { result ≡ route_verdict method.now (Some served.now) }
{
    let route = if method == http::Method::GET.as_str().as_bytes() {
        served.get
    } else if method == http::Method::POST.as_str().as_bytes() {
        served.post
    } else {
        None
    };
    route.ok_or(RouteFault::BadMethod)
}

impl Routes {
    /// The routes, or that memory was refused.
    pub fn new(alloc: Global) -> Result<Routes, AllocError>
        ensures { IfOk result (λ routes. routes.router ≡ router_rows) }
    {
        match build(alloc) {
            Ok(router) => Ok(Routes { router }),
            Err(_) => Err(AllocError),
        }
    }

    /// Returns the route of a path for this method. A path that is not UTF-8 has none.
    pub fn find(&self, method: &[u8], path: &[u8]) -> Result<Route, RouteFault>
        ensures text { IsUtf8 path.now → result ≡ route_at method.now path.now }
        ensures other { ¬ (IsUtf8 path.now) → result ≡ Err RouteFault.NotFound }
    {
        let Ok(text) = str::from_utf8(path) else {
            return Err(RouteFault::NotFound);
        };
        match self.router.at(text) {
            Ok(found) => judge(method, found.value),
            Err(_) => Err(RouteFault::NotFound),
        }
    }
}
