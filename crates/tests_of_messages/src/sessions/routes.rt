//! The routes.
use crate::sessions::texts::{BAD_METHOD, LENGTH_REQUIRED, NOT_FOUND, ends_over_pieces};
use http_routes::Route::{Company, Operator};
use http_routes::{CompanyRoute, OperatorRoute, Route, RouteFault, Routes, piece_of};
use http_session::Ended;
use std::alloc::Global;
use std::process::Abort;

const METHODS: &[&[u8]] = &[b"GET", b"POST", b"PUT", b"get", b""];

// These have no clause, so that the proof of a test does not carry the table of routes.
fn routes(rt: &(impl Abort + Alloc<A = Global>)) -> Routes {
    Routes::new(rt.alloc()).expect(rt, "memory")
}

fn found(routes: &Routes, method: &[u8], path: &[u8]) -> Result<Route, RouteFault> {
    routes.find(method, path)
}

/// The path has the listed routes, and by every other method this fault.
fn finds(rt: &impl Abort, routes: &Routes, path: &[u8], fault: RouteFault) {
    for &method in METHODS {
        let wanted = listed(method, path).ok_or(fault);
        assert!(rt; found(routes, method, path) == wanted, "{path:?}");
    }
}

fn listed(method: &[u8], path: &[u8]) -> Option<Route> {
    for &(taken, at, route) in ROUTES {
        if taken == method && at == path {
            return Some(route);
        }
    }
    None
}

fn piece(path: &[u8], slashes: usize) -> &[u8] {
    piece_of(path, slashes)
}

/// The method of each route, and a path that has it.
const ROUTES: &[(&[u8], &[u8], Route)] = &[
    (
        b"POST",
        b"/c/MILL01/submissions",
        Company(CompanyRoute::Submit),
    ),
    (b"POST", b"/c/MILL01/retries", Company(CompanyRoute::Retry)),
    (
        b"GET",
        b"/c/MILL01/submissions/PAY-1",
        Company(CompanyRoute::LookUp),
    ),
    (b"GET", b"/c/MILL01/returns", Company(CompanyRoute::Returns)),
    (b"GET", b"/c/MILL01/changes", Company(CompanyRoute::Changes)),
    (
        b"GET",
        b"/c/MILL01/statement",
        Company(CompanyRoute::Statement),
    ),
    (b"GET", b"/c/MILL01/rates", Company(CompanyRoute::Rates)),
    (
        b"GET",
        b"/c/MILL01/exposure",
        Company(CompanyRoute::Exposure),
    ),
    (b"POST", b"/ops/day", Operator(OperatorRoute::SetDay)),
    (
        b"POST",
        b"/ops/holidays",
        Operator(OperatorRoute::SetHolidays),
    ),
    (
        b"POST",
        b"/ops/companies",
        Operator(OperatorRoute::PutCompany),
    ),
    (
        b"GET",
        b"/ops/companies",
        Operator(OperatorRoute::Companies),
    ),
    (b"POST", b"/ops/limits", Operator(OperatorRoute::PutLimits)),
    (b"POST", b"/ops/cut", Operator(OperatorRoute::Cut)),
    (b"POST", b"/ops/returns", Operator(OperatorRoute::TakeFile)),
    (
        b"GET",
        b"/ops/files/2025-01-08/A",
        Operator(OperatorRoute::FileText),
    ),
    (
        b"GET",
        b"/ops/settlement",
        Operator(OperatorRoute::Settlement),
    ),
    (b"GET", b"/ops/status", Operator(OperatorRoute::Status)),
    (b"GET", b"/ops/suspense", Operator(OperatorRoute::Suspense)),
];

/// Each path takes the methods of its routes and no other.
#[test]
fn finds_each_route(rt: HostRuntime) {
    let routes = routes(&rt);
    for &(_, path, _) in ROUTES {
        finds(&rt, &routes, path, RouteFault::BadMethod);
    }
}

/// These are near a route.
const NO_ROUTES: &[&[u8]] = &[
    b"",
    b"/",
    b"/nowhere",
    b"c/MILL01/rates",
    b"/c//rates",
    b"/c/MILL01",
    b"/c/MILL01/",
    b"/c/MILL01/rates/",
    b"/c/MILL01/Rates",
    b"/c/MILL01/rate",
    b"/c/MILL01/submissions/",
    b"/c/MILL01/submissions/A/B",
    b"/c/A/B/rates",
    b"/ops/files/2025-01-08",
    b"/ops/files//A",
    b"/c/\xff/rates",
];

/// Paths that are near a route have none.
#[test]
fn finds_no_other_path(rt: HostRuntime) {
    let routes = routes(&rt);
    for path in NO_ROUTES {
        finds(&rt, &routes, path, RouteFault::NotFound);
    }
}

/// The text after this many slashes.
const PIECES: &[(usize, &[u8])] = &[
    (0, b""),
    (1, b"c"),
    (2, b"MILL01"),
    (3, b"submissions"),
    (4, b"PAY-1"),
    (5, b""),
    (6, b""),
];

/// The pieces of a path are the texts between its slashes.
#[test]
fn cuts_paths_at_slashes(rt: HostRuntime) {
    for &(slashes, wanted) in PIECES {
        let cut = piece(b"/c/MILL01/submissions/PAY-1", slashes);
        assert!(rt; cut == wanted, "after {slashes}");
    }
}

const FIRST_FAULTS: &[(&[u8], &[u8])] = &[
    (
        b"GET /nowhere HTTP/1.1\r\nX-Desk-Key: wrong\r\n\r\n",
        NOT_FOUND,
    ),
    (
        b"PUT /nowhere HTTP/1.1\r\nContent-Length: 0\r\n\r\n",
        NOT_FOUND,
    ),
    (
        b"PUT /ops/day HTTP/1.1\r\nContent-Length: 0\r\nX-Desk-Key: wrong\r\n\r\n",
        BAD_METHOD,
    ),
    (b"GET /ops/day?a=/ops/cut HTTP/1.1\r\n\r\n", BAD_METHOD),
    (
        b"PUT /ops/companies HTTP/1.1\r\nContent-Length: 0\r\n\r\n",
        BAD_METHOD,
    ),
    (b"POST /nowhere HTTP/1.1\r\n\r\n", LENGTH_REQUIRED),
];

/// An unknown path is reported before a wrong method, and a missing length before both.
#[test]
fn tells_the_first_fault(rt: HostRuntime) {
    for &(bytes, answer) in FIRST_FAULTS {
        ends_over_pieces(&rt, &[bytes], usize::MAX, Ended::Closed, &[answer]);
    }
}
