//! The verdict on a message: a call of the desk, or a fault.
ghost use Rattle.std.specs.Prelude.{◌≡◌};
ghost use Rattle.http_message.specs.Message.{message_value, request_value};
ghost use Rattle.desk_admission.specs.OverStores.{Gives};
ghost use Rattle.http_history.specs.Addressee.{route_of_path};
ghost use Rattle.desk_http.specs.Addressing.{request_verdict, TellsAddressee, TellsByRoute};
ghost use Rattle.desk_http.specs.Judged.{judged_on};

mod company;
mod object;
mod operator;

use company::company_verdict;
use desk_calls::Desk;
use desk_history::Call;
use desk_store::{Store, StoreFault};
use http_answers::MessageFault;
use http_message::{Framing, Message, Request};
use http_routes::{Route, RouteFault, Routes};
use json::Scratch;
use operator::operator_verdict;
use std::alloc::Global;

/// Returns the call that a message makes, or the fault that is the answer without a call. Of the desk it
/// reads only the keys. A file or a holiday list is the body itself, not a copy.
pub(crate) fn verdict_of<S: Store>(
    alloc: Global,
    desk: &mut Desk<S>,
    routes: &Routes,
    scratch: &mut Scratch,
    message: Message<'_>,
) -> Result<Result<Call, MessageFault>, StoreFault>
    ensures { Gives S.Store desk.old desk.new result
        (λ b. judged_on b (message_value message.entry)) }
{
    match message {
        Message::BadHead => Ok(Err(MessageFault::BadHead)),
        Message::Asked(request) => request_verdict(alloc, desk, routes, scratch, request),
    }
}

fn request_verdict<S: Store>(
    alloc: Global,
    desk: &mut Desk<S>,
    routes: &Routes,
    scratch: &mut Scratch,
    request: Request<'_>,
) -> Result<Result<Call, MessageFault>, StoreFault>
    ensures { Gives S.Store desk.old desk.new result
        (request_verdict (request_value request.entry)) }
{
    match route_of(routes, &request) {
        Ok(Route::Company(route)) => company_verdict(alloc, desk, scratch, route, &request),
        Ok(Route::Operator(route)) => operator_verdict(alloc, desk, scratch, route, request),
        Err(fault) => Ok(Err(fault)),
    }
}

// The route of a request, or the fault that follows from its head alone.
fn route_of(routes: &Routes, request: &Request<'_>) -> Result<Route, MessageFault>
    ensures { TellsAddressee (request_value request.now) result }
{
    match request.framing {
        Framing::BadLength => Err(MessageFault::BadHead),
        Framing::LengthRequired => Err(MessageFault::LengthRequired),
        Framing::TooLarge => Err(MessageFault::TooLarge),
        Framing::Body(_) => find_route(routes, request),
    }
}

fn find_route(routes: &Routes, request: &Request<'_>) -> Result<Route, MessageFault>
    ensures { TellsByRoute (request_value request.now) result }
{
    match route_of_path(routes, request.method, request.path) {
        Ok(route) => Ok(route),
        Err(RouteFault::NotFound) => Err(MessageFault::NotFound),
        Err(RouteFault::BadMethod) => Err(MessageFault::BadMethod),
    }
}

// The route that the table has for a path, if it takes this method.
fn route_of_path(routes: &Routes, method: &[u8], path: &[u8]) -> Result<Route, RouteFault>
    ensures { result ≡ route_of_path method.now path.now }
{
    http_routes::found_by_pieces();
    routes.find(method, path)
}
