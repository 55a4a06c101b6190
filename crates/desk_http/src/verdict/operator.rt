//! Requests of the operator.
ghost use Rattle.std.specs.Prelude.{◌≡◌, IfOk};
ghost use Rattle.bank_days.specs.Day.{day_of};
ghost use Rattle.http_routes.specs.Finding.{piece_of};
ghost use Rattle.http_message.specs.Message.{request_value};
ghost use Rattle.desk_admission.specs.OverStores.{Gives};
ghost use Rattle.http_history.specs.Verdict.{operator_call, file_text};
ghost use Rattle.desk_http.specs.Addressing.{operator_route_verdict};

use super::object::{company_call, day_call, limits_call};
use bank_days::Day;
use desk_book::Caller;
use desk_calls::Desk;
use desk_history::{Call, ListOf};
use desk_store::{Store, StoreFault};
use http_answers::MessageFault;
use http_message::{Request, value_of};
use http_routes::{OperatorRoute, piece_of};
use json::Scratch;
use sha2::{Digest, Sha256};
use std::alloc::{AllocError, Global};

/// Returns the call of the operator's request under its key, or the fault.
pub(crate) fn operator_verdict<S: Store>(
    alloc: Global,
    desk: &mut Desk<S>,
    scratch: &mut Scratch,
    route: OperatorRoute,
    request: Request<'_>,
) -> Result<Result<Call, MessageFault>, StoreFault>
    ensures { Gives S.Store desk.old desk.new result
        (operator_route_verdict route (request_value request.entry)) }
{
    let Some(key) = value_of(&request.fields, b"X-Desk-Key") else {
        return Ok(Err(MessageFault::Denied));
    };
    match desk.allow(alloc, Caller::Operator, Sha256::digest(key)) {
        Ok(true) => match route_call(alloc, scratch, route, request) {
            Ok(verdict) => Ok(verdict),
            Err(_) => Err(StoreFault::Unavailable),
        },
        Ok(false) => Ok(Err(MessageFault::Denied)),
        Err(fault) => Err(fault),
    }
}

// The call of the operator, who has shown its key.
fn route_call(
    alloc: Global,
    scratch: &mut Scratch,
    route: OperatorRoute,
    request: Request<'_>,
) -> Result<Result<Call, MessageFault>, AllocError>
    ensures { IfOk result (λ v. v ≡ operator_call route (request_value request.entry)) }
{
    match route {
        OperatorRoute::SetDay => day_call(alloc, scratch, &request.body),
        OperatorRoute::SetHolidays => Ok(Ok(Call::SetHolidays(ListOf::new(request.body)))),
        OperatorRoute::PutCompany => company_call(alloc, scratch, &request.body),
        OperatorRoute::PutLimits => limits_call(alloc, scratch, &request.body),
        OperatorRoute::Cut => Ok(Ok(Call::Cut)),
        OperatorRoute::TakeFile => Ok(Ok(Call::TakeFile(ListOf::new(request.body)))),
        OperatorRoute::FileText => Ok(file_call(request.path)),
        OperatorRoute::Settlement => Ok(Ok(Call::Settlement)),
        OperatorRoute::Status => Ok(Ok(Call::Status)),
        OperatorRoute::Companies => Ok(Ok(Call::Companies)),
        OperatorRoute::Suspense => Ok(Ok(Call::SuspenseItems)),
    }
}

// The file that a path names, by its day and its modifier.
fn file_call(path: &[u8]) -> Result<Call, MessageFault>
    ensures { result ≡ file_text (day_of (piece_of 3 path.now)) (piece_of 4 path.now) }
{
    match (Day::read(piece_of(path, 3)), piece_of(path, 4)) {
        (Some(day), [modifier]) => Ok(Call::FileText(day, *modifier)),
        _ => Err(MessageFault::NoFile),
    }
}
