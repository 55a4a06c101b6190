//! Requests of companies.
ghost use Rattle.std.specs.Prelude.{◌≡◌, IfOk};
ghost use Rattle.std.specs.Result.{result_ok};
ghost use Rattle.ach_fields.specs.Names.{reference_of};
ghost use Rattle.http_message.specs.Message.{request_value};
ghost use Rattle.http_routes.specs.Finding.{piece_of};
ghost use Rattle.desk_admission.specs.OverStores.{Gives};
ghost use Rattle.http_history.specs.Verdict.{company_verdict, request_on, look_up};
ghost use Rattle.desk_http.specs.Addressing.{company_path_verdict};
ghost use Rattle.desk_http.specs.Judged.{judged};

use super::object::{retry_call, submission_call};
use ach_fields::{Id, Ref};
use desk_book::Caller;
use desk_calls::Desk;
use desk_history::Call;
use desk_store::{Store, StoreFault};
use http_answers::MessageFault;
use http_message::{Request, value_of};
use http_routes::{CompanyRoute, piece_of};
use json::Scratch;
use sha2::{Digest, Sha256};
use std::alloc::{AllocError, Global};

/// Returns the call of a company's request under its key, or the fault. A path whose company is not a valid
/// identification is denied in the same way as an unknown company.
pub(crate) fn company_verdict<S: Store>(
    alloc: Global,
    desk: &mut Desk<S>,
    scratch: &mut Scratch,
    route: CompanyRoute,
    request: &Request<'_>,
) -> Result<Result<Call, MessageFault>, StoreFault>
    ensures { Gives S.Store desk.old desk.new result
        (company_path_verdict route (request_value request.now)) }
{
    let Ok(id) = Id::new(piece_of(request.path, 2)) else {
        return Ok(Err(MessageFault::Denied));
    };
    let Some(key) = value_of(&request.fields, b"X-Desk-Key") else {
        return Ok(Err(MessageFault::Denied));
    };
    match desk.allow(alloc, Caller::Company(id), Sha256::digest(key)) {
        Ok(true) => match route_call(alloc, scratch, route, id, request) {
            Ok(verdict) => Ok(verdict),
            Err(_) => Err(StoreFault::Unavailable),
        },
        Ok(false) => Ok(Err(MessageFault::Denied)),
        Err(fault) => Err(fault),
    }
}

// The call of a company that has shown its key.
fn route_call(
    alloc: Global,
    scratch: &mut Scratch,
    route: CompanyRoute,
    id: Id,
    request: &Request<'_>,
) -> Result<Result<Call, MessageFault>, AllocError>
    ensures { IfOk result
        (λ v. v ≡ company_verdict id (judged (request_on route (request_value request.now)))) }
{
    match route {
        CompanyRoute::Submit => submission_call(alloc, scratch, id, &request.body),
        CompanyRoute::Retry => retry_call(alloc, scratch, id, &request.body),
        CompanyRoute::LookUp => Ok(look_up_call(id, piece_of(request.path, 4))),
        CompanyRoute::Returns => Ok(Ok(Call::ReturnsOf(id))),
        CompanyRoute::Changes => Ok(Ok(Call::ChangesOf(id))),
        CompanyRoute::Statement => Ok(Ok(Call::StatementOf(id))),
        CompanyRoute::Rates => Ok(Ok(Call::RatesOf(id))),
        CompanyRoute::Exposure => Ok(Ok(Call::ExposureOf(id))),
    }
}

fn look_up_call(id: Id, reference: &[u8]) -> Result<Call, MessageFault>
    ensures { result ≡ company_verdict id (judged (look_up (result_ok (reference_of reference.now)))) }
{
    match Ref::new(reference) {
        Ok(reference) => Ok(Call::LookUp(id, reference)),
        Err(_) => Err(MessageFault::NoReference),
    }
}
