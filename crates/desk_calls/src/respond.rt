//! A call is answered by the book.
ghost use Rattle.desk_calls.specs.OverStores.{AnswersByBook, LeavesByBook, LeavesIfRead};

use crate::company::reads::{changes_of, exposure_of, look_up, rates_of, returns_of, statement_of};
use crate::company::submission::submit;
use crate::operator::companies::companies;
use crate::operator::cut::cut;
use crate::operator::reads::{file_text, settlement, suspense_items};
use crate::operator::settings::{put_company, put_limits, set_day, set_holidays};
use crate::operator::status::status;
use crate::retry::call::retry;
use desk_history::{Answer, Call};
use desk_intake::take_file;
use desk_store::{Store, StoreFault};
use std::alloc::Global;

/// Gives the answer to a call, with the one write that it makes.
pub(crate) fn respond<S: Store>(
    store: &mut S,
    alloc: Global,
    call: Call,
) -> Result<Answer, StoreFault>
    ensures before { S.is_clean store.new → S.is_clean store.old }
    ensures answers { AnswersByBook S.Store store.old store.new result call }
    ensures left { LeavesByBook S.Store store.old store.new result call }
    ensures read { LeavesIfRead S.Store store.old store.new call }
{
    match call {
        Call::PutCompany(draft) => put_company(store, alloc, &draft),
        Call::PutLimits(draft) => put_limits(store, alloc, &draft),
        Call::SetDay(text) => set_day(store, alloc, &text),
        Call::SetHolidays(text) => set_holidays(store, alloc, text.as_slice()),
        Call::Cut => cut(store, alloc),
        Call::TakeFile(bytes) => take_file(store, alloc, bytes.as_slice()),
        Call::FileText(day, modifier) => file_text(store, alloc, day, modifier),
        Call::Settlement => settlement(store, alloc),
        Call::SuspenseItems => suspense_items(store, alloc),
        Call::Status => status(store, alloc),
        Call::Companies => companies(store, alloc),
        Call::Submit(company, draft) => submit(store, alloc, company, &draft),
        Call::Retry(company, draft) => retry(store, alloc, company, &draft),
        Call::LookUp(company, reference) => look_up(store, alloc, company, reference),
        Call::ReturnsOf(company) => returns_of(store, alloc, company),
        Call::ChangesOf(company) => changes_of(store, alloc, company),
        Call::StatementOf(company) => statement_of(store, alloc, company),
        Call::RatesOf(company) => rates_of(store, alloc, company),
        Call::ExposureOf(company) => exposure_of(store, alloc, company),
    }
}
