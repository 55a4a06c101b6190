//! The public names of the desk, each from the crate in which a programmer looks for it, and each method
//! once. If a crate no longer has one, this does not compile.
use ach_fields::Cents;
use ach_fields::FieldFault;
use ach_fields::Id;
use ach_fields::Ref;
use ach_fields::Routing;
use ach_fields::Ymd;
use ach_fields::check_digit;
use ach_fields::put_number;
use ach_fields::put_text;
use ach_fields::take_number;
use ach_fields::take_text;
use ach_files::Fault;
use ach_files::FileFault;
use ach_files::Incoming;
use ach_files::Item;
use ach_files::ItemFacts;
use ach_files::Outgoing;
use ach_files::PrintFault;
use ach_files::Reader;
use ach_files::Taken;
use ach_files::print_file;
use ach_files::read_file;
use ach_records::Addenda05;
use ach_records::BatchControl;
use ach_records::BatchHeader;
use ach_records::Change98;
use ach_records::Entry;
use ach_records::FileControl;
use ach_records::FileHeader;
use ach_records::Filler;
use ach_records::Record;
use ach_records::RecordFault;
use ach_records::Return99;
use ach_records::print_addenda05;
use ach_records::print_batch_control;
use ach_records::print_batch_header;
use ach_records::print_change98;
use ach_records::print_entry;
use ach_records::print_file_control;
use ach_records::print_file_header;
use ach_records::print_filler;
use ach_records::print_return99;
use ach_records::view;
use bank_days::Calendar;
use bank_days::CalendarFault;
use bank_days::Day;
use desk_accounts::Account;
use desk_accounts::Posting;
use desk_accounts::balance;
use desk_accounts::balance_of_days;
use desk_accounts::post_cut;
use desk_accounts::post_return;
use desk_accounts::post_suspense;
use desk_cli::Command;
use desk_cli::LineFault;
use desk_cli::NoMemory;
use desk_cli::check_file;
use desk_cli::command_of;
use desk_cli::first_run;
use desk_cli::run;
use desk_cli::submission_answer;
use desk_cli::submit_message;
use desk_core::Answer;
use desk_core::Call;
use desk_core::CallRefusal;
use desk_core::CutPlan;
use desk_core::Desk;
use desk_core::FaultyStore;
use desk_core::FoundItem;
use desk_core::Identity;
use desk_core::Intake;
use desk_core::ListStore;
use desk_core::Outcome;
use desk_core::Store;
use desk_core::StoreFault;
use desk_core::SuspenseReason;
use desk_core::number_cut;
use desk_core::plan_cut;
use desk_core::plan_intake;
use desk_core::plan_numbers;
use desk_core::rows_of_part;
use desk_http::Ended;
use desk_http::Fields;
use desk_http::Framing;
use desk_http::HttpDesk;
use desk_http::Message;
use desk_http::Request;
use desk_http::Routes;
use desk_http::ServeFault;
use desk_http::SessionFault;
use desk_http::UNAVAILABLE;
use desk_http::Unavailable;
use desk_http::Version;
use desk_http::answer;
use desk_http::company_draft;
use desk_http::day_draft;
use desk_http::fault_text;
use desk_http::limits_draft;
use desk_http::put_acceptance;
use desk_http::read_object;
use desk_http::refusal_text;
use desk_http::retry_draft;
use desk_http::serve;
use desk_http::served_alone;
use desk_http::session;
use desk_http::submission_draft;
use desk_http::two_worlds;
use desk_rules::Attempt;
use desk_rules::Draft;
use desk_rules::EntryFact;
use desk_rules::EntryState;
use desk_rules::Level;
use desk_rules::Limits;
use desk_rules::Rates;
use desk_rules::Refusal;
use desk_rules::RetryDraft;
use desk_rules::ReturnCode;
use desk_rules::RuleFault;
use desk_rules::Submission;
use desk_rules::check_fields;
use desk_rules::check_size;
use desk_rules::check_submission;
use desk_rules::credit_exposure;
use desk_rules::deadline;
use desk_rules::debit_exposure;
use desk_rules::exceeds;
use desk_rules::may_retry;
use desk_rules::rates;
use desk_tables::OpenFault;
use desk_tables::SqlStore;
use desk_tables::create;
use desk_tables::migrate;
use desk_tables::migrate_file;
use desk_tables::open;
use sqlite::MemStore;

#[test]
fn formats_have_their_methods(_rt: HostRuntime) {
    let _ = FieldFault::number;
    let _ = (Routing::parse, Routing::dfi, Routing::digit);
    let _ = (Cents::new, Cents::get);
    let _ = (Ymd::new, Ymd::parse, Ymd::print);
    let _ = (Id::new, Id::bytes, Ref::new, Ref::bytes);
    let _ = (RecordFault::number, FileFault::number, PrintFault::number);
    let _ = (
        Incoming::key,
        Incoming::digest,
        Incoming::len,
        Incoming::item,
        Item::facts,
    );
    let _ = (Reader::new, Reader::feed, Reader::finish);
    let _ = (Taken::key, Taken::digest, Taken::items);
    let _ = (
        Day::read,
        Day::text,
        Day::ymd,
        Day::plus,
        Day::number,
        Day::from_number,
    );
    let _ = (
        Calendar::read,
        Calendar::from_days,
        Calendar::is_banking,
        Calendar::next,
    );
    let _ = (
        Calendar::nth_after,
        Calendar::roll,
        Calendar::holidays,
        CalendarFault::number,
    );
    let _ = ReturnCode::parse;
}

#[test]
fn headers_have_their_readers(_rt: HostRuntime) {
    let _ = (
        FileHeader::record_type,
        FileHeader::priority_code,
        FileHeader::immediate_destination,
        FileHeader::immediate_origin,
        FileHeader::creation_date,
        FileHeader::creation_time,
        FileHeader::modifier,
    );
    let _ = (
        FileHeader::record_size,
        FileHeader::blocking_factor,
        FileHeader::format_code,
        FileHeader::destination_name,
        FileHeader::origin_name,
        FileHeader::reference_code,
    );
    let _ = (
        BatchHeader::record_type,
        BatchHeader::service_class,
        BatchHeader::company_name,
        BatchHeader::discretionary_data,
        BatchHeader::company_identification,
        BatchHeader::sec_code,
        BatchHeader::entry_description,
    );
    let _ = (
        BatchHeader::descriptive_date,
        BatchHeader::effective_entry_date,
        BatchHeader::settlement_date,
        BatchHeader::originator_status,
        BatchHeader::originating_dfi,
        BatchHeader::batch_number,
    );
}

#[test]
fn entries_have_their_readers(_rt: HostRuntime) {
    let _ = (
        Entry::record_type,
        Entry::transaction_code,
        Entry::receiving_dfi,
        Entry::check_digit,
        Entry::account,
        Entry::cents,
        Entry::identification,
    );
    let _ = (
        Entry::name,
        Entry::discretionary_data,
        Entry::addenda_indicator,
        Entry::trace,
    );
    let _ = (
        Addenda05::record_type,
        Addenda05::payment_information,
        Addenda05::sequence,
        Addenda05::entry_sequence,
    );
}

#[test]
fn returns_and_changes_have_their_readers(_rt: HostRuntime) {
    let _ = (
        Return99::record_type,
        Return99::return_code,
        Return99::original_trace,
        Return99::date_of_death,
        Return99::original_receiving_dfi,
        Return99::information,
        Return99::trace,
    );
    let _ = (
        Change98::record_type,
        Change98::change_code,
        Change98::original_trace,
        Change98::reserved,
        Change98::original_receiving_dfi,
        Change98::corrected_data,
        Change98::second_reserved,
    );
    let _ = Change98::trace;
}

#[test]
fn controls_have_their_readers(_rt: HostRuntime) {
    let _ = (
        BatchControl::record_type,
        BatchControl::service_class,
        BatchControl::count,
        BatchControl::entry_hash,
        BatchControl::total_debits,
        BatchControl::total_credits,
        BatchControl::company_identification,
    );
    let _ = (
        BatchControl::authentication_code,
        BatchControl::reserved,
        BatchControl::originating_dfi,
        BatchControl::batch_number,
    );
    let _ = (
        FileControl::record_type,
        FileControl::batch_count,
        FileControl::block_count,
        FileControl::count,
        FileControl::entry_hash,
        FileControl::total_debits,
        FileControl::total_credits,
    );
    let _ = FileControl::reserved;
}

#[test]
fn desks_have_their_methods(_rt: HostRuntime) {
    let _ = (ListStore::new, FaultyStore::new, FaultyStore::into_inner);
    let _ = (SqlStore::<MemStore>::in_memory, SqlStore::<MemStore>::adopt);
    let _ = (Desk::<ListStore>::new, Desk::<ListStore>::into_store);
    let _ = (Desk::<ListStore>::allow, Desk::<ListStore>::apply);
    let _ = OpenFault::number;
}

#[test]
fn stores_have_their_methods(_rt: HostRuntime) {
    let _ = (
        ListStore::identity,
        ListStore::key_of,
        ListStore::day,
        ListStore::calendar,
    );
    let _ = (
        ListStore::company,
        ListStore::submission,
        ListStore::entries_of,
        ListStore::waiting,
    );
    let _ = (
        ListStore::last_sequence,
        ListStore::sent_count,
        ListStore::latest_settled,
    );
    let _ = (
        ListStore::files_on,
        ListStore::sent_as,
        ListStore::items_of,
        ListStore::postings_of,
    );
    let _ = (
        ListStore::balances_of,
        ListStore::suspense,
        ListStore::file,
        ListStore::taken,
    );
    let _ = (
        ListStore::set_day,
        ListStore::set_holidays,
        ListStore::put_company,
    );
    let _ = (ListStore::put_limits, ListStore::add_submission);
    let _ = (ListStore::commit_cut, ListStore::commit_intake);
}

#[test]
fn laws_are_calls(_rt: HostRuntime) {
    rows_of_part();
    two_worlds();
    served_alone();
}
