//! The laws of all histories over bytes.
ghost use Rattle.http_history.specs.CompanyRows.{CompaniesRows};
ghost use Rattle.http_history.specs.Laws.{OneMeaning, NoneUnavailable, CallsAreHistory, SamePart, OwnText, TwoWorlds, CallsAlone, ServedAlone, FirstCalls};

/// What a message comes to means one thing, and no other.
pub fn one_meaning()
    ensures { OneMeaning }
{
    desk_history::one_message();
}

/// No text of the definitions has the status 503, and no message of a history was answered so.
pub fn none_unavailable()
    ensures { NoneUnavailable }
{}

/// The calls of a history over bytes are a history of calls, whatever was answered.
pub fn calls_are_history()
    ensures { CallsAreHistory }
{}

/// A company's part is one, over bytes and over calls.
pub fn same_part()
    ensures { SamePart }
{
    desk_history::digest_of_part();
}

/// The bytes that a company gets are made of its part of the history and its message alone.
pub fn own_text()
    ensures { OwnText }
{
    desk_history::digest_of_part();
}

/// Two histories with the same part of a company give it the same bytes for the same message, whatever
/// other companies did, and whoever runs the desks.
pub fn two_worlds()
    ensures { TwoWorlds }
{
    desk_history::digest_of_part();
}

/// The operator's read of all companies is answered 200 with one row for each registered company. A
/// row has what the company's own reads of its exposure and of its return rates are answered, on the
/// routes of the company under its right key. Before the first day the read is refused.
pub fn companies_rows()
    ensures { CompaniesRows }
{
    desk_history::digest_of_part();
    desk_history::companies_rows();
}

/// The calls of the history of a desk that serves a company alone are those that `desk_history` tells such
/// a desk.
pub fn calls_alone()
    ensures { CallsAlone }
{
    desk_history::digest_of_part();
}

/// A desk that serves no one else has the same part of the company, what it posted that made no call among
/// it, and gives it the same bytes; all that it was told was accepted, or is the company's own. So it is
/// where the whole desk sent at most 9,999,999 entries and the company had fewer than 10^21 returns and
/// changes.
pub fn served_alone()
    ensures { ServedAlone }
{
    desk_history::digest_of_part();
    desk_history::served_alone();
}

/// Any messages have a history of a desk of version 1, which did not read the key `authorized` of a
/// retry's body. The calls of such a history are those that the bytes of its messages spell, without
/// that key.
pub fn first_calls()
    ensures { FirstCalls }
{
    one_meaning();
    desk_history::authorizations_left_out();
}
