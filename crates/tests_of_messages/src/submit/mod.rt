//! Several tests take these options, and look at the message or the fault of a list.
mod large;
mod messages;
mod order;
mod rows;

use crate::sessions::texts::join_texts;
use cli_submit::{InputFault, SubmitFault, SubmitOptions, submit_message};
use std::alloc::Global;
use std::process::Abort;

/// The first row of each list.
const HEADER: &[u8] = b"routing,account,kind,prenote,cents,id,name,info\n";

/// Pay of a company, with its key.
const OPTIONS: SubmitOptions<'static> = SubmitOptions {
    company: "MILL01",
    key: "mill-street-key",
    reference: "PAY-1",
    sec: "PPD",
    direction: "credit",
    description: "PAYROLL",
    day: "2025-01-10",
};

/// The text before the entries of a message's body, and after them.
const BEFORE: &[u8] =
    b"\r\n\r\n{\"day\":\"2025-01-10\",\"description\":\"PAYROLL\",\"direction\":\"credit\",\"entries\":";

const BEHIND: &[u8] = b",\"ref\":\"PAY-1\",\"sec\":\"PPD\"}";

/// The list makes no message with these options, for this fault.
fn fails(
    rt: &(impl Abort + Alloc<A = Global>),
    options: &SubmitOptions<'_>,
    list: &[u8],
    fault: InputFault,
) {
    let found = submit_message(rt.alloc(), options, list).err();
    assert!(rt;
        found == Some(SubmitFault::Input(fault)),
        "{found:?}: not {fault:?}"
    );
}

/// The list makes a message with these options, and so the message ends.
fn ends(
    rt: &(impl Abort + Alloc<A = Global>),
    options: &SubmitOptions<'_>,
    list: &[u8],
    end: &[u8],
) {
    let message = submit_message(rt.alloc(), options, list).expect(rt, "a message");
    assert!(rt; message.as_slice().ends_with(end), "{end:?}");
}

/// The list makes a message whose body has this list of entries.
fn list_makes(rt: &(impl Abort + Alloc<A = Global>), list: &[u8], entries: &[u8]) {
    ends(
        rt,
        &OPTIONS,
        list,
        &join_texts(rt, &[BEFORE, entries, BEHIND]),
    );
}

/// Rows and the list of entries in the body of the message that they make, under the header.
type Made = (&'static [u8], &'static [u8]);

/// All these rows make their entries.
fn make(rt: &(impl Abort + Alloc<A = Global>), made: &[Made]) {
    for &(rows, entries) in made {
        list_makes(rt, &join_texts(rt, &[HEADER, rows]), entries);
    }
}
