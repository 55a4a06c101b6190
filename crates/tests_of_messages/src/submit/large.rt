//! Long lists, and lists at the limit of bytes.
use super::{HEADER, OPTIONS, fails, list_makes};
use crate::sessions::texts::{join_texts, many};
use cli_submit::{InputFault, submit_message};

/// A row, and what it has in a body, without a comma.
const ROW: &[u8] = b"1,2,3,,4,5,6,\n";

const ENTRY: &[u8] =
    b"{\"account\":\"2\",\"cents\":4,\"id\":\"5\",\"kind\":\"3\",\"name\":\"6\",\"routing\":\"1\"}";

/// The bytes of a body without entries.
const EMPTY_BODY: usize = 104;

/// The end of the body of a list of such rows.
const END: &[u8] =
    b"},{\"account\":\"2\",\"cents\":4,\"id\":\"5\",\"kind\":\"3\",\"name\":\"6\",\"routing\":\"1\"}],\"ref\":\"PAY-1\",\"sec\":\"PPD\"}";

/// How many rows there are, and how many bytes the body has.
const SIZES: &[(usize, usize)] = &[
    (1_000, EMPTY_BODY + 1_000 * (ENTRY.len() + 1) - 1),
    (1_001, EMPTY_BODY + 1_001 * (ENTRY.len() + 1) - 1),
];

// A desk takes 1,000 entries and refuses one more, so the message of that is made too.
#[test]
fn a_thousand_rows_and_one_more(rt: HostRuntime) {
    for &(count, size) in SIZES {
        let list = join_texts(&rt, &[HEADER, &many(&rt, ROW, count)]);
        let message = submit_message(rt.alloc(), &OPTIONS, &list).expect(&rt, "a message");
        let text = message.as_slice();
        let body = text.split_at(text.len().saturating_sub(size)).1;
        assert!(rt; body.starts_with(b"{\"day\":"), "{count}");
        assert!(rt; body.ends_with(END), "{count}");
    }
}

/// The most bytes of a list.
const MOST: usize = 4_194_304;

/// The number of times that sixteen blank lines follow the header in a list of the most bytes.
const TIMES: usize = (MOST - HEADER.len()) / 16;

const BLANKS: &[u8] = b"\n\n\n\n\n\n\n\n\n\n\n\n\n\n\n\n";

#[test]
fn the_most_bytes_and_one_more(rt: HostRuntime) {
    let most = join_texts(&rt, &[HEADER, &many(&rt, BLANKS, TIMES)]);
    assert!(rt; most.len() == MOST);
    list_makes(&rt, &most, b"[]");
    let more = join_texts(&rt, &[&most, b"\n"]);
    fails(&rt, &OPTIONS, &more, InputFault::TooLarge);
}
