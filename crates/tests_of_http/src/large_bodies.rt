//! Bodies of the most bytes that a desk reads.
use crate::exchanges::{follow, http_desk};
use crate::samples::{
    CUT_9, DAY_8, DAY_9, DAY_14, HOLIDAYS, MILL, RETURN_1, SUBMIT_2, TAKEN, new_lists,
};
use std::alloc::Global;
use std::process::Abort;

const MOST: usize = 4_194_304;

// Fills a text to the largest allowed size with a byte that has no meaning there.
fn filled(rt: &(impl Abort + Alloc<A = Global>), text: &str, byte: char) -> String {
    let mut body = String::from_str(rt.alloc(), text).ok().expect(rt, "memory");
    for _ in body.len()..MOST {
        body.push(byte).ok().expect(rt, "memory");
    }
    body
}

#[test]
fn a_file_and_a_day_of_the_most_bytes_are_taken(rt: HostRuntime) {
    let file = filled(&rt, RETURN_1, '\n');
    let day = filled(&rt, r#"{"day":"2025-01-14"}"#, ' ');
    let mut desk = http_desk(&rt, new_lists(&rt));
    follow(
        &rt,
        &mut desk,
        "large bodies",
        &[
            HOLIDAYS,
            MILL,
            DAY_8,
            SUBMIT_2,
            DAY_9,
            CUT_9,
            (DAY_14.0, day.as_str(), DAY_14.2, DAY_14.3),
            ("desk POST /ops/returns", file.as_str(), "200 OK", TAKEN),
        ],
    );
}
