//! The rows of a list of all companies are compared with each company's own reads.
use super::script::words_for;
use desk_core::{Desk, Store};
use std::alloc::Global;
use std::process::Abort;

fn add(rt: &impl Abort, out: &mut String, text: &str) {
    out.push_str(text).ok().expect(rt, "memory");
}

// Appends the answer to a company's own read.
fn add_own<S: Store>(
    rt: &(impl Abort + Alloc<A = Global>),
    desk: &mut Desk<S>,
    out: &mut String,
    company: &str,
    read: &str,
) {
    let mut line = String::new(rt.alloc());
    add(rt, &mut line, company);
    add(rt, &mut line, read);
    let (words, asked_again) = words_for(rt, desk, &line);
    assert!(rt; !asked_again, "{line}");
    add(rt, out, &words);
}

// Checks that each row of a list, `ID NAME, entry LIMIT, EXPOSURE, RATES`, has the answers to the
// company's own two reads.
fn match_own_reads<S: Store>(
    rt: &(impl Abort + Alloc<A = Global>),
    desk: &mut Desk<S>,
    list: &str,
) {
    for row in list.split("; ").skip(1) {
        let company = row.split(' ').next().unwrap_or("");
        let mut own = String::new(rt.alloc());
        add_own(rt, desk, &mut own, company, " exposure");
        add(rt, &mut own, ", ");
        add_own(rt, desk, &mut own, company, " rates");
        let listed = row.splitn(3, ", ").nth(2).unwrap_or("");
        assert!(rt; own.as_str() == listed, "{row}");
    }
}

/// Checks the answer to each call of a script, and after each list of all companies asks each company's
/// own reads.
pub(super) fn follow_with_own_reads<S: Store>(
    rt: &(impl Abort + Alloc<A = Global>),
    desk: &mut Desk<S>,
    script: &[(&str, &str)],
) {
    for (line, wanted) in script {
        let (words, asked_again) = words_for(rt, desk, line);
        assert!(rt; words.as_str() == *wanted, "{line}");
        assert!(rt; !asked_again, "{line}");
        if *line == "desk companies" {
            match_own_reads(rt, desk, wanted);
        }
    }
}
