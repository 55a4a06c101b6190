//! The body of a cut.
ghost use Rattle.std.specs.Prelude.{◌≡◌, ◌≤◌, ◌+◌, ◌*◌, length, codes, true, vec_len, vec_capacity};
ghost use Rattle.http_json.specs.Gains.{GainsMember, GainsValue};
ghost use Rattle.http_answers.specs.Lists.{GainsRow, GainsRows};
ghost use Rattle.http_answers.specs.Operator.{modifier_body, files_body, cut_body};

use desk_history::CutSummary;
use http_json::{put, put_comma, put_key, put_number, put_quoted, put_text};

/// The most files of a day: modifiers are A to Z, then 0 to 9.
const MOST_FILES: usize = 36;

/// Appends the body of a cut that made at most 36 files, which is the most that a day has.
pub(crate) fn put_cut(text: &mut Vec<u8>, cut: &CutSummary)
    requires { vec_len text.old + 640 ≤ vec_capacity text.old }
    ensures items { length cut.now.files ≤ 36 → GainsValue text.old text.new (cut_body cut.now) }
    ensures len { vec_len text.new ≤ vec_len text.old + 640 }
{
    put(text, b"{");
    put_text(text, false, b"day", &cut.day.text());
    put_number(text, true, b"entries", cut.entries);
    put_files(text, first_files(cut.files.as_slice()));
    put_number(text, true, b"lapsed", cut.lapsed);
    put(text, b"}");
}

// At most 36 of them, which are all.
fn first_files(files: &[u8]) -> &[u8]
    ensures few { length result.now ≤ 36 }
    ensures same { length files.now ≤ 36 → result.now ≡ files.now }
{
    if files.len() > MOST_FILES {
        &files[..MOST_FILES]
    } else {
        files
    }
}

#[tactic(auto, unfolding(http_json::specs::Members::member_text))]
fn put_files(text: &mut Vec<u8>, files: &[u8])
    requires { vec_len text.old + (9 * length files.now + 36) ≤ vec_capacity text.old }
    ensures items { GainsMember text.old text.new true (codes "files") (files_body files.now) }
    ensures len { vec_len text.new ≤ vec_len text.old + (9 * length files.now + 36) }
    ensures capacity { vec_capacity text.old ≤ vec_capacity text.new }
{
    put_key(text, true, b"files");
    put(text, b"[");
    put_modifiers(text, files);
}

// With the closing bracket.
fn put_modifiers(text: &mut Vec<u8>, files: &[u8])
    requires { vec_len text.old + (9 * length files.now + 1) ≤ vec_capacity text.old }
    ensures items { GainsRows text.old text.new modifier_body files.now }
    ensures len { vec_len text.new ≤ vec_len text.old + (9 * length files.now + 1) }
    ensures capacity { vec_capacity text.old ≤ vec_capacity text.new }
{
    let mut later = false;
    for modifier in files {
        put_modifier(text, later, *modifier);
        later = true;
    }
    put(text, b"]");
}

fn put_modifier(text: &mut Vec<u8>, later: bool, modifier: u8)
    requires { vec_len text.old + 9 ≤ vec_capacity text.old }
    ensures items { GainsRow text.old text.new later (modifier_body modifier) }
    ensures len { vec_len text.new ≤ vec_len text.old + 9 }
    ensures capacity { vec_capacity text.old ≤ vec_capacity text.new }
{
    put_comma(text, later);
    put_quoted(text, &[modifier]);
}
