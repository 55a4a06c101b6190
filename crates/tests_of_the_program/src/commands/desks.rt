//! Desks in files: they are made once, and faults of an option or a file are reported.
use super::{NOBODY, carry_out_words, prints};
use desk_cli::{Command, InitOptions, Status};
use std::fs;
use std::os::unix::fs::MetadataExt;
use std::test::Fail;

/// The sample bank, and the key of its operator.
pub const SAMPLE_BANK: InitOptions<'static> = InitOptions {
    odfi: "121042882",
    odfi_name: "OUR BANK",
    destination: "061000146",
    destination_name: "ACH OPERATOR",
    key: "operator-key",
};

/// The contents of a file that is not a database.
pub const NOTE: &[u8] = b"This is a note, and no database of anything at all.\n";

/// Options that are corrected one after another, and the line that is printed.
const BAD_OPTIONS: &[(InitOptions<'static>, &str)] = &[
    (
        InitOptions {
            odfi: "121042881",
            odfi_name: " OUR BANK",
            destination: "06100014",
            destination_name: "AN OPERATOR OF 24 LETTERS",
            key: "no key",
        },
        "bad odfi\n",
    ),
    (
        InitOptions {
            odfi: "121042882",
            odfi_name: " OUR BANK",
            destination: "06100014",
            destination_name: "AN OPERATOR OF 24 LETTERS",
            key: "no key",
        },
        "bad odfi-name\n",
    ),
    (
        InitOptions {
            odfi: "121042882",
            odfi_name: "OUR BANK",
            destination: "06100014",
            destination_name: "AN OPERATOR OF 24 LETTERS",
            key: "no key",
        },
        "bad destination\n",
    ),
    (
        InitOptions {
            odfi: "121042882",
            odfi_name: "OUR BANK",
            destination: "061000146",
            destination_name: "AN OPERATOR OF 24 LETTERS",
            key: "no key",
        },
        "bad destination-name\n",
    ),
    (
        InitOptions {
            odfi: "121042882",
            odfi_name: "OUR BANK",
            destination: "061000146",
            destination_name: "ACH OPERATOR",
            key: "no key",
        },
        "bad key\n",
    ),
];

/// No bank and no operator can have one of these as its name.
const NO_NAMES: &[&str] = &[
    "",
    " OUR BANK",
    "OUR BANK ",
    "OUR\tBANK",
    "OUR BÄNK",
    "A NAME OF 24 CHARACTERS.",
];

/// The words that make a desk of the sample bank.
const WORDS: &[&str] = &[
    "init",
    "words.db",
    "--odfi",
    "121042882",
    "--odfi-name",
    "OUR BANK",
    "--destination=061000146",
    "--destination-name",
    "ACH OPERATOR",
    "--key=operator-key",
];

/// Removes a desk's file and its log, if they exist.
pub fn clear(rt: &HostRuntime, path: &str) -> Result<(), Fail> {
    let _ = fs::remove_file(rt, path);
    let log = format!(in rt.alloc(); "{path}-wal")?;
    let _ = fs::remove_file(rt, log.as_str());
    Ok(())
}

/// Is there no file at this path?
pub fn is_absent(rt: &HostRuntime, path: &str) -> bool {
    fs::metadata(rt, path).is_err()
}

/// Makes a desk of the sample bank at this path, after removing an earlier one. Reports success.
pub fn is_made(rt: &HostRuntime, path: &str) -> Result<bool, Fail> {
    clear(rt, path)?;
    Ok(says(rt, path, SAMPLE_BANK, Status::Done, "created\n"))
}

// Does `init` with these options end so, and print this line?
fn says(
    rt: &HostRuntime,
    path: &str,
    options: InitOptions<'_>,
    status: Status,
    line: &str,
) -> bool {
    prints(
        rt,
        &Command::Init(path, options),
        NOBODY,
        status,
        line.as_bytes(),
    )
}

// Does nobody but its owner read the file?
fn is_private(rt: &HostRuntime, path: &str) -> Result<bool, Fail> {
    let found = fs::metadata(rt, path)?;
    Ok(found.mode() & 0o777 == 0o600)
}

#[test]
fn a_desk_is_made_once(rt: HostRuntime) -> Result<(), Fail> {
    let path = "made.db";
    assert!(rt; is_made(&rt, path)?);
    assert!(rt; is_private(&rt, path)?);
    assert!(rt; is_private(&rt, "made.db-wal")?);
    assert!(rt; says(&rt, path, SAMPLE_BANK, Status::Refused, "Exists\n"));
    clear(&rt, path)
}

#[test]
fn what_is_no_desk_stays_as_it_is(rt: HostRuntime) -> Result<(), Fail> {
    let path = "other.db";
    clear(&rt, path)?;
    fs::write(&rt, path, NOTE)?;
    assert!(rt; says(&rt, path, SAMPLE_BANK, Status::Failed, "unavailable\n"));
    let kept = fs::read(&rt, path)?;
    assert!(rt; kept.as_slice() == NOTE);
    clear(&rt, path)
}

#[test]
fn no_desk_is_made_where_no_file_can_be(rt: HostRuntime) {
    for &path in &["no such folder/made.db", ":memory:"] {
        assert!(rt;
            says(&rt, path, SAMPLE_BANK, Status::Failed, "unavailable\n"),
            "{path}"
        );
    }
}

#[test]
fn the_first_bad_option_is_told(rt: HostRuntime) -> Result<(), Fail> {
    let path = "none.db";
    clear(&rt, path)?;
    for &(options, line) in BAD_OPTIONS {
        assert!(rt; says(&rt, path, options, Status::Refused, line), "{line}");
    }
    // No file was made meanwhile.
    assert!(rt; is_absent(&rt, path));
    Ok(())
}

#[test]
fn a_desk_has_names(rt: HostRuntime) -> Result<(), Fail> {
    let path = "named.db";
    clear(&rt, path)?;
    for &name in NO_NAMES {
        let mut options = SAMPLE_BANK;
        options.odfi_name = name;
        assert!(rt;
            says(&rt, path, options, Status::Refused, "bad odfi-name\n"),
            "{name}"
        );
        options = SAMPLE_BANK;
        options.destination_name = name;
        assert!(rt;
            says(
                &rt,
                path,
                options,
                Status::Refused,
                "bad destination-name\n"
            ),
            "{name}"
        );
    }
    assert!(rt; is_absent(&rt, path));
    Ok(())
}

#[test]
fn the_longest_and_the_shortest_name(rt: HostRuntime) -> Result<(), Fail> {
    let path = "longest.db";
    clear(&rt, path)?;
    let options = InitOptions {
        odfi_name: "A NAME OF 23 CHARACTERS",
        destination_name: "~",
        ..SAMPLE_BANK
    };
    assert!(rt; says(&rt, path, options, Status::Done, "created\n"));
    clear(&rt, path)
}

#[test]
fn the_words_of_a_new_desk(rt: HostRuntime) -> Result<(), Fail> {
    let path = "words.db";
    clear(&rt, path)?;
    let mut printed = Vec::new(rt.alloc());
    assert!(rt; carry_out_words(&rt, WORDS, NOBODY, &mut printed) == 0);
    assert!(rt; carry_out_words(&rt, WORDS, NOBODY, &mut printed) == 1);
    assert!(rt; printed.as_slice() == b"created\nExists\n".as_slice());
    clear(&rt, path)
}
