//! A desk of version 1 in files of the system is migrated.
use super::images::Image;
use super::trials::{goes_on, migration};
use crate::files::paths::{Way, fault_of};
use desk_tables::OpenFault;
use std::{fs, io};

const PATH: &str = "desk_of_version_1.db";

const LOG: &str = "desk_of_version_1.db-wal";

fn clear(rt: &HostRuntime) {
    let _ = fs::remove_file(rt, PATH);
    let _ = fs::remove_file(rt, LOG);
}

fn write_files(rt: &HostRuntime, image: &Image) -> io::Result<()> {
    fs::write(rt, PATH, image.db.as_slice())?;
    fs::write(rt, LOG, image.log.as_slice())
}

fn read_files(rt: &HostRuntime) -> io::Result<Image> {
    let log = fs::read(rt, LOG)?;
    let db = fs::read(rt, PATH)?;
    Ok(Image { log, db })
}

// The desk then opens, and answers what it accepted.
#[test]
fn a_file_is_migrated(rt: HostRuntime) {
    let trial = migration(&rt);
    clear(&rt);
    assert!(rt; write_files(&rt, &trial.image).is_ok());
    let first = Some(OpenFault::WrongVersion(1));
    assert!(rt; fault_of(&rt, &rt, PATH, Way::Open) == first);
    assert!(rt; fault_of(&rt, &rt, PATH, Way::Migrate).is_none());
    let second = Some(OpenFault::WrongVersion(2));
    assert!(rt; fault_of(&rt, &rt, PATH, Way::Migrate) == second);
    assert!(rt; fault_of(&rt, &rt, PATH, Way::Open).is_none());
    let image = read_files(&rt).ok().expect(&rt, "files");
    assert!(rt; !goes_on(&rt, &trial, &image, trial.script.messages.len()));
    clear(&rt);
}
