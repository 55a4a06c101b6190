//! Files of desks that were damaged are refused.
use super::paths::{Way, change_desk, clear, fault_of, go_on_with_new};
use std::fs;
use std::process::Abort;
use std::test::Fail;

const PATH: &str = "damaged_desk.db";

const PAGE: usize = 4_096;

// Is a file of these bytes, with no log, opened as a desk?
fn is_opened(host: &HostRuntime, rt: &impl Abort, bytes: &[u8]) -> Result<bool, Fail> {
    clear(host, PATH)?;
    fs::write(host, PATH, bytes)?;
    Ok(fault_of(host, rt, PATH, Way::Open).is_none())
}

#[test]
fn a_damaged_byte_is_found(rt: HostRuntime) -> Result<(), Fail> {
    clear(&rt, PATH)?;
    go_on_with_new(&rt, &rt, PATH)?;
    change_desk(&rt, &rt, PATH, "")?;
    let mut bytes = fs::read(&rt, PATH)?;
    assert!(rt; is_opened(&rt, &rt, &bytes)?);
    // One byte of each page, each at another place of its page.
    for page in 0..bytes.len() / PAGE {
        let at = page * PAGE + page * 97 % PAGE;
        if let Some(byte) = bytes.get_mut(at) {
            *byte ^= 1;
        }
        assert!(rt; !is_opened(&rt, &rt, &bytes)?, "byte {at}");
        if let Some(byte) = bytes.get_mut(at) {
            *byte ^= 1;
        }
    }
    assert!(rt; is_opened(&rt, &rt, &bytes)?);
    clear(&rt, PATH)
}
