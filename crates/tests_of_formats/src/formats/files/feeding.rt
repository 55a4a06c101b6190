//! These files come in pieces.
use super::samples::{FAILED, RETURNED_DIGEST, end, return_file};
use ach_files::{Fault, FileFault, Reader, Taken};

/// The key, the digest and the number of the items of a file.
type Told = ([u8; 21], [u8; 32], usize);

fn told(taken: Result<Taken, Fault>) -> Result<Told, Fault> {
    match taken {
        Ok(taken) => Ok((taken.key(), taken.digest(), taken.items().len())),
        Err(fault) => Err(fault),
    }
}

// Returns the result for two pieces with an empty one between them. If a byte after the end is not
// refused, that is a fault that no test expects.
fn told_of_two(rt: &HostRuntime, first: &[u8], second: &[u8]) -> Result<Told, Fault> {
    let mut reader = Reader::new(rt.alloc());
    for piece in [first, b"", second] {
        reader.feed(piece)?;
    }
    let told = told(reader.finish());
    match reader.feed(b"1") {
        Err(FAILED) => told,
        _ => Err(FAILED),
    }
}

#[test]
fn two_pieces(rt: HostRuntime) {
    let file = return_file();
    for first in 0..951 {
        assert!(rt;
            told_of_two(&rt, &file[..first], &file[first..])
                == Ok((*b" 0610001462501140930A", RETURNED_DIGEST, 1)),
            "after {first} bytes"
        );
    }
}

// The outcome of a byte of a file whose batch control, the fifth record, says another hash.
fn outcome_of_byte(place: usize) -> Result<(), Fault> {
    if place < 4 * 95 + 93 {
        Ok(())
    } else if place == 4 * 95 + 93 {
        Err(Fault {
            kind: FileFault::BadHash,
            at: 5,
        })
    } else {
        Err(FAILED)
    }
}

#[test]
fn fault_is_told_once(rt: HostRuntime) {
    let mut file = return_file();
    file[4 * 95 + 19] = b'9';
    let mut reader = Reader::new(rt.alloc());
    for (place, byte) in file.iter().enumerate() {
        assert!(rt;
            reader.feed(&[*byte]) == outcome_of_byte(place),
            "byte {place}"
        );
    }
    assert!(rt; reader.feed(b"") == Err(FAILED));
    assert!(rt; end(&mut reader) == Err(FAILED));
}

#[test]
fn end_is_told_by_finish(rt: HostRuntime) {
    let file = return_file();
    let mut reader = Reader::new(rt.alloc());
    for byte in file.iter().take(2 * 95 + 40) {
        assert!(rt; reader.feed(&[*byte]) == Ok(()));
    }
    let early = Fault {
        kind: FileFault::BadLength,
        at: 3,
    };
    assert!(rt; end(&mut reader) == Err(early));
    assert!(rt; end(&mut reader) == Err(FAILED));
}
