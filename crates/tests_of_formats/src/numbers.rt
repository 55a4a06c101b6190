//! Worked rows are tried here: batches at the limits of a file, and sequences at the end of their
//! range.
use ach_fields::{Cents, Id};
use bank_days::Day;
use desk_plan::{Batch, NumberFault, divide, is_past, modifier, plan_numbers};
use std::test::Fail;

fn batch((debits, credits, records): (u64, u64, u32)) -> Option<Batch> {
    Some(Batch {
        company: Id::new(b"MILL01").ok()?,
        order: 1,
        settled: Day::read(b"2025-01-10")?,
        debits: Cents::new(debits)?,
        credits: Cents::new(credits)?,
        entries: records.div_ceil(2),
        records,
    })
}

#[test]
fn files(rt: HostRuntime) -> Result<(), Fail> {
    let most = 999_999_999_999;
    // A first batch by its debits, credits and records, how many others follow it, one of these, and
    // the sizes of the files.
    let rows: [((u64, u64, u32), usize, (u64, u64, u32), &[usize]); 9] = [
        ((0, most, 1), 1, (0, 1, 1), &[1, 1]),
        ((0, most, 1), 1, (1, 0, 1), &[2]),
        ((most, 0, 1), 1, (1, 0, 1), &[1, 1]),
        ((most, 0, 1), 3, (0, 1, 1), &[4]),
        ((0, most - 2, 1), 3, (0, 1, 1), &[3, 1]),
        ((0, 1, 1), 999, (0, 1, 1), &[1_000]),
        ((0, 1, 1), 1_000, (0, 1, 1), &[1_000, 1]),
        ((0, 1, 2_000), 49, (0, 1, 2_000), &[50]),
        ((0, 1, 2_000), 50, (0, 1, 2_000), &[50, 1]),
    ];
    for (first, count, other, sizes) in rows {
        let mut batches = Vec::new(rt.alloc());
        batches.push(batch(first).ok_or("amount")?)?;
        for _ in 0..count {
            batches.push(batch(other).ok_or("amount")?)?;
        }
        let divided = divide(rt.alloc(), &batches)?;
        assert!(rt;
            divided.as_slice() == sizes,
            "{first:?} and {count} of {other:?}"
        );
    }
    assert!(rt; divide(rt.alloc(), &[])?.is_empty());
    Ok(())
}

#[test]
fn sequences(rt: HostRuntime) -> Result<(), Fail> {
    let rows: [(u32, &[u32], &[(u32, u32)]); 5] = [
        (0, &[], &[]),
        (0, &[1, 40], &[(1, 1), (2, 41)]),
        (9_999_998, &[1], &[(9_999_999, 9_999_999)]),
        (9_999_998, &[2], &[(1, 2)]),
        (9_999_998, &[1, 2], &[(9_999_999, 9_999_999), (1, 2)]),
    ];
    for (last, entries, ranges) in rows {
        assert!(rt; entries.iter().all(|count| (1..=1_000).contains(count)));
        let planned = plan_numbers(rt.alloc(), last, entries)?;
        assert!(rt; planned.as_slice() == ranges, "after {last}");
    }
    Ok(())
}

// 10,000 batches of 1,000 entries are one entry more than there are sequences.
#[test]
fn spent_sequences(rt: HostRuntime) -> Result<(), Fail> {
    let mut counts = Vec::new(rt.alloc());
    for _ in 0..10_000 {
        counts.push(1_000)?;
    }
    assert!(rt; counts.iter().all(|count| (1..=1_000).contains(count)));
    let planned = plan_numbers(rt.alloc(), 0, &counts);
    assert!(rt; planned.err() == Some(NumberFault::TracesSpent));
    Ok(())
}

#[test]
fn modifiers(rt: HostRuntime) -> Result<(), Fail> {
    let rows = [
        (0, Some(b'A')),
        (25, Some(b'Z')),
        (26, Some(b'0')),
        (35, Some(b'9')),
        (36, None),
    ];
    for (before, want) in rows {
        assert!(rt; modifier(before) == want, "after {before} files");
    }
    Ok(())
}

// Each batch fills a file.
#[test]
fn files_of_a_day(rt: HostRuntime) -> Result<(), Fail> {
    let mut batches = Vec::new(rt.alloc());
    for _ in 0..37 {
        batches.push(batch((0, 999_999_999_999, 1)).ok_or("batch")?)?;
    }
    assert!(rt; divide(rt.alloc(), &batches)?.len() == 37);
    assert!(rt; modifier(36).is_none());
    Ok(())
}

#[test]
fn days(rt: HostRuntime) -> Result<(), Fail> {
    let settled = Day::read(b"2025-03-03").ok_or("day")?;
    let early = Day::read(b"2026-03-03").ok_or("day")?;
    let late = Day::read(b"2026-03-04").ok_or("day")?;
    assert!(rt; !is_past(early, Some(settled)));
    assert!(rt; is_past(late, Some(settled)));
    assert!(rt; is_past(settled, None));
    Ok(())
}
