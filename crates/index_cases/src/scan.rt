use crate::range_tasks::plain_row;
use hamming_model::{Hit, Row, plain_scan};
use read_meter::NoMemory;
use std::alloc::Global;
use std::process::Abort;
use std::test::Fail;

// A key, and its code's eight bits.
static ROWS: [(u64, u8); 5] = [(9, 0x01), (4, 0x01), (3, 0xff), (1, 0x00), (2, 0x0f)];

// A radius, and how many hits it has.
static RADII: [(u32, usize); 7] = [
    (0, 1),
    (1, 3),
    (3, 3),
    (4, 4),
    (7, 4),
    (8, 5),
    (u32::MAX, 5),
];

// Compares the hits round the code 00 with these.
fn compare<R: Abort>(
    rt: &R,
    alloc: Global,
    rows: &[Row],
    radius: u32,
    want: &[Hit],
) -> Result<(), NoMemory> {
    let hits = plain_scan(alloc, rows, &[0; 8], radius)?;
    assert!(rt; hits.as_slice() == want, "radius {radius}");
    Ok(())
}

#[test]
fn a_scan_has_the_near_rows_and_a_tie_goes_by_key(rt: HostRuntime) -> Result<(), Fail> {
    let alloc = rt.alloc();
    let mut rows = Vec::new(alloc);
    for &(key, byte) in &ROWS {
        rows.push(plain_row(alloc, key, byte)?)?;
    }
    let all = [
        Hit { dist: 0, key: 1 },
        Hit { dist: 1, key: 4 },
        Hit { dist: 1, key: 9 },
        Hit { dist: 4, key: 2 },
        Hit { dist: 8, key: 3 },
    ];
    for &(radius, number) in &RADII {
        assert!(rt; number <= 5);
        compare(&rt, alloc, rows.as_slice(), radius, &all[..number])?;
    }
    compare(&rt, alloc, &[], 8, &[])?;
    Ok(())
}
