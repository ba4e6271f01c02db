use entry_log::{Entry, Op};
use gph_codes::Code;
use hamming_model::{ENTRIES_MOST, Row};
use part_layout::Layout;
use read_meter::NoMemory;
use search_model::stored_rows_search_alike;
use shard_version::Version;
use std::alloc::{AllocError, Global};
use std::process::Abort;
use std::sync::Arc;

/// The number after this one in a fixed sequence that looks random: the multiplier and the increment
/// are those of Knuth's MMIX, and the high bits are the ones to use.
pub fn after(seed: u64) -> u64 {
    seed.wrapping_mul(6_364_136_223_846_793_005)
        .wrapping_add(1_442_695_040_888_963_407)
}

/// A hexadecimal digit, in lower case.
pub fn digit(value: u8) -> u8 {
    if value % 16 < 10 {
        b'0' + value % 16
    } else {
        b'a' + (value % 16 - 10)
    }
}

// The version of the one shard of 8 bits before any entry.
fn empty<R: Abort>(rt: &R, alloc: Global, parts: u32) -> Version<1> {
    let layout = Layout::contiguous(alloc, 8, parts).expect(rt, "a layout");
    let shared = Arc::new(alloc, layout).expect(rt, "memory for a layout");
    Version::empty(alloc, 0, 1, shared).expect(rt, "memory for no rows")
}

// The version after an entry that adds a row, where its key has none.
fn add<R: Abort>(rt: &R, version: Version<1>, key: u64, text: &[u8]) -> Version<1> {
    stored_rows_search_alike();
    let bits = version.layout().bits();
    assert!(rt; bits as usize <= 64);
    let code = Code::from_hex(bits, text).expect(rt, "a code");
    assert!(rt; version.at() < u64::MAX && version.rows() < ENTRIES_MOST && !version.has_key(key));
    let entry = Entry {
        who: 7,
        op: Op::Add { key, code },
    };
    version.apply(&entry).expect(rt, "memory for a row")
}

/// The version with these rows: each a key with the eight bits of a byte.
pub fn version_of<R: Abort>(
    rt: &R,
    alloc: Global,
    parts: u32,
    rows: &[(u64, u8)],
) -> Result<Arc<Version<1>>, NoMemory> {
    let mut version = empty(rt, alloc, parts);
    for row in rows {
        version = add(rt, version, row.0, &[digit(row.1 / 16), digit(row.1)]);
    }
    let Ok(shared) = Arc::new(alloc, version) else {
        return Err(NoMemory);
    };
    Ok(shared)
}

/// A row with the eight bits of a byte, the top one first.
pub fn plain_row(alloc: Global, key: u64, byte: u8) -> Result<Row, AllocError> {
    let mut code = Vec::new(alloc);
    for place in 0..8u32 {
        code.push((byte >> (7 - place)) % 2)?;
    }
    Ok(Row { key, code })
}
