ghost use Rattle.std.specs.Prelude.{◌≡◌, ◌<◌, ◌^◌, length, IfOk};
ghost use Rattle.hamming_model.specs.Codes.{distance};
ghost use Rattle.hamming_model.specs.PlainRows.{row_pairs};
ghost use Rattle.hamming_model.specs.Scan.{hits_within, scan};

use crate::hit::Hit;
use crate::row::Row;
use read_meter::NoMemory;
use std::alloc::Global;

/// All rows at most so far from the query, by distance and then by key: it looks at every row and
/// sorts what is near. An error comes only where no memory was left.
pub fn plain_scan(
    alloc: Global,
    rows: &[Row],
    query: &[u8],
    radius: u32,
) -> Result<Vec<Hit>, NoMemory>
    requires short { length query.now < 2 ^ 32 }
    ensures scan { IfOk result (λ hits. hits.items ≡ scan (row_pairs rows.now) query.now radius) }
{
    let mut hits = near_rows(alloc, rows, query, radius)?;
    hits.sort_unstable();
    Ok(hits)
}

// The rows at most so far from the query, in their order.
fn near_rows(alloc: Global, rows: &[Row], query: &[u8], radius: u32) -> Result<Vec<Hit>, NoMemory>
    requires short { length query.now < 2 ^ 32 }
    ensures near { IfOk result (λ hits.
        hits.items ≡ hits_within (row_pairs rows.now) query.now radius) }
{
    let mut hits = Vec::new(alloc);
    for row in rows {
        let dist = differences(&row.code, query);
        if dist <= radius {
            hits.push(Hit { dist, key: row.key })?;
        }
    }
    Ok(hits)
}

// At how many positions a code differs from the query.
fn differences(code: &[u8], query: &[u8]) -> u32
    requires short { length query.now < 2 ^ 32 }
    ensures count { result ≡ distance code.now query.now }
{
    let length = code.len().min(query.len());
    let mut count = 0;
    for position in 0..length {
        if code[position] != query[position] {
            count += 1;
        }
    }
    count
}
