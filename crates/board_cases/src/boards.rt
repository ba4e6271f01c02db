//! A small board, and what a case does at a desk of it.

ghost use Rattle.std.specs.Prelude.{◌≡◌, [], take};
ghost use Rattle.hamming_model.specs.Codes.{StandsFor};
ghost use Rattle.hamming_model.specs.Recoded.{IsStoredOperation};
ghost use Rattle.entry_log.specs.Entries.{kept_operation};

use commit_journal::{Decided, Journal};
use entry_log::{Decision, Op};
use gph_codes::Code;
use part_layout::Config;
use read_meter::{Steps, upkeep};
use search_model::stored_rows_search_alike;
use shared_board::SharedDesk;
use std::alloc::Global;
use std::env::Env;
use std::process::Abort;
use std::sync::Wait;
use std::test::Fail;

// Codes of 8 bits in two parts, on two shards.
pub(crate) const CONFIG: Config = Config {
    bits: 8,
    parts: 2,
    shards: 2,
    room: 16,
    entries: 1000,
    input: 1000,
};

// The ledger on which entries of a front are counted.
#[derive(Drop)]
pub(crate) struct Upkeep;

// The code of 8 bits that two digits spell.
pub(crate) fn spelled<R: Abort>(rt: &R, text: &[u8]) -> Code<1>
    ensures { StandsFor 1 8 result (take 8 result) }
{
    stored_rows_search_alike();
    let Ok(code) = Code::from_hex(8, text) else {
        panic!(rt; "no code");
    };
    code
}

// Commits an operation at a desk, and compares what became of it.
pub(crate) fn commit<'b, 'r, R: Abort + Wait>(
    rt: &R,
    desk: &mut SharedDesk<'b, 1, &'r R>,
    op: Op<1>,
    decision: Decision,
) -> u64
    requires bits { desk.old.config.bits ≡ 8 }
    requires stored { IsStoredOperation 1 8 (kept_operation op) }
    ensures board { desk.new.board ≡ desk.old.board }
    ensures config { desk.new.config ≡ desk.old.config }
    ensures fronts { desk.new.fronts ≡ desk.old.fronts }
{
    let decided = desk.commit(op).expect(rt, "memory for an entry");
    assert!(rt; decided.decision == decision);
    decided.position
}

// A new desk at the board of another.
pub(crate) fn another<'b, 'r, R: Abort + Wait>(
    rt: &R,
    desk: &mut SharedDesk<'b, 1, &'r R>,
) -> SharedDesk<'b, 1, &'r R>
    // The new desk.
    ensures board { result.board ≡ desk.old.board }
    ensures config { result.config ≡ desk.old.config }
    ensures no_fronts { result.fronts ≡ [] }
    // The other one.
    ensures same_board { desk.new.board ≡ desk.old.board }
    ensures same_config { desk.new.config ≡ desk.old.config }
    ensures same_fronts { desk.new.fronts ≡ desk.old.fronts }
{
    desk.desk().expect(rt, "a desk")
}

// The numbers and keys of a journal's entries, in their order.
pub(crate) fn entries_of<R: Abort + Env>(
    rt: &R,
    alloc: Global,
    journal: &mut Journal<1>,
) -> Result<Vec<(u32, u64)>, Fail> {
    let mut steps: Steps<Upkeep> = upkeep(rt);
    let front = journal.open_front(0)?;
    let mut entries = Vec::new(alloc);
    for place in 0..front.position() {
        let entry = front.entry(place, &mut steps);
        entries.push((entry.who, entry.op.key()))?;
    }
    Ok(entries)
}
