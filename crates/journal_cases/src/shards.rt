ghost use Rattle.std.specs.Prelude.{◌≡◌, ℕ, ◌+◌, ◌-◌, ◌≤◌, List, [], length, Option, IfOk};
ghost use Rattle.hamming_model.specs.History.{JournalEntry};
ghost use Rattle.hamming_model.specs.Recoded.{AreStoredEntries};
ghost use Rattle.hamming_model.specs.declared.limits.TheConstants.{WORDS_MOST};
ghost use Rattle.versioned_shard.specs.Along.{version_at};
ghost use Rattle.versioned_shard.specs.Rule.{KeepsJournalRule, KeepsRule};
ghost use Rattle.versioned_shard.specs.Shards.{contents_at, shard_with};

use commit_journal::{Journal, live_fronts_come_and_go};
use entry_log::{Decision, Op};
use gph_codes::Code;
use hamming_model::stored_histories_grow;
use part_layout::Layout;
use read_meter::{NoMemory, Steps, upkeep};
use search_model::stored_rows_search_alike;
use shard_version::{Prepared, Version};
use std::alloc::Global;
use std::process::Abort;
use std::sync::Arc;
use std::test::Fail;
use versioned_shard::{Shard, journals_keep_the_rule, shards_keep_the_rule};

// The ledger that these tests count on.
#[derive(Drop)]
struct Reads;

// The version of the odd keys of 8 bits in two parts, before any entry.
fn no_rows<R: Abort>(rt: &R, alloc: Global) -> Version<1>
    ensures rule { (live : ℕ → Option ℕ) (history : List JournalEntry) →
        KeepsRule live history (shard_with result.contents []) }
    ensures bits { result.contents.layout.bits ≡ 8 }
{
    shards_keep_the_rule();
    let layout = Layout::contiguous(alloc, 8, 2).expect(rt, "a layout");
    assert!(rt; layout.bits() == 8);
    let shared = Arc::new(alloc, layout).expect(rt, "memory for a layout");
    Version::empty(alloc, 1, 2, shared).expect(rt, "memory for no rows")
}

// The shard of the odd keys of 8 bits, before any entry.
fn empty_shard<R: Abort>(rt: &R, alloc: Global) -> Shard<1>
    ensures rule { (live : ℕ → Option ℕ) (history : List JournalEntry) →
        KeepsRule live history result }
    ensures bits { result.current.layout.bits ≡ 8 }
{
    let version = no_rows(rt, alloc);
    let Ok(shard) = Shard::new(alloc, version) else {
        panic!(rt; "no memory for a shard");
    };
    shard
}

// The version of the whole history, by a front of its own.
fn pin_now<const W: usize, M>(
    journal: &mut Journal<W>,
    shard: &mut Shard<W>,
    who: u32,
    steps: &mut Steps<M>,
) -> Result<Arc<Version<W>>, NoMemory>
    requires rule { KeepsJournalRule journal.old shard.old }
    requires codes { AreStoredEntries W shard.old.current.layout.bits journal.old.history }
    ensures rule { KeepsJournalRule journal.new shard.new }
    ensures history { journal.new.history ≡ journal.old.history }
    ensures version { IfOk result (λ version. contents_at version
        ≡ version_at journal.old.history (contents_at version) (length journal.old.history)) }
    ensures steps { steps.new ≤ steps.old + (length journal.old.history - shard.old.current.at) }
{
    live_fronts_come_and_go();
    shards_keep_the_rule();
    journals_keep_the_rule();
    let front = journal.open_front(who)?;
    let _position = front.position();
    let Ok(()) = shard.advance(&front, steps) else {
        journal.close_front(front);
        return Err(NoMemory);
    };
    let Ok(version) = shard.version_for(&front) else {
        journal.close_front(front);
        return Err(NoMemory);
    };
    journal.close_front(front);
    Ok(version)
}

// Commits the addition of a row, and tells whether it was added.
fn add(journal: &mut Journal<1>, shard: &Shard<1>, key: u64, text: &[u8]) -> bool
    requires rule { KeepsJournalRule journal.old shard.now }
    requires codes { AreStoredEntries 1 8 journal.old.history }
    ensures rule { KeepsJournalRule journal.new shard.now }
    ensures codes { AreStoredEntries 1 8 journal.new.history }
{
    journals_keep_the_rule();
    stored_histories_grow();
    stored_rows_search_alike();
    let Ok(code) = Code::from_hex(8, text) else {
        return false;
    };
    let Ok(decided) = journal.commit(0, Op::Add { key, code }) else {
        return false;
    };
    decided.decision == Decision::Added
}

#[test]
fn a_front_finds_its_version(rt: HostRuntime) -> Result<(), Fail> {
    let mut journal: Journal<1> = Journal::new(rt.alloc(), 9).expect(&rt, "memory");
    let mut shard = empty_shard(&rt, rt.alloc());
    let first = add(&mut journal, &shard, 1, b"00");
    let second = add(&mut journal, &shard, 2, b"0f");
    let third = add(&mut journal, &shard, 3, b"ff");
    assert!(rt; first && second && third);
    let mut steps: Steps<Reads> = upkeep(&rt);
    let pinned = pin_now(&mut journal, &mut shard, 0, &mut steps).expect(&rt, "memory");
    assert!(rt; pinned.at() == 3 && pinned.rows() == 2 && shard.at() == 3);
    let copy = shard.current().copy().expect(&rt, "memory");
    let shared = Arc::new(rt.alloc(), copy).expect(&rt, "memory");
    let swapped = shard.swap(Prepared { version: shared });
    assert!(rt; swapped.is_ok() && shard.at() == 3);
    Ok(())
}
