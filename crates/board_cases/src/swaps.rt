//! Two desks at one shard.

ghost use Rattle.std.specs.Prelude.{◌≡◌, ◌<◌, ◌≤◌, [], length};
ghost use Rattle.commit_journal.specs.Fronts.{position_of};
ghost use Rattle.versioned_shard.specs.Shards.{contents_at};
ghost use Rattle.session_desk.specs.Calls.{IsMadeFor};
ghost use Rattle.board_seats.specs.Views.{AmongFronts};
ghost use Rattle.shared_board.specs.Shared.{shared_desk};

use crate::boards::{CONFIG, Upkeep, another, commit, spelled};
use commit_journal::Front;
use entry_log::{Decision, Op};
use read_meter::{Steps, upkeep};
use shard_version::{Prepared, Version};
use shared_board::{Board, SharedDesk, Standing};
use std::alloc::Global;
use std::env::Env;
use std::process::Abort;
use std::sync::{Arc, Wait};
use std::test::Fail;

// The layout of both shards.
const LAYOUT: &[u8] = b"0,1,2,3/4,5,6,7";

// The version of the first shard at a front.
fn pin<'b, 'r, R: Abort + Wait>(
    rt: &R,
    desk: &mut SharedDesk<'b, 1, &'r R>,
    front: &Front<1>,
    steps: &mut Steps<Upkeep>,
) -> Arc<Version<1>>
    requires own { AmongFronts desk.old.fronts front.now }
    requires shards { 0 < desk.old.config.shards }
    requires within { position_of front.now ≤ length desk.old.seen }
    ensures made { IsMadeFor (shared_desk desk.new) 0 (contents_at result) }
    ensures board { desk.new.board ≡ desk.old.board }
    ensures config { desk.new.config ≡ desk.old.config }
    ensures fronts { desk.new.fronts ≡ desk.old.fronts }
{
    let version = desk.pin(front, 0, steps).expect(rt, "memory for a version");
    assert!(rt; version.at() == front.position());
    version
}

// Adds a row to the first shard, and brings that to a front behind it.
fn advance<'b, 'r, R: Abort + Wait>(
    rt: &R,
    desk: &mut SharedDesk<'b, 1, &'r R>,
    key: u64,
    steps: &mut Steps<Upkeep>,
)
    requires bits { desk.old.config.bits ≡ 8 }
    requires shards { 0 < desk.old.config.shards }
    requires no_fronts { desk.old.fronts ≡ [] }
    ensures board { desk.new.board ≡ desk.old.board }
    ensures config { desk.new.config ≡ desk.old.config }
    ensures fronts { desk.new.fronts ≡ [] }
{
    let code = spelled(rt, b"0f");
    let added = commit(rt, desk, Op::Add { key, code }, Decision::Added);
    let front = desk.open_front().expect(rt, "memory for a front");
    assert!(rt; front.position() == added);
    let version = pin(rt, desk, &front, steps);
    assert!(rt; version.at() == added);
    desk.close_front(front);
}

// Pins the first shard, and swaps in the version that it gave; in between another desk may advance the shard.
fn swap_it<'b, 'r, R: Abort + Wait>(
    rt: &R,
    desk: &mut SharedDesk<'b, 1, &'r R>,
    other: &mut SharedDesk<'b, 1, &'r R>,
    advances: bool,
    steps: &mut Steps<Upkeep>,
) -> Option<u64>
    requires bits { other.old.config.bits ≡ 8 }
    requires shards { 0 < desk.old.config.shards }
    requires other_shards { 0 < other.old.config.shards }
    requires no_fronts { desk.old.fronts ≡ [] }
    requires other_no_fronts { other.old.fronts ≡ [] }
    ensures board { desk.new.board ≡ desk.old.board }
    ensures config { desk.new.config ≡ desk.old.config }
    ensures fronts { desk.new.fronts ≡ [] }
    ensures other_board { other.new.board ≡ other.old.board }
    ensures other_config { other.new.config ≡ other.old.config }
    ensures other_fronts { other.new.fronts ≡ [] }
{
    let front = desk.open_front().expect(rt, "memory for a front");
    let version = pin(rt, desk, &front, steps);
    if advances {
        advance(rt, other, 4, steps);
    }
    let moved = match desk.swap(0, Prepared { version }) {
        Ok(()) => None,
        Err(moved) => Some(moved.shard_at),
    };
    desk.close_front(front);
    moved
}

// A desk's version comes late where another desk advanced the shard, and is taken where none did.
fn swap_beside<'b, 'r, R: Abort + Env + Wait>(
    rt: &R,
    first: SharedDesk<'b, 1, &'r R>,
) -> Standing<1>
    requires bits { first.config.bits ≡ 8 }
    requires shards { 0 < first.config.shards }
    requires fronts { first.fronts ≡ [] }
    ensures { result.0 ≡ first.entry.board }
{
    let mut steps: Steps<Upkeep> = upkeep(rt);
    let mut zero = first;
    let mut one = another(rt, &mut zero);
    advance(rt, &mut zero, 2, &mut steps);
    let moved = swap_it(rt, &mut zero, &mut one, true, &mut steps);
    assert!(rt; moved == Some(2));
    let swapped = swap_it(rt, &mut zero, &mut one, false, &mut steps);
    assert!(rt; swapped.is_none());
    let told = one.layout_of(0);
    assert!(rt; told.bytes() == LAYOUT);
    one.leave(&mut zero);
    zero.stand()
}

// The length of a board's journal after that.
fn two_at_a_shard<R: Abort + Env + Wait>(rt: &R, alloc: Global) -> Result<u64, Fail> {
    let (board, first) = Board::<1>::new(alloc, &CONFIG)?;
    let zero = board.first(first, rt);
    let standing = swap_beside(rt, zero);
    let journal = board.close(standing).expect(rt, "the journal");
    Ok(journal.length())
}

#[test]
fn a_swap_is_moved_where_another_desk_advanced_the_shard(rt: HostRuntime) -> Result<(), Fail> {
    let length = two_at_a_shard(&rt, rt.alloc())?;
    assert!(&rt; length == 2);
    Ok(())
}
