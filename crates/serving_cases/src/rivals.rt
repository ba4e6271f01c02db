//! A second desk that adds to the history and brings a shard on.

ghost use Rattle.std.specs.Prelude.{◌≡◌, ◌<◌};
ghost use Rattle.session_desk.specs.Desks.{IsOwnFront};

use crate::served::Upkeep;
use commit_journal::Front;
use entry_log::Op;
use read_meter::Steps;
use session_desk::Desk;

/// Lets a desk come on, once: it deletes the row of key 4, and pins the shard at a front behind that entry.
pub(crate) fn let_on<const W: usize, D: Desk<W> + Drop>(
    rival: &mut Option<D>,
    shard: u32,
    steps: &mut Steps<Upkeep>,
) {
    if let Some(mut desk) = rival.take() {
        come_on(&mut desk, shard, steps);
    }
}

// Deletes the row of key 4, and brings the shard to the end of what is seen then.
fn come_on<const W: usize, D: Desk<W>>(desk: &mut D, shard: u32, steps: &mut Steps<Upkeep>) {
    if shard >= desk.shards() {
        return;
    }
    let Ok(_deleted) = desk.commit(Op::Delete { key: 4 }) else {
        return;
    };
    let Ok(front) = desk.open_front() else {
        return;
    };
    pin_at(desk, &front, shard, steps);
    desk.close_front(front);
}

// Pins a shard at a front.
fn pin_at<const W: usize, D: Desk<W>>(
    desk: &mut D,
    front: &Front<W>,
    shard: u32,
    steps: &mut Steps<Upkeep>,
)
    requires own { IsOwnFront (D.desk desk.old) front.now }
    requires knows { D.knows desk.old front.now }
    requires shard { shard < (D.desk desk.old).config.shards }
    ensures own { IsOwnFront (D.desk desk.new) front.now }
    ensures knows { D.knows desk.new front.now }
{
    let _version = desk.pin(front, shard, steps);
}
