//! Sessions of two desks of one board in threads of their own, each of which waits for the other's reply.

ghost use Rattle.std.specs.Prelude.{◌≡◌, ◌≤◌, Some, IfOk};
ghost use Rattle.std.specs.Thread.{IsSync};
ghost use Rattle.std.specs.Io.{ReadsAtMost, WritesAtMost};

use crate::served::{CONFIG, Postings, Upkeep};
use gph_serve::serve_one;
use gph_session::Status;
use line_io::{Failed, MemorySink, Sink, Source, SteadySource};
use read_meter::{Meters, Steps, upkeep};
use scatter_gather::NoGate;
use shared_board::{Board, SharedDesk};
use std::alloc::Global;
use std::env::Env;
use std::process::Abort;
use std::sync::Wait;
use std::sync::atomic::{AtomicU64, Ordering};
use std::test::Fail;
use std::thread::{self, Threads, join};

// How often a session looks whether the other's reply is out.
const TURNS: u32 = 1_000_000;

// Whether a session's first reply is out, and whether another waited for that in vain.
#[derive(Drop)]
struct Mark {
    told: AtomicU64,
    missed: AtomicU64,
}

impl Mark {
    fn new() -> Mark {
        Mark {
            told: AtomicU64::new(0),
            missed: AtomicU64::new(0),
        }
    }

    // Waits for the reply, for so many turns.
    fn wait(&self) {
        for _turn in 0..TURNS {
            if self.told.load(Ordering::SeqCst) == 1 {
                return;
            }
            thread::yield_now();
        }
        self.missed.store(1, Ordering::SeqCst);
    }
}

// A source that waits, before each read but the first, until the other session's reply is out.
#[derive(Drop)]
struct WaitingSource<'a> {
    inner: SteadySource,
    other: &'a Mark,
    has_read: bool,
}

impl<'a> Source for WaitingSource<'a> {
    ghost left = { λ s. Some s.inner.left };

    ghost faults = { λ _. 0 };

    fn read(&mut self, room: &mut [u8]) -> Result<usize, Failed> {
        if self.has_read {
            self.other.wait();
        }
        self.has_read = true;
        self.inner.read(room)
    }
}

// A sink that marks that a reply is out.
#[derive(Drop)]
struct TellingSink<'a> {
    inner: MemorySink,
    own: &'a Mark,
}

impl<'a> Sink for TellingSink<'a> {
    ghost held = { λ s. Some s.inner.held };

    ghost faults = { λ s. s.inner.faults };

    fn write(&mut self, piece: &[u8]) -> Result<usize, Failed> {
        let taken = self.inner.write(piece);
        self.own.told.store(1, Ordering::SeqCst);
        taken
    }
}

// A session that adds a key, a line of nine bytes, and then asks for the other's; and its replies where its entry is the first of
// the two, and where it is the second.
struct Meeting {
    asked: &'static [u8],
    as_first: &'static [u8],
    as_second: &'static [u8],
}

static ONE: Meeting = Meeting {
    asked: b"add 1 00\nget 2\n",
    as_first: b"added 1 at 1\ncode 2 0f at 2\n",
    as_second: b"added 1 at 2\ncode 2 0f at 2\n",
};

static TWO: Meeting = Meeting {
    asked: b"add 2 0f\nget 1\n",
    as_first: b"added 2 at 1\ncode 1 00 at 2\n",
    as_second: b"added 2 at 2\ncode 1 00 at 2\n",
};

// The bytes of the line that is read before the other session is waited for.
const FIRST_LINE: usize = 9;

// Serves a session that meets another, and returns the position of its entry, or 0 where it has other replies.
fn serve_meeting<'b, 'r, R: Abort + Env + Threads + Wait + Sync>(
    rt: &R,
    alloc: Global,
    desk: SharedDesk<'b, 1, &'r R>,
    meeting: &Meeting,
    own: &Mark,
    other: &Mark,
) -> u64
    requires sync { IsSync R.row }
    requires config { desk.config ≡ CONFIG }
{
    let asked = meeting.asked.to_vec(alloc).expect(rt, "memory for lines");
    let mut source = WaitingSource {
        inner: SteadySource::new(asked, FIRST_LINE),
        other,
        has_read: false,
    };
    let mut sink = TellingSink {
        inner: MemorySink::new(alloc, Vec::new(alloc)),
        own,
    };
    let mut meters: Meters<Postings> = Meters::new(rt, alloc).expect(rt, "memory for ledgers");
    let mut kept: Steps<Upkeep> = upkeep(rt);
    let (report, _desk) = serve_one(
        rt,
        alloc,
        &CONFIG,
        desk,
        &mut source,
        &mut sink,
        &NoGate,
        &mut kept,
        &mut meters,
    );
    assert!(rt; report.status == Status::Done);
    position_of(sink.inner.bytes(), meeting)
}

// The position of a session's entry by its replies, or 0 where they are others.
fn position_of(replies: &[u8], meeting: &Meeting) -> u64 {
    if replies == meeting.as_first {
        1
    } else if replies == meeting.as_second {
        2
    } else {
        0
    }
}

// Serves two sessions that meet, in threads of their own.
fn serve_both<'b, 'r, R: Abort + Env + Threads + Wait + Sync>(
    rt: &R,
    alloc: Global,
    one: SharedDesk<'b, 1, &'r R>,
    two: SharedDesk<'b, 1, &'r R>,
)
    requires sync { IsSync R.row }
    requires one { one.config ≡ CONFIG }
    requires two { two.config ≡ CONFIG }
{
    let of_one = &Mark::new();
    let of_two = &Mark::new();
    let positions = join(
        rt,
        move || -> u64
            requires sync { IsSync R.row }
            requires config { one.config ≡ CONFIG }
        { serve_meeting(rt, alloc, one, &ONE, of_one, of_two) },
        move || -> u64
            requires sync { IsSync R.row }
            requires config { two.config ≡ CONFIG }
        { serve_meeting(rt, alloc, two, &TWO, of_two, of_one) },
    );
    assert!(rt;
        of_one.missed.load(Ordering::SeqCst) == 0,
        "the first is waited for"
    );
    assert!(rt;
        of_two.missed.load(Ordering::SeqCst) == 0,
        "the second is waited for"
    );
    assert!(rt; positions == (1, 2) || positions == (2, 1));
}

#[test]
fn two_sessions_meet(rt: HostRuntime) -> Result<(), Fail> {
    let (board, token) = Board::<1>::new(rt.alloc(), &CONFIG)?;
    let mut one = board.first(token, &rt);
    let two = one.desk()?;
    serve_both(&rt, rt.alloc(), one, two);
    Ok(())
}
