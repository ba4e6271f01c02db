//! An event that was read, as one that a world takes.

ghost use Rattle.std.specs.Prelude.{◌≡◌, ℕ};
ghost use Rattle.gph_world.specs.Happenings.{IsEventFor, event_seen};
ghost use Rattle.trace_lines.specs.EventRequests.{IsFitEvent, event_of};
ghost use Rattle.world_model.specs.Events.{Setting};

use gph_world::{Ask, Event};
use trace_lines::EventRequest;

// The event that was asked for.
pub(crate) fn program_event<const W: usize>(request: EventRequest<W>) -> Event<W>
    ensures same { (bits : ℕ) → event_seen bits result ≡ event_of bits request.entry }
    ensures fit { (z : Setting) → IsFitEvent W z.bits request.entry → IsEventFor z result }
{
    match request {
        EventRequest::Commit { who, op } => Event::Commit { who, op },
        EventRequest::OpenRange { who, tau, code } => Event::Open {
            who,
            ask: Ask::Range { tau, code },
        },
        EventRequest::OpenNear { who, k, code } => Event::Open {
            who,
            ask: Ask::Near { number: k, code },
        },
        EventRequest::Advance { query, shard } => Event::Advance { query, shard },
        EventRequest::Pin { query, shard } => Event::Pin { query, shard },
        EventRequest::Poll {
            query,
            shard,
            budget,
        } => Event::Poll {
            query,
            shard,
            budget,
        },
        EventRequest::Give { query } => Event::Give { query },
        EventRequest::Cancel { query } => Event::Cancel { query },
        EventRequest::BuildStart { shard, layout } => Event::BuildStart { shard, layout },
        EventRequest::BuildStep { shard, rows } => Event::BuildStep { shard, rows },
        EventRequest::Follow { shard } => Event::Follow { shard },
        EventRequest::Swap { shard } => Event::Swap { shard },
    }
}
