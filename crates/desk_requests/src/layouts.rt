//! `layout`: the request on the layouts of the shards.

ghost use Rattle.std.specs.Prelude.{◌≡◌, ◌<◌};
ghost use Rattle.query_protocol.specs.Requests.{Layout};
ghost use Rattle.open_queries.specs.Writing.{IsCaused};
ghost use Rattle.open_session.specs.KeptBuild.{KeepsBuilds};
ghost use Rattle.open_session.specs.PlainSteps.{AnswersUncounted};

use line_io::{Failed, Sink};
use open_queries::send;
use open_session::Session;
use part_layout::Config;
use query_protocol::write_layout;
use session_desk::Desk;

/// Answers the present layout of a shard.
pub fn layout<const W: usize, D: Desk<W>, K: Sink>(
    config: &Config,
    session: &mut Session<W>,
    desk: &mut D,
    shard: u32,
    sink: &mut K,
) -> Result<(), Failed>
    requires config { (D.desk desk.old).config ≡ config.now }
    requires shard { shard < config.now.shards }
    ensures answers { AnswersUncounted (Layout shard) result config.now (D.desk desk.old)
        (D.desk desk.new) session.old session.new (K.held sink.old) (K.held sink.new) }
    ensures cutter { session.new.cutter ≡ session.old.cutter }
    ensures samples { session.new.samples ≡ session.old.samples }
    ensures requests { session.new.requests ≡ session.old.requests }
    ensures build { session.new.build ≡ session.old.build }
    ensures queries { session.new.queries ≡ session.old.queries }
    ensures config { (D.desk desk.new).config ≡ config.now }
    ensures builds { KeepsBuilds (D.desk desk.old) (D.desk desk.new) }
    ensures cause { IsCaused (K.faults sink.old) (K.faults sink.new) result }
{
    let text = desk.layout_of(shard);
    session.out.clear();
    write_layout(shard, &text, &mut session.out);
    send(&session.out, sink)
}
