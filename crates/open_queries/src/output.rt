//! Replies on their way to the sink.

ghost use Rattle.std.specs.Prelude.{◌≡◌, ℕ, ◌+◌, ◌≤◌, ◌<◌, length};
ghost use Rattle.query_protocol.specs.Replies.{reply_line, line_of};
ghost use Rattle.open_queries.specs.Writing.{Writes, IsCaused};

use byte_lines::LineBuf;
use line_io::{Failed, Sink};
use query_protocol::Reply;

/// Offers a piece to the sink, and what it didn't take again, until it has taken all.
///
/// # Errors
///
/// `Failed` where the sink fails, which then has a part of the piece.
pub fn write_all<K: Sink>(sink: &mut K, piece: &[u8]) -> Result<(), Failed>
    ensures written { Writes (K.held sink.old) (K.held sink.new) result piece.now }
    ensures cause { IsCaused (K.faults sink.old) (K.faults sink.new) result }
{
    let mut done = 0;
    while done < piece.len() {
        match sink.write(&piece[done..]) {
            Ok(taken) => done += taken,
            Err(Failed) => return Err(Failed),
        }
    }
    Ok(())
}

/// Writes one reply, in one piece. `out` holds its line then.
///
/// # Errors
///
/// As `write_all`.
pub fn say<K: Sink>(out: &mut LineBuf, sink: &mut K, reply: &Reply) -> Result<(), Failed>
    ensures written { Writes (K.held sink.old) (K.held sink.new) result
        (reply_line (line_of reply.now)) }
    ensures cause { IsCaused (K.faults sink.old) (K.faults sink.new) result }
{
    out.clear();
    reply.write(out);
    send(out, sink)
}

/// Writes a line that stands ready, in one piece.
///
/// # Errors
///
/// As `write_all`.
pub fn send<K: Sink>(out: &LineBuf, sink: &mut K) -> Result<(), Failed>
    ensures written { Writes (K.held sink.old) (K.held sink.new) result out.now }
    ensures cause { IsCaused (K.faults sink.old) (K.faults sink.new) result }
{
    write_all(sink, out.bytes())
}
