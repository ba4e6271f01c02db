ghost use Rattle.std.specs.Prelude.{◌≡◌, true};
ghost use Rattle.query_protocol.specs.Replies.{LineReply, reply_text};
ghost use Rattle.query_protocol.specs.Written.{has_no_feed, IsWritten};

use part_layout::bytes_of_layouts;

/// A reply is one line: no line feed stands before the one at its end.
pub fn lines_of_replies()
    ensures { (reply : LineReply) → IsWritten reply → has_no_feed (reply_text reply) ≡ true }
{
    bytes_of_layouts();
}
