//! What a turn did.

ghost use Rattle.std.specs.Prelude.{◌≡◌, ◌+◌, ◌^◌, ◌<◌};
ghost use Rattle.shard_tending.specs.Outcomes.{counted_turn, turns_in};

use crate::outcome::ShardTurn;

/// How many shards were swapped, how many had moved beyond their build, and on how many there was no memory.
#[derive(Clone, Copy, Debug, PartialEq, Eq)]
pub struct Tended {
    pub swapped: u32,
    pub moved: u32,
    pub nomem: u32,
}

impl Tended {
    // With one shard more.
    pub(crate) fn with(self, turn: ShardTurn) -> Tended
        requires { turns_in self + 1 < 2 ^ 32 }
        ensures { result ≡ counted_turn self turn }
    {
        match turn {
            ShardTurn::Stays => self,
            ShardTurn::Swapped => Tended {
                swapped: self.swapped + 1,
                ..self
            },
            ShardTurn::Moved => Tended {
                moved: self.moved + 1,
                ..self
            },
            ShardTurn::NoMemory => Tended {
                nomem: self.nomem + 1,
                ..self
            },
        }
    }
}
