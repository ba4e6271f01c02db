ghost use Rattle.std.specs.Prelude.{◌≡◌, ◌++◌, ℕ, ◌≤◌, ◌-◌, length, min, take, drop};

/// Copies the next bytes from `given` on, at most `piece`, to the front of `room`.
pub(crate) fn give(bytes: &[u8], given: usize, piece: usize, room: &mut [u8]) -> usize
    requires { given ≤ length bytes.now }
    ensures count { result ≡ min piece (min (length room.new) (length bytes.now - given)) }
    ensures copied { take result room.new ≡ take result (drop given bytes.now) }
{
    let count = piece.min(room.len()).min(bytes.len() - given);
    room[..count].copy_from_slice(&bytes[given..given + count]);
    count
}
