//! What a desk counts.

ghost use Rattle.std.specs.Prelude.{◌≡◌, if◌then◌else◌};
ghost use Rattle.session_desk.specs.Calls.{is_late, one_more};

// The count of late swaps after one more that was moved.
pub(crate) fn late_after(late: u64, last: u64, prepared_at: u64, shard_at: u64) -> u64
    ensures { result ≡ if is_late last prepared_at shard_at then one_more late else late }
{
    if prepared_at == last && last < shard_at {
        one_more(late)
    } else {
        late
    }
}

// One more, where there is room.
pub(crate) fn one_more(count: u64) -> u64
    ensures { result ≡ one_more count }
{
    count.saturating_add(1)
}
