ghost use Rattle.std.specs.Prelude.{◌≡◌, ℕ, ◌+◌};
ghost use Rattle.std.specs.Borrow.{ftrue};

use std::marker::Model;

// A count that takes no bytes. The two calls below alone make one.
#[derive(Drop)]
pub struct Tally {
    pub ghost count: { ℕ },
}

impl Model for Tally {
    ghost also_owns = { λ _. ftrue };
}

impl Tally {
    pub(crate) fn zero() -> Tally
        ensures { result.count ≡ 0 }
    {
        Tally {}
    }

    pub(crate) fn after(_before: &Tally) -> Tally
        ensures { result.count ≡ _before.now.count + 1 }
    {
        Tally {}
    }
}

// It owns nothing, so it may go to another thread.
unsafe impl Send for Tally {}
