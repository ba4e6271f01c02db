/// The first word of a line of a trace.
#[derive(Clone, Copy, Debug, PartialEq, Eq)]
pub enum EventWord {
    CommitWord,
    OpenWord,
    AdvanceWord,
    PinWord,
    PollWord,
    GiveWord,
    CancelWord,
    RepartWord,
    BuildWord,
    FollowWord,
    SwapWord,
}

/// The third word of a commit.
#[derive(Clone, Copy, Debug, PartialEq, Eq)]
pub enum CommitForm {
    AddForm,
    DelForm,
}

/// The third word of an opening.
#[derive(Clone, Copy, Debug, PartialEq, Eq)]
pub enum OpenForm {
    RangeForm,
    NearForm,
}
