ghost use Rattle.std.specs.Prelude.{◌≡◌, ℕ, ◌<◌, List, length, Err};
ghost use Rattle.byte_lines.specs.declared.cutter.TheConstants.{LINE_MOST};
ghost use Rattle.part_layout.specs.declared.config.Config.{Config};
ghost use Rattle.query_protocol.specs.Lines.{reading};
ghost use Rattle.query_protocol.specs.Requests.{bad, bad_word};

/// Why a line is no request, or why a request can't be met, as its reply `bad N` or `bad 5 W` prints it.
#[derive(Clone, Copy, Debug, PartialEq, Eq)]
pub struct Bad {
    /// 1 to 11, in the order in which faults are judged.
    pub number: u8,
    /// The word at fault, counted from 1 with the request word, where the number is 5; else 0.
    pub word: u8,
}

impl Bad {
    /// The line has more than 4,096 bytes. This is judged first.
    pub fn line_too_long() -> Bad
        ensures { (config : Config) (line : List ℕ) →
            LINE_MOST < length line → reading config line ≡ Err result }
    {
        Bad::numbered(1)
    }

    /// A byte of the line is no printable ASCII.
    pub(crate) fn no_text() -> Bad
        ensures { result ≡ bad 2 }
    {
        Bad::numbered(2)
    }

    /// The first word is no request word.
    pub(crate) fn no_request_word() -> Bad
        ensures { result ≡ bad 3 }
    {
        Bad::numbered(3)
    }

    /// The request has another number of words.
    pub(crate) fn other_number_of_words() -> Bad
        ensures { result ≡ bad 4 }
    {
        Bad::numbered(4)
    }

    /// The word at this place is the first that is not of its form.
    pub(crate) fn of_word(place: u8) -> Bad
        ensures { result ≡ bad_word place }
    {
        Bad {
            number: 5,
            word: place,
        }
    }

    /// There is no shard of this number.
    pub(crate) fn no_such_shard() -> Bad
        ensures { result ≡ bad 6 }
    {
        Bad::numbered(6)
    }

    /// The tag is in use.
    pub fn tag_in_use() -> Bad
        ensures { result ≡ bad 7 }
    {
        Bad::numbered(7)
    }

    /// No query has the tag.
    pub fn unknown_tag() -> Bad
        ensures { result ≡ bad 8 }
    {
        Bad::numbered(8)
    }

    /// As many queries are open as may be.
    pub fn too_many_queries() -> Bad
        ensures { result ≡ bad 9 }
    {
        Bad::numbered(9)
    }

    /// There is no build to go on with, or one goes on already.
    pub fn other_build() -> Bad
        ensures { result ≡ bad 10 }
    {
        Bad::numbered(10)
    }

    /// The build has rows left to place.
    pub fn rows_left() -> Bad
        ensures { result ≡ bad 11 }
    {
        Bad::numbered(11)
    }

    // A fault that names no word.
    fn numbered(number: u8) -> Bad
        ensures { result ≡ bad number }
    {
        Bad { number, word: 0 }
    }
}

/// Why a line gives no request.
#[derive(Clone, Copy, Debug, PartialEq, Eq)]
pub enum LineFault {
    /// The line is refused.
    Bad(Bad),
    /// There was no memory for the layout of a build that the line asks for.
    NoMemory,
}
