//! The options of the commands.

ghost use Rattle.std.specs.Prelude.{◌≡◌};
ghost use Rattle.command_line.specs.CommandOptions.{option_named, least, greatest, number, is_value};

use hamming_model::{BITS_MOST, ENTRIES_MOST, PARTS_MOST, ROOM_MOST, SHARDS_MOST};
use line_forms::{is_decimal, number_of};
use part_layout::INPUT_MOST;

// The most digits of a value.
const DIGITS: usize = 20;

/// The bits of a code where none are given.
pub(crate) const BITS: u64 = 64;

/// The shards where none are given.
pub(crate) const SHARDS: u64 = 4;

/// The hits that may wait in a source where no number is given.
pub(crate) const ROOM: u64 = 64;

/// The greatest port.
pub(crate) const PORT_MOST: u64 = 65_535;

/// The most sessions of a `listen`.
pub(crate) const SESSIONS_MOST: u64 = 65_536;

/// An option that the words may give a value.
#[derive(Clone, Copy, Debug, PartialEq, Eq)]
pub enum CommandOption {
    /// The bits of a code.
    Bits,
    /// The parts of the starting layout.
    Parts,
    /// The shards.
    Shards,
    /// The hits that may wait in a source.
    Room,
    /// The most entries of the history.
    Entries,
    /// The most bytes of a session's input.
    Input,
    /// The number from which a workload is drawn.
    Number,
    /// The codes of a workload.
    Codes,
    /// The port that sessions come in by.
    Port,
    /// How many sessions are served.
    Sessions,
}

impl CommandOption {
    // The option that a name names.
    pub(crate) fn named(name: &[u8]) -> Option<CommandOption>
        ensures { result ≡ option_named name.now }
    {
        if name == b"--bits".as_slice() {
            return Some(CommandOption::Bits);
        }
        if name == b"--parts".as_slice() {
            return Some(CommandOption::Parts);
        }
        if name == b"--shards".as_slice() {
            return Some(CommandOption::Shards);
        }
        if name == b"--room".as_slice() {
            return Some(CommandOption::Room);
        }
        if name == b"--entries".as_slice() {
            return Some(CommandOption::Entries);
        }
        if name == b"--input".as_slice() {
            return Some(CommandOption::Input);
        }
        if name == b"--number".as_slice() {
            return Some(CommandOption::Number);
        }
        if name == b"--codes".as_slice() {
            return Some(CommandOption::Codes);
        }
        if name == b"--port".as_slice() {
            return Some(CommandOption::Port);
        }
        if name == b"--sessions".as_slice() {
            return Some(CommandOption::Sessions);
        }
        None
    }

    // The least number that the option may be given.
    fn least(self) -> u64
        ensures { result ≡ least self }
    {
        match self {
            CommandOption::Bits => 8,
            CommandOption::Parts => 1,
            CommandOption::Shards => 1,
            CommandOption::Room => 1,
            CommandOption::Entries => 1,
            CommandOption::Input => 1,
            CommandOption::Number => 0,
            CommandOption::Codes => 0,
            CommandOption::Port => 1,
            CommandOption::Sessions => 1,
        }
    }

    // The greatest number that the option may be given.
    fn greatest(self) -> u64
        ensures { result ≡ greatest self }
    {
        match self {
            CommandOption::Bits => u64::from(BITS_MOST),
            CommandOption::Parts => PARTS_MOST as u64,
            CommandOption::Shards => u64::from(SHARDS_MOST),
            CommandOption::Room => ROOM_MOST as u64,
            CommandOption::Entries => ENTRIES_MOST,
            CommandOption::Input => INPUT_MOST,
            CommandOption::Number => u64::MAX,
            CommandOption::Codes => ENTRIES_MOST,
            CommandOption::Port => PORT_MOST,
            CommandOption::Sessions => SESSIONS_MOST,
        }
    }

    // The number that a value gives the option, where it may be given that number.
    pub(crate) fn number(self, value: &[u8]) -> Option<u64>
        ensures { result ≡ number self value.now }
    {
        let number = number_of(DIGITS, self.least(), self.greatest(), value)?;
        match self {
            CommandOption::Bits if number % 8 != 0 => None,
            _ => Some(number),
        }
    }

    // Whether a value may stand after the option. That of the parts is judged for its digits alone, since the bits may
    // come after it.
    pub(crate) fn is_value(self, value: &[u8]) -> bool
        ensures { result ≡ is_value self value.now }
    {
        match self {
            CommandOption::Parts => is_decimal(DIGITS, value),
            _ => self.number(value).is_some(),
        }
    }
}
