//! What the options were given by the words read so far.

ghost use Rattle.std.specs.Prelude.{◌≡◌, ◌+◌, ◌≤◌, ℕ, List, option_copied, IfOk};
ghost use Rattle.part_layout.specs.Contiguous.{CanBeCut};
ghost use Rattle.part_layout.specs.Ranges.{IsConfig};
ghost use Rattle.command_line.specs.CommandWords.{config_of, command_of};
ghost use Rattle.command_line.specs.Commands.{IsCommand};
ghost use Rattle.command_line.specs.WrittenOptions.{Written, setting};
ghost use Rattle.command_line.specs.Kept.{entry_at, entry_number_or, entry_number_at, entry_parts_or, put, size, options_kept, kept_after, IsNumberOf, IsEntryOf, AreEntries};
ghost use Rattle.command_line.specs.declared.command_option.CommandOption.TheVariants.{Bits, Parts};

use crate::CommandOption;
use crate::command::{Command, CommandWord};
use crate::command_option::{BITS, ROOM, SHARDS};
use hamming_model::ENTRIES_MOST;
use part_layout::{Config, INPUT_MOST, Layout};

// What one option was given.
#[derive(Clone, Copy, Debug, PartialEq, Eq)]
pub(crate) struct GivenNumber {
    // The number, or None where the option may not be given it.
    pub(crate) number: Option<u64>,
    // The place of the value's word.
    pub(crate) place: usize,
}

// What each option was given, if it was.
#[derive(Clone, Copy, Debug, PartialEq, Eq)]
pub(crate) struct Given {
    pub(crate) bits: Option<GivenNumber>,
    pub(crate) parts: Option<GivenNumber>,
    pub(crate) shards: Option<GivenNumber>,
    pub(crate) room: Option<GivenNumber>,
    pub(crate) entries: Option<GivenNumber>,
    pub(crate) input: Option<GivenNumber>,
    pub(crate) number: Option<GivenNumber>,
    pub(crate) codes: Option<GivenNumber>,
    pub(crate) port: Option<GivenNumber>,
    pub(crate) sessions: Option<GivenNumber>,
}

impl Given {
    // What is kept with one more option of a command, or the place of its fault.
    pub(crate) fn with(
        self,
        command: CommandWord,
        name: &[u8],
        place: usize,
        value: Option<&[u8]>,
        value_place: usize,
    ) -> Result<Given, usize>
        ensures value { (before : List Written) → self ≡ options_kept before →
            result ≡ kept_after command before
            (setting name.now place (option_copied value.entry) value_place) }
        ensures more { IfOk result (λ given. size given ≡ size self + 1) }
        ensures few { IfOk result (λ given. size given ≤ 10) }
    {
        let Some(option) = command.option(name) else {
            return Err(place);
        };
        if self.at(option).is_some() {
            return Err(place);
        }
        let Some(value) = value else {
            return Err(value_place);
        };
        if option.is_value(value) {
            let number = option.number(value);
            Ok(self.put(
                option,
                GivenNumber {
                    number,
                    place: value_place,
                },
            ))
        } else {
            Err(value_place)
        }
    }

    // What is kept of one option.
    fn at(self, option: CommandOption) -> Option<GivenNumber>
        ensures { result ≡ entry_at option self }
    {
        match option {
            CommandOption::Bits => self.bits,
            CommandOption::Parts => self.parts,
            CommandOption::Shards => self.shards,
            CommandOption::Room => self.room,
            CommandOption::Entries => self.entries,
            CommandOption::Input => self.input,
            CommandOption::Number => self.number,
            CommandOption::Codes => self.codes,
            CommandOption::Port => self.port,
            CommandOption::Sessions => self.sessions,
        }
    }

    // What is kept once an option is given.
    fn put(self, option: CommandOption, entry: GivenNumber) -> Given
        ensures { result ≡ put option entry self }
    {
        let entry = Some(entry);
        let mut given = self;
        match option {
            CommandOption::Bits => given.bits = entry,
            CommandOption::Parts => given.parts = entry,
            CommandOption::Shards => given.shards = entry,
            CommandOption::Room => given.room = entry,
            CommandOption::Entries => given.entries = entry,
            CommandOption::Input => given.input = entry,
            CommandOption::Number => given.number = entry,
            CommandOption::Codes => given.codes = entry,
            CommandOption::Port => given.port = entry,
            CommandOption::Sessions => given.sessions = entry,
        }
        given
    }

    // What a command asks for with these options, where none has a fault of its own and the words end before a place.
    pub(crate) fn command(self, command: CommandWord, end: usize) -> Result<Command, usize>
        requires { AreEntries self }
        ensures value { (settings : List Written) → self ≡ options_kept settings →
            result ≡ command_of command end settings }
        ensures within { IfOk result IsCommand }
    {
        let config = self.config()?;
        match command {
            CommandWord::Run => Ok(Command::Run { config }),
            CommandWord::Load => {
                let number = self.required(CommandOption::Number, end)?;
                let codes = self.required(CommandOption::Codes, end)?;
                let config = Config {
                    entries: ENTRIES_MOST,
                    input: INPUT_MOST,
                    ..config
                };
                Ok(Command::Load {
                    config,
                    number,
                    codes,
                })
            }
            CommandWord::Listen => Err(1),
        }
    }

    // What the options ask a session to be.
    pub(crate) fn config(self) -> Result<Config, usize>
        requires { AreEntries self }
        ensures value { (settings : List Written) → self ≡ options_kept settings →
            result ≡ config_of settings }
        ensures within { IfOk result IsConfig }
    {
        let bits = self.number_or(CommandOption::Bits, BITS);
        let parts = parts_or(bits, self.parts)?;
        Ok(Config {
            bits: bits as u32,
            parts: parts as u32,
            shards: self.number_or(CommandOption::Shards, SHARDS) as u32,
            room: self.number_or(CommandOption::Room, ROOM) as u32,
            entries: self.number_or(CommandOption::Entries, ENTRIES_MOST),
            input: self.number_or(CommandOption::Input, INPUT_MOST),
        })
    }

    // The number that a required option was given, or else the place of its word after all others.
    pub(crate) fn required(self, option: CommandOption, end: usize) -> Result<u64, usize>
        requires { AreEntries self }
        ensures value { result ≡ entry_number_at end (entry_at option self) }
        ensures within { IfOk result (IsNumberOf option) }
    {
        let Some(entry) = self.at(option) else {
            return Err(end);
        };
        let Some(number) = entry.number else {
            return Err(end);
        };
        Ok(number)
    }

    // The number that an option was given, or else its default.
    fn number_or(self, option: CommandOption, default: u64) -> u64
        requires entries { AreEntries self }
        requires default { IsNumberOf option default }
        ensures value { result ≡ entry_number_or default (entry_at option self) }
        ensures within { IsNumberOf option result }
    {
        match self.at(option) {
            None => default,
            Some(entry) => entry.number.unwrap_or(default),
        }
    }
}

// The parts of an entry, where so many bits can be cut into them, or else the place of their word. Without an entry they
// are eight bits each.
fn parts_or(bits: u64, entry: Option<GivenNumber>) -> Result<u64, usize>
    requires bits { IsNumberOf Bits bits }
    requires parts { IsEntryOf Parts entry }
    ensures value { result ≡ entry_parts_or bits entry }
    ensures cut { IfOk result (λ parts. CanBeCut bits parts) }
{
    let Some(entry) = entry else {
        return Ok(bits / 8);
    };
    let Some(parts) = entry.number else {
        return Err(entry.place);
    };
    if Layout::can_be_cut(bits as u32, parts as u32) {
        Ok(parts)
    } else {
        Err(entry.place)
    }
}
