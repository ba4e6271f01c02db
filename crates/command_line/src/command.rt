//! What the words of the command line ask for.

ghost use Rattle.std.specs.Prelude.{◌≡◌};
ghost use Rattle.command_line.specs.CommandOptions.{command_named, has_option, option_of};

use crate::CommandOption;
use part_layout::Config;

/// What the words after the program's name ask for.
#[derive(Clone, Copy, Debug, PartialEq, Eq)]
pub enum Command {
    /// To serve a session of a `Config`.
    Run {
        config: Config,
    },
    /// To ask a session of a `Config` the queries of a workload: so many codes, drawn from a number.
    Load {
        config: Config,
        number: u64,
        codes: u64,
    },
}

/// The first word of the command line.
#[derive(Clone, Copy, Debug, PartialEq, Eq)]
pub enum CommandWord {
    /// `run`.
    Run,
    /// `load`.
    Load,
    /// `listen`, whose words `listen_words` alone reads.
    Listen,
}

impl CommandWord {
    // The command that a word names.
    pub(crate) fn named(word: &[u8]) -> Option<CommandWord>
        ensures { result ≡ command_named word.now }
    {
        if word == b"run".as_slice() {
            return Some(CommandWord::Run);
        }
        if word == b"load".as_slice() {
            return Some(CommandWord::Load);
        }
        None
    }

    // The option of the command that a name names.
    pub(crate) fn option(self, name: &[u8]) -> Option<CommandOption>
        ensures { result ≡ option_of self name.now }
    {
        let option = CommandOption::named(name)?;
        if self.has(option) { Some(option) } else { None }
    }

    // Whether an option may stand after the command.
    fn has(self, option: CommandOption) -> bool
        ensures { result ≡ has_option self option }
    {
        match option {
            CommandOption::Bits
            | CommandOption::Parts
            | CommandOption::Shards
            | CommandOption::Room => true,
            CommandOption::Entries | CommandOption::Input => !matches!(self, CommandWord::Load),
            CommandOption::Number | CommandOption::Codes => matches!(self, CommandWord::Load),
            CommandOption::Port | CommandOption::Sessions => matches!(self, CommandWord::Listen),
        }
    }
}
