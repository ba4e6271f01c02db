//! The words after the program's name.

ghost use Rattle.std.specs.Prelude.{◌≡◌, ◌==◌, ◌<◌, ◌-◌, [], length, map, position, string_bytes, option_copied, IfSome, IfOk};
ghost use Rattle.std.specs.Option.{option_map};
ghost use Rattle.command_line.specs.CommandWords.{asked, options_asked};
ghost use Rattle.command_line.specs.TraceWords.{trace_asked};
ghost use Rattle.part_layout.specs.Ranges.{IsConfig};
ghost use Rattle.command_line.specs.Commands.{IsCommand};
ghost use Rattle.command_line.specs.WrittenOptions.{parted};
ghost use Rattle.command_line.specs.Kept.{AreEntries};
ghost use Rattle.command_line.specs.ReadWords.{next_in, after_next, given_asked};

use crate::command::{Command, CommandWord};
use crate::given::Given;
use part_layout::Config;

/// What the words after the program's name ask for, or the place of the first word at fault, counted from 1.
///
/// The first word is the command, `run` or `load`. Options follow it in any order, each at most once, as two words
/// `--name VALUE` or as one word `--name=VALUE`; a value is 1 to 20 decimal digits, and leading zeros are allowed:
///
/// - `--bits`, a multiple of 8 from 8 to 256, and 64 where it is left out;
/// - `--parts`, from 1 to 64, so that each has from 1 to 12 of the bits, and an eighth of the bits where it is left out;
/// - `--shards`, from 1 to 16, and 4 where it is left out;
/// - `--room`, from 1 to 256, and 64 where it is left out;
/// - `--entries` of `run`, from 1 to 1,048,576, and the greatest where it is left out;
/// - `--input` of `run`, from 1 to 4,294,967,296, and the greatest where it is left out;
/// - `--number` of `load`, from 0 to 18,446,744,073,709,551,615, which may not be left out;
/// - `--codes` of `load`, from 0 to 1,048,576, which may not be left out.
///
/// An unknown command is word 1; an option that is repeated, or that the command hasn't, is its own word; a bad value is its
/// word, and a missing command or value is the number of words plus one. The words are judged from left to right, after them
/// the parts against the bits, and last whether an option is missing, which is the number of words plus one.
pub fn read_words(words: &[String]) -> Result<Command, usize>
    ensures value { result ≡ asked (map string_bytes words.now) }
    ensures within { IfOk result IsCommand }
{
    match words {
        [] => Err(1),
        [word, options @ ..] => match CommandWord::named(word.as_bytes()) {
            None => Err(1),
            Some(command) => read_options(command, options),
        },
    }
}

/// What the words of a trace ask for, or the place of the first word at fault, counted from 1: the command is `trace`, and its options are
/// those of `run`, judged as there.
pub fn read_trace_words(words: &[String]) -> Result<Config, usize>
    ensures value { result ≡ trace_asked (map string_bytes words.now) }
    ensures within { IfOk result IsConfig }
{
    match words {
        [] => Err(1),
        [word, options @ ..] => {
            if word.as_bytes() != b"trace".as_slice() {
                return Err(1);
            }
            match read_options(CommandWord::Run, options)? {
                Command::Run { config } | Command::Load { config, .. } => Ok(config),
            }
        }
    }
}

// What the words after a command ask for, the first of them being word 2.
fn read_options(command: CommandWord, options: &[String]) -> Result<Command, usize>
    ensures value { result ≡ options_asked command (map string_bytes options.now) }
    ensures within { IfOk result IsCommand }
{
    let given = read_given(command, options)?;
    given.command(command, options.len() + 2)
}

// What the words after a command give its options, or the first fault that one of them has by itself.
pub(crate) fn read_given(command: CommandWord, options: &[String]) -> Result<Given, usize>
    ensures value { result ≡ given_asked command (map string_bytes options.now) }
    ensures entries { IfOk result AreEntries }
{
    let mut given = Given {
        bits: None,
        parts: None,
        shards: None,
        room: None,
        entries: None,
        input: None,
        number: None,
        codes: None,
        port: None,
        sessions: None,
    };
    let mut place = 2;
    let mut rest = options;
    while let (Some(word), after) = next_word(rest) {
        if let Some((name, value)) = parted(word) {
            given = given.with(command, name, place, Some(value), place)?;
            place += 1;
            rest = after;
            continue;
        }
        let (value, after) = next_word(after);
        given = given.with(command, word, place, value, place + 1)?;
        place += 2;
        rest = after;
    }
    Ok(given)
}

// The name and the value that a word has before and after its first `=`.
fn parted(word: &[u8]) -> Option<(&[u8], &[u8])>
    ensures { option_map (λ parts. (parts.0.now, parts.1.now)) result ≡ parted word.now }
{
    match equals_in(word) {
        None => None,
        Some(equals) => Some((&word[..equals], &word[equals + 1..])),
    }
}

// The place of the first `=` in a word.
fn equals_in(word: &[u8]) -> Option<usize>
    ensures value { result ≡ position (λ byte. byte == 61) word.now }
    ensures within { IfSome result (λ equals. equals < length word.now) }
{
    word.iter().position(|byte| *byte == b'=')
}

// The next word, if there is one, and the words after it.
fn next_word(words: &[String]) -> (Option<&[u8]>, &[String])
    ensures next { option_copied result.0 ≡ next_in (map string_bytes words.now) }
    ensures after { map string_bytes result.1.now ≡ after_next (map string_bytes words.now) }
    ensures fewer { length result.1.now ≡ length words.now - 1 }
{
    match words {
        [] => (None, words),
        [next, after @ ..] => (Some(next.as_bytes()), after),
    }
}
