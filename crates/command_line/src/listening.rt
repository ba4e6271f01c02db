//! The words of a `listen`.

ghost use Rattle.std.specs.Prelude.{◌≡◌, List, map, string_bytes, IfOk};
ghost use Rattle.command_line.specs.Kept.{options_kept, AreEntries};
ghost use Rattle.command_line.specs.ListenWords.{listen_asked, listen_of, listen_options, IsListen};
ghost use Rattle.command_line.specs.WrittenOptions.{Written};

use crate::CommandOption;
use crate::command::CommandWord;
use crate::command_words::read_given;
use crate::given::Given;
use part_layout::Config;

/// What a `listen` asks for, or the place of the first word at fault, counted from 1: the numbers of each session, the port that they come
/// in by, and how many are served.
///
/// The first word is `listen`. Its options are those of `run`, and with them
///
/// - `--port`, from 1 to 65,535, which may not be left out;
/// - `--sessions`, from 1 to 65,536, which may not be left out.
///
/// They are written and judged as those of `read_words`.
pub fn listen_words(words: &[String]) -> Result<(Config, u16, u32), usize>
    ensures value { result ≡ listen_asked (map string_bytes words.now) }
    ensures within { IfOk result (λ asked. IsListen asked.0 asked.1 asked.2) }
{
    match words {
        [] => Err(1),
        [word, options @ ..] => {
            if word.as_bytes() != b"listen".as_slice() {
                return Err(1);
            }
            read_listen(options)
        }
    }
}

// What the words after `listen` ask for, the first of them being word 2.
fn read_listen(options: &[String]) -> Result<(Config, u16, u32), usize>
    ensures value { result ≡ listen_options (map string_bytes options.now) }
    ensures within { IfOk result (λ asked. IsListen asked.0 asked.1 asked.2) }
{
    let given = read_given(CommandWord::Listen, options)?;
    given.listen(options.len() + 2)
}

impl Given {
    // What a `listen` asks for with these options, where none has a fault of its own and the words end before a place.
    fn listen(self, end: usize) -> Result<(Config, u16, u32), usize>
        requires { AreEntries self }
        ensures value { (settings : List Written) → self ≡ options_kept settings →
            result ≡ listen_of end settings }
        ensures within { IfOk result (λ asked. IsListen asked.0 asked.1 asked.2) }
    {
        let config = self.config()?;
        let port = self.required(CommandOption::Port, end)?;
        let sessions = self.required(CommandOption::Sessions, end)?;
        Ok((config, port as u16, sessions as u32))
    }
}
