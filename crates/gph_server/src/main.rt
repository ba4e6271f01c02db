//! `gph`: main. It hands the words after the program's name, standard input and output and ledgers to the top call of the command, or
//! has a board listen, and tells by the status and one line on standard error how that ended.
#![tactic(auto)]

ghost use Rattle.std.specs.Thread.{IsSync};

mod connection;
mod door;
mod ending;
mod in_turn;
mod ledgers;
mod listen;
mod parting;
mod side_by_side;
mod visit;

use crate::ending::Ending;
use crate::ledgers::{Postings, Upkeep};
use crate::listen::{Listened, listen};
use command_line::listen_words;
use gph_serve::{Outcome, run, trace};
use line_io::{Gathered, GatheredReader, GatheredWriter, Sink, Source};
use read_meter::{Meters, upkeep};
use scatter_gather::NoGate;
use std::alloc::{Alloc, Global};
use std::env::{self, Env};
use std::io::{ErrorKind, Print};
use std::net::{Net, TcpListener, TcpStream};
use std::process::ExitCode;
use std::rt::{Stdin, Stdout};
use std::sync::Wait;
use std::thread::Threads;

fn main(rt: HostRuntime) -> ExitCode {
    let ending = ending_of(&rt, rt.stdin(), rt.stdout());
    let told = match ending {
        Ending::Served(Outcome::Done) => Ok(()),
        Ending::Served(Outcome::Usage { word }) => eprintln!(rt; "gph: usage at word {word}"),
        Ending::Served(Outcome::ReadFault) => eprintln!(rt; "gph: read failed"),
        Ending::Served(Outcome::WriteFault) => eprintln!(rt; "gph: write failed"),
        Ending::Served(Outcome::NoMemory) => eprintln!(rt; "gph: out of memory"),
        Ending::Served(Outcome::InputLimit) => eprintln!(rt; "gph: input limit reached"),
        Ending::ListenFailed => eprintln!(rt; "gph: listen failed"),
        Ending::BoardHeld => eprintln!(rt; "gph: board held"),
    };
    // Standard error may be closed: the status tells the outcome all the same.
    let _ = told;
    ExitCode::from(ending.status())
}

// Runs the command that the words name.
fn ending_of<
    R: Env
        + Alloc<A = Global>
        + Net<Listener = TcpListener, Stream = TcpStream>
        + Print
        + Threads
        + Wait
        + Sync,
>(rt: &R, input: Stdin, output: Stdout) -> Ending
    requires sync { IsSync R.row }
{
    let words = match env::args(rt) {
        Ok(words) => words.skip(1).collect(rt.alloc()),
        Err(error) => {
            // A word that is no text is none of the grammar's.
            return Ending::Served(match error.kind() {
                ErrorKind::OutOfMemory => Outcome::NoMemory,
                _ => Outcome::Usage { word: 1 },
            });
        }
    };
    let Ok(words) = words else {
        return Ending::Served(Outcome::NoMemory);
    };
    let words: Vec<String> = words;
    if is_first(&words, b"listen") {
        return ending_of_listen(rt, &words);
    }
    Ending::Served(outcome_of(rt, &words, input, output))
}

// Listens as the words ask, and writes how long the journal has become.
fn ending_of_listen<
    R: Env
        + Alloc<A = Global>
        + Net<Listener = TcpListener, Stream = TcpStream>
        + Print
        + Threads
        + Wait
        + Sync,
>(rt: &R, words: &[String]) -> Ending
    requires sync { IsSync R.row }
{
    let (config, port, sessions) = match listen_words(words) {
        Ok(asked) => asked,
        Err(word) => return Ending::Served(Outcome::Usage { word }),
    };
    match listen(rt, rt.alloc(), &config, port, sessions) {
        Listened::Closed { entries } => {
            Ending::Served(match println!(rt; "closed at {entries}") {
                Ok(()) => Outcome::Done,
                Err(_) => Outcome::WriteFault,
            })
        }
        Listened::NoMemory => Ending::Served(Outcome::NoMemory),
        Listened::Failed => Ending::ListenFailed,
        Listened::Held => Ending::BoardHeld,
    }
}

// Runs the top call over standard input and output. What it wrote is gathered, and given out before each read and at the end.
fn outcome_of<R: Env + Alloc<A = Global> + Threads + Sync>(
    rt: &R,
    words: &[String],
    input: Stdin,
    output: Stdout,
) -> Outcome
    requires sync { IsSync R.row }
{
    let Ok(meters) = Meters::<Postings>::new(rt, rt.alloc()) else {
        return Outcome::NoMemory;
    };
    let Ok(gathered) = Gathered::new(rt.alloc(), output) else {
        return Outcome::NoMemory;
    };
    let mut source = GatheredReader::new(input, &gathered);
    let mut sink = GatheredWriter::new(&gathered);
    let outcome = command_outcome(rt, words, &mut source, &mut sink, meters);
    if gathered.give_out().is_ok() {
        outcome
    } else {
        Outcome::WriteFault
    }
}

// Runs the top call of the command that the words name.
fn command_outcome<R: Env + Alloc<A = Global> + Threads + Sync, S: Source, K: Sink>(
    rt: &R,
    words: &[String],
    source: &mut S,
    sink: &mut K,
    mut meters: Meters<Postings>,
) -> Outcome
    requires sync { IsSync R.row }
{
    let mut steps = upkeep::<Upkeep, _>(rt);
    if is_first(words, b"trace") {
        return trace(rt.alloc(), words, source, sink, &mut steps, &mut meters);
    }
    run(
        rt,
        rt.alloc(),
        words,
        source,
        sink,
        &NoGate,
        &mut steps,
        &mut meters,
    )
}

// Whether this is the command.
fn is_first(words: &[String], command: &[u8]) -> bool {
    match words {
        [word, ..] => word.as_bytes() == command,
        [] => false,
    }
}
