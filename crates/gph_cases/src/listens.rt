//! The words of a `listen`, and what they ask for.

use crate::trial::list_of;
use command_line::{listen_words, read_words};
use part_layout::Config;
use std::test::Fail;

// What a `listen` asks for, in the order of the fields of a Config, with the port and the number of sessions.
#[derive(Clone, Copy)]
struct Listen {
    numbers: (u32, u32, u32, u32),
    limits: (u64, u64),
    port: u16,
    sessions: u32,
}

// The limits where none are given.
const LIMITS: (u64, u64) = (1_048_576, 4_294_967_296);

// Words, and what they ask for.
static LISTENS: [(&str, Listen); 6] = [
    (
        "listen --port 1 --sessions 1",
        Listen {
            numbers: (64, 8, 4, 64),
            limits: LIMITS,
            port: 1,
            sessions: 1,
        },
    ),
    (
        "listen --sessions=65536 --port=65535",
        Listen {
            numbers: (64, 8, 4, 64),
            limits: LIMITS,
            port: 65535,
            sessions: 65536,
        },
    ),
    (
        "listen --bits 8 --port 00000000000000004000 --parts 2 --sessions 3",
        Listen {
            numbers: (8, 2, 4, 64),
            limits: LIMITS,
            port: 4000,
            sessions: 3,
        },
    ),
    (
        "listen --shards 16 --port 80 --room=1 --sessions 2",
        Listen {
            numbers: (64, 8, 16, 1),
            limits: LIMITS,
            port: 80,
            sessions: 2,
        },
    ),
    (
        "listen --port 80 --sessions 2 --entries 7 --input=9",
        Listen {
            numbers: (64, 8, 4, 64),
            limits: (7, 9),
            port: 80,
            sessions: 2,
        },
    ),
    (
        "listen --parts 22 --port 80 --bits 256 --sessions 2",
        Listen {
            numbers: (256, 22, 4, 64),
            limits: LIMITS,
            port: 80,
            sessions: 2,
        },
    ),
];

#[test]
fn words_of_a_listen_give_its_numbers(rt: HostRuntime) -> Result<(), Fail> {
    for &(text, listen) in &LISTENS {
        let words = list_of(rt.alloc(), text)?;
        let Ok((config, port, sessions)) = listen_words(words.as_slice()) else {
            panic!(rt; "{text}");
        };
        let Config {
            bits,
            parts,
            shards,
            room,
            entries,
            input,
        } = config;
        assert!(rt; (bits, parts, shards, room) == listen.numbers, "{text}");
        assert!(rt; (entries, input) == listen.limits, "{text}");
        assert!(rt;
            (port, sessions) == (listen.port, listen.sessions),
            "{text}"
        );
    }
    Ok(())
}

// Words at fault, and the place of the first.
static FAULTS: [(&str, usize); 24] = [
    ("", 1),
    ("run --port 1 --sessions 1", 1),
    ("trace --port 1 --sessions 1", 1),
    ("Listen --port 1 --sessions 1", 1),
    ("--port 1 --sessions 1 listen", 1),
    ("listen", 2),
    ("listen --port 1", 4),
    ("listen --sessions 1", 4),
    ("listen --port=1", 3),
    ("listen --port 0 --sessions 1", 3),
    ("listen --port 65536 --sessions 1", 3),
    ("listen --port=65536 --sessions 1", 2),
    ("listen --sessions 0 --port 1", 3),
    ("listen --port 1 --sessions 65537", 5),
    ("listen --port 1 --sessions", 5),
    ("listen --port --sessions 1", 3),
    ("listen --port 1 --sessions 1 --port 1", 6),
    ("listen --port 1 --sessions 1 --number 1", 6),
    ("listen --codes 1 --port 1 --sessions 1", 2),
    ("listen --parts 9 --bits 8 --port 1 --sessions 1", 3),
    ("listen --parts 9 --bits 8 --port 1", 3),
    ("listen --parts 9 --bits 8 --port 0", 7),
    ("listen --port 000000000000000000001 --sessions 1", 3),
    ("listen --port 1 1 --sessions 1", 4),
];

#[test]
fn words_of_a_listen_have_a_first_fault(rt: HostRuntime) -> Result<(), Fail> {
    for &(text, place) in &FAULTS {
        let words = list_of(rt.alloc(), text)?;
        let Err(found) = listen_words(words.as_slice()) else {
            panic!(rt; "{text}");
        };
        assert_eq!(rt; found, place, "{text}");
    }
    Ok(())
}

// Words of a `listen`'s options after other commands, and the place of the first fault.
static OTHERS: [(&str, usize); 4] = [
    ("listen --port 1 --sessions 1", 1),
    ("run --port 1", 2),
    ("run --bits 8 --sessions 1", 4),
    ("load --number 1 --codes 1 --port 1", 6),
];

#[test]
fn no_other_call_serves_a_listen(rt: HostRuntime) -> Result<(), Fail> {
    for &(text, place) in &OTHERS {
        let words = list_of(rt.alloc(), text)?;
        let Err(found) = read_words(words.as_slice()) else {
            panic!(rt; "{text}");
        };
        assert_eq!(rt; found, place, "{text}");
    }
    Ok(())
}
