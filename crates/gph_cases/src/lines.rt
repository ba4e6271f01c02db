//! Lines, and the ends that bytes come from and go to.

use byte_lines::{Cut, Cutter, LineBuf};
use line_io::{
    Failed, FromReader, Gathered, GatheredReader, GatheredWriter, Sink, Source, ToWriter,
};
use std::alloc::Global;
use std::cell::RefCell;
use std::io;
use std::io::{Cursor, ErrorKind, Read, Write};
use std::test::Fail;

// Adds what was cut and a bar.
fn note(cutter: &Cutter, cut: Cut, noted: &mut Vec<u8>) -> Result<(), Fail> {
    match cut {
        Cut::Line => noted.extend_from_slice(cutter.line())?,
        Cut::Long => noted.extend_from_slice(b"(long)")?,
    }
    noted.push(b'|')?;
    Ok(())
}

// Pushes a piece, and notes what it ends.
fn push_all(cutter: &mut Cutter, piece: &[u8], noted: &mut Vec<u8>) -> Result<(), Fail> {
    let mut rest = piece;
    for _ in 0..piece.len() {
        if rest.is_empty() {
            break;
        }
        let (taken, cut) = cutter.push(rest);
        rest = &rest[taken..];
        if let Some(cut) = cut {
            note(cutter, cut, noted)?;
        }
    }
    Ok(())
}

// What a cutter cuts off these pieces, each with a bar behind it.
fn cut_off(alloc: Global, pieces: &[&[u8]]) -> Result<Vec<u8>, Fail> {
    let mut cutter = Cutter::new(alloc)?;
    let mut noted = Vec::new(alloc);
    for piece in pieces {
        push_all(&mut cutter, piece, &mut noted)?;
    }
    if let Some(cut) = cutter.finish() {
        note(&cutter, cut, &mut noted)?;
    }
    Ok(noted)
}

// A text, and its lines with a bar behind each.
static TEXTS: [(&[u8], &[u8]); 4] = [
    (b"ab\r\n\n\r\nc\r\r\nde", b"ab|||c\r|de|"),
    (b"\n\r\r\n a\nb \n\r", b"|\r| a|b |\r|"),
    (b"a\rb\n\nc\r\n", b"a\rb||c|"),
    (b"", b""),
];

#[test]
fn lines_are_the_same_however_their_text_is_cut(rt: HostRuntime) -> Result<(), Fail> {
    for &(text, lines) in &TEXTS {
        for second in 0..=text.len() {
            for third in second..=text.len() {
                let (begun, last) = text.split_at(third);
                let (first, middle) = begun.split_at(second);
                let noted = cut_off(rt.alloc(), &[first, middle, last])?;
                let is_same = noted.as_slice() == lines;
                assert!(rt; is_same, "cut at {second} and {third}");
            }
        }
    }
    Ok(())
}

// How often a letter stands, what follows it, whether the first line is long, and what else is cut off.
static LENGTHS: [(usize, &[u8], bool, &[u8]); 8] = [
    (4096, b"\n", false, b""),
    (4096, b"\r\n", false, b""),
    (4096, b"", false, b""),
    (4096, b"\r", true, b""),
    (4096, b"\r\r\n", true, b""),
    (4097, b"\nab\n", true, b"ab|"),
    (4097, b"", true, b""),
    (10_000, b"\r\nab", true, b"ab|"),
];

// Whether a cutter keeps the letters or not, and cuts off what else is wanted.
fn is_cut(
    alloc: Global,
    letters: &[u8],
    rest: &[u8],
    is_long: bool,
    after: &[u8],
) -> Result<bool, Fail> {
    let mut lines = if is_long {
        b"(long)".to_vec(alloc)?
    } else {
        letters.to_vec(alloc)?
    };
    lines.push(b'|')?;
    lines.extend_from_slice(after)?;
    let noted = cut_off(alloc, &[letters, rest])?;
    Ok(noted == lines)
}

#[test]
fn a_line_of_4096_bytes_is_kept_and_a_longer_one_is_not(rt: HostRuntime) -> Result<(), Fail> {
    for &(count, rest, is_long, after) in &LENGTHS {
        let letters = Vec::from_elem(rt.alloc(), b'x', count)?;
        let cut = is_cut(rt.alloc(), letters.as_slice(), rest, is_long, after)?;
        assert!(rt; cut, "{count} letters, then {rest:?}");
    }
    Ok(())
}

// Numbers, and their digits.
static NUMBERS: [(u64, &[u8]); 6] = [
    (0, b"at 0."),
    (9, b"at 9."),
    (10, b"at 10."),
    (4096, b"at 4096."),
    (9_223_372_036_854_775_808, b"at 9223372036854775808."),
    (u64::MAX, b"at 18446744073709551615."),
];

// Whether a line that is cleared holds a number between two texts.
fn is_put(line: &mut LineBuf, number: u64, text: &[u8]) -> bool {
    line.clear();
    line.put(b"at ");
    line.put_number(number);
    line.put(b".");
    line.bytes() == text
}

#[test]
fn a_line_holds_text_and_numbers_until_it_is_cleared(rt: HostRuntime) -> Result<(), Fail> {
    let mut line = LineBuf::new(rt.alloc())?;
    assert!(rt; line.bytes().is_empty());
    for &(number, text) in &NUMBERS {
        assert!(rt; is_put(&mut line, number, text), "{number}");
    }
    line.clear();
    let most = Vec::from_elem(rt.alloc(), b'x', 4096)?;
    line.put(most.as_slice());
    assert!(rt; line.bytes() == most.as_slice());
    line.clear();
    assert!(rt; line.bytes().is_empty());
    Ok(())
}

// A reader and a writer whose every call fails.
#[derive(Drop)]
struct Broken;

impl Read for Broken {
    fn read(&mut self, _: &mut [u8]) -> io::Result<usize> {
        Err(io::Error::from(ErrorKind::TimedOut))
    }
}

impl Write for Broken {
    fn write(&mut self, _: &[u8]) -> io::Result<usize> {
        Err(io::Error::from(ErrorKind::TimedOut))
    }

    fn flush(&mut self) -> io::Result<()> {
        Ok(())
    }
}

// Whether the next read into a room gives a piece.
fn gives<S: Source>(source: &mut S, room: &mut [u8], piece: &[u8]) -> bool {
    match source.read(room) {
        Ok(count) => &room[..count] == piece,
        Err(Failed) => false,
    }
}

// Whether a sink takes a piece whole.
fn takes<K: Sink>(sink: &mut K, piece: &[u8]) -> bool {
    match sink.write(piece) {
        Ok(count) => count == piece.len(),
        Err(Failed) => false,
    }
}

#[test]
fn a_reader_and_a_writer_of_std_are_ends(rt: HostRuntime) -> Result<(), Fail> {
    let mut room = [0; 4];
    let mut source = FromReader::new(Cursor::new(b"line\nab".as_slice()));
    assert!(rt; gives(&mut source, &mut room, b"line"));
    assert!(rt; gives(&mut source, &mut room, b"\nab"));
    assert!(rt; gives(&mut source, &mut room, b""));
    assert!(rt; FromReader::new(Broken).read(&mut room).is_err());

    let mut written = Vec::new(rt.alloc());
    let mut sink = ToWriter::new(&mut written);
    assert!(rt; takes(&mut sink, b"done "));
    assert!(rt; takes(&mut sink, b"a 2\n"));
    assert!(rt; written.as_slice() == b"done a 2\n".as_slice());
    assert!(rt; ToWriter::new(Broken).write(b"a").is_err());
    Ok(())
}

// A writer into a cell, whose calls fail while it is broken.
#[derive(Drop)]
struct Shared<'a> {
    cell: &'a RefCell<Vec<u8>>,
    is_broken: bool,
}

impl<'a> Write for Shared<'a> {
    fn write(&mut self, bytes: &[u8]) -> io::Result<usize> {
        if self.is_broken {
            return Err(io::Error::from(ErrorKind::TimedOut));
        }
        match self.cell.try_borrow_mut() {
            Ok(mut written) => {
                written.extend_from_slice(bytes)?;
                Ok(bytes.len())
            }
            Err(_) => Err(io::Error::from(ErrorKind::TimedOut)),
        }
    }

    fn flush(&mut self) -> io::Result<()> {
        Ok(())
    }
}

// A reader whose every read gives what a writer has so far.
#[derive(Drop)]
struct Looking<'a> {
    cell: &'a RefCell<Vec<u8>>,
}

impl<'a> Read for Looking<'a> {
    fn read(&mut self, room: &mut [u8]) -> io::Result<usize> {
        match self.cell.try_borrow() {
            Ok(written) => {
                let count = written.len().min(room.len());
                room[..count].copy_from_slice(&written[..count]);
                Ok(count)
            }
            Err(_) => Err(io::Error::from(ErrorKind::TimedOut)),
        }
    }
}

// Whether a cell has so many bytes.
fn has_count(cell: &RefCell<Vec<u8>>, count: usize) -> bool {
    match cell.try_borrow() {
        Ok(bytes) => bytes.len() == count,
        Err(_) => false,
    }
}

// A piece to write, how many bytes were given out before it, and all that is given out before the next read.
static GATHERED: [(&[u8], usize, &[u8]); 3] = [
    (b"open a", 0, b"open a"),
    (b" at 4", 6, b"open a at 4"),
    (b"", 11, b"open a at 4"),
];

#[test]
fn what_is_gathered_is_given_out_before_the_next_read(rt: HostRuntime) -> Result<(), Fail> {
    let cell = RefCell::new(Vec::new(rt.alloc()));
    let writer = Shared {
        cell: &cell,
        is_broken: false,
    };
    let gathered = Gathered::new(rt.alloc(), writer)?;
    let mut source = GatheredReader::new(Looking { cell: &cell }, &gathered);
    let mut sink = GatheredWriter::new(&gathered);
    let mut room = [0; 16];
    assert!(rt; gives(&mut source, &mut room, b""));
    for &(piece, before, after) in &GATHERED {
        assert!(rt; takes(&mut sink, piece));
        assert!(rt; has_count(&cell, before), "{before}");
        assert!(rt; gives(&mut source, &mut room, after), "{before}");
    }
    // A full buffer is given out for the next piece.
    let most = Vec::from_elem(rt.alloc(), b'x', 4096)?;
    assert!(rt; takes(&mut sink, most.as_slice()));
    assert!(rt; has_count(&cell, 11));
    assert!(rt; takes(&mut sink, b"y"));
    assert!(rt; has_count(&cell, 4107));
    assert!(rt; gathered.give_out().is_ok());
    assert!(rt; has_count(&cell, 4108));
    Ok(())
}

#[test]
fn a_failed_giving_out_fails_the_next_write_and_no_read(rt: HostRuntime) -> Result<(), Fail> {
    let cell = RefCell::new(Vec::new(rt.alloc()));
    let writer = Shared {
        cell: &cell,
        is_broken: true,
    };
    let gathered = Gathered::new(rt.alloc(), writer)?;
    let mut source = GatheredReader::new(Looking { cell: &cell }, &gathered);
    let mut sink = GatheredWriter::new(&gathered);
    let mut room = [0; 16];
    assert!(rt; takes(&mut sink, b"open a"));
    assert!(rt; gives(&mut source, &mut room, b""));
    assert!(rt; sink.write(b"more a").is_err());
    assert!(rt; gives(&mut source, &mut room, b""));
    assert!(rt; sink.write(b"more a").is_err());
    assert!(rt; gathered.give_out().is_err());
    Ok(())
}
