ghost use Rattle.std.specs.Prelude.{◌≤◌};

use crate::plain::after;
use gph_codes::{Code, CodeFault, dist, for_width};
use std::process::Abort;

// The numbers of bits that are tried: of one to four words, whole words and others.
static SIZES: [u32; 12] = [8, 16, 56, 64, 72, 120, 128, 136, 192, 200, 248, 256];

// The value of a hexadecimal digit of either case.
fn digit_value(digit: u8) -> u32 {
    match (digit as char).to_digit(16) {
        Some(value) => value,
        None => 255,
    }
}

// The bit at a position of a text's code, the first digit's top bit at position 0.
fn plain_bit(text: &[u8], position: u32) -> bool {
    match text.get(position as usize / 4) {
        Some(digit) => digit_value(*digit) >> (3 - position % 4) & 1 == 1,
        None => false,
    }
}

// Fills a text with hexadecimal digits of both cases.
fn fill(text: &mut [u8], mut seed: u64) {
    let digits = *b"0123456789abcdefABCDEF";
    for place in text.iter_mut() {
        seed = after(seed);
        *place = digits[(seed >> 40) as usize % 22];
    }
}

// Reads two texts, and compares their bits, their distance and what is printed with the texts.
fn read_both<const W: usize, R: Abort>(rt: &R, bits: u32, text: &[u8], other: &[u8])
    requires { W ≤ 8 }
{
    assert!(rt; bits % 8 == 0 && bits >= 8 && bits as usize <= 64 * W && bits <= 512);
    let code: Code<W> = Code::from_hex(bits, text).expect(rt, "a code");
    let second: Code<W> = Code::from_hex(bits, other).expect(rt, "a second code");
    for position in 0..bits {
        let is_bit = code.bit(position) == plain_bit(text, position);
        assert!(rt; is_bit, "{bits} bits, position {position}");
    }
    let apart = (0..bits)
        .filter(|position| plain_bit(text, *position) != plain_bit(other, *position))
        .count();
    let is_apart = dist(&code, &second) as usize == apart && dist(&code, &code) == 0;
    assert!(rt; is_apart, "{bits} bits");
    let mut out = [0; 128];
    let room = &mut out[..bits as usize / 4];
    code.to_hex(bits, room);
    for place in 0..room.len() {
        let is_digit = place < text.len() && room[place] == text[place].to_ascii_lowercase();
        assert!(rt; is_digit, "{bits} bits, place {place}");
    }
}

// The same at the number of words that so many bits take.
fn read_pair<R: Abort>(rt: &R, bits: u32, text: &[u8], other: &[u8]) {
    for_width!(bits, read_both<_>, rt, bits, text, other)
}

// What reading a text answers.
fn fault<const W: usize, R: Abort>(rt: &R, bits: u32, text: &[u8]) -> Option<CodeFault>
    requires { W ≤ 8 }
{
    assert!(rt; bits % 8 == 0 && bits >= 8 && bits as usize <= 64 * W);
    let code: Result<Code<W>, CodeFault> = Code::from_hex(bits, text);
    code.err()
}

// The same at the number of words that so many bits take.
fn fault_of<R: Abort>(rt: &R, bits: u32, text: &[u8]) -> Option<CodeFault> {
    for_width!(bits, fault<_>, rt, bits, text)
}

#[test]
fn a_code_has_the_bits_of_its_digits(rt: HostRuntime) {
    let mut seed = 7;
    for &bits in &SIZES {
        let number = bits as usize / 4;
        for _round in 0..8u32 {
            let mut one = [0; 64];
            let mut other = [0; 64];
            fill(&mut one, seed);
            fill(&mut other, after(seed).rotate_left(17));
            seed = after(seed).rotate_left(29);
            assert!(rt; number <= 64);
            let text = &one[..number];
            read_pair(&rt, bits, text, &other[..number]);
        }
    }
}

#[test]
fn position_0_is_the_top_bit_and_the_last_bit_counts(rt: HostRuntime) {
    for &bits in &SIZES {
        let number = bits as usize / 4;
        assert!(rt; 1 < number && number <= 64);
        let zeros = [b'0'; 64];
        let mut first = [b'0'; 64];
        first[0] = b'8';
        let mut last = [b'0'; 64];
        last[number - 1] = b'1';
        read_pair(&rt, bits, &first[..number], &last[..number]);
        read_pair(&rt, bits, &zeros[..number], &last[..number]);
    }
}

#[test]
fn words_keep_the_bits_from_the_top(rt: HostRuntime) -> Result<(), CodeFault> {
    let one: Code<1> = Code::from_hex(8, b"81")?;
    let two: Code<2> = Code::from_hex(72, b"80000000000000010f")?;
    assert!(rt; one.words() == [0x8100_0000_0000_0000]);
    assert!(rt; two.words() == [0x8000_0000_0000_0001, 0x0f00_0000_0000_0000]);
    Ok(())
}

#[test]
fn a_text_of_another_length_is_refused_before_its_digits(rt: HostRuntime) {
    for &bits in &SIZES {
        let number = bits as usize / 4;
        assert!(rt; 1 < number && number <= 64);
        let mut text = [b'A'; 66];
        for length in 0..number + 3 {
            let found = fault_of(&rt, bits, &text[..length]);
            let want = if length == number {
                None
            } else {
                Some(CodeFault::Length)
            };
            assert!(rt; found == want, "{bits} bits, {length} digits");
        }
        text[0] = b'g';
        let found = fault_of(&rt, bits, &text[..number - 1]);
        assert!(rt; found == Some(CodeFault::Length), "{bits} bits");
    }
}

static NO_DIGITS: &[u8] = b"gG /:@`\0\xff";

#[test]
fn the_first_byte_that_is_no_digit_is_told(rt: HostRuntime) {
    for &bits in &SIZES {
        let number = bits as usize / 4;
        assert!(rt; 1 < number && number <= 64);
        for at in 0..number {
            for &byte in NO_DIGITS {
                let mut text = [b'f'; 64];
                text[at] = byte;
                text[number - 1] = byte;
                let found = fault_of(&rt, bits, &text[..number]);
                assert!(rt;
                    found == Some(CodeFault::Digit { at }),
                    "{bits} bits, place {at}"
                );
            }
        }
    }
}
