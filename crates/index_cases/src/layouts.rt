ghost use Rattle.std.specs.Prelude.{◌<◌, ◌≤◌, length};
ghost use Rattle.part_layout.specs.Laid.{IsCodeSize};

use crate::rows::{field, number};
use gph_codes::Code;
use part_layout::{Layout, LayoutFault};
use std::alloc::Global;
use std::process::Abort;

// Each of the positions 0 to 63 in a part of its own.
static SINGLES: &str =
    "0/1/2/3/4/5/6/7/8/9/10/11/12/13/14/15/16/17/18/19/20/21/22/23/24/25/26/27/28/29/30/31/32/33/34/35/36/37/38/39/40/41/42/43/44/45/46/47/48/49/50/51/52/53/54/55/56/57/58/59/60/61/62/63";

// Stops a test that asks for a number of bits that no layout has.
fn check_bits<R: Abort>(rt: &R, bits: u32)
    ensures { IsCodeSize bits }
{
    assert!(rt; bits % 8 == 0 && 8 <= bits && bits <= 256);
}

// Whether cutting so many bits into so many parts gives the layout of a text.
fn is_cut_as(alloc: Global, bits: u32, parts: u32, text: &str) -> bool
    requires { IsCodeSize bits }
{
    match Layout::contiguous(alloc, bits, parts) {
        Ok(layout) => {
            Layout::can_be_cut(bits, parts)
                && layout.bits() == bits
                && layout.parts() == parts
                && layout.text().bytes() == text.as_bytes()
        }
        Err(_) => false,
    }
}

// Whether a fault has this name and this number; where there is none, they are none and 0.
fn is_fault(fault: Option<LayoutFault>, name: &str, number: u32) -> bool {
    let (told, at) = match fault {
        None => ("none", 0),
        Some(LayoutFault::Syntax { at }) => ("syntax", at as u64),
        Some(LayoutFault::Range { position }) => ("range", u64::from(position)),
        Some(LayoutFault::Twice { position }) => ("twice", u64::from(position)),
        Some(LayoutFault::Missing { position }) => ("missing", u64::from(position)),
        Some(LayoutFault::Width { part }) => ("width", u64::from(part)),
        Some(LayoutFault::Parts { count }) => ("parts", u64::from(count)),
        Some(LayoutFault::NoMemory) => ("memory", 0),
    };
    told == name && at == u64::from(number)
}

// The fault of reading a text that has this beginning.
fn text_fault<R: Abort>(
    rt: &R,
    alloc: Global,
    bits: u32,
    beginning: &str,
    text: &str,
) -> Option<LayoutFault> {
    check_bits(rt, bits);
    let mut whole = beginning
        .as_bytes()
        .to_vec(alloc)
        .expect(rt, "memory for a text");
    whole
        .extend_from_slice(text.as_bytes())
        .expect(rt, "memory for a text");
    Layout::parse(alloc, bits, &whole).err()
}

// Compares the fault of each text with its row: bits, the text after a beginning, the fault and its number.
fn compare_faults<R: Abort>(rt: &R, alloc: Global, beginning: &str, table: &str) {
    for line in table.lines() {
        let mut row = line.split('|');
        let bits = number(rt, &mut row);
        let fault = text_fault(rt, alloc, bits, beginning, field(rt, &mut row));
        let name = field(rt, &mut row);
        assert!(rt; is_fault(fault, name, number(rt, &mut row)), "{line}");
    }
}

// Bits, parts and the layout.
static CUTS: &str = "\
8|1|0,1,2,3,4,5,6,7
8|8|0/1/2/3/4/5/6/7
8|3|0,1,2/3,4,5/6,7
16|2|0,1,2,3,4,5,6,7/8,9,10,11,12,13,14,15
16|3|0,1,2,3,4,5/6,7,8,9,10/11,12,13,14,15
24|2|0,1,2,3,4,5,6,7,8,9,10,11/12,13,14,15,16,17,18,19,20,21,22,23";

#[test]
fn bits_are_cut_into_parts_as_equal_as_can_be(rt: HostRuntime) {
    for line in CUTS.lines() {
        let mut row = line.split('|');
        let bits = number(&rt, &mut row);
        check_bits(&rt, bits);
        let parts = number(&rt, &mut row);
        assert!(rt;
            is_cut_as(rt.alloc(), bits, parts, field(&rt, &mut row)),
            "{line}"
        );
    }
    assert!(rt; is_cut_as(rt.alloc(), 64, 64, SINGLES));
}

// Whether a part has so many positions, and this one at a place.
fn is_part(layout: &Layout, part: u32, width: u32, place: u32, position: u32) -> bool {
    part < layout.parts()
        && layout.width(part) == width
        && place < width
        && layout.position(part, place) == position
}

#[test]
fn the_fewest_parts_of_256_bits_are_22(rt: HostRuntime) {
    let layout = Layout::contiguous(rt.alloc(), 256, 22).expect(&rt, "a layout");
    assert!(rt; is_part(&layout, 0, 12, 0, 0));
    assert!(rt; is_part(&layout, 13, 12, 11, 167));
    assert!(rt; is_part(&layout, 14, 11, 0, 168));
    assert!(rt; is_part(&layout, 21, 11, 10, 255));
}

// Bits, parts, the fault and its number.
static NUMBERS: &str = "\
8|0|parts|0
8|8|none|0
8|9|parts|9
8|65|parts|65
16|1|width|0
24|1|width|0
24|2|none|0
72|64|none|0
72|65|parts|65
256|0|parts|0
256|1|width|0
256|21|width|0
256|22|none|0
256|64|none|0
256|65|parts|65
256|4294967295|parts|4294967295";

#[test]
fn a_number_of_parts_that_can_not_be_had_is_a_fault(rt: HostRuntime) {
    for line in NUMBERS.lines() {
        let mut row = line.split('|');
        let bits = number(&rt, &mut row);
        check_bits(&rt, bits);
        let parts = number(&rt, &mut row);
        let fault = Layout::contiguous(rt.alloc(), bits, parts).err();
        assert!(rt;
            Layout::can_be_cut(bits, parts) == fault.is_none(),
            "{line}"
        );
        let name = field(&rt, &mut row);
        assert!(rt; is_fault(fault, name, number(&rt, &mut row)), "{line}");
    }
}

static BYTES: &str = "\
8||syntax|0
8|/|syntax|0
8|,0|syntax|0
8| 0|syntax|0
8|0,1,,2|syntax|4
8|0,/1|syntax|2
8|0//1|syntax|2
8|0,1 |syntax|3
8|0x1|syntax|1
8|-1|syntax|0
8|0000|syntax|3
8|0,1234/x|syntax|5
8|0,|syntax|2
8|0,1/|syntax|4
8|0,1,2,3,4,5,6,7/|syntax|16";

#[test]
fn a_text_that_is_none_goes_wrong_at_its_first_bad_byte(rt: HostRuntime) {
    compare_faults(&rt, rt.alloc(), "", BYTES);
}

static FIRST: &str = "\
8|0,1,2,3/4,5,6|missing|7
8|0,0/1,2,3,4,5,6,7|twice|0
8|0,1,2,3/4,5,6,8|range|8
16|0,1,2,3,4,5,6,7,8,9,10,11,12/13,14,15|width|0
16|13,14,15/0,1,2,3,4,5,6,7,8,9,10,11,12|width|1";

// A later byte is told before a number.
static BYTE_FIRST: &str = "\
8|8,x|syntax|2
8|0,0,|syntax|4
16|0,1,2,3,4,5,6,7,8,9,10,11,12;|syntax|28";

// A later number out of range is told before any other.
static RANGE_FIRST: &str = "\
8|0,0,9,8|range|9
8|999|range|999
16|0,1,2,3,4,5,6,7,8,9,10,11,12,016|range|16
256|256|range|256";

// The first number that stood before is told, not the first that stands again.
static TWICE_FIRST: &str = "\
8|0,1/1,0|twice|1
8|7,007|twice|7
16|0,1,2,3,4,5,6,7,8,9,10,11,12,12|twice|12";

// The least position that is missing.
static LEAST_MISSING: &str = "\
8|7/5|missing|0
8|0/2/1/7|missing|3
16|0,1,2,3,4,5,6,7,8,9,10,11,12|missing|13";

#[test]
fn the_first_fault_that_applies_is_told(rt: HostRuntime) {
    compare_faults(&rt, rt.alloc(), "", FIRST);
    compare_faults(&rt, rt.alloc(), "", BYTE_FIRST);
    compare_faults(&rt, rt.alloc(), "", RANGE_FIRST);
    compare_faults(&rt, rt.alloc(), "", TWICE_FIRST);
    compare_faults(&rt, rt.alloc(), "", LEAST_MISSING);
}

// The texts begin with the positions 0 to 63, each in a part of its own.
static MANY: &str = "\
72|/64,65,66,67,68,69,70,71|parts|65
72|/64/65/66/67/68/69/70/71|parts|72
80|/64,65,66,67,68,69,70,71,72,73,74,75,76,77,78,79|width|64
72|/64|missing|65
72|/0|twice|0
72|/72|range|72
72|/|syntax|182
64||none|0
72|,64,65,66,67,68,69,70,71|none|0";

#[test]
fn over_64_parts_are_told_last(rt: HostRuntime) {
    compare_faults(&rt, rt.alloc(), SINGLES, MANY);
}

// Whether a text is read as a layout that prints a text, and that text again as the same layout.
fn is_printed_as(alloc: Global, bits: u32, text: &str, want: &str) -> bool
    requires { IsCodeSize bits }
{
    let Ok(layout) = Layout::parse(alloc, bits, text.as_bytes()) else {
        return false;
    };
    let printed = layout.text();
    let Ok(again) = Layout::parse(alloc, bits, printed.bytes()) else {
        return false;
    };
    let mut out = [0; 2048];
    let length = again.write(&mut out);
    layout.bits() == bits
        && again.parts() == layout.parts()
        && printed.bytes() == want.as_bytes()
        && &out[..length] == want.as_bytes()
}

// Bits, a text, and what its layout prints.
static PRINTED: &str = "\
8|0,1,2,3,4,5,6,7|0,1,2,3,4,5,6,7
8|7,0/3,1,2/4,5,6|7,0/3,1,2/4,5,6
8|007,00/03,1,2/004/5/006|7,0/3,1,2/4/5/6
16|15/0,1,2,3,4,5,6,7,8,9,10,11/014,12,13|15/0,1,2,3,4,5,6,7,8,9,10,11/14,12,13";

#[test]
fn a_layout_prints_its_parts_and_is_read_again(rt: HostRuntime) {
    for line in PRINTED.lines() {
        let mut row = line.split('|');
        let bits = number(&rt, &mut row);
        check_bits(&rt, bits);
        let text = field(&rt, &mut row);
        assert!(rt;
            is_printed_as(rt.alloc(), bits, text, field(&rt, &mut row)),
            "{line}"
        );
    }
    assert!(rt; is_printed_as(rt.alloc(), 64, SINGLES, SINGLES));
}

// Whether a part of a code has a value.
fn is_value<const W: usize>(layout: &Layout, code: &Code<W>, part: u32, value: u16) -> bool
    requires { W ≤ 8 }
{
    part < layout.parts() && layout.bits() as usize <= 64 * W && layout.value(code, part) == value
}

#[test]
fn a_part_has_its_positions_in_their_order(rt: HostRuntime) {
    let layout = Layout::parse(rt.alloc(), 8, b"7,0/3,1,2/4,5,6").expect(&rt, "a layout");
    assert!(rt; is_part(&layout, 0, 2, 0, 7));
    assert!(rt; is_part(&layout, 0, 2, 1, 0));
    assert!(rt; is_part(&layout, 1, 3, 0, 3));
    assert!(rt; is_part(&layout, 1, 3, 1, 1));
    assert!(rt; is_part(&layout, 1, 3, 2, 2));
    assert!(rt; is_part(&layout, 2, 3, 0, 4));
    assert!(rt; is_part(&layout, 2, 3, 1, 5));
    assert!(rt; is_part(&layout, 2, 3, 2, 6));
    // The code is 1010 0101.
    let code: Code<1> = Code::from_hex(8, b"a5").expect(&rt, "a code");
    assert!(rt; is_value(&layout, &code, 0, 3));
    assert!(rt; is_value(&layout, &code, 1, 1));
    assert!(rt; is_value(&layout, &code, 2, 2));
}

#[test]
fn parts_of_eight_positions_have_the_bytes_as_values(rt: HostRuntime) {
    let layout = Layout::contiguous(rt.alloc(), 128, 16).expect(&rt, "a layout");
    let text = b"0123456789abcdeffedcba9876543210";
    let code: Code<2> = Code::from_hex(128, text).expect(&rt, "a code");
    assert!(rt; is_value(&layout, &code, 0, 0x01));
    assert!(rt; is_value(&layout, &code, 1, 0x23));
    assert!(rt; is_value(&layout, &code, 7, 0xef));
    assert!(rt; is_value(&layout, &code, 8, 0xfe));
    assert!(rt; is_value(&layout, &code, 15, 0x10));
}

// The value of a code at a part, its bits read one by one.
fn value_of_bits(layout: &Layout, code: &Code<4>, part: u32) -> u16
    requires part { part < length layout.now.parts }
    requires room { layout.now.bits ≤ 256 }
{
    let mut value = 0;
    for place in 0..layout.width(part) {
        value = value << 1 | u16::from(code.bit(layout.position(part, place)));
    }
    value
}

// Whether each part of a code has the value of its bits.
fn has_values_of_bits(layout: &Layout, code: &Code<4>) -> bool
    requires { layout.now.bits ≤ 256 }
{
    for part in 0..layout.parts() {
        if layout.value(code, part) != value_of_bits(layout, code, part) {
            return false;
        }
    }
    true
}

// The digits of a code of 256 bits.
static DIGITS: &[u8] = b"0123456789abcdeffedcba98765432100f1e2d3c4b5a69788796a5b4c3d2e1f0";

// Bits, and texts of layouts with parts in one word of a code, parts that go from one word to the next, and parts that
// don't run on.
static VALUED: &str = "\
8|0,1,2,3,4,5,6,7
8|0,1,2/3,4/7,6,5
64|0,1,2,3,4,5,6,7,8,9,10,11/12,13,14,15,16,17,18,19,20,21,22/24,23,25,26,27,28,29,30,31/63,62,61,60,59,58,57,56,55,54/32,33,34,35,36,37,38,39,40,41,42,43/44,45,46,47,48,49,50,51,52,53";

// Bits, and numbers of parts.
static CUT: [(u32, u32); 7] = [
    (8, 8),
    (64, 6),
    (72, 6),
    (128, 11),
    (192, 64),
    (256, 22),
    (256, 37),
];

#[test]
fn a_part_has_the_value_of_its_bits_in_one_word_and_across_two(rt: HostRuntime) {
    for &(bits, parts) in &CUT {
        check_bits(&rt, bits);
        let layout = Layout::contiguous(rt.alloc(), bits, parts).expect(&rt, "a layout");
        let code = Code::from_hex(bits, &DIGITS[..bits as usize / 4]).expect(&rt, "a code");
        assert!(rt;
            has_values_of_bits(&layout, &code),
            "{bits} bits, {parts} parts"
        );
    }
    for line in VALUED.lines() {
        let mut row = line.split('|');
        let bits = number(&rt, &mut row);
        check_bits(&rt, bits);
        let text = field(&rt, &mut row);
        let layout = Layout::parse(rt.alloc(), bits, text.as_bytes()).expect(&rt, "a layout");
        let code = Code::from_hex(bits, &DIGITS[..bits as usize / 4]).expect(&rt, "a code");
        assert!(rt; has_values_of_bits(&layout, &code), "{line}");
    }
}
