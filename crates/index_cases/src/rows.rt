//! Tables that are texts: a row a line, and the fields of a row parted by bars.

use std::process::Abort;
use std::str::Split;

/// The next field of a row.
pub(crate) fn field<'a, R: Abort>(rt: &R, fields: &mut Split<'a, char>) -> &'a str {
    fields.next().expect(rt, "a field")
}

/// The next field of a row, as a number.
pub(crate) fn number<R: Abort>(rt: &R, fields: &mut Split<'_, char>) -> u32 {
    field(rt, fields).parse::<u32>().ok().expect(rt, "a number")
}
