//! The text of a layout.

ghost use Rattle.std.specs.Prelude.{◌≡◌, ◌≤◌, length, take};
ghost use Rattle.part_layout.specs.declared.layout_text.TheConstants.{TEXT};

use std::marker::Model;

/// How many bytes a buffer for the text of a layout has.
pub const TEXT: usize = 2048;

/// The text of a layout: at most 2,048 bytes, seen as their list.
#[derive(Debug, Drop)]
pub struct LayoutText {
    bytes: [u8; TEXT],
    length: usize,
}

impl Model for LayoutText {
    ghost use Rattle.std.specs.Prelude.{ℕ, ◌≤◌, List, take};
    ghost use Rattle.part_layout.specs.declared.layout_text.TheConstants.{TEXT};

    ghost Value = { List ℕ };

    ghost view = { λ text. take text.length text.bytes };

    ghost invariant = { λ text. text.length ≤ TEXT };
}

impl LayoutText {
    /// The text of so many of a buffer's first bytes.
    pub fn new(bytes: [u8; TEXT], length: usize) -> LayoutText
        requires { length ≤ TEXT }
        ensures { result ≡ take length bytes }
    {
        LayoutText { bytes, length }
    }

    /// The bytes of the text.
    pub fn bytes(&self) -> &[u8]
        ensures value { result.now ≡ self.now }
        ensures short { length self.now ≤ TEXT }
    {
        &self.bytes[..self.length]
    }
}
