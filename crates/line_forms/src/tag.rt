ghost use Rattle.std.specs.Prelude.{◌≡◌, ◌≤◌, ◌↔◌, length, IsTrue};
ghost use Rattle.line_forms.specs.Forms.{tag_of};
ghost use Rattle.line_forms.specs.declared.tag.TheConstants.{TAG_MOST};

use crate::forms::is_tag;
use std::marker::Model;

/// The greatest number of bytes of a tag.
pub const TAG_MOST: usize = 16;

/// The name of a query: 1 to 16 letters or digits of ASCII.
#[derive(Clone, Copy, Debug, PartialEq, Eq)]
pub struct Tag {
    bytes: [u8; TAG_MOST],
    length: usize,
}

impl Model for Tag {
    ghost use Rattle.std.specs.Prelude.{List, ℕ, ◌≤◌};
    ghost use Rattle.line_forms.specs.Kept.{text_of, fields_of, fields_again, IsZeroPadded};

    ghost Value = { List ℕ };

    ghost view = { text_of };

    ghost inverse = { fields_of };

    ghost invariant = { IsZeroPadded };

    ghost inverse_ok = { fields_again };
}

impl Tag {
    /// The tag that a word is, or None where the word has not the form of a tag.
    pub fn of(word: &[u8]) -> Option<Tag>
        ensures { result ≡ tag_of word.now }
    {
        if !is_tag(word) {
            return None;
        }
        let mut bytes = [0; TAG_MOST];
        bytes[..word.len()].copy_from_slice(word);
        Some(Tag {
            bytes,
            length: word.len(),
        })
    }

    /// The tag's text.
    pub fn bytes(&self) -> &[u8]
        ensures value { result.now ≡ self.now }
        ensures short { length self.now ≤ TAG_MOST }
    {
        &self.bytes[..self.length]
    }

    /// Whether two tags are the same.
    pub fn matches(&self, other: &Tag) -> bool
        ensures { IsTrue result ↔ (self.now ≡ other.now) }
    {
        self.bytes() == other.bytes()
    }
}
