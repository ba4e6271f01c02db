ghost use Rattle.std.specs.Prelude.{◌≡◌, ℕ, ◌+◌, ◌≤◌, List, [], ◌++◌, length, take, decimal, IfOk};
ghost use Rattle.std.specs.Prelude.{vec_len};
ghost use Rattle.byte_lines.specs.declared.cutter.TheConstants.{LINE_MOST};

use crate::cutter::LINE_MOST;
use itoa::Buffer;
use read_meter::NoMemory;
use std::alloc::Global;
use std::marker::Model;

/// Room for the bytes of one line, made once.
#[derive(Drop)]
pub struct LineBuf {
    bytes: Vec<u8>,
    filled: usize,
}

impl Model for LineBuf {
    ghost Value = { List ℕ };

    ghost view = { λ b. take b.filled b.bytes.items };

    ghost invariant = { λ b. (length b.bytes.items ≡ LINE_MOST) × (b.filled ≤ LINE_MOST) };
}

impl LineBuf {
    /// An empty buffer with room for the longest line.
    pub fn new(alloc: Global) -> Result<LineBuf, NoMemory>
        ensures { IfOk result (λ b. b ≡ []) }
    {
        let bytes = zeroed(alloc, LINE_MOST)?;
        Ok(LineBuf { bytes, filled: 0 })
    }

    /// Adds `text` at the end.
    pub fn put(&mut self, text: &[u8])
        requires { length self.old + length text.now ≤ LINE_MOST }
        ensures value { self.new ≡ self.old ++ text.now }
        ensures longer { length self.new ≡ length self.old + length text.now }
    {
        let end = self.filled + text.len();
        self.bytes[self.filled..end].copy_from_slice(text);
        self.filled = end;
    }

    /// Adds a number in decimal at the end, with at most 20 digits.
    pub fn put_number(&mut self, number: u64)
        requires { length self.old + 20 ≤ LINE_MOST }
        ensures value { self.new ≡ self.old ++ decimal number }
        ensures longer { length self.new ≤ length self.old + 20 }
    {
        self.put(Buffer::new().format(number).as_bytes());
    }

    /// Takes everything out.
    pub fn clear(&mut self)
        ensures { self.new ≡ [] }
    {
        self.filled = 0;
    }

    /// What was added since the last `clear`.
    pub fn bytes(&self) -> &[u8]
        ensures value { result.now ≡ self.now }
        ensures short { length self.now ≤ LINE_MOST }
    {
        &self.bytes[..self.filled]
    }
}

/// So many zero bytes.
pub(crate) fn zeroed(alloc: Global, count: usize) -> Result<Vec<u8>, NoMemory>
    ensures { IfOk result (λ v. length v.items ≡ count) }
{
    Ok(Vec::from_elem(alloc, 0u8, count)?)
}
