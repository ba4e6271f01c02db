ghost use Rattle.std.specs.Prelude.{◌≡◌, ℕ, ◌<◌, length, take, IfOk};

use crate::gathering::{Added, Flushed, Gathering, NotFlushed};
use crate::write_end::WriteEnd;
use byte_lines::LineBuf;
use read_meter::NoMemory;
use std::alloc::Global;
use std::cell::RefCell;

/// The buffer of 4,096 bytes that a program's reader and writer share: what was written is
/// gathered there, and given out before the program reads, and where the buffer is full.
#[derive(Drop)]
pub struct Gathered<W: WriteEnd + Drop> {
    cell: RefCell<Gathering<W>>,
}

impl<W: WriteEnd + Drop> Gathered<W> {
    /// An empty buffer before `writer`.
    pub fn new(alloc: Global, writer: W) -> Result<Gathered<W>, NoMemory> {
        let buffer = LineBuf::new(alloc)?;
        Ok(Gathered {
            cell: RefCell::new(Gathering::new(writer, buffer)),
        })
    }

    /// Gives out what is gathered. No clause can say what a cell holds, so the answer is a value
    /// that only a giving-out makes: `Flushed` where each went well so far, else `NotFlushed`.
    pub fn give_out(&self) -> Result<Flushed, NotFlushed> {
        self.cell.try_borrow_mut()?.give_out()
    }

    /// Takes the front of a piece, or nothing where a giving-out has failed.
    pub(crate) fn add<'p>(&self, piece: &'p [u8]) -> Result<Added<'p>, NotFlushed>
        ensures front { IfOk result (λ added. added ≡ take (length added) piece.now) }
        ensures takes { IfOk result (λ added. 0 < length piece.now → 0 < length added) }
    {
        self.cell.try_borrow_mut()?.add(piece)
    }
}
