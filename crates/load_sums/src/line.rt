ghost use Rattle.std.specs.Prelude.{◌≡◌, []};
ghost use Rattle.load_sums.specs.Line.{load_line};

use crate::sums::Sums;
use byte_lines::LineBuf;

impl Sums {
    /// Writes the line of a load of so many codes, with its line feed.
    pub fn write(&self, entries: u64, out: &mut LineBuf)
        requires { out.old ≡ [] }
        ensures { out.new ≡ load_line entries self.now }
    {
        out.put(b"load entries ");
        out.put_number(entries);
        out.put(b" queries 32 hits ");
        out.put_number(self.hits);
        out.put(b" bound ");
        out.put_number(self.bound);
        out.put(b" reads ");
        out.put_number(self.reads);
        out.put(b"\n");
    }
}
