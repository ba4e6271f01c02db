//! What reading and writing a layout's text have to do with each other.

ghost use Rattle.part_layout.specs.Faults.{IsReadBack};
ghost use Rattle.part_layout.specs.Laid.{Laid, IsLaid};
ghost use Rattle.part_layout.specs.Text.{layout_text, HasLayoutBytes};

/// The text of a layout reads back: it is one of the grammar, it spells the layout's parts, and these have no fault. So
/// parsing what was written gives the same layout, where there is memory for it.
pub fn text_of_layouts()
    ensures { (layout : Laid) → IsLaid layout → IsReadBack layout }
{}

/// The text of a layout has only digits, commas and slashes.
pub fn bytes_of_layouts()
    ensures { (layout : Laid) → IsLaid layout → HasLayoutBytes (layout_text layout.parts) }
{}
