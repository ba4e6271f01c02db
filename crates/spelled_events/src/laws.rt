ghost use Rattle.std.specs.Prelude.{◌≡◌, ℕ, Some, Ok};
ghost use Rattle.part_layout.specs.Laid.{IsCodeSize};
ghost use Rattle.spelled_events.specs.Spelled.{IsSpelledEvent, event_line};
ghost use Rattle.trace_lines.specs.EventLines.{event_reading};
ghost use Rattle.world_model.specs.Events.{Event};

use part_layout::{bytes_of_layouts, text_of_layouts};

/// Law: each event of a world has a line that is read as it, so that no event that may happen is out of the reach of a trace.
pub fn each_event_is_spelled_by_a_line()
    ensures { (bits : ℕ) (event : Event) → IsCodeSize bits → IsSpelledEvent bits event →
        event_reading bits (event_line event) ≡ Ok (Some event) }
{
    text_of_layouts();
    bytes_of_layouts();
}
