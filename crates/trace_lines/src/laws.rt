ghost use Rattle.std.specs.Prelude.{◌≡◌, ℕ, List, [], ◌∷◌, ◌++◌, Err, Ok, Some, None};
ghost use Rattle.query_protocol.specs.declared.bad.Bad.{Bad};
ghost use Rattle.world_model.specs.Events.{Event, Setting, IsFormed};
ghost use Rattle.world_model.specs.Runs.{Answer};
ghost use Rattle.world_model.specs.Sound.{IsSound};
ghost use Rattle.world_model.specs.WorldState.{WorldState};
ghost use Rattle.world_model.specs.WorldStep.{WorldStep};
ghost use Rattle.trace_lines.specs.EventLines.{event_reading};
ghost use Rattle.trace_lines.specs.EventRequests.{IsFitEvent, event_of};
ghost use Rattle.trace_lines.specs.Traces.{Becomes, IsNoEvent, IsTrace, LineMet, Met, met_text};
ghost use Rattle.trace_lines.specs.declared.event_request.EventRequest.{EventRequest};

use world_model::every_list_of_events_answers_the_scan;

/// Law: what is read is an event of the world: its code, layout and numbers are those of so many bits.
pub fn what_is_read_is_formed()
    ensures { (W : ℕ) (z : Setting) (request : EventRequest W) →
        IsFitEvent W z.bits request → IsFormed z (event_of z.bits request) }
{}

/// Law: a trace goes on line by line, from a world that keeps the rules to one that does. Before the first line nothing is answered; a line
/// that is no event leaves the world as it is, and one that is an event is a step of it.
pub fn a_trace_goes_on()
    ensures begins { (z : Setting) (s : WorldState) → IsSound z s → IsTrace z s [] [] s }
    ensures sound { (z : Setting) (s : WorldState) (lines texts : List (List ℕ)) (t : WorldState) →
        IsSound z s → IsTrace z s lines texts t → IsSound z t }
    ensures told { (z : Setting) (s : WorldState) (lines texts : List (List ℕ)) (t : WorldState)
        (line : List ℕ) (met : LineMet) → IsTrace z s lines texts t → Becomes z.bits line met →
        IsNoEvent met →
        IsTrace z s (lines ++ line ∷ []) (texts ++ met_text met ∷ []) t }
    ensures met { (z : Setting) (s : WorldState) (lines texts : List (List ℕ)) (t : WorldState)
        (line : List ℕ) (event : Event) (answer : Answer) (after : WorldState) → IsSound z s →
        IsTrace z s lines texts t → Becomes z.bits line (Met event answer) → IsFormed z event →
        WorldStep z t event answer after →
        IsTrace z s (lines ++ line ∷ []) (texts ++ met_text (Met event answer) ∷ []) after }
{
    every_list_of_events_answers_the_scan();
}
