//! What the words ask for, said of the options and not of their places.

ghost use Rattle.std.specs.Prelude.{◌≡◌, ◌≢◌, ◌-◌, ℕ, List, [], ◌∷◌, ◌++◌, true, take, Some, Err};
ghost use Rattle.std.specs.Result.{result_ok};
ghost use Rattle.command_line.specs.CommandWords.{options_asked, asked_after};
ghost use Rattle.command_line.specs.declared.command.CommandWord.{CommandWord};
ghost use Rattle.command_line.specs.WrittenOptions.{Written, has_no_equals, fault_in, IsNoneBut};

/// The order of two options is free: where neighbours with different names change places, the same is asked for.
pub fn options_in_any_order()
    ensures { (command : CommandWord) (end : ℕ) (before later : List Written)
        (one other : Written) → one.name ≢ other.name →
        result_ok (asked_after command end before (one ∷ other ∷ later)) ≡
        result_ok (asked_after command end before (other ∷ one ∷ later)) }
{}

/// An option asks the same as two words and as one: `--name=VALUE` is `--name VALUE`.
pub fn options_in_either_form()
    ensures { (command : CommandWord) (name value : List ℕ) (words : List (List ℕ)) →
        has_no_equals name ≡ true →
        result_ok (options_asked command ((name ++ 61 ∷ value) ∷ words)) ≡
        result_ok (options_asked command (name ∷ value ∷ words)) }
{}

/// The word at fault is the first: where the words after the command are at fault as they are read from left to right, that place is
/// told, and the words before it alone have no fault, or just that a value is wanting there. The parts are judged after that.
pub fn the_first_fault_is_told()
    ensures { (command : CommandWord) (options : List (List ℕ)) (place : ℕ) →
        fault_in command options ≡ Some place → (options_asked command options ≡ Err place) ×
        IsNoneBut place (fault_in command (take (place - 2) options)) }
{}
