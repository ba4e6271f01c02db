ghost use Rattle.std.specs.Prelude.{◌≡◌, ℕ, ◌≤◌, ◌++◌, List, true, false, sum_by};
ghost use Rattle.std.specs.List.{AllByRecursion};
ghost use Rattle.hamming_model.specs.Scan.{Ask};
ghost use Rattle.hamming_model.specs.declared.limits.TheConstants.{ENTRIES_MOST};
ghost use Rattle.part_layout.specs.Ranges.{IsConfig};
ghost use Rattle.part_layout.specs.declared.config.Config.{Config};
ghost use Rattle.byte_lines.specs.Lines.{lines};
ghost use Rattle.query_protocol.specs.Written.{IsWritten};
ghost use Rattle.session_model.specs.Entries.{Exchange};
ghost use Rattle.session_model.specs.Ledger.{Rise};
ghost use Rattle.session_model.specs.Run.{IsRunAlone, lines_of, before_quit, has_quit};
ghost use Rattle.load_lines.specs.Lines.{load_lines};
ghost use Rattle.load_sums.specs.Sums.{lacks_of};
ghost use Rattle.load_model.specs.Told.{replies_of, AreBoundsDrawn, AddUpToLoad};

/// No line of a workload ends the session: none of those that end in a beginning of its text, and none of all of them.
pub fn no_line_of_a_load_quits()
    ensures beginning { (config : Config) (number keys : ℕ) (bytes rest : List ℕ) →
        IsConfig config → keys ≤ ENTRIES_MOST →
        load_lines config.bits number keys ≡ bytes ++ rest →
        has_quit config (lines bytes false) ≡ false }
    ensures whole { (config : Config) (number keys : ℕ) → IsConfig config → keys ≤ ENTRIES_MOST →
        before_quit config (lines (load_lines config.bits number keys) true)
        ≡ lines (load_lines config.bits number keys) true }
{}

/// The replies to the lines of a workload hold numbers of 64 bits, so that they can be read back.
pub fn replies_to_a_load()
    ensures { (config : Config) (number keys : ℕ) (exchanges : List Exchange) (rise : Rise) →
        IsConfig config → keys ≤ ENTRIES_MOST →
        lines_of exchanges ≡ lines (load_lines config.bits number keys) true →
        IsRunAlone config exchanges rise → AllByRecursion IsWritten (replies_of exchanges) }
{}

/// Where no reply is that there was no memory, the hits and the bound that are told are those of the workload, and the reads lie
/// between them.
pub fn sums_of_a_load()
    ensures { (config : Config) (number keys : ℕ) (exchanges : List Exchange) (rise : Rise) →
        IsConfig config → keys ≤ ENTRIES_MOST → config.entries ≡ ENTRIES_MOST →
        lines_of exchanges ≡ lines (load_lines config.bits number keys) true →
        IsRunAlone config exchanges rise → sum_by lacks_of (replies_of exchanges) ≡ 0 →
        AddUpToLoad config number keys (replies_of exchanges) }
{}

/// Questions on rows have one bound, so that the bound of a load is a function of its words, as its hits are.
pub fn a_load_has_one_bound()
    ensures { (config : Config) (rows : List (ℕ × List ℕ)) (questions : List Ask) (one other : ℕ) →
        AreBoundsDrawn config rows questions one → AreBoundsDrawn config rows questions other →
        one ≡ other }
{}
