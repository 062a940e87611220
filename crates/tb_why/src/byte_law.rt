//! Laws of the bytes of what is shown: without the lines that are told, the trace is left.

ghost use Rattle.std.specs.Prelude.{◌≡◌, List, [], ◌++◌, codes};
ghost use Rattle.tb_galley.specs.declared.Galley.{Galley};
ghost use Rattle.tb_galley.specs.Valid.{IsValid};
ghost use Rattle.tb_report.specs.declared.Totals.{Totals};
ghost use Rattle.tb_steps.specs.Run.{run_of};
ghost use Rattle.tb_why.specs.WhyRun.{Shown, happened_among};
ghost use Rattle.tb_why.specs.Summary.{summary_lines};
ghost use Rattle.tb_why.specs.ShownLines.{all_event_lines, all_shown_lines, ending_lines, told_text};
ghost use Rattle.tb_why.specs.Told.{without_told};
ghost use Rattle.tb_why.specs.PlainNames.{ArePlainNames};

/// If no name has a line feed in it, the text of what is shown, without each line whose first word is one of those of what is
/// told, is the text of the events alone, byte for byte; and nothing is left of the summary.
pub fn without_told_lines_the_events_are_left()
    ensures events { (xs : List Shown) → ArePlainNames xs → without_told (all_shown_lines xs) ≡ all_event_lines (happened_among xs) }
    ensures summary { (xs : List Shown) → ArePlainNames xs → without_told (summary_lines xs) ≡ [] }
{}

/// Of all that is told of a valid galley, its events with the tales between them and the summary, each line whose first word is
/// one of those of what is told is left out: then the lines of the run's events are left, which are those of its trace, byte
/// for byte. So it is of the whole report, from its first line to the last ones, whatever totals these give.
pub fn without_told_lines_the_trace_is_left()
    ensures events { (g : Galley) → IsValid g → without_told (told_text g) ≡ all_event_lines (run_of g).events }
    ensures report { (g : Galley) (t : Totals) → IsValid g → without_told (codes "report 1\n" ++ (told_text g ++ ending_lines (run_of g).end t)) ≡ codes "report 1\n" ++ (all_event_lines (run_of g).events ++ ending_lines (run_of g).end t) }
{}
