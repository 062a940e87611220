//! The top call.
ghost use Rattle.std.specs.Prelude.{◌≡◌, ◌⊎◌, Some, None, map, string_bytes, IfOk, IfErr};
ghost use Rattle.std.specs.Io.KnownBytes.{Keeps};
ghost use Rattle.tb_io.specs.Faults.{Rose};
ghost use Rattle.tb_galley.specs.Valid.{IsValid};
ghost use Rattle.tb_words.specs.Words.{asked, IsCount};
ghost use Rattle.tb_top.specs.Outcome.{Stream, stream, Outcome, StandsAfter, StopsReading, Succeeds, IsAnswer, Says};
ghost use Rattle.tb_top.specs.Refusal.{served_status, served_line, refusal_status, refusal_line, IsNoGalley, GivesGalley};

use crate::dvi_listing::listing_of;
use crate::dvi_pages::paginate_dvi;
use crate::input::{read_input, read_text};
use crate::refusal::Refusal;
use crate::summary::summary_text;
use crate::{
    Status, View, best_pages, first_unsuited, paginate, paginate_plain, rate_pages, why_pages,
};
use std::alloc::Global;
use tb_galley::{Galley, new_reader, print};
use tb_generator::generate;
use tb_io::{Sink, SinkFault, Source, write_all};
use tb_lines::lines_galley;
use tb_words::{Mode, read_words};

/// Does what the words ask for: reads a galley from `source` and writes its report, its report with the places that were
/// tried, its best page breaks with the report of the run with them, its report under plain TeX's page makeup, its canonical
/// text or the DVI file of its pages to `out`; or reads a text of paragraphs and writes the galley of their lines; or reads a
/// DVI file and writes what its pages show; or runs a generated galley and writes its totals. If it cannot, it says on `err`
/// why not.
///
/// `words` are the program's name and the words after it; an empty list is read as the name alone. They are read by one
/// command of `clap`, as [`tb_words`] says. The whole galley is read and parsed before anything is written, in pieces of at
/// most 4096 bytes. Reading stops at the end of input, or once more than 8388608 bytes were taken, and no more than 8388608 +
/// 4096 are taken, whatever is returned. Each status but `Done` writes one line to `err`, after all else; if `err` fails the
/// status stays, and if there is no memory for the line it becomes `Memory`.
///
/// After `Done` in report, trace, dvi or gen mode the run of the galley kept the laws of whole runs: each box, rule, float and note
/// shipped once, the text in its order, and the floats of each class (in release 2014 of each class and width) in theirs, but
/// for those that a break carried; no float without `!` was placed past the limits of its area, and all float lists were
/// empty at each change of columns and at the end. The DVI file of the run, if each page is in range and it has at most
/// 8388608 bytes, lists exactly the placements of the run, page by page. `DeadCycles` comes only if `maxdeadcycles` is less
/// than 16 plus 4 for each float, marginal note, clearpage, onecolumn and twocolumn.
/// After `Done` in plain mode each box, rule and float shipped once, and the text in its order; `Unsuited` is returned exactly
/// if an item of the galley is not supported there.
pub fn run<S: Source, K: Sink, E: Sink>(
    alloc: Global,
    words: &[String],
    source: &mut S,
    out: &mut K,
    err: &mut E,
) -> Status
    // What was read, and what holds at the ends.
    ensures outcome { Outcome (asked (map string_bytes words.now)) result
        (stream (S.left source.old) (S.left source.new) (S.faults source.old) (S.faults source.new))
        (stream (K.held out.old) (K.held out.new) (K.faults out.old) (K.faults out.new))
        (stream (E.held err.old) (E.held err.new) (E.faults err.old) (E.faults err.new)) }

    // Reading stops, whatever is returned.
    ensures stops { StopsReading (S.left source.old) (S.left source.new) }

    // When each refusal comes that the input does not decide.
    ensures words { result ≡ Status.Words → asked (map string_bytes words.now) ≡ None }
    ensures refused { asked (map string_bytes words.now) ≡ None → (result ≡ Status.Words) ⊎ (result ≡ Status.Memory) }
    ensures read_fault { result ≡ Status.ReadFault → Rose (S.faults source.old) (S.faults source.new) }
    ensures write_fault { result ≡ Status.WriteFault → Rose (K.faults out.old) (K.faults out.new) }

    // If nothing fails, the mode and the input decide.
    ensures complete { (mode : Mode) → Succeeds (asked (map string_bytes words.now)) mode
        (stream (S.left source.old) (S.left source.new) (S.faults source.old) (S.faults source.new))
        (stream (K.held out.old) (K.held out.new) (K.faults out.old) (K.faults out.new))
        → IsAnswer mode result (S.left source.old) }
{
    match serve(alloc, words, source, out) {
        Ok(()) => Status::Done,
        Err(refusal) => tell(alloc, &refusal, err),
    }
}

// The run without its line on `err`.
fn serve<S: Source, K: Sink>(
    alloc: Global,
    words: &[String],
    source: &mut S,
    out: &mut K,
) -> Result<(), Refusal>
    ensures stands { StandsAfter (asked (map string_bytes words.now)) (served_status result)
        (stream (S.left source.old) (S.left source.new) (S.faults source.old) (S.faults source.new))
        (stream (K.held out.old) (K.held out.new) (K.faults out.old) (K.faults out.new))
        (served_line result) }
    ensures stops { StopsReading (S.left source.old) (S.left source.new) }
{
    let mode = read_words(alloc, words)?;
    match mode {
        Mode::Report => write_report(alloc, source, out),
        Mode::Trace => write_trace(alloc, source, out),
        Mode::Rate => write_rated(alloc, source, out),
        Mode::Why => write_told(alloc, source, out),
        Mode::Best => write_best(alloc, source, out),
        Mode::Print => write_canonical(alloc, source, out),
        Mode::Lines => write_lines(alloc, source, out),
        Mode::Dvi => write_dvi(alloc, source, out),
        Mode::DviList => write_listing(alloc, source, out),
        Mode::Plain => write_makeup(alloc, source, out),
        Mode::Generate { count } => write_summary(alloc, count, out),
    }
}

// Reads a galley and writes its report.
fn write_report<S: Source, K: Sink>(
    alloc: Global,
    source: &mut S,
    out: &mut K,
) -> Result<(), Refusal>
    ensures stands { StandsAfter (Some Mode.Report) (served_status result)
        (stream (S.left source.old) (S.left source.new) (S.faults source.old) (S.faults source.new))
        (stream (K.held out.old) (K.held out.new) (K.faults out.old) (K.faults out.new))
        (served_line result) }
    ensures stops { StopsReading (S.left source.old) (S.left source.new) }
{
    let galley = read_galley(alloc, source)?;
    paginate(alloc, &galley, View::Report, out)?;
    Ok(())
}

// Reads a galley and writes its report with the places that were tried.
fn write_trace<S: Source, K: Sink>(
    alloc: Global,
    source: &mut S,
    out: &mut K,
) -> Result<(), Refusal>
    ensures stands { StandsAfter (Some Mode.Trace) (served_status result)
        (stream (S.left source.old) (S.left source.new) (S.faults source.old) (S.faults source.new))
        (stream (K.held out.old) (K.held out.new) (K.faults out.old) (K.faults out.new))
        (served_line result) }
    ensures stops { StopsReading (S.left source.old) (S.left source.new) }
{
    let galley = read_galley(alloc, source)?;
    paginate(alloc, &galley, View::Trace, out)?;
    Ok(())
}

// Reads a galley and writes its report with the ratings of its text columns.
fn write_rated<S: Source, K: Sink>(
    alloc: Global,
    source: &mut S,
    out: &mut K,
) -> Result<(), Refusal>
    ensures stands { StandsAfter (Some Mode.Rate) (served_status result)
        (stream (S.left source.old) (S.left source.new) (S.faults source.old) (S.faults source.new))
        (stream (K.held out.old) (K.held out.new) (K.faults out.old) (K.faults out.new))
        (served_line result) }
    ensures stops { StopsReading (S.left source.old) (S.left source.new) }
{
    let galley = read_galley(alloc, source)?;
    rate_pages(alloc, &galley, out)?;
    Ok(())
}

// Reads a galley and writes its report with what is told of the run.
fn write_told<S: Source, K: Sink>(alloc: Global, source: &mut S, out: &mut K) -> Result<(), Refusal>
    ensures stands { StandsAfter (Some Mode.Why) (served_status result)
        (stream (S.left source.old) (S.left source.new) (S.faults source.old) (S.faults source.new))
        (stream (K.held out.old) (K.held out.new) (K.faults out.old) (K.faults out.new))
        (served_line result) }
    ensures stops { StopsReading (S.left source.old) (S.left source.new) }
{
    let galley = read_galley(alloc, source)?;
    why_pages(alloc, &galley, out)?;
    Ok(())
}

// Reads a galley and writes its best page breaks, and the report of its run with them.
fn write_best<S: Source, K: Sink>(alloc: Global, source: &mut S, out: &mut K) -> Result<(), Refusal>
    ensures stands { StandsAfter (Some Mode.Best) (served_status result)
        (stream (S.left source.old) (S.left source.new) (S.faults source.old) (S.faults source.new))
        (stream (K.held out.old) (K.held out.new) (K.faults out.old) (K.faults out.new))
        (served_line result) }
    ensures stops { StopsReading (S.left source.old) (S.left source.new) }
{
    let galley = read_galley(alloc, source)?;
    best_pages(alloc, &galley, out)?;
    Ok(())
}

// Reads a galley and writes its canonical text.
fn write_canonical<S: Source, K: Sink>(
    alloc: Global,
    source: &mut S,
    out: &mut K,
) -> Result<(), Refusal>
    ensures stands { StandsAfter (Some Mode.Print) (served_status result)
        (stream (S.left source.old) (S.left source.new) (S.faults source.old) (S.faults source.new))
        (stream (K.held out.old) (K.held out.new) (K.faults out.old) (K.faults out.new))
        (served_line result) }
    ensures stops { StopsReading (S.left source.old) (S.left source.new) }
{
    let galley = read_galley(alloc, source)?;
    let text = print(alloc, &galley)?;
    write_all(out, &text)?;
    Ok(())
}

// Reads a text of paragraphs and writes the galley of their lines.
fn write_lines<S: Source, K: Sink>(
    alloc: Global,
    source: &mut S,
    out: &mut K,
) -> Result<(), Refusal>
    ensures stands { StandsAfter (Some Mode.Lines) (served_status result)
        (stream (S.left source.old) (S.left source.new) (S.faults source.old) (S.faults source.new))
        (stream (K.held out.old) (K.held out.new) (K.faults out.old) (K.faults out.new))
        (served_line result) }
    ensures stops { StopsReading (S.left source.old) (S.left source.new) }
{
    let input = read_text(alloc, source)?;
    let galley = lines_galley(alloc, &input)?;
    write_all(out, &galley)?;
    Ok(())
}

// Reads a galley and writes its pages as a DVI file.
fn write_dvi<S: Source, K: Sink>(alloc: Global, source: &mut S, out: &mut K) -> Result<(), Refusal>
    ensures stands { StandsAfter (Some Mode.Dvi) (served_status result)
        (stream (S.left source.old) (S.left source.new) (S.faults source.old) (S.faults source.new))
        (stream (K.held out.old) (K.held out.new) (K.faults out.old) (K.faults out.new))
        (served_line result) }
    ensures stops { StopsReading (S.left source.old) (S.left source.new) }
{
    let galley = read_galley(alloc, source)?;
    paginate_dvi(alloc, &galley, out)?;
    Ok(())
}

// Reads a galley and writes the report of its run under plain TeX's page makeup, which serves each of its items.
fn write_makeup<S: Source, K: Sink>(
    alloc: Global,
    source: &mut S,
    out: &mut K,
) -> Result<(), Refusal>
    ensures stands { StandsAfter (Some Mode.Plain) (served_status result)
        (stream (S.left source.old) (S.left source.new) (S.faults source.old) (S.faults source.new))
        (stream (K.held out.old) (K.held out.new) (K.faults out.old) (K.faults out.new))
        (served_line result) }
    ensures stops { StopsReading (S.left source.old) (S.left source.new) }
{
    let galley = read_galley(alloc, source)?;
    if let Some(line) = first_unsuited(&galley) {
        return Err(Refusal::Unsuited { line });
    }
    paginate_plain(alloc, &galley, View::Report, out)?;
    Ok(())
}

// Reads a DVI file and writes what its pages show.
fn write_listing<S: Source, K: Sink>(
    alloc: Global,
    source: &mut S,
    out: &mut K,
) -> Result<(), Refusal>
    ensures stands { StandsAfter (Some Mode.DviList) (served_status result)
        (stream (S.left source.old) (S.left source.new) (S.faults source.old) (S.faults source.new))
        (stream (K.held out.old) (K.held out.new) (K.faults out.old) (K.faults out.new))
        (served_line result) }
    ensures stops { StopsReading (S.left source.old) (S.left source.new) }
{
    let input = read_text(alloc, source)?;
    let listing = listing_of(alloc, &input)?;
    write_all(out, &listing)?;
    Ok(())
}

// Runs a generated galley, and writes one line about it. Nothing is read.
fn write_summary<K: Sink>(alloc: Global, count: u32, out: &mut K) -> Result<(), Refusal>
    requires { IsCount count }
    ensures { (source : Stream) → Keeps source.before source.after → StandsAfter (Some (Mode.Generate count)) (served_status result) source
        (stream (K.held out.old) (K.held out.new) (K.faults out.old) (K.faults out.new))
        (served_line result) }
{
    let galley = generate(alloc, count)?;
    let totals = paginate(alloc, &galley, View::Silent, out)?;
    let line = summary_text(alloc, count, &totals)?;
    write_all(out, &line)?;
    Ok(())
}

// Reads the galley in the input, of which no more is kept than what its lines gave.
fn read_galley<S: Source>(alloc: Global, source: &mut S) -> Result<Galley, Refusal>
    ensures read { IfOk result (GivesGalley (stream (S.left source.old) (S.left source.new) (S.faults source.old) (S.faults source.new))) }
    ensures valid { IfOk result IsValid }
    ensures refused { IfErr result (IsNoGalley (stream (S.left source.old) (S.left source.new) (S.faults source.old) (S.faults source.new))) }
    ensures stops { StopsReading (S.left source.old) (S.left source.new) }
{
    let mut reader = new_reader(alloc);
    read_input(source, &mut reader)?;
    let galley = reader.finish()?;
    Ok(galley)
}

// Writes the line of a refusal to `err`.
fn tell<E: Sink>(alloc: Global, refusal: &Refusal, err: &mut E) -> Status
    ensures { Says (refusal_status refusal.now) (refusal_line refusal.now) result
        (stream (E.held err.old) (E.held err.new) (E.faults err.old) (E.faults err.new)) }
{
    let Ok(line) = refusal.line(alloc) else {
        return Status::Memory;
    };
    match write_all(err, &line) {
        Ok(()) => refusal.status(),
        Err(SinkFault::Failed) => refusal.status(),
        Err(SinkFault::Memory) => Status::Memory,
    }
}
