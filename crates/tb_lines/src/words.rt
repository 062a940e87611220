//! The words of lines and of `set` lines, and where each line may come.
ghost use Rattle.std.specs.Prelude.{◌≡◌, ◌<◌, ◌+◌, false, true, IsNone, Option};
ghost use Rattle.tb_lines.specs.Words.{word_of, counts_word, is_inner_word, later_phase, next_phase, count_with, is_full};
ghost use Rattle.tb_lines.specs.Fields.{parameter_of, form_of, missing_cause};
ghost use Rattle.tb_galley.specs.Line.{first_of};
ghost use Rattle.tb_lines.specs.Faults.{place_causes, item_causes};

use tb_galley::{Cause, Phase, spelled_value};

/// A word that begins a line.
#[derive(Clone, Copy)]
pub enum Word {
    Lines,
    Setting,
    Par,
    Word,
    Space,
    Pen,
    Endpar,
    End,
}

/// The words that may begin a line. Every other word is unknown.
const WORDS: [(&[u8], Word); 8] = [
    (b"word", Word::Word),
    (b"space", Word::Space),
    (b"pen", Word::Pen),
    (b"par", Word::Par),
    (b"endpar", Word::Endpar),
    (b"set", Word::Setting),
    (b"lines", Word::Lines),
    (b"end", Word::End),
];

/// A parameter of a text.
#[derive(Clone, Copy)]
pub enum Parameter {
    Hsize,
    Tolerance,
    LinePenalty,
    ClubPenalty,
    WidowPenalty,
    BaselineSkip,
    LineSkip,
    ParSkip,
}

/// How the value of a parameter is written.
#[derive(Clone, Copy)]
pub enum Form {
    /// As a dimension of at least `low` sp.
    Dimension { low: i64 },
    /// As an integer from 0 to `high`.
    Integer { high: i64 },
}

/// The names of the parameters.
const PARAMETERS: [(&[u8], Parameter); 8] = [
    (b"hsize", Parameter::Hsize),
    (b"tolerance", Parameter::Tolerance),
    (b"linepenalty", Parameter::LinePenalty),
    (b"clubpenalty", Parameter::ClubPenalty),
    (b"widowpenalty", Parameter::WidowPenalty),
    (b"baselineskip", Parameter::BaselineSkip),
    (b"lineskip", Parameter::LineSkip),
    (b"parskip", Parameter::ParSkip),
];

/// The word that this text spells, or `None`.
#[tactic(auto, unfolding(crate::specs::Words::word_of))]
pub(crate) fn word_of(text: &[u8]) -> Option<Word>
    ensures { result ≡ word_of text.now }
{
    spelled_value(&WORDS, text)
}

/// The parameter of this name.
#[tactic(auto, unfolding(crate::specs::Fields::parameter_of))]
pub(crate) fn parameter_of(text: &[u8]) -> Option<Parameter>
    ensures { result ≡ parameter_of text.now }
{
    spelled_value(&PARAMETERS, text)
}

/// How the value of a parameter is written.
pub(crate) fn form_of(parameter: Parameter) -> Form
    ensures { result ≡ form_of parameter }
{
    match parameter {
        Parameter::Hsize => Form::Dimension { low: 1 },
        Parameter::Tolerance | Parameter::LinePenalty => Form::Integer { high: 10_000 },
        Parameter::ClubPenalty | Parameter::WidowPenalty => Form::Integer { high: 5_000 },
        Parameter::BaselineSkip | Parameter::LineSkip | Parameter::ParSkip => Form::Dimension {
            low: 0,
        },
    }
}

// A line that begins with this word counts.
fn counts(word: Word) -> bool
    ensures { result ≡ counts_word word }
{
    matches!(word, Word::Par | Word::Word | Word::Space | Word::Pen)
}

fn is_inner(word: Word) -> bool
    ensures { result ≡ is_inner_word word }
{
    matches!(word, Word::Word | Word::Space | Word::Pen)
}

/// The cause of a refusal if a field after this word is missing.
pub(crate) fn missing_cause(word: Word) -> Cause
    ensures { result ≡ missing_cause word }
{
    match word {
        Word::Lines => Cause::NoHeader,
        _ => Cause::MissingField,
    }
}

/// Why the word may not come in this phase.
pub(crate) fn place_cause(phase: Phase, word: Option<Word>) -> Option<Cause>
    ensures { result ≡ first_of (place_causes phase word) }
{
    match phase {
        Phase::Start => start_cause(word),
        Phase::Sets => sets_cause(word),
        Phase::Items | Phase::AfterClear | Phase::AfterTwo => items_cause(word),
        Phase::Inside => par_cause(word),
        Phase::Ended => Some(Cause::AfterEnd),
    }
}

fn start_cause(word: Option<Word>) -> Option<Cause>
    ensures { result ≡ first_of (place_causes Phase.Start word) }
{
    match word {
        Some(Word::Lines) => None,
        _ => Some(Cause::NoHeader),
    }
}

fn sets_cause(word: Option<Word>) -> Option<Cause>
    ensures { result ≡ first_of (place_causes Phase.Sets word) }
{
    match word {
        None | Some(Word::Lines) => Some(Cause::UnknownWord),
        Some(Word::Setting | Word::Par | Word::End) => None,
        Some(Word::Endpar) => Some(Cause::StrayEndpar),
        Some(_) => Some(Cause::NotInPar),
    }
}

fn items_cause(word: Option<Word>) -> Option<Cause>
    ensures { result ≡ first_of (place_causes Phase.Items word) }
{
    match word {
        None | Some(Word::Lines) => Some(Cause::UnknownWord),
        Some(Word::Setting) => Some(Cause::SetAfterItem),
        Some(Word::Par | Word::End) => None,
        Some(Word::Endpar) => Some(Cause::StrayEndpar),
        Some(_) => Some(Cause::NotInPar),
    }
}

fn par_cause(word: Option<Word>) -> Option<Cause>
    ensures { result ≡ first_of (place_causes Phase.Inside word) }
{
    match word {
        None | Some(Word::Lines) => Some(Cause::UnknownWord),
        Some(Word::Setting) => Some(Cause::NotInPar),
        Some(Word::Par) => Some(Cause::NestedPar),
        Some(Word::End) => Some(Cause::UnclosedPar),
        Some(_) => None,
    }
}

const MAX_ITEMS: u32 = 25_000;

const MAX_PARAGRAPH: usize = 5_000;

fn is_full(inside: Option<usize>) -> bool
    ensures { result ≡ is_full inside }
{
    match inside {
        Some(count) => count >= MAX_PARAGRAPH,
        None => false,
    }
}

/// Whether the line is one too many, after this many lines that count, and this many items of the open paragraph.
pub(crate) fn item_cause(count: u32, inside: Option<usize>, word: Word) -> Option<Cause>
    ensures value { result ≡ first_of (item_causes count inside (Option.Some word)) }
    ensures room { IsNone result → is_inner_word word ≡ true → is_full inside ≡ false }
{
    if (counts(word) && count >= MAX_ITEMS) || (is_inner(word) && is_full(inside)) {
        Some(Cause::Items)
    } else {
        None
    }
}

// The phase after a line; once the end came, it stays.
fn later_phase(phase: Phase, next: Phase) -> Phase
    ensures { result ≡ later_phase phase next }
{
    match phase {
        Phase::Ended => Phase::Ended,
        _ => next,
    }
}

/// The phase after a line of this word.
pub(crate) fn next_phase(phase: Phase, word: Word) -> Phase
    ensures { result ≡ next_phase phase (Option.Some word) }
{
    match word {
        Word::Lines => later_phase(phase, Phase::Sets),
        Word::Par => later_phase(phase, Phase::Inside),
        Word::Endpar => later_phase(phase, Phase::Items),
        Word::End => Phase::Ended,
        _ => phase,
    }
}

/// How many lines count, with this one.
pub(crate) fn count_with(count: u32, word: Word) -> u32
    requires { count < 4294967295 }
    ensures { result ≡ count_with count (Option.Some word) }
{
    if counts(word) { count + 1 } else { count }
}
