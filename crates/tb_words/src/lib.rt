//! The words of the command line.
//!
//! They are read by one command of `clap`, with the options `--mode` and `--count`. [`read_words`] gives the mode that
//! they ask for.
#![tactic(auto)]

ghost use Rattle.std.specs.Prelude.{◌≡◌, Some, None, map, string_bytes, IfOk, IfSome, IsErrOf};
ghost use Rattle.clap.specs.Words.{app_of, found_of, kind_of, rows_of};
ghost use Rattle.tb_words.specs.Words.{asked, command, count_in, fault_by, mode_in, mode_named, IsServed, HasCount, IsCount};
ghost use Rattle.tb_words.specs.declared.WordsFault.TheVariants.{Memory};

use clap::builder::ValueParser;
use clap::error::ErrorKind;
use clap::{Arg, ArgAction, ArgMatches, Command};
use std::alloc::{AllocError, Global};

mod rows;

pub use rows::check_words;

/// What the program does.
#[derive(Clone, Copy, Debug, PartialEq, Eq)]
pub enum Mode {
    /// Reads a galley and writes its report.
    Report,
    /// Reads a galley and writes its report, with a line for each place that was tried.
    Trace,
    /// Reads a galley and writes its report, with a line for each text column that says how good it is, and their sum.
    Rate,
    /// Reads a galley and writes its report as a trace, with lines between that tell why each float and marginal note goes where
    /// it goes, and a line for each float at the end.
    Why,
    /// Reads a galley, and writes the page breaks that make its demerits least and the report of its run with them.
    Best,
    /// Reads a galley and writes its canonical text.
    Print,
    /// Reads a text of paragraphs and writes the galley of their lines.
    Lines,
    /// Reads a galley and writes its pages as a DVI file.
    Dvi,
    /// Reads a DVI file and writes what its pages show, line by line.
    DviList,
    /// Reads a galley and writes the report of its run under plain TeX's page makeup.
    Plain,
    /// Reads nothing, runs the generated galley of this many items, 1 to 40000, and writes one line about it.
    Generate { count: u32 },
}

/// Why there is no mode.
#[derive(Clone, Copy, Debug, PartialEq, Eq)]
pub enum WordsFault {
    /// The command refuses the words, or the mode is none that is served.
    Refused,
    /// There was no memory.
    Memory,
}

impl From<AllocError> for WordsFault {
    ghost from_gives = { λ _ e. e ≡ Memory };

    fn from(_: AllocError) -> Self {
        WordsFault::Memory
    }
}

impl From<clap::Error> for WordsFault {
    ghost from_gives = { λ error e. e ≡ fault_by (kind_of error) };

    fn from(error: clap::Error) -> Self {
        if error.kind() == ErrorKind::OutOfMemory {
            WordsFault::Memory
        } else {
            WordsFault::Refused
        }
    }
}

/// Which mode the command line asks for: the program's name and the options after it.
///
/// An empty list is read as the name alone. Returns `Refused` exactly if the command refuses the options for another cause
/// than memory, or the program has no such mode; requests for help are refused too.
#[tactic(auto, unfolding(crate::specs::Words::asked))]
pub fn read_words(alloc: Global, words: &[String]) -> Result<Mode, WordsFault>
    ensures asked { IfOk result (λ mode. asked (map string_bytes words.now) ≡ Some mode) }
    ensures refused { IsErrOf result WordsFault.Refused → asked (map string_bytes words.now) ≡ None }
    ensures served { IfOk result IsServed }
{
    let command = command(alloc)?;
    let matches = command.try_get_matches_from(words)?;
    match mode_in(&matches) {
        Some(mode) => Ok(mode),
        None => Err(WordsFault::Refused),
    }
}

// The program's command.
fn command<'a>(alloc: Global) -> Result<Command<'a>, AllocError>
    ensures { IfOk result (λ c. app_of c ≡ command) }
{
    let mode = Arg::new(alloc, "mode")
        .long("mode")
        .action(ArgAction::Set)
        .default_value("report");
    let count = Arg::new(alloc, "count")
        .long("count")
        .action(ArgAction::Set)
        .value_parser(ValueParser::signed(1, 40_000))
        .default_value("1000");
    Command::new(alloc, "galley_pages").arg(mode)?.arg(count)
}

// The mode that was matched, if it is served.
fn mode_in(matches: &ArgMatches<'_>) -> Option<Mode>
    requires { HasCount (found_of matches.now) }
    ensures mode { result ≡ mode_in (rows_of (found_of matches.now)) }
    ensures served { IfSome result IsServed }
{
    let count = count_in(matches);
    let name = matches.get_str("mode")?;
    mode_named(name, count)
}

// The count that was matched.
fn count_in(matches: &ArgMatches<'_>) -> u32
    requires { HasCount (found_of matches.now) }
    ensures count { result ≡ count_in (rows_of (found_of matches.now)) }
    ensures served { IsCount result }
{
    match matches.get_one::<u32>("count") {
        Some(count) => count,
        None => unreachable!(),
    }
}

// The mode of this name, if it is served.
fn mode_named(name: &str, count: u32) -> Option<Mode>
    ensures { result ≡ mode_named name.now count }
{
    match name {
        "report" => Some(Mode::Report),
        "trace" => Some(Mode::Trace),
        "rate" => Some(Mode::Rate),
        "why" => Some(Mode::Why),
        "best" => Some(Mode::Best),
        "print" => Some(Mode::Print),
        "lines" => Some(Mode::Lines),
        "dvi" => Some(Mode::Dvi),
        "dvilist" => Some(Mode::DviList),
        "plain" => Some(Mode::Plain),
        "gen" => Some(Mode::Generate { count }),
        _ => None,
    }
}
