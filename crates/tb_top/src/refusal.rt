//! Why a run was refused, until its line is written.
ghost use Rattle.std.specs.Prelude.{◌≡◌, ◌++◌, IfOk, OnOk};
ghost use Rattle.tb_plain.specs.Report.{unsuited_text};
ghost use Rattle.tb_top.specs.Answer.{answer_for_cause, bare_text, pool_full_text};
ghost use Rattle.tb_top.specs.Refusal.{refusal_status, page_status, lines_status, input_status, words_status, output_status, refusal_text, page_text, refusal_line, best_fault, dvi_fault, makeup_refusal};
ghost use Rattle.tb_top.specs.declared.refusal.Refusal.TheVariants.{Words, Input, Galley, Pages, Lines, Output, Memory};

use crate::chosen_pages::BestPagesFault;
use crate::dvi_pages::DviRunFault;
use crate::dvi_refusal::{DviRefusal, dvi_status, put_dvi};
use crate::input::InputFault;
use crate::makeup_pages::PlainRunFault;
use crate::{PageFault, Status};
use std::alloc::{AllocError, Global};
use tb_galley::{Cause, GalleyFault, is_range_cause, put_fault};
use tb_io::SinkFault;
use tb_lines::{LinesRefusal, put_refusal};
use tb_text::put_counted;
use tb_words::WordsFault;

/// Why a run was refused, with what its line on `err` shows.
#[derive(Drop)]
pub enum Refusal {
    /// The words ask for no mode.
    Words(WordsFault),
    /// The input was not read.
    Input(InputFault),
    /// What was read is no galley, or is a DVI file that is too long.
    Galley(GalleyFault),
    /// The pages stopped before their end.
    Pages(PageFault),
    /// What was read has no galley of lines.
    Lines(LinesRefusal),
    /// There is no DVI file, or no listing of one.
    Dvi(DviRefusal),
    /// The item on this line is not served by plain TeX's page makeup.
    Unsuited { line: u32 },
    /// The search for the best pages came to too many states.
    Choices,
    /// A text was not written.
    Output(SinkFault),
    /// There was no memory for what was to be written.
    Memory,
}

impl From<WordsFault> for Refusal {
    ghost from_gives = { λ fault e. e ≡ Words fault };

    fn from(fault: WordsFault) -> Self {
        Refusal::Words(fault)
    }
}

impl From<InputFault> for Refusal {
    ghost from_gives = { λ fault e. e ≡ Input fault };

    fn from(fault: InputFault) -> Self {
        Refusal::Input(fault)
    }
}

impl From<GalleyFault> for Refusal {
    ghost from_gives = { λ fault e. e ≡ Galley fault };

    fn from(fault: GalleyFault) -> Self {
        Refusal::Galley(fault)
    }
}

impl From<PageFault> for Refusal {
    ghost from_gives = { λ fault e. e ≡ Pages fault };

    fn from(fault: PageFault) -> Self {
        Refusal::Pages(fault)
    }
}

impl From<LinesRefusal> for Refusal {
    ghost from_gives = { λ refusal e. e ≡ Lines refusal };

    fn from(refusal: LinesRefusal) -> Self {
        Refusal::Lines(refusal)
    }
}

impl From<DviRunFault> for Refusal {
    ghost from_gives = { λ fault e. e ≡ dvi_fault fault };

    fn from(fault: DviRunFault) -> Self {
        match fault {
            DviRunFault::Pages(fault) => Refusal::Pages(fault),
            DviRunFault::TooFar { page } => Refusal::Dvi(DviRefusal::TooFar { page }),
        }
    }
}

impl From<PlainRunFault> for Refusal {
    ghost from_gives = { λ fault e. e ≡ makeup_refusal fault };

    fn from(fault: PlainRunFault) -> Self {
        Refusal::Pages(match fault {
            PlainRunFault::PageLimit { pages } => PageFault::PageLimit { pages },
            PlainRunFault::NodeLimit { count } => PageFault::NodeLimit { count },
            PlainRunFault::WriteFault => PageFault::WriteFault,
            PlainRunFault::Memory => PageFault::Memory,
        })
    }
}

impl From<BestPagesFault> for Refusal {
    ghost from_gives = { λ fault e. e ≡ best_fault fault };

    fn from(fault: BestPagesFault) -> Self {
        match fault {
            BestPagesFault::Pages(fault) => Refusal::Pages(fault),
            BestPagesFault::Choices => Refusal::Choices,
        }
    }
}

impl From<SinkFault> for Refusal {
    ghost from_gives = { λ fault e. e ≡ Output fault };

    fn from(fault: SinkFault) -> Self {
        Refusal::Output(fault)
    }
}

impl From<AllocError> for Refusal {
    ghost from_gives = { λ _ e. e ≡ Memory };

    fn from(_: AllocError) -> Self {
        Refusal::Memory
    }
}

impl Refusal {
    /// The status of the run.
    pub fn status(&self) -> Status
        ensures { result ≡ refusal_status self.now }
    {
        match self {
            Refusal::Words(fault) => words_status(*fault),
            Refusal::Input(fault) => input_status(*fault),
            Refusal::Galley(GalleyFault::At(fault)) => cause_status(fault.cause),
            Refusal::Galley(GalleyFault::Memory) => Status::Memory,
            Refusal::Pages(fault) => page_status(*fault),
            Refusal::Lines(refusal) => lines_status(refusal),
            Refusal::Dvi(refusal) => dvi_status(*refusal),
            Refusal::Unsuited { line: _ } => Status::Unsuited,
            Refusal::Choices => Status::Choices,
            Refusal::Output(fault) => output_status(*fault),
            Refusal::Memory => Status::Memory,
        }
    }

    /// Its line on `err`, with the line feed.
    pub fn line(&self, alloc: Global) -> Result<Vec<u8>, AllocError>
        ensures { IfOk result (λ line. line.items ≡ refusal_line self.now) }
    {
        let mut line = b"galley_pages: ".to_vec(alloc)?;
        self.put_text(&mut line)?;
        line.extend_from_slice(b"\n")?;
        Ok(line)
    }

    fn put_text(&self, line: &mut Vec<u8>) -> Result<(), AllocError>
        ensures { OnOk result (line.new.items ≡ line.old.items ++ refusal_text self.now) }
    {
        match self {
            Refusal::Words(fault) => line.extend_from_slice(bare_text(words_status(*fault))),
            Refusal::Input(fault) => line.extend_from_slice(bare_text(input_status(*fault))),
            Refusal::Galley(GalleyFault::At(fault)) => put_fault(line, fault),
            Refusal::Galley(GalleyFault::Memory) => line.extend_from_slice(bare_text(
                Status::Memory,
            )),
            Refusal::Pages(fault) => put_page_fault(line, *fault),
            Refusal::Lines(refusal) => put_refusal(line, refusal),
            Refusal::Dvi(refusal) => put_dvi(line, *refusal),
            Refusal::Unsuited { line: at } => put_unsuited(line, *at),
            Refusal::Choices => line.extend_from_slice(b"more than 1000000 states"),
            Refusal::Output(fault) => line.extend_from_slice(bare_text(output_status(*fault))),
            Refusal::Memory => line.extend_from_slice(bare_text(Status::Memory)),
        }
    }
}

// The text of a refusal that shows no number, by its status: no words of a mode, a fault of an end, or no memory.
fn bare_text(status: Status) -> &'static [u8]
    ensures { result.now ≡ bare_text status }
{
    match status {
        Status::Words => b"words refused",
        Status::ReadFault => b"read fault",
        Status::WriteFault => b"write fault",
        _ => b"out of memory",
    }
}

fn words_status(fault: WordsFault) -> Status
    ensures { result ≡ words_status fault }
{
    match fault {
        WordsFault::Refused => Status::Words,
        WordsFault::Memory => Status::Memory,
    }
}

fn output_status(fault: SinkFault) -> Status
    ensures { result ≡ output_status fault }
{
    match fault {
        SinkFault::Failed => Status::WriteFault,
        SinkFault::Memory => Status::Memory,
    }
}

fn input_status(fault: InputFault) -> Status
    ensures { result ≡ input_status fault }
{
    match fault {
        InputFault::Failed => Status::ReadFault,
        InputFault::Memory => Status::Memory,
    }
}

fn cause_status(cause: Cause) -> Status
    ensures { result ≡ answer_for_cause cause }
{
    if is_range_cause(cause) {
        Status::Range
    } else {
        Status::Syntax
    }
}

fn lines_status(refusal: &LinesRefusal) -> Status
    ensures { result ≡ lines_status refusal.now }
{
    match *refusal {
        LinesRefusal::At {
            line: _,
            field: _,
            cause,
        } => cause_status(cause),
        LinesRefusal::NoBreaks { paragraph: _ } => Status::NoBreaks,
        LinesRefusal::Memory => Status::Memory,
    }
}

fn page_status(fault: PageFault) -> Status
    ensures { result ≡ page_status fault }
{
    match fault {
        PageFault::PoolFull { .. } => Status::PoolFull,
        PageFault::DeadCycles { .. } => Status::DeadCycles,
        PageFault::PageLimit { .. } => Status::PageLimit,
        PageFault::NodeLimit { .. } => Status::NodeLimit,
        PageFault::WriteFault => Status::WriteFault,
        PageFault::Memory => Status::Memory,
    }
}

fn put_pool_full(line: &mut Vec<u8>, at: u32, live: u64) -> Result<(), AllocError>
    ensures { OnOk result (line.new.items ≡ line.old.items ++ pool_full_text at live) }
{
    put_counted(line, b"line ", u64::from(at))?;
    put_counted(line, b": float pool full at ", live)
}

fn put_unsuited(line: &mut Vec<u8>, at: u32) -> Result<(), AllocError>
    ensures { OnOk result (line.new.items ≡ line.old.items ++ unsuited_text at) }
{
    put_counted(line, b"line ", u64::from(at))?;
    line.extend_from_slice(b": not served in this mode")
}

fn put_page_fault(line: &mut Vec<u8>, fault: PageFault) -> Result<(), AllocError>
    ensures { OnOk result (line.new.items ≡ line.old.items ++ page_text fault) }
{
    match fault {
        PageFault::PoolFull { line: at, live } => put_pool_full(line, at, live),
        PageFault::DeadCycles { count } => put_counted(line, b"dead cycles ", count),
        PageFault::PageLimit { pages } => put_counted(line, b"page limit ", pages),
        PageFault::NodeLimit { count } => put_counted(line, b"node limit at ", count),
        PageFault::WriteFault => line.extend_from_slice(bare_text(Status::WriteFault)),
        PageFault::Memory => line.extend_from_slice(bare_text(Status::Memory)),
    }
}
