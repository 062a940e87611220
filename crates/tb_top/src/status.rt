//! What `run` returns, and its exit codes.
ghost use Rattle.std.specs.Prelude.{◌≡◌};
ghost use Rattle.tb_top.specs.Status.{code_of};

/// How a run ended. Each status but `Done` has one line on `err`.
#[derive(Clone, Copy, Debug, PartialEq, Eq)]
pub enum Status {
    /// What the words ask for was done: the input was read to its end (in gen mode none is), and all was written.
    Done,
    /// The words after the program's name are refused. Nothing was read.
    Words,
    /// The first fault of the galley or text is one of syntax.
    Syntax,
    /// The first fault of the galley or text is one of range, or the input is too long.
    Range,
    /// A float or marginal note was to be taken, and the float pool was full.
    PoolFull,
    /// The page fired, but `maxdeadcycles` allows no more firings without a page.
    DeadCycles,
    /// A page was to be shipped after `maxpages` pages.
    PageLimit,
    /// The source failed.
    ReadFault,
    /// The sink of what is written failed.
    WriteFault,
    /// There was no memory.
    Memory,
    /// More nodes than `maxnodes` were held.
    NodeLimit,
    /// An item of the galley is not served by plain TeX's page makeup.
    Unsuited,
    /// A page is out of the range of DVI.
    TooFar,
    /// What was read is no DVI file that can be listed.
    Dvi,
    /// No way to break a paragraph into lines is feasible.
    NoBreaks,
    /// The search for the best pages came to too many states.
    Choices,
}

impl Status {
    /// The exit status of the program.
    pub fn code(self) -> u8
        ensures { result ≡ code_of self }
    {
        match self {
            Status::Done => 0,
            Status::Words => 2,
            Status::Syntax => 3,
            Status::Range => 4,
            Status::PoolFull => 5,
            Status::DeadCycles => 6,
            Status::PageLimit => 7,
            Status::ReadFault => 8,
            Status::WriteFault => 9,
            Status::Memory => 10,
            Status::NodeLimit => 11,
            Status::Unsuited => 12,
            Status::TooFar => 13,
            Status::Dvi => 14,
            Status::NoBreaks => 15,
            Status::Choices => 16,
        }
    }
}
