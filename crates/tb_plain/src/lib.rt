//! Plain TeX's page makeup: floats that go into the text or to the top of a page, and pages of one column.
#![tactic(auto)]

mod firing;
mod taken_floats;

ghost use Rattle.std.specs.Prelude.{◌≡◌};
ghost use Rattle.tb_plain.specs.RunSteps.{StepsAgree, EndsHaveReasons};
ghost use Rattle.tb_plain.specs.MakeupCalls.{AreMakeupParams, IsPlain};

pub use firing::{CLEARING_PENALTY, clearing_glue};
use std::alloc::AllocError;
use tb_column::Column;
use tb_param::Params;
use tb_pool::ListId;

/// The class of the floats that go to the top of a page; factor 1000, no limit and no skip (plain.tex, \topins).
pub const TOP_FLOATS: u8 = 253;

/// The page makeup between two calls: the parameters, and the number of the next page.
#[derive(Clone, Copy)]
pub struct Plain {
    params: Params,
    page: u64,
}

/// A page that ships, and the nodes that go back.
#[derive(Clone, Copy)]
pub struct PlainPage {
    /// The number of the page, from 1.
    pub page: u64,
    /// The column, whose list is the caller's.
    pub column: Column,
    /// The list of the nodes that go back before what waits; it is the caller's.
    pub put_back: ListId,
}

/// Why no page ships.
#[derive(Clone, Copy, Debug, PartialEq, Eq)]
pub enum PlainFault {
    /// A page was to be shipped after this many pages.
    PageLimit { pages: u64 },
    /// There was no memory.
    Memory,
}

impl From<AllocError> for PlainFault {
    ghost use Rattle.tb_plain.specs.declared.PlainFault.TheVariants.{Memory};

    ghost from_gives = { λ _ e. e ≡ Memory };

    fn from(_: AllocError) -> Self {
        PlainFault::Memory
    }
}

/// The page makeup before the first page.
pub fn new_plain(p: &Params) -> Plain
    requires { AreMakeupParams p.now }
    ensures params { result.params ≡ p.now }
    ensures page { result.page ≡ 1 }
    ensures plain { IsPlain result }
{
    Plain {
        params: *p,
        page: 1,
    }
}

/// The run of a galley is defined: each step takes an act, ships a page or ends the last page, so the bound on the steps,
/// with which a run starts, is never met. It ends because it is done, because `maxpages` pages were shipped, or because
/// more nodes wait than `maxnodes`.
pub fn makeup_runs_are_defined()
    ensures bounds { StepsAgree }
    ensures reasons { EndsHaveReasons }
{}
