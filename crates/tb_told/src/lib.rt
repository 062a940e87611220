//! What is told of a decision about a float or a marginal note: its tests in their order, with the amounts that they compare,
//! and the lines that say so.
#![tactic(auto)]

mod amounts;
mod areas;
mod choices;
mod columns;
mod company;
mod decisions;
mod fields;
mod filling;
mod heads;
mod laws;
mod places;
mod standing;
mod sums;
mod taken;
mod tale_lines;
mod telling;
mod tested;

pub use crate::company::tell_column;
pub use crate::filling::{tell_doubled, tell_filled};
pub use crate::heads::alone_at;
pub use crate::laws::{the_company_is_told, what_is_told_is_the_decision, yes_says_that_all_hold};
pub use crate::standing::here_lines;
pub use crate::sums::HeightSum;
pub use crate::taken::take_company;
pub use crate::tale_lines::put_tale;
pub use crate::telling::{tell_called, tell_double, tell_next};
use tb_fpage::Wanted;
use tb_margin::Placed;
use tb_node::{Float, Margin, Where};

/// A test that a decision about a float makes, by the word with which it is told.
#[derive(Clone, Copy, Debug, PartialEq, Eq)]
pub enum Test {
    /// The float may go there by its own places.
    Places,
    /// It has the width of those that go there.
    Wide,
    /// No float of its class is in the way.
    Class,
    /// The count lets one more float in.
    Count,
    /// There is more room than is required.
    Room,
    /// The share of the area is more than the float's height, or the float has the mark `!`.
    Share,
    /// The float is no higher than the column.
    Tall,
    /// The floats together are no higher than the column, or high enough for it.
    Sum,
}

/// A count, as it is told.
#[derive(Clone, Copy)]
pub struct Counted {
    /// How many floats the limit allows.
    pub number: i64,
    /// How many are there.
    pub used: usize,
    /// How many may still come.
    pub left: i64,
}

/// What is told of a column as a whole. Amounts are in scaled points.
#[derive(Clone, Copy)]
pub struct Entering {
    /// The first float of its class among those before it.
    pub blocker: Option<Float>,
    /// The total count.
    pub count: Counted,
    /// The least room that the text needs.
    pub least: i64,
    /// The float's height.
    pub high: i64,
    /// The room of the column.
    pub room: i64,
    /// What is required of it.
    pub need: i64,
    /// The first test that fails, if one does.
    pub failed: Option<Test>,
}

/// What is told of the text of a column.
#[derive(Clone, Copy)]
pub struct InText {
    /// The first float of its class at the bottom.
    pub blocker: Option<Float>,
    /// The room of the column.
    pub room: i64,
    /// What is required of it.
    pub need: i64,
    /// The first test that fails, if one does.
    pub failed: Option<Test>,
}

/// What is told of the top of a column.
#[derive(Clone, Copy)]
pub struct AtTop {
    /// The first float of its class in the text, or at the bottom.
    pub blocker: Option<Float>,
    /// The count of the top.
    pub count: Counted,
    /// The room of the column.
    pub room: i64,
    /// What is required of it.
    pub need: i64,
    /// What is left of the top's share.
    pub share: i64,
    /// The float's height.
    pub high: i64,
    /// The first test that fails, if one does.
    pub failed: Option<Test>,
}

/// What is told of the bottom of a column.
#[derive(Clone, Copy)]
pub struct AtBottom {
    /// The count of the bottom.
    pub count: Counted,
    /// The room of the column.
    pub room: i64,
    /// What is required of it.
    pub need: i64,
    /// What is left of the bottom's share.
    pub share: i64,
    /// The float's height.
    pub high: i64,
    /// The first test that fails, if one does.
    pub failed: Option<Test>,
}

/// What is told of the space above both columns.
#[derive(Clone, Copy)]
pub struct AboveBoth {
    /// The first float of its class among those before it.
    pub blocker: Option<Float>,
    /// The count of that space.
    pub count: Counted,
    /// Its room.
    pub room: i64,
    /// The float's height.
    pub high: i64,
    /// The first test that fails, if one does.
    pub failed: Option<Test>,
}

/// What is told of a float that may head a column of floats. Amounts are in scaled points.
#[derive(Clone, Copy)]
pub struct Alone {
    /// The first float of its class among those before it.
    pub blocker: Option<Float>,
    /// The float's height.
    pub high: i64,
    /// The height of the column.
    pub most: i64,
    /// The first test that fails, if one does.
    pub failed: Option<Test>,
}

/// What is told of a later float that may join a company.
#[derive(Clone, Copy)]
pub struct Joining {
    /// The first float of its class that stays behind.
    pub blocker: Option<Float>,
    /// The float's height.
    pub high: i64,
    /// The height of the company with it.
    pub sum: HeightSum,
    /// The height of the column.
    pub most: i64,
    /// The first test that fails, if one does.
    pub failed: Option<Test>,
}

/// What is told of the company of a head.
#[derive(Clone, Copy)]
pub struct Made {
    /// How many floats are in it.
    pub floats: usize,
    /// Its height.
    pub sum: HeightSum,
    /// It must be higher than this, unless floats are cleared.
    pub least: i64,
    /// The test fails, if it is not made.
    pub failed: Option<Test>,
}

/// The page and the column that are being made.
#[derive(Clone, Copy)]
pub struct Spot {
    /// The number of the page.
    pub page: u64,
    /// Whether it is the second of two columns.
    pub second: bool,
}

/// What is told of an area, or where the float goes.
#[derive(Clone, Copy)]
pub enum Told {
    /// Of the column as a whole.
    Enters(Entering),
    /// Of the text.
    TestsHere(InText),
    /// Of the top.
    TestsTop(AtTop),
    /// Of the bottom.
    TestsBottom(AtBottom),
    /// Of the space above both columns.
    TestsWide(AboveBoth),
    /// Where the float goes.
    Goes(Where),
}

/// What is told where a column of floats is looked for.
#[derive(Clone, Copy)]
pub enum ToldColumn {
    /// Of a float that may head a column.
    Heads(Float, Alone),
    /// Of a later float that may join the company.
    Joins(Float, Joining),
    /// Of the company of this head.
    Companied(Float, Made),
    /// The float is taken.
    Takes(Float),
}

/// One thing that is told of a run. Amounts are in scaled points.
#[derive(Clone, Copy)]
pub enum Tale {
    /// A wide float of release 2014 waits from now on, without a call.
    Waits(Spot, Float),
    /// A float is called at a text of this height.
    Calls(Spot, Float, i64),
    /// What is told of a decision about the float.
    Decides(Float, Told),
    /// A column or a wide page is looked for, while floats of its width wait.
    Begins(Spot, Wanted),
    /// What is told of the floats that may make a column of their own.
    InColumn(ToldColumn),
    /// A clear takes the float back from its place.
    Back(Float, Where),
    /// A note goes beside a text of this height, where notes reached this far down.
    Beside(Spot, Margin, i64, i64, Placed),
    /// The float of this line stands in the text of the column that is put out next. It has no line of its own.
    Stands(u32),
    /// A column is put out, or a wide page. It has no line of its own.
    PutOut,
}

/// A piece of what is told of a firing, between what the firing sends.
#[derive(Clone, Copy)]
pub enum Piece {
    /// Something is told.
    Says(Tale),
    /// The place of what is sent next.
    NextSent,
}
