//! The summary of a run: one story of each float that was called or waits, with what kept it back, for how many sheets.
#![tactic(auto)]

mod columns;
mod deciding;
mod lines;
mod notes;
mod one_story;
mod reasons;
mod sheets;
mod stories;
mod telling;

use std::alloc::Global;
use std::marker::Model;
use tb_node::{Float, Where};
use tb_told::Test;

/// Where a float was kept back, by the word with which it is told.
#[derive(Clone, Copy)]
pub enum Area {
    /// From the column as a whole.
    Enter,
    /// From the text.
    Here,
    /// From the top.
    Top,
    /// From the bottom.
    Bottom,
    /// From the space above both columns.
    Wide,
    /// From the head of a column of floats.
    Alone,
    /// From the company of a head.
    Joins,
    /// As the head of a company that was not made.
    Company,
    /// As a wide float of release 2014, which waits without a call.
    Wait,
    /// By a clear.
    Clear,
}

/// What kept it back there.
#[derive(Clone, Copy)]
pub enum Cause {
    /// This test failed.
    Failed(Test),
    /// It was taken back from its place.
    Back,
    /// A break carried it in the text.
    Carried,
}

/// Why a float was kept back.
#[derive(Clone, Copy)]
pub struct Kept {
    /// Where.
    pub area: Area,
    /// What kept it back there.
    pub cause: Cause,
    /// The float at the root: of those that wait for one another, the one that is itself at fault.
    pub root: Float,
    /// What must be gained so that the test holds, in scaled points.
    pub by: i128,
}

/// A reason, and how many sheets went by for it.
#[derive(Clone, Copy)]
pub struct Group {
    /// The reason, with the last amount.
    pub kept: Kept,
    /// How many sheets.
    pub times: u64,
}

/// The reason of one float at a start.
#[derive(Clone, Copy)]
pub struct Noted {
    /// The float.
    pub float: Float,
    /// Its reason.
    pub kept: Kept,
}

/// The story of one float: what became of it so far.
#[derive(Drop)]
pub struct Story {
    float: Float,
    called: u64,
    place: Where,
    landed: Option<u64>,
    last: Option<Kept>,
    groups: Vec<Group>,
    group: Option<Group>,
    put: u64,
}

impl Model for Story {
    ghost use Rattle.tb_story.specs.Story.{StoryView};

    ghost Value = { StoryView };

    ghost view = { λ s. record {
      float = s.float;
      called = s.called;
      place = s.place;
      landed = s.landed;
      last = s.last;
      groups = s.groups.items;
      group = s.group;
      put = s.put;
    } };
}

/// The stories of the floats of a run, as they are told.
#[derive(Drop)]
pub struct Summary {
    alloc: Global,
    stories: Vec<Story>,
    // So many stories at the front are over: their floats were shipped.
    over: usize,
    sheets: u64,
    found: Option<Kept>,
    clearing: bool,
    alone: Vec<Noted>,
    passed: Vec<Noted>,
}

impl Model for Summary {
    ghost use Rattle.tb_story.specs.Summary.{SummaryView};
    ghost use Rattle.tb_story.specs.Counts.{IsSound};

    ghost Value = { SummaryView };

    ghost view = { λ m. record {
      stories = m.stories.items;
      sheets = m.sheets;
      found = m.found;
      clearing = m.clearing;
      alone = m.alone.items;
      passed = m.passed.items;
    } };

    ghost invariant = { λ m. IsSound m.over m.sheets m.stories.items };
}
