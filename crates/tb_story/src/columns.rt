//! What columns of floats change in the summary.
ghost use Rattle.std.specs.Prelude.{◌≡◌, ◌-ℤ◌, OnOk};
ghost use Rattle.tb_story.specs.Summary.{lack, way_of_head, way_of_joining, heads_none, not_alone, stays_behind, kept_all, keep_noted, keep_all, none_behind, no_head_by, behind_by, after_heads, after_joining, after_company, after_column, after_start};
ghost use Rattle.tb_story.specs.Counts.{AreOver, StaysSound};

use crate::deciding::gain;
use crate::notes::{noted_of, or_else};
use crate::reasons::{kept_by, way_of};
use crate::stories::keep_story;
use crate::{Area, Cause, Kept, Noted, Story, Summary};
use std::alloc::AllocError;
use tb_node::{Float, Where};
use tb_told::{Alone, HeightSum, Joining, Made, Test, ToldColumn};

// What a float is higher than the column.
fn over_height(high: i64, most: i64) -> i128
    ensures { result ≡ high -ℤ most }
{
    i128::from(high) - i128::from(most)
}

// What a company with a float is higher than the column.
fn over_sum(sum: &HeightSum, most: i64) -> i128
    ensures { result ≡ sum.now -ℤ most }
{
    sum.amount() - i128::from(most)
}

// One more than what a company lacks.
fn lack_of_sum(least: i64, sum: &HeightSum) -> i128
    ensures { result ≡ lack least sum.now }
{
    i128::from(least) - sum.amount() + 1
}

/// Each of these floats is kept back for the reason that is noted.
fn keep_notes(stories: &mut [Story], over: usize, notes: &[Noted])
    requires { AreOver over stories.old }
    ensures kept { stories.new ≡ kept_all notes.now stories.old }
    ensures over { AreOver over stories.new }
    ensures sound { StaysSound over stories.old stories.new }
{
    for n in notes {
        keep_story(stories, over, n.float.line, &n.kept);
    }
}

impl Summary {
    // What keeps the float in the way of a head, if one is.
    fn way_of_head(&self, blocker: &Option<Float>) -> Option<Kept>
        ensures { result ≡ way_of_head blocker.now self.now }
    {
        match blocker {
            None => None,
            Some(b) => {
                let kept = or_else(noted_of(b.line, &self.alone), self.last_of(b.line));
                Some(way_of(Area::Alone, b, kept))
            }
        }
    }

    // What keeps the float in the way of one that may join, if one is.
    fn way_of_joining(&self, blocker: &Option<Float>) -> Option<Kept>
        ensures { result ≡ way_of_joining blocker.now self.now }
    {
        match blocker {
            None => None,
            Some(b) => {
                let kept = or_else(noted_of(b.line, &self.alone), self.last_of(b.line));
                let kept = or_else(noted_of(b.line, &self.passed), kept);
                Some(way_of(Area::Joins, b, kept))
            }
        }
    }

    // A float heads no column.
    fn heads_none(&mut self, f: &Float, k: &Kept) -> Result<(), AllocError>
        ensures { OnOk result (self.new ≡ heads_none f.now k.now self.old) }
    {
        self.alone.push(Noted {
            float: *f,
            kept: *k,
        })?;
        Ok(())
    }

    // A float heads no column; in a clear it is kept back at once.
    fn not_alone(&mut self, f: &Float, k: &Kept) -> Result<(), AllocError>
        ensures { OnOk result (self.new ≡ not_alone f.now k.now self.old) }
    {
        self.heads_none(f, k)?;
        if self.clearing {
            self.keep(f, k);
        }
        Ok(())
    }

    // A float stays behind the company of a head.
    fn stays_behind(&mut self, f: &Float, k: &Kept) -> Result<(), AllocError>
        ensures { OnOk result (self.new ≡ stays_behind f.now k.now self.old) }
    {
        self.passed.push(Noted {
            float: *f,
            kept: *k,
        })?;
        Ok(())
    }

    // Those that head no column are kept back.
    fn keep_alone(&mut self)
        ensures { self.new ≡ keep_noted self.old.alone self.old }
    {
        keep_notes(&mut self.stories, self.over, &self.alone);
    }

    // Those that stay behind are kept back.
    fn keep_passed(&mut self)
        ensures { self.new ≡ keep_noted self.old.passed self.old }
    {
        keep_notes(&mut self.stories, self.over, &self.passed);
    }

    // Those that head no column, and those that stay behind, are kept back.
    fn keep_all(&mut self)
        ensures { self.new ≡ keep_all self.old }
    {
        self.keep_alone();
        self.keep_passed();
    }

    // No float stays behind yet.
    fn none_behind(&mut self)
        ensures { self.new ≡ none_behind self.old }
    {
        self.passed.clear();
    }

    // Why a float heads no column.
    fn no_head_by(&self, f: &Float, t: &Alone, test: Test) -> Kept
        ensures { result ≡ no_head_by f.now t.now test self.now }
    {
        let by = gain(test, over_height(t.high, t.most), 0);
        kept_by(Area::Alone, test, f, by, self.way_of_head(&t.blocker))
    }

    fn note_head(&mut self, f: &Float, t: &Alone) -> Result<(), AllocError>
        ensures { OnOk result (self.new ≡ after_heads f.now t.now t.now.failed self.old) }
    {
        let Some(test) = t.failed else {
            self.none_behind();
            return Ok(());
        };
        let k = self.no_head_by(f, t, test);
        self.not_alone(f, &k)
    }

    // Why a float stays behind the company of a head.
    fn behind_by(&self, f: &Float, t: &Joining, test: Test) -> Kept
        ensures { result ≡ behind_by f.now t.now test self.now }
    {
        let by = gain(test, over_height(t.high, t.most), over_sum(&t.sum, t.most));
        kept_by(Area::Joins, test, f, by, self.way_of_joining(&t.blocker))
    }

    fn note_joining(&mut self, f: &Float, t: &Joining) -> Result<(), AllocError>
        ensures { OnOk result (self.new ≡ after_joining f.now t.now t.now.failed self.old) }
    {
        let Some(test) = t.failed else {
            return Ok(());
        };
        let k = self.behind_by(f, t, test);
        self.stays_behind(f, &k)
    }

    fn note_company(&mut self, f: &Float, t: &Made) -> Result<(), AllocError>
        ensures { OnOk result (self.new ≡ after_company f.now t.now t.now.failed self.old) }
    {
        if t.failed.is_none() {
            self.keep_all();
            return Ok(());
        }
        let k = Kept {
            area: Area::Company,
            cause: Cause::Failed(Test::Sum),
            root: *f,
            by: lack_of_sum(t.least, &t.sum),
        };
        self.not_alone(f, &k)
    }

    /// What is told where a column of floats is looked for.
    pub(crate) fn note_column(&mut self, told: &ToldColumn) -> Result<(), AllocError>
        ensures { OnOk result (self.new ≡ after_column told.now self.old) }
    {
        match told {
            ToldColumn::Heads(f, t) => self.note_head(f, t),
            ToldColumn::Joins(f, t) => self.note_joining(f, t),
            ToldColumn::Companied(f, t) => self.note_company(f, t),
            ToldColumn::Takes(f) => {
                self.put_at(f, Where::Page);
                Ok(())
            }
        }
    }

    /// A column or a wide page is looked for.
    pub(crate) fn note_start(&mut self, clearing: bool)
        ensures { self.new ≡ after_start clearing self.old }
    {
        self.clearing = clearing;
        self.alone.clear();
        self.passed.clear();
        self.found = None;
    }
}
