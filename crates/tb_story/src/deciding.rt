//! What decisions change in the summary.
ghost use Rattle.std.specs.Prelude.{◌≡◌, OnOk, if◌then◌else◌};
ghost use Rattle.tb_story.specs.Story.{last_of, is_deferred};
ghost use Rattle.tb_story.specs.Summary.{keep, keep_if, put_at, begun_story, reason_of, decided, way_in, tested_in, after_told, gain, lack, no_stories};

use crate::notes::{noted_of, or_else};
use crate::one_story::is_deferred;
use crate::reasons::{found_with, kept_by, own_reason, way_of};
use crate::stories::{keep_story, last_of, place_story};
use crate::{Area, Kept, Story, Summary};
use std::alloc::{AllocError, Global};
use tb_node::{Float, Where};
use tb_told::{Test, Told};

/// What must be gained, for a test of an amount.
pub(crate) fn gain(test: Test, room: i128, share: i128) -> i128
    ensures { result ≡ gain test room share }
{
    match test {
        Test::Room | Test::Tall => room,
        Test::Share | Test::Sum => share,
        Test::Places | Test::Wide | Test::Class | Test::Count => 0,
    }
}

// One more than what is lacked.
fn lack(need: i64, has: i64) -> i128
    ensures { result ≡ lack need has }
{
    i128::from(need) - i128::from(has) + 1
}

impl Summary {
    /// A summary of nothing yet.
    pub fn new(alloc: Global) -> Summary
        ensures { result ≡ no_stories }
    {
        Summary {
            alloc,
            stories: Vec::new(alloc),
            over: 0,
            sheets: 0,
            found: None,
            clearing: false,
            alone: Vec::new(alloc),
            passed: Vec::new(alloc),
        }
    }

    /// The last reason of the float of a line, if it was not shipped.
    pub(crate) fn last_of(&self, line: u32) -> Option<Kept>
        ensures { result ≡ last_of line self.now.stories }
    {
        last_of(&self.stories, self.over, line)
    }

    /// A float is kept back for this reason.
    pub(crate) fn keep(&mut self, f: &Float, k: &Kept)
        ensures { self.new ≡ keep f.now k.now self.old }
    {
        keep_story(&mut self.stories, self.over, f.line, k);
    }

    // A float is kept back, if there is a reason.
    fn keep_if(&mut self, f: &Float, reason: Option<Kept>)
        ensures { self.new ≡ keep_if f.now reason self.old }
    {
        if let Some(k) = reason {
            self.keep(f, &k);
        }
    }

    /// A float is placed.
    pub(crate) fn put_at(&mut self, f: &Float, place: Where)
        ensures { self.new ≡ put_at f.now place self.old }
    {
        place_story(&mut self.stories, self.over, f.line, place, self.sheets);
    }

    /// A story begins. If memory runs out, the summary is as it was.
    pub(crate) fn begin(
        &mut self,
        f: &Float,
        page: u64,
        last: Option<Kept>,
    ) -> Result<(), AllocError>
        ensures { OnOk result (self.new ≡ begun_story f.now page last self.old) }
    {
        let story = Story::new(self.alloc, f, page, last, self.sheets);
        self.stories.push(story)?;
        Ok(())
    }

    // Why a decision keeps the float of a line.
    fn reason_of(&self, line: u32) -> Option<Kept>
        ensures { result ≡ reason_of line self.now }
    {
        let at_start = noted_of(line, &self.alone);
        or_else(own_reason(line, self.found), or_else(at_start, self.found))
    }

    // A float goes to this place, or is kept.
    fn settle(&mut self, f: &Float, place: Where)
        ensures { self.new ≡ (if is_deferred place then keep_if f.now (reason_of f.now.line self.old) self.old else put_at f.now place self.old) }
    {
        if is_deferred(place) {
            let reason = self.reason_of(f.line);
            self.keep_if(f, reason);
        } else {
            self.put_at(f, place);
        }
    }

    // A float goes somewhere, or is kept; the next decision finds anew what fails.
    fn decide(&mut self, f: &Float, place: Where)
        ensures { self.new ≡ decided f.now place self.old }
    {
        self.settle(f, place);
        self.found = None;
    }

    // What keeps the float in the way of an area, if one is.
    fn way_in(&self, area: Area, blocker: &Option<Float>) -> Option<Kept>
        ensures { result ≡ way_in area blocker.now self.now.stories }
    {
        match blocker {
            None => None,
            Some(b) => Some(way_of(area, b, self.last_of(b.line))),
        }
    }

    // An area was tested: with what must be gained for its room and for its share.
    fn try_area(
        &mut self,
        area: Area,
        f: &Float,
        blocker: &Option<Float>,
        room: i128,
        share: i128,
        failed: Option<Test>,
    )
        ensures { self.new ≡ tested_in area f.now blocker.now room share failed self.old }
    {
        if let Some(test) = failed {
            let way = self.way_in(area, blocker);
            let k = kept_by(area, test, f, gain(test, room, share), way);
            self.found = Some(found_with(k, self.found));
        }
    }

    /// What is told of a decision about a float.
    pub(crate) fn note_told(&mut self, f: &Float, told: &Told)
        ensures { self.new ≡ after_told f.now told.now self.old }
    {
        match told {
            Told::Enters(t) => {
                self.try_area(
                    Area::Enter,
                    f,
                    &t.blocker,
                    lack(t.need, t.room),
                    0,
                    t.failed,
                )
            }
            Told::TestsHere(t) => {
                self.try_area(Area::Here, f, &None, lack(t.need, t.room), 0, t.failed)
            }
            Told::TestsTop(t) => {
                let share = lack(t.high, t.share);
                self.try_area(Area::Top, f, &None, lack(t.need, t.room), share, t.failed)
            }
            Told::TestsBottom(t) => {
                let share = lack(t.high, t.share);
                self.try_area(
                    Area::Bottom,
                    f,
                    &None,
                    lack(t.need, t.room),
                    share,
                    t.failed,
                )
            }
            Told::TestsWide(t) => {
                self.try_area(Area::Wide, f, &t.blocker, lack(t.high, t.room), 0, t.failed)
            }
            Told::Goes(place) => self.decide(f, *place),
        }
    }
}
