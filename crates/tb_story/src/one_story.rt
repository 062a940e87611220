//! One story: how it begins, and what is told of its float.
ghost use Rattle.std.specs.Prelude.{◌≡◌, ◌<◌, ◌+◌, ◌^◌, MatchResult};
ghost use Rattle.tb_story.specs.Story.{begun, is_open, is_deferred, waits, is_story_of, kept_back, placed_at, landed_at, missed, missed_sheet, carried, closed, times_so_far, if_of};
ghost use Rattle.tb_story.specs.Counts.{IsCounted, open_times};

use crate::reasons::{by_break, is_alike, times_so_far};
use crate::{Group, Kept, Story};
use std::alloc::{AllocError, Global};
use tb_node::{Float, Where};

/// Whether a float has no place yet.
pub(crate) fn is_deferred(place: Where) -> bool
    ensures { result ≡ is_deferred place }
{
    matches!(place, Where::Deferred)
}

impl Story {
    /// A story begins, after so many sheets.
    pub(crate) fn new(
        alloc: Global,
        float: &Float,
        page: u64,
        last: Option<Kept>,
        sheets: u64,
    ) -> Story
        ensures { result ≡ begun float.now page last sheets }
    {
        Story {
            float: *float,
            called: page,
            place: Where::Deferred,
            landed: None,
            last,
            groups: Vec::new(alloc),
            group: None,
            put: sheets,
        }
    }

    /// Whether the float was not shipped.
    pub(crate) fn is_open(&self) -> bool
        ensures { result ≡ is_open self.now }
    {
        self.landed.is_none()
    }

    /// Whether it was not shipped, and waits.
    pub(crate) fn waits(&self) -> bool
        ensures { result ≡ waits self.now }
    {
        self.landed.is_none() && is_deferred(self.place)
    }

    /// Whether it was not shipped, and came on this line.
    pub(crate) fn is_of(&self, line: u32) -> bool
        ensures { result ≡ is_story_of line self.now }
    {
        self.landed.is_none() && self.float.line == line
    }

    /// Its last reason.
    pub(crate) fn last(&self) -> Option<Kept>
        ensures { result ≡ self.now.last }
    {
        self.last
    }

    /// The float is kept back for this reason, if it is that of the line.
    pub(crate) fn keep(&mut self, line: u32, k: &Kept)
        ensures { self.new ≡ if_of line (kept_back k.now) self.old }
    {
        if self.is_of(line) {
            self.place = Where::Deferred;
            self.last = Some(*k);
        }
    }

    /// The float is placed, after so many sheets, if it is that of the line.
    pub(crate) fn put_at(&mut self, line: u32, place: Where, sheets: u64)
        ensures { self.new ≡ if_of line (placed_at place sheets) self.old }
    {
        if self.is_of(line) {
            self.place = place;
            self.put = sheets;
        }
    }

    /// The float is shipped, if it is that of the line.
    pub(crate) fn land(&mut self, line: u32, page: u64, place: Where)
        ensures { self.new ≡ if_of line (landed_at page place) self.old }
    {
        if self.is_of(line) {
            self.landed = Some(page);
            self.place = place;
        }
    }

    // The reason that went on is over, unless this one is alike.
    fn close(&mut self, k: &Kept) -> Result<(), AllocError>
        ensures { MatchResult result (λ _. self.new ≡ record self.old { groups = closed k.now self.old.group self.old.groups }) (λ _. self.new ≡ self.old) }
    {
        if let Some(g) = self.group {
            if !is_alike(&g.kept, k) {
                self.groups.push(g)?;
            }
        }
        Ok(())
    }

    // So many sheets more went by for a reason. If memory runs out, the story is as it was.
    fn miss(&mut self, times: u64, k: &Kept) -> Result<(), AllocError>
        requires { times_so_far k.now self.old.group + times < 2 ^ 64 }
        ensures { MatchResult result (λ _. self.new ≡ missed times k.now self.old) (λ _. self.new ≡ self.old) }
    {
        let so_far = times_so_far(k, &self.group);
        self.close(k)?;
        self.group = Some(Group {
            kept: *k,
            times: so_far + times,
        });
        Ok(())
    }

    /// A float that waits misses a sheet, of which there were so many. If memory runs out, the story is as it was.
    pub(crate) fn miss_sheet(&mut self, sheets: u64) -> Result<(), AllocError>
        requires few { sheets < 2 ^ 63 }
        requires counted { IsCounted sheets self.old }
        ensures { MatchResult result (λ _. self.new ≡ missed_sheet self.old) (λ _. self.new ≡ self.old) }
    {
        if !self.waits() {
            return Ok(());
        }
        match self.last {
            None => Ok(()),
            Some(k) => self.miss(1, &k),
        }
    }

    /// The float stands in the text of the column that is put out, after so many sheets, if it is that of the line. If memory
    /// runs out, the story is as it was.
    pub(crate) fn carry(&mut self, line: u32, sheets: u64) -> Result<(), AllocError>
        requires few { sheets < 2 ^ 63 }
        requires counted { IsCounted sheets self.old }
        ensures { MatchResult result (λ _. self.new ≡ if_of line (carried sheets) self.old) (λ _. self.new ≡ self.old) }
    {
        if !self.is_of(line) || self.put == sheets {
            return Ok(());
        }
        let k = by_break(&self.float);
        self.miss(sheets - self.put, &k)?;
        self.put = sheets;
        Ok(())
    }
}
