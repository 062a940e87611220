//! All stories: one of them changed, or each that waits. Those at the front are over, and are passed by.
ghost use Rattle.std.specs.Prelude.{◌≡◌, ◌<◌, ◌+◌, ◌^◌, OnOk, map};
ghost use Rattle.std.specs.List.{AllByRecursion};
ghost use Rattle.tb_story.specs.Story.{kept_back, placed_at, landed_at, missed_sheet, carried, with_story, last_of};
ghost use Rattle.tb_story.specs.Counts.{AreOver, IsCounted, IsSound, StaysSound};

use crate::{Kept, Story};
use std::alloc::AllocError;
use tb_node::Where;

/// The last reason of the float of this line, if it was not shipped.
pub(crate) fn last_of(stories: &[Story], over: usize, line: u32) -> Option<Kept>
    requires { AreOver over stories.now }
    ensures { result ≡ last_of line stories.now }
{
    for i in over..stories.len() {
        let story = &stories[i];
        if story.is_of(line) {
            return story.last();
        }
    }
    None
}

/// The float of this line is kept back for this reason.
pub(crate) fn keep_story(stories: &mut [Story], over: usize, line: u32, k: &Kept)
    requires { AreOver over stories.old }
    ensures kept { stories.new ≡ with_story line (kept_back k.now) stories.old }
    ensures over { AreOver over stories.new }
    ensures sound { StaysSound over stories.old stories.new }
{
    for i in over..stories.len() {
        let story = &mut stories[i];
        story.keep(line, k);
    }
}

/// The float of this line is placed, after so many sheets.
pub(crate) fn place_story(stories: &mut [Story], over: usize, line: u32, place: Where, sheets: u64)
    requires { AreOver over stories.old }
    ensures placed { stories.new ≡ with_story line (placed_at place sheets) stories.old }
    ensures sound { IsSound over sheets stories.old → IsSound over sheets stories.new }
{
    for i in over..stories.len() {
        let story = &mut stories[i];
        story.put_at(line, place, sheets);
    }
}

/// The float of this line is shipped.
pub(crate) fn land_story(stories: &mut [Story], over: usize, line: u32, page: u64, place: Where)
    requires { AreOver over stories.old }
    ensures landed { stories.new ≡ with_story line (landed_at page place) stories.old }
    ensures over { AreOver over stories.new }
    ensures sound { StaysSound over stories.old stories.new }
{
    for i in over..stories.len() {
        let story = &mut stories[i];
        story.land(line, page, place);
    }
}

/// The float of this line was carried in the text. If memory runs out, the counts hold still.
pub(crate) fn carry_story(
    stories: &mut [Story],
    over: usize,
    line: u32,
    sheets: u64,
) -> Result<(), AllocError>
    requires few { sheets < 2 ^ 63 }
    requires sound { IsSound over sheets stories.old }
    ensures carried { OnOk result (stories.new ≡ with_story line (carried sheets) stories.old) }
    ensures sound { IsSound over sheets stories.new }
{
    for i in over..stories.len() {
        let story = &mut stories[i];
        story.carry(line, sheets)?;
    }
    Ok(())
}

/// Each float that waits misses a sheet, after so many. If memory runs out, the counts hold for one sheet more.
pub(crate) fn miss_sheet(stories: &mut [Story], over: usize, sheets: u64) -> Result<(), AllocError>
    requires few { sheets < 2 ^ 63 }
    requires sound { IsSound over sheets stories.old }
    ensures missed { OnOk result (stories.new ≡ map missed_sheet stories.old) }
    ensures sound { IsSound over (sheets + 1) stories.new }
{
    for i in over..stories.len() {
        let story = &mut stories[i];
        story.miss_sheet(sheets)?;
    }
    Ok(())
}

/// How many stories at the front are over, where so many are.
pub(crate) fn count_over(stories: &[Story], over: usize) -> usize
    requires { AreOver over stories.now }
    ensures { AreOver result stories.now }
{
    for i in over..stories.len() {
        if stories[i].is_open() {
            return i;
        }
    }
    stories.len()
}
