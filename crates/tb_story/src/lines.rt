//! The lines of the stories.
ghost use Rattle.std.specs.Prelude.{◌≡◌, ◌++◌, codes};
ghost use Rattle.tb_text.specs.Fields.{and_number, and_count, and_text};
ghost use Rattle.tb_text.specs.Fronts.{PutsAfter};
ghost use Rattle.tb_story.specs.Story.{cause_text, last_at_end, at_end, closed, times_so_far};
ghost use Rattle.tb_story.specs.StoryLines.{kept_words, group_text, all_groups, because_text, reasons_text, landed_words, landed_text, head_text, fate_text, story_text, story_line, story_lines};

use crate::reasons::{area_text, cause_text, is_alike, times_so_far};
use crate::{Group, Kept, Story, Summary};
use std::alloc::AllocError;
use tb_node::{Float, Where};
use tb_report::{put_total, where_text};
use tb_text::{end_line, put, put_count, put_field, put_text};

// The word of the cause, and the float at the root.
fn put_cause(out: &mut Vec<u8>, k: &Kept) -> Result<(), AllocError>
    ensures { PutsAfter result out.old.items (and_text (cause_text k.now.cause) ++ and_text k.now.root.name) out.new.items }
{
    put_text(out, cause_text(k.cause))?;
    put_text(out, k.root.name.as_bytes())
}

// The words of a reason, and the float at its root.
fn put_words(out: &mut Vec<u8>, k: &Kept) -> Result<(), AllocError>
    ensures { PutsAfter result out.old.items (kept_words k.now) out.new.items }
{
    put_text(out, area_text(k.area))?;
    put_cause(out, k)
}

// What must be gained, and for how many sheets it was told.
fn put_gain(out: &mut Vec<u8>, g: &Group) -> Result<(), AllocError>
    ensures { PutsAfter result out.old.items (and_number g.now.kept.by ++ and_count g.now.times) out.new.items }
{
    put_field(out, g.kept.by)?;
    put_count(out, g.times)
}

fn put_group(out: &mut Vec<u8>, g: &Group) -> Result<(), AllocError>
    ensures { PutsAfter result out.old.items (group_text g.now) out.new.items }
{
    put_words(out, &g.kept)?;
    put_gain(out, g)
}

// Reasons, one after another.
fn put_groups(out: &mut Vec<u8>, groups: &[Group]) -> Result<(), AllocError>
    ensures { PutsAfter result out.old.items (all_groups groups.now) out.new.items }
{
    for g in groups {
        put_group(out, g)?;
    }
    Ok(())
}

// The reasons that are over, where this one is told next: the one that went on is among them, unless this one is alike.
fn put_closed(
    out: &mut Vec<u8>,
    groups: &[Group],
    group: &Option<Group>,
    k: &Kept,
) -> Result<(), AllocError>
    ensures { PutsAfter result out.old.items (all_groups (closed k.now group.now groups.now)) out.new.items }
{
    match group {
        None => put_groups(out, groups),
        Some(g) => {
            if is_alike(&g.kept, k) {
                put_groups(out, groups)
            } else {
                put_run(out, groups, g)
            }
        }
    }
}

// The reasons that are over, and the one that goes on.
fn put_run(out: &mut Vec<u8>, groups: &[Group], g: &Group) -> Result<(), AllocError>
    ensures { PutsAfter result out.old.items (all_groups groups.now ++ group_text g.now) out.new.items }
{
    put_groups(out, groups)?;
    put_group(out, g)
}

// What kept a float back that was shipped, or was placed last.
fn put_because(out: &mut Vec<u8>, groups: &[Group], group: &Option<Group>) -> Result<(), AllocError>
    ensures { PutsAfter result out.old.items (because_text groups.now group.now) out.new.items }
{
    match group {
        None => Ok(()),
        Some(g) => {
            put(out, b" because")?;
            put_run(out, groups, g)
        }
    }
}

// The reasons of a float that waits, with the one for which it waits at last.
fn put_waiting(
    out: &mut Vec<u8>,
    groups: &[Group],
    group: &Option<Group>,
    k: &Kept,
) -> Result<(), AllocError>
    ensures { PutsAfter result out.old.items (all_groups (closed k.now group.now groups.now) ++ group_text (record { kept = k.now; times = times_so_far k.now group.now })) out.new.items }
{
    put_closed(out, groups, group, k)?;
    let last = Group {
        kept: *k,
        times: times_so_far(k, group),
    };
    put_group(out, &last)
}

// On which page a float was shipped, or that it waits.
fn put_landed_words(out: &mut Vec<u8>, landed: Option<u64>) -> Result<(), AllocError>
    ensures { PutsAfter result out.old.items (landed_words landed) out.new.items }
{
    match landed {
        None => put(out, b" waits"),
        Some(page) => put_total(out, b" landed", page),
    }
}

fn put_landed(out: &mut Vec<u8>, landed: Option<u64>, place: Where) -> Result<(), AllocError>
    ensures { PutsAfter result out.old.items (landed_text landed place) out.new.items }
{
    put_landed_words(out, landed)?;
    put_text(out, where_text(place))
}

// A float's name and line.
fn put_name(out: &mut Vec<u8>, f: &Float) -> Result<(), AllocError>
    ensures { PutsAfter result out.old.items (and_text f.now.name ++ and_count f.now.line) out.new.items }
{
    put_text(out, f.name.as_bytes())?;
    put_count(out, u64::from(f.line))
}

impl Story {
    // For what the float waits at the end, if it does.
    fn last_at_end(&self) -> Option<Kept>
        ensures { result ≡ last_at_end self.now }
    {
        if self.waits() { self.last } else { None }
    }

    // What kept the float back; what it waits for at the end is told too.
    fn put_reasons(&self, out: &mut Vec<u8>) -> Result<(), AllocError>
        ensures { PutsAfter result out.old.items (reasons_text (at_end self.now)) out.new.items }
    {
        match self.last_at_end() {
            None => put_because(out, &self.groups, &self.group),
            Some(k) => {
                put(out, b" because")?;
                put_waiting(out, &self.groups, &self.group, &k)
            }
        }
    }

    // What became of the float, and why.
    fn put_fate(&self, out: &mut Vec<u8>) -> Result<(), AllocError>
        ensures { PutsAfter result out.old.items (fate_text self.now) out.new.items }
    {
        put_landed(out, self.landed, self.place)?;
        self.put_reasons(out)
    }

    // Which float it is.
    fn put_head(&self, out: &mut Vec<u8>) -> Result<(), AllocError>
        ensures { PutsAfter result out.old.items (head_text self.now) out.new.items }
    {
        put(out, b"why")?;
        put_name(out, &self.float)
    }

    // When it was called, and what became of it.
    fn put_call(&self, out: &mut Vec<u8>) -> Result<(), AllocError>
        ensures { PutsAfter result out.old.items ((codes " called" ++ and_count self.now.called) ++ fate_text self.now) out.new.items }
    {
        put_total(out, b" called", self.called)?;
        self.put_fate(out)
    }

    fn put_text(&self, out: &mut Vec<u8>) -> Result<(), AllocError>
        ensures { PutsAfter result out.old.items (story_text self.now) out.new.items }
    {
        self.put_head(out)?;
        self.put_call(out)
    }

    fn put_line(&self, out: &mut Vec<u8>) -> Result<(), AllocError>
        ensures { PutsAfter result out.old.items (story_line self.now) out.new.items }
    {
        self.put_text(out)?;
        end_line(out)
    }
}

// The lines of stories, one after another.
fn put_stories(out: &mut Vec<u8>, stories: &[Story]) -> Result<(), AllocError>
    ensures { PutsAfter result out.old.items (story_lines stories.now) out.new.items }
{
    for story in stories {
        story.put_line(out)?;
    }
    Ok(())
}

impl Summary {
    /// Appends a line for each float that was called or waited, in their order: when it was called, on which page it was
    /// shipped or that it waits, where, and what kept it back for how many sheets. If memory runs out, what stood in `out`
    /// is still there, and a front of the lines may follow.
    pub fn put_lines(&self, out: &mut Vec<u8>) -> Result<(), AllocError>
        ensures { PutsAfter result out.old.items (story_lines self.now.stories) out.new.items }
    {
        put_stories(out, &self.stories)
    }
}
