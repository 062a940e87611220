//! Steps of a scene, each with what it is to say.

ghost use Rattle.std.specs.Prelude.{IsTrue};
ghost use Rattle.tb_param.specs.Ranges.{are_params};
ghost use Rattle.tb_sheet.specs.Asked.{IsSizedAct};

use super::given::{float, note};
use super::scene::{Scene, Text, boxes, copied, open};
use std::alloc::{AllocError, Global};
use std::process::Abort;
use std::test::Fail;
use tb_node::{Act, Area};
use tb_param::Params;

// What is done.
#[derive(Clone, Copy)]
pub(super) enum Step {
    // A new scene.
    Open,
    // What the next page is made for.
    Ask,
    // How many nodes are held.
    Held,
    // A float with the places of these letters, and of this height, is taken.
    Take(&'static str, u8),
    // A marginal note is taken.
    Note,
    Suppress(Area),
    Columns(bool),
    // Whether a change of columns would leave a list to the caller.
    Drops,
    // A page of these boxes fires at a penalty.
    Fire(&'static [u8], i64),
    // The same of boxes of depth 2, or with glue of width 5 after them.
    Deep(&'static [u8], i64),
    Glued(&'static [u8], i64),
    // A page of these boxes is held, and then the float or note that ended it gets its place.
    Place(&'static [u8]),
    // The next event.
    Event,
}

pub(super) type Row = (Step, &'static str);

// Does the steps in a new scene; each says what its row says.
pub(super) fn run(rt: &impl Abort, alloc: Global, p: &Params, rows: &[Row]) -> Result<(), Fail>
    requires { IsTrue (are_params p.now) }
{
    let mut s = open(alloc, p)?;
    for (k, row) in rows.iter().enumerate() {
        if let Step::Open = row.0 {
            s = open(alloc, p)?;
        }
        let told = tell(&mut s, alloc, row.0)?;
        assert_eq!(rt; told.as_str(), row.1, "at step {k}");
    }
    Ok(())
}

// The same, but each step is done in a copy of the scene before it.
pub(super) fn run_in_copies(
    rt: &impl Abort,
    alloc: Global,
    p: &Params,
    rows: &[Row],
) -> Result<(), Fail>
    requires { IsTrue (are_params p.now) }
{
    let mut s = open(alloc, p)?;
    for (k, row) in rows.iter().enumerate() {
        s = match row.0 {
            Step::Open => open(alloc, p)?,
            _ => copied(alloc, &s)?,
        };
        let told = tell(&mut s, alloc, row.0)?;
        assert_eq!(rt; told.as_str(), row.1, "at step {k}");
    }
    Ok(())
}

// A new scene after pages that fire at these penalties, each of a box of this height.
pub(super) fn after_firings(
    alloc: Global,
    p: &Params,
    penalties: &[i64],
) -> Result<Scene, AllocError>
    requires { IsTrue (are_params p.now) }
{
    let mut s = open(alloc, p)?;
    for penalty in penalties {
        s.fire(&boxes(&[10]), *penalty)?;
    }
    Ok(s)
}

fn tell(s: &mut Scene, alloc: Global, step: Step) -> Result<String, Fail> {
    match step {
        Step::Open => Ok(String::new(alloc)),
        Step::Ask | Step::Held | Step::Drops => Ok(state_text(s, alloc, step)?),
        Step::Fire(heights, penalty) => Ok(s.fire(&boxes(heights), penalty)?),
        Step::Deep(heights, penalty) => Ok(s.fire(&deep(heights), penalty)?),
        Step::Glued(heights, penalty) => Ok(s.fire(&glued(heights), penalty)?),
        Step::Place(heights) => Ok(s.place(&boxes(heights))?),
        Step::Event => Ok(s.next_event()?),
        Step::Take(letters, height) => act(s, alloc, Act::Take(float(letters, height)?)),
        Step::Note => act(s, alloc, Act::TakeMargin(note()?)),
        Step::Suppress(area) => act(s, alloc, Act::Suppress(area)),
        Step::Columns(two) => act(s, alloc, Act::Columns { two }),
    }
}

fn deep(heights: &[u8]) -> Text<'_> {
    Text {
        heights,
        depth: 2,
        glue: None,
    }
}

fn glued(heights: &[u8]) -> Text<'_> {
    Text {
        heights,
        depth: 0,
        glue: Some(5),
    }
}

fn state_text(s: &Scene, alloc: Global, step: Step) -> Result<String, AllocError> {
    match step {
        Step::Held => {
            let held = s.held_nodes();
            format!(in alloc; "{held}")
        }
        Step::Drops => {
            let drops = s.drops_a_column();
            format!(in alloc; "{drops}")
        }
        _ => {
            let ask = s.ask();
            let (goal, depth, top) = (ask.goal, ask.max_depth, ask.top_skip);
            let most = s.max_nodes();
            format!(in alloc; "{goal} {depth} {top} {most}")
        }
    }
}

fn act(s: &mut Scene, alloc: Global, a: Act) -> Result<String, Fail>
    requires { IsSizedAct a }
{
    match s.act(a) {
        Ok(()) => Ok(String::new(alloc)),
        Err(full) => {
            let live = full.live;
            Ok(format!(in alloc; "full at {live}")?)
        }
    }
}
