//! A machine with the store of its lists, and the pages that it serves.

ghost use Rattle.std.specs.Prelude.{◌≡◌, ◌≢◌, ◌≤◌, ◌<◌, ◌+◌, ℕ, pos, None, length, IfOk, IsTrue};
ghost use Rattle.std.specs.FinMap.{get};
ghost use Rattle.tb_scaled.specs.Glue.{fixed_glue};
ghost use Rattle.tb_pool.specs.Lists.{IsLive, list_at};
ghost use Rattle.tb_param.specs.Ranges.{are_params};
ghost use Rattle.tb_column.specs.Page.{IsPageList};
ghost use Rattle.tb_builder.specs.Courses.{IsSound};
ghost use Rattle.tb_sheet.specs.Asked.{IsSizedAct};
ghost use Rattle.tb_output.specs.Firing.{CanFire};
ghost use Rattle.tb_routine_tests.specs.Scenes.{scene_classes, IsScene, IsReady, IsTextKind, LeavesAll};

use super::telling::{event_text, fault_text, list_text};
use std::alloc::{AllocError, Global};
use std::marker::Model;
use tb_builder::{Ask, Builder, Page, new_builder};
use tb_insert::Class;
use tb_node::{Act, FOOTNOTES, HOLD_PENALTY, Kind, Node, PAR_PENALTY, What};
use tb_output::{Full, Machine, RunFault, Turn, new_machine};
use tb_param::{Params, defaults};
use tb_pool::{ListId, Lists};
use tb_scaled::fixed;

// A machine that serves the classes 3 and 254, and its store.
#[derive(Drop)]
pub(super) struct Scene {
    alloc: Global,
    store: Lists<Node>,
    machine: Machine,
}

impl Model for Scene {
    ghost use Rattle.tb_output.specs.Machine.{MachineView};
    ghost use Rattle.tb_routine_tests.specs.Scenes.{IsScene};

    ghost Value = { MachineView };

    ghost view = { λ s. s.machine };

    ghost invariant = { λ s. IsScene s.machine s.store };
}

pub(super) fn open(alloc: Global, p: &Params) -> Result<Scene, AllocError>
    requires { IsTrue (are_params p.now) }
{
    let mut store = Lists::new(alloc);
    let machine = new_machine(alloc, &mut store, p, &classes())?;
    Ok(Scene {
        alloc,
        store,
        machine,
    })
}

// A copy of a scene, in place of a new machine for other parameters.
pub(super) fn copied(alloc: Global, other: &Scene) -> Result<Scene, AllocError> {
    let mut own = Lists::new(alloc);
    let mut machine = new_machine(alloc, &mut own, &defaults(), &classes())?;
    machine.copy_from(&other.machine)?;
    let store = other.store.copy()?;
    Ok(Scene {
        alloc,
        store,
        machine,
    })
}

// The nodes of a page: boxes of these heights and of this depth, each after glue of width 0, and glue of this width.
#[derive(Clone, Copy)]
pub(super) struct Text<'a> {
    /// The heights of the boxes.
    pub heights: &'a [u8],
    /// The depth of each.
    pub depth: u8,
    /// The width of the glue after the last box, if there is any.
    pub glue: Option<u8>,
}

pub(super) fn boxes(heights: &[u8]) -> Text<'_> {
    Text {
        heights,
        depth: 0,
        glue: None,
    }
}

impl Scene {
    /// Does what an act says.
    pub fn act(&mut self, a: Act) -> Result<(), Full>
        requires { IsSizedAct a }
    {
        self.machine.act(a)?;
        Ok(())
    }

    /// Whether a change of columns leaves the list of a first column to the caller.
    pub fn drops_a_column(&self) -> bool {
        self.machine
            .dropped_by(&Act::Columns { two: false })
            .is_some()
    }

    /// What the next page is made for.
    pub fn ask(&self) -> Ask {
        self.machine.ask()
    }

    /// How many nodes may be held.
    pub fn max_nodes(&self) -> i64 {
        self.machine.max_nodes()
    }

    /// How many nodes the held page has.
    pub fn held_nodes(&self) -> u64 {
        self.machine.held_nodes(&self.store)
    }

    /// Whether no count is greater than that of another scene, and notes go to the same sides, if they may change sides.
    pub fn counts_within(&self, other: &Scene, may_alternate: bool) -> bool {
        self.machine.counts_within(&other.machine, may_alternate)
    }

    /// A page that is held, and then one that ends at a float or note in a paragraph. Returns what the second firing says.
    pub fn place(&mut self, t: &Text<'_>) -> Result<String, AllocError> {
        self.fire(t, HOLD_PENALTY)?;
        self.fire(&boxes(&[0]), PAR_PENALTY)
    }

    /// A page without insertions fires with this penalty. Returns the goal with what goes back, or the fault.
    pub fn fire(&mut self, t: &Text<'_>, penalty: i64) -> Result<String, AllocError> {
        fire_text(self.alloc, &mut self.store, &mut self.machine, t, penalty)
    }

    /// The next event; empty if there is none.
    pub fn next_event(&mut self) -> Result<String, AllocError> {
        match self.machine.sent() {
            Some(sent) => event_text(self.alloc, &self.store, sent),
            None => Ok(String::new(self.alloc)),
        }
    }
}

// A page of this text fires over a builder that holds nothing.
fn fire_text(
    alloc: Global,
    store: &mut Lists<Node>,
    machine: &mut Machine,
    t: &Text<'_>,
    penalty: i64,
) -> Result<String, AllocError>
    requires { IsScene machine.old store.old }
    ensures { IsScene machine.new store.new }
{
    if t.heights.len() > 100 {
        return format!(in alloc; "too long");
    }
    if !is_ready(store, machine, penalty) {
        return format!(in alloc; "not ready");
    }
    let body = text_list(store, t)?;
    let mut builder = new_builder(alloc, store, &classes())?;
    fire_over(alloc, store, machine, &mut builder, page_of(body, penalty))
}

// The same of a page of this builder.
fn fire_over(
    alloc: Global,
    store: &mut Lists<Node>,
    machine: &mut Machine,
    b: &mut Builder,
    page: Page,
) -> Result<String, AllocError>
    requires scene { IsScene machine.old store.old }
    requires builder { IsSound b.old store.old }
    requires page { CanFire machine.old b.old store.old page }
    ensures { IsScene machine.new store.new }
{
    let fired = machine.fire(store, b, page);
    fired_text(alloc, store, machine.ask().goal, fired)
}

// This goal and what goes back, or the fault.
fn fired_text(
    alloc: Global,
    store: &Lists<Node>,
    goal: i64,
    fired: Result<Turn, RunFault>,
) -> Result<String, AllocError>
    requires { IfOk fired (λ t. IsLive store.now t.put_back) }
{
    match fired {
        Ok(turn) => {
            let back = list_text(alloc, store, turn.put_back)?;
            format!(in alloc; "{goal}:{back}")
        }
        Err(fault) => fault_text(alloc, fault),
    }
}

// Whether a page of this penalty may fire: the notes reach no further down than a firing allows, and little is held.
fn is_ready(store: &Lists<Node>, machine: &Machine, penalty: i64) -> bool
    requires { IsScene machine.now store.now }
    ensures { IsTrue result → IsReady machine.now store.now penalty }
{
    if penalty < HOLD_PENALTY || !machine.notes_in_reach() {
        return false;
    }
    machine.held_nodes(store) <= 1000
}

// A new list of these nodes.
fn text_list(store: &mut Lists<Node>, t: &Text<'_>) -> Result<ListId, AllocError>
    requires { length t.now.heights.now ≤ 100 }
    ensures page { IfOk result (λ l. IsPageList store.new l) }
    ensures few { IfOk result (λ l. length (list_at store.new l) ≤ 201) }
    ensures fresh { IfOk result (λ l. get store.old.lists l ≡ None) }
    ensures others { LeavesAll store.old store.new }
{
    store.reserve(2 * t.heights.len() + 1)?;
    let list = store.add_list()?;
    for height in t.heights {
        push_text(store, list, glue_of(0));
        push_text(store, list, box_of(*height, t.depth));
    }
    if let Some(width) = t.glue {
        push_text(store, list, glue_of(width));
    }
    Ok(list)
}

fn push_text(store: &mut Lists<Node>, list: ListId, kind: Kind)
    requires page { IsPageList store.old list }
    requires kind { IsTextKind kind }
    requires few { length (list_at store.old list) < 1000 }
    requires room { 0 < store.old.spare }
    ensures page { IsPageList store.new list }
    ensures count { length (list_at store.new list) ≡ length (list_at store.old list) + 1 }
    ensures spare { store.new.spare + 1 ≡ store.old.spare }
    ensures others { (q : ℕ) → q ≢ list → get store.new.lists q ≡ get store.old.lists q }
{
    store.push_back(list, Node { line: 0, kind });
}

fn glue_of(width: u8) -> Kind
    ensures { IsTextKind result }
{
    Kind::Skip(fixed(i64::from(width)))
}

fn box_of(height: u8, depth: u8) -> Kind
    ensures { IsTextKind result }
{
    Kind::Hbox {
        what: What::Blank,
        height: i64::from(height),
        depth: i64::from(depth),
    }
}

fn page_of(body: ListId, penalty: i64) -> Page
    ensures body { result.body ≡ body }
    ensures penalty { result.penalty ≡ penalty }
    ensures shrink { result.shrink ≡ pos 0 }
{
    Page {
        body,
        penalty,
        cost: 0,
        size: 0,
        shrink: 0,
        line: 1,
        held: 0,
    }
}

// Class 3 has glue of width 4 above it, and footnotes have none.
fn classes() -> [Class; 2]
    ensures { result ≡ scene_classes }
{
    [class_of(3, 4), class_of(FOOTNOTES, 0)]
}

fn class_of(number: u8, skip: u8) -> Class
    ensures { result ≡ record { number = number; factor = pos 1000; limit = pos 1000; below = None; skip = fixed_glue (pos skip) } }
{
    Class {
        number,
        factor: 1000,
        limit: 1000,
        below: None,
        skip: fixed(i64::from(skip)),
    }
}
