//! A new machine, and what is asked of a machine between two firings.

ghost use Rattle.std.specs.Prelude.{◌≡◌, ◌≤◌, ◌+◌, pos, List, [], ◌∷◌, length, None, IsTrue, IfOk, IfSome, IfNone, OnErr};
ghost use Rattle.std.specs.FinMap.{get};
ghost use Rattle.tb_pool.specs.Lists.{Lists as ListMap, list_at, with_list};
ghost use Rattle.tb_node.specs.declared.Node.{Node as NodeValue};
ghost use Rattle.tb_node.specs.PlainNodes.{PlainNode};
ghost use Rattle.tb_builder.specs.FiredPages.{Boxed};
ghost use Rattle.tb_output.specs.State.{first_state, ask_of, no_suppress, void_boxes};
ghost use Rattle.tb_output.specs.Firing.{IsReach};
ghost use Rattle.tb_output.specs.Machine.{first_view, state_shown, IsMachine, IsPoolSize, AreOutputParams, AreClassesFrom};

use crate::Machine;
use crate::classes::copied;
use crate::events::Events;
use std::alloc::{AllocError, Global};
use tb_builder::Ask;
use tb_float::{Part, Suppress, new_pool};
use tb_insert::Class;
use tb_node::Node;
use tb_param::Params;
use tb_pool::{ListId, Lists};
use tb_sheet::Sent;

/// Nothing is kept out of the areas of floats.
pub(crate) fn no_suppress() -> Suppress
    ensures { result ≡ no_suppress }
{
    Suppress {
        all: false,
        top: false,
        bottom: false,
    }
}

/// How many boxes the pool of floats may hold.
pub(crate) fn pool_size(p: &Params) -> u64
    requires { IsPoolSize p.now.pool }
    ensures size { pos result ≡ p.now.pool }
    ensures most { result ≤ 4096 }
{
    p.pool as u64
}

/// A machine before the first page, in one column, with an empty pool of floats, for these classes of insertions, whose
/// numbers rise. It opens a list for the held page.
///
/// If there is no memory, no list was opened.
pub fn new_machine(
    alloc: Global,
    store: &mut Lists<Node>,
    p: &Params,
    classes: &[Class],
) -> Result<Machine, AllocError>
    requires params { AreOutputParams p.now }
    requires classes { AreClassesFrom 0 classes.now }
    ensures state { IfOk result (λ m. (waiting : List PlainNode) → state_shown store.new (void_boxes classes.now) waiting m ≡ first_state p.now classes.now waiting) }
    ensures machine { IfOk result (λ m. IsMachine m store.new) }
    ensures params { IfOk result (λ m. m.params ≡ p.now) }
    ensures classes { IfOk result (λ m. m.classes ≡ classes.now) }
    ensures events { IfOk result (λ m. m.events ≡ []) }
    ensures fault { IfOk result (λ m. m.fault ≡ None) }
    ensures fresh { IfOk result (λ m. get store.old.lists m.held_page ≡ None) }
    ensures opened { IfOk result (λ m. store.new.lists ≡ with_list store.old m.held_page []) }
    ensures err { OnErr result (store.new.lists ≡ store.old.lists) }
{
    let held_page = store.add_list()?;
    match with_held_page(alloc, p, classes, held_page) {
        Ok(machine) => Ok(machine),
        Err(error) => {
            store.close(held_page);
            Err(error)
        }
    }
}

// A machine before the first page whose held page is this list. The pool is made last, so that no failure lets go of it.
fn with_held_page(
    alloc: Global,
    p: &Params,
    classes: &[Class],
    held_page: ListId,
) -> Result<Machine, AllocError>
    requires { AreOutputParams p.now }
    ensures { IfOk result (λ m. m ≡ first_view p.now classes.now held_page) }
{
    let size = pool_size(p);
    let known = copied(alloc, classes)?;
    let events = roomy_events(alloc, size as usize)?;
    let pool = new_pool(alloc, size)?;
    Ok(Machine {
        alloc,
        params: *p,
        classes: known,
        goal: p.textheight,
        page: 1,
        number: 1,
        dead_cycles: 0,
        held_page,
        held_room: 0,
        note_bottom: 0,
        suppress: no_suppress(),
        shrink: 0,
        two_columns: false,
        first_column: true,
        left_column: None,
        pool,
        events,
        fault: None,
    })
}

// No events, and room for a number of them.
fn roomy_events(alloc: Global, room: usize) -> Result<Events, AllocError>
    requires { room ≤ 4096 }
    ensures { IfOk result (λ e. e ≡ record { sent = []; room = room }) }
{
    let mut events = Events::new(alloc);
    events.keep_room(room)?;
    Ok(events)
}

// How far down or up the marginal notes of a column may reach, in sp.
const MAX_REACH: i64 = 18_014_394_214_514_688;

impl Machine {
    /// The next event that was not taken yet. `None` exactly if no event is left.
    ///
    /// The lists of a page that it returns are the caller's from then on.
    pub fn sent(&mut self) -> Option<Sent>
        ensures some { IfSome result (λ e. self.old ≡ record self.new { events = e ∷ self.new.events }) }
        ensures none { IfNone result ((self.old.events ≡ []) × (self.new ≡ self.old)) }
    {
        self.events.pop()
    }

    /// What the next page is made for, in sp. With floats at the bottom its depth counts as height (ltoutput.dtx,
    /// \@makecol).
    pub fn ask(&self) -> Ask
        ensures { (store : ListMap NodeValue) (boxes : List Boxed) (waiting : List PlainNode) → result ≡ ask_of self.now.params (state_shown store boxes waiting self.now) }
    {
        Ask {
            goal: self.goal,
            max_depth: if self.pool.len(Part::Bottom) > 0 {
                0
            } else {
                self.params.maxdepth
            },
            top_skip: self.params.topskip,
            foot_limit: self.params.footlimit,
            foot_skip: self.params.skipfootins,
        }
    }

    /// Whether the marginal notes of the column reach no further than `fire` allows: less than 2^54 - 2^32 sp up or down.
    pub fn notes_in_reach(&self) -> bool
        ensures within { IsTrue result → IsReach self.now.note_bottom }
        ensures beyond { IsReach self.now.note_bottom → IsTrue result }
    {
        -MAX_REACH < self.note_bottom && self.note_bottom < MAX_REACH
    }

    /// How many nodes may be held.
    pub fn max_nodes(&self) -> i64
        ensures { result ≡ self.now.params.maxnodes }
    {
        self.params.maxnodes
    }

    /// How many floats wait for a column or a page of their own: the deferred ones, and in release 2014 the wide ones.
    pub fn floats_waiting(&self) -> u64
        ensures value { result ≡ length self.now.pool.lists.deferred + length self.now.pool.lists.second }
        ensures few { result ≤ 8192 }
    {
        (self.pool.len(Part::Deferred) + self.pool.len(Part::Second)) as u64
    }

    /// How many nodes the held page has.
    pub fn held_nodes(&self, store: &Lists<Node>) -> u64
        requires { IsMachine self.now store.now }
        ensures { result ≡ length (list_at store.now self.now.held_page) }
    {
        store.len(self.held_page) as u64
    }
}
