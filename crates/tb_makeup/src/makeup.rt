//! The page makeup over one store: the page builder fills a page, and it ships.

ghost use Rattle.std.specs.Prelude.{◌≡◌, ◌≢◌, ◌≤◌, ◌≤ℤ◌, ◌+◌, ◌++◌, ℕ, pos, false, [], None, IfOk, IfNone, OnOk};
ghost use Rattle.std.specs.List.{AllByRecursion};
ghost use Rattle.std.specs.FinMap.{get};
ghost use Rattle.tb_pool.specs.Lists.{IsLive, list_at};
ghost use Rattle.tb_pool.specs.Frame.{IsNoneOf};
ghost use Rattle.tb_node.specs.PlainNodes.{plain_list};
ghost use Rattle.tb_builder.specs.Contents.{node_count, box_count};
ghost use Rattle.tb_builder.specs.Courses.{IsSound};
ghost use Rattle.tb_builder.specs.PageEvents.{NextFits};
ghost use Rattle.tb_builder.specs.Ownership.{Lacks, ids_of, inner_ids, inner_of, owned};
ghost use Rattle.tb_builder.specs.Contributions.{ListJoins, MayWait, NoPage, ends_in_kern, with_void};
ghost use Rattle.tb_items.specs.WaitingNodes.{lone, AreItems};
ghost use Rattle.tb_items.specs.Happenings.{happened_lists, ArePages};
ghost use Rattle.tb_plain.specs.GalleyNodes.{made_up};
ghost use Rattle.tb_plain.specs.MakeupCalls.{IsPlain, CanFire};
ghost use Rattle.tb_plain.specs.Run.{makeup_ask, makeup_classes, first_makeup, waiting_after};
ghost use Rattle.tb_makeup.specs.MakeupLeft.{nodes_left};
ghost use Rattle.tb_makeup.specs.Makeup.{built_in, held_in, state_of, over_limit, node_total, AreRunParams, AreRunNodes, IsBounded, IsReady, IsTurned, AreHappened};
ghost use Rattle.tb_makeup.specs.MakeupPages.{fired_whole, HasComeTo, IsSupplied, Fills, AreTries, IsBoundedPage, Ships, Contributes, Ejects, Finishes};

use crate::galley_nodes::act_count;
use crate::makeup_left::{MakeupLeft, all_left};
use std::alloc::{AllocError, Global};
use tb_builder::{Ask, Builder, Event, Page, new_builder};
use tb_galley::Galley;
use tb_insert::Class;
use tb_items::{Happening, close_happened, note_sent, note_try};
use tb_node::{FOOTNOTES, Kind, Node, What};
use tb_param::{Params, exceeds};
use tb_plain::{Plain, PlainFault, PlainPage, TOP_FLOATS, clearing_glue, new_plain};
use tb_pool::{ListId, Lists};
use tb_scaled::{MAX_DIMEN, fixed};
use tb_sheet::{Sent, Sheet};

/// Between two firings: one store, the page builder with the nodes that wait, and the state of the page makeup.
#[derive(Drop)]
pub struct Makeup<'a> {
    /// Holds the lists of the builder, and of a page that was shipped until it is done with.
    pub store: Lists<Node>,
    /// Holds what waits.
    pub builder: Builder,
    /// Numbers the pages.
    pub plain: Plain,
    /// What each page is made for.
    pub ask: Ask,
    /// The most nodes that may wait.
    pub limit: i64,
    bound: NodeBound,
    // The items whose nodes do not wait yet, until all wait.
    left: Option<MakeupLeft<'a>>,
}

// A bound on the nodes of the page and of what waits, so that they need not be counted after each page.
#[derive(Clone, Copy)]
struct NodeBound {
    // The nodes, and those that their acts can add.
    most: u64,
    // The acts.
    acts: u64,
}

// No galley has more nodes, those that its acts can add included.
const MOST_NODES: u64 = 7_500_000;

// A page adds no more nodes to those that wait: the glue above its first box, the nodes that end the last page, and those
// of a page for held insertions.
const ADDED_NODES: u64 = 10;

// An act adds no more nodes.
const ACT_NODES: u64 = 5;

/// How a run ends.
#[derive(Clone, Copy)]
pub enum MakeupEnding {
    /// Nothing waits any more, and the page is empty.
    Done,
    /// A page was to be shipped after this many pages.
    PageLimit { pages: u64 },
    /// `count` nodes waited, more than `maxnodes`.
    NodeLimit { count: u64 },
}

// The penalty that ends the last page (TeX: The Program §1054).
const LAST_PENALTY: i64 = -1_073_741_824;

// The class of top floats and that of the footnotes.
fn makeup_classes(alloc: Global, p: &Params) -> Result<Vec<Class>, AllocError>
    ensures { IfOk result (λ cs. cs.items ≡ makeup_classes p.now) }
{
    let mut classes = Vec::new(alloc);
    classes.push(Class {
        number: TOP_FLOATS,
        factor: 1000,
        limit: MAX_DIMEN,
        below: None,
        skip: fixed(0),
    })?;
    classes.push(Class {
        number: FOOTNOTES,
        factor: 1000,
        limit: p.footlimit,
        below: None,
        skip: p.skipfootins,
    })?;
    Ok(classes)
}

// All pages have the same goal, depth limit and top skip.
fn makeup_ask(p: &Params) -> Ask
    ensures { result ≡ makeup_ask p.now }
{
    Ask {
        goal: p.textheight,
        max_depth: p.maxdepth,
        top_skip: p.topskip,
        foot_limit: p.footlimit,
        foot_skip: p.skipfootins,
    }
}

// How many nodes do not wait yet.
fn nodes_left(left: &Option<MakeupLeft<'_>>) -> u64
    requires { node_count (nodes_left left.now) ≤ 8388608 }
    ensures { result ≡ node_count (nodes_left left.now) }
{
    match left {
        Some(left) => left.nodes(),
        None => 0,
    }
}

impl<'a> Makeup<'a> {
    /// All of a galley is left for its first page. It fails only if memory runs out.
    pub fn new(alloc: Global, galley: &'a Galley) -> Result<Self, AllocError>
        requires params { AreRunParams galley.now.params }
        requires items { AreItems (makeup_classes galley.now.params) galley.now.items }
        requires nodes { AreRunNodes (first_makeup (made_up galley.now)) }
        requires few { node_total (first_makeup (made_up galley.now)) + 10 ≤ 7500000 }
        ensures state { IfOk result (λ r. state_of r ≡ first_makeup (made_up galley.now)) }
        ensures params { IfOk result (λ r. r.plain.params ≡ galley.now.params) }
        ensures ready { IfOk result IsReady }
    {
        let mut store = Lists::new(alloc);
        let classes = makeup_classes(alloc, &galley.params)?;
        let builder = new_builder(alloc, &mut store, classes.as_slice())?;
        let bound = NodeBound {
            most: MOST_NODES,
            acts: act_count(galley),
        };
        Ok(Makeup {
            store,
            builder,
            plain: new_plain(&galley.params),
            ask: makeup_ask(&galley.params),
            limit: galley.params.maxnodes,
            bound,
            left: Some(all_left(galley)),
        })
    }

    /// The ending if more nodes wait than `maxnodes`; those in insertions count too.
    pub fn node_limit(&self) -> Option<MakeupEnding>
        requires sound { IsSound self.now.builder self.now.store }
        requires few { node_count (held_in self.now).waiting ≤ 8388608 }
        requires void { box_count (held_in self.now).boxes ≡ 0 }
        ensures { result ≡ over_limit self.now.limit (node_count (held_in self.now).waiting) }
    {
        over_limit(self.waiting_nodes(), self.limit)
    }

    /// Makes the next page of what waits, and ships it; or, if nothing waits any more, ends the last page or the run.
    /// Returns how the run ends with it, if it does.
    ///
    /// `happened` holds the places that were tried, if `wanted` is set, and then the page that shipped, if one did; its list
    /// is the caller's until [`Self::done_with`]. What `happened` held before is gone. If memory runs out, the run cannot go
    /// on.
    pub fn turn(
        &mut self,
        wanted: bool,
        happened: &mut Vec<Happening>,
    ) -> Result<Option<MakeupEnding>, AllocError>
        requires { IsReady self.old }

        ensures turned { IfOk result (λ o. IsTurned wanted self.old happened.new.items o self.new) }
        ensures ready { IfOk result (λ o. IfNone o (IsReady self.new)) }
        ensures params { OnOk result (self.new.plain.params ≡ self.old.plain.params) }
        ensures live { OnOk result (IsLive self.new.store self.new.builder.page) }
        ensures pages { OnOk result (ArePages self.new.store happened.new.items) }
        ensures lists { IfOk result (λ o. IfNone o (AreHappened self.new happened.new.items)) }
    {
        happened.clear();
        match self.fill(wanted, happened)? {
            Some(page) => self.ship(page, happened),
            None => self.finish(),
        }
    }

    /// Closes the list of a page that was shipped, once it was written: its places in the store are free then. Other lists
    /// are as before.
    pub fn done_with(&mut self, happened: &[Happening])
        requires ready { IsReady self.old }
        requires lists { AreHappened self.old happened.now }

        ensures ready { IsReady self.new }
        ensures state { state_of self.new ≡ state_of self.old }
        ensures plain { self.new.plain ≡ self.old.plain }
        ensures closed { AllByRecursion (λ l. get self.new.store.lists l ≡ None) (happened_lists happened.now) }
        ensures others { (q : ℕ) → IsNoneOf q (happened_lists happened.now) → get self.new.store.lists q ≡ get self.old.store.lists q }
    {
        close_happened(&mut self.store, happened);
    }

    // Fills the next page of what waits, up to its firing or the end of what waits. The floats that are reached are taken.
    fn fill(
        &mut self,
        wanted: bool,
        happened: &mut Vec<Happening>,
    ) -> Result<Option<Page>, AllocError>
        requires ready { IsReady self.old }
        requires empty { happened.old.items ≡ [] }
        ensures { IfOk result (λ o. Fills wanted self.old o self.new happened.new.items) }
    {
        'next: loop {
            match self.next_event(wanted)? {
                Event::Try(tried) => note_try(happened, wanted, tried)?,
                Event::Act(act) => self.plain.act(&mut self.store, &mut self.builder, act)?,
                Event::Fired(page) => return Ok(Some(page)),
                Event::Empty => {
                    let Some(left) = self.left else {
                        return Ok(None);
                    };
                    self.supply(left)?;
                }
            }
        }
    }

    // Hands over more of the items that are left.
    fn supply(&mut self, left: MakeupLeft<'a>) -> Result<(), AllocError>
        requires sound { IsSound self.old.builder self.old.store }
        requires items { AreItems (built_in self.old).classes left.items.now }
        requires no_kern { ends_in_kern (built_in self.old).page ≡ false }
        ensures { OnOk result (IsSupplied left.entry self.old self.new) }
    {
        self.left = left.hand_over(&mut self.store, &mut self.builder)?;
        Ok(())
    }

    // The next event of the builder. Places that were tried are passed over unless `wanted` is set.
    fn next_event(&mut self, wanted: bool) -> Result<Event, AllocError>
        requires sound { IsSound self.old.builder self.old.store }
        requires fits { NextFits (built_in self.old) self.old.ask }
        requires none_held { (built_in self.old).held ≡ [] }
        ensures { IfOk result (λ e. HasComeTo wanted e self.old self.new) }
    {
        if wanted {
            return self.builder.next(&mut self.store, &self.ask);
        }
        self.builder.next_without_tries(&mut self.store, &self.ask)
    }

    // A page that fired ships, and what is put back waits.
    fn ship(
        &mut self,
        page: Page,
        happened: &mut Vec<Happening>,
    ) -> Result<Option<MakeupEnding>, AllocError>
        requires plain { IsPlain self.old.plain }
        requires can { CanFire self.old.builder self.old.store page }
        requires few { node_count (waiting_after self.old.plain.params (fired_whole self.old page)) ≤ 8388608 }
        requires void { box_count (with_void 254 (with_void 253 (held_in self.old).boxes)) ≡ 0 }
        requires bounded { IsBoundedPage page self.old }
        requires limit { self.old.limit ≤ℤ pos 4194304 }
        requires tries { AreTries happened.old.items }
        ensures { IfOk result (λ o. Ships page self.old o self.new happened.old.items happened.new.items) }
    {
        match self.plain.fire(&mut self.store, &mut self.builder, page) {
            Ok(made) => {
                self.put_back(made.put_back);
                note_sent(happened, sent_page(&made))?;
                Ok(self.limit_after_page())
            }
            Err(PlainFault::PageLimit { pages }) => Ok(Some(MakeupEnding::PageLimit { pages })),
            Err(PlainFault::Memory) => Err(AllocError),
        }
    }

    // How many nodes wait, with those of the items that are left.
    fn waiting_nodes(&self) -> u64
        requires sound { IsSound self.now.builder self.now.store }
        requires few { node_count (held_in self.now).waiting ≤ 8388608 }
        requires void { box_count (held_in self.now).boxes ≡ 0 }
        ensures { result ≡ node_count (held_in self.now).waiting }
    {
        self.builder.nodes(&self.store) + nodes_left(&self.left)
    }

    // The ending if more nodes wait than `maxnodes` after a page. They are counted only if the bound on them is more than
    // `maxnodes`. The bound is then their number and what their acts can add.
    fn limit_after_page(&mut self) -> Option<MakeupEnding>
        requires sound { IsSound self.old.builder self.old.store }
        requires few { node_count (held_in self.old).waiting ≤ 8388608 }
        requires void { box_count (held_in self.old).boxes ≡ 0 }
        requires empty { (held_in self.old).page ≡ [] }
        requires bounded { IsBounded 10 (state_of self.old) self.old.bound }
        requires limit { self.old.limit ≤ℤ pos 4194304 }
        ensures limit { result ≡ over_limit self.old.limit (node_count (held_in self.old).waiting) }
        ensures same { self.new ≡ record self.old { bound = self.new.bound } }
        ensures bounded { IfNone result (IsBounded 0 (state_of self.new) self.new.bound) }
    {
        self.bound.most += ADDED_NODES;
        if !exceeds(self.bound.most, self.limit) {
            return None;
        }
        let count = self.waiting_nodes();
        self.bound.most = count + ACT_NODES * self.bound.acts;
        over_limit(count, self.limit)
    }

    // Puts the nodes of a list back before what waits, and closes the list.
    fn put_back(&mut self, list: ListId)
        requires sound { IsSound self.old.builder self.old.store }
        requires awaits { NoPage (built_in self.old) }
        requires joins { ListJoins (ids_of self.old.builder) self.old.store list }
        ensures sound { IsSound self.new.builder self.new.store }
        ensures contents { built_in self.new ≡ record (built_in self.old) {
          waiting = (built_in self.old).held ++ (plain_list self.old.store list ++ (built_in self.old).waiting);
          held = [];
        } }
        ensures others { (q : ℕ) → q ≢ list → Lacks q (owned (ids_of self.old.builder) self.old.store) → get self.new.store.lists q ≡ get self.old.store.lists q }
        ensures keeps { (q : ℕ) → Lacks q (owned (ids_of self.old.builder) self.old.store ++ inner_ids (list_at self.old.store list)) → Lacks q (owned (ids_of self.new.builder) self.new.store) }
        ensures plain { self.new.plain ≡ self.old.plain }
        ensures ask { self.new.ask ≡ self.old.ask }
        ensures limit { self.new.limit ≡ self.old.limit }
        ensures bound { self.new.bound ≡ self.old.bound }
        ensures left { self.new.left ≡ self.old.left }
    {
        self.builder.put_back(&mut self.store, list);
        self.store.close(list);
    }

    // Nothing waits: the run is done, unless the page has a node; then the page is ended.
    fn finish(&mut self) -> Result<Option<MakeupEnding>, AllocError>
        requires sound { IsSound self.old.builder self.old.store }
        requires over { (built_in self.old).waiting ≡ [] }
        ensures { IfOk result (λ o. Finishes self.old o self.new) }
    {
        if self.store.len(self.builder.on_page()) == 0 {
            return Ok(Some(MakeupEnding::Done));
        }
        self.eject()?;
        Ok(None)
    }

    // Appends what ends a page that has a node to the waiting nodes (TeX: The Program §1054).
    fn eject(&mut self) -> Result<(), AllocError>
        requires sound { IsSound self.old.builder self.old.store }
        requires over { (built_in self.old).waiting ≡ [] }
        ensures { OnOk result (Ejects self.old self.new) }
    {
        let blank = Kind::Hbox {
            what: What::Blank,
            height: 0,
            depth: 0,
        };
        self.contribute(blank)?;
        self.contribute(Kind::Skip(clearing_glue()))?;
        self.contribute(Kind::Pen(LAST_PENALTY))
    }

    // Appends a node that no item gives (line 0) to the waiting nodes.
    fn contribute(&mut self, kind: Kind) -> Result<(), AllocError>
        requires sound { IsSound self.old.builder self.old.store }
        requires lone { inner_of kind ≡ None }
        requires may_wait { MayWait (built_in self.old) (lone 0 kind) }
        ensures { OnOk result (Contributes (lone 0 kind) self.old self.new) }
    {
        self.builder
            .contribute(&mut self.store, Node { line: 0, kind })
    }
}

// The ending if this many nodes are more than the limit.
fn over_limit(count: u64, limit: i64) -> Option<MakeupEnding>
    ensures { result ≡ over_limit limit count }
{
    if exceeds(count, limit) {
        return Some(MakeupEnding::NodeLimit { count });
    }
    None
}

// A page that ships, as what is sent.
fn sent_page(made: &PlainPage) -> Sent
    ensures { result ≡ Sent.Ship made.now.page (Sheet.One made.now.column) }
{
    Sent::Ship {
        page: made.page,
        sheet: Sheet::One(made.column),
    }
}
