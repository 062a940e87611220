//! The output routine over one store: the page builder fills a page, and the machine serves it.

ghost use Rattle.std.specs.Prelude.{◌≡◌, ◌<◌, ◌≤◌, ◌≤ℤ◌, ◌+◌, ◌++◌, [], pos, false, IfOk, IfErr, IfNone, OnOk, List, None, Some};
ghost use Rattle.std.specs.List.{AllByRecursion};
ghost use Rattle.std.specs.FinMap.{get};
ghost use Rattle.tb_node.specs.PlainNodes.{PlainNode, plain_list};
ghost use Rattle.tb_node.specs.Fit.{shapes};
ghost use Rattle.tb_node.specs.Sums.{size_of};
ghost use Rattle.tb_builder.specs.FiredPages.{Boxed};
ghost use Rattle.tb_builder.specs.PageEvents.{fired_room};
ghost use Rattle.tb_builder.specs.Contents.{node_count};
ghost use Rattle.tb_builder.specs.Contributions.{ends_in_kern};
ghost use Rattle.tb_galley.specs.GalleyNodes.{expanded};
ghost use Rattle.tb_output.specs.State.{first_state};
ghost use Rattle.tb_sheet.specs.Asked.{IsSizedAct};
ghost use Rattle.tb_output.specs.ActCalls.{line_of};
ghost use Rattle.tb_output.specs.Machine.{events_shown, state_shown};
ghost use Rattle.tb_output.specs.Firing.{CanFire, CanGoBack};
ghost use Rattle.tb_items.specs.GalleyNodes.{AreGalleyNodes};
ghost use Rattle.tb_steps.specs.Runnable.{AreRunnable, AreRunClasses};
ghost use Rattle.tb_run.specs.ServedStates.{IsServedPage};
ghost use Rattle.tb_items.specs.WaitingNodes.{AreItems};
ghost use Rattle.tb_items.specs.ItemsLeft.{nodes_left, AreItemsLeft, IsOpen};
ghost use Rattle.tb_items.specs.Classes.{classes_of};
ghost use Rattle.tb_steps.specs.Run.{held_count};
ghost use Rattle.tb_items.specs.Happenings.{happened_lists, ArePages};
ghost use Rattle.tb_run.specs.Routine.{built_in, state_of, IsConsistent, IsBounded, IsReady, AreHappened, IsTurned, IsEnded, over_limit, with_events};
ghost use Rattle.tb_run.specs.FilledPages.{sent_happenings, params_in, fired_whole, IsBoundedPage, CanServe, Fills, HasServed};
ghost use Rattle.tb_run.specs.RoutinePages.{IsSupplied, Serves, HasActed, HasNotActed};
ghost use Rattle.tb_run.specs.TurnParts.{CanGoOn, HasPage, HasGoneOn};

use crate::classes::classes_of;
use std::alloc::{AllocError, Global};
use tb_builder::{Builder, Event, Page, new_builder};
use tb_galley::Galley;
use tb_insert::Class;
use tb_items::{Happening, ItemsLeft, all_items, close_happened, close_list, note_sent, note_try};
use tb_node::{Act, Node};
use tb_output::{Full, Machine, RunFault, new_machine};
use tb_param::exceeds;
use tb_pool::{ListId, Lists};

/// Between two firings: one store, the page builder with the nodes that wait, and the output routine's machine.
#[derive(Drop)]
pub struct Routine<'a> {
    /// Holds the lists of the builder, of the machine, and of what was sent until it is done with.
    pub store: Lists<Node>,
    /// Holds what waits.
    pub builder: Builder,
    /// The output routine: its floats, columns, counts, and the events that it has not handed over.
    pub machine: Machine,
    /// A bound on the nodes that are held, so that they need not be counted after each firing.
    pub most: u64,
    /// The items whose nodes do not wait yet, until all wait.
    pub left: Option<ItemsLeft<'a>>,
}

// No galley has more nodes: an item has at most six, and the clear at the end has five.
const MOST_NODES: u64 = 600_005;

// A firing adds no more nodes to those that are held: an insertion of each class, the glue above the first box, and the
// nodes of floats, notes, blank columns and clears.
pub(crate) const ADDED_NODES: u64 = 300;

/// How a run ends.
#[derive(Clone, Copy)]
pub enum Ending {
    /// Nothing fires any more; what is on the page is left.
    Done,
    /// The item on this line found no room in the pool of floats, which holds `live` boxes.
    PoolFull { line: u32, live: u64 },
    /// A firing was refused, or came to the page limit. The fault is not `Memory`.
    Fault(RunFault),
    /// `count` nodes were held, more than `maxnodes`.
    NodeLimit { count: u64 },
}

/// What a page comes to.
#[derive(Clone, Copy)]
pub enum Filled {
    /// It fires, and awaits [`Routine::serve_page`].
    Fires(Page),
    /// The run ends before a page fires.
    Ends(Ending),
}

// What a call does of a turn.
#[derive(Clone, Copy)]
enum Part {
    // The next page is filled and served.
    Whole,
    // The next page is filled.
    Filling,
    // This page, which was filled, is served.
    Serving(Page),
}

// The line of the item that an act takes into the pool of floats.
fn line_of(act: &Act) -> u32
    ensures { result ≡ line_of act.now }
{
    match act {
        Act::Take(float) => float.line,
        Act::TakeMargin(margin) => margin.line,
        Act::Suppress(_) => 0,
        Act::Page(_) => 0,
        Act::Head(head) => head.line,
        Act::Columns { two: _ } => 0,
        Act::Set(_) => 0,
    }
}

// The routine of a galley that has these classes, with these of its items left. The machine is made last, so that no failure
// lets go of it. A routine is too large to be moved from call to call, so this is inlined.
#[inline(always)]
fn begun<'a>(
    alloc: Global,
    galley: &'a Galley,
    served: &[Class],
    left: Option<ItemsLeft<'a>>,
) -> Result<Routine<'a>, AllocError>
    requires params { AreRunnable galley.now.params }
    requires classes { AreRunClasses served.now }
    requires items { AreItemsLeft served.now left }
    requires nodes { AreGalleyNodes served.now (nodes_left left) }

    ensures state { IfOk result (λ r. state_of r ≡ first_state galley.now.params served.now (nodes_left left.entry)) }
    ensures params { IfOk result (λ r. r.machine.params ≡ galley.now.params) }
    ensures left { IfOk result (λ r. r.left ≡ left.entry) }
    ensures ready { IfOk result IsReady }
{
    let mut store = Lists::new(alloc);
    let builder = new_builder(alloc, &mut store, served)?;
    let machine = new_machine(alloc, &mut store, &galley.params, served)?;
    Ok(Routine {
        store,
        builder,
        machine,
        most: MOST_NODES,
        left,
    })
}

// How many nodes do not wait yet.
fn nodes_left(left: &Option<ItemsLeft<'_>>) -> u64
    requires { node_count (nodes_left left.now) ≤ 8388608 }
    ensures { result ≡ node_count (nodes_left left.now) }
{
    match left {
        Some(left) => left.nodes(),
        None => 0,
    }
}

impl<'a> Routine<'a> {
    /// All of a galley is left for its first page. It fails only if memory runs out.
    pub fn new(alloc: Global, galley: &'a Galley) -> Result<Self, AllocError>
        requires params { AreRunnable galley.now.params }
        requires classes { AreRunClasses (classes_of galley.now) }
        requires items { AreItems (classes_of galley.now) galley.now.items }
        requires nodes { AreGalleyNodes (classes_of galley.now) (expanded galley.now) }

        ensures state { IfOk result (λ r. state_of r ≡ first_state galley.now.params (classes_of galley.now) (expanded galley.now)) }
        ensures params { IfOk result (λ r. r.machine.params ≡ galley.now.params) }
        ensures ready { IfOk result IsReady }
    {
        let classes = classes_of(alloc, galley)?;
        begun(alloc, galley, classes.as_slice(), Some(all_items(galley)))
    }

    /// No item of a galley is left for its first page, and nothing waits: the caller hands over what is to wait. It fails only
    /// if memory runs out.
    pub fn empty(alloc: Global, galley: &'a Galley) -> Result<Self, AllocError>
        requires params { AreRunnable galley.now.params }
        requires classes { AreRunClasses (classes_of galley.now) }

        ensures state { IfOk result (λ r. state_of r ≡ first_state galley.now.params (classes_of galley.now) []) }
        ensures params { IfOk result (λ r. r.machine.params ≡ galley.now.params) }
        ensures left { IfOk result (λ r. r.left ≡ None) }
        ensures ready { IfOk result IsReady }
    {
        let classes = classes_of(alloc, galley)?;
        begun(alloc, galley, classes.as_slice(), None)
    }

    /// The ending if more nodes are held than `maxnodes`: those that wait, those of the items that are left, those of the
    /// held page and those of insertions, in their boxes too.
    ///
    /// They are counted only if the bound on them is more than `maxnodes`; the bound is then their number.
    #[inline(always)]
    pub fn node_limit(&mut self) -> Option<Ending>
        requires whole { IsConsistent self.old }
        requires bounded { IsBounded 8388608 self.old }

        ensures limit { result ≡ over_limit self.old.machine.params (held_count (state_of self.old)) }
        ensures same { self.new ≡ record self.old { most = self.new.most } }
        ensures bounded { IsBounded 8388608 self.new }
        ensures within { IfNone result (pos self.new.most ≤ℤ self.old.machine.params.maxnodes) }
    {
        let limit = self.machine.max_nodes();
        if !exceeds(self.most, limit) {
            return None;
        }
        self.most = self.builder.nodes(&self.store)
            + self.machine.held_nodes(&self.store)
            + nodes_left(&self.left);
        if exceeds(self.most, limit) {
            return Some(Ending::NodeLimit { count: self.most });
        }
        None
    }

    /// Makes the next page of what waits, and fires it: it is shipped, or its penalty asks for something else (TeX: The
    /// Program §994, §1012; ltoutput.dtx, \output). Returns how the run ends with it, if it does.
    ///
    /// It is the step of the run: `happened` holds what the output routine sent in the step and, if `wanted` is set, the
    /// places that were tried, all in their order. The lists of the pages that were sent are the caller's until
    /// [`Self::done_with`]. What `happened` held before is gone. If memory runs out, the run cannot go on.
    pub fn turn(
        &mut self,
        wanted: bool,
        happened: &mut Vec<Happening>,
    ) -> Result<Option<Ending>, AllocError>
        requires { IsReady self.old }

        ensures turned { IfOk result (λ o. IsTurned wanted self.old happened.new.items o self.new) }
        ensures ready { IfOk result (λ o. IfNone o (IsReady self.new)) }
        ensures params { OnOk result (self.new.machine.params ≡ params_in (state_of self.old)) }
        ensures ended { OnOk result (IsEnded self.new) }
        ensures pages { OnOk result (ArePages self.new.store happened.new.items) }
        ensures lists { IfOk result (λ o. IfNone o (AreHappened self.new happened.new.items)) }
    {
        happened.clear();
        let mut part = Part::Whole;
        self.go_on(&mut part, wanted, happened)
    }

    /// Fills the next page of what waits, up to its firing or the end of the run; the acts that are reached are done. The
    /// page that fires is to be served by [`Self::serve_page`] next: both are one [`Self::turn`].
    ///
    /// In between the routine shows the state in which the page fires. `happened` holds the warnings of the acts and, if
    /// `wanted` is set, the places that were tried, in their order; it is empty before. If memory runs out, the run cannot
    /// go on.
    pub fn fill(
        &mut self,
        wanted: bool,
        happened: &mut Vec<Happening>,
    ) -> Result<Filled, AllocError>
        requires ready { IsReady self.old }
        requires empty { happened.old.items ≡ [] }
        ensures { IfOk result (λ o. Fills wanted self.old o self.new happened.new.items) }
    {
        let mut part = Part::Filling;
        if let Some(ending) = self.go_on(&mut part, wanted, happened)? {
            return Ok(Filled::Ends(ending));
        }
        match part {
            Part::Serving(page) => Ok(Filled::Fires(page)),
            Part::Whole | Part::Filling => unreachable!(),
        }
    }

    /// Serves the page that [`Self::fill`] returned: it is shipped, or its penalty asks for something else
    /// (ltoutput.dtx, \output). What the firing sent is appended to `happened`, which has no pages before. Returns how the
    /// run ends with it, if it does. If memory runs out, the run cannot go on.
    pub fn serve_page(
        &mut self,
        page: Page,
        happened: &mut Vec<Happening>,
    ) -> Result<Option<Ending>, AllocError>
        requires page { CanServe page self.old }
        requires quiet { happened_lists happened.old.items ≡ [] }

        ensures served { IfOk result (λ o. HasServed page self.old o self.new happened.old.items happened.new.items) }
        ensures ready { IfOk result (λ o. IfNone o (IsReady self.new)) }
        ensures params { OnOk result (self.new.machine.params ≡ self.old.machine.params) }
        ensures ended { OnOk result (IsEnded self.new) }
        ensures pages { OnOk result (ArePages self.new.store happened.new.items) }
        ensures lists { IfOk result (λ o. IfNone o (AreHappened self.new happened.new.items)) }
    {
        let mut part = Part::Serving(page);
        self.go_on(&mut part, false, happened)
    }

    /// Closes the lists of what a turn sent, once it was written: the next nodes take their places in the store, and no more
    /// memory.
    pub fn done_with(&mut self, happened: &[Happening])
        requires ready { IsReady self.old }
        requires lists { AreHappened self.old happened.now }

        ensures ready { IsReady self.new }
        ensures state { state_of self.new ≡ state_of self.old }
        ensures machine { self.new.machine ≡ self.old.machine }
        ensures left { self.new.left ≡ self.old.left }
        ensures closed { AllByRecursion (λ l. get self.new.store.lists l ≡ None) (happened_lists happened.now) }
    {
        close_happened(&mut self.store, happened);
    }

    // Does a part of a turn. If that is the filling of a page that fires, what is left to do is its serving.
    //
    // A turn and both of its halves come by here, so that the code below has one caller, and is inlined.
    fn go_on(
        &mut self,
        part: &mut Part,
        wanted: bool,
        happened: &mut Vec<Happening>,
    ) -> Result<Option<Ending>, AllocError>
        requires { CanGoOn part.old self.old happened.old.items }
        ensures { IfOk result (λ o. HasGoneOn wanted part.old self.old happened.old.items o part.new self.new happened.new.items) }
    {
        let page = match self.page_of(part, wanted, happened)? {
            Filled::Fires(page) => page,
            Filled::Ends(ending) => return Ok(Some(ending)),
        };
        if let Part::Filling = part {
            *part = Part::Serving(page);
            return Ok(None);
        }
        self.serve_next(page, happened)
    }

    // The page that a part of a turn is about: the one that is to be served, or the next one, which is filled.
    fn page_of(
        &mut self,
        part: &Part,
        wanted: bool,
        happened: &mut Vec<Happening>,
    ) -> Result<Filled, AllocError>
        requires { CanGoOn part.now self.old happened.old.items }
        ensures { IfOk result (λ o. HasPage wanted part.now self.old happened.old.items o self.new happened.new.items) }
    {
        if let Part::Serving(page) = part {
            return Ok(Filled::Fires(*page));
        }
        self.fill_next(wanted, happened)
    }

    // Fills the next page.
    fn fill_next(
        &mut self,
        wanted: bool,
        happened: &mut Vec<Happening>,
    ) -> Result<Filled, AllocError>
        requires ready { IsReady self.old }
        requires empty { happened.old.items ≡ [] }
        ensures { IfOk result (λ o. Fills wanted self.old o self.new happened.new.items) }
    {
        // What is asked at the first box, rule or insertion of the page is kept; an act before that may change it.
        let mut ask = self.machine.ask();
        'next: loop {
            match self.next_event(wanted, &ask)? {
                Event::Try(tried) => note_try(happened, wanted, tried)?,
                Event::Act(act) => {
                    if let Err(full) = self.act(act) {
                        return Ok(Filled::Ends(Ending::PoolFull {
                            line: line_of(&act),
                            live: full.live,
                        }));
                    }
                    self.hand_over(happened)?;
                    self.ask_again(&mut ask);
                }
                Event::Fired(page) => return Ok(Filled::Fires(page)),
                Event::Empty => {
                    let Some(left) = self.left else {
                        return Ok(Filled::Ends(Ending::Done));
                    };
                    self.supply(left)?;
                }
            }
        }
    }

    // Serves a page.
    fn serve_next(
        &mut self,
        page: Page,
        happened: &mut Vec<Happening>,
    ) -> Result<Option<Ending>, AllocError>
        requires page { CanServe page self.old }
        requires quiet { happened_lists happened.old.items ≡ [] }

        ensures served { IfOk result (λ o. HasServed page self.old o self.new happened.old.items happened.new.items) }
        ensures ready { IfOk result (λ o. IfNone o (IsReady self.new)) }
        ensures params { OnOk result (self.new.machine.params ≡ self.old.machine.params) }
        ensures ended { OnOk result (IsEnded self.new) }
        ensures pages { OnOk result (ArePages self.new.store happened.new.items) }
        ensures lists { IfOk result (λ o. IfNone o (AreHappened self.new happened.new.items)) }
    {
        let ending = self.serve(page)?;
        self.hand_over(happened)?;
        Ok(ending)
    }

    // Hands over more of the items that are left.
    fn supply(&mut self, left: ItemsLeft<'a>) -> Result<(), AllocError>
        requires whole { IsConsistent self.old }
        requires left { self.old.left ≡ Some left }
        requires no_kern { ends_in_kern (built_in self.old).page ≡ false }
        ensures { OnOk result (IsSupplied left.entry self.old self.new) }
    {
        self.left = left.hand_over(&mut self.store, &mut self.builder)?;
        Ok(())
    }

    // Does an act. A first column that it drops is closed.
    //
    // It stays out of the loop over the events. There LLVM would take the act apart into its fields, and with it each other
    // event, which lies in the same place.
    #[inline(never)]
    fn act(&mut self, act: Act) -> Result<(), Full>
        requires whole { IsConsistent self.old }
        requires act { IsSizedAct act }
        ensures ok { OnOk result (HasActed act self.old self.new) }
        ensures err { IfErr result (λ e. HasNotActed act e.live self.old self.new) }
    {
        let dropped = self.machine.dropped_by(&act);
        self.machine.act(act)?;
        if let Some(list) = dropped {
            close_list(&mut self.store, list);
        }
        Ok(())
    }

    // The machine serves a page that fired, and what it puts back waits. What is sent is with the machine.
    fn serve(&mut self, page: Page) -> Result<Option<Ending>, AllocError>
        requires whole { IsConsistent self.old }
        requires page { CanFire self.old.machine self.old.builder self.old.store page }
        requires room { fired_room self.old.builder ≡ size_of (shapes self.old.store page.body) }
        requires bounded { IsBoundedPage page self.old }
        requires params { AreRunnable self.old.machine.params }
        requires classes { AreRunClasses self.old.machine.classes }
        requires served { IsServedPage (state_of self.old) (fired_whole self.old page) }
        requires ends { (before : List PlainNode) → IsOpen self.old.left (before ++ (built_in self.old).waiting) }
        ensures { IfOk result (λ o. Serves page self.old o self.new) }
    {
        let ending = self.serve_all(page)?;
        if ending.is_some() {
            return Ok(ending);
        }
        Ok(self.node_limit())
    }

    // Puts the nodes of a list back before what waits, and closes the list.
    pub(crate) fn put_back(&mut self, list: ListId)
        requires whole { IsConsistent self.old }
        requires list { CanGoBack list self.old.machine self.old.builder self.old.store }
        ensures whole { IsConsistent self.new }
        ensures contents { built_in self.new ≡ record (built_in self.old) {
          waiting = (built_in self.old).held ++ (plain_list self.old.store list ++ (built_in self.old).waiting);
          held = [];
        } }
        ensures machine { self.new.machine ≡ self.old.machine }
        ensures most { self.new.most ≡ self.old.most }
        ensures left { self.new.left ≡ self.old.left }
        ensures state { (boxes : List Boxed) (waiting : List PlainNode) → state_shown self.new.store boxes waiting self.new.machine ≡ state_shown self.old.store boxes waiting self.old.machine }
        ensures events { events_shown self.new.store self.new.machine.events ≡ events_shown self.old.store self.old.machine.events }
    {
        self.builder.put_back(&mut self.store, list);
        self.store.close(list);
    }

    // Appends what the machine sent and was not taken yet.
    pub(crate) fn hand_over(&mut self, happened: &mut Vec<Happening>) -> Result<(), AllocError>
        ensures events { OnOk result (happened.new.items ≡ happened.old.items ++ sent_happenings self.old.machine.events) }
        ensures machine { OnOk result (self.new ≡ with_events [] self.old) }
    {
        'events: loop {
            let Some(sent) = self.machine.sent() else {
                return Ok(());
            };
            note_sent(happened, sent)?;
        }
    }
}
