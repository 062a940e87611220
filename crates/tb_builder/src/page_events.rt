//! A page is filled: the waiting nodes go on it one by one, up to the next event.

ghost use Rattle.std.specs.Prelude.{◌≡◌, ◌<◌, ◌≤◌, ◌+◌, List, [], ◌∷◌, true, false, not, Some, None, IsSome, IfOk, OnOk, OnErr, slice_get, length, drop};
ghost use Rattle.tb_pool.specs.Lists.{list_at};
ghost use Rattle.tb_node.specs.declared.Node.{Node as NodeOf};
ghost use Rattle.tb_node.specs.Shape.{is_discardable};
ghost use Rattle.tb_node.specs.PlainNodes.{shape_of};
ghost use Rattle.tb_node.specs.Roles.{act_of_kind, insertion_of_kind};
ghost use Rattle.tb_builder.specs.Ownership.{ids_of, IsOwned, KeepsOthers};
ghost use Rattle.tb_builder.specs.Reach.{holds_box};
ghost use Rattle.tb_builder.specs.Contents.{contents_of};
ghost use Rattle.tb_builder.specs.Courses.{IsSound, Underway, kept_frozen};
ghost use Rattle.tb_builder.specs.PageEvents.{NextFits, NextIs, IsGivenOut, TellsRoom};
ghost use Rattle.tb_builder.specs.PageProgress.{IsNextOfPage};
ghost use Rattle.tb_builder.specs.PassedNodes.{EventPast};
ghost use Rattle.tb_builder.specs.PageCalls.{ComesAfter, IsNoPlace};
ghost use Rattle.tb_builder.specs.PageWalks.{moved, LeadsOn, seen_of};
ghost use Rattle.tb_builder.specs.declared.Seen.TheVariants.{Space, Gate};
ghost use Rattle.tb_builder.specs.declared.Ask.{Ask as AskOf};
ghost use Rattle.tb_builder.specs.declared.Event.TheVariants.{Act as an_act};
ghost use Rattle.tb_builder.specs.PageTurns.{ChangesPage, StepIs, StepFits, event_of, turn_by, TurnIs, TurnTo, Filled};

use crate::courses::stops;
use crate::front_nodes::{drop_first, first_in, glue_behind, glue_in, penalty_of, seen_in};
use crate::fronts::move_front;
use crate::sizes::list_size;
use crate::{Ask, Builder, Event, Seen, Turn};
use std::alloc::AllocError;
use tb_break::place_penalty;
use tb_node::{Act, Kind, Node, Role};
use tb_pool::Lists;
use tb_scaled::INF_PENALTY;

// The turn of a node that is no event of its own, by whether a place was tried.
fn turn_by(tried: bool) -> Turn
    ensures { result ≡ turn_by tried }
{
    if tried { Turn::Tried } else { Turn::Goes }
}

impl Builder {
    /// The next event: the next legal place or act among the waiting nodes. The nodes before it are on the page then.
    /// After a place that is a stop, the next call fires the page. From the start of a page on, the events are those of
    /// the whole page, and the page that fires is the whole page's. If no place or act is left, the event is Empty, and
    /// no node waits (TeX: The Program §994 to §1028). After a page fired, `put_back` must come before the next call.
    ///
    /// Memory is taken first: if that fails, the builder and all lists are as before.
    #[inline(always)]
    pub fn next(&mut self, store: &mut Lists<Node>, ask: &Ask) -> Result<Event, AllocError>
        requires sound { IsSound self.old store.old }
        requires fits { NextFits (contents_of self.old store.old) ask.now }
        requires none_held { (contents_of self.old store.old).held ≡ [] }
        ensures page { IfOk result (λ e. IsNextOfPage e (contents_of self.old store.old) ask.now (contents_of self.new store.new) store.new) }
        ensures event { IfOk result (λ e. NextIs self.old.stopped e (contents_of self.old store.old) ask.now (contents_of self.new store.new) store.new) }
        ensures past { IfOk result (λ e. self.old.stopped ≡ false → EventPast e (contents_of self.old store.old) (contents_of self.new store.new) ask.now) }
        ensures sound { IsSound self.new store.new }
        ensures keeps { KeepsOthers (ids_of self.old) store.old (ids_of self.new) store.new }
        ensures body { IfOk result (λ e. IsGivenOut e store.old (ids_of self.new) store.new) }
        ensures room { IfOk result (λ e. TellsRoom e self.new store.new) }
        ensures builder { OnErr result (self.new ≡ self.old) }
        ensures lists { OnErr result (store.new.lists ≡ store.old.lists) }
    {
        if self.stopped {
            let page = self.fire(store)?;
            return Ok(Event::Fired(page));
        }
        self.make_room(store)?;
        Ok(self.fill(store, ask))
    }

    /// The next event that is not a try: an act, a page that fires, or Empty. It is the first such event that calls of
    /// [`Self::next`] would return; the places in between are tried here too, but their tries are not returned.
    ///
    /// If there is no memory, some of those places may have been tried already.
    #[inline(always)]
    pub fn next_without_tries(
        &mut self,
        store: &mut Lists<Node>,
        ask: &Ask,
    ) -> Result<Event, AllocError>
        requires sound { IsSound self.old store.old }
        requires fits { NextFits (contents_of self.old store.old) ask.now }
        requires none_held { (contents_of self.old store.old).held ≡ [] }
        ensures comes { IfOk result (λ e. ComesAfter self.old store.old ask.now e self.new store.new) }
        ensures no_place { IfOk result IsNoPlace }
        ensures sound { IsSound self.new store.new }
        ensures keeps { KeepsOthers (ids_of self.old) store.old (ids_of self.new) store.new }
    {
        'places: loop {
            self.pass_nodes(store, ask);
            if self.stopped {
                return self.next(store, ask);
            }
            self.make_room(store)?;
            match self.turn(store, ask) {
                Turn::Goes => {}
                Turn::Tried => {}
                Turn::Acts => return Ok(Event::Act(self.hand_out(store))),
                Turn::Ends => return Ok(Event::Empty),
            }
        }
    }

    // The first waiting nodes go on the page, all at once: on a page that is laid out as far as the walk goes, and on
    // another the marks, notes and whatsits.
    #[inline(always)]
    fn pass_nodes(&mut self, store: &mut Lists<Node>, ask: &Ask)
        requires sound { IsSound self.old store.old }
        requires fits { NextFits (contents_of self.old store.old) ask.now }
        ensures leads { LeadsOn self.old store.old ask.now self.new store.new }
        ensures stopped { self.old.stopped ≡ true → self.new.stopped ≡ true }
        ensures few { length (contents_of self.new store.new).waiting ≤ length (contents_of self.old store.old).waiting }
    {
        if self.stopped {
            return;
        }
        if self.opened {
            self.pass_laid_out(store, ask);
        } else if !self.course.lasting {
            // Most of them come first, from a page that was put back; one behind other nodes takes a turn of its own.
            self.pass_still(store);
        }
    }

    // The first waiting nodes go on a page that is laid out, all at once, as far as the walk goes.
    #[inline(never)]
    fn pass_laid_out(&mut self, store: &mut Lists<Node>, ask: &Ask)
        requires sound { IsSound self.old store.old }
        requires on { self.old.stopped ≡ false }
        requires opened { self.old.opened ≡ true }
        requires fits { NextFits (contents_of self.old store.old) ask.now }
        ensures leads { LeadsOn self.old store.old ask.now self.new store.new }
        ensures few { length (contents_of self.new store.new).waiting ≤ length (contents_of self.old store.old).waiting }
    {
        let passed = self.walk(store, ask);
        if passed == 0 {
            return;
        }
        move_front(store, self.page, self.waiting, self.rest, passed);
    }

    // How many of the first waiting nodes go on the page: those before a stop, or before a node that is left to `next`, as
    // the last one is. The places before them are tried.
    fn walk(&mut self, store: &Lists<Node>, ask: &Ask) -> usize
        requires sound { IsSound self.old store.now }
        requires on { self.old.stopped ≡ false }
        requires opened { self.old.opened ≡ true }
        requires fits { NextFits (contents_of self.old store.now) ask.now }
        ensures within { result ≤ length (list_at store.now self.old.waiting) }
        ensures leads { LeadsOn self.old store.now ask.now self.new (moved (ids_of self.old) store.now result) }
        ensures ids { ids_of self.new ≡ ids_of self.old }
    {
        let before = store.len(self.page);
        let all = store.len(self.waiting);
        let Some(end) = before.checked_add(all) else {
            return 0;
        };
        let mut nodes = store.iter(self.waiting);
        let Some(first) = nodes.next() else {
            return 0;
        };
        let mut n = first;
        let mut left = all;
        for behind in nodes {
            if !self.passes(store, ask, n, behind, end - left, all - left) {
                return all - left;
            }
            n = behind;
            left -= 1;
        }
        all - left
    }

    // Whether the next node goes on the page, which has `index` nodes with those that the walk passed. The node behind it is
    // looked at if it is a kern.
    #[inline(always)]
    fn passes(
        &mut self,
        store: &Lists<Node>,
        ask: &Ask,
        n: &Node,
        behind: &Node,
        index: usize,
        passed: usize,
    ) -> bool
        requires sound { IsSound self.old (moved (ids_of self.old) store.now passed) }
        requires on { self.old.stopped ≡ false }
        requires opened { self.old.opened ≡ true }
        requires fits { NextFits (contents_of self.old (moved (ids_of self.old) store.now passed)) ask.now }
        requires first { drop passed (list_at store.now self.old.waiting) ≡ n.now ∷ drop (passed + 1) (list_at store.now self.old.waiting) }
        requires index { index ≡ length (list_at store.now self.old.page) + passed }
        requires behind { slice_get (drop (passed + 1) (list_at store.now self.old.waiting)) 0 ≡ Some behind.now }
        ensures goes { result ≡ true → LeadsOn self.old (moved (ids_of self.old) store.now passed) ask.now self.new (moved (ids_of self.old) store.now (passed + 1)) }
        ensures on { result ≡ true → self.new.stopped ≡ false }
        ensures ends { result ≡ false → LeadsOn self.old (moved (ids_of self.old) store.now passed) ask.now self.new (moved (ids_of self.old) store.now passed) }
        ensures opened { self.new.opened ≡ true }
        ensures ids { ids_of self.new ≡ ids_of self.old }
    {
        match seen_in(n) {
            Seen::Solid { height, depth } => {
                self.course.put_box(height, depth);
                true
            }
            Seen::Space => self.passes_glue(store, ask, n, index, passed),
            Seen::Still => {
                self.course.put_flat(true);
                true
            }
            Seen::Gate { penalty } => self.passes_penalty(store, ask, n, index, passed, penalty),
            Seen::Other => self.passes_other(store, ask, n, behind, index, passed),
        }
    }

    // The same of glue.
    #[inline(always)]
    fn passes_glue(
        &mut self,
        store: &Lists<Node>,
        ask: &Ask,
        n: &Node,
        index: usize,
        passed: usize,
    ) -> bool
        requires sound { IsSound self.old (moved (ids_of self.old) store.now passed) }
        requires on { self.old.stopped ≡ false }
        requires opened { self.old.opened ≡ true }
        requires fits { NextFits (contents_of self.old (moved (ids_of self.old) store.now passed)) ask.now }
        requires first { drop passed (list_at store.now self.old.waiting) ≡ n.now ∷ drop (passed + 1) (list_at store.now self.old.waiting) }
        requires index { index ≡ length (list_at store.now self.old.page) + passed }
        requires glue { seen_of n.now.kind ≡ Space }
        ensures goes { result ≡ true → LeadsOn self.old (moved (ids_of self.old) store.now passed) ask.now self.new (moved (ids_of self.old) store.now (passed + 1)) }
        ensures on { result ≡ true → self.new.stopped ≡ false }
        ensures ends { result ≡ false → LeadsOn self.old (moved (ids_of self.old) store.now passed) ask.now self.new (moved (ids_of self.old) store.now passed) }
        ensures opened { self.new.opened ≡ true }
        ensures ids { ids_of self.new ≡ ids_of self.old }
    {
        if !self.course.lasting {
            self.course.put_glue(glue_in(n));
            return true;
        }
        let tried = self.course.offer(index, n.line, 0);
        if stops(&tried) {
            self.stopped = true;
            return false;
        }
        self.course.put_glue(glue_in(n));
        true
    }

    // The same of a penalty.
    fn passes_penalty(
        &mut self,
        store: &Lists<Node>,
        ask: &Ask,
        n: &Node,
        index: usize,
        passed: usize,
        penalty: i64,
    ) -> bool
        requires sound { IsSound self.old (moved (ids_of self.old) store.now passed) }
        requires on { self.old.stopped ≡ false }
        requires opened { self.old.opened ≡ true }
        requires fits { NextFits (contents_of self.old (moved (ids_of self.old) store.now passed)) ask.now }
        requires first { drop passed (list_at store.now self.old.waiting) ≡ n.now ∷ drop (passed + 1) (list_at store.now self.old.waiting) }
        requires index { index ≡ length (list_at store.now self.old.page) + passed }
        requires gate { seen_of n.now.kind ≡ Gate penalty }
        ensures goes { result ≡ true → LeadsOn self.old (moved (ids_of self.old) store.now passed) ask.now self.new (moved (ids_of self.old) store.now (passed + 1)) }
        ensures on { result ≡ true → self.new.stopped ≡ false }
        ensures ends { result ≡ false → LeadsOn self.old (moved (ids_of self.old) store.now passed) ask.now self.new (moved (ids_of self.old) store.now passed) }
        ensures opened { self.new.opened ≡ true }
        ensures ids { ids_of self.new ≡ ids_of self.old }
    {
        if penalty >= INF_PENALTY {
            self.course.put_flat(false);
            return true;
        }
        let tried = self.course.offer(index, n.line, penalty);
        if stops(&tried) {
            self.stopped = true;
            return false;
        }
        self.course.put_flat(false);
        true
    }

    // The same of a node that need not be a box, a rule or glue. The walk is to test for boxes and glue first, so this is
    // marked as cold.
    #[cold]
    #[inline(never)]
    fn passes_other(
        &mut self,
        store: &Lists<Node>,
        ask: &Ask,
        n: &Node,
        behind: &Node,
        index: usize,
        passed: usize,
    ) -> bool
        requires sound { IsSound self.old (moved (ids_of self.old) store.now passed) }
        requires on { self.old.stopped ≡ false }
        requires opened { self.old.opened ≡ true }
        requires fits { NextFits (contents_of self.old (moved (ids_of self.old) store.now passed)) ask.now }
        requires first { drop passed (list_at store.now self.old.waiting) ≡ n.now ∷ drop (passed + 1) (list_at store.now self.old.waiting) }
        requires index { index ≡ length (list_at store.now self.old.page) + passed }
        requires behind { slice_get (drop (passed + 1) (list_at store.now self.old.waiting)) 0 ≡ Some behind.now }
        ensures goes { result ≡ true → LeadsOn self.old (moved (ids_of self.old) store.now passed) ask.now self.new (moved (ids_of self.old) store.now (passed + 1)) }
        ensures on { result ≡ true → self.new.stopped ≡ false }
        ensures ends { result ≡ false → LeadsOn self.old (moved (ids_of self.old) store.now passed) ask.now self.new (moved (ids_of self.old) store.now passed) }
        ensures opened { self.new.opened ≡ true }
        ensures ids { ids_of self.new ≡ ids_of self.old }
    {
        let Some(follows) = glue_behind(n, behind) else {
            return false;
        };
        let Some(penalty) = place_penalty(n, self.course.lasting, follows) else {
            self.course.put(n);
            return true;
        };
        let tried = self.course.offer(index, n.line, penalty);
        if stops(&tried) {
            self.stopped = true;
            return false;
        }
        self.course.put(n);
        true
    }

    // Makes room for the top glue, unless the page has it.
    fn make_room(&self, store: &mut Lists<Node>) -> Result<(), AllocError>
        ensures room { OnOk result (self.now.opened ≡ false → 0 < store.new.spare) }
        ensures lists { store.new.lists ≡ store.old.lists }
    {
        if self.opened {
            return Ok(());
        }
        store.reserve(1)
    }

    // The waiting nodes go on the page, up to the next event.
    #[inline(always)]
    fn fill(&mut self, store: &mut Lists<Node>, ask: &Ask) -> Event
        requires sound { IsSound self.old store.old }
        requires on { self.old.stopped ≡ false }
        requires fits { NextFits (contents_of self.old store.old) ask.now }
        requires room { self.old.opened ≡ false → 0 < store.old.spare }
        ensures { Filled self.old store.old ask.now result self.new store.new }
    {
        'turns: loop {
            match self.turn(store, ask) {
                Turn::Goes => {}
                Turn::Tried => return Event::Try(self.tried),
                Turn::Acts => return Event::Act(self.hand_out(store)),
                Turn::Ends => return Event::Empty,
            }
        }
    }

    // One turn: the first waiting node goes on the page or vanishes, unless it is an act. No node is copied.
    #[inline(always)]
    fn turn(&mut self, store: &mut Lists<Node>, ask: &Ask) -> Turn
        requires sound { IsSound self.old store.old }
        requires on { self.old.stopped ≡ false }
        requires fits { NextFits (contents_of self.old store.old) ask.now }
        requires room { self.old.opened ≡ false → 0 < store.old.spare }
        ensures { TurnTo result self.old store.old ask.now self.new store.new }
    {
        let Some(n) = first_in(store, self.waiting) else {
            return Turn::Ends;
        };
        if self.goes_on(n) {
            return turn_by(self.step(store));
        }
        if self.vanishes(n) {
            drop_first(store, self.waiting);
            return Turn::Goes;
        }
        match n.role() {
            Role::Act(_) => Turn::Acts,
            Role::Insertion(_) => {
                self.meet(store, ask);
                Turn::Goes
            }
            Role::Matter => turn_by(self.begin(store, ask)),
        }
    }

    // The first waiting node, an act, is handed out.
    fn hand_out(&self, store: &mut Lists<Node>) -> Act
        requires sound { IsSound self.now store.old }
        requires on { self.now.stopped ≡ false }
        requires some { IsSome (slice_get (list_at store.old self.now.waiting) 0) }
        requires act { (n : NodeOf) → slice_get (list_at store.old self.now.waiting) 0 ≡ Some n → IsSome (act_of_kind n.kind) }
        ensures { (ask : AskOf) → TurnIs self.now store.old ask (Some (an_act result)) self.now store.new }
    {
        let Some(n) = first_in(store, self.waiting) else {
            unreachable!()
        };
        let Role::Act(act) = n.role() else {
            unreachable!()
        };
        drop_first(store, self.waiting);
        act
    }

    // Whether the node is glue, a kern or a penalty before the first box of the page.
    fn vanishes(&self, n: &Node) -> bool
        ensures closed { result ≡ true → self.now.opened ≡ false }
        ensures gone { result ≡ true → not (is_discardable (shape_of n.now)) ≡ false }
        ensures no_insertion { result ≡ true → insertion_of_kind n.now.kind ≡ None }
        ensures stays { result ≡ false → self.now.opened ≡ false → not (is_discardable (shape_of n.now)) ≡ true }
    {
        !self.opened && matches!(n.kind, Kind::Skip(_) | Kind::Kern(_) | Kind::Pen(_))
    }

    // Whether the page is laid out, and the node is no act and no insertion.
    fn goes_on(&self, n: &Node) -> bool
        ensures opened { result ≡ true → self.now.opened ≡ true }
        ensures no_act { result ≡ true → act_of_kind n.now.kind ≡ None }
        ensures no_insertion { result ≡ true → insertion_of_kind n.now.kind ≡ None }
        ensures closed { result ≡ false → act_of_kind n.now.kind ≡ None → insertion_of_kind n.now.kind ≡ None → self.now.opened ≡ false }
    {
        self.opened && matches!(n.role(), Role::Matter)
    }

    // The first waiting node, an insertion, goes on the page.
    #[inline(never)]
    fn meet(&mut self, store: &mut Lists<Node>, ask: &Ask)
        requires sound { IsSound self.old store.old }
        requires on { self.old.stopped ≡ false }
        requires fits { NextFits (contents_of self.old store.old) ask.now }
        requires some { IsSome (slice_get (list_at store.old self.old.waiting) 0) }
        requires insertion { (n : NodeOf) → slice_get (list_at store.old self.old.waiting) 0 ≡ Some n → IsSome (insertion_of_kind n.kind) }
        ensures { TurnIs self.old store.old ask.now None self.new store.new }
    {
        let Some(n) = first_in(store, self.waiting) else {
            unreachable!()
        };
        let Role::Insertion(i) = n.role() else {
            unreachable!()
        };
        self.freeze(ask);
        let index = store.len(self.page);
        if self.course.is_late(i.class) {
            self.course.join_late(&i, index);
            store.move_first(self.waiting, self.page);
            return;
        }
        let own = self.class_list(i.class);
        let class = self.class_made(&own.class);
        let size = list_size(store, own.list);
        self.course.join(store, &i, index, &class, size);
        store.move_first(self.waiting, self.page);
    }

    // The first waiting node on a page that is laid out, no act and no insertion: its place is tried if it is legal,
    // and the node goes on the page unless that is a stop. Returns whether it was tried; `tried` has the result.
    #[inline(always)]
    fn step(&mut self, store: &mut Lists<Node>) -> bool
        requires own { IsOwned (ids_of self.old) store.old }
        requires some { IsSome (slice_get (list_at store.old self.old.waiting) 0) }
        requires on { self.old.stopped ≡ false }
        requires underway { Underway (kept_frozen (contents_of self.old store.old)) self.old.course (contents_of self.old store.old).page (contents_of self.old store.old).waiting }
        requires fits { (n : NodeOf) → slice_get (list_at store.old self.old.waiting) 0 ≡ Some n → StepFits (kept_frozen (contents_of self.old store.old)) (contents_of self.old store.old).page (list_at store.old) n }
        ensures moves { ChangesPage self.old store.old self.new store.new }
        ensures step { StepIs (event_of result self.new.tried) (kept_frozen (contents_of self.old store.old)) self.new.course (contents_of self.old store.old) (contents_of self.new store.new) }
        ensures behind { (n : NodeOf) (ns : List NodeOf) → self.new.stopped ≡ false → list_at store.old self.old.waiting ≡ n ∷ ns → list_at store.new self.new.waiting ≡ ns }
        ensures boxed { holds_box (contents_of self.old store.old).page ≡ true → holds_box (contents_of self.new store.new).page ≡ true }
        ensures opened { self.new.opened ≡ self.old.opened }
        ensures frozen { self.new.frozen ≡ self.old.frozen }
        ensures ids { ids_of self.new ≡ ids_of self.old }
    {
        let Some(n) = first_in(store, self.waiting) else {
            unreachable!()
        };
        let Some(penalty) = penalty_of(store, self.waiting, n, self.course.lasting) else {
            self.course.put(n);
            store.move_first(self.waiting, self.page);
            return false;
        };
        self.tried = self.course.offer(store.len(self.page), n.line, penalty);
        if stops(&self.tried) {
            self.stopped = true;
            return true;
        }
        self.course.put(n);
        store.move_first(self.waiting, self.page);
        true
    }
}
