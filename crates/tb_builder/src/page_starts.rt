//! A page begins: its first box or rule comes after the top glue, and its goal and depth limit are frozen.

ghost use Rattle.std.specs.Prelude.{◌≡◌, ◌<◌, ◌≤◌, List, [], ◌∷◌, ◌++◌, true, false, Some, None, IsSome, slice_get, length};
ghost use Rattle.tb_pool.specs.Lists.{list_at};
ghost use Rattle.tb_node.specs.declared.Node.{Node as NodeOf};
ghost use Rattle.tb_node.specs.PlainNodes.{plain_of, PlainNode};
ghost use Rattle.tb_break.specs.Best.{Breakpoint};
ghost use Rattle.tb_break.specs.Places.{ends_lasting};
ghost use Rattle.tb_insert.specs.Account.{Frozen};
ghost use Rattle.tb_insert.specs.AccountEntries.{Differ};
ghost use Rattle.tb_builder.specs.Ownership.{ids_of, IsOwned};
ghost use Rattle.tb_builder.specs.LegalPlaces.{page_shapes};
ghost use Rattle.tb_builder.specs.Contents.{contents_of, frozen_with};
ghost use Rattle.tb_builder.specs.Courses.{IsSound, IsCourseOf, AllLoose, kept_frozen};
ghost use Rattle.tb_builder.specs.PageEvents.{AskFits, NextFits};
ghost use Rattle.tb_builder.specs.PageWalks.{seen_of, LeadsOn};
ghost use Rattle.tb_builder.specs.declared.Seen.TheVariants.{Space};
ghost use Rattle.tb_builder.specs.declared.Ask.{Ask as AskOf};
ghost use Rattle.tb_builder.specs.PageTurns.{TopWaits, with_top, ChangesPage, Shifted, StepIs, StartsPage, PutFits, event_of, TurnIs};

use crate::courses::stops;
use crate::front_nodes::{first_in, glue_in, still_count};
use crate::fronts::move_front;
use crate::{Ask, Builder};
use tb_break::{is_box, top_node};
use tb_node::Node;
use tb_pool::Lists;

impl Builder {
    // On a page without a box, the first waiting node is no act and no insertion, and does not vanish: it goes on the
    // page. A box or rule comes after the top glue, unless the place before that glue is a stop.
    #[inline(never)]
    pub(crate) fn begin(&mut self, store: &mut Lists<Node>, ask: &Ask) -> bool
        requires sound { IsSound self.old store.old }
        requires on { self.old.stopped ≡ false }
        requires closed { self.old.opened ≡ false }
        requires fits { NextFits (contents_of self.old store.old) ask.now }
        requires room { 0 < store.old.spare }
        requires some { IsSome (slice_get (list_at store.old self.old.waiting) 0) }
        requires starts { (n : NodeOf) → slice_get (list_at store.old self.old.waiting) 0 ≡ Some n → StartsPage n }
        ensures { TurnIs self.old store.old ask.now (event_of result self.new.tried) self.new store.new }
    {
        let Some(n) = first_in(store, self.waiting) else {
            unreachable!()
        };
        if !is_box(n) {
            self.course.lasting = true;
            store.move_first(self.waiting, self.page);
            return false;
        }
        let glue = top_node(n, ask.top_skip);
        self.freeze(ask);
        let tried = self.lay_top(store, glue);
        if self.stopped {
            return tried;
        }
        self.put(store);
        self.opened = true;
        tried
    }

    // On a page without a box, the first waiting nodes go on the page, all at once, as long as they are marks, notes or
    // whatsits.
    #[inline(always)]
    pub(crate) fn pass_still(&mut self, store: &mut Lists<Node>)
        requires sound { IsSound self.old store.old }
        requires on { self.old.stopped ≡ false }
        requires closed { self.old.opened ≡ false }
        ensures leads { (ask : AskOf) → NextFits (contents_of self.old store.old) ask → LeadsOn self.old store.old ask self.new store.new }
        ensures few { length (contents_of self.new store.new).waiting ≤ length (contents_of self.old store.old).waiting }
    {
        let passed = still_count(store, self.waiting);
        if passed == 0 {
            return;
        }
        self.course.lasting = true;
        move_front(store, self.page, self.waiting, self.rest, passed);
    }

    // The top glue goes on the page as if it waited first: the place before it is legal only after a mark, a note or a
    // whatsit. Returns whether it was tried, as `step`.
    #[inline(always)]
    fn lay_top(&mut self, store: &mut Lists<Node>, glue: Node) -> bool
        requires own { IsOwned (ids_of self.old) store.old }
        requires room { 0 < store.old.spare }
        requires on { self.old.stopped ≡ false }
        requires space { seen_of glue.kind ≡ Space }
        requires waits { TopWaits self.old (with_top store.old self.old.waiting glue) glue }
        ensures moves { ChangesPage self.old (with_top store.old self.old.waiting glue) self.new store.new }
        ensures step { StepIs (event_of result self.new.tried) (kept_frozen (contents_of self.old (with_top store.old self.old.waiting glue))) self.new.course (contents_of self.old (with_top store.old self.old.waiting glue)) (contents_of self.new store.new) }
        ensures behind { (n : NodeOf) (ns : List NodeOf) → self.new.stopped ≡ false → list_at (with_top store.old self.old.waiting glue) self.old.waiting ≡ n ∷ ns → list_at store.new self.new.waiting ≡ ns }
        ensures opened { self.new.opened ≡ self.old.opened }
        ensures frozen { self.new.frozen ≡ self.old.frozen }
        ensures ids { ids_of self.new ≡ ids_of self.old }
    {
        if self.course.lasting {
            self.try_top(store, glue);
            return true;
        }
        self.course.put_glue(glue_in(&glue));
        store.push_back(self.page, glue);
        false
    }

    // The place before the top glue, which is legal, is tried, and the glue goes on the page unless that is a stop. Only then
    // does it wait first: it need not be among the waiting nodes to be tried.
    #[inline(always)]
    fn try_top(&mut self, store: &mut Lists<Node>, glue: Node)
        requires own { IsOwned (ids_of self.old) store.old }
        requires room { 0 < store.old.spare }
        requires on { self.old.stopped ≡ false }
        requires space { seen_of glue.kind ≡ Space }
        requires lasting { self.old.course.lasting ≡ true }
        requires waits { TopWaits self.old (with_top store.old self.old.waiting glue) glue }
        ensures moves { ChangesPage self.old (with_top store.old self.old.waiting glue) self.new store.new }
        ensures step { StepIs (event_of true self.new.tried) (kept_frozen (contents_of self.old (with_top store.old self.old.waiting glue))) self.new.course (contents_of self.old (with_top store.old self.old.waiting glue)) (contents_of self.new store.new) }
        ensures behind { (n : NodeOf) (ns : List NodeOf) → self.new.stopped ≡ false → list_at (with_top store.old self.old.waiting glue) self.old.waiting ≡ n ∷ ns → list_at store.new self.new.waiting ≡ ns }
        ensures opened { self.new.opened ≡ self.old.opened }
        ensures frozen { self.new.frozen ≡ self.old.frozen }
        ensures ids { ids_of self.new ≡ ids_of self.old }
    {
        self.tried = self.course.offer(store.len(self.page), glue.line, 0);
        if stops(&self.tried) {
            store.push_front(self.waiting, glue);
            self.stopped = true;
            return;
        }
        self.course.put_glue(glue_in(&glue));
        store.push_back(self.page, glue);
    }

    // Freezes what the page is made for, unless something is frozen already.
    pub(crate) fn freeze(&mut self, ask: &Ask)
        requires asked { AskFits ask.now }
        ensures first { self.old.frozen ≡ None → (z : Frozen) (page : List PlainNode) → z.goal ≡ ask.now.goal → z.limit ≡ ask.now.max_depth → Differ z.classes → AllLoose page
            → self.old.course.lasting ≡ ends_lasting (page_shapes page) → IsCourseOf z self.new.course page [] }
        ensures again { IsSome self.old.frozen → self.new ≡ self.old }
        ensures frozen { self.new.frozen ≡ Some (frozen_with self.old.frozen ask.now) }
        ensures ids { ids_of self.new ≡ ids_of self.old }
        ensures opened { self.new.opened ≡ self.old.opened }
        ensures stopped { self.new.stopped ≡ self.old.stopped }
    {
        if self.frozen.is_some() {
            return;
        }
        self.frozen = Some(*ask);
        self.course.restart(ask.goal, ask.max_depth);
    }

    // The first waiting node, which is no act and no insertion, goes on the page.
    fn put(&mut self, store: &mut Lists<Node>)
        requires own { IsOwned (ids_of self.old) store.old }
        requires some { IsSome (slice_get (list_at store.old self.old.waiting) 0) }
        requires node { (n : NodeOf) → slice_get (list_at store.old self.old.waiting) 0 ≡ Some n → PutFits self.old.course n }
        ensures moves { ChangesPage self.old store.old self.new store.new }
        ensures shifted { (n : NodeOf) → slice_get (list_at store.old self.old.waiting) 0 ≡ Some n → Shifted (plain_of (list_at store.old) n) (contents_of self.old store.old) (contents_of self.new store.new) }
        ensures course { (n : NodeOf) → slice_get (list_at store.old self.old.waiting) 0 ≡ Some n → (z : Frozen) (bs : List Breakpoint) → IsCourseOf z self.old.course (contents_of self.old store.old).page bs
            → IsCourseOf z self.new.course ((contents_of self.old store.old).page ++ plain_of (list_at store.old) n ∷ []) bs }
        ensures behind { (n : NodeOf) (ns : List NodeOf) → list_at store.old self.old.waiting ≡ n ∷ ns → list_at store.new self.new.waiting ≡ ns }
        ensures opened { self.new.opened ≡ self.old.opened }
        ensures ids { ids_of self.new ≡ ids_of self.old }
        ensures tried { self.new.tried ≡ self.old.tried }
    {
        let Some(n) = first_in(store, self.waiting) else {
            unreachable!()
        };
        self.course.put(n);
        store.move_first(self.waiting, self.page);
    }
}
