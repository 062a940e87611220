//! A page fires.

ghost use Rattle.std.specs.Prelude.{◌≡◌, ◌≢◌, ◌≤◌, ◌+◌, ◌++◌, ◌∷◌, [], neg_ℤ, true, Some, None, map, int_le, nat_lt, ◌&&◌, OnOk, OnErr, IfOk, IfErr};
ghost use Rattle.std.specs.FinMap.{get};
ghost use Rattle.tb_pool.specs.Lists.{IsLive, list_at, with_list};
ghost use Rattle.tb_node.specs.Fit.{IsExtent, shapes};
ghost use Rattle.tb_node.specs.Sums.{limited_depth};
ghost use Rattle.tb_node.specs.PlainNodes.{leaf_node, plain_list};
ghost use Rattle.tb_builder.specs.FiredPages.{box_content, content_of};
ghost use Rattle.tb_builder.specs.Contents.{contents_of};
ghost use Rattle.tb_builder.specs.Ownership.{Lacks, has_class, ids_of, owned};
ghost use Rattle.tb_builder.specs.Courses.{IsSound};
ghost use Rattle.tb_builder.specs.Contributions.{NoPage, with_void};
ghost use Rattle.tb_column.specs.Page.{AreLeaves, IsPageList, IsPageColumn};
ghost use Rattle.tb_column.specs.StoredColumns.{column_shown};
ghost use Rattle.tb_plain.specs.GalleyNodes.{clearing_glue, clearing_penalty};
ghost use Rattle.tb_plain.specs.Firing.{feet_below, makeup_column_nodes, makeup_column};
ghost use Rattle.tb_plain.specs.StoredLists.{above_feet, end_list, held_list, back_list, Grows};
ghost use Rattle.tb_plain.specs.MakeupCalls.{AreMakeupParams, IsPlain, CanFire, fired_with, HasFired, IsRefused};

use crate::{Plain, PlainFault, PlainPage, TOP_FLOATS};
use std::alloc::AllocError;
use tb_builder::{Builder, Page};
use tb_column::{Column, ColumnKind, is_ragged, push_made, push_plain_rule};
use tb_node::{FOOTNOTES, Kind, Node, What, list_sums};
use tb_pack::pack;
use tb_param::{Params, exceeds};
use tb_pool::{ListId, Lists};
use tb_scaled::{Glue, INF_PENALTY, Order, filling_glue};

/// The penalty of a clear: a page that breaks there asks for the insertions that are held (plain.tex, \supereject).
pub const CLEARING_PENALTY: i64 = -20_000;

impl Plain {
    /// A page fires, which awaits its `put_back`: it ships as one column, with the top floats above its text and the
    /// footnotes below, and both boxes are void then. After a clear, if insertions are held, a page on which they can come
    /// goes back; otherwise nothing does (plain.tex, \plainoutput and \dosupereject).
    ///
    /// The list of the page becomes that of what goes back, and the column gets a new one. If `maxpages` pages were
    /// shipped, it returns `PageLimit`; if memory runs out, `Memory`. After these the page makeup, the builder and all
    /// lists are as before.
    pub fn fire(
        &mut self,
        store: &mut Lists<Node>,
        b: &mut Builder,
        page: Page,
    ) -> Result<PlainPage, PlainFault>
        requires plain { IsPlain self.old }
        requires page { CanFire b.old store.old page }
        ensures fires { IfOk result (λ r. HasFired r self.old self.new b.old store.old b.new store.new page) }
        ensures plain { IsPlain self.new }
        ensures refused { IfErr result (λ e. IsRefused e self.old) }
        ensures err_same { OnErr result (self.new ≡ self.old) }
        ensures err_builder { OnErr result (b.new ≡ b.old) }
        ensures err_lists { OnErr result (store.new.lists ≡ store.old.lists) }
    {
        if exceeds(self.page, self.params.maxpages) {
            return Err(PlainFault::PageLimit {
                pages: self.page - 1,
            });
        }
        let list = open_list(store)?;
        let column = make_column(store, b, &self.params, &page, list);
        fill_back(store, &self.params, &page);
        Ok(self.ship(column, page.body))
    }

    // The page under its number.
    fn ship(&mut self, column: Column, put_back: ListId) -> PlainPage
        requires { self.old.page ≤ 9223372036854775807 }
        ensures page { result ≡ record { page = self.old.page; column = column; put_back = put_back } }
        ensures next { self.new ≡ record self.old { page = self.old.page + 1 } }
    {
        let page = self.page;
        self.page += 1;
        PlainPage {
            page,
            column,
            put_back,
        }
    }
}

// A new list, and places for the nodes that a firing makes. If memory runs out, all lists are as before.
fn open_list(store: &mut Lists<Node>) -> Result<ListId, AllocError>
    ensures fresh { IfOk result (λ l. get store.old.lists l ≡ None) }
    ensures opened { IfOk result (λ l. store.new.lists ≡ with_list store.old l []) }
    ensures room { OnOk result (11 ≤ store.new.spare) }
    ensures err { OnErr result (store.new.lists ≡ store.old.lists) }
{
    store.reserve(11)?;
    store.add_list()
}

// The column of the page in this list, which is empty.
fn make_column(
    store: &mut Lists<Node>,
    b: &mut Builder,
    p: &Params,
    page: &Page,
    list: ListId,
) -> Column
    requires params { AreMakeupParams p.now }
    requires page { CanFire b.old store.old page.now }
    requires live { IsLive store.old list }
    requires empty { list_at store.old list ≡ [] }
    requires free { Lacks list (owned (ids_of b.old) store.old) }
    requires apart { list ≢ page.now.body }
    requires room { 11 ≤ store.old.spare }
    ensures grows { Grows list (list ∷ page.now.body ∷ []) (makeup_column_nodes p.now (fired_with b.old store.old page.now)) (with_void 254 (with_void 253 (contents_of b.old store.old).boxes)) b.old store.old b.new store.new }
    ensures column { column_shown store.new result ≡ makeup_column p.now (fired_with b.old store.old page.now) }
    ensures sized { IsPageColumn store.new result }
    ensures list { result.list ≡ list }
    ensures emptied { get store.new.lists page.now.body ≡ Some [] }
    ensures room { 5 ≤ store.new.spare }
{
    gather(store, b, p, page, list);
    Column {
        kind: ColumnKind::Text,
        list,
        set: pack(store, list, p.textheight, p.maxdepth),
    }
}

// Moves the top floats, the text and the footnotes of a page into a list, and ends it.
fn gather(store: &mut Lists<Node>, b: &mut Builder, p: &Params, page: &Page, list: ListId)
    requires params { AreMakeupParams p.now }
    requires page { CanFire b.old store.old page.now }
    requires live { IsLive store.old list }
    requires free { Lacks list (owned (ids_of b.old) store.old) }
    requires apart { list ≢ page.now.body }
    requires room { 11 ≤ store.old.spare }
    ensures grows { Grows list (list ∷ page.now.body ∷ []) (makeup_column_nodes p.now (fired_with b.old store.old page.now)) (with_void 254 (with_void 253 (contents_of b.old store.old).boxes)) b.old store.old b.new store.new }
    ensures emptied { get store.new.lists page.now.body ≡ Some [] }
    ensures room { 5 ≤ store.new.spare }
{
    let depth = body_depth(store, p, page.body);
    gather_text(store, b, page.body, list);
    gather_feet(store, b, p, list);
    push_end(store, p, list, depth);
}

// The depth of a text, limited as that of a page.
fn body_depth(store: &Lists<Node>, p: &Params, body: ListId) -> i64
    requires params { AreMakeupParams p.now }
    requires body { IsPageList store.now body }
    ensures value { result ≡ limited_depth p.now.maxdepth (shapes store.now body) }
    ensures extent { IsExtent result }
{
    list_sums(store, body, p.maxdepth).depth
}

// Moves the top floats and the text to the end of a list.
fn gather_text(store: &mut Lists<Node>, b: &mut Builder, body: ListId, list: ListId)
    requires sound { IsSound b.old store.old }
    requires awaits { NoPage (contents_of b.old store.old) }
    requires top { has_class (contents_of b.old store.old).classes 253 ≡ true }
    requires live { IsLive store.old list }
    requires free { Lacks list (owned (ids_of b.old) store.old) }
    requires body { IsLive store.old body }
    requires body_free { Lacks body (owned (ids_of b.old) store.old) }
    requires apart { list ≢ body }
    requires leaves { AreLeaves (list_at store.old body) }
    ensures grows { Grows list (list ∷ body ∷ []) (map leaf_node (content_of (box_content (contents_of b.old store.old).boxes 253)) ++ plain_list store.old body) (with_void 253 (contents_of b.old store.old).boxes) b.old store.old b.new store.new }
    ensures emptied { get store.new.lists body ≡ Some [] }
    ensures spare { store.new.spare ≡ store.old.spare }
{
    b.take_box(store, TOP_FLOATS, list);
    store.append(list, body);
}

// Moves the footnotes under their rule to the end of a list, unless their box is void.
fn gather_feet(store: &mut Lists<Node>, b: &mut Builder, p: &Params, list: ListId)
    requires sound { IsSound b.old store.old }
    requires awaits { NoPage (contents_of b.old store.old) }
    requires foot { has_class (contents_of b.old store.old).classes 254 ≡ true }
    requires live { IsLive store.old list }
    requires free { Lacks list (owned (ids_of b.old) store.old) }
    requires room { 4 ≤ store.old.spare }
    ensures grows { Grows list (list ∷ []) (feet_below p.now (box_content (contents_of b.old store.old).boxes 254)) (with_void 254 (contents_of b.old store.old).boxes) b.old store.old b.new store.new }
    ensures spare { store.old.spare ≤ store.new.spare + 4 }
{
    let void = b.is_void(FOOTNOTES);
    push_above_feet(store, p, list, void);
    b.take_box(store, FOOTNOTES, list);
}

// Puts what comes above footnotes at the end of a list, unless their box is void.
fn push_above_feet(store: &mut Lists<Node>, p: &Params, list: ListId, void: bool)
    requires live { IsLive store.old list }
    requires room { 4 ≤ store.old.spare }
    ensures lists { store.new.lists ≡ with_list store.old list (list_at store.old list ++ above_feet p.now void) }
    ensures spare { store.old.spare ≤ store.new.spare + 4 }
{
    if void {
        return;
    }
    push_plain_rule(store, list, p.skipfootins);
}

// At a ragged bottom a kern backs up over the depth of the text, and glue stretches (plain.tex, \pagecontents).
fn push_end(store: &mut Lists<Node>, p: &Params, list: ListId, depth: i64)
    requires live { IsLive store.old list }
    requires room { 2 ≤ store.old.spare }
    requires depth { IsExtent depth }
    ensures lists { store.new.lists ≡ with_list store.old list (list_at store.old list ++ end_list p.now depth) }
    ensures spare { store.old.spare ≤ store.new.spare + 2 }
{
    if !is_ragged(p.bottom) {
        return;
    }
    push_made(store, list, kern_back(depth));
    push_made(store, list, Kind::Skip(filling_glue()));
}

// What goes back after the page, at the end of the list of its body.
fn fill_back(store: &mut Lists<Node>, p: &Params, page: &Page)
    requires params { AreMakeupParams p.now }
    requires live { IsLive store.old page.now.body }
    requires room { 5 ≤ store.old.spare }
    ensures { store.new.lists ≡ with_list store.old page.now.body (list_at store.old page.now.body ++ back_list p.now page.now.penalty page.now.held) }
{
    if !goes_back(page) {
        return;
    }
    push_page_for_held(store, p, page.body);
}

// Whether a page for held insertions goes back: after a clear, if some are held.
fn goes_back(page: &Page) -> bool
    ensures { result ≡ (int_le page.now.penalty clearing_penalty && nat_lt 0 page.now.held) }
{
    page.penalty <= CLEARING_PENALTY && page.held > 0
}

// A page on which held insertions can come, and the break of a clear. The kern backs up over the glue at the top of the
// page.
fn push_page_for_held(store: &mut Lists<Node>, p: &Params, l: ListId)
    requires params { AreMakeupParams p.now }
    requires live { IsLive store.old l }
    requires room { 5 ≤ store.old.spare }
    ensures { store.new.lists ≡ with_list store.old l (list_at store.old l ++ held_list p.now) }
{
    push_made(
        store,
        l,
        Kind::Hbox {
            what: What::Blank,
            height: 0,
            depth: 0,
        },
    );
    push_made(store, l, kern_back(p.topskip));
    push_made(store, l, Kind::Pen(INF_PENALTY));
    push_made(store, l, Kind::Skip(clearing_glue()));
    push_made(store, l, Kind::Pen(CLEARING_PENALTY));
}

// A kern that backs up by this room.
fn kern_back(room: i64) -> Kind
    requires { IsExtent room }
    ensures { result ≡ Kind.Kern (neg_ℤ room) }
{
    Kind::Kern(-room)
}

/// The glue of a clear, TeX's \vfill: width 0sp, stretch 1fill (65536), no shrink. It fills what is left of a page, also
/// beside glue whose stretch is fil (plain.tex, \bye and \dosupereject).
pub fn clearing_glue() -> Glue
    ensures { result ≡ clearing_glue }
{
    Glue {
        width: 0,
        stretch: 65_536,
        order: Order::Fill,
        shrink: 0,
    }
}
