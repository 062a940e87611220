//! A float is taken.

ghost use Rattle.std.specs.Prelude.{◌≡◌, ◌≤◌, ◌+◌, ◌+ℤ◌, ◌++◌, ◌∷◌, [], None, OnOk, OnErr, IfOk};
ghost use Rattle.std.specs.FinMap.{get};
ghost use Rattle.tb_pool.specs.Lists.{IsLive, list_at, with_list};
ghost use Rattle.tb_node.specs.SmallAmounts.{IsAmount};
ghost use Rattle.tb_node.specs.Fit.{IsDimension, IsExtent};
ghost use Rattle.tb_builder.specs.Ownership.{ids_of};
ghost use Rattle.tb_builder.specs.Contributions.{ListJoins};
ghost use Rattle.tb_plain.specs.TakenFloats.{with_float, here_nodes, top_leaves, page_leaves, top_insertion};
ghost use Rattle.tb_plain.specs.StoredLists.{place_of, here_list, top_list, page_list, top_node, AreOpened, IsPutFirst};
ghost use Rattle.tb_plain.specs.MakeupCalls.{AreMakeupParams, IsPlain, IsTake, CanAct, HasPut, HasActed};

use crate::{Plain, TOP_FLOATS};
use std::alloc::AllocError;
use tb_builder::{Builder, PageSums};
use tb_column::{push_float, push_made};
use tb_node::{Act, Float, Insertion, Kind, Node, Where};
use tb_param::Params;
use tb_pool::{ListId, Lists};
use tb_scaled::{INF_PENALTY, MAX_DIMEN};

// Where a float goes: into the text, to the top of a page, or on a page of its own.
#[derive(Clone, Copy)]
enum Place {
    Here,
    Top,
    Page,
}

// Lists for an insertion and for its nodes.
#[derive(Clone, Copy)]
struct TopLists {
    list: ListId,
    inner: ListId,
}

impl Plain {
    /// A float is taken: it goes before all that waits if h asks for the text and the page has room for it. Otherwise it
    /// goes into an insertion, which comes before all that waits and brings it to the top of a page, or on a page of its
    /// own (plain.tex, \endinsert).
    ///
    /// If memory runs out, the builder and all lists are as before.
    pub fn act(
        &mut self,
        store: &mut Lists<Node>,
        b: &mut Builder,
        a: Act,
    ) -> Result<(), AllocError>
        requires plain { IsPlain self.old }
        requires take { IsTake a }
        requires builder { CanAct b.old store.old }
        ensures acts { OnOk result (HasActed self.old.params a b.old store.old b.new store.new) }
        ensures same { self.new ≡ self.old }
        ensures err_builder { OnErr result (b.new ≡ b.old) }
        ensures err_lists { OnErr result (store.new.lists ≡ store.old.lists) }
    {
        let float = float_of(a);
        let sums = b.page_sums();
        match place_of(&self.params, &sums, &float) {
            Place::Here => put_here(store, b, &self.params, &float),
            Place::Top => put_at_top(store, b, &self.params, &float),
            Place::Page => put_on_page(store, b, &self.params, &float),
        }
    }
}

// The float that an act takes.
fn float_of(a: Act) -> Float
    requires { IsTake a }
    ensures is { a ≡ Act.Take result }
    ensures sized { IsExtent result.height }
{
    match a {
        Act::Take(float) => float,
        _ => unreachable!(),
    }
}

// Where a float goes, if the page so far has these sums.
fn place_of(p: &Params, sums: &PageSums, f: &Float) -> Place
    requires params { AreMakeupParams p.now }
    requires height { IsExtent f.now.height }
    requires total { IsAmount sums.now.total }
    requires shrink { IsAmount sums.now.shrink }
    ensures { result ≡ place_of p.now sums.now f.now }
{
    if f.places.h {
        if with_float(p, sums, f) > sums.goal {
            Place::Top
        } else {
            Place::Here
        }
    } else if f.places.t || f.places.b {
        Place::Top
    } else {
        Place::Page
    }
}

// What the page would come to with the float and the glue above it.
fn with_float(p: &Params, sums: &PageSums, f: &Float) -> i64
    requires params { AreMakeupParams p.now }
    requires height { IsExtent f.now.height }
    requires total { IsAmount sums.now.total }
    requires shrink { IsAmount sums.now.shrink }
    ensures { result ≡ with_float p.now sums.now f.now }
{
    f.height + p.intextsep.width + sums.total - sums.shrink
}

// The float between glue, in the text.
fn put_here(
    store: &mut Lists<Node>,
    b: &mut Builder,
    p: &Params,
    f: &Float,
) -> Result<(), AllocError>
    requires builder { CanAct b.old store.old }
    ensures ok { OnOk result (HasPut (here_nodes p.now f.now) b.old store.old b.new store.new) }
    ensures err_builder { OnErr result (b.new ≡ b.old) }
    ensures err_lists { OnErr result (store.new.lists ≡ store.old.lists) }
{
    let list = here_list(store, p, f)?;
    put_list(store, b, list);
    Ok(())
}

// A new list of the float between glue. If memory runs out, all lists are as before.
fn here_list(store: &mut Lists<Node>, p: &Params, f: &Float) -> Result<ListId, AllocError>
    ensures fresh { IfOk result (λ l. get store.old.lists l ≡ None) }
    ensures lists { IfOk result (λ l. store.new.lists ≡ with_list store.old l (here_list p.now f.now)) }
    ensures err { OnErr result (store.new.lists ≡ store.old.lists) }
{
    store.reserve(4)?;
    let list = store.add_list()?;
    push_here(store, list, p, f);
    Ok(list)
}

fn push_here(store: &mut Lists<Node>, l: ListId, p: &Params, f: &Float)
    requires live { IsLive store.old l }
    requires room { 4 ≤ store.old.spare }
    ensures lists { store.new.lists ≡ with_list store.old l (list_at store.old l ++ here_list p.now f.now) }
{
    let flat = Float { deep: false, ..*f };
    push_made(store, l, Kind::Skip(p.intextsep));
    push_float(store, l, Where::Here, &flat);
    push_made(store, l, Kind::Pen(-200));
    push_made(store, l, Kind::Skip(p.intextsep));
}

// The float at the top of a page, with glue below.
fn put_at_top(
    store: &mut Lists<Node>,
    b: &mut Builder,
    p: &Params,
    f: &Float,
) -> Result<(), AllocError>
    requires params { AreMakeupParams p.now }
    requires height { IsExtent f.now.height }
    requires builder { CanAct b.old store.old }
    ensures ok { OnOk result (HasPut (top_insertion (top_leaves p.now f.now) ∷ []) b.old store.old b.new store.new) }
    ensures err_builder { OnErr result (b.new ≡ b.old) }
    ensures err_lists { OnErr result (store.new.lists ≡ store.old.lists) }
{
    let lists = top_lists(store)?;
    push_top(store, lists.inner, p, f);
    push_insertion(store, &lists, sum_of(f.height, p.intextsep.width));
    put_list(store, b, lists.list);
    Ok(())
}

// The float on a page of its own, as high as the text.
fn put_on_page(
    store: &mut Lists<Node>,
    b: &mut Builder,
    p: &Params,
    f: &Float,
) -> Result<(), AllocError>
    requires params { AreMakeupParams p.now }
    requires builder { CanAct b.old store.old }
    ensures ok { OnOk result (HasPut (top_insertion (page_leaves p.now f.now) ∷ []) b.old store.old b.new store.new) }
    ensures err_builder { OnErr result (b.new ≡ b.old) }
    ensures err_lists { OnErr result (store.new.lists ≡ store.old.lists) }
{
    let lists = top_lists(store)?;
    push_page(store, lists.inner, p, f);
    push_insertion(store, &lists, p.textheight);
    put_list(store, b, lists.list);
    Ok(())
}

fn sum_of(a: i64, b: i64) -> i64
    requires first { IsExtent a }
    requires second { IsDimension b }
    ensures { result ≡ a +ℤ b }
{
    a + b
}

// Two lists, and places for five nodes. If memory runs out, all lists are as before.
fn top_lists(store: &mut Lists<Node>) -> Result<TopLists, AllocError>
    ensures opened { IfOk result (λ r. AreOpened r.list r.inner store.old store.new) }
    ensures room { OnOk result (5 ≤ store.new.spare) }
    ensures err { OnErr result (store.new.lists ≡ store.old.lists) }
{
    store.reserve(5)?;
    let list = store.add_list()?;
    let Ok(inner) = store.add_list() else {
        store.close(list);
        return Err(AllocError);
    };
    Ok(TopLists { list, inner })
}

fn push_top(store: &mut Lists<Node>, l: ListId, p: &Params, f: &Float)
    requires live { IsLive store.old l }
    requires room { 4 ≤ store.old.spare }
    ensures lists { store.new.lists ≡ with_list store.old l (list_at store.old l ++ top_list p.now f.now) }
    ensures spare { store.new.spare + 4 ≡ store.old.spare }
{
    let flat = Float { deep: false, ..*f };
    push_made(store, l, Kind::Pen(100));
    push_float(store, l, Where::Top, &flat);
    push_made(store, l, Kind::Pen(INF_PENALTY));
    push_made(store, l, Kind::Skip(p.intextsep));
}

fn push_page(store: &mut Lists<Node>, l: ListId, p: &Params, f: &Float)
    requires live { IsLive store.old l }
    requires room { 2 ≤ store.old.spare }
    ensures lists { store.new.lists ≡ with_list store.old l (list_at store.old l ++ page_list p.now f.now) }
    ensures spare { store.new.spare + 2 ≡ store.old.spare }
{
    let high = Float {
        height: p.textheight,
        deep: false,
        ..*f
    };
    push_made(store, l, Kind::Pen(100));
    push_float(store, l, Where::Page, &high);
}

// The insertion of the class of top floats, whose nodes take this height, goes into its list.
fn push_insertion(store: &mut Lists<Node>, lists: &TopLists, height: i64)
    requires live { IsLive store.old lists.now.list }
    requires room { 1 ≤ store.old.spare }
    ensures { store.new.lists ≡ with_list store.old lists.now.list (list_at store.old lists.now.list ++ top_node lists.now.inner height ∷ []) }
{
    push_made(
        store,
        lists.list,
        Kind::Ins(Insertion {
            class: TOP_FLOATS,
            list: lists.inner,
            height,
            split_depth: MAX_DIMEN,
            split_top: 0,
            floating: 0,
        }),
    );
}

// The nodes of the list go before all that waits, and the list is closed.
fn put_list(store: &mut Lists<Node>, b: &mut Builder, list: ListId)
    requires builder { CanAct b.old store.old }
    requires joins { ListJoins (ids_of b.old) store.old list }
    ensures { IsPutFirst list b.old store.old b.new store.new }
{
    b.put_first(store, list);
    store.close(list);
}
