//! Pages with insertions, call by call. Heights are in sp.

ghost use Rattle.std.specs.Prelude.{◌≡◌, ◌+◌, ◌≤◌, ℕ, [], Some, None, length, All, IfOk, IfSome};
ghost use Rattle.std.specs.FinMap.{get};
ghost use Rattle.tb_pool.specs.Lists.{IsLive, list_at};
ghost use Rattle.tb_node.specs.Fit.{IsSizedNode, shapes};
ghost use Rattle.tb_node.specs.Sums.{size_of};
ghost use Rattle.tb_builder.specs.Ownership.{Lacks, ids_of, owned};
ghost use Rattle.tb_builder.specs.Contents.{contents_of};
ghost use Rattle.tb_builder.specs.Courses.{IsSound};
ghost use Rattle.tb_builder.specs.Pageable.{IsGoal};
ghost use Rattle.tb_builder.specs.WorkedPages.{IsMatter, BoxFits, AtRest, IsReady, waits};

use crate::nodes::{forced, make_box, make_node, told_list};
use std::alloc::{AllocError, Global};
use std::test::Fail;
use tb_builder::{Ask, Builder, Event, Page, new_builder};
use tb_insert::Class;
use tb_node::{Insertion, Kind, Node, list_extent};
use tb_pool::{ListId, Lists};
use tb_scaled::{Glue, Order, fixed};

// A store, a builder with one class, 254, of factor 1000 and skip 0, and what a page is made for.
#[derive(Drop)]
struct Paged {
    store: Lists<Node>,
    builder: Builder,
    ask: Ask,
}

fn open(alloc: Global, limit: i64, goal: i64) -> Result<Paged, AllocError>
    requires { IsGoal goal }
    ensures ready { IfOk result (λ p. IsReady p.builder p.store p.ask) }
    ensures none { IfOk result (λ p. waits p.builder p.store ≡ 0) }
{
    let mut store = Lists::new(alloc);
    let class = Class {
        number: 254,
        factor: 1000,
        limit,
        below: None,
        skip: fixed(0),
    };
    let builder = new_builder(alloc, &mut store, &[class])?;
    let ask = Ask {
        goal,
        max_depth: 0,
        top_skip: 10,
        foot_limit: limit,
        foot_skip: fixed(0),
    };
    Ok(Paged {
        store,
        builder,
        ask,
    })
}

fn no_glue() -> Node
    ensures { IsMatter result }
{
    make_node(Kind::Skip(fixed(0)))
}

fn fill() -> Node
    ensures { IsMatter result }
{
    make_node(Kind::Skip(Glue {
        width: 0,
        stretch: 65536,
        order: Order::Fil,
        shrink: 0,
    }))
}

// Contributes these nodes.
fn give(p: &mut Paged, nodes: &[Node]) -> Result<(), AllocError>
    requires ready { IsReady p.old.builder p.old.store p.old.ask }
    requires matter { All IsMatter nodes.now }
    requires room { waits p.old.builder p.old.store + length nodes.now ≤ 1000 }
    ensures ready { IsReady p.new.builder p.new.store p.new.ask }
    ensures count { waits p.new.builder p.new.store ≤ waits p.old.builder p.old.store + length nodes.now }
{
    for n in nodes {
        p.builder.contribute(&mut p.store, *n)?;
    }
    Ok(())
}

// A list of these nodes.
pub(crate) fn make_list(store: &mut Lists<Node>, nodes: &[Node]) -> Result<ListId, AllocError>
    ensures fresh { IfOk result (λ l. get store.old.lists l ≡ None) }
    ensures made { IfOk result (λ l. get store.new.lists l ≡ Some nodes.now) }
    ensures others { (q : ℕ) → IsLive store.old q → get store.new.lists q ≡ get store.old.lists q }
{
    let list = store.add_list()?;
    store.reserve(nodes.len())?;
    for n in nodes {
        store.push_back(list, *n);
    }
    Ok(list)
}

// The room that a list takes.
fn list_size(store: &Lists<Node>, l: ListId) -> i64
    requires live { IsLive store.now l }
    requires sized { All IsSizedNode (list_at store.now l) }
    requires few { length (list_at store.now l) ≤ 8388608 }
    ensures { result ≡ size_of (shapes store.now l) }
{
    list_extent(store, l).room
}

// Contributes an insertion of these nodes.
fn give_note(p: &mut Paged, nodes: &[Node]) -> Result<(), AllocError>
    requires ready { IsReady p.old.builder p.old.store p.old.ask }
    requires matter { All IsMatter nodes.now }
    requires room { waits p.old.builder p.old.store + length nodes.now + 1 ≤ 1000 }
    ensures ready { IsReady p.new.builder p.new.store p.new.ask }
    ensures count { waits p.new.builder p.new.store ≤ waits p.old.builder p.old.store + length nodes.now + 1 }
{
    let list = make_list(&mut p.store, nodes)?;
    let height = list_size(&p.store, list);
    let note = Insertion {
        class: 254,
        list,
        height,
        split_depth: 186778,
        split_top: 10,
        floating: 20000,
    };
    let node = make_node(Kind::Ins(note));
    p.builder.contribute(&mut p.store, node)?;
    Ok(())
}

// Notes the goal and the cost of a place that was tried.
fn note_try(tries: &mut Vec<(i64, i64)>, event: &Event) -> Result<(), AllocError> {
    if let Event::Try(t) = event {
        tries.push((t.goal, t.cost))?;
    }
    Ok(())
}

// The goal and the cost of each place that is tried, and the page that fires, if one does.
fn fires(p: &mut Paged, tries: &mut Vec<(i64, i64)>) -> Result<Option<Page>, AllocError>
    requires { IsReady p.old.builder p.old.store p.old.ask }
    ensures rest { IfOk result (λ o. IfSome o (λ q. AtRest p.new.builder p.new.store)) }
    ensures body { IfOk result (λ o. IfSome o (λ q. IsLive p.new.store q.body)) }
    ensures boxed { IfOk result (λ o. IfSome o (λ q. BoxFits (contents_of p.new.builder p.new.store))) }
{
    for _ in 0..20 {
        let event = match p.builder.next(&mut p.store, &p.ask) {
            Ok(event) => event,
            Err(e) => return Err(e),
        };
        match event {
            Event::Fired(page) => return Ok(Some(page)),
            Event::Empty => return Ok(None),
            _ => note_try(tries, &event)?,
        }
    }
    Ok(None)
}

// Waiting: a box, an insertion of these nodes, glue that fills the page, and a forced break.
fn one_note(alloc: Global, limit: i64, goal: i64, nodes: &[Node]) -> Result<Paged, AllocError>
    requires goal { IsGoal goal }
    requires matter { All IsMatter nodes.now }
    requires few { length nodes.now ≤ 100 }
    ensures { IfOk result (λ p. IsReady p.builder p.store p.ask) }
{
    let mut p = open(alloc, limit, goal)?;
    give(&mut p, &[make_box(10)])?;
    give_note(&mut p, nodes)?;
    give(&mut p, &[fill(), forced()])?;
    Ok(p)
}

// An empty list that is not the builder's.
fn add_list(p: &mut Paged) -> Result<ListId, AllocError>
    requires { AtRest p.old.builder p.old.store }
    ensures rest { AtRest p.new.builder p.new.store }
    ensures live { IfOk result (λ l. IsLive p.new.store l) }
    ensures empty { IfOk result (λ l. list_at p.new.store l ≡ []) }
    ensures apart { IfOk result (λ l. Lacks l (owned (ids_of p.new.builder) p.new.store)) }
{
    let list = p.store.add_list()?;
    Ok(list)
}

// What is in the box of class 254, which is void then.
fn boxed(alloc: Global, p: &mut Paged) -> Result<Vec<(char, i64)>, AllocError>
    requires { AtRest p.old.builder p.old.store }
    ensures { AtRest p.new.builder p.new.store }
{
    let into = add_list(p)?;
    p.builder.take_box(&mut p.store, 254, into);
    told_list(alloc, &p.store, into)
}

// What waits after an empty list was put back.
fn put_nothing_back(alloc: Global, p: &mut Paged) -> Result<Vec<(char, i64)>, AllocError>
    requires { AtRest p.old.builder p.old.store }
    ensures { IsSound p.new.builder p.new.store }
{
    let nothing = add_list(p)?;
    p.builder.put_back(&mut p.store, nothing);
    told_list(alloc, &p.store, p.builder.waiting())
}

// What is in the list of the insertion that waits first; nothing, if none does.
fn first_note(alloc: Global, p: &Paged) -> Result<Vec<(char, i64)>, AllocError>
    requires { IsSound p.now.builder p.now.store }
{
    let Some(n) = p.store.get(p.builder.waiting(), 0) else {
        return Ok(Vec::new(alloc));
    };
    let Kind::Ins(i) = n.kind else {
        return Ok(Vec::new(alloc));
    };
    told_list(alloc, &p.store, i.list)
}

// What waits after these nodes were put first.
fn put_before_all(
    alloc: Global,
    p: &mut Paged,
    nodes: &[Node],
) -> Result<Vec<(char, i64)>, AllocError>
    requires ready { IsReady p.old.builder p.old.store p.old.ask }
    requires matter { All IsMatter nodes.now }
    ensures { IsSound p.new.builder p.new.store }
{
    let list = make_list(&mut p.store, nodes)?;
    p.builder.put_first(&mut p.store, list);
    told_list(alloc, &p.store, p.builder.waiting())
}

// The event that comes next.
fn next_event(p: &mut Paged) -> Result<Event, AllocError>
    requires { IsReady p.old.builder p.old.store p.old.ask }
    ensures { IsSound p.new.builder p.new.store }
{
    p.builder.next(&mut p.store, &p.ask)
}

// The event that comes next, with places passed over.
fn passed_over(p: &mut Paged) -> Result<Event, AllocError>
    requires { IsReady p.old.builder p.old.store p.old.ask }
    ensures { IsSound p.new.builder p.new.store }
{
    p.builder.next_without_tries(&mut p.store, &p.ask)
}

fn page_of(event: Event) -> Option<Page> {
    match event {
        Event::Fired(page) => Some(page),
        _ => None,
    }
}

// The total, the shrink and the goal of the page so far.
fn told_sums(p: &Paged) -> (i64, i64, i64) {
    let sums = p.builder.page_sums();
    (sums.total, sums.shrink, sums.goal)
}

#[test]
fn an_insertion_that_fits(rt: HostRuntime) -> Result<(), Fail> {
    let mut p = one_note(rt.alloc(), 1073741823, 30, &[make_box(20)])?;
    assert_eq!(rt; p.builder.nodes(&p.store), 5);
    assert!(rt; p.builder.is_void(254));
    let mut tries = Vec::new(rt.alloc());
    let page = fires(&mut p, &mut tries)?.ok_or("no page")?;
    assert_eq!(rt; tries.as_slice(), [(10, 0), (10, -10000)].as_slice());
    assert_eq!(rt; (page.penalty, page.size, page.held), (-10000, 10, 0));
    assert_eq!(rt; p.builder.box_size(&p.store, 254), 20);
    assert_eq!(rt;
        boxed(rt.alloc(), &mut p)?.as_slice(),
        [('b', 20)].as_slice()
    );
    Ok(())
}

#[test]
fn an_insertion_that_is_split(rt: HostRuntime) -> Result<(), Fail> {
    let note = [make_box(10), no_glue(), make_box(11)];
    let mut p = one_note(rt.alloc(), 1073741823, 30, &note)?;
    let mut tries = Vec::new(rt.alloc());
    let page = fires(&mut p, &mut tries)?.ok_or("no page")?;
    assert_eq!(rt; page.held, 1);
    assert_eq!(rt;
        boxed(rt.alloc(), &mut p)?.as_slice(),
        [('b', 10)].as_slice()
    );
    let waiting = put_nothing_back(rt.alloc(), &mut p)?;
    assert_eq!(rt; waiting.as_slice(), [('i', 11), ('p', 10000)].as_slice());
    assert_eq!(rt;
        first_note(rt.alloc(), &p)?.as_slice(),
        [('g', 0), ('b', 11)].as_slice()
    );
    assert_eq!(rt; p.builder.nodes(&p.store), 4);
    Ok(())
}

#[test]
fn an_insertion_over_its_limit(rt: HostRuntime) -> Result<(), Fail> {
    let mut p = one_note(rt.alloc(), 5, 30, &[make_box(8)])?;
    let mut tries = Vec::new(rt.alloc());
    let page = fires(&mut p, &mut tries)?.ok_or("no page")?;
    let first = tries.as_slice().first().copied().ok_or("no try")?;
    assert_eq!(rt; first.0, 22);
    assert_eq!(rt; page.held, 0);
    assert_eq!(rt;
        boxed(rt.alloc(), &mut p)?.as_slice(),
        [('b', 8)].as_slice()
    );
    Ok(())
}

#[test]
fn a_second_insertion_sends_the_break_back(rt: HostRuntime) -> Result<(), Fail> {
    let mut p = open(rt.alloc(), 1073741823, 45)?;
    give(&mut p, &[make_box(10), no_glue(), make_box(10)])?;
    give_note(&mut p, &[make_box(15), no_glue(), make_box(15)])?;
    give_note(&mut p, &[make_box(5)])?;
    give(&mut p, &[fill(), forced()])?;
    let mut tries = Vec::new(rt.alloc());
    let page = fires(&mut p, &mut tries)?.ok_or("no page")?;
    let last = tries.pop().ok_or("no try")?;
    assert_eq!(rt; last.1, 1073741823);
    assert_eq!(rt; page.penalty, 10000);
    assert_eq!(rt;
        told_list(rt.alloc(), &p.store, page.body)?.as_slice(),
        [('g', 0), ('b', 10)].as_slice()
    );
    Ok(())
}

#[test]
fn nodes_that_are_put_first(rt: HostRuntime) -> Result<(), Fail> {
    let mut p = open(rt.alloc(), 1073741823, 30)?;
    give(&mut p, &[make_box(10), forced()])?;
    let waiting = put_before_all(rt.alloc(), &mut p, &[make_box(7), fill()])?;
    assert_eq!(rt;
        waiting.as_slice(),
        [('b', 7), ('g', 0), ('b', 10), ('p', -10000)].as_slice()
    );
    Ok(())
}

#[test]
fn the_sums_of_the_page_so_far(rt: HostRuntime) -> Result<(), Fail> {
    let mut p = one_note(rt.alloc(), 1073741823, 30, &[make_box(20)])?;
    assert_eq!(rt; told_sums(&p), (0, 0, 1073741823));
    next_event(&mut p)?;
    assert_eq!(rt; told_sums(&p), (10, 0, 10));
    let page = told_list(rt.alloc(), &p.store, p.builder.on_page())?;
    assert_eq!(rt;
        page.as_slice(),
        [('g', 0), ('b', 10), ('i', 20), ('g', 0)].as_slice()
    );
    Ok(())
}

#[test]
fn places_that_are_passed_over(rt: HostRuntime) -> Result<(), Fail> {
    let mut p = open(rt.alloc(), 1073741823, 45)?;
    give(&mut p, &[make_box(10), no_glue(), make_box(10)])?;
    give(&mut p, &[no_glue(), make_box(20), fill(), forced()])?;
    let page = page_of(passed_over(&mut p)?).ok_or("no page")?;
    assert_eq!(rt; (page.penalty, page.size, page.cost), (-10000, 45, -10000));
    assert_eq!(rt; p.builder.nodes(&p.store), 1);
    Ok(())
}
