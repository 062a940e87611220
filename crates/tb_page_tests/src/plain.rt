//! A float that is taken, and a page that fires, as in the worked rows. Heights are in sp.

ghost use Rattle.std.specs.Prelude.{◌≡◌, ◌+◌, ◌≤◌, ◌++◌, ◌∷◌, [], ℕ, true, None, Some, IfOk, IfSome, OnOk};
ghost use Rattle.std.specs.FinMap.{get};
ghost use Rattle.tb_pool.specs.Lists.{IsLive, list_at};
ghost use Rattle.tb_node.specs.Fit.{IsExtent};
ghost use Rattle.tb_node.specs.PlainNodes.{plain_of};
ghost use Rattle.tb_builder.specs.Contents.{contents_of, nothing_yet};
ghost use Rattle.tb_builder.specs.Ownership.{has_class};
ghost use Rattle.tb_builder.specs.WorkedPages.{IsMatter, IsReady, waits};
ghost use Rattle.tb_plain.specs.Run.{makeup_ask, makeup_classes};
ghost use Rattle.tb_plain.specs.MakeupCalls.{AreMakeupParams, CanAct, CanFire};

use crate::nodes::{forced, make_box, make_node, told_list};
use std::alloc::{AllocError, Global};
use std::test::Fail;
use tb_builder::{Ask, Builder, Event, Page, new_builder};
use tb_insert::Class;
use tb_node::{Act, Float, Insertion, Kind, Node, Places, name_of};
use tb_param::{Choice, Params, defaults};
use tb_plain::new_plain;
use tb_pool::{ListId, Lists};
use tb_scaled::{Glue, MAX_DIMEN, Order, fixed};

// A store, a builder with the classes of top floats and of footnotes, and what is asked of it.
#[derive(Drop)]
struct Paged {
    store: Lists<Node>,
    builder: Builder,
    ask: Ask,
}

// Pages of height 100, without glue.
fn params() -> Params
    ensures { AreMakeupParams result }
{
    let mut p = defaults();
    p.textheight = 100;
    p.topskip = 10;
    p.maxdepth = 0;
    p.bottom = Choice::Flush;
    p.skipfootins = fixed(0);
    p.intextsep = fixed(0);
    p
}

fn classes(p: &Params) -> [Class; 2]
    ensures { result ≡ makeup_classes p.now }
{
    [
        Class {
            number: 253,
            factor: 1000,
            limit: MAX_DIMEN,
            below: None,
            skip: fixed(0),
        },
        Class {
            number: 254,
            factor: 1000,
            limit: p.footlimit,
            below: None,
            skip: p.skipfootins,
        },
    ]
}

fn ask_of(p: &Params) -> Ask
    ensures { result ≡ makeup_ask p.now }
{
    Ask {
        goal: p.textheight,
        max_depth: p.maxdepth,
        top_skip: p.topskip,
        foot_limit: p.footlimit,
        foot_skip: p.skipfootins,
    }
}

fn open(alloc: Global, p: &Params) -> Result<Paged, AllocError>
    requires { AreMakeupParams p.now }
    ensures ready { IfOk result (λ s. IsReady s.builder s.store s.ask) }
    ensures contents { IfOk result (λ s. contents_of s.builder s.store ≡ nothing_yet (makeup_classes p.now)) }
    ensures none { IfOk result (λ s. waits s.builder s.store ≡ 0) }
{
    let mut store = Lists::new(alloc);
    let builder = new_builder(alloc, &mut store, &classes(p))?;
    Ok(Paged {
        store,
        builder,
        ask: ask_of(p),
    })
}

fn fill() -> Node
    ensures { IsMatter result }
{
    make_node(Kind::Skip(Glue {
        width: 0,
        stretch: 65536,
        order: Order::Fill,
        shrink: 0,
    }))
}

// This node comes.
fn give(p: &mut Paged, n: Node) -> Result<(), AllocError>
    requires ready { IsReady p.old.builder p.old.store p.old.ask }
    requires matter { IsMatter n }
    requires room { waits p.old.builder p.old.store + 1 ≤ 1000 }
    ensures ready { OnOk result (IsReady p.new.builder p.new.store p.new.ask) }
    ensures contents { OnOk result (contents_of p.new.builder p.new.store ≡ record (contents_of p.old.builder p.old.store) { waiting = (contents_of p.old.builder p.old.store).waiting ++ plain_of (list_at p.old.store) n ∷ [] }) }
    ensures count { OnOk result (waits p.new.builder p.new.store ≡ waits p.old.builder p.old.store + 1) }
{
    p.builder.contribute(&mut p.store, n)?;
    Ok(())
}

// A list of this node.
fn node_list(store: &mut Lists<Node>, n: Node) -> Result<ListId, AllocError>
    ensures fresh { IfOk result (λ l. get store.old.lists l ≡ None) }
    ensures made { IfOk result (λ l. get store.new.lists l ≡ Some (n ∷ [])) }
    ensures others { (q : ℕ) → IsLive store.old q → get store.new.lists q ≡ get store.old.lists q }
{
    store.reserve(1)?;
    let list = store.add_list()?;
    store.push_back(list, n);
    Ok(list)
}

// A footnote of a box of this height comes.
fn give_note(p: &mut Paged, height: i64) -> Result<(), AllocError>
    requires ready { IsReady p.old.builder p.old.store p.old.ask }
    requires height { IsExtent height }
    requires room { waits p.old.builder p.old.store + 2 ≤ 1000 }
    ensures ready { OnOk result (IsReady p.new.builder p.new.store p.new.ask) }
    ensures classes { OnOk result ((contents_of p.new.builder p.new.store).classes ≡ (contents_of p.old.builder p.old.store).classes) }
    ensures count { OnOk result (waits p.new.builder p.new.store ≡ waits p.old.builder p.old.store + 2) }
{
    let inner = make_box(height);
    let list = node_list(&mut p.store, inner)?;
    let node = make_node(Kind::Ins(Insertion {
        class: 254,
        list,
        height,
        split_depth: 0,
        split_top: 10,
        floating: 20000,
    }));
    p.builder.contribute(&mut p.store, node)?;
    Ok(())
}

// A page with one box so far, and nothing waits.
fn box_page(alloc: Global, p: &Params) -> Result<Option<Paged>, AllocError>
    requires { AreMakeupParams p.now }
    ensures { IfOk result (λ o. IfSome o (λ s. CanAct s.builder s.store)) }
{
    let mut s = open(alloc, p)?;
    give(&mut s, make_box(20))?;
    match s.builder.next(&mut s.store, &s.ask)? {
        Event::Empty => Ok(Some(s)),
        Event::Act(_act) => Ok(None),
        Event::Try(_) | Event::Fired(_) => Ok(None),
    }
}

// A box, a footnote of one box, glue that fills the page, and a forced break.
fn note_page(alloc: Global, p: &Params) -> Result<Paged, AllocError>
    requires { AreMakeupParams p.now }
    ensures ready { IfOk result (λ s. IsReady s.builder s.store s.ask) }
    ensures top { IfOk result (λ s. has_class (contents_of s.builder s.store).classes 253 ≡ true) }
{
    let mut s = open(alloc, p)?;
    give(&mut s, make_box(60))?;
    give_note(&mut s, 30)?;
    give(&mut s, fill())?;
    give(&mut s, forced())?;
    Ok(s)
}

// The page that fires, if one does.
fn fires(p: &mut Paged) -> Result<Option<Page>, AllocError>
    requires ready { IsReady p.old.builder p.old.store p.old.ask }
    requires top { has_class (contents_of p.old.builder p.old.store).classes 253 ≡ true }
    ensures { IfOk result (λ o. IfSome o (λ page. CanFire p.new.builder p.new.store page)) }
{
    for _ in 0..10 {
        match p.builder.next(&mut p.store, &p.ask)? {
            Event::Fired(page) => return Ok(Some(page)),
            Event::Empty => return Ok(None),
            Event::Try(_) => {}
            Event::Act(_act) => {}
        }
    }
    Ok(None)
}

// A float of this height that may go into the text alone.
fn float(height: i64) -> Result<Float, Fail>
    requires { IsExtent height }
    ensures { IfOk result (λ f. IsExtent f.height) }
{
    Ok(Float {
        line: 8,
        name: name_of(b"F").ok_or("name")?,
        class: 1,
        wide: false,
        places: Places {
            h: true,
            t: false,
            b: false,
            p: false,
        },
        bang: false,
        height,
        deep: false,
        nobreak: false,
    })
}

// What waits after such a float was taken beside a box of height 20.
fn taken(alloc: Global, height: i64) -> Result<Vec<(char, i64)>, Fail>
    requires { IsExtent height }
{
    let p = params();
    let mut page = box_page(alloc, &p)?.ok_or("no page so far")?;
    let mut plain = new_plain(&p);
    plain.act(
        &mut page.store,
        &mut page.builder,
        Act::Take(float(height)?),
    )?;
    Ok(told_list(alloc, &page.store, page.builder.waiting())?)
}

#[test]
fn a_float_that_fits_stands_in_the_text(rt: HostRuntime) -> Result<(), Fail> {
    assert_eq!(rt;
        taken(rt.alloc(), 80)?.as_slice(),
        [('g', 0), ('b', 80), ('p', -200), ('g', 0)].as_slice()
    );
    assert_eq!(rt; taken(rt.alloc(), 81)?.as_slice(), [('i', 81)].as_slice());
    Ok(())
}

#[test]
fn a_page_with_a_footnote(rt: HostRuntime) -> Result<(), Fail> {
    let p = params();
    let mut s = note_page(rt.alloc(), &p)?;
    let page = fires(&mut s)?.ok_or("no page")?;
    let mut plain = new_plain(&p);
    let Ok(shipped) = plain.fire(&mut s.store, &mut s.builder, page) else {
        return Err("no page ships")?;
    };
    let mut next = note_page(rt.alloc(), &p)?;
    let page = fires(&mut next)?.ok_or("no second page")?;
    let Ok(second) = plain.fire(&mut next.store, &mut next.builder, page) else {
        return Err("no second page ships")?;
    };
    assert_eq!(rt; (shipped.page, second.page), (1, 2));
    assert_eq!(rt; shipped.column.set.natural, 90);
    assert_eq!(rt;
        told_list(rt.alloc(), &s.store, shipped.column.list)?.as_slice(),
        [
            ('g', 0),
            ('b', 60),
            ('g', 0),
            ('g', 0),
            ('k', -196608),
            ('r', 26214),
            ('k', 170394),
            ('b', 30)
        ]
        .as_slice()
    );
    Ok(())
}
