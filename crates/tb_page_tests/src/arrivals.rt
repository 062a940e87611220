//! Insertions come to worked pages, call by call. Heights are in sp.

ghost use Rattle.std.specs.Prelude.{◌≡◌, ◌+◌, ◌<◌, ℕ, pos, None, Some, true, IfOk, get_or};
ghost use Rattle.std.specs.FinMap.{get};
ghost use Rattle.tb_pool.specs.Lists.{IsLive, list_at};
ghost use Rattle.tb_node.specs.PlainNodes.{inserted_of};
ghost use Rattle.tb_insert.specs.Account.{class_box};
ghost use Rattle.tb_insert.specs.AccountEntries.{numbered};
ghost use Rattle.tb_insert.specs.Arrival.{InnerFits};
ghost use Rattle.tb_insert.specs.WorkedPages.{worked_box, worked_glue, worked_classes, worked_notes, HasLists, worked_note, short_nodes, long_nodes, single_node, StandsAt, footnotes, figures};

use crate::account::{make_box, no_glue};
use crate::builder::make_list;
use std::alloc::{AllocError, Global};
use std::test::Fail;
use tb_break::{Scan, new_scan};
use tb_insert::{Account, Class, new_account};
use tb_node::{Insertion, Node};
use tb_pool::{ListId, Lists};
use tb_scaled::{Glue, Order, fixed};

// A store with three lists, of 100000, of 400000 and of 600000 sp, and a page of goal 1000000 with the depth limit 0.
#[derive(Drop)]
struct Paged {
    store: Lists<Node>,
    short: ListId,
    long: ListId,
    single: ListId,
    account: Account,
    scan: Scan,
}

fn open(alloc: Global) -> Result<Paged, AllocError>
    ensures lists { IfOk result (λ p. HasLists p.store p.short p.long p.single) }
    ensures stands { IfOk result (λ p. StandsAt p.account p.scan 0) }
{
    let mut store = Lists::new(alloc);
    let short = make_list(&mut store, &[make_box(40000), no_glue(), make_box(60000)])?;
    let long = make_list(&mut store, &[make_box(250000), no_glue(), make_box(150000)])?;
    let single = make_list(&mut store, &[make_box(600000)])?;
    Ok(Paged {
        store,
        short,
        long,
        single,
        account: new_account(1000000),
        scan: new_scan(0),
    })
}

// Class 254: at most 500000 sp go on a page, under a skip of 12000 plus 3000 minus 2000.
fn footnotes() -> Class
    ensures { result ≡ footnotes }
{
    Class {
        number: 254,
        factor: 1000,
        limit: 500000,
        below: None,
        skip: Glue {
            width: 12000,
            stretch: 3000,
            order: Order::Normal,
            shrink: 2000,
        },
    }
}

// Class 253: half of each height counts.
fn figures() -> Class
    ensures { result ≡ figures }
{
    Class {
        number: 253,
        factor: 500,
        limit: 1073741823,
        below: None,
        skip: fixed(0),
    }
}

// The class of this number.
fn class_of(number: u8) -> Class
    requires { numbered worked_classes number ≡ true }
    ensures { result ≡ (class_box worked_classes number).class }
{
    if number == 254 {
        footnotes()
    } else {
        figures()
    }
}

// What the box of this class holds from earlier pages.
fn box_size(number: u8) -> i64
    requires { numbered worked_classes number ≡ true }
    ensures { result ≡ (class_box worked_classes number).size }
{
    if number == 254 { 0 } else { 40000 }
}

fn note(class: u8, list: ListId, height: i64) -> Insertion
    ensures { result ≡ record { class = class; list = list; height = height; split_depth = pos 0; split_top = pos 0; floating = pos 77 } }
{
    Insertion {
        class,
        list,
        height,
        split_depth: 0,
        split_top: 0,
        floating: 77,
    }
}

fn short_note(p: &Paged, class: u8) -> Insertion
    requires { HasLists p.now.store p.now.short p.now.long p.now.single }
    ensures inner { InnerFits p.now.store result }
    ensures inserted { inserted_of (list_at p.now.store) result ≡ worked_note class short_nodes (pos 100000) }
{
    note(class, p.short, 100000)
}

fn long_note(p: &Paged) -> Insertion
    requires { HasLists p.now.store p.now.short p.now.long p.now.single }
    ensures inner { InnerFits p.now.store result }
    ensures inserted { inserted_of (list_at p.now.store) result ≡ worked_note 254 long_nodes (pos 400000) }
{
    note(254, p.long, 400000)
}

fn single_note(p: &Paged) -> Insertion
    requires { HasLists p.now.store p.now.short p.now.long p.now.single }
    ensures inner { InnerFits p.now.store result }
    ensures inserted { inserted_of (list_at p.now.store) result ≡ worked_note 254 single_node (pos 600000) }
{
    note(254, p.single, 600000)
}

// The stretch and the shrink of what the scan has.
fn told_glue(scan: &Scan) -> (i64, i64) {
    let sums = scan.sums();
    (sums.stretch[0], sums.shrink)
}

// The next insertion of the worked page comes to the page, at the place `index`.
fn arrive(p: &mut Paged, index: usize, ins: &Insertion)
    requires few { index < 5 }
    requires lists { HasLists p.old.store p.old.short p.old.long p.old.single }
    requires inner { InnerFits p.old.store ins.now }
    requires next { inserted_of (list_at p.old.store) ins.now ≡ get_or worked_notes index (inserted_of (list_at p.old.store) ins.now) }
    requires stands { StandsAt p.old.account p.old.scan index }
    ensures lists { HasLists p.new.store p.new.short p.new.long p.new.single }
    ensures stands { StandsAt p.new.account p.new.scan (index + 1) }
{
    let class = class_of(ins.class);
    let size = box_size(ins.class);
    p.account
        .arrive(&p.store, ins, index, &class, size, &mut p.scan);
}

// The same of an insertion whose class is cut off. Returns whether it is; else nothing changes.
fn arrive_late(p: &mut Paged, index: usize, ins: &Insertion) -> bool
    requires few { index < 5 }
    requires inner { InnerFits p.old.store ins.now }
    requires next { inserted_of (list_at p.old.store) ins.now ≡ get_or worked_notes index (inserted_of (list_at p.old.store) ins.now) }
    requires stands { StandsAt p.old.account p.old.scan index }
{
    if !p.account.is_late(ins.class) {
        return false;
    }
    p.account.arrive_late(ins, index);
    true
}

// The third insertion is split, so the fourth is late: it takes nothing of the page, adds 77, and is not let in.
#[test]
fn an_insertion_comes_late(rt: HostRuntime) -> Result<(), Fail> {
    let mut p = open(rt.alloc())?;
    let short = short_note(&p, 254);
    arrive(&mut p, 0, &short);
    let short = short_note(&p, 254);
    arrive(&mut p, 1, &short);
    let long = long_note(&p);
    arrive(&mut p, 2, &long);
    assert_eq!(rt; (p.account.goal(), p.account.penalties()), (538000, 0));
    let short = short_note(&p, 254);
    assert!(rt; arrive_late(&mut p, 3, &short));
    assert_eq!(rt; (p.account.goal(), p.account.penalties()), (538000, 77));
    assert_eq!(rt; told_glue(&p.scan), (3000, 2000));
    p.account.mark_best();
    assert_eq!(rt; p.account.last_insertion(), Some(3));
    assert_eq!(rt; p.account.last_in(254), Some(2));
    assert_eq!(rt; p.account.cut_at(254), Some((2, 1)));
    Ok(())
}

#[test]
fn insertions_come_to_a_page(rt: HostRuntime) -> Result<(), Fail> {
    let mut p = open(rt.alloc())?;
    assert_eq!(rt; (p.account.goal(), p.account.penalties()), (1000000, 0));
    let note = short_note(&p, 254);
    arrive(&mut p, 0, &note);
    assert_eq!(rt; p.account.goal(), 888000);
    assert_eq!(rt; told_glue(&p.scan), (3000, 2000));
    let note = short_note(&p, 254);
    arrive(&mut p, 1, &note);
    assert_eq!(rt; p.account.goal(), 788000);
    p.account.mark_best();
    let note = long_note(&p);
    arrive(&mut p, 2, &note);
    assert_eq!(rt; (p.account.goal(), p.account.penalties()), (538000, 0));
    let note = short_note(&p, 254);
    arrive(&mut p, 3, &note);
    assert_eq!(rt; (p.account.goal(), p.account.penalties()), (538000, 77));
    let note = short_note(&p, 253);
    arrive(&mut p, 4, &note);
    assert_eq!(rt; (p.account.goal(), p.account.penalties()), (468000, 77));
    assert_eq!(rt; p.account.last_in(254), Some(1));
    assert_eq!(rt; p.account.cut_at(254), None);
    p.account.mark_best();
    assert_eq!(rt; p.account.last_in(254), Some(2));
    assert_eq!(rt; p.account.cut_at(254), Some((2, 1)));
    assert_eq!(rt; p.account.last_in(253), Some(4));
    Ok(())
}

#[test]
fn an_insertion_that_the_page_splits(rt: HostRuntime) -> Result<(), Fail> {
    let mut p = open(rt.alloc())?;
    p.scan.add(&make_box(940000));
    let note = short_note(&p, 254);
    p.account
        .arrive(&p.store, &note, 1, &footnotes(), 0, &mut p.scan);
    assert_eq!(rt; (p.account.goal(), p.account.penalties()), (948000, 0));
    p.account.mark_best();
    assert_eq!(rt; p.account.last_in(254), Some(1));
    assert_eq!(rt; p.account.cut_at(254), Some((1, 1)));
    Ok(())
}

#[test]
fn an_insertion_that_is_split_at_its_end(rt: HostRuntime) -> Result<(), Fail> {
    let mut p = open(rt.alloc())?;
    let note = single_note(&p);
    p.account
        .arrive(&p.store, &note, 0, &footnotes(), 0, &mut p.scan);
    assert_eq!(rt; (p.account.goal(), p.account.penalties()), (388000, -10000));
    p.account.mark_best();
    assert_eq!(rt; p.account.last_in(254), Some(0));
    assert_eq!(rt; p.account.cut_at(254), None);
    p.account.restart(700000);
    assert_eq!(rt; (p.account.goal(), p.account.penalties()), (700000, 0));
    assert_eq!(rt; p.account.last_in(254), None);
    Ok(())
}
