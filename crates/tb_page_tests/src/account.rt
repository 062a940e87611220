//! The insertions of two worked pages, counted one by one. Heights are in sp.

ghost use Rattle.std.specs.Prelude.{◌≡◌, pos, None};
ghost use Rattle.tb_scaled.specs.Glue.{fixed_glue};
ghost use Rattle.tb_insert.specs.WorkedPages.{worked_box, worked_glue};

use crate::builder::make_list;
use std::test::Fail;
use tb_break::new_scan;
use tb_insert::{Account, Class, new_account};
use tb_node::{Insertion, Kind, Node, What};
use tb_pool::{ListId, Lists};
use tb_scaled::fixed;

pub(crate) fn make_box(height: i64) -> Node
    ensures { result ≡ worked_box height }
{
    let kind = Kind::Hbox {
        what: What::Blank,
        height,
        depth: 0,
    };
    Node { line: 7, kind }
}

pub(crate) fn no_glue() -> Node
    ensures { result ≡ worked_glue }
{
    Node {
        line: 7,
        kind: Kind::Skip(fixed(0)),
    }
}

// Class 254: each height counts whole, and there is no skip.
fn footnotes(limit: i64) -> Class
    ensures { result ≡ record { number = 254; factor = pos 1000; limit = limit; below = None; skip = fixed_glue (pos 0) } }
{
    Class {
        number: 254,
        factor: 1000,
        limit,
        below: None,
        skip: fixed(0),
    }
}

fn note(list: ListId, height: i64) -> Insertion
    ensures { result ≡ record { class = 254; list = list; height = height; split_depth = pos 186778; split_top = pos 10; floating = pos 20000 } }
{
    Insertion {
        class: 254,
        list,
        height,
        split_depth: 186778,
        split_top: 10,
        floating: 20000,
    }
}

// The goal that is left, and the insert penalties.
fn told(account: &Account) -> (i64, i64) {
    (account.goal(), account.penalties())
}

#[test]
fn a_late_insertion(rt: HostRuntime) -> Result<(), Fail> {
    let mut store = Lists::new(rt.alloc());
    let first = make_list(&mut store, &[make_box(15), no_glue(), make_box(15)])?;
    let second = make_list(&mut store, &[make_box(5)])?;
    let mut account = new_account(45);
    let mut scan = new_scan(0);
    scan.add(&make_box(10));
    scan.add(&no_glue());
    scan.add(&make_box(10));
    let class = footnotes(1073741823);
    account.arrive(&store, &note(first, 30), 3, &class, 0, &mut scan);
    assert_eq!(rt; told(&account), (30, 0));
    account.arrive(&store, &note(second, 5), 4, &class, 0, &mut scan);
    assert_eq!(rt; told(&account), (30, 20000));
    Ok(())
}

#[test]
fn an_insertion_that_its_class_splits_at_its_end(rt: HostRuntime) -> Result<(), Fail> {
    let mut store = Lists::new(rt.alloc());
    let list = make_list(&mut store, &[make_box(8)])?;
    let mut account = new_account(30);
    let mut scan = new_scan(0);
    scan.add(&make_box(10));
    account.arrive(&store, &note(list, 8), 1, &footnotes(5), 0, &mut scan);
    assert_eq!(rt; told(&account), (22, -10000));
    Ok(())
}
