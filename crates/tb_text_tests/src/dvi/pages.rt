//! Pages that are written, and what is listed of them.
ghost use Rattle.std.specs.Prelude.{◌≡◌, ◌+◌, ◌<◌, ◌≤◌, All, length, IfOk};
ghost use Rattle.tb_pool.specs.Lists.{IsLive, list_at};
ghost use Rattle.tb_node.specs.Fit.{IsSizedNode, IsSized};
ghost use Rattle.tb_node.specs.PlainNodes.{shape_of_kind};
ghost use Rattle.tb_report.specs.Printable.{IsPrintable};
ghost use Rattle.tb_dvi.specs.Page.{IsShowable};

use super::{NO_PAGE, THREE_BOXES, listing_of};
use crate::report::put;
use std::test::Fail;
use tb_column::{Column, ColumnKind};
use tb_dvi::{DviFault, Part, Progress, page_bytes, post_bytes, pre_bytes, put_far};
use tb_node::{Kind, Name, Node, RuleOf, Side, What, Where, name_of};
use tb_pack::pack;
use tb_param::defaults;
use tb_pool::{ListId, Lists};
use tb_scaled::{Glue, Order};
use tb_sheet::Sheet;

const FIVE: Kind = Kind::Skip(Glue {
    width: 0,
    stretch: 5,
    order: Order::Normal,
    shrink: 0,
});

// The same list above both columns, in the first and in the second, which begin 100sp down.
const EVERY_KIND: &[u8] =
    b"dvi 1\npage 3\nspecial 0 20 float n 7 wide\nrule 0 20 20 65536\nspecial 0 30 box n\nrule 0 30 10 65536\nspecial 0 29 margin n left\nrule 0 29 6 65536\nspecial 0 30 note n\nspecial 0 37 rule n\nrule 0 37 7 65536\nspecial 0 38 footrule\nrule 0 38 1 65536\nspecial 0 38 mark n\nspecial 0 120 float n 7 wide\nrule 0 120 20 65536\nspecial 0 130 box n\nrule 0 130 10 65536\nspecial 0 129 margin n left\nrule 0 129 6 65536\nspecial 0 130 note n\nspecial 0 137 rule n\nrule 0 137 7 65536\nspecial 0 138 footrule\nrule 0 138 1 65536\nspecial 0 138 mark n\nspecial 19660800 120 float n 7 wide\nrule 19660800 120 20 65536\nspecial 19660800 130 box n\nrule 19660800 130 10 65536\nspecial 19660800 129 margin n left\nrule 19660800 129 6 65536\nspecial 19660800 130 note n\nspecial 19660800 137 rule n\nrule 19660800 137 7 65536\nspecial 19660800 138 footrule\nrule 19660800 138 1 65536\nspecial 19660800 138 mark n\nend pages 1\n";

// A box of text with this name.
fn box_of(name: Name) -> Kind
    ensures { IsSized (shape_of_kind result) }
{
    Kind::Hbox {
        what: What::Text(name),
        height: 10,
        depth: 0,
    }
}

// A list of three boxes with glue between them.
#[tactic(auto, using(tb_pool::proofs::MapLemmas::list_steps))]
fn three_boxes(store: &mut Lists<Node>) -> Result<ListId, Fail>
    ensures live { IfOk result (IsLive store.new) }
    ensures sized { IfOk result (λ l. All IsSizedNode (list_at store.new l)) }
    ensures few { IfOk result (λ l. length (list_at store.new l) ≤ 7) }
{
    let a = name_of(b"a").ok_or("no name")?;
    let b = name_of(b"b").ok_or("no name")?;
    let c = name_of(b"c").ok_or("no name")?;
    let l = store.add_list()?;
    store.reserve(5)?;
    put(store, l, box_of(a));
    put(store, l, FIVE);
    put(store, l, box_of(b));
    put(store, l, FIVE);
    put(store, l, box_of(c));
    Ok(l)
}

// A column that is packed to a height.
fn column(store: &Lists<Node>, list: ListId, height: u8) -> Column
    requires live { IsLive store.now list }
    requires sized { All IsSizedNode (list_at store.now list) }
    requires few { length (list_at store.now list) ≤ 7 }
    ensures list { result.list ≡ list }
    ensures printable { IsPrintable store.now result }
{
    Column {
        kind: ColumnKind::Text,
        list,
        set: pack(store, list, i64::from(height), 0),
    }
}

// The same as a part of a page, this far down.
fn part(store: &Lists<Node>, list: ListId, at: i64) -> Part
    requires live { IsLive store.now list }
    requires sized { All IsSizedNode (list_at store.now list) }
    requires few { length (list_at store.now list) ≤ 7 }
    ensures { IsShowable store.now result }
{
    let column = column(store, list, 30);
    Part {
        h: 0,
        at,
        list: column.list,
        set: column.set,
    }
}

#[test]
fn writes_a_page(rt: HostRuntime) -> Result<(), Fail> {
    let mut store = Lists::new(rt.alloc());
    let l = three_boxes(&mut store)?;
    let parts = [part(&store, l, 0)];
    let mut file = pre_bytes(rt.alloc())?;
    let page = match page_bytes(rt.alloc(), &store, 1, &parts, 27, -1) {
        Ok(bytes) => bytes,
        Err(_) => return Err("no page".into()),
    };
    file.extend_from_slice(&page)?;
    let mut params = defaults();
    params.textheight = 30;
    assert_eq!(rt; file.len(), 157);
    let post = post_bytes(rt.alloc(), &params, 1, true, 27, 157)?;
    file.extend_from_slice(&post)?;
    assert_eq!(rt; file.as_slice(), THREE_BOXES);
    Ok(())
}

#[test]
fn writes_a_file_page_by_page(rt: HostRuntime) -> Result<(), Fail> {
    let mut store = Lists::new(rt.alloc());
    let l = three_boxes(&mut store)?;
    let mut params = defaults();
    params.textheight = 36_044_800;
    let mut file = pre_bytes(rt.alloc())?;
    let mut progress = Progress::new();
    progress.put_end(&mut file, &params)?;
    assert_eq!(rt; file.as_slice(), NO_PAGE);

    params.textheight = 30;
    let mut file = pre_bytes(rt.alloc())?;
    let sheet = Sheet::One(column(&store, l, 30));
    match progress.put_next(&mut file, rt.alloc(), &store, 1, &sheet) {
        Ok(()) => {}
        Err(_) => return Err("no page".into()),
    }
    progress.put_end(&mut file, &params)?;
    assert_eq!(rt; file.as_slice(), THREE_BOXES);
    Ok(())
}

// A list of one item of each kind that is shown, 38sp high.
#[tactic(auto, using(tb_pool::proofs::MapLemmas::list_steps))]
fn every_kind(store: &mut Lists<Node>) -> Result<ListId, Fail>
    ensures live { IfOk result (IsLive store.new) }
    ensures sized { IfOk result (λ l. All IsSizedNode (list_at store.new l)) }
    ensures few { IfOk result (λ l. length (list_at store.new l) ≤ 7) }
{
    let name = name_of(b"n").ok_or("no name")?;
    let l = store.add_list()?;
    store.reserve(7)?;
    let float = What::Float {
        name,
        class: 7,
        place: Where::Double,
        item: 1,
    };
    put(
        store,
        l,
        Kind::Hbox {
            what: float,
            height: 20,
            depth: 0,
        },
    );
    put(store, l, box_of(name));
    let note = What::Margin {
        name,
        side: Side::Left,
        shift: -3,
        height: 4,
        depth: 2,
        item: 1,
    };
    put(
        store,
        l,
        Kind::Hbox {
            what: note,
            height: 0,
            depth: 0,
        },
    );
    put(store, l, Kind::Note(name));
    put(
        store,
        l,
        Kind::Rule {
            of: RuleOf::Item(name),
            height: 6,
            depth: 1,
        },
    );
    put(
        store,
        l,
        Kind::Rule {
            of: RuleOf::Footnotes,
            height: 1,
            depth: 0,
        },
    );
    put(store, l, Kind::Mark(name));
    Ok(l)
}

#[test]
fn writes_and_lists_every_kind_of_item(rt: HostRuntime) -> Result<(), Fail> {
    let alloc = rt.alloc();
    let mut store = Lists::new(alloc);
    let l = every_kind(&mut store)?;
    let sheet = Sheet::Two {
        tops: l,
        at: 100,
        left: column(&store, l, 38),
        right: column(&store, l, 38),
    };
    let mut params = defaults();
    params.textheight = 138;
    let mut file = pre_bytes(alloc)?;
    let mut progress = Progress::new();
    match progress.put_next(&mut file, alloc, &store, 3, &sheet) {
        Ok(()) => {}
        Err(_) => return Err("no page".into()),
    }
    progress.put_end(&mut file, &params)?;
    assert_eq!(rt; listing_of(alloc, &file)?.as_slice(), EVERY_KIND);
    Ok(())
}

#[test]
fn refuses_a_page_out_of_range(rt: HostRuntime) -> Result<(), Fail> {
    let alloc = rt.alloc();
    let mut store = Lists::new(alloc);
    let l = three_boxes(&mut store)?;
    // The lower edges have four bytes or not; the page has 130 bytes, which end in time or not.
    let rows: [(i64, u32, bool); 6] = [
        (2147483617, 27, true),
        (2147483618, 27, false),
        (-2147483658, 27, true),
        (-2147483659, 27, false),
        (0, 2147482870, true),
        (0, 2147482871, false),
    ];
    for (at, place, is_good) in rows {
        if place > 2147482871 {
            return Err("no such place".into());
        }
        let parts = [part(&store, l, at)];
        match page_bytes(alloc, &store, 9, &parts, u64::from(place), -1) {
            Ok(_) => assert!(rt; is_good),
            Err(DviFault::TooFar { page }) => {
                assert!(rt; !is_good);
                assert_eq!(rt; page, 9);
            }
            Err(DviFault::Memory) => return Err("no memory".into()),
        }
    }
    let mut line = Vec::new(alloc);
    put_far(&mut line, 9)?;
    assert_eq!(rt; line.as_slice(), b"page 9: out of DVI range".as_slice());
    Ok(())
}
