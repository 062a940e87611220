//! Worked rows of reports.

ghost use Rattle.std.specs.Prelude.{◌≡◌, ◌+◌, ◌<◌, ◌≤◌, All, length};
ghost use Rattle.tb_pool.specs.Lists.{IsLive, list_at};
ghost use Rattle.tb_node.specs.Fit.{IsSizedNode, IsSized};
ghost use Rattle.tb_node.specs.PlainNodes.{shape_of_kind};
ghost use Rattle.tb_node.specs.SmallAmounts.{IsAmount};
ghost use Rattle.tb_report.specs.Printable.{IsPrintable};

use std::test::Fail;
use tb_column::{Column, ColumnKind};
use tb_node::{Kind, Node, What, name_of};
use tb_pack::pack;
use tb_pool::{ListId, Lists};
use tb_report::{Totals, end_text, sent_text};
use tb_scaled::{Glue, Order};
use tb_sheet::{Sent, Sheet, Warn};

const FIL: Kind = Kind::Skip(Glue {
    width: 0,
    stretch: 65_536,
    order: Order::Fil,
    shrink: 0,
});

#[tactic(auto, using(tb_pool::proofs::MapLemmas::list_steps))]
#[test]
fn writes_a_page_and_the_end(rt: HostRuntime) -> Result<(), Fail> {
    let note = name_of(b"n").ok_or("no name")?;
    let text = name_of(b"a").ok_or("no name")?;
    let mut store = Lists::new(rt.alloc());
    let l = store.add_list()?;
    store.reserve(3)?;
    put(&mut store, l, Kind::Note(note));
    put(
        &mut store,
        l,
        Kind::Hbox {
            what: What::Text(text),
            height: 10,
            depth: 0,
        },
    );
    put(&mut store, l, FIL);
    let page = Sent::Ship {
        page: 1,
        sheet: Sheet::One(column(&store, l, 30)),
    };
    let lines = sent_text(rt.alloc(), &store, &page)?;
    assert_eq!(rt;
        lines.as_slice(),
        b"page 1 one\ncolumn 1 text height 30 natural 10 set stretch fil 20/65536\nnote n 0\nbox a 0 10 0\n".as_slice()
    );
    let mut totals = Totals::new();
    totals.count(&store, &page);
    let end = end_text(rt.alloc(), &store, l, &totals)?;
    assert_eq!(rt;
        end.as_slice(),
        b"left note n\nend pages 1 boxes 1 floats 0 warnings 0\n".as_slice()
    );
    Ok(())
}

#[test]
fn writes_warnings(rt: HostRuntime) -> Result<(), Fail> {
    let name = name_of(b"F").ok_or("no name")?;
    let store = Lists::new(rt.alloc());
    let rows = [
        (
            Warn::Large { name, by: 50 },
            b"warn large F 50\n".as_slice(),
        ),
        (Warn::Ht { name }, b"warn ht F\n".as_slice()),
        (
            Warn::Moved { name, shift: 6 },
            b"warn moved F 6\n".as_slice(),
        ),
        (Warn::Floats { page: 1 }, b"warn floats 1\n".as_slice()),
    ];
    for (warning, line) in rows {
        let lines = sent_text(rt.alloc(), &store, &Sent::Warn(warning))?;
        assert_eq!(rt; lines.as_slice(), line);
    }
    Ok(())
}

// A column of text that is packed to a height.
fn column(store: &Lists<Node>, list: ListId, height: i64) -> Column
    requires live { IsLive store.now list }
    requires height { IsAmount height }
    requires sized { All IsSizedNode (list_at store.now list) }
    requires few { length (list_at store.now list) ≤ 4 }
    ensures list { result.list ≡ list }
    ensures few { length (list_at store.now result.list) ≤ 4 }
    ensures printable { IsPrintable store.now result }
{
    Column {
        kind: ColumnKind::Text,
        list,
        set: pack(store, list, height, 0),
    }
}

#[tactic(auto, using(tb_pool::proofs::MapLemmas::list_steps))]
pub(crate) fn put(lists: &mut Lists<Node>, l: ListId, kind: Kind)
    requires live { IsLive lists.old l }
    requires room { 0 < lists.old.spare }
    requires sized { All IsSizedNode (list_at lists.old l) }
    requires node { IsSized (shape_of_kind kind) }
    ensures live { IsLive lists.new l }
    ensures spare { lists.new.spare + 1 ≡ lists.old.spare }
    ensures sized { All IsSizedNode (list_at lists.new l) }
    ensures length { length (list_at lists.new l) ≡ length (list_at lists.old l) + 1 }
{
    lists.push_back(l, Node { line: 0, kind });
}
