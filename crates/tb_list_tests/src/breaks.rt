//! The calls, on worked lists.

ghost use Rattle.std.specs.Prelude.{◌≡◌, ◌≢◌, ◌<◌, [], All, IfOk};
ghost use Rattle.tb_pool.specs.Lists.{IsLive, list_at};
ghost use Rattle.tb_node.specs.Fit.{IsSizedNode, IsExtent, IsDimension, IsPenalty};

use std::alloc::{AllocError, Global};
use std::test::Fail;
use tb_break::{PlaceKind, cost, find, legal, new_scan, prune, split};
use tb_node::{Kind, Node, Sums, What, name_of};
use tb_pool::{ListId, Lists};
use tb_scaled::{Glue, Order, fixed};

// A store with a list of nodes and an empty one.
#[derive(Drop)]
struct Stored {
    store: Lists<Node>,
    list: ListId,
    rest: ListId,
}

#[tactic(auto, using(tb_pool::proofs::MapLemmas::list_steps))]
fn make_stored(alloc: Global, nodes: &[Node]) -> Result<Stored, AllocError>
    ensures live { IfOk result (λ s. IsLive s.store s.list × IsLive s.store s.rest × (s.list ≢ s.rest)) }
    ensures whole { IfOk result (λ s. list_at s.store s.list ≡ nodes.now) }
    ensures rest { IfOk result (λ s. list_at s.store s.rest ≡ []) }
    ensures room { IfOk result (λ s. 0 < s.store.spare) }
{
    let mut store = Lists::new(alloc);
    let list = store.add_list()?;
    let rest = store.add_list()?;
    store.reserve(nodes.len() + 1)?;
    for n in nodes {
        store.push_back(list, *n);
    }
    Ok(Stored { store, list, rest })
}

fn make_node(kind: Kind) -> Node
    ensures { result.kind ≡ kind }
{
    Node { line: 7, kind }
}

fn make_box(height: i64, depth: i64) -> Node
    requires height { IsExtent height }
    requires depth { IsExtent depth }
    ensures { IsSizedNode result }
{
    make_node(Kind::Hbox {
        what: What::Blank,
        height,
        depth,
    })
}

fn no_glue() -> Node
    ensures { IsSizedNode result }
{
    make_node(Kind::Skip(fixed(0)))
}

fn five() -> [Node; 5]
    ensures { All IsSizedNode result }
{
    [
        make_box(10, 2),
        no_glue(),
        make_box(12, 0),
        no_glue(),
        make_box(12, 0),
    ]
}

#[test]
fn splits_at_the_later_of_equal_costs(rt: HostRuntime) -> Result<(), Fail> {
    let mut s = make_stored(rt.alloc(), &five())?;
    let found = find(&s.store, s.list, 30, 1);
    assert_eq!(rt; found.index, 3);
    assert!(rt; matches!(found.kind, PlaceKind::Skip));
    assert_eq!(rt; (found.penalty, found.size, found.cost), (0, 24, 100000));
    let split = split(&mut s.store, s.list, 30, 1, s.rest);
    assert_eq!(rt; (split.index, split.cost), (3, 100000));
    assert_eq!(rt; (s.store.len(s.list), s.store.len(s.rest)), (3, 2));
    Ok(())
}

fn make_glue(width: i64) -> Node
    requires { IsDimension width }
    ensures { IsSizedNode result }
{
    make_node(Kind::Skip(fixed(width)))
}

fn make_penalty(penalty: i64) -> Node
    requires { IsPenalty penalty }
    ensures { IsSizedNode result }
{
    make_node(Kind::Pen(penalty))
}

fn make_note() -> Node
    ensures { IsSizedNode result }
{
    match name_of(b"n") {
        Some(name) => make_node(Kind::Note(name)),
        None => make_node(Kind::Whatsit),
    }
}

fn page_top() -> [Node; 4]
    ensures { All IsSizedNode result }
{
    [make_glue(5), make_penalty(0), make_note(), make_box(10, 0)]
}

// The kind of a node, its line and its first amount.
fn told(n: &Node) -> (char, u32, i64) {
    match n.kind {
        Kind::Hbox { height, .. } => ('b', n.line, height),
        Kind::Skip(g) => ('g', n.line, g.width),
        Kind::Note(_) => ('n', n.line, 0),
        _ => ('?', n.line, 0),
    }
}

#[test]
fn prunes_up_to_the_box(rt: HostRuntime) -> Result<(), Fail> {
    let mut s = make_stored(rt.alloc(), &page_top())?;
    prune(&mut s.store, s.list, 12);
    let mut k = 0;
    for n in s.store.iter(s.list) {
        let want = [('n', 7, 0), ('g', 7, 2), ('b', 7, 10)];
        assert!(rt; k < want.len());
        assert_eq!(rt; told(n), want[k], "at {k}");
        k += 1;
    }
    assert_eq!(rt; k, 3);
    Ok(())
}

#[test]
fn legal_places(rt: HostRuntime) -> Result<(), Fail> {
    let nodes = [
        make_box(1, 0),
        make_glue(1),
        make_glue(1),
        make_node(Kind::Kern(1)),
        make_glue(1),
        make_penalty(10000),
        make_penalty(50),
        make_note(),
        make_node(Kind::Kern(1)),
    ];
    let s = make_stored(rt.alloc(), &nodes)?;
    let want = [
        None,
        Some(0),
        None,
        Some(0),
        None,
        None,
        Some(50),
        None,
        None,
        Some(-10000),
        None,
    ];
    for (index, penalty) in want.iter().enumerate() {
        assert_eq!(rt; legal(&s.store, s.list, index), *penalty, "at {index}");
    }
    Ok(())
}

#[test]
fn costs(rt: HostRuntime) {
    let sums = Sums {
        total: 20,
        depth: 0,
        stretch: [5, 0, 0, 0],
        shrink: 0,
    };
    assert_eq!(rt; cost(&sums, 30, 0, 0), (800, 800));
    assert_eq!(rt; cost(&sums, 30, 0, 20000), (800, 1073741823));
    assert_eq!(rt; cost(&sums, 30, -10000, 0), (800, -10000));
    assert_eq!(rt; cost(&sums, 19, 0, 0), (1073741823, 1073741823));
}

#[test]
fn a_scan_keeps_the_last_of_least_cost(rt: HostRuntime) {
    let mut scan = new_scan(0);
    scan.add(&make_box(12, 0));
    assert!(rt; scan.offer(1, 0, 30, 0).champion);
    scan.add(&make_box(12, 0));
    let second = scan.offer(3, 0, 30, 0);
    assert_eq!(rt;
        (second.badness, second.cost, second.champion, second.stop),
        (10000, 100000, true, false)
    );
    scan.add(&make_box(12, 0));
    let last = scan.offer(5, 0, 30, 0);
    assert_eq!(rt;
        (last.cost, last.champion, last.stop),
        (1073741823, false, true)
    );
    let Some(best) = scan.best() else {
        assert!(rt; false);
        return;
    };
    assert_eq!(rt; (best.index, best.cost, best.size), (3, 100000, 24));
}

#[test]
fn the_skip_of_a_class_has_no_width(rt: HostRuntime) {
    let mut scan = new_scan(0);
    scan.stretch_by(Glue {
        width: 9,
        stretch: 3,
        order: Order::Fil,
        shrink: 2,
    });
    let sums = scan.sums();
    let stretch = sums.stretch;
    assert_eq!(rt; (sums.total, sums.depth, sums.shrink), (0, 0, 2));
    assert_eq!(rt; stretch, [0, 3, 0, 0]);
}
