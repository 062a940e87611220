//! A page fires: it is cut at its best place, its insertions give what fits to the boxes of their classes, and the rest
//! of them is held (TeX: The Program §1012 to §1022).

ghost use Rattle.std.specs.Prelude.{◌≡◌, ◌<◌, ◌≤◌, ◌+◌, ◌++◌, ℕ, List, [], ◌∷◌, map, take, drop, length, true, false, None, IfOk, OnErr};
ghost use Rattle.std.specs.FinMap.{insert};
ghost use Rattle.tb_pool.specs.Lists.{IsLive, list_at, with_list};
ghost use Rattle.tb_node.specs.declared.Node.{Node as NodeOf};
ghost use Rattle.tb_node.specs.PlainNodes.{plain_of};
ghost use Rattle.tb_builder.specs.Ownership.{ids_of, IsOwned};
ghost use Rattle.tb_builder.specs.FiredPages.{penalty_at, line_at};
ghost use Rattle.tb_builder.specs.Contents.{contents_of};
ghost use Rattle.tb_builder.specs.Courses.{IsSound};
ghost use Rattle.tb_builder.specs.PageEvents.{fired_room};
ghost use Rattle.tb_builder.specs.Firing.{EachFits, spent_node_kind, spent_nodes, Cuts, Fires};

use crate::front_nodes::first_in;
use crate::{Builder, Page};
use std::alloc::AllocError;
use tb_node::{Kind, Node};
use tb_pool::{ListId, Lists};
use tb_scaled::INF_PENALTY;

// Where a page breaks: the line of the break node, and its penalty.
#[derive(Clone, Copy)]
struct Break {
    line: u32,
    penalty: i64,
}

// The node; a penalty no longer forces a break.
fn spent(n: &Node) -> Node
    ensures { result ≡ record { line = n.now.line; kind = spent_node_kind n.now.kind } }
{
    match n.kind {
        Kind::Pen(_) => Node {
            line: n.line,
            kind: Kind::Pen(INF_PENALTY),
        },
        _ => *n,
    }
}

// Whether a node is a penalty. No other is changed by a break.
fn is_penalty(n: &Node) -> bool
    ensures { result ≡ false → spent_node_kind n.now.kind ≡ n.now.kind }
{
    matches!(n.kind, Kind::Pen(_))
}

// The penalty of the node at which a page breaks.
fn break_penalty(n: &Node) -> i64
    ensures { (held : ℕ → List NodeOf) (ns : List NodeOf) → result ≡ penalty_at (map (plain_of held) (n.now ∷ ns)) }
{
    match n.kind {
        Kind::Pen(p) => p,
        _ => INF_PENALTY,
    }
}

// The break before a node.
fn break_at(n: &Node) -> Break
    ensures line { result.line ≡ n.now.line }
    ensures penalty { (held : ℕ → List NodeOf) (ns : List NodeOf) → result.penalty ≡ penalty_at (map (plain_of held) (n.now ∷ ns)) }
{
    Break {
        line: n.line,
        penalty: break_penalty(n),
    }
}

// The page breaks before the first node of the list, which no longer forces a break.
fn spend_break(store: &mut Lists<Node>, l: ListId) -> Break
    requires { IsLive store.old l }
    ensures spent { store.new.lists ≡ with_list store.old l (spent_nodes (list_at store.old l)) }
    ensures line { (held : ℕ → List NodeOf) → result.line ≡ line_at (map (plain_of held) (list_at store.old l)) }
    ensures penalty { (held : ℕ → List NodeOf) → result.penalty ≡ penalty_at (map (plain_of held) (list_at store.old l)) }
    ensures spare { store.new.spare ≡ store.old.spare }
{
    let Some(n) = first_in(store, l) else {
        return Break {
            line: 0,
            penalty: INF_PENALTY,
        };
    };
    let at = break_at(n);
    if is_penalty(n) {
        let spent = spent(n);
        store.replace(l, 0, spent);
    }
    at
}

impl Builder {
    // What comes after this place of the page goes back before the waiting nodes.
    fn turn_back(&self, store: &mut Lists<Node>, place: usize)
        requires own { IsOwned (ids_of self.now) store.old }
        requires within { place ≤ length (list_at store.old self.now.page) }
        ensures turned { store.new.lists ≡ insert (with_list store.old self.now.page (take place (list_at store.old self.now.page))) self.now.waiting (drop place (list_at store.old self.now.page) ++ list_at store.old self.now.waiting) }
        ensures spare { store.new.spare ≡ store.old.spare }
    {
        if place == store.len(self.page) {
            return;
        }
        store.cut(self.page, place, self.rest);
        store.append(self.rest, self.waiting);
        store.append(self.waiting, self.rest);
    }

    // The page is cut at this place, at which it breaks.
    fn cut_page(&self, store: &mut Lists<Node>, place: usize) -> Break
        requires own { IsOwned (ids_of self.now) store.old }
        requires within { place ≤ length (list_at store.old self.now.page) }
        ensures cuts { Cuts self.now store.old store.new place }
        ensures line { result.line ≡ line_at (drop place (contents_of self.now store.old).page ++ (contents_of self.now store.old).waiting) }
        ensures penalty { result.penalty ≡ penalty_at (drop place (contents_of self.now store.old).page ++ (contents_of self.now store.old).waiting) }
        ensures spare { store.new.spare ≡ store.old.spare }
    {
        self.turn_back(store, place);
        spend_break(store, self.waiting)
    }

    // The page fires: it breaks at its best place. Returns the page; if memory runs out, nothing has changed.
    #[inline(always)]
    pub(crate) fn fire(&mut self, store: &mut Lists<Node>) -> Result<Page, AllocError>
        requires sound { IsSound self.old store.old }
        requires stopped { self.old.stopped ≡ true }
        requires none_held { list_at store.old self.old.held ≡ [] }
        requires fits { EachFits (contents_of self.old store.old).page }
        ensures fires { IfOk result (λ p. Fires self.old store.old self.new store.new p) }
        ensures builder { OnErr result (self.new ≡ self.old) }
        ensures lists { OnErr result (store.new.lists ≡ store.old.lists) }
    {
        let Some(best) = self.course.scan.best() else {
            unreachable!();
        };
        let shrink = self.course.scan.sums().shrink;
        store.reserve(1)?;
        let body = store.add_list()?;
        let at = self.cut_page(store, best.index);
        self.sort_page(store, body);
        self.clear();
        Ok(Page {
            body,
            penalty: at.penalty,
            cost: best.cost,
            size: self.course.best_goal,
            shrink,
            line: at.line,
            held: store.len(self.held) as u64,
        })
    }

    /// The height plus the depth in sp of the body of the page that fired last, until a place of the next page is tried.
    /// Before the first page fires it says nothing of use.
    pub fn fired_room(&self) -> i64
        ensures { result ≡ fired_room self.now }
    {
        match self.course.scan.best() {
            Some(best) => best.size,
            None => 0,
        }
    }

    // Clears the page: it is empty, and its goal is not frozen.
    fn clear(&mut self)
        ensures { self.new ≡ record self.old { frozen = None; opened = false; stopped = false; course = record self.old.course { lasting = false } } }
    {
        self.frozen = None;
        self.opened = false;
        self.stopped = false;
        self.course.lasting = false;
    }
}
