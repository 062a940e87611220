//! Nodes and lists are handed to a builder, and its lists are shown.

ghost use Rattle.std.specs.Prelude.{◌≡◌, ◌≢◌, ◌++◌, ◌∷◌, [], Some, false, is_some, ℕ, OnOk, OnErr};
ghost use Rattle.std.specs.FinMap.{get};
ghost use Rattle.tb_pool.specs.Lists.{IsLive, list_at};
ghost use Rattle.tb_node.specs.PlainNodes.{plain_of, plain_list};
ghost use Rattle.tb_builder.specs.Contents.{contents_of};
ghost use Rattle.tb_builder.specs.Ownership.{ids_of, owned, inner_ids, Lacks};
ghost use Rattle.tb_builder.specs.Courses.{IsSound};
ghost use Rattle.tb_builder.specs.Contributions.{NodesJoin, ListJoins, MayWait, InFront, NoPage, ends_in_kern};

use crate::Builder;
use std::alloc::AllocError;
use tb_node::Node;
use tb_pool::{ListId, Lists};

// The nodes of the lists `a` and `b` come before those of `c`; `a` and `b` are empty then.
fn put_in_front(store: &mut Lists<Node>, a: ListId, b: ListId, c: ListId)
    requires first_live { IsLive store.old a }
    requires second_live { IsLive store.old b }
    requires third_live { IsLive store.old c }
    requires apart { a ≢ b }
    requires first_apart { a ≢ c }
    requires second_apart { b ≢ c }
    ensures front { InFront store.old store.new a b c }
    ensures spare { store.new.spare ≡ store.old.spare }
{
    if store.len(a) == 0 && store.len(b) == 0 {
        return;
    }
    store.append(a, b);
    store.append(a, c);
    store.append(c, a);
}

impl Builder {
    /// Appends a node to the waiting nodes; the list of an insertion is the builder's from then on. The node must not
    /// be glue if the page's last node is a kern and nothing but acts waits. On an `Err` nothing changed.
    #[inline(always)]
    pub fn contribute(&mut self, store: &mut Lists<Node>, n: Node) -> Result<(), AllocError>
        requires sound { IsSound self.old store.old }
        requires joins { NodesJoin (ids_of self.old) store.old (n ∷ []) }
        requires may_wait { MayWait (contents_of self.old store.old) (plain_of (list_at store.old) n) }
        ensures sound { IsSound self.new store.new }
        ensures contents { OnOk result (contents_of self.new store.new ≡ record (contents_of self.old store.old) { waiting = (contents_of self.old store.old).waiting ++ plain_of (list_at store.old) n ∷ [] }) }
        ensures err { OnErr result (store.new.lists ≡ store.old.lists) }
        ensures same { self.new ≡ self.old }
        ensures others { (q : ℕ) → Lacks q (owned (ids_of self.old) store.old) → get store.new.lists q ≡ get store.old.lists q }
        ensures keeps { (q : ℕ) → Lacks q (owned (ids_of self.old) store.old ++ inner_ids (n ∷ [])) → Lacks q (owned (ids_of self.new) store.new) }
    {
        store.reserve(1)?;
        store.push_back(self.waiting, n);
        Ok(())
    }

    /// What the output routine puts back after a page fired: the nodes of the list come before the waiting nodes, and
    /// the insertions held of that page before them. The list is empty then. Takes no memory.
    pub fn put_back(&mut self, store: &mut Lists<Node>, list: ListId)
        requires sound { IsSound self.old store.old }
        requires empty { NoPage (contents_of self.old store.old) }
        requires joins { ListJoins (ids_of self.old) store.old list }
        ensures sound { IsSound self.new store.new }
        ensures contents { contents_of self.new store.new ≡ record (contents_of self.old store.old) {
          waiting = (contents_of self.old store.old).held ++ (plain_list store.old list ++ (contents_of self.old store.old).waiting);
          held = [];
        } }
        ensures spare { store.new.spare ≡ store.old.spare }
        ensures emptied { get store.new.lists list ≡ Some [] }
        ensures others { (q : ℕ) → q ≢ list → Lacks q (owned (ids_of self.old) store.old) → get store.new.lists q ≡ get store.old.lists q }
        ensures keeps { (q : ℕ) → Lacks q (owned (ids_of self.old) store.old ++ inner_ids (list_at store.old list)) → Lacks q (owned (ids_of self.new) store.new) }
    {
        put_in_front(store, self.held, list, self.waiting);
    }

    /// Puts the nodes of the list before all waiting nodes. The last event of `next` must not be the Try of a stop, nor
    /// the page's last node a kern. The lists of insertions among the nodes are the builder's from then on, and the list
    /// is empty. Takes no memory.
    pub fn put_first(&mut self, store: &mut Lists<Node>, list: ListId)
        requires sound { IsSound self.old store.old }
        requires going { (contents_of self.old store.old).stopped ≡ false }
        requires no_kern { ends_in_kern (contents_of self.old store.old).page ≡ false }
        requires joins { ListJoins (ids_of self.old) store.old list }
        ensures sound { IsSound self.new store.new }
        ensures contents { contents_of self.new store.new ≡ record (contents_of self.old store.old) { waiting = plain_list store.old list ++ (contents_of self.old store.old).waiting } }
        ensures same { self.new ≡ self.old }
        ensures spare { store.new.spare ≡ store.old.spare }
        ensures emptied { get store.new.lists list ≡ Some [] }
        ensures others { (q : ℕ) → q ≢ list → Lacks q (owned (ids_of self.old) store.old) → get store.new.lists q ≡ get store.old.lists q }
        ensures keeps { (q : ℕ) → Lacks q (owned (ids_of self.old) store.old ++ inner_ids (list_at store.old list)) → Lacks q (owned (ids_of self.new) store.new) }
        ensures owns { (q : ℕ) → Lacks q (owned (ids_of self.new) store.new) → Lacks q (owned (ids_of self.old) store.old ++ inner_ids (list_at store.old list)) }
    {
        store.append(list, self.waiting);
        store.append(self.waiting, list);
    }

    /// The list of the waiting nodes.
    pub fn waiting(&self) -> ListId
        ensures { result ≡ self.now.waiting }
    {
        self.waiting
    }

    /// The list of the page so far.
    pub fn on_page(&self) -> ListId
        ensures { result ≡ self.now.page }
    {
        self.page
    }

    /// Whether the goal of the page is frozen: a box, a rule or an insertion is on it (TeX: The Program §987).
    pub fn is_frozen(&self) -> bool
        ensures { result ≡ is_some self.now.frozen }
    {
        self.frozen.is_some()
    }
}
