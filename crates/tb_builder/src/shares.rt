//! What becomes of the insertions before a break.

ghost use Rattle.std.specs.Prelude.{◌≡◌, ◌<◌, ◌≤◌, ◌+◌, ℕ, List, [], ◌∷◌, ◌++◌, map, length, take, drop, true, slice_get};
ghost use Rattle.tb_pool.specs.Lists.{IsLive, list_at};
ghost use Rattle.tb_node.specs.Fit.{shapes, NodesFit};
ghost use Rattle.tb_node.specs.SmallAmounts.{IsAmount};
ghost use Rattle.tb_node.specs.PlainNodes.{PlainNode, plain_of, inserted_of, on_line, plain_list};
ghost use Rattle.tb_node.specs.declared.Kind.TheVariants.{Ins as an_insertion};
ghost use Rattle.tb_node.specs.Roles.{insertion_of_kind};
ghost use Rattle.tb_break.specs.PageTop.{pruned_list};
ghost use Rattle.tb_insert.specs.Account.{Frozen, labelled};
ghost use Rattle.tb_insert.specs.AccountEntries.{IsAccountOf, cut_in, last_let_in};
ghost use Rattle.tb_builder.specs.Ownership.{Lacks, owned, has_class, ids_of, inner_of, is_known, classes_of, IsOwned};
ghost use Rattle.tb_builder.specs.FiredPages.{Boxed, unless_empty};
ghost use Rattle.tb_builder.specs.Contents.{leaf_list, contents_of};
ghost use Rattle.tb_builder.specs.PageEvents.{SizesFit};
ghost use Rattle.tb_builder.specs.Sizes.{RoomFits};
ghost use Rattle.tb_builder.specs.Firing.{share_up_to, share_told, opened, box_list, BeginsVanishing, IsShareWithin, GivesToBox, LeavesPage, SharesOut, SortsTo, Sorted, IsMarkedAt, EachFits, NoInsertions, begins_with_insertion, IsBody};

use crate::front_nodes::{drop_first, first_in, insertion_place};
use crate::fronts::{give_front, move_front, pass_on};
use crate::sizes::pruned_size;
use crate::{Builder, Course, Share};
use tb_node::{Insertion, Kind, Node, Role};
use tb_pool::{ListId, Lists};

// All, if the insertion comes no later than the last of its class that was let in.
fn share_up_to(last: Option<usize>, index: usize) -> Share
    ensures { result ≡ share_up_to last index }
{
    let Some(last) = last else {
        return Share::Nothing;
    };
    if index <= last {
        Share::All
    } else {
        Share::Nothing
    }
}

// What becomes of an insertion, by the cut of its class and the last of the class that was let in.
fn share_told(cut: Option<(usize, usize)>, last: Option<usize>, index: usize) -> Share
    ensures { result ≡ share_told cut last index }
{
    let Some((at, place)) = cut else {
        return share_up_to(last, index);
    };
    if at == index {
        return Share::Front(place);
    }
    share_up_to(last, index)
}

impl Course {
    // What becomes of the insertion of this class at this place of the page, if the page breaks at its best place.
    pub(crate) fn share_at(&self, class: u8, index: usize) -> Share
        requires { class < 256 }
        ensures { (z : Frozen) (page marked : List PlainNode) → IsAccountOf self.now.account z page marked
            → result ≡ share_told (cut_in (labelled z marked) class) (last_let_in (labelled z marked) class) index }
    {
        share_told(
            self.account.cut_at(class),
            self.account.last_in(class),
            index,
        )
    }
}

impl Builder {
    // Marks the box of a class as not void, and returns its list.
    fn open_box(&mut self, number: u8) -> ListId
        requires { has_class (map (λ e. e.class) self.old.boxes) number ≡ true }
        ensures boxes { self.new.boxes ≡ opened number self.old.boxes }
        ensures list { result ≡ box_list number self.old.boxes }
        ensures others { self.new ≡ record self.old { boxes = self.new.boxes } }
    {
        let Some(k) = self.place_of(number) else {
            unreachable!();
        };
        let found = self.boxes.entry(k);
        self.boxes.set_void(k, false);
        found.list
    }

    // All nodes of the insertion at the front of the page go to the box of its class.
    fn give_all(&mut self, store: &mut Lists<Node>, n: &Node, i: &Insertion)
        requires own { IsOwned (ids_of self.old) store.old }
        requires first { slice_get (list_at store.old self.old.page) 0 ≡ Some n.now }
        requires insertion { insertion_of_kind n.now.kind ≡ Some i.now }
        ensures gives { GivesToBox self.old store.old self.new store.new n.now i.now (list_at store.old i.now.list) [] }
        ensures spare { store.new.spare ≡ store.old.spare }
    {
        let own = self.open_box(i.class);
        store.append(own, i.list);
    }

    // The nodes before a place of the insertion at the front of the page go to the box of its class; the rest is
    // pruned.
    fn give_part(&mut self, store: &mut Lists<Node>, n: &Node, i: &Insertion, place: usize)
        requires own { IsOwned (ids_of self.old) store.old }
        requires first { slice_get (list_at store.old self.old.page) 0 ≡ Some n.now }
        requires insertion { insertion_of_kind n.now.kind ≡ Some i.now }
        requires within { place ≤ length (list_at store.old i.now.list) }
        requires vanishes { BeginsVanishing (drop place (shapes store.old i.now.list)) }
        requires room { 0 < store.old.spare }
        requires top { IsAmount i.now.split_top }
        requires nodes { NodesFit (shapes store.old i.now.list) }
        ensures gives { GivesToBox self.old store.old self.new store.new n.now i.now (take place (list_at store.old i.now.list)) (pruned_list i.now.split_top (drop place (list_at store.old i.now.list))) }
        ensures spare { store.old.spare ≤ store.new.spare }
    {
        let own = self.open_box(i.class);
        give_front(store, own, i.list, self.rest, place, i.split_top);
    }

    // The insertion at the front of the page goes, with its list, which is empty.
    fn drop_insertion(&self, store: &mut Lists<Node>, n: &Node, i: &Insertion)
        requires own { IsOwned (ids_of self.now) store.old }
        requires first { slice_get (list_at store.old self.now.page) 0 ≡ Some n.now }
        requires insertion { insertion_of_kind n.now.kind ≡ Some i.now }
        requires empty { list_at store.old i.now.list ≡ [] }
        ensures drops { LeavesPage self.now store.old self.now store.new n.now [] }
        ensures spare { store.old.spare ≤ store.new.spare }
    {
        drop_first(store, self.page);
        store.close(i.list);
    }

    // The insertion at the front of the page is held as this node, which has the same list.
    fn hold(&self, store: &mut Lists<Node>, n: &Node, i: &Insertion, held: Node)
        requires own { IsOwned (ids_of self.now) store.old }
        requires first { slice_get (list_at store.old self.now.page) 0 ≡ Some n.now }
        requires insertion { insertion_of_kind n.now.kind ≡ Some i.now }
        requires same { inner_of held.kind ≡ inner_of n.now.kind }
        requires known { is_known (classes_of (ids_of self.now)) held.kind ≡ true }
        ensures drops { LeavesPage self.now store.old self.now store.new n.now (plain_of (list_at store.old) held ∷ []) }
        ensures spare { store.new.spare ≡ store.old.spare }
    {
        pass_on(store, self.page, self.held, held);
    }

    // The insertion at the front of the page is held as it is.
    fn hold_whole(&self, store: &mut Lists<Node>, n: &Node, i: &Insertion)
        requires own { IsOwned (ids_of self.now) store.old }
        requires first { slice_get (list_at store.old self.now.page) 0 ≡ Some n.now }
        requires insertion { insertion_of_kind n.now.kind ≡ Some i.now }
        ensures drops { LeavesPage self.now store.old self.now store.new n.now (plain_of (list_at store.old) n.now ∷ []) }
        ensures spare { store.new.spare ≡ store.old.spare }
    {
        store.move_first(self.page, self.held);
    }

    // What is left of the insertion at the front of the page is held, unless it is empty.
    fn keep_rest(&self, store: &mut Lists<Node>, n: &Node, i: &Insertion)
        requires own { IsOwned (ids_of self.now) store.old }
        requires first { slice_get (list_at store.old self.now.page) 0 ≡ Some n.now }
        requires insertion { insertion_of_kind n.now.kind ≡ Some i.now }
        requires fits { RoomFits (shapes store.old i.now.list) }
        ensures drops { LeavesPage self.now store.old self.now store.new n.now (on_line n.now.line (unless_empty (inserted_of (list_at store.old) i.now) (leaf_list store.old i.now.list))) }
        ensures spare { store.old.spare ≤ store.new.spare }
    {
        if store.len(i.list) == 0 {
            self.drop_insertion(store, n, i);
            return;
        }
        let rest = with_height(n, i, pruned_size(store, i.list));
        self.hold(store, n, i, rest);
    }

    // The insertion at the front of the page goes where its share says.
    fn settle(&mut self, store: &mut Lists<Node>, n: &Node, i: &Insertion, share: Share)
        requires own { IsOwned (ids_of self.old) store.old }
        requires first { slice_get (list_at store.old self.old.page) 0 ≡ Some n.now }
        requires insertion { insertion_of_kind n.now.kind ≡ Some i.now }
        requires within { IsShareWithin share (shapes store.old i.now.list) }
        requires room { 0 < store.old.spare }
        requires top { IsAmount i.now.split_top }
        requires nodes { NodesFit (shapes store.old i.now.list) }
        requires sizes { SizesFit (shapes store.old i.now.list) }
        ensures settles { SharesOut self.old store.old self.new store.new n.now i.now share }
        ensures spare { store.old.spare ≤ store.new.spare }
    {
        match share {
            Share::All => {
                self.give_all(store, n, i);
                self.drop_insertion(store, n, i);
            }
            Share::Front(place) => {
                self.give_part(store, n, i, place);
                self.keep_rest(store, n, i);
            }
            Share::Nothing => self.hold_whole(store, n, i),
        }
    }

    // The nodes before a place of the page, none of them an insertion, go to the body.
    fn sort_run(&self, store: &mut Lists<Node>, body: ListId, place: usize)
        requires own { IsOwned (ids_of self.now) store.old }
        requires body { IsBody self.now store.old body }
        requires within { place ≤ length (list_at store.old self.now.page) }
        requires plain { NoInsertions (take place (list_at store.old self.now.page)) }
        ensures sorts { SortsTo self.now store.old self.now store.new body }
        ensures sorted { (z : Frozen) (marked before : List PlainNode) (boxes : List Boxed)
            → Sorted z boxes marked (contents_of self.now store.old) (plain_list store.old body) before
            → Sorted z boxes marked (contents_of self.now store.new) (plain_list store.new body) (before ++ take place (contents_of self.now store.old).page) }
        ensures page { list_at store.new self.now.page ≡ drop place (list_at store.old self.now.page) }
        ensures spare { store.new.spare ≡ store.old.spare }
    {
        if place == 0 {
            return;
        }
        move_front(store, body, self.page, self.rest, place);
    }

    // The insertion at the front of the page, which has this place on the page that fires, goes where its share says.
    fn sort_first(&mut self, store: &mut Lists<Node>, index: usize)
        requires own { IsOwned (ids_of self.old) store.old }
        requires first { begins_with_insertion (list_at store.old self.old.page) ≡ true }
        requires room { 0 < store.old.spare }
        requires fits { EachFits (contents_of self.old store.old).page }
        requires marked { IsMarkedAt self.old.course.account index (contents_of self.old store.old).page }
        ensures sorts { (body : ℕ) → IsBody self.old store.old body → SortsTo self.old store.old self.new store.new body }
        ensures sorted { (body : ℕ) → IsBody self.old store.old body
            → (z : Frozen) (page marked before : List PlainNode) (boxes : List Boxed) → IsAccountOf self.old.course.account z page marked → index ≡ length before
            → Sorted z boxes marked (contents_of self.old store.old) (plain_list store.old body) before
            → Sorted z boxes marked (contents_of self.new store.new) (plain_list store.new body) (before ++ take 1 (contents_of self.old store.old).page) }
        ensures left { length (list_at store.new self.old.page) + 1 ≡ length (list_at store.old self.old.page) }
        ensures spare { store.old.spare ≤ store.new.spare }
    {
        let Some(n) = first_in(store, self.page) else {
            unreachable!();
        };
        let Role::Insertion(i) = n.role() else {
            unreachable!();
        };
        let n = *n;
        let share = self.course.share_at(i.class, index);
        self.settle(store, &n, &i, share);
    }

    // The nodes of the page up to its break go to the body, and its insertions where their shares say.
    pub(crate) fn sort_page(&mut self, store: &mut Lists<Node>, body: ListId)
        requires own { IsOwned (ids_of self.old) store.old }
        requires body_live { IsLive store.old body }
        requires body_apart { Lacks body (owned (ids_of self.old) store.old) }
        requires body_empty { list_at store.old body ≡ [] }
        requires none_held { list_at store.old self.old.held ≡ [] }
        requires room { 0 < store.old.spare }
        requires fits { EachFits (contents_of self.old store.old).page }
        requires marked { IsMarkedAt self.old.course.account 0 (contents_of self.old store.old).page }
        ensures sorts { SortsTo self.old store.old self.new store.new body }
        ensures sorted { (z : Frozen) (page : List PlainNode) → IsAccountOf self.old.course.account z page (contents_of self.old store.old).page
            → Sorted z (contents_of self.old store.old).boxes (contents_of self.old store.old).page (contents_of self.new store.new) (plain_list store.new body) (contents_of self.old store.old).page }
        ensures empty { list_at store.new self.old.page ≡ [] }
    {
        let Some(last) = self.course.account.last_insertion() else {
            store.append(body, self.page);
            return;
        };
        // What is sorted is no more than the page has, and so can be counted.
        let _count = store.len(self.page);
        let mut sorted = 0;
        'insertions: while sorted <= last {
            let ahead = insertion_place(store, self.page);
            self.sort_run(store, body, ahead);
            sorted += ahead;
            self.sort_first(store, sorted);
            sorted += 1;
        }
        store.append(body, self.page);
    }
}

// The insertion with another height.
fn with_height(n: &Node, i: &Insertion, height: i64) -> Node
    ensures { result ≡ record { line = n.now.line; kind = an_insertion (record i.now { height = height }) } }
{
    Node {
        line: n.line,
        kind: Kind::Ins(Insertion { height, ..*i }),
    }
}
