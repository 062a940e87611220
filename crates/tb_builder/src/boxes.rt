//! The class boxes.

ghost use Rattle.std.specs.Prelude.{◌≡◌, ◌==◌, ◌≢◌, true, Some, map, position, is_none, ℕ};
ghost use Rattle.std.specs.FinMap.{get};
ghost use Rattle.tb_pool.specs.Lists.{IsLive, Lists as StoreOf};
ghost use Rattle.tb_node.specs.declared.Node.{Node as NodeOf};
ghost use Rattle.std.specs.List.{list_any};
ghost use Rattle.tb_node.specs.Shape.{is_box};
ghost use Rattle.tb_node.specs.PlainNodes.{leaf_shape};
ghost use Rattle.tb_builder.specs.FiredPages.{box_content, class_for, content_of, box_size as size_of_box};
ghost use Rattle.tb_builder.specs.declared.Ask.{Ask as AskOf};
ghost use Rattle.tb_builder.specs.Contents.{contents_of};
ghost use Rattle.tb_builder.specs.Ownership.{has_class, classes_of, ids_of, owned, Lacks, IsClassList};
ghost use Rattle.tb_builder.specs.Courses.{IsSound};
ghost use Rattle.tb_builder.specs.PageEvents.{SizesFit};
ghost use Rattle.tb_builder.specs.Contributions.{NoPage, with_void, Taken};

use crate::sizes::{has_box, list_size};
use crate::{Builder, ClassList};
use tb_insert::Class;
use tb_node::{FOOTNOTES, Node};
use tb_pool::{ListId, Lists};

impl Builder {
    // The index of a class among the classes.
    pub(crate) fn place_of(&self, number: u8) -> Option<usize>
        ensures { result ≡ position (λ e. e.class.number == number) self.now.boxes }
    {
        self.boxes.find(number)
    }

    // The class of this number, with the list of its box.
    pub(crate) fn class_list(&self, number: u8) -> ClassList
        requires { has_class (map (λ e. e.class) self.now.boxes) number ≡ true }
        ensures { IsClassList self.now.boxes number result }
    {
        let Some(k) = self.place_of(number) else {
            unreachable!();
        };
        self.boxes.entry(k)
    }

    // The class as the page has it that is made: footnotes have the limit and the skip that are frozen.
    pub(crate) fn class_made(&self, class: &Class) -> Class
        ensures { (made : AskOf) → self.now.frozen ≡ Some made → result ≡ class_for made class.now }
    {
        let Some(made) = &self.frozen else {
            return *class;
        };
        if class.number != FOOTNOTES {
            return *class;
        }
        Class {
            limit: made.foot_limit,
            skip: made.foot_skip,
            ..*class
        }
    }

    /// Whether the box of this class, one of the builder's, was given nothing since the start or since its last
    /// `take_box`. A box that was given an empty list is not void.
    pub fn is_void(&self, class: u8) -> bool
        requires { has_class (classes_of (ids_of self.now)) class ≡ true }
        ensures { (s : StoreOf NodeOf) → result ≡ is_none (box_content (contents_of self.now s).boxes class) }
    {
        self.class_list(class).void
    }

    /// The height plus depth in sp of the box of this class, one of the builder's; 0 if it is void.
    pub fn box_size(&self, store: &Lists<Node>, class: u8) -> i64
        requires sound { IsSound self.now store.now }
        requires known { has_class (contents_of self.now store.now).classes class ≡ true }
        requires fits { SizesFit (map leaf_shape (content_of (box_content (contents_of self.now store.now).boxes class))) }
        ensures { result ≡ size_of_box (box_content (contents_of self.now store.now).boxes class) }
    {
        list_size(store, self.class_list(class).list)
    }

    /// Whether a box or a rule is among the nodes of the box of this class, one of the builder's.
    pub fn holds_box(&self, store: &Lists<Node>, class: u8) -> bool
        requires sound { IsSound self.now store.now }
        requires known { has_class (contents_of self.now store.now).classes class ≡ true }
        ensures { result ≡ list_any (λ n. is_box (leaf_shape n)) (content_of (box_content (contents_of self.now store.now).boxes class)) }
    {
        has_box(store, self.class_list(class).list)
    }

    /// Appends the nodes of the box of this class, one of the builder's, to the list `into`, while the page is empty;
    /// the box is void then. Takes no memory.
    pub fn take_box(&mut self, store: &mut Lists<Node>, class: u8, into: ListId)
        requires sound { IsSound self.old store.old }
        requires empty { NoPage (contents_of self.old store.old) }
        requires known { has_class (contents_of self.old store.old).classes class ≡ true }
        requires live { IsLive store.old into }
        requires apart { Lacks into (owned (ids_of self.old) store.old) }
        ensures sound { IsSound self.new store.new }
        ensures contents { contents_of self.new store.new ≡ record (contents_of self.old store.old) { boxes = with_void class (contents_of self.old store.old).boxes } }
        ensures spare { store.new.spare ≡ store.old.spare }
        ensures taken { Taken store.old store.new into (box_content (contents_of self.old store.old).boxes class) }
        ensures others { (q : ℕ) → q ≢ into → Lacks q (owned (ids_of self.old) store.old) → get store.new.lists q ≡ get store.old.lists q }
        ensures keeps { (q : ℕ) → Lacks q (owned (ids_of self.old) store.old) → Lacks q (owned (ids_of self.new) store.new) }
    {
        let Some(k) = self.place_of(class) else {
            unreachable!();
        };
        let found = self.boxes.entry(k);
        self.boxes.set_void(k, true);
        store.append(into, found.list);
    }
}
