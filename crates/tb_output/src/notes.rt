//! The insertions of a page are taken out of the boxes of their classes.

ghost use Rattle.std.specs.Prelude.{◌≡◌, ◌≤◌, true, [], ◌∷◌, ◌++◌, IfOk, OnOk, option_to_list};
ghost use Rattle.tb_pool.specs.Frame.{OnlyChanged};
ghost use Rattle.tb_builder.specs.Contents.{contents_of, box_count};
ghost use Rattle.tb_builder.specs.Courses.{IsSound};
ghost use Rattle.tb_builder.specs.Contributions.{NoPage};
ghost use Rattle.tb_builder.specs.Ownership.{has_class};
ghost use Rattle.tb_output.specs.Machine.{AreClassesFrom};
ghost use Rattle.tb_builder.specs.BuilderLists.{builder_lists};
ghost use Rattle.tb_output.specs.Firing.{AreSizedBoxes};
ghost use Rattle.tb_output.specs.Notes.{boxes_held, BoxesTaken, NotesTaken};

use crate::classes::Classes;
use std::alloc::{AllocError, Global};
use std::slice;
use tb_builder::Builder;
use tb_column::NoteBox;
use tb_insert::Class;
use tb_node::Node;
use tb_pool::Lists;

/// The boxes of the insertions of a page, by rising class. Few pages have insertions of more than one class, and only
/// those take memory.
#[derive(Drop)]
pub(crate) enum TakenNotes {
    Empty,
    One(NoteBox),
    Many(Vec<NoteBox>),
}

impl TakenNotes {
    /// The boxes.
    #[inline]
    pub(crate) fn as_slice(&self) -> &[NoteBox]
        ensures { result.now ≡ boxes_held self.now }
    {
        match self {
            TakenNotes::Empty => &[],
            TakenNotes::One(note) => slice::from_ref(note),
            TakenNotes::Many(notes) => notes,
        }
    }

    // Puts a box behind the others.
    #[inline]
    fn push(&mut self, alloc: Global, note: NoteBox) -> Result<(), AllocError>
        ensures { OnOk result (boxes_held self.new ≡ boxes_held self.old ++ note ∷ []) }
    {
        match self {
            TakenNotes::Empty => *self = TakenNotes::One(note),
            TakenNotes::One(first) => *self = TakenNotes::Many(pair(alloc, *first, note)?),
            TakenNotes::Many(notes) => notes.push(note)?,
        }
        Ok(())
    }
}

// A vector of two boxes.
fn pair(alloc: Global, first: NoteBox, second: NoteBox) -> Result<Vec<NoteBox>, AllocError>
    ensures { IfOk result (λ notes. notes.items ≡ first ∷ second ∷ []) }
{
    let mut notes = Vec::new(alloc);
    notes.push(first)?;
    notes.push(second)?;
    Ok(notes)
}

/// Takes the insertions of the page that fired into lists that are opened for them, by rising class, and puts their boxes
/// into `notes`, which holds none before. A class with a void box has no list; one whose box was given an empty list has
/// an empty one.
///
/// If there is no memory, some boxes may be void already.
pub(crate) fn take_notes(
    alloc: Global,
    store: &mut Lists<Node>,
    b: &mut Builder,
    classes: &Classes,
    notes: &mut TakenNotes,
) -> Result<(), AllocError>
    requires sound { IsSound b.old store.old }
    requires awaits { NoPage (contents_of b.old store.old) }
    requires classes { AreClassesFrom 0 classes.now }
    requires known { (contents_of b.old store.old).classes ≡ classes.now }
    requires sized { AreSizedBoxes (contents_of b.old store.old).boxes }
    requires few { box_count (contents_of b.old store.old).boxes ≤ 8388608 }
    requires none { boxes_held notes.old ≡ [] }
    ensures taken { OnOk result (NotesTaken classes.now (boxes_held notes.new) b.old b.new store.old store.new) }
    ensures sound { IsSound b.new store.new }
    ensures frame { OnlyChanged (builder_lists b.old store.old) (builder_lists b.new store.new) store.old store.new }
{
    for class in &classes.items {
        if let Some(note) = take_class(store, b, class)? {
            notes.push(alloc, note)?;
        }
    }
    Ok(())
}

// Takes the box of one class into a list that is opened for it. None if the box is void.
fn take_class(
    store: &mut Lists<Node>,
    b: &mut Builder,
    class: &Class,
) -> Result<Option<NoteBox>, AllocError>
    requires sound { IsSound b.old store.old }
    requires awaits { NoPage (contents_of b.old store.old) }
    requires known { has_class (contents_of b.old store.old).classes class.now.number ≡ true }
    ensures taken { IfOk result (λ note. BoxesTaken (class.now ∷ []) (option_to_list note) b.old b.new store.old store.new) }
    ensures sound { IsSound b.new store.new }
    ensures frame { OnlyChanged (builder_lists b.old store.old) (builder_lists b.new store.new) store.old store.new }
{
    if b.is_void(class.number) {
        return Ok(None);
    }
    let list = store.add_list()?;
    b.take_box(store, class.number, list);
    Ok(Some(NoteBox {
        class: class.number,
        below: class.below,
        skip: class.skip,
        list,
    }))
}
