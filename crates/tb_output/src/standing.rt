//! The insertions of a page that stand on it, and those that make it higher.

ghost use Rattle.std.specs.Prelude.{◌≡◌, ℕ, neg_ℤ, map};
ghost use Rattle.std.specs.List.{AllByRecursion};
ghost use Rattle.std.specs.FinMap.{get};
ghost use Rattle.tb_pool.specs.Lists.{IsLive, list_at};
ghost use Rattle.tb_pool.specs.Frame.{IsNoneOf};
ghost use Rattle.tb_scaled.specs.Amount.{IsAmount};
ghost use Rattle.tb_node.specs.PlainNodes.{leaf_of};
ghost use Rattle.tb_float.specs.Ranges.{IsWithin};
ghost use Rattle.tb_column.specs.Column.{enlarged_by, enlarged_of};
ghost use Rattle.tb_column.specs.Notes.{notes_shown, note_lists, IsNote, AreDistinct, AreRisingFrom};
ghost use Rattle.tb_column.specs.Page.{IsPageList};
ghost use Rattle.tb_column.specs.Ranges.{IsEnlarged};
ghost use Rattle.tb_output.specs.Notes.{standing_boxes};

use crate::back_list::drop_list;
use crate::texts::list_height;
use tb_builder::has_box;
use tb_column::{ENLARGING, Enlarged, NoteBox};
use tb_node::Node;
use tb_pool::{ListId, Lists};

/// The insertions that stand on a page: all but those of class 255, which can only come last.
pub(crate) fn standing_notes(notes: &[NoteBox]) -> &[NoteBox]
    requires { AreRisingFrom 0 notes.now }
    ensures { result.now ≡ standing_boxes notes.now }
{
    let count = notes.len();
    if count == 0 {
        return notes;
    }
    if notes[count - 1].class == ENLARGING {
        &notes[..count - 1]
    } else {
        notes
    }
}

// The height by which a list of this size makes a page higher.
fn negated(size: i64) -> i64
    requires { IsWithin 18014398509481984 size }
    ensures value { result ≡ neg_ℤ size }
    ensures within { IsWithin 18014398509481984 result }
{
    -size
}

// How a column is packed if class 255 holds this list: with a box among it the contents are shrunk, by the shrink of the
// page; else the column is higher by what the list takes back (LaTeX, \@makespecialcolbox).
fn enlarged_by(store: &Lists<Node>, l: ListId, shrink: i64) -> Enlarged
    requires list { IsPageList store.now l }
    requires shrink { IsAmount shrink }
    ensures value { result ≡ enlarged_by shrink (map leaf_of (list_at store.now l)) }
    ensures fits { IsEnlarged result }
{
    if has_box(store, l) {
        return Enlarged::Shrunk(shrink);
    }
    Enlarged::By(negated(list_height(store, l)))
}

/// How a column is packed by the insertions of its page, which has this shrink.
pub(crate) fn enlarged_of(store: &Lists<Node>, notes: &[NoteBox], shrink: i64) -> Enlarged
    requires notes { AllByRecursion (IsNote store.now) notes.now }
    requires shrink { IsAmount shrink }
    ensures value { result ≡ enlarged_of shrink (notes_shown store.now notes.now) }
    ensures fits { IsEnlarged result }
{
    for note in notes {
        if note.class == ENLARGING {
            return enlarged_by(store, note.list, shrink);
        }
    }
    Enlarged::No
}

/// Closes the lists of insertions, and drops what they hold.
pub(crate) fn drop_notes(store: &mut Lists<Node>, notes: &[NoteBox])
    requires live { AllByRecursion (λ n. IsLive store.old n.list) notes.now }
    requires apart { AreDistinct (note_lists notes.now) }
    ensures { (q : ℕ) → IsNoneOf q (note_lists notes.now) → get store.new.lists q ≡ get store.old.lists q }
{
    for note in notes {
        drop_list(store, note.list);
    }
}
