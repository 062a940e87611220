//! Makes a text column of its text, its insertions and its floats.
ghost use Rattle.std.specs.Prelude.{◌≡◌, ◌+◌, ◌*◌, ◌<◌, ◌≤◌, ◌++◌, map, ◌∷◌, length, true, false, All, OnOk, OnErr, IfOk};
ghost use Rattle.tb_pool.specs.Lists.{IsLive, list_at, with_list};
ghost use Rattle.tb_pool.specs.Frame.{OnlyChanged};
ghost use Rattle.tb_node.specs.SmallAmounts.{IsAmount, IsSmall};
ghost use Rattle.tb_node.specs.PlainNodes.{shape_of, plain_list};
ghost use Rattle.tb_node.specs.Sums.{sums_of};
ghost use Rattle.tb_node.specs.Fit.{IsSizedNode};
ghost use Rattle.tb_float.specs.Pool.{without_entries};
ghost use Rattle.tb_column.specs.Column.{is_ragged, is_below, text_column};
ghost use Rattle.tb_column.specs.StoredColumns.{column_shown};
ghost use Rattle.tb_column.specs.Page.{IsPageList, IsPageColumn};
ghost use Rattle.tb_column.specs.Ranges.{AreColumnParams, IsEnlarged};
ghost use Rattle.tb_column.specs.Notes.{notes_shown, note_lists, note_count, boxes_among, AreApart, AreNotes};
ghost use Rattle.tb_column.specs.FloatColumns.{glue_list};
ghost use Rattle.tb_column.specs.ColumnChanges.{AreJoined, without_text_floats};
ghost use Rattle.tb_column.specs.TextColumns.{above_count, closing_by, front_list, footed_list, below_list, text_list, closed_list, ended_list};

use crate::areas::{clear_here, put_above, put_below, put_top_glue};
use crate::foot_depths::foot_kern;
use crate::higher_columns::set_column;
use crate::nodes::{is_no_glue, made_node, push_made};
use crate::notes::{above_count, join_notes};
use crate::{Column, ColumnKind, Enlarged, NoteBox};
use std::alloc::AllocError;
use tb_float::{Part, Pool};
use tb_node::{Kind, Node, Sums, add, add_glue, list_sums};
use tb_param::{Choice, Params};
use tb_pool::{ListId, Lists};
use tb_scaled::{Glue, Order};

// The stretch of the glue at a ragged bottom is as small as LaTeX's (`\raggedbottom`: 0.0001fil).
const RAGGED_STRETCH: i64 = 7;

/// Whether this choice for the bottom of a column is a ragged one.
pub fn is_ragged(bottom: Choice) -> bool
    ensures { result ≡ is_ragged bottom }
{
    match bottom {
        Choice::Ragged => true,
        Choice::Flush => false,
        Choice::On => false,
        Choice::Off => false,
        Choice::R2014 => false,
        Choice::R2015 => false,
        Choice::Keep => false,
        Choice::Drop => false,
        Choice::Above => false,
        Choice::Below => false,
    }
}

// The glue that backs up over the depth of a column, and stretches at a ragged bottom.
fn closing_glue(bottom: Choice, depth: i64) -> Glue
    requires { IsAmount depth }
    ensures { result ≡ closing_by bottom depth }
{
    let ragged = is_ragged(bottom);
    Glue {
        width: -depth,
        stretch: if ragged { RAGGED_STRETCH } else { 0 },
        order: if ragged { Order::Fil } else { Order::Normal },
        shrink: 0,
    }
}

// Whether this choice puts footnotes below the floats at the bottom.
fn is_below(place: Choice) -> bool
    ensures { result ≡ is_below place }
{
    matches!(place, Choice::Below)
}

// Puts the glue and the floats at the top of a column before its text, and the insertions above footnotes behind it.
// If there is no memory for a helper list, the pool and all lists stay as they were.
fn put_front(
    store: &mut Lists<Node>,
    pool: &mut Pool,
    p: &Params,
    body: ListId,
    notes: &[NoteBox],
) -> Result<(), AllocError>
    requires params { AreColumnParams p.now }
    requires live { IsLive store.old body }
    requires notes { AreNotes store.old body notes.now }
    requires room { 2 * length pool.old.lists.top + above_count (boxes_among false notes.now) + 6 ≤ store.old.spare }
    ensures text { OnOk result (list_at store.new body ≡ front_list p.now pool.old.lists store.old body notes.now) }
    ensures live { OnOk result (IsLive store.new body) }
    ensures lists { OnOk result (AreJoined body (boxes_among false notes.now) store.old store.new) }
    ensures spare { OnOk result (store.old.spare ≤ store.new.spare + (2 * length pool.old.lists.top + above_count (boxes_among false notes.now) + 6)) }
    ensures pool { OnOk result (pool.new ≡ without_entries Part.Top pool.old) }
    ensures err_lists { OnErr result (store.new.lists ≡ store.old.lists) }
    ensures err_pool { OnErr result (pool.new ≡ pool.old) }
{
    put_above(store, pool, p, body)?;
    put_top_glue(store, body, p.texttop);
    join_notes(store, p, body, notes, false, None);
    Ok(())
}

// Puts footnotes, and the insertions below them, behind a column with this many floats at its bottom.
#[inline(always)]
fn put_feet(store: &mut Lists<Node>, p: &Params, body: ListId, notes: &[NoteBox], bottoms: usize)
    requires params { AreColumnParams p.now }
    requires live { IsLive store.old body }
    requires sized { All IsSizedNode (list_at store.old body) }
    requires notes { AreApart store.old body (boxes_among true notes.now) }
    requires room { above_count (boxes_among true notes.now) ≤ store.old.spare }
    ensures text { list_at store.new body ≡ footed_list p.now bottoms store.old notes.now (list_at store.old body) }
    ensures live { IsLive store.new body }
    ensures lists { AreJoined body (boxes_among true notes.now) store.old store.new }
    ensures spare { store.old.spare ≤ store.new.spare + above_count (boxes_among true notes.now) }
{
    let kern = foot_kern(store, p, body, bottoms);
    join_notes(store, p, body, notes, true, kern);
}

// Puts footnotes and the floats at the bottom behind a column, in the order that is asked for.
fn put_rest(store: &mut Lists<Node>, pool: &mut Pool, p: &Params, body: ListId, notes: &[NoteBox])
    requires params { AreColumnParams p.now }
    requires live { IsLive store.old body }
    requires sized { All IsSizedNode (list_at store.old body) }
    requires notes { AreApart store.old body (boxes_among true notes.now) }
    requires room { 2 * length pool.old.lists.bottom + above_count (boxes_among true notes.now) + 5 ≤ store.old.spare }
    ensures text { list_at store.new body ≡ below_list p.now pool.old.lists store.old notes.now (list_at store.old body) }
    ensures live { IsLive store.new body }
    ensures lists { AreJoined body (boxes_among true notes.now) store.old store.new }
    ensures spare { store.old.spare ≤ store.new.spare + (2 * length pool.old.lists.bottom + above_count (boxes_among true notes.now) + 5) }
    ensures pool { pool.new ≡ without_entries Part.Bottom pool.old }
{
    let bottoms = pool.len(Part::Bottom);
    if is_below(p.footplace) {
        put_below(store, pool, p, body);
        put_feet(store, p, body, notes, bottoms);
    } else {
        put_feet(store, p, body, notes, bottoms);
        put_below(store, pool, p, body);
    }
}

// Puts the glue, the floats and the insertions of a page about its text. If there is no memory for their nodes and for two
// more, the pool and all lists stay as they were.
fn gather(
    store: &mut Lists<Node>,
    pool: &mut Pool,
    p: &Params,
    body: ListId,
    notes: &[NoteBox],
) -> Result<(), AllocError>
    requires params { AreColumnParams p.now }
    requires body { IsPageList store.old body }
    requires notes { AreNotes store.old body notes.now }
    requires few { length (list_at store.old body) + note_count store.old notes.now ≤ 8355840 }
    ensures text { OnOk result (list_at store.new body ≡ text_list p.now pool.old.lists store.old body notes.now) }
    ensures page { OnOk result (IsPageList store.new body) }
    ensures few { OnOk result (length (list_at store.new body) < 8388607) }
    ensures lists { OnOk result (AreJoined body notes.now store.old store.new) }
    ensures room { OnOk result (2 ≤ store.new.spare) }
    ensures pool { OnOk result (pool.new ≡ without_text_floats pool.old) }
    ensures err_lists { OnErr result (store.new.lists ≡ store.old.lists) }
    ensures err_pool { OnErr result (pool.new ≡ pool.old) }
{
    let tops = pool.len(Part::Top);
    let bottoms = pool.len(Part::Bottom);
    store.reserve(2 * (tops + bottoms) + above_count(notes) + 13)?;
    put_front(store, pool, p, body, notes)?;
    put_rest(store, pool, p, body, notes);
    clear_here(pool);
    Ok(())
}

// Ends a text with the glue that backs up over its depth, and returns the sums of the whole.
fn close_text(store: &mut Lists<Node>, p: &Params, body: ListId) -> Sums
    requires params { AreColumnParams p.now }
    requires page { IsPageList store.old body }
    requires few { length (list_at store.old body) < 8388608 }
    requires room { 0 < store.old.spare }
    ensures lists { store.new.lists ≡ with_list store.old body (closed_list p.now (list_at store.old body)) }
    ensures page { IsPageList store.new body }
    ensures spare { store.new.spare + 1 ≡ store.old.spare }
    ensures sums { result ≡ sums_of p.now.maxdepth (map shape_of (closed_list p.now (list_at store.old body))) }
    ensures small { IsSmall result }
{
    let mut sums = list_sums(store, body, p.maxdepth);
    let glue = made_node(Kind::Skip(closing_glue(p.bottom, sums.depth)));
    add(&mut sums, &glue, p.maxdepth);
    store.push_back(body, glue);
    sums
}

// Puts the glue at the bottom of a column behind all else, and adds it to the sums of the whole.
fn put_bottom_glue(store: &mut Lists<Node>, p: &Params, body: ListId, sums: &mut Sums)
    requires params { AreColumnParams p.now }
    requires page { IsPageList store.old body }
    requires few { length (list_at store.old body) < 8388608 }
    requires room { 0 < store.old.spare }
    requires sums { sums.old ≡ sums_of p.now.maxdepth (map shape_of (list_at store.old body)) }
    requires small { IsSmall sums.old }
    ensures lists { store.new.lists ≡ with_list store.old body (list_at store.old body ++ glue_list p.now.textbottom) }
    ensures page { IsPageList store.new body }
    ensures sums { sums.new ≡ sums_of p.now.maxdepth (map shape_of (list_at store.old body ++ glue_list p.now.textbottom)) }
    ensures small { IsSmall sums.new }
{
    if is_no_glue(p.textbottom) {
        return;
    }
    push_made(store, body, Kind::Skip(p.textbottom));
    add_glue(sums, p.textbottom, p.maxdepth);
}

// Ends a text column, and returns the sums of the whole.
fn end_text(store: &mut Lists<Node>, p: &Params, body: ListId) -> Sums
    requires params { AreColumnParams p.now }
    requires page { IsPageList store.old body }
    requires few { length (list_at store.old body) < 8388607 }
    requires room { 2 ≤ store.old.spare }
    ensures lists { store.new.lists ≡ with_list store.old body (ended_list p.now (list_at store.old body)) }
    ensures page { IsPageList store.new body }
    ensures sums { result ≡ sums_of p.now.maxdepth (map shape_of (ended_list p.now (list_at store.old body))) }
    ensures small { IsSmall result }
{
    let mut sums = close_text(store, p, body);
    put_bottom_glue(store, p, body, &mut sums);
    sums
}

/// Makes the text column of a page: the glue and the floats at its top, the text, the insertions of each class, the floats
/// at its bottom, then the glue that backs up over the depth and the glue at its bottom. Footnotes, with the classes that
/// stand below them, are above or below the floats at the bottom. It is packed to the height, in scaled points, that the
/// wide floats leave of a page, or as `enlarged` says (ltoutput.dtx, `\@makecol`, `\@combinefloats` and
/// `\@makespecialcolbox`).
///
/// The list of the text becomes the column's, and those of the insertions are emptied into it; no node is copied. The
/// floats in the text, at its top and at its bottom leave the pool. If there is no memory for the new nodes, the pool and
/// all lists stay as they were.
pub fn make_column(
    store: &mut Lists<Node>,
    pool: &mut Pool,
    p: &Params,
    body: ListId,
    notes: &[NoteBox],
    enlarged: &Enlarged,
) -> Result<Column, AllocError>
    requires params { AreColumnParams p.now }
    requires body { IsPageList store.old body }
    requires notes { AreNotes store.old body notes.now }
    requires few { length (list_at store.old body) + note_count store.old notes.now ≤ 8355840 }
    requires enlarged { IsEnlarged enlarged.now }

    ensures column { IfOk result (λ c. column_shown store.new c ≡ text_column p.now pool.old.lists (plain_list store.old body) (notes_shown store.old notes.now) enlarged.now) }
    ensures list { IfOk result (λ c. c.list ≡ body) }
    ensures page { IfOk result (λ c. IsPageColumn store.new c) }

    ensures lists { OnOk result (AreJoined body notes.now store.old store.new) }
    ensures frame { OnOk result (OnlyChanged (body ∷ note_lists notes.now) (body ∷ note_lists notes.now) store.old store.new) }
    ensures pool { OnOk result (pool.new ≡ without_text_floats pool.old) }
    ensures err_lists { OnErr result (store.new.lists ≡ store.old.lists) }
    ensures err_pool { OnErr result (pool.new ≡ pool.old) }
{
    let height = pool.column_height(p);
    gather(store, pool, p, body, notes)?;
    let sums = end_text(store, p, body);
    Ok(Column {
        kind: ColumnKind::Text,
        list: body,
        set: set_column(&sums, p, height, enlarged),
    })
}
