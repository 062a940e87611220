//! Insertions of several classes under a text.
ghost use Rattle.std.specs.Prelude.{◌≡◌, ◌≢◌, ◌+◌, ◌≤◌, ◌++◌, true, []};
ghost use Rattle.std.specs.FinMap.{insert};
ghost use Rattle.tb_pool.specs.Lists.{IsLive, list_at, with_list};
ghost use Rattle.tb_column.specs.Column.{standing_of, is_at};
ghost use Rattle.tb_column.specs.Notes.{AreRisingFrom, AreApart, boxes_at, boxes_among};
ghost use Rattle.tb_column.specs.ColumnChanges.{AreJoined};
ghost use Rattle.tb_column.specs.TextColumns.{rule_above, kern_list, feet_list, under_list, class_above, above_length, above_count, notes_list};

use crate::nodes::{push_glue, push_made, push_rule};
use crate::{NoteBox, Standing};
use tb_node::{FOOTNOTES, Kind, Node, RuleOf};
use tb_param::{Params, Rule};
use tb_pool::{ListId, Lists};
use tb_scaled::Glue;

// The rule above plain TeX's footnotes is between two kerns, and takes no room with them (3, 0.4 and 2.6 points).
const KERN_ABOVE: i64 = -196_608;

const RULE_HEIGHT: i64 = 26_214;

const KERN_BELOW: i64 = 170_394;

/// Puts what is above plain TeX's footnotes at the end of a list, in four spare places: this glue, and the rule between two
/// kerns.
pub fn push_plain_rule(store: &mut Lists<Node>, l: ListId, skip: Glue)
    requires live { IsLive store.old l }
    requires room { 4 ≤ store.old.spare }
    ensures lists { store.new.lists ≡ with_list store.old l (list_at store.old l ++ rule_above skip) }
    ensures live { IsLive store.new l }
    ensures spare { store.new.spare + 4 ≡ store.old.spare }
{
    push_made(store, l, Kind::Skip(skip));
    push_made(store, l, Kind::Kern(KERN_ABOVE));
    push_made(
        store,
        l,
        Kind::Rule {
            of: RuleOf::Footnotes,
            height: RULE_HEIGHT,
            depth: 0,
        },
    );
    push_made(store, l, Kind::Kern(KERN_BELOW));
}

// At most how many nodes are above the insertions of a class.
fn above_length(class: u8) -> usize
    ensures { result ≡ above_length class }
{
    if class == FOOTNOTES { 6 } else { 4 }
}

/// At most how many nodes are above the insertions of all these classes.
pub(crate) fn above_count(notes: &[NoteBox]) -> usize
    requires { AreRisingFrom 0 notes.now }
    ensures value { result ≡ above_count notes.now }
    ensures few { result ≤ 1536 }
{
    let mut count = 0;
    for note in notes {
        count += above_length(note.class);
    }
    count
}

// Puts a kern at the end of a list, if there is one.
fn push_kern(store: &mut Lists<Node>, l: ListId, kern: Option<i64>)
    requires live { IsLive store.old l }
    requires room { 1 ≤ store.old.spare }
    ensures lists { store.new.lists ≡ with_list store.old l (list_at store.old l ++ kern_list kern) }
    ensures live { IsLive store.new l }
    ensures spare { store.old.spare ≤ store.new.spare + 1 }
{
    match kern {
        None => {}
        Some(width) => push_made(store, l, Kind::Kern(width)),
    }
}

// Puts what is above footnotes at the end of a list: the kern that takes the depth of the text back, glue, and the rule.
fn push_above_feet(store: &mut Lists<Node>, p: &Params, l: ListId, kern: Option<i64>)
    requires live { IsLive store.old l }
    requires room { 6 ≤ store.old.spare }
    ensures lists { store.new.lists ≡ with_list store.old l (list_at store.old l ++ feet_list p.now kern) }
    ensures live { IsLive store.new l }
    ensures spare { store.old.spare ≤ store.new.spare + 6 }
{
    push_kern(store, l, kern);
    push_glue(store, l, p.footfill);
    push_made(store, l, Kind::Skip(p.skipfootins));
    push_rule(store, l, RuleOf::Footnotes, p.footrule);
}

// Puts the glue above the insertions of a class at the end of a list, and the rule of one that stands below footnotes.
fn push_above_class(store: &mut Lists<Node>, l: ListId, skip: Glue, below: Option<Option<Rule>>)
    requires live { IsLive store.old l }
    requires room { 4 ≤ store.old.spare }
    ensures lists { store.new.lists ≡ with_list store.old l (list_at store.old l ++ under_list skip below) }
    ensures live { IsLive store.new l }
    ensures spare { store.old.spare ≤ store.new.spare + 4 }
{
    push_made(store, l, Kind::Skip(skip));
    push_rule(store, l, RuleOf::Footnotes, below.unwrap_or(None));
}

// Puts what is above the insertions of a class at the end of a list.
fn push_class(store: &mut Lists<Node>, p: &Params, l: ListId, note: &NoteBox, kern: Option<i64>)
    requires live { IsLive store.old l }
    requires room { above_length note.now.class ≤ store.old.spare }
    ensures lists { store.new.lists ≡ with_list store.old l (list_at store.old l ++ class_above p.now kern note.now) }
    ensures live { IsLive store.new l }
    ensures spare { store.old.spare ≤ store.new.spare + above_length note.now.class }
{
    if note.class == FOOTNOTES {
        push_above_feet(store, p, l, kern);
    } else {
        push_above_class(store, l, note.skip, note.below);
    }
}

// Moves the insertions of a class to the end of a list.
fn join_class(store: &mut Lists<Node>, p: &Params, body: ListId, note: &NoteBox, kern: Option<i64>)
    requires live { IsLive store.old body }
    requires note { IsLive store.old note.now.list }
    requires apart { body ≢ note.now.list }
    requires room { above_length note.now.class ≤ store.old.spare }
    ensures lists { store.new.lists ≡ insert (with_list store.old body (list_at store.old body ++ (class_above p.now kern note.now ++ list_at store.old note.now.list))) note.now.list [] }
    ensures spare { store.old.spare ≤ store.new.spare + above_length note.now.class }
{
    push_class(store, p, body, note, kern);
    store.append(body, note.list);
}

// Where the insertions of a class stand.
fn standing_of(class: u8, below: Option<Option<Rule>>) -> Standing
    ensures { result ≡ standing_of class below }
{
    if class == FOOTNOTES {
        return Standing::Feet;
    }
    match below {
        None => Standing::Above,
        Some(_) => Standing::Below,
    }
}

// Whether the insertions of a class stand there.
fn is_at(standing: Standing, note: &NoteBox) -> bool
    ensures { result ≡ is_at standing (standing_of note.now.class note.now.below) }
{
    match (standing, standing_of(note.class, note.below)) {
        (Standing::Above, Standing::Above) => true,
        (Standing::Feet, Standing::Feet) => true,
        (Standing::Below, Standing::Below) => true,
        _ => false,
    }
}

// Moves the insertions of each class that stands there to the end of a text, in the order of the classes; footnotes under
// the kern that takes the depth of the text back.
//
// It is laid into its callers, since most pages have no insertions, or those of one class.
#[inline(always)]
fn join_standing(
    store: &mut Lists<Node>,
    p: &Params,
    body: ListId,
    notes: &[NoteBox],
    standing: Standing,
    kern: Option<i64>,
)
    requires live { IsLive store.old body }
    requires notes { AreApart store.old body (boxes_at standing notes.now) }
    requires room { above_count (boxes_at standing notes.now) ≤ store.old.spare }
    ensures text { list_at store.new body ≡ list_at store.old body ++ notes_list p.now kern store.old (boxes_at standing notes.now) }
    ensures live { IsLive store.new body }
    ensures lists { AreJoined body (boxes_at standing notes.now) store.old store.new }
    ensures spare { store.old.spare ≤ store.new.spare + above_count (boxes_at standing notes.now) }
{
    for note in notes {
        if is_at(standing, note) {
            join_class(store, p, body, note, kern);
        }
    }
}

/// Moves the insertions of each class that stands above footnotes to the end of a text, in the order of the classes; or
/// footnotes, under the kern that takes the depth of the text back, and then those that stand below them.
pub(crate) fn join_notes(
    store: &mut Lists<Node>,
    p: &Params,
    body: ListId,
    notes: &[NoteBox],
    feet: bool,
    kern: Option<i64>,
)
    requires live { IsLive store.old body }
    requires notes { AreApart store.old body (boxes_among feet notes.now) }
    requires room { above_count (boxes_among feet notes.now) ≤ store.old.spare }
    ensures text { list_at store.new body ≡ list_at store.old body ++ notes_list p.now kern store.old (boxes_among feet notes.now) }
    ensures live { IsLive store.new body }
    ensures lists { AreJoined body (boxes_among feet notes.now) store.old store.new }
    ensures spare { store.old.spare ≤ store.new.spare + above_count (boxes_among feet notes.now) }
{
    if feet {
        join_standing(store, p, body, notes, Standing::Feet, kern);
        join_standing(store, p, body, notes, Standing::Below, kern);
    } else {
        join_standing(store, p, body, notes, Standing::Above, kern);
    }
}
