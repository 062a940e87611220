//! What is put at the end of the list that goes back.

ghost use Rattle.std.specs.Prelude.{◌≡◌, ◌≤◌, ◌+◌, ◌++◌, ◌∷◌, [], pos, take, if◌then◌else◌, OnOk, OnErr};
ghost use Rattle.std.specs.FinMap.{remove};
ghost use Rattle.tb_pool.specs.Lists.{IsLive, list_at, with_list};
ghost use Rattle.tb_node.specs.Fit.{IsSizedNode};
ghost use Rattle.std.specs.Prelude.{All};
ghost use Rattle.tb_column.specs.FloatColumns.{made_node};
ghost use Rattle.tb_output.specs.BackList.{clear_list, blank_clear_list, blank_list, interline_list, between_list, last_glue, glue_of_kind};

use std::alloc::AllocError;
use tb_column::push_made;
use tb_node::{CLEAR_PENALTY, Kind, Node, What};
use tb_pool::{ListId, Lists};
use tb_scaled::{EJECT_PENALTY, Glue, INF_PENALTY, filling_glue, negate};

/// An empty box of no size.
const BLANK_BOX: Kind = Kind::Hbox {
    what: What::Blank,
    height: 0,
    depth: 0,
};

/// Takes all but the first `count` nodes off a list.
#[tactic(auto, using(tb_pool::proofs::MapLemmas::list_steps))]
pub(crate) fn shorten(store: &mut Lists<Node>, l: ListId, count: usize)
    requires { IsLive store.old l }
    ensures { store.new.lists ≡ with_list store.old l (take count (list_at store.old l)) }
{
    'last: while store.len(l) > count {
        store.pop_back(l);
    }
}

/// Closes a list and drops its nodes.
pub(crate) fn drop_list(store: &mut Lists<Node>, l: ListId)
    requires { IsLive store.old l }
    ensures { store.new.lists ≡ remove store.old.lists l }
{
    store.clear(l);
    store.close(l);
}

/// Puts the nodes of a further clear at the end of a list: the end of the page, and on the next one a blank box and the
/// penalty at which the routine puts out what it holds (LaTeX, \clearpage). If there is no memory, all lists are as
/// before.
pub(crate) fn push_clear(store: &mut Lists<Node>, l: ListId) -> Result<(), AllocError>
    requires { IsLive store.old l }
    ensures ok { OnOk result (store.new.lists ≡ with_list store.old l (list_at store.old l ++ clear_list)) }
    ensures err { OnErr result (store.new.lists ≡ store.old.lists) }
{
    store.reserve(5)?;
    push_clear_nodes(store, l);
    Ok(())
}

/// Puts a blank box at the end of a list, before the nodes of a further clear. If there is no memory, all lists are as
/// before.
pub(crate) fn push_blank_clear(store: &mut Lists<Node>, l: ListId) -> Result<(), AllocError>
    requires { IsLive store.old l }
    ensures ok { OnOk result (store.new.lists ≡ with_list store.old l (list_at store.old l ++ blank_clear_list)) }
    ensures err { OnErr result (store.new.lists ≡ store.old.lists) }
{
    store.reserve(6)?;
    push_made(store, l, BLANK_BOX);
    push_clear_nodes(store, l);
    Ok(())
}

// Puts the nodes of a further clear at the end of a list.
fn push_clear_nodes(store: &mut Lists<Node>, l: ListId)
    requires live { IsLive store.old l }
    requires room { 5 ≤ store.old.spare }
    ensures { store.new.lists ≡ with_list store.old l (list_at store.old l ++ clear_list) }
{
    push_made(store, l, Kind::Skip(filling_glue()));
    push_made(store, l, Kind::Pen(EJECT_PENALTY));
    push_made(store, l, Kind::Whatsit);
    push_made(store, l, BLANK_BOX);
    push_made(store, l, Kind::Pen(CLEAR_PENALTY));
}

/// Puts one or two columns that stay blank at the end of a list, each a blank box and the end of the page. If there is
/// no memory, all lists are as before.
pub(crate) fn push_blanks(store: &mut Lists<Node>, l: ListId, both: bool) -> Result<(), AllocError>
    requires { IsLive store.old l }
    ensures ok { OnOk result (store.new.lists ≡ with_list store.old l (list_at store.old l ++ (if both then blank_list ++ blank_list else blank_list))) }
    ensures err { OnErr result (store.new.lists ≡ store.old.lists) }
{
    store.reserve(4)?;
    push_blank(store, l);
    if both {
        push_blank(store, l);
    }
    Ok(())
}

// Puts a blank box and the end of the page at the end of a list.
fn push_blank(store: &mut Lists<Node>, l: ListId)
    requires live { IsLive store.old l }
    requires room { 2 ≤ store.old.spare }
    ensures lists { store.new.lists ≡ with_list store.old l (list_at store.old l ++ blank_list) }
    ensures live { IsLive store.new l }
    ensures spare { store.new.spare + 2 ≡ store.old.spare }
{
    push_made(store, l, BLANK_BOX);
    push_made(store, l, Kind::Pen(EJECT_PENALTY));
}

// The glue at the end of a list, if its width is not 0.
fn last_glue(store: &Lists<Node>, l: ListId) -> Option<Glue>
    requires { IsLive store.now l }
    ensures { result ≡ last_glue (list_at store.now l) }
{
    let count = store.len(l);
    if count == 0 {
        return None;
    }
    match store.get(l, count - 1) {
        Some(node) => wide_glue(&node.kind),
        None => None,
    }
}

// Puts a penalty at the end of a list; after glue it acts as if before that glue. If there is no memory, all lists are
// as before (ltoutput.dtx, \@addtocurcol and \vadjust).
fn push_interline(store: &mut Lists<Node>, l: ListId, penalty: i64) -> Result<(), AllocError>
    requires live { IsLive store.old l }
    requires sized { All IsSizedNode (list_at store.old l) }
    ensures ok { OnOk result (store.new.lists ≡ with_list store.old l (list_at store.old l ++ interline_list penalty (list_at store.old l))) }
    ensures err { OnErr result (store.new.lists ≡ store.old.lists) }
{
    store.reserve(3)?;
    match last_glue(store, l) {
        Some(glue) => {
            push_made(store, l, Kind::Skip(negate(glue)));
            push_made(store, l, Kind::Pen(penalty));
            push_made(store, l, Kind::Skip(glue));
        }
        None => push_made(store, l, Kind::Pen(penalty)),
    }
    Ok(())
}

// Puts a penalty of 10000 at the end of a list. If there is no memory, all lists are as before.
fn push_nobreak(store: &mut Lists<Node>, l: ListId) -> Result<(), AllocError>
    requires live { IsLive store.old l }
    ensures ok { OnOk result (store.new.lists ≡ with_list store.old l (list_at store.old l ++ made_node (Kind.Pen (pos 10000)) ∷ [])) }
    ensures err { OnErr result (store.new.lists ≡ store.old.lists) }
{
    store.reserve(1)?;
    push_made(store, l, Kind::Pen(INF_PENALTY));
    Ok(())
}

/// Puts a penalty at the end of a list as [`push_interline`] does; where no page may end, one of 10000 alone. If there is
/// no memory, all lists are as before (ltoutput.dtx, \@specialoutput).
pub(crate) fn push_between(
    store: &mut Lists<Node>,
    l: ListId,
    penalty: i64,
    nobreak: bool,
) -> Result<(), AllocError>
    requires live { IsLive store.old l }
    requires sized { All IsSizedNode (list_at store.old l) }
    ensures ok { OnOk result (store.new.lists ≡ with_list store.old l (list_at store.old l ++ between_list penalty nobreak (list_at store.old l))) }
    ensures err { OnErr result (store.new.lists ≡ store.old.lists) }
{
    if nobreak {
        push_nobreak(store, l)
    } else {
        push_interline(store, l, penalty)
    }
}

// The glue that a node is, if its width is not 0.
fn wide_glue(kind: &Kind) -> Option<Glue>
    ensures { result ≡ glue_of_kind kind.now }
{
    match kind {
        Kind::Skip(glue) if glue.width != 0 => Some(*glue),
        _ => None,
    }
}
