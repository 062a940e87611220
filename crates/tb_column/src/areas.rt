//! Floats above and below a text.
ghost use Rattle.std.specs.Prelude.{◌≡◌, ◌≢◌, ◌+◌, ◌*◌, ◌<◌, ◌≤◌, ◌++◌, length, true, OnOk, OnErr};
ghost use Rattle.std.specs.FinMap.{remove};
ghost use Rattle.tb_pool.specs.Lists.{IsLive, list_at, with_list};
ghost use Rattle.tb_float.specs.Lists.{floats_of};
ghost use Rattle.tb_float.specs.Pool.{without_entries};
ghost use Rattle.tb_float.specs.Rooms.{IsArea};
ghost use Rattle.tb_float.specs.Shelves.{is_float};
ghost use Rattle.tb_column.specs.Ranges.{IsSizedGlue};
ghost use Rattle.tb_column.specs.FloatColumns.{boxes_with, boxes_above, glue_list};
ghost use Rattle.tb_column.specs.TextColumns.{top_list, bottom_list};

use crate::nodes::{is_no_glue, made_node, push_float, push_made, push_rule};
use std::alloc::AllocError;
use tb_float::{Entry, Part, Pool};
use tb_node::{Float, Kind, Node, RuleOf, Where};
use tb_param::{Params, Rule};
use tb_pool::{ListId, Lists};
use tb_scaled::{Glue, negate};

/// What is between the floats of an area, and between them and the text.
#[derive(Clone, Copy)]
pub(crate) struct Gaps {
    /// Glue between two floats.
    pub(crate) between: Glue,
    /// A rule between the floats and the text.
    pub(crate) rule: Option<Rule>,
    /// Glue between the floats and the text.
    pub(crate) text: Glue,
}

// The float of an entry that is one.
fn float_in(entry: Entry) -> Float
    requires { is_float entry ≡ true }
    ensures { entry ≡ Entry.Float result }
{
    match entry {
        Entry::Float(f) => f,
        _ => unreachable!(),
    }
}

// Moves the floats of an area to the end of a list, each followed by glue.
fn push_floats(
    store: &mut Lists<Node>,
    pool: &mut Pool,
    l: ListId,
    area: Part,
    place: Where,
    sep: Glue,
)
    requires live { IsLive store.old l }
    requires area { IsArea area }
    requires room { 2 * length (floats_of area pool.old.lists) ≤ store.old.spare }
    ensures lists { store.new.lists ≡ with_list store.old l (list_at store.old l ++ boxes_with place sep (floats_of area pool.old.lists)) }
    ensures live { IsLive store.new l }
    ensures spare { store.new.spare + 2 * length (floats_of area pool.old.lists) ≡ store.old.spare }
    ensures pool { pool.new ≡ without_entries area pool.old }
{
    'floats: while let Some(entry) = pool.retire(area) {
        push_float(store, l, place, &float_in(entry));
        push_made(store, l, Kind::Skip(sep));
    }
}

/// Moves the floats of an area above a text to the end of a list; the rule and the glue to the text replace the last
/// separator.
pub(crate) fn push_above(
    store: &mut Lists<Node>,
    pool: &mut Pool,
    l: ListId,
    area: Part,
    place: Where,
    gaps: &Gaps,
)
    requires live { IsLive store.old l }
    requires area { IsArea area }
    requires between { IsSizedGlue gaps.now.between }
    requires room { 2 * length (floats_of area pool.old.lists) + 5 ≤ store.old.spare }
    ensures lists { store.new.lists ≡ with_list store.old l (list_at store.old l ++ boxes_above place gaps.now.between gaps.now.rule gaps.now.text (floats_of area pool.old.lists)) }
    ensures live { IsLive store.new l }
    ensures spare { store.old.spare ≤ store.new.spare + (2 * length (floats_of area pool.old.lists) + 5) }
    ensures pool { pool.new ≡ without_entries area pool.old }
{
    if pool.len(area) == 0 {
        return;
    }
    push_floats(store, pool, l, area, place, gaps.between);
    push_made(store, l, Kind::Skip(negate(gaps.between)));
    push_rule(store, l, RuleOf::Floats, gaps.rule);
    push_made(store, l, Kind::Skip(gaps.text));
}

// Moves all nodes of a list before those of another, by links alone, and closes it.
#[tactic(auto, using(tb_pool::proofs::MapLemmas::list_steps))]
fn put_before(store: &mut Lists<Node>, front: ListId, l: ListId)
    requires front_live { IsLive store.old front }
    requires live { IsLive store.old l }
    requires apart { front ≢ l }
    ensures lists { store.new.lists ≡ remove (with_list store.old l (list_at store.old front ++ list_at store.old l)) front }
    ensures spare { store.new.spare ≡ store.old.spare }
{
    store.append(front, l);
    store.append(l, front);
    store.close(front);
}

/// Moves the floats at the top of a column before its text (ltoutput.dtx, `\@cflt`). If there is no memory for a helper
/// list, the pool and all lists stay as they were.
pub(crate) fn put_above(
    store: &mut Lists<Node>,
    pool: &mut Pool,
    p: &Params,
    body: ListId,
) -> Result<(), AllocError>
    requires live { IsLive store.old body }
    requires sep { IsSizedGlue p.now.floatsep }
    requires room { 2 * length pool.old.lists.top + 5 ≤ store.old.spare }
    ensures lists { OnOk result (store.new.lists ≡ with_list store.old body (top_list p.now pool.old.lists ++ list_at store.old body)) }
    ensures live { OnOk result (IsLive store.new body) }
    ensures spare { OnOk result (store.old.spare ≤ store.new.spare + (2 * length pool.old.lists.top + 5)) }
    ensures pool { OnOk result (pool.new ≡ without_entries Part.Top pool.old) }
    ensures err_lists { OnErr result (store.new.lists ≡ store.old.lists) }
    ensures err_pool { OnErr result (pool.new ≡ pool.old) }
{
    if pool.len(Part::Top) == 0 {
        return Ok(());
    }
    let above = store.add_list()?;
    let gaps = Gaps {
        between: p.floatsep,
        rule: p.toprule,
        text: p.textfloatsep,
    };
    push_above(store, pool, above, Part::Top, Where::Top, &gaps);
    put_before(store, above, body);
    Ok(())
}

/// Puts the glue at the top of a column before all that is in it (ltoutput.dtx, `\@texttop`).
#[tactic(auto, using(tb_pool::proofs::MapLemmas::list_steps))]
pub(crate) fn put_top_glue(store: &mut Lists<Node>, body: ListId, glue: Glue)
    requires live { IsLive store.old body }
    requires room { 0 < store.old.spare }
    ensures lists { store.new.lists ≡ with_list store.old body (glue_list glue ++ list_at store.old body) }
    ensures live { IsLive store.new body }
    ensures spare { store.old.spare ≤ store.new.spare + 1 }
{
    if !is_no_glue(glue) {
        store.push_front(body, made_node(Kind::Skip(glue)));
    }
}

/// Moves the floats at the bottom of a column behind its text (ltoutput.dtx, `\@cflb`).
pub(crate) fn put_below(store: &mut Lists<Node>, pool: &mut Pool, p: &Params, body: ListId)
    requires live { IsLive store.old body }
    requires sep { IsSizedGlue p.now.floatsep }
    requires room { 2 * length pool.old.lists.bottom + 5 ≤ store.old.spare }
    ensures lists { store.new.lists ≡ with_list store.old body (list_at store.old body ++ bottom_list p.now pool.old.lists) }
    ensures live { IsLive store.new body }
    ensures spare { store.old.spare ≤ store.new.spare + (2 * length pool.old.lists.bottom + 5) }
    ensures pool { pool.new ≡ without_entries Part.Bottom pool.old }
{
    if pool.len(Part::Bottom) == 0 {
        return;
    }
    push_made(store, body, Kind::Skip(p.textfloatsep));
    push_rule(store, body, RuleOf::Floats, p.bottomrule);
    push_floats(store, pool, body, Part::Bottom, Where::Bottom, p.floatsep);
    push_made(store, body, Kind::Skip(negate(p.floatsep)));
}

/// The floats in the text leave the pool: their nodes are in the text already.
pub(crate) fn clear_here(pool: &mut Pool)
    ensures { pool.new ≡ without_entries Part.Here pool.old }
{
    'floats: while let Some(_) = pool.retire(Part::Here) {}
}
