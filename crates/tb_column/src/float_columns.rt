//! Makes a column of floats alone, and the wide floats above two columns.
ghost use Rattle.std.specs.Prelude.{◌≡◌, ◌≢◌, ◌+◌, ◌*◌, ◌≤◌, ◌++◌, [], ◌∷◌, length, None, OnOk, OnErr, IfOk};
ghost use Rattle.std.specs.FinMap.{get};
ghost use Rattle.tb_pool.specs.Lists.{IsLive, list_at, with_list};
ghost use Rattle.tb_pool.specs.Frame.{OnlyChanged};
ghost use Rattle.tb_scaled.specs.Amount.{IsAmount};
ghost use Rattle.tb_node.specs.PlainNodes.{plain_list};
ghost use Rattle.tb_float.specs.Lists.{IsWaiting, floats_of};
ghost use Rattle.tb_float.specs.Pool.{marks_of, marked_floats, without_entries};
ghost use Rattle.tb_float.specs.MarkedFloats.{without_marked};
ghost use Rattle.tb_column.specs.Column.{float_column_of, pair_floats, pair_rule};
ghost use Rattle.tb_column.specs.StoredColumns.{column_shown};
ghost use Rattle.tb_column.specs.Page.{IsPageList, IsPageColumn};
ghost use Rattle.tb_column.specs.Ranges.{IsSizedGlue, IsSizedRule, AreColumnParams};
ghost use Rattle.tb_column.specs.ColumnChanges.{IsOpened};
ghost use Rattle.tb_column.specs.FloatColumns.{boxes_after, page_list, page_glue};

use crate::areas::{Gaps, push_above};
use crate::nodes::{push_float, push_made};
use crate::{Column, ColumnKind};
use std::alloc::AllocError;
use tb_float::{Part, Pool};
use tb_node::{Kind, Node, Where};
use tb_pack::pack;
use tb_param::{Params, Rule};
use tb_pool::{ListId, Lists};
use tb_scaled::{Glue, negate};

// The glue above, between and below the floats of a column of floats.
#[derive(Clone, Copy)]
struct PageGlue {
    above: Glue,
    between: Glue,
    below: Glue,
}

// The glue of a page of wide floats, or of a column of single ones.
fn page_glue(p: &Params, wide: bool) -> PageGlue
    ensures { result ≡ page_glue wide p.now }
{
    if wide {
        PageGlue {
            above: p.dblfptop,
            between: p.dblfpsep,
            below: p.dblfpbot,
        }
    } else {
        PageGlue {
            above: p.fptop,
            between: p.fpsep,
            below: p.fpbot,
        }
    }
}

// Moves the marked floats of a list to the end of another, each after glue.
fn push_marked(store: &mut Lists<Node>, pool: &mut Pool, l: ListId, from: Part, sep: Glue)
    requires live { IsLive store.old l }
    requires waiting { IsWaiting from }
    requires marks { length (marks_of from pool.old) ≡ length (floats_of from pool.old.lists) }
    requires room { 2 * length (marked_floats from pool.old) ≤ store.old.spare }
    ensures lists { store.new.lists ≡ with_list store.old l (list_at store.old l ++ boxes_after sep (marked_floats from pool.old)) }
    ensures live { IsLive store.new l }
    ensures spare { store.new.spare + 2 * length (marked_floats from pool.old) ≡ store.old.spare }
    ensures pool { pool.new ≡ without_marked from pool.old }
{
    'floats: while let Some(float) = pool.retire_marked(from) {
        push_made(store, l, Kind::Skip(sep));
        push_float(store, l, Where::Page, &float);
    }
}

// Puts the marked floats with their glue at the end of a list.
fn push_page(store: &mut Lists<Node>, pool: &mut Pool, l: ListId, from: Part, around: &PageGlue)
    requires live { IsLive store.old l }
    requires waiting { IsWaiting from }
    requires marks { length (marks_of from pool.old) ≡ length (floats_of from pool.old.lists) }
    requires room { 2 * length (marked_floats from pool.old) + 3 ≤ store.old.spare }
    requires between { IsSizedGlue around.now.between }
    ensures lists { store.new.lists ≡ with_list store.old l (list_at store.old l ++ page_list around.now (marked_floats from pool.old)) }
    ensures live { IsLive store.new l }
    ensures pool { pool.new ≡ without_marked from pool.old }
{
    push_made(store, l, Kind::Skip(around.above));
    push_made(store, l, Kind::Skip(negate(around.between)));
    push_marked(store, pool, l, from, around.between);
    push_made(store, l, Kind::Skip(around.below));
}

// Puts the marked floats with their glue into a new list. If there is no memory for it, the pool and all lists stay as
// they were.
fn open_page(
    store: &mut Lists<Node>,
    pool: &mut Pool,
    p: &Params,
    wide: bool,
    from: Part,
) -> Result<ListId, AllocError>
    requires params { AreColumnParams p.now }
    requires waiting { IsWaiting from }
    ensures fresh { IfOk result (λ l. get store.old.lists l ≡ None) }
    ensures lists { IfOk result (λ l. store.new.lists ≡ with_list store.old l (page_list (page_glue wide p.now) (marked_floats from pool.old))) }
    ensures page { IfOk result (λ l. IsPageList store.new l) }
    ensures pool { OnOk result (pool.new ≡ without_marked from pool.old) }
    ensures err_lists { OnErr result (store.new.lists ≡ store.old.lists) }
    ensures err_pool { OnErr result (pool.new ≡ pool.old) }
{
    store.reserve(2 * pool.len(from) + 3)?;
    let list = store.add_list()?;
    let around = page_glue(p, wide);
    push_page(store, pool, list, from, &around);
    Ok(list)
}

/// Makes a column of the marked floats of a list alone, in order, or a page of them if they are wide: glue above,
/// between and below them, packed to this height in scaled points (ltoutput.dtx, `\@vtryfc`).
///
/// The marked floats leave the pool, and the column gets a new list. If there is no memory for it, the pool and all
/// lists stay as they were.
pub fn float_column(
    store: &mut Lists<Node>,
    pool: &mut Pool,
    p: &Params,
    height: i64,
    wide: bool,
    from: Part,
) -> Result<Column, AllocError>
    requires params { AreColumnParams p.now }
    requires height { IsAmount height }
    requires waiting { IsWaiting from }
    requires marked { marked_floats from pool.old ≢ [] }

    ensures column { IfOk result (λ c. column_shown store.new c ≡ float_column_of wide p.now height (marked_floats from pool.old)) }
    ensures page { IfOk result (λ c. IsPageColumn store.new c) }

    ensures opened { IfOk result (λ c. IsOpened c.list store.old store.new) }
    ensures frame { IfOk result (λ c. OnlyChanged [] (c.list ∷ []) store.old store.new) }
    ensures pool { OnOk result (pool.new ≡ without_marked from pool.old) }
    ensures unmarked { OnOk result (marked_floats from pool.new ≡ []) }
    ensures err_lists { OnErr result (store.new.lists ≡ store.old.lists) }
    ensures err_pool { OnErr result (pool.new ≡ pool.old) }
{
    let list = open_page(store, pool, p, wide, from)?;
    Ok(Column {
        kind: ColumnKind::Floats,
        list,
        set: pack(store, list, height, 0),
    })
}

/// The rule below the wide floats above two columns: none if a title, which has class 0, is among them (latex.ltx,
/// `\@topnewpage`).
pub fn pair_rule(pool: &Pool, p: &Params) -> Option<Rule>
    ensures value { result ≡ pair_rule p.now pool.now.lists }
    ensures sized { IsSizedRule p.now.dblrule → IsSizedRule result }
{
    if pool.has_class(Part::Double, 0) {
        None
    } else {
        p.dblrule
    }
}

/// Puts the wide floats above two columns into a new list, with the rule and the glue below them (ltoutput.dtx,
/// `\@combinedblfloats`).
///
/// They leave the pool. If there is no memory for the list, the pool and all lists stay as they were.
pub fn pair_tops(store: &mut Lists<Node>, pool: &mut Pool, p: &Params) -> Result<ListId, AllocError>
    requires { AreColumnParams p.now }

    ensures floats { IfOk result (λ l. plain_list store.new l ≡ pair_floats p.now pool.old.lists) }
    ensures page { IfOk result (λ l. IsPageList store.new l) }

    ensures opened { IfOk result (λ l. IsOpened l store.old store.new) }
    ensures frame { IfOk result (λ l. OnlyChanged [] (l ∷ []) store.old store.new) }
    ensures pool { OnOk result (pool.new ≡ without_entries Part.Double pool.old) }
    ensures err_lists { OnErr result (store.new.lists ≡ store.old.lists) }
    ensures err_pool { OnErr result (pool.new ≡ pool.old) }
{
    store.reserve(2 * pool.len(Part::Double) + 5)?;
    let tops = store.add_list()?;
    let gaps = Gaps {
        between: p.dblfloatsep,
        rule: pair_rule(pool, p),
        text: p.dbltextfloatsep,
    };
    push_above(store, pool, tops, Part::Double, Where::Double, &gaps);
    Ok(tops)
}
