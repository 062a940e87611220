//! Nodes that come from no galley item.
ghost use Rattle.std.specs.Prelude.{◌≡◌, ◌+◌, ◌<◌, ◌≤◌, ◌++◌, ◌∷◌, [], Some};
ghost use Rattle.tb_pool.specs.Lists.{IsLive, list_at, with_list};
ghost use Rattle.tb_column.specs.Column.{is_no_glue, float_depth};
ghost use Rattle.tb_column.specs.FloatColumns.{made_node, float_box, glue_list, rule_list};

use tb_node::{Float, Kind, Node, RuleOf, What, Where};
use tb_param::Rule;
use tb_pool::{ListId, Lists};
use tb_scaled::Glue;

// A node that comes from no galley item.
pub(crate) fn made_node(kind: Kind) -> Node
    ensures { result ≡ made_node kind }
{
    Node { line: 0, kind }
}

/// Puts a node that comes from no galley item at the end of a list, in a spare place.
#[tactic(auto, using(tb_pool::proofs::MapLemmas::list_steps))]
pub fn push_made(store: &mut Lists<Node>, l: ListId, kind: Kind)
    requires live { IsLive store.old l }
    requires room { 0 < store.old.spare }
    ensures lists { store.new.lists ≡ with_list store.old l (list_at store.old l ++ made_node kind ∷ []) }
    ensures live { IsLive store.new l }
    ensures spare { store.new.spare + 1 ≡ store.old.spare }
{
    store.push_back(l, made_node(kind));
}

/// Whether glue has no width, no stretch and no shrink.
pub(crate) fn is_no_glue(glue: Glue) -> bool
    ensures { result ≡ is_no_glue glue }
{
    glue.width == 0 && glue.stretch == 0 && glue.shrink == 0
}

/// Puts glue at the end of a list, in a spare place; glue that is none puts nothing.
pub(crate) fn push_glue(store: &mut Lists<Node>, l: ListId, glue: Glue)
    requires live { IsLive store.old l }
    requires room { 0 < store.old.spare }
    ensures lists { store.new.lists ≡ with_list store.old l (list_at store.old l ++ glue_list glue) }
    ensures live { IsLive store.new l }
    ensures spare { store.old.spare ≤ store.new.spare + 1 }
{
    if !is_no_glue(glue) {
        push_made(store, l, Kind::Skip(glue));
    }
}

/// Puts a rule between its kerns at the end of a list, in three spare places; no rule puts nothing, which is most frequent.
#[inline(always)]
pub(crate) fn push_rule(store: &mut Lists<Node>, l: ListId, of: RuleOf, rule: Option<Rule>)
    requires live { IsLive store.old l }
    requires room { 3 ≤ store.old.spare }
    ensures lists { store.new.lists ≡ with_list store.old l (list_at store.old l ++ rule_list of rule) }
    ensures live { IsLive store.new l }
    ensures spare { store.old.spare ≤ store.new.spare + 3 }
{
    match rule {
        None => {}
        Some(rule) => push_some_rule(store, l, of, rule),
    }
}

// The same of a rule that is there.
#[inline(never)]
fn push_some_rule(store: &mut Lists<Node>, l: ListId, of: RuleOf, rule: Rule)
    requires live { IsLive store.old l }
    requires room { 3 ≤ store.old.spare }
    ensures lists { store.new.lists ≡ with_list store.old l (list_at store.old l ++ rule_list of (Some rule)) }
    ensures live { IsLive store.new l }
    ensures spare { store.old.spare ≤ store.new.spare + 3 }
{
    push_made(store, l, Kind::Kern(rule.above));
    push_made(
        store,
        l,
        Kind::Rule {
            of,
            height: rule.height,
            depth: 0,
        },
    );
    push_made(store, l, Kind::Kern(rule.below));
}

/// The depth of a float's box, in sp: 1 of a deep one, else 0 (ltfloat.dtx, \@endfloatbox).
pub fn float_depth(float: &Float) -> i64
    ensures { result ≡ float_depth float.now }
{
    if float.deep { 1 } else { 0 }
}

/// Puts the box of a float at the end of a list, in a spare place; it has the float's height and depth.
pub fn push_float(store: &mut Lists<Node>, l: ListId, place: Where, float: &Float)
    requires live { IsLive store.old l }
    requires room { 0 < store.old.spare }
    ensures lists { store.new.lists ≡ with_list store.old l (list_at store.old l ++ float_box place float.now ∷ []) }
    ensures live { IsLive store.new l }
    ensures spare { store.new.spare + 1 ≡ store.old.spare }
{
    push_made(
        store,
        l,
        Kind::Hbox {
            what: What::Float {
                name: float.name,
                class: float.class,
                place,
                item: float.line,
            },
            height: float.height,
            depth: float_depth(float),
        },
    );
}
