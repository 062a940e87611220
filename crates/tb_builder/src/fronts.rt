//! The front of a list goes to another, as for an insertion that is split at the page's break.

ghost use Rattle.std.specs.Prelude.{◌≡◌, ◌≢◌, ◌<◌, ◌≤◌, ◌+◌, ◌++◌, List, [], ◌∷◌, take, drop, length};
ghost use Rattle.std.specs.FinMap.{insert};
ghost use Rattle.tb_pool.specs.Lists.{IsLive, list_at, with_list};
ghost use Rattle.tb_node.specs.declared.Node.{Node as NodeOf};
ghost use Rattle.tb_node.specs.Fit.{shapes, NodesFit};
ghost use Rattle.tb_node.specs.SmallAmounts.{IsAmount};
ghost use Rattle.tb_break.specs.PageTop.{pruned_list};
ghost use Rattle.tb_builder.specs.Firing.{BeginsVanishing};

use tb_break::prune;
use tb_node::Node;
use tb_pool::{ListId, Lists};

/// Moves the nodes before a place of a list to the end of another. On the way the rest is in a list that is empty
/// before and afterwards.
#[inline(always)]
pub(crate) fn move_front(
    store: &mut Lists<Node>,
    to: ListId,
    from: ListId,
    between: ListId,
    place: usize,
)
    requires to_live { IsLive store.old to }
    requires from_live { IsLive store.old from }
    requires between_live { IsLive store.old between }
    requires to_apart { to ≢ from }
    requires between_apart { between ≢ to }
    requires between_from { between ≢ from }
    requires between_empty { list_at store.old between ≡ [] }
    requires within { place ≤ length (list_at store.old from) }
    ensures moved { store.new.lists ≡ insert (with_list store.old from (drop place (list_at store.old from))) to (list_at store.old to ++ take place (list_at store.old from)) }
    ensures spare { store.new.spare ≡ store.old.spare }
{
    store.cut(from, place, between);
    store.append(to, from);
    store.append(from, between);
}

/// Moves the nodes before a place of a list to the end of another. The rest, whose first node vanishes, stays, pruned
/// for the top of a page; on the way it is in a list that is empty before and afterwards.
pub(crate) fn give_front(
    store: &mut Lists<Node>,
    to: ListId,
    from: ListId,
    between: ListId,
    place: usize,
    top_skip: i64,
)
    requires to_live { IsLive store.old to }
    requires from_live { IsLive store.old from }
    requires between_live { IsLive store.old between }
    requires to_apart { to ≢ from }
    requires between_apart { between ≢ to }
    requires between_from { between ≢ from }
    requires between_empty { list_at store.old between ≡ [] }
    requires within { place ≤ length (list_at store.old from) }
    requires room { 0 < store.old.spare }
    requires top_skip { IsAmount top_skip }
    requires nodes { NodesFit (shapes store.old from) }
    requires vanishes { BeginsVanishing (drop place (shapes store.old from)) }
    ensures given { store.new.lists ≡ insert (with_list store.old to (list_at store.old to ++ take place (list_at store.old from))) from (pruned_list top_skip (drop place (list_at store.old from))) }
    ensures spare { store.old.spare ≤ store.new.spare }
{
    move_front(store, to, from, between, place);
    prune(store, from, top_skip);
}

/// Takes off the first node of a list, and puts this one at the end of another.
#[tactic(auto, using(tb_pool::proofs::MapLemmas::list_steps))]
pub(crate) fn pass_on(store: &mut Lists<Node>, from: ListId, to: ListId, last: Node)
    requires from_live { IsLive store.old from }
    requires to_live { IsLive store.old to }
    requires apart { from ≢ to }
    ensures passed { (n : NodeOf) (ns : List NodeOf) → list_at store.old from ≡ n ∷ ns → store.new.lists ≡ insert (with_list store.old from ns) to (list_at store.old to ++ last ∷ []) }
    ensures spare { store.new.spare ≡ store.old.spare }
{
    let Some(_) = store.pop_front(from) else {
        return;
    };
    store.push_back(to, last);
}
