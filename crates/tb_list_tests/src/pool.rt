//! Values moved between lists.

ghost use Rattle.std.specs.Prelude.{◌≢◌, ◌<◌, length};
ghost use Rattle.tb_pool.specs.Lists.{IsLive, list_at};

use std::test::Fail;
use tb_pool::{ListId, Lists};

#[tactic(auto, using(tb_pool::proofs::MapLemmas::list_steps))]
#[test]
fn moves_values_between_lists(rt: HostRuntime) -> Result<(), Fail> {
    let mut lists = Lists::new(rt.alloc());
    let a = lists.add_list()?;
    let b = lists.add_list()?;
    assert_ne!(rt; a, b);
    lists.reserve(3)?;
    let room = lists.spare();
    assert!(rt; room >= 3);
    lists.push_back(a, 2u64);
    lists.push_front(a, 1);
    lists.push_back(b, 3);
    assert_eq!(rt; lists.pop_front(a), Some(1));
    lists.push_back(a, 4);
    lists.append(a, b);
    assert_eq!(rt; lists.len(a), 3);
    lists.cut(a, 1, b);
    assert_eq!(rt; lists.get(b, 0).copied(), Some(4));
    assert_eq!(rt; lists.get(b, 2).copied(), None);
    assert_eq!(rt; lists.replace(b, 1, 5), 3);
    let mut sum = 0u64;
    for v in lists.iter(b) {
        sum = sum.wrapping_mul(10).wrapping_add(*v);
    }
    assert_eq!(rt; sum, 45);
    assert_eq!(rt; lists.iter_from(b, 1).next().copied(), Some(5));
    assert_eq!(rt; lists.pop_back(b), Some(5));
    assert_eq!(rt; lists.pop_back(b), Some(4));
    assert_eq!(rt; lists.pop_back(b), None);
    assert_eq!(rt; lists.pop_front(b), None);
    lists.close(b);
    assert_eq!(rt; lists.spare(), room - 1);
    lists.clear(a);
    assert_eq!(rt; lists.len(a), 0);
    assert_eq!(rt; lists.spare(), room);
    Ok(())
}

#[tactic(auto, using(tb_pool::proofs::MapLemmas::list_steps))]
#[test]
fn a_copy_has_the_lists_of_the_store(rt: HostRuntime) -> Result<(), Fail> {
    let mut lists = Lists::new(rt.alloc());
    let a = lists.add_list()?;
    lists.reserve(2)?;
    lists.push_back(a, 7u64);
    let mut copy = lists.copy()?;
    copy.push_back(a, 8);
    assert_eq!(rt; copy.len(a), 2);
    assert_eq!(rt; copy.pop_front(a), Some(7));
    assert_eq!(rt; lists.len(a), 1);
    assert_eq!(rt; lists.pop_front(a), Some(7));
    Ok(())
}

#[tactic(auto, using(tb_pool::proofs::MapLemmas::list_steps))]
#[test]
fn a_store_becomes_a_copy_of_another(rt: HostRuntime) -> Result<(), Fail> {
    let mut lists = Lists::new(rt.alloc());
    let a = lists.add_list()?;
    lists.reserve(2)?;
    lists.push_back(a, 7u64);
    let mut copy = Lists::new(rt.alloc());
    copy.copy_from(&lists)?;
    copy.push_back(a, 8);
    assert_eq!(rt; copy.len(a), 2);
    copy.copy_from(&lists)?;
    assert_eq!(rt; copy.spare(), lists.spare());
    assert_eq!(rt; copy.pop_front(a), Some(7));
    Ok(())
}

// The first value of a list goes to the end of another.
fn move_value(lists: &mut Lists<u64>, from: ListId, to: ListId)
    requires from_live { IsLive lists.old from }
    requires to_live { IsLive lists.old to }
    requires apart { from ≢ to }
    requires some { 0 < length (list_at lists.old from) }
    ensures from { IsLive lists.new from }
    ensures to { IsLive lists.new to }
{
    lists.move_first(from, to);
}

#[tactic(auto, using(tb_pool::proofs::MapLemmas::list_steps))]
#[test]
fn moves_the_first_value(rt: HostRuntime) -> Result<(), Fail> {
    let mut lists = Lists::new(rt.alloc());
    let a = lists.add_list()?;
    let b = lists.add_list()?;
    lists.reserve(2)?;
    lists.push_back(a, 1u64);
    lists.push_back(a, 2);
    move_value(&mut lists, a, b);
    assert_eq!(rt; lists.pop_back(b), Some(1));
    assert_eq!(rt; lists.pop_back(a), Some(2));
    Ok(())
}
