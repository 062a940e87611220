//! The nodes of the lists, and the links between them.

ghost use Rattle.std.specs.Prelude.{◌≡◌, ◌+◌, ◌-◌, ◌<◌, ℕ, List, None, Some, slice_index};
ghost use Rattle.std.specs.Borrow.{sem};
ghost use Rattle.slab.specs.Slab.{ContainsKey, get, Updates, slab_len};
ghost use Rattle.slab.specs.Lends.{lends_value};
ghost use Rattle.tb_pool.specs.Links.{IsLinked, IsPath, HasPath, IsEnds};

use crate::{Ends, Node};
use slab::Slab;
use std::alloc::Allocator;

/// The value under a key that has one.
///
/// `slab[key]` tests at run time whether there is a value. Here the arm without one is never reached. It shifts a number by
/// its full width; LLVM may assume that no such shift happens, and so drops the test.
#[inline(always)]
pub(crate) fn get_unchecked<T, A: Allocator>(slab: &Slab<T, A>, key: usize) -> &T
    requires { ContainsKey slab.now key }
    ensures { get slab.now key ≡ Some result.now }
{
    match slab.get(key) {
        Some(value) => value,
        None => {
            let mut never = [0u8; 1];
            never[1 << usize::BITS] = 1;
            unreachable!()
        }
    }
}

/// The value under a key that has one, for writing. LLVM knows from the read before that it is there, and drops the test.
#[inline(always)]
pub(crate) fn get_unchecked_mut<T, A: Allocator>(slab: &mut Slab<T, A>, key: usize) -> &mut T
    requires { ContainsKey slab.old key }
    ensures* writes_back { sem 𝓛 (lends_value T.row A.row A.Allocator slab.entry key result) }
    ensures value { get slab.old key ≡ Some result.now }
{
    get_unchecked(slab, key);
    &mut slab[key]
}

/// Takes out the value under a key that has one, also without the test.
#[inline(always)]
pub(crate) fn remove_unchecked<T>(slab: &mut Slab<T>, key: usize) -> T
    requires { ContainsKey slab.old key }
    ensures value { get slab.old key ≡ Some result }
    ensures updates { Updates slab.old slab.new key None }
    ensures len { slab_len slab.new + 1 ≡ slab_len slab.old }
    ensures capacity { slab.new.capacity ≡ slab.old.capacity }
{
    get_unchecked(slab, key);
    slab.remove(key)
}

/// Links the last node of a list to the first of another, if each has one.
pub(crate) fn link<T>(nodes: &mut Slab<Node<T>>, front: Ends, back: Ends)
    requires last_there { 0 < front.len → ContainsKey nodes.old front.last }
    requires first_there { 0 < back.len → ContainsKey nodes.old back.first }
    ensures { IsLinked nodes.old nodes.new front back }
{
    if front.len == 0 || back.len == 0 {
        return;
    }
    get_unchecked_mut(nodes, front.last).next = back.first;
    get_unchecked_mut(nodes, back.first).prev = front.last;
}

/// The key of the node at place k of a list, found from the nearer end.
pub(crate) fn key_at<T>(nodes: &Slab<Node<T>>, ends: Ends, k: usize) -> usize
    requires within { k < ends.len }
    requires path { HasPath nodes.now ends }
    ensures { (ks : List ℕ) → IsPath nodes.now ks → IsEnds ends ks → result ≡ slice_index ks k }
{
    if k < ends.len - k {
        key_forward(nodes, ends, k)
    } else {
        key_backward(nodes, ends, ends.len - 1 - k)
    }
}

// The key of the node `k` places after the first.
fn key_forward<T>(nodes: &Slab<Node<T>>, ends: Ends, k: usize) -> usize
    requires within { k < ends.len }
    requires path { HasPath nodes.now ends }
    ensures { (ks : List ℕ) → IsPath nodes.now ks → IsEnds ends ks → result ≡ slice_index ks k }
{
    let mut key = ends.first;
    for _step in 0..k {
        key = get_unchecked(nodes, key).next;
    }
    key
}

// The key of the node `k` places before the last.
fn key_backward<T>(nodes: &Slab<Node<T>>, ends: Ends, k: usize) -> usize
    requires within { k < ends.len }
    requires path { HasPath nodes.now ends }
    ensures { (ks : List ℕ) → IsPath nodes.now ks → IsEnds ends ks → result ≡ slice_index ks (ends.len - 1 - k) }
{
    let mut key = ends.last;
    for _step in 0..k {
        key = get_unchecked(nodes, key).prev;
    }
    key
}
