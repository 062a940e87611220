//! Copies of a store.

ghost use Rattle.std.specs.Prelude.{ℕ, List, [], ◌≡◌, ◌+◌, ◌≤◌, ◌++◌, length, OnOk, OnErr, IfOk, IsOk};
ghost use Rattle.std.specs.FinMap.{get as get_list};
ghost use Rattle.std.specs.Option.{option_map};
ghost use Rattle.slab.specs.Slab.{get};
ghost use Rattle.tb_pool.specs.Lists.{IsLive, list_at, with_list};

use crate::{Ends, ListId, Lists};
use slab::Slab;
use std::alloc::AllocError;

impl<T: Clone> Lists<T> {
    /// A copy, of values whose clones are equal to them: the same lists under the same ids, and as many spare places. It
    /// fails only if memory runs out.
    pub fn copy(&self) -> Result<Self, AllocError>
        requires equal { (x y : T) → T.is_clone x y → y ≡ x }
        ensures same { IfOk result (λ s. s ≡ self.now) }
    {
        let heads = self.heads.clone()?;
        let mut nodes = self.nodes.clone()?;
        nodes.reserve(self.spare)?;
        Ok(Lists {
            nodes,
            heads,
            spare: self.spare,
            places: self.places,
        })
    }
}

impl<T: Clone + Drop> Lists<T> {
    /// Makes this store a copy of another one, of values whose clones are equal to them: the same lists under the same
    /// ids, and as many spare places. The nodes are put in anew, in the memory that is there. It fails only if memory runs
    /// out; then the store is as before if no clone of a value can fail, and else holds some of the lists.
    pub fn copy_from(&mut self, other: &Self) -> Result<(), AllocError>
        requires equal { (x y : T) → T.is_clone x y → y ≡ x }
        ensures same { OnOk result (self.new ≡ other.now) }
        ensures err { ((x : T) → T.is_infallible x) → OnErr result (self.new ≡ self.old) }
    {
        self.empty_like(other, other.places)?;
        for index in 0..other.heads.capacity() {
            if other.heads.contains(index) {
                self.push_all(ListId { index }, other)?;
            }
        }
        Ok(())
    }

    // Drops all values, and leaves an empty list under each id that is live in another store, and just so many spare
    // places. If there is no memory, nothing changes.
    fn empty_like(&mut self, other: &Self, places: usize) -> Result<(), AllocError>
        ensures emptied { OnOk result ((q : ℕ) → get_list self.new.lists q ≡ option_map (λ _. []) (get_list other.now.lists q)) }
        ensures spare { OnOk result (self.new.spare ≡ places) }
        ensures err { OnErr result (self.new ≡ self.old) }
    {
        let heads = emptied(&other.heads)?;
        self.nodes.reserve(places.saturating_sub(self.nodes.len()))?;
        self.nodes.clear();
        self.heads = heads;
        self.spare = places;
        self.places = places;
        Ok(())
    }

    // Puts clones of the values of a list of another store at the end of the list with that id, in spare places.
    fn push_all(&mut self, l: ListId, other: &Self) -> Result<(), AllocError>
        requires equal { (x y : T) → T.is_clone x y → y ≡ x }
        requires live { IsLive self.old l }
        requires other_live { IsLive other.now l }
        requires room { length (list_at other.now l) ≤ self.old.spare }
        ensures pushed { OnOk result (self.new.lists ≡ with_list self.old l (list_at self.old l ++ list_at other.now l)) }
        ensures spare { OnOk result (self.new.spare + length (list_at other.now l) ≡ self.old.spare) }
        ensures ok { ((x : T) → T.is_infallible x) → IsOk result }
    {
        for value in other.iter(l) {
            self.push_back(l, value.clone()?);
        }
        Ok(())
    }
}

// The same keys, with the ends of an empty list under each.
fn emptied(heads: &Slab<Ends>) -> Result<Slab<Ends>, AllocError>
    ensures { IfOk result (λ new. (q : ℕ) → get new q ≡ option_map (λ _. record { first = 0; last = 0; len = 0 }) (get heads.now q)) }
{
    let mut new = heads.clone()?;
    for key in 0..heads.capacity() {
        if let Some(ends) = new.get_mut(key) {
            *ends = Ends {
                first: 0,
                last: 0,
                len: 0,
            };
        }
    }
    Ok(new)
}
