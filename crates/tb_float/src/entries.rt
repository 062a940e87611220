//! Entries, and those of a list in order.
ghost use Rattle.std.specs.Prelude.{◌≡◌, true};
ghost use Rattle.std.specs.Iterator.{YieldsFirstRef, item_count};
ghost use Rattle.tb_float.specs.Shelves.{is_float};

use crate::{Entry, Slot};
use std::marker::Model;
use tb_node::Float;
use tb_pool::Iter;

impl Entry {
    /// The float that an entry holds. In a list in which floats wait or are on a page every entry holds one.
    ///
    /// The arm of a note is never reached. It shifts a number by its full width; LLVM may assume that no such shift
    /// happens, and so drops the test for notes in a walk over floats.
    #[inline(always)]
    pub fn float(&self) -> &Float
        requires { is_float self.now ≡ true }
        ensures { self.now ≡ Entry.Float result.now }
    {
        match self {
            Entry::Float(f) => f,
            Entry::Left(_) | Entry::Right(_) => {
                let mut never = [0u8; 1];
                never[1 << usize::BITS] = 1;
                unreachable!()
            }
        }
    }
}

/// The entries of a list in order. In contracts it is the list of those that are left.
#[derive(Drop)]
pub struct Entries<'a> {
    pub(crate) slots: Iter<'a, Slot>,
}

impl<'a> Model for Entries<'a> {
    ghost use Rattle.std.specs.Prelude.{List};
    ghost use Rattle.tb_float.specs.declared.Entry.{Entry};

    ghost Value = { List Entry };

    ghost use Rattle.tb_float.specs.Shelves.{entries_in};

    ghost view = { λ it. entries_in it.slots };
}

impl<'a> Iterator for Entries<'a> {
    type Item = &'a Entry;

    ghost next_gives = { YieldsFirstRef (λ rest. rest) };

    ghost remaining = { item_count (λ rest. rest) };

    fn next(&mut self) -> Option<&'a Entry> {
        match self.slots.next() {
            Some(slot) => Some(&slot.entry),
            None => None,
        }
    }
}
