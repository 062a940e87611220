//! Whether two pools hold the same.

ghost use Rattle.std.specs.Prelude.{◌≡◌, ◌↔◌, [], ◌∷◌, IsTrue};
ghost use Rattle.tb_float.specs.Lists.{entries_of};
ghost use Rattle.tb_float.specs.Same.{HaveSame};

use crate::{Entry, Part, Pool};

impl Entry {
    /// Whether two entries are the same.
    pub fn is_same(&self, other: &Entry) -> bool
        ensures { IsTrue result ↔ (self.now ≡ other.now) }
    {
        match (self, other) {
            (Entry::Float(a), Entry::Float(b)) => a.is_same(b),
            (Entry::Left(a), Entry::Left(b)) => a.is_same(b),
            (Entry::Right(a), Entry::Right(b)) => a.is_same(b),
            _ => false,
        }
    }
}

impl Pool {
    /// Whether two pools hold the same floats and notes in the same lists, each in the same order. Marks are not looked at, nor
    /// how many boxes may live.
    pub fn holds_same(&self, other: &Pool) -> bool
        ensures { IsTrue result ↔ (self.now.lists ≡ other.now.lists) }
    {
        self.waiting_same(other) && self.areas_same(other)
    }

    // Whether the lists outside the areas have the same entries in both pools. They differ most often.
    fn waiting_same(&self, other: &Pool) -> bool
        ensures { IsTrue result ↔ HaveSame self.now.lists other.now.lists (Part.Deferred ∷ Part.Second ∷ Part.Current ∷ []) }
    {
        self.lists_same(other, Part::Deferred)
            && self.lists_same(other, Part::Second)
            && self.lists_same(other, Part::Current)
    }

    // Whether the areas of a page have the same floats in both pools.
    fn areas_same(&self, other: &Pool) -> bool
        ensures { IsTrue result ↔ HaveSame self.now.lists other.now.lists (Part.Top ∷ Part.Bottom ∷ Part.Here ∷ Part.Double ∷ []) }
    {
        self.lists_same(other, Part::Top)
            && self.lists_same(other, Part::Bottom)
            && self.lists_same(other, Part::Here)
            && self.lists_same(other, Part::Double)
    }

    // Whether one of the lists has the same entries in both pools.
    fn lists_same(&self, other: &Pool, part: Part) -> bool
        ensures { IsTrue result ↔ (entries_of part self.now.lists ≡ entries_of part other.now.lists) }
    {
        if self.len(part) != other.len(part) {
            return false;
        }
        let mut others = other.entries(part);
        for entry in self.entries(part) {
            let Some(other_entry) = others.next() else {
                return false;
            };
            if !entry.is_same(other_entry) {
                return false;
            }
        }
        true
    }
}
