//! The classes of a builder with the lists of their boxes, each found by its number at once.

ghost use Rattle.std.specs.Prelude.{◌≡◌, ◌==◌, ◌<◌, ◌++◌, ◌∷◌, [], length, position, slice_set, slice_index_or, IfOk, OnOk};
ghost use Rattle.tb_builder.specs.declared.ClassList.{ClassList as Entry};

use crate::ClassList;
use std::alloc::{AllocError, Global};
use std::marker::Model;

/// The classes with the lists of their boxes, in the order in which they were given.
#[derive(Drop)]
pub(crate) struct ClassLists {
    items: Vec<ClassList>,
    // The place of the first class of each number.
    places: [Option<usize>; 256],
}

impl Model for ClassLists {
    ghost use Rattle.std.specs.Prelude.{List};
    ghost use Rattle.tb_builder.specs.declared.ClassList.{ClassList as Entry};

    ghost Value = { List Entry };

    ghost use Rattle.tb_builder.specs.ClassPlaces.{ArePlaces};

    ghost view = { λ s. s.items.items };

    ghost invariant = { λ s. ArePlaces s.items.items s.places };
}

impl ClassLists {
    /// No classes, with room for this many.
    pub(crate) fn with_capacity(alloc: Global, count: usize) -> Result<Self, AllocError>
        ensures { IfOk result (λ v. v ≡ []) }
    {
        Ok(ClassLists {
            items: Vec::with_capacity(alloc, count)?,
            places: [None; 256],
        })
    }

    /// Puts a class behind the others.
    pub(crate) fn push(&mut self, entry: ClassList) -> Result<(), AllocError>
        ensures { OnOk result (self.new ≡ self.old ++ entry ∷ []) }
    {
        let number = entry.class.number;
        let place = self.items.len();
        self.items.push(entry)?;
        let number = usize::from(number);
        if self.places[number].is_none() {
            self.places[number] = Some(place);
        }
        Ok(())
    }

    /// A copy. It fails only if memory runs out.
    pub(crate) fn copy(&self, alloc: Global) -> Result<Self, AllocError>
        ensures { IfOk result (λ copy. copy ≡ self.now) }
    {
        Ok(ClassLists {
            items: self.items.to_vec(alloc)?,
            places: self.places,
        })
    }

    /// Becomes a copy of another in place. It fails only if memory runs out.
    pub(crate) fn copy_from(&mut self, other: &Self, alloc: Global) -> Result<(), AllocError>
        ensures { OnOk result (self.new ≡ other.now) }
    {
        self.items = other.items.to_vec(alloc)?;
        self.places = other.places;
        Ok(())
    }

    /// The classes in order.
    pub(crate) fn as_slice(&self) -> &[ClassList]
        ensures { result.now ≡ self.now }
    {
        &self.items
    }

    /// The place of the first class of this number.
    pub(crate) fn find(&self, number: u8) -> Option<usize>
        ensures { result ≡ position (λ e. e.class.number == number) self.now }
    {
        self.places[usize::from(number)]
    }

    /// The class at a place.
    pub(crate) fn entry(&self, place: usize) -> ClassList
        requires { place < length self.now }
        ensures { result ≡ slice_index_or self.now place result }
    {
        self.items[place]
    }

    /// Sets whether the box of the class at a place is void.
    pub(crate) fn set_void(&mut self, place: usize, void: bool)
        requires { place < length self.old }
        ensures { (e : Entry) → e ≡ slice_index_or self.old place e → self.new ≡ slice_set self.old place (record e { void = void }) }
    {
        self.items[place].void = void;
    }
}
