//! The classes of insertions that a galley declares.

use crate::vectors::push_at;
use std::alloc::{AllocError, Global};
use std::marker::Model;
use tb_param::Rule;
use tb_scaled::Glue;

/// A class of insertions that a galley declares, from version 2 on.
#[derive(Clone, Copy)]
pub struct ClassLine {
    /// The number of its line, from 1.
    pub line: u32,
    /// The number of the class, from 0 to 253.
    pub number: u8,
    /// How many thousandths of an insertion's height count against the page's goal, from 0 to 10000.
    pub factor: i64,
    /// The greatest height of its insertions on a page, in sp; from 0 to 1073741823.
    pub limit: i64,
    /// Whether its insertions stand below the footnotes, and under which rule, if there is one; from version 3 on.
    pub below: Option<Option<Rule>>,
    /// The glue above its insertions.
    pub skip: Glue,
}

/// The classes of a galley. In contracts it is the list of its [`ClassLine`]s, with rising numbers.
#[derive(Drop)]
pub struct Classes {
    items: Vec<ClassLine>,
}

impl Model for Classes {
    ghost use Rattle.std.specs.Prelude.{List, IsTrue};
    ghost use Rattle.tb_galley.specs.declared.classes.ClassLine.{ClassLine};
    ghost use Rattle.tb_galley.specs.Classes.{do_classes_rise};

    ghost Value = { List ClassLine };

    ghost view = { λ a. a.items.items };

    ghost invariant = { λ a. IsTrue (do_classes_rise a.items.items) };
}

impl Classes {
    ghost use Rattle.std.specs.Prelude.{◌≡◌, ◌<◌, ◌≤◌, ◌↔◌, ◌++◌, ◌∷◌, ◌==◌, [], length, slice_get, IfOk, IfErr, OnOk, OnErr, IsNone};
    ghost use Rattle.std.specs.List.{All};
    ghost use Rattle.std.specs.Option.{option_copied};
    ghost use Rattle.tb_galley.specs.Classes.{with_class, IsAt, IsGapFor};

    /// No classes. It takes no memory.
    pub fn new(alloc: Global) -> Classes
        ensures { result ≡ [] }
    {
        Classes {
            items: Vec::new(alloc),
        }
    }

    /// Adds one at the end, whose number is greater than all those before it. If memory runs out, all is as before.
    pub fn push(&mut self, class: ClassLine) -> Result<(), AllocError>
        requires { All (λ c. c.number < class.number) self.old }
        ensures ok { OnOk result (self.new ≡ self.old ++ class ∷ []) }
        ensures err { OnErr result (self.new ≡ self.old) }
    {
        push_at(&mut self.items, class)
    }

    /// Adds one at the place of its number; it replaces one that has this number. If memory runs out, all is as before.
    pub(crate) fn declare(&mut self, class: ClassLine) -> Result<(), AllocError>
        ensures ok { OnOk result (self.new ≡ with_class class self.old) }
        ensures err { OnErr result (self.new ≡ self.old) }
    {
        match self.search(class.number) {
            Ok(place) => {
                self.items[place] = class;
                Ok(())
            }
            Err(place) => Ok(self.items.insert(place, class)?),
        }
    }

    // The place of the class of this number, or the place where it would go.
    fn search(&self, number: u8) -> Result<usize, usize>
        ensures found { IfOk result (IsAt self.now number) }
        ensures absent { IfErr result (IsGapFor self.now number) }
    {
        self.items
            .binary_search_by_key(&number, |class| class.number)
    }

    /// How many there are.
    pub fn len(&self) -> usize
        ensures { result ≡ length self.now }
    {
        self.items.len()
    }

    /// Whether there are none.
    pub fn is_empty(&self) -> bool
        ensures { result ≡ (length self.now == 0) }
    {
        self.items.is_empty()
    }

    /// The one at this place, counted from 0, or `None` exactly if there are no more than `place`.
    pub fn get(&self, place: usize) -> Option<&ClassLine>
        ensures value { option_copied result ≡ slice_get self.now place }
        ensures none { IsNone result ↔ (length self.now ≤ place) }
    {
        self.items.as_slice().get(place)
    }

    /// All of them in order.
    pub fn as_slice(&self) -> &[ClassLine]
        ensures { result.now ≡ self.now }
    {
        self.items.as_slice()
    }
}
