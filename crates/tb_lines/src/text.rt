//! Texts of paragraphs.
ghost use Rattle.std.specs.Prelude.{◌≡◌, length};

use std::alloc::{AllocError, Global};
use std::marker::Model;
use tb_node::Name;

/// What a paragraph has. Each dimension is at most 1073741823 sp.
#[derive(Clone, Copy)]
pub enum Item {
    /// A word, which is never broken.
    Word {
        /// The width, in sp.
        width: u32,
        /// The height, in sp.
        height: u32,
        /// The depth, in sp.
        depth: u32,
    },
    /// A space: after a word a line may end there.
    Space {
        /// The natural width, in sp.
        width: u32,
        /// The stretch, in sp.
        stretch: u32,
        /// The shrink, in sp.
        shrink: u32,
    },
    /// A penalty, from -10000 to 10000. A line may end there if it is below 10000, and must at -10000.
    Penalty(i16),
}

/// The parameters of a text.
#[derive(Clone, Copy)]
pub struct LineParams {
    /// The width of a line in sp, at least 1.
    pub hsize: u32,
    /// The greatest badness of a line, at most 10000.
    pub tolerance: u32,
    /// What is added to the badness of each line before it is squared, at most 10000 (TeX: The Program §859).
    pub line_penalty: u32,
    /// The penalty after a paragraph's first line, at most 5000.
    pub club_penalty: u32,
    /// The penalty before a paragraph's last line, at most 5000.
    pub widow_penalty: u32,
    /// From baseline to baseline, in sp.
    pub baseline_skip: u32,
    /// Between lines that are too high or too deep for `baseline_skip`, in sp.
    pub line_skip: u32,
    /// Before each paragraph but the first, in sp.
    pub par_skip: u32,
}

/// The items of a paragraph in order, at most 5000. In contracts it is the list of its [`Item`]s.
#[derive(Drop)]
pub struct Items {
    items: Vec<Item>,
}

impl Model for Items {
    ghost use Rattle.std.specs.Prelude.{◌≤◌, List, length};
    ghost use Rattle.tb_lines.specs.declared.text.Item.{Item};

    ghost Value = { List Item };

    ghost view = { λ a. a.items.items };

    ghost invariant = { λ a. length a.items.items ≤ 5000 };
}

impl Items {
    ghost use Rattle.std.specs.Prelude.{◌≡◌, ◌<◌, ◌≤◌, ◌++◌, ◌∷◌, [], length, OnOk};

    /// No items. It takes no memory.
    pub(crate) fn new(alloc: Global) -> Items
        ensures { result ≡ [] }
    {
        Items {
            items: Vec::new(alloc),
        }
    }

    /// Adds one at the end.
    pub(crate) fn push(&mut self, item: Item) -> Result<(), AllocError>
        requires { length self.old < 5000 }
        ensures { OnOk result (self.new ≡ self.old ++ item ∷ []) }
    {
        self.items.push(item)?;
        Ok(())
    }

    /// How many there are.
    pub fn len(&self) -> usize
        ensures { result ≡ length self.now }
    {
        self.items.len()
    }

    /// All of them in order.
    pub fn as_slice(&self) -> &[Item]
        ensures items { result.now ≡ self.now }
        ensures few { length self.now ≤ 5000 }
    {
        self.items.as_slice()
    }
}

/// A paragraph: its name, which has at most 58 bytes, and its items.
#[derive(Drop)]
pub struct Paragraph {
    /// The name, of at most 58 bytes.
    pub name: Name,
    /// The items, at most 5000.
    pub items: Items,
}

/// The paragraphs of a text in order. In contracts it is the list of its [`Paragraph`]s.
#[derive(Drop)]
pub struct Paragraphs {
    items: Vec<Paragraph>,
}

impl Model for Paragraphs {
    ghost use Rattle.std.specs.Prelude.{List};
    ghost use Rattle.tb_lines.specs.declared.text.Paragraph.{Paragraph};

    ghost Value = { List Paragraph };

    ghost view = { λ a. a.items.items };
}

impl Paragraphs {
    ghost use Rattle.std.specs.Prelude.{◌≡◌, ◌++◌, ◌∷◌, [], length, OnOk};

    /// No paragraphs. It takes no memory.
    pub(crate) fn new(alloc: Global) -> Paragraphs
        ensures { result ≡ [] }
    {
        Paragraphs {
            items: Vec::new(alloc),
        }
    }

    /// Adds one at the end.
    pub(crate) fn push(&mut self, paragraph: Paragraph) -> Result<(), AllocError>
        ensures { OnOk result (self.new ≡ self.old ++ paragraph ∷ []) }
    {
        self.items.push(paragraph)?;
        Ok(())
    }

    /// How many there are.
    pub fn len(&self) -> usize
        ensures { result ≡ length self.now }
    {
        self.items.len()
    }

    /// All of them in order.
    pub fn as_slice(&self) -> &[Paragraph]
        ensures { result.now ≡ self.now }
    {
        self.items.as_slice()
    }
}

/// What a text says: its parameters and its paragraphs.
#[derive(Drop)]
pub struct Text {
    /// The parameters.
    pub params: LineParams,
    /// The paragraphs, in order.
    pub paragraphs: Paragraphs,
}

impl Text {
    /// The number of its paragraphs.
    pub fn paragraphs(&self) -> usize
        ensures { result ≡ length self.now.paragraphs }
    {
        self.paragraphs.len()
    }
}
