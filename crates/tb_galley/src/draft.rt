//! A galley in the making.
ghost use Rattle.std.specs.Prelude.{◌≡◌, OnOk};
ghost use Rattle.tb_galley.specs.Grammar.{with_content, with_foot, with_item, with_set, item_kind};

use crate::contents::Content;
use crate::{Classes, Item, ItemKind, Items, Leaf, LeafKind, Leaves};
use std::alloc::{AllocError, Global};
use tb_node::Name;
use tb_param::{Change, Field, Params, Value};
use tb_scaled::Glue;

/// A foot that is open: its line, its class and its leaves so far.
#[derive(Drop)]
pub struct OpenFoot {
    /// The number of the line of its `foot`.
    pub line: u32,
    /// The class of its insertion.
    pub class: u8,
    /// What is in it so far.
    pub leaves: Leaves,
}

/// What the content lines so far give.
#[derive(Drop)]
pub struct Draft {
    /// The parameters, as they were set so far.
    pub params: Params,
    /// The version, 1, 2 or 3.
    pub version: u8,
    /// The classes of insertions that were declared.
    pub classes: Classes,
    /// The items that are whole.
    pub items: Items,
    /// The footnote that is open, if one is.
    pub foot: Option<OpenFoot>,
    /// The number of the line of `end`; 0 before it.
    pub end_line: u32,
}

impl Draft {
    /// Adds an item.
    #[inline(always)]
    pub fn add_item(&mut self, line: u32, kind: ItemKind) -> Result<(), AllocError>
        ensures { OnOk result (self.new ≡ with_item self.old line kind) }
    {
        self.items.push(Item { line, kind })
    }

    /// Adds a box.
    #[inline(always)]
    pub fn add_box(
        &mut self,
        line: u32,
        name: Name,
        height: i64,
        depth: i64,
    ) -> Result<(), AllocError>
        ensures { OnOk result (self.new ≡ with_content self.old line (Content.Plain (LeafKind.Hbox name height depth))) }
    {
        match &mut self.foot {
            Some(foot) => foot.leaves.push(Leaf {
                line,
                kind: LeafKind::Hbox {
                    name,
                    height,
                    depth,
                },
            }),
            None => self.items.push(Item {
                line,
                kind: ItemKind::Hbox {
                    name,
                    height,
                    depth,
                },
            }),
        }
    }

    /// Adds glue.
    #[inline(always)]
    pub fn add_glue(&mut self, line: u32, glue: Glue) -> Result<(), AllocError>
        ensures { OnOk result (self.new ≡ with_content self.old line (Content.Plain (LeafKind.Skip glue))) }
    {
        match &mut self.foot {
            Some(foot) => foot.leaves.push(Leaf {
                line,
                kind: LeafKind::Skip(glue),
            }),
            None => self.items.push(Item {
                line,
                kind: ItemKind::Skip(glue),
            }),
        }
    }

    /// Adds what may be in a footnote: to the one that is open, if one is.
    #[inline(always)]
    pub fn add_leaf(&mut self, line: u32, kind: LeafKind) -> Result<(), AllocError>
        ensures { OnOk result (self.new ≡ with_content self.old line (Content.Plain kind)) }
    {
        match &mut self.foot {
            Some(foot) => foot.leaves.push(Leaf { line, kind }),
            None => self.items.push(Item {
                line,
                kind: item_kind(kind),
            }),
        }
    }

    /// Begins a foot.
    #[inline(always)]
    pub fn begin_foot(&mut self, alloc: Global, line: u32, class: u8)
        ensures { self.new ≡ with_content self.old line (Content.Foot class) }
    {
        self.foot = Some(OpenFoot {
            line,
            class,
            leaves: Leaves::new(alloc),
        });
    }

    /// Ends the foot that is open, if there is one.
    #[inline(always)]
    pub fn end_foot(&mut self) -> Result<(), AllocError>
        ensures { OnOk result (self.new ≡ with_foot self.old self.old.foot) }
    {
        match self.foot.take() {
            Some(
                OpenFoot {
                    line,
                    class,
                    leaves,
                },
            ) => self.add_item(line, ItemKind::Foot { class, leaves }),
            None => Ok(()),
        }
    }

    /// Sets a parameter: for the whole galley before its items, else as an item.
    #[inline(always)]
    pub fn set(&mut self, line: u32, field: Field, value: Value) -> Result<(), AllocError>
        ensures { OnOk result (self.new ≡ with_set self.old line field value self.old.items) }
    {
        if self.items.is_empty() {
            self.params.put(field, value);
            return Ok(());
        }
        self.add_item(line, ItemKind::Set(Change { field, value }))
    }

    /// Adds what a line says.
    pub fn add(&mut self, alloc: Global, line: u32, content: Content) -> Result<(), AllocError>
        ensures { OnOk result (self.new ≡ with_content self.old line content) }
    {
        match content {
            Content::Header { version } => {
                self.version = version;
                Ok(())
            }
            Content::Set { field, value } => self.set(line, field, value),
            Content::Class(class) => self.classes.declare(class),
            Content::Plain(kind) => self.add_leaf(line, kind),
            Content::Item(kind) => self.add_item(line, kind),
            Content::Foot { class } => {
                self.begin_foot(alloc, line, class);
                Ok(())
            }
            Content::Endfoot => self.end_foot(),
            Content::End => {
                self.end_line = line;
                Ok(())
            }
        }
    }
}

// It is inlined, so that of a kern only the width is copied.
#[inline(always)]
fn item_kind(leaf: LeafKind) -> ItemKind
    ensures { result ≡ item_kind leaf }
{
    match leaf {
        LeafKind::Hbox {
            name,
            height,
            depth,
        } => ItemKind::Hbox {
            name,
            height,
            depth,
        },
        LeafKind::Rule {
            name,
            height,
            depth,
        } => ItemKind::Rule {
            name,
            height,
            depth,
        },
        LeafKind::Skip(glue) => ItemKind::Skip(glue),
        LeafKind::Kern(width) => ItemKind::Kern(width),
        LeafKind::Penalty(penalty) => ItemKind::Penalty(penalty),
    }
}
