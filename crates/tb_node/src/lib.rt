//! The nodes of a vertical list, and their sums. All sizes are in scaled points.
#![tactic(auto)]

mod names;
mod node_sums;
mod roles;
mod same;
mod signals;
mod sizes;

pub use names::name_of;
pub use node_sums::{add, add_box, add_glue, list_sums, stretch_sums};
pub use same::same_lists;
pub use signals::{CLEAR_PENALTY, FOOTNOTES, HOLD_PENALTY, PAR_PENALTY, VERT_PENALTY};
pub use sizes::{list_extent, room_of};
use std::marker::Model;
use tb_param::Change;
use tb_pool::ListId;
use tb_scaled::Glue;

/// A name of 1 to 63 bytes: letters, digits, `.`, `_` and `-`, the first a letter or a digit.
#[derive(Clone, Copy)]
pub struct Name {
    len: u8,
    // The bytes past the name's end are 0.
    bytes: [u8; 63],
}

impl Model for Name {
    ghost use Rattle.std.specs.Prelude.{◌≡◌, ◌<◌, ℕ, List};

    ghost Value = { List ℕ };

    ghost use Rattle.tb_node.specs.NameField.{padded_name, IsNameField, unpadded_name, unpadded_name_ok};

    ghost view = { unpadded_name };

    ghost invariant = { IsNameField };

    ghost inverse = { padded_name };

    ghost inverse_ok = { unpadded_name_ok };
}

impl Name {
    ghost use Rattle.std.specs.Prelude.{◌≡◌};

    /// The bytes of the name.
    pub fn as_bytes(&self) -> &[u8]
        ensures { result.now ≡ self.now }
    {
        &self.bytes[..usize::from(self.len)]
    }
}

/// The side that a marginal note is on.
#[derive(Clone, Copy, PartialEq, Eq)]
pub enum Side {
    /// Left of the column.
    Left,
    /// Right of the column.
    Right,
}

/// Where a float is on a page, or the list that it goes to.
#[derive(Clone, Copy, PartialEq, Eq)]
pub enum Where {
    /// In the text, where it came.
    Here,
    /// At the top of a column.
    Top,
    /// At the bottom of a column.
    Bottom,
    /// In a column of floats.
    Page,
    /// Above two columns, or alone on a page of their width.
    Double,
    /// On no page yet.
    Deferred,
}

/// What a box holds. What is small comes first in `Margin`, so that a node is small too.
#[derive(Clone, Copy)]
pub enum What {
    /// A line of text, or another box of the galley.
    Text(Name),
    /// Nothing.
    Blank,
    /// A float.
    Float {
        /// The float's name.
        name: Name,
        /// Its class.
        class: u8,
        /// Where it is.
        place: Where,
        /// The line of the float in the galley.
        item: u32,
    },
    /// A marginal note.
    Margin {
        /// The note's name.
        name: Name,
        /// The side that it is on.
        side: Side,
        /// The line of the note in the galley.
        item: u32,
        /// By how much it was moved down.
        shift: i64,
        /// The height of the note's own box.
        height: i64,
        /// The depth of the note's own box.
        depth: i64,
    },
}

/// Whose a rule is: an item's of the galley, or the output routine's, which puts it above footnotes or beside floats.
#[derive(Clone, Copy)]
pub enum RuleOf {
    /// An item's, with its name.
    Item(Name),
    /// That above footnotes.
    Footnotes,
    /// That below the floats at the top of a column, above those at its bottom, or below those above a pair.
    Floats,
}

/// An insertion, with the list of its material (TeX: The Program §140).
#[derive(Clone, Copy)]
pub struct Insertion {
    /// Its class.
    pub class: u8,
    /// Its list, which holds no insertion and no act.
    pub list: ListId,
    /// The height plus the depth of its list.
    pub height: i64,
    /// The depth limit of the front of its list, if it is split.
    pub split_depth: i64,
    /// The top skip of the rest, if it is split.
    pub split_top: i64,
    /// The penalty for an insertion that floats to a later page.
    pub floating: i64,
}

/// Where floats can be kept out of a column.
#[derive(Clone, Copy, PartialEq, Eq)]
pub enum Area {
    /// Everywhere: the top, the bottom and the text.
    All,
    /// The top.
    Top,
    /// The bottom.
    Bottom,
}

/// The places that a float may go to.
#[derive(Clone, Copy, PartialEq, Eq)]
pub struct Places {
    /// In the text.
    pub h: bool,
    /// At the top of a column, or above two columns.
    pub t: bool,
    /// At the bottom of a column.
    pub b: bool,
    /// In a column of floats.
    pub p: bool,
}

/// A float as the galley gives it.
#[derive(Clone, Copy)]
pub struct Float {
    /// Its line in the galley.
    pub line: u32,
    /// Its name.
    pub name: Name,
    /// Its class, 1 to 26; floats of one class keep their order.
    pub class: u8,
    /// Whether it is as wide as two columns.
    pub wide: bool,
    /// Where it may go.
    pub places: Places,
    /// Whether it overrides the limits of the areas.
    pub bang: bool,
    /// Its height.
    pub height: i64,
    /// Whether its box has a depth of 1 sp, as that of a double float has from version 3 of the galley on; else its depth
    /// is 0 (ltfloat.dtx, \@endfloatbox).
    pub deep: bool,
    /// Whether no page may end at the place where it came, as below a heading (ltoutput.dtx, \@specialoutput).
    pub nobreak: bool,
}

/// A marginal note as the galley gives it: one box for each side. What is small comes first, so that a node is small too.
#[derive(Clone, Copy)]
pub struct Margin {
    /// Its line in the galley.
    pub line: u32,
    /// Its name.
    pub name: Name,
    /// Whether no page may end at the place where it came, as below a heading (ltoutput.dtx, \@specialoutput).
    pub nobreak: bool,
    /// The height of the left box.
    pub left_height: i64,
    /// The depth of the left box.
    pub left_depth: i64,
    /// The height of the right box.
    pub right_height: i64,
    /// The depth of the right box.
    pub right_depth: i64,
}

/// What the output routine does when the page builder reaches it.
#[derive(Clone, Copy)]
pub enum Act {
    /// Takes a float into the pool.
    Take(Float),
    /// Takes a marginal note into the pool.
    TakeMargin(Margin),
    /// Keeps floats out of an area of this page.
    Suppress(Area),
    /// Changes to one column or to two.
    Columns {
        /// Whether there are two.
        two: bool,
    },
    /// Sets the page number, which is at most 1000000.
    Page(u32),
    /// Puts a title over both columns: a double float of class 0, which waits at the end of its list until the pair is made
    /// (ltoutput.dtx, \@topnewpage).
    Head(Float),
    /// Sets a parameter.
    Set(Change),
}

/// The kinds of node.
#[derive(Clone, Copy)]
pub enum Kind {
    /// A box. Its height and depth are not below 0.
    Hbox {
        /// What it holds.
        what: What,
        /// Its height.
        height: i64,
        /// Its depth.
        depth: i64,
    },
    /// A rule. Its height and depth are not below 0.
    Rule {
        /// Whose it is.
        of: RuleOf,
        /// Its height.
        height: i64,
        /// Its depth.
        depth: i64,
    },
    /// Glue.
    Skip(Glue),
    /// A kern of this width.
    Kern(i64),
    /// A penalty.
    Pen(i64),
    /// A mark.
    Mark(Name),
    /// A note, which takes no room and is reported where it is placed.
    Note(Name),
    /// A node that takes no room and is not reported.
    Whatsit,
    /// An insertion.
    Ins(Insertion),
    /// An act of the output routine.
    Act(Act),
}

/// A node of a vertical list (TeX: The Program §133).
///
/// Each amount in it is at most 1073741823 in absolute value, but an insertion's height and a marginal note's shift; a
/// penalty is at most 1073741824 (that of the end in plain mode is -1073741824).
#[derive(Clone, Copy)]
pub struct Node {
    /// The line of its galley item; 0 for a node that the output routine makes.
    pub line: u32,
    /// Its kind, with what it holds.
    pub kind: Kind,
}

impl Model for Node {
    ghost use Rattle.tb_node.specs.NodeView.{NodeView};

    ghost Value = { NodeView };

    ghost view = { λ n. record { line = n.line; kind = n.kind } };

    ghost inverse = { λ v. record { line = v.line; kind = v.kind } };
}

/// What a node is in a page's list. All but insertions and acts is matter, which may be in any list.
#[derive(Clone, Copy)]
pub enum Role {
    /// A box, a rule, glue, a kern, a penalty, a mark, a note or a whatsit.
    Matter,
    /// An insertion.
    Insertion(Insertion),
    /// An act of the output routine.
    Act(Act),
}

/// The sums of a list's nodes under a depth limit (TeX: The Program §982).
#[derive(Clone, Copy)]
pub struct Sums {
    /// The natural size of the list without its depth.
    pub total: i64,
    /// The depth of the last box or rule, at most the limit; 0 if glue or a kern follows it.
    pub depth: i64,
    /// The stretch of each order: normal, fil, fill, filll.
    pub stretch: [i64; 4],
    /// The shrink.
    pub shrink: i64,
}

/// What a list takes, in sp.
#[derive(Clone, Copy)]
pub struct Extent {
    /// The heights and depths of its boxes and rules, and the widths of its glue and kerns.
    pub room: i64,
    /// The depth of the last box or rule; 0 if glue or a kern follows it.
    pub depth: i64,
}
