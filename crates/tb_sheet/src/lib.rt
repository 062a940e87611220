//! What an output routine sends out: pages as they are shipped, and warnings. Types and their definitions; no code.
#![tactic(auto)]

use tb_column::Column;
use tb_node::Name;
use tb_pool::ListId;

/// A warning of the output routine. All amounts are in scaled points.
#[derive(Clone, Copy)]
pub enum Warn {
    /// A float that is higher than a page.
    Large {
        /// The float's name.
        name: Name,
        /// By how much it is higher.
        by: i64,
    },
    /// A float that was for the text alone and may go to a page's top now.
    Ht {
        /// The float's name.
        name: Name,
    },
    /// A marginal note that is lower than its line.
    Moved {
        /// The note's name.
        name: Name,
        /// By how much it is lower.
        shift: i64,
    },
    /// Floats leave less than a line and a half of a page.
    Floats {
        /// The page's number.
        page: u64,
    },
}

/// A page as it is shipped.
#[derive(Clone, Copy)]
pub enum Sheet {
    /// A page of one column.
    One(Column),
    /// A page of wide floats.
    Wide(Column),
    /// A page of two columns under the wide floats.
    Two {
        /// The list of the wide floats.
        tops: ListId,
        /// Where both columns begin, in scaled points from the page's top.
        at: i64,
        /// The left column.
        left: Column,
        /// The right column.
        right: Column,
    },
}

/// What the output routine sends out.
#[derive(Clone, Copy)]
pub enum Sent {
    /// A warning.
    Warn(Warn),
    /// A page.
    Ship {
        /// Its number.
        page: u64,
        /// Its columns.
        sheet: Sheet,
    },
}
