//! Whether two machines show the same, and which has the smaller counts.

ghost use Rattle.std.specs.Prelude.{◌≡◌, ◌%◌, ◌↔◌, true, IsTrue};
ghost use Rattle.tb_output.specs.Machine.{IsMachine};
ghost use Rattle.tb_output.specs.SameMachines.{HasCountsWithin, ShowSame};

use crate::Machine;
use tb_float::Suppress;
use tb_node::{Node, same_lists};
use tb_pool::Lists;

impl Machine {
    /// Whether two machines, each with its store, show the same between two firings, but for their classes, for their counts
    /// (of pages and of firings, and the number of the next page), and for the column that waits for a second one.
    pub fn shows_same(
        &self,
        store: &Lists<Node>,
        other: &Machine,
        other_store: &Lists<Node>,
    ) -> bool
        requires machine { IsMachine self.now store.now }
        requires other_machine { IsMachine other.now other_store.now }
        ensures { IsTrue result ↔ ShowSame store.now self.now other_store.now other.now }
    {
        if !self.numbers_same(other) {
            return false;
        }
        if !self.flags_same(other) {
            return false;
        }
        if !self.pool.holds_same(&other.pool) {
            return false;
        }
        if !same_lists(store, self.held_page, other_store, other.held_page) {
            return false;
        }
        self.params.is_same(&other.params)
    }

    /// Whether this machine has shipped no more pages than another and has fired no more often since, and its marginal notes
    /// go to the same sides, if they may change sides from page to page now or later.
    pub fn counts_within(&self, other: &Machine, may_alternate: bool) -> bool
        ensures { IsTrue result ↔ HasCountsWithin may_alternate self.now other.now }
    {
        if self.page > other.page {
            return false;
        }
        if self.dead_cycles > other.dead_cycles {
            return false;
        }
        self.sides_same(other, may_alternate)
    }

    // Whether the marginal notes of two machines go to the same sides, if they may change sides from page to page.
    fn sides_same(&self, other: &Machine, may_alternate: bool) -> bool
        ensures { IsTrue result ↔ (may_alternate ≡ true → (self.now.number % 2) ≡ (other.now.number % 2)) }
    {
        !may_alternate || self.number % 2 == other.number % 2
    }

    // Whether the numbers of two machines are the same. They differ most often.
    fn numbers_same(&self, other: &Machine) -> bool
        ensures { IsTrue result ↔ ((self.now.goal ≡ other.now.goal) × (self.now.note_bottom ≡ other.now.note_bottom) × (self.now.shrink ≡ other.now.shrink)) }
    {
        self.goal == other.goal
            && self.note_bottom == other.note_bottom
            && self.shrink == other.shrink
    }

    // Whether the flags of two machines are the same.
    fn flags_same(&self, other: &Machine) -> bool
        ensures { IsTrue result ↔ ((self.now.two_columns ≡ other.now.two_columns) × (self.now.first_column ≡ other.now.first_column) × (self.now.suppress ≡ other.now.suppress)) }
    {
        self.two_columns == other.two_columns
            && self.first_column == other.first_column
            && same_suppress(self.suppress, other.suppress)
    }
}

// Whether the same areas are suppressed.
fn same_suppress(a: Suppress, b: Suppress) -> bool
    ensures { IsTrue result ↔ (a ≡ b) }
{
    a.all == b.all && a.top == b.top && a.bottom == b.bottom
}
