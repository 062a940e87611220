//! The totals of a run.
ghost use Rattle.std.specs.Prelude.{◌≡◌, ◌+◌, ◌<◌, [], true, false};
ghost use Rattle.tb_pool.specs.Lists.{IsLive};
ghost use Rattle.tb_node.specs.PlainNodes.{plain, matter_of};
ghost use Rattle.tb_report.specs.RunTotals.{is_item_box, is_float_box};

use crate::Totals;
use tb_node::{Kind, Node, RuleOf, What};
use tb_pool::{ListId, Lists};
use tb_sheet::{Sent, Sheet};

impl Totals {
    ghost use Rattle.std.specs.Prelude.{◌≡◌};
    ghost use Rattle.tb_pool.specs.Lists.{IsLive};
    ghost use Rattle.tb_node.specs.PlainNodes.{plain, matter_of, plain_list};
    ghost use Rattle.tb_sheet.specs.StoredSheets.{sheet_shown, sent_shown, IsLiveSheet, IsLiveSent};
    ghost use Rattle.tb_report.specs.RunTotals.{with_kind, with_nodes, with_sent, no_totals, sheet_nodes, AreCounts};

    /// Nothing is shipped yet.
    pub fn new() -> Self
        ensures { result ≡ no_totals }
    {
        Totals {
            pages: 0,
            boxes: 0,
            floats: 0,
            warnings: 0,
        }
    }

    /// Counts a warning, or a page with the boxes, rules and floats on it: boxes and rules that came from items alone.
    pub fn count(&mut self, store: &Lists<Node>, s: &Sent)
        requires live { IsLiveSent store.now s.now }
        requires room { AreCounts (with_sent (sent_shown store.now s.now) self.old) }
        ensures { self.new ≡ with_sent (sent_shown store.now s.now) self.old }
    {
        match s {
            Sent::Warn(_) => self.warnings += 1,
            Sent::Ship { sheet, .. } => {
                self.pages += 1;
                self.count_sheet(store, sheet);
            }
        }
    }

    #[tactic(auto, using(crate::proofs::CountLemmas::count_steps))]
    fn count_sheet(&mut self, store: &Lists<Node>, sheet: &Sheet)
        requires live { IsLiveSheet store.now sheet.now }
        requires room { AreCounts (with_nodes (sheet_nodes (sheet_shown store.now sheet.now)) self.old) }
        ensures { self.new ≡ with_nodes (sheet_nodes (sheet_shown store.now sheet.now)) self.old }
    {
        match sheet {
            Sheet::One(column) => self.count_list(store, column.list),
            Sheet::Wide(column) => self.count_list(store, column.list),
            Sheet::Two {
                tops,
                left,
                right,
                ..
            } => {
                self.count_list(store, *tops);
                self.count_list(store, left.list);
                self.count_list(store, right.list);
            }
        }
    }

    fn count_list(&mut self, store: &Lists<Node>, list: ListId)
        requires live { IsLive store.now list }
        requires room { AreCounts (with_nodes (plain_list store.now list) self.old) }
        ensures { self.new ≡ with_nodes (plain_list store.now list) self.old }
    {
        for node in store.iter(list) {
            self.count_node(node);
        }
    }

    // Counts a box or a rule that came from an item, or the box of a float. The kinds are tested one by one, so that no
    // table of jumps is made of them.
    fn count_node(&mut self, node: &Node)
        requires room { AreCounts (with_kind (plain (matter_of node.now.kind)) self.old) }
        ensures { self.new ≡ with_kind (plain (matter_of node.now.kind)) self.old }
    {
        if is_item(node) {
            self.boxes += 1;
        } else if is_float(node) {
            self.floats += 1;
        }
    }
}

// Whether a node is a box or a rule that came from an item.
fn is_item(node: &Node) -> bool
    ensures item { result ≡ is_item_box (plain (matter_of node.now.kind)) }
    ensures no_float { result ≡ true → is_float_box (plain (matter_of node.now.kind)) ≡ false }
{
    matches!(
        node.kind,
        Kind::Hbox {
            what: What::Text(_),
            ..
        } | Kind::Rule {
            of: RuleOf::Item(_),
            ..
        }
    )
}

// Whether a node is the box of a float.
fn is_float(node: &Node) -> bool
    ensures { result ≡ is_float_box (plain (matter_of node.now.kind)) }
{
    matches!(
        node.kind,
        Kind::Hbox {
            what: What::Float { .. },
            ..
        }
    )
}
