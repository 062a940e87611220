//! What pages that are shipped change in the summary.
ghost use Rattle.std.specs.Prelude.{◌≡◌, List};
ghost use Rattle.tb_pool.specs.declared.ListId.{ListId as Id};
ghost use Rattle.tb_pool.specs.Lists.{IsLive};
ghost use Rattle.tb_node.specs.declared.Node.{Node as Stored};
ghost use Rattle.tb_node.specs.PlainNodes.{plain_kind, plain_list};
ghost use Rattle.tb_sheet.specs.StoredSheets.{sheet_shown, sent_shown, IsLiveSheet, IsLiveSent};
ghost use Rattle.tb_story.specs.Summary.{after_box, after_node, after_nodes, after_sheet, after_page, after_sent};
ghost use Rattle.tb_story.specs.Counts.{AreOver, StaysSound};

use crate::stories::{count_over, land_story};
use crate::{Story, Summary};
use tb_node::{Kind, Node, What};
use tb_pool::{ListId, Lists};
use tb_sheet::{Sent, Sheet};

// The story of the float whose box a node is.
fn land_node(stories: &mut [Story], over: usize, page: u64, node: &Node)
    requires { AreOver over stories.old }
    ensures landed { (held : Id → List Stored) → stories.new ≡ after_node page (plain_kind held node.now.kind) stories.old }
    ensures over { AreOver over stories.new }
    ensures sound { StaysSound over stories.old stories.new }
{
    match node.kind {
        Kind::Hbox { what, .. } => land_box(stories, over, page, &what),
        Kind::Rule { .. } => {}
        Kind::Skip(_) => {}
        Kind::Kern(_) => {}
        Kind::Pen(_) => {}
        Kind::Mark(_) => {}
        Kind::Note(_) => {}
        Kind::Whatsit => {}
        Kind::Ins(_) => {}
        Kind::Act(_) => {}
    }
}

// The story of the float that a box holds.
fn land_box(stories: &mut [Story], over: usize, page: u64, what: &What)
    requires { AreOver over stories.old }
    ensures landed { stories.new ≡ after_box page what.now stories.old }
    ensures over { AreOver over stories.new }
    ensures sound { StaysSound over stories.old stories.new }
{
    match what {
        What::Float { place, item, .. } => land_story(stories, over, *item, page, *place),
        What::Text(_) => {}
        What::Blank => {}
        What::Margin { .. } => {}
    }
}

// The stories of the floats in a list.
fn land_list(stories: &mut [Story], over: usize, page: u64, store: &Lists<Node>, list: ListId)
    requires over { AreOver over stories.old }
    requires live { IsLive store.now list }
    ensures landed { stories.new ≡ after_nodes page (plain_list store.now list) stories.old }
    ensures over { AreOver over stories.new }
    ensures sound { StaysSound over stories.old stories.new }
{
    for node in store.iter(list) {
        land_node(stories, over, page, node);
    }
}

// The stories of the floats on a page.
fn land_sheet(stories: &mut [Story], over: usize, page: u64, store: &Lists<Node>, sheet: &Sheet)
    requires over { AreOver over stories.old }
    requires live { IsLiveSheet store.now sheet.now }
    ensures landed { stories.new ≡ after_sheet page (sheet_shown store.now sheet.now) stories.old }
    ensures over { AreOver over stories.new }
    ensures sound { StaysSound over stories.old stories.new }
{
    match sheet {
        Sheet::One(column) => land_list(stories, over, page, store, column.list),
        Sheet::Wide(column) => land_list(stories, over, page, store, column.list),
        Sheet::Two {
            tops,
            left,
            right,
            ..
        } => {
            land_list(stories, over, page, store, *tops);
            land_list(stories, over, page, store, left.list);
            land_list(stories, over, page, store, right.list);
        }
    }
}

impl Summary {
    // The floats on a page were shipped.
    fn note_page(&mut self, page: u64, store: &Lists<Node>, sheet: &Sheet)
        requires { IsLiveSheet store.now sheet.now }
        ensures { self.new ≡ after_page page (sheet_shown store.now sheet.now) self.old }
    {
        land_sheet(&mut self.stories, self.over, page, store, sheet);
        self.over = count_over(&self.stories, self.over);
    }

    /// What is sent out changes this: the floats of a page that is shipped are landed there. A warning changes nothing.
    pub fn note_sent(&mut self, store: &Lists<Node>, sent: &Sent)
        requires { IsLiveSent store.now sent.now }
        ensures { self.new ≡ after_sent (sent_shown store.now sent.now) self.old }
    {
        match sent {
            Sent::Warn(_) => {}
            Sent::Ship { page, sheet } => self.note_page(*page, store, sheet),
        }
    }
}
