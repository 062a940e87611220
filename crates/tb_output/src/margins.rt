//! A marginal note gets its place.

ghost use Rattle.std.specs.Prelude.{◌≡◌, ◌-◌, [], slice_get, pos, neg_ℤ, if◌then◌else◌, Some, IfErr, OnOk, OnErr};
ghost use Rattle.tb_scaled.specs.Amount.{IsAmount};
ghost use Rattle.tb_pool.specs.Lists.{IsLive};
ghost use Rattle.tb_node.specs.Fit.{IsExtent};
ghost use Rattle.tb_float.specs.Ranges.{IsSizedMargin};
ghost use Rattle.tb_margin.specs.Margin.{note_height, note_depth};
ghost use Rattle.tb_column.specs.FloatColumns.{made_node};
ghost use Rattle.tb_output.specs.Machine.{AreOutputParams, IsMachine};
ghost use Rattle.tb_output.specs.FiringWork.{shows_back, IsCutShort, Does};
ghost use Rattle.tb_output.specs.MachineFrame.{HasFloats, HasGrown, IsBack, KeepsBack};
ghost use Rattle.tb_output.specs.BackList.{note_list, note_kind};
ghost use Rattle.tb_output.specs.Firing.{IsReach};
ghost use Rattle.tb_output.specs.PageChanges.{with_warning};
ghost use Rattle.tb_output.specs.FiringParts.{note_placed, without_note};

use crate::state::pool_size;
use crate::texts::TextSize;
use crate::{Machine, RunFault};
use std::alloc::AllocError;
use tb_column::push_made;
use tb_float::{Entry, Part};
use tb_margin::{Placed, place_note};
use tb_node::{Kind, Margin, Name, Node, Side, What};
use tb_pool::{ListId, Lists};
use tb_sheet::Warn;

impl Machine {
    /// Puts a marginal note beside the text; its boxes leave the pool.
    pub(crate) fn place_margin(
        &mut self,
        store: &mut Lists<Node>,
        m: &Margin,
        size: &TextSize,
        back: ListId,
    ) -> Result<(), RunFault>
        requires machine { IsMachine self.old store.old }
        requires back { IsBack back self.old store.old }
        requires first { slice_get self.old.pool.lists.current 0 ≡ Some (Entry.Left m.now) }
        requires margin { IsSizedMargin m.now }
        requires note_bottom { IsReach self.old.note_bottom }
        requires height { IsAmount size.now.height }
        requires depth { IsExtent size.now.depth }
        ensures ok { OnOk result (Does (shows_back back self.old store.old) (shows_back back self.new store.new) (note_placed self.old.params size.now m.now)) }
        ensures err { IfErr result (λ e. Does (shows_back back self.old store.old) (IsCutShort e self.new store.new) (note_placed self.old.params size.now m.now)) }
        ensures keeps { KeepsBack back [] self.old self.new store.old store.new }
    {
        let at = place_note(
            m,
            &self.params,
            self.number,
            self.two_columns,
            self.first_column,
            size.height,
            self.note_bottom,
        );
        self.retire_note()?;
        self.set_note_bottom(at.bottom);
        self.warn_moved(m.name, &at)?;
        push_note(store, m, &at, size.depth, back)?;
        self.put_interline(store, m.nobreak, back)
    }

    // The two boxes of a marginal note leave the pool.
    fn retire_note(&mut self) -> Result<(), AllocError>
        requires params { AreOutputParams self.old.params }
        requires pool { pos self.old.pool.size ≡ self.old.params.pool }
        ensures ok { OnOk result (HasFloats (without_note self.old.pool.lists) self.old self.new) }
        ensures err { OnErr result (self.new ≡ self.old) }
    {
        self.events.keep_room(pool_size(&self.params) as usize)?;
        self.pool.retire(Part::Current);
        self.pool.retire(Part::Current);
        Ok(())
    }

    // Sends a warning if the note was moved down. If there is no memory, all is as before.
    fn warn_moved(&mut self, name: Name, at: &Placed) -> Result<(), AllocError>
        ensures ok { OnOk result (self.new ≡ (if at.now.moved then with_warning (Warn.Moved name at.now.shift) self.old else self.old)) }
        ensures err { OnErr result (self.new ≡ self.old) }
    {
        if !at.moved {
            return Ok(());
        }
        self.warn(Warn::Moved {
            name,
            shift: at.shift,
        })
    }

    // Sets how far down the notes of the column reach.
    fn set_note_bottom(&mut self, bottom: i64)
        ensures { self.new ≡ record self.old { note_bottom = bottom } }
    {
        self.note_bottom = bottom;
    }
}

// A marginal note goes back, below text of this depth. If there is no memory, all is as before.
fn push_note(
    store: &mut Lists<Node>,
    m: &Margin,
    at: &Placed,
    depth: i64,
    back: ListId,
) -> Result<(), AllocError>
    requires back { IsLive store.old back }
    requires depth { IsExtent depth }
    ensures ok { OnOk result (HasGrown back (note_list depth m.now at.now) [] store.old store.new) }
    ensures err { OnErr result (store.new.lists ≡ store.old.lists) }
{
    store.reserve(3)?;
    push_made(store, back, up_kind(depth));
    push_made(store, back, note_kind(m, at));
    push_made(store, back, down_kind(depth));
    Ok(())
}

// A kern that goes up by this depth.
fn up_kind(depth: i64) -> Kind
    requires { IsExtent depth }
    ensures { made_node result ≡ made_node (Kind.Kern (neg_ℤ depth)) }
{
    Kind::Kern(-depth)
}

// A blank box of this depth.
fn down_kind(depth: i64) -> Kind
    ensures { made_node result ≡ made_node (Kind.Hbox What.Blank (pos 0) depth) }
{
    Kind::Hbox {
        what: What::Blank,
        height: 0,
        depth,
    }
}

// The box of a marginal note; in the text it has no size.
fn note_kind(m: &Margin, at: &Placed) -> Kind
    ensures { result ≡ note_kind m.now at.now }
{
    Kind::Hbox {
        what: What::Margin {
            name: m.name,
            side: at.side,
            shift: at.shift,
            height: note_height(m, at.side),
            depth: note_depth(m, at.side),
            item: m.line,
        },
        height: 0,
        depth: 0,
    }
}

fn note_height(m: &Margin, side: Side) -> i64
    ensures { result ≡ note_height side m.now }
{
    match side {
        Side::Left => m.left_height,
        Side::Right => m.right_height,
    }
}

fn note_depth(m: &Margin, side: Side) -> i64
    ensures { result ≡ note_depth side m.now }
{
    match side {
        Side::Left => m.left_depth,
        Side::Right => m.right_depth,
    }
}
