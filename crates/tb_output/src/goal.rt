//! The goal of the next page.

ghost use Rattle.std.specs.Prelude.{◌≡◌, ◌+ℤ◌, pos, int_div, ◌&&◌, not, [], OnOk, OnErr, IfErr};
ghost use Rattle.tb_builder.specs.Pageable.{IsGoal};
ghost use Rattle.tb_node.specs.Fit.{IsExtent};
ghost use Rattle.tb_float.specs.Ranges.{AreFloatParams};
ghost use Rattle.tb_float.specs.Rooms.{column_room_of};
ghost use Rattle.tb_output.specs.Output.{is_int, is_crowded, leave_column, next_goal};
ghost use Rattle.tb_output.specs.Machine.{IsMachine};
ghost use Rattle.tb_output.specs.FiringWork.{shows_back, IsCutShort, Does};
ghost use Rattle.tb_output.specs.MachineFrame.{IsBack, KeepsBack};
ghost use Rattle.tb_output.specs.PageChanges.{with_warning};

use crate::back_list::push_blanks;
use crate::{Machine, RunFault};
use std::alloc::AllocError;
use tb_node::{HOLD_PENALTY, Node};
use tb_pool::{ListId, Lists};
use tb_scaled::MAX_DIMEN;
use tb_sheet::Warn;

/// Whether the penalty of a break is this one.
pub(crate) fn is_signal(penalty: i64, signal: i64) -> bool
    ensures { result ≡ is_int penalty signal }
{
    penalty == signal
}

// A line and a half.
fn line_and_half(line: i64) -> i64
    requires { IsExtent line }
    ensures { result ≡ line +ℤ int_div line (pos 2) }
{
    line + line / 2
}

impl Machine {
    /// Sets the goal of the next page: the room that floats leave in its column. After a page that is held there is no
    /// limit. If floats leave too little room, the column stays blank and the goal as it was (ltoutput.dtx,
    /// \@startcolumn and \output).
    pub(crate) fn next_goal(
        &mut self,
        store: &mut Lists<Node>,
        penalty: i64,
        back: ListId,
    ) -> Result<(), RunFault>
        requires machine { IsMachine self.old store.old }
        requires back { IsBack back self.old store.old }
        ensures ok { OnOk result (Does (shows_back back self.old store.old) (shows_back back self.new store.new) (next_goal self.old.params penalty)) }
        ensures err { IfErr result (λ e. Does (shows_back back self.old store.old) (IsCutShort e self.new store.new) (next_goal self.old.params penalty)) }
        ensures keeps { KeepsBack back [] self.old self.new store.old store.new }
    {
        if is_signal(penalty, HOLD_PENALTY) {
            self.set_goal(MAX_DIMEN);
            return Ok(());
        }
        let room = self.column_room();
        if self.is_crowded(room) {
            return self.leave_column(store, back);
        }
        self.set_goal(room);
        Ok(())
    }

    // The room that floats leave in the next column.
    pub(crate) fn column_room(&self) -> i64
        requires { AreFloatParams self.now.params }
        ensures value { result ≡ column_room_of self.now.params self.now.pool.lists }
        ensures small { IsGoal result }
    {
        self.pool.column_room(&self.params)
    }

    // Whether that is less than a line and a half, and there are floats.
    fn is_crowded(&self, room: i64) -> bool
        requires { IsExtent self.now.params.baselineskip }
        ensures { result ≡ is_crowded self.now.params room }
    {
        room < line_and_half(self.params.baselineskip) && room < self.params.textheight
    }

    fn set_goal(&mut self, goal: i64)
        ensures { self.new ≡ record self.old { goal = goal } }
    {
        self.goal = goal;
    }

    // The next column stays blank, with a warning; if it is a second one, so does the one after it.
    fn leave_column(&mut self, store: &mut Lists<Node>, back: ListId) -> Result<(), RunFault>
        requires machine { IsMachine self.old store.old }
        requires back { IsBack back self.old store.old }
        ensures ok { OnOk result (Does (shows_back back self.old store.old) (shows_back back self.new store.new) leave_column) }
        ensures err { IfErr result (λ e. Does (shows_back back self.old store.old) (IsCutShort e self.new store.new) leave_column) }
        ensures keeps { KeepsBack back [] self.old self.new store.old store.new }
    {
        push_blanks(store, back, self.is_second())?;
        self.warn_floats()?;
        Ok(())
    }

    // Whether the next column is the second of two.
    fn is_second(&self) -> bool
        ensures { result ≡ (self.now.two_columns && not self.now.first_column) }
    {
        self.two_columns && !self.first_column
    }

    // Warns that floats leave too little of the next page. If there is no memory, all is as before.
    fn warn_floats(&mut self) -> Result<(), AllocError>
        ensures ok { OnOk result (self.new ≡ with_warning (Warn.Floats self.old.number) self.old) }
        ensures err { OnErr result (self.new ≡ self.old) }
    {
        let page = self.number;
        self.warn(Warn::Floats { page })
    }
}
