//! Pages are shipped: of one column, of two, or of wide floats.

ghost use Rattle.std.specs.Prelude.{◌≡◌, ◌≤◌, pos, ◌+◌, ◌+ℤ◌, ◌-ℤ◌, ◌==◌, if◌then◌else◌, ◌∷◌, [], false, Some, IsSome, OnOk, OnErr, IfOk, IfErr, IsTrue, MatchBool};
ghost use Rattle.tb_scaled.specs.Amount.{IsAmount};
ghost use Rattle.tb_pool.specs.Frame.{IsNoneOf};
ghost use Rattle.tb_node.specs.PlainNodes.{plain_list};
ghost use Rattle.tb_float.specs.Lists.{IsWaiting, wide_part};
ghost use Rattle.tb_float.specs.Pool.{HasNoMarks};
ghost use Rattle.tb_node.specs.Fit.{IsDimension, IsExtent};
ghost use Rattle.tb_float.specs.Ranges.{AreFloatParams, IsWithin};
ghost use Rattle.tb_fpage.specs.Choice.{IsChosen};
ghost use Rattle.tb_column.specs.Column.{pair_floats};
ghost use Rattle.tb_column.specs.StoredColumns.{column_shown};
ghost use Rattle.tb_column.specs.Page.{IsPageList, IsPageColumn};
ghost use Rattle.tb_column.specs.Ranges.{IsSizedRule, AreColumnParams};
ghost use Rattle.tb_column.specs.ColumnChanges.{IsOpened};
ghost use Rattle.tb_sheet.specs.Sheet.{rule_room, deep_count, pair_top};
ghost use Rattle.tb_output.specs.Pages.{wide_wanted, all_wide_pages, ship_pair};
ghost use Rattle.tb_output.specs.Machine.{machine_lists, AreOutputParams, IsMachine};
ghost use Rattle.tb_output.specs.FiringWork.{shows, IsCutShort, Does};
ghost use Rattle.tb_output.specs.MachineFrame.{HasFloats, KeepsMachine};
ghost use Rattle.tb_output.specs.PageChanges.{HasShipped, HasNotShipped, without_doubles, without_left, doubled_lists};
ghost use Rattle.tb_output.specs.FiringParts.{wide_done, NoWidePage, ChoosesNone};

use crate::state::pool_size;
use crate::{Machine, RunFault};
use std::alloc::AllocError;
use tb_column::{Column, pair_rule, pair_tops};
use tb_float::{Part, Pool, share_of};
use tb_fpage::choose;
use tb_node::{Float, Node};
use tb_param::{Params, Rule, exceeds};
use tb_pool::{ListId, Lists};
use tb_sheet::{Sent, Sheet};

/// The list in which wide floats wait.
pub(crate) fn wide_part(p: &Params) -> Part
    ensures value { result ≡ wide_part p.now }
    ensures waits { IsWaiting result }
{
    if p.has_second() {
        Part::Second
    } else {
        Part::Deferred
    }
}

// The room of a rule between its kerns.
fn rule_room(above: i64, height: i64, below: i64) -> i64
    requires above { IsDimension above }
    requires height { IsExtent height }
    requires below { IsDimension below }
    ensures value { result ≡ above +ℤ height +ℤ below }
    ensures within { IsWithin 4294967296 result }
{
    above + height + below
}

// How far a rule of this room goes below what a column of this height leaves of a page, if this many wide floats have a
// depth of 1 sp.
fn below_rule(page: i64, column: i64, room: i64, deep: usize) -> i64
    requires page { IsExtent page }
    requires column { IsWithin 35184372088832 column }
    requires room { IsWithin 4294967296 room }
    requires few { deep ≤ 4096 }
    ensures { result ≡ ((page -ℤ column) +ℤ room) +ℤ pos deep }
{
    page - column + room + deep as i64
}

// The rule under this many wide floats: none if there are none.
fn rule_under(doubles: usize, rule: Option<Rule>) -> Option<Rule>
    ensures room { rule_room result ≡ if doubles == 0 then pos 0 else rule_room rule }
    ensures sized { IsSizedRule rule → IsSizedRule result }
{
    if doubles == 0 { None } else { rule }
}

// Where two columns of this height begin on a page of this one, below the rule under its wide floats, of which this many
// have a depth.
fn place_below(page: i64, column: i64, rule: Option<Rule>, deep: usize) -> i64
    requires page { IsExtent page }
    requires column { IsWithin 35184372088832 column }
    requires rule { IsSizedRule rule }
    requires few { deep ≤ 4096 }
    ensures { result ≡ ((page -ℤ column) +ℤ rule_room rule) +ℤ pos deep }
{
    match rule {
        None => below_rule(page, column, 0, deep),
        Some(rule) => {
            let room = rule_room(rule.above, rule.height, rule.below);
            below_rule(page, column, room, deep)
        }
    }
}

// How many of the wide floats above two columns have a depth.
fn deep_doubles(pool: &Pool) -> usize
    ensures value { result ≡ deep_count pool.now.lists.double }
    ensures few { result ≤ 4096 }
{
    let _few = pool.len(Part::Double);
    let mut count = 0;
    for entry in pool.entries(Part::Double) {
        count = with_depth(count, entry.float());
    }
    count
}

// One more if the float has a depth.
fn with_depth(count: usize, f: &Float) -> usize
    requires { count ≤ 4096 }
    ensures { result ≡ count + (if f.now.deep then 1 else 0) }
{
    if f.deep { count + 1 } else { count }
}

impl Machine {
    /// Ships a page with its number, unless `maxpages` allows no more.
    pub(crate) fn ship(&mut self, sheet: Sheet) -> Result<(), RunFault>
        requires first { 1 ≤ self.old.page }
        requires last { self.old.page ≤ 4194305 }
        requires numbered { self.old.number ≤ self.old.page + 1000000 }
        ensures ok { OnOk result (HasShipped sheet self.old self.new) }
        ensures err { IfErr result (λ e. HasNotShipped e self.old self.new) }
    {
        if exceeds(self.page, self.params.maxpages) {
            return Err(RunFault::PageLimit {
                pages: self.page - 1,
            });
        }
        self.events.push(Sent::Ship {
            page: self.number,
            sheet,
        })?;
        self.page += 1;
        self.number += 1;
        self.dead_cycles = 0;
        Ok(())
    }

    /// Ships the second of two columns with the first, under the wide floats of the page, then pages of wide floats
    /// while there are some; the next two columns get theirs (ltoutput.dtx, \@outputdblcol).
    pub(crate) fn ship_pair(
        &mut self,
        store: &mut Lists<Node>,
        right: Column,
    ) -> Result<(), RunFault>
        requires machine { IsMachine self.old store.old }
        requires second { self.old.first_column ≡ false }
        requires column { IsPageColumn store.old right }
        requires apart { IsNoneOf right.list (machine_lists self.old) }
        ensures ok { OnOk result (Does (shows self.old store.old) (shows self.new store.new) (ship_pair self.old.params (column_shown store.old right))) }
        ensures err { IfErr result (λ e. Does (shows self.old store.old) (IsCutShort e self.new store.new) (ship_pair self.old.params (column_shown store.old right))) }
        ensures keeps { KeepsMachine (right.list ∷ []) self.old self.new store.old store.new }
    {
        let left = self.left();
        let at = self.pair_place();
        let tops = self.take_tops(store)?;
        self.ship(Sheet::Two {
            tops,
            at,
            left,
            right,
        })?;
        self.end_pair();
        self.wide_pages(store, false)?;
        self.fill_double();
        Ok(())
    }

    // The first of two columns.
    fn left(&self) -> Column
        requires { IsSome self.now.left_column }
        ensures { self.now.left_column ≡ Some result }
    {
        match self.left_column {
            Some(column) => column,
            None => unreachable!(),
        }
    }

    // How far below the top of a page its two columns begin: below the wide floats with their depths, their rule and their
    // glue.
    fn pair_place(&self) -> i64
        requires { AreColumnParams self.now.params }
        ensures { result ≡ pair_top self.now.params self.now.pool.lists }
    {
        let height = self.pool.column_height(&self.params);
        let rule = rule_under(
            self.pool.len(Part::Double),
            pair_rule(&self.pool, &self.params),
        );
        let deep = deep_doubles(&self.pool);
        place_below(self.params.textheight, height, rule, deep)
    }

    // Puts the wide floats of a page into a list; they leave the pool. If there is no memory, all is as before.
    fn take_tops(&mut self, store: &mut Lists<Node>) -> Result<ListId, AllocError>
        requires params { AreOutputParams self.old.params }
        requires size { pos self.old.pool.size ≡ self.old.params.pool }
        ensures tops { IfOk result (λ l. plain_list store.new l ≡ pair_floats self.old.params self.old.pool.lists) }
        ensures page { IfOk result (λ l. IsPageList store.new l) }
        ensures opened { IfOk result (λ l. IsOpened l store.old store.new) }
        ensures machine { OnOk result (self.new ≡ without_doubles self.old) }
        ensures err { OnErr result (store.new.lists ≡ store.old.lists) }
        ensures same { OnErr result (self.new ≡ self.old) }
    {
        self.events.keep_room(pool_size(&self.params) as usize)?;
        pair_tops(store, &mut self.pool, &self.params)
    }

    // A page of two columns ends, and the next column is a first one.
    fn end_pair(&mut self)
        ensures { self.new ≡ without_left self.old }
    {
        self.left_column = None;
        self.first_column = true;
    }

    /// Ships pages of wide floats while there are some (ltoutput.dtx, \@dblfloatplacement and \@tryfcolumn).
    pub(crate) fn wide_pages(
        &mut self,
        store: &mut Lists<Node>,
        clearing: bool,
    ) -> Result<(), RunFault>
        requires { IsMachine self.old store.old }
        ensures ok { OnOk result (Does (shows self.old store.old) (shows self.new store.new) (all_wide_pages self.old.params clearing)) }
        ensures err { IfErr result (λ e. Does (shows self.old store.old) (IsCutShort e self.new store.new) (all_wide_pages self.old.params clearing)) }
        ensures keeps { KeepsMachine [] self.old self.new store.old store.new }
    {
        for _turn in 0..self.pool.len(wide_part(&self.params)) {
            if !self.ship_wide(store, clearing)? {
                return Ok(());
            }
        }
        Ok(())
    }

    // Ships a page of wide floats; false if there is none.
    fn ship_wide(&mut self, store: &mut Lists<Node>, clearing: bool) -> Result<bool, RunFault>
        requires { IsMachine self.old store.old }
        ensures ok { IfOk result (λ more. MatchBool more (Does (shows self.old store.old) (shows self.new store.new) (wide_done self.old.params clearing)) (NoWidePage clearing self.old self.new store.old store.new)) }
        ensures err { IfErr result (λ e. Does (shows self.old store.old) (IsCutShort e self.new store.new) (wide_done self.old.params clearing)) }
        ensures keeps { KeepsMachine [] self.old self.new store.old store.new }
    {
        if !self.choose_wide(clearing) {
            return Ok(false);
        }
        let from = wide_part(&self.params);
        let height = self.params.textheight;
        let column = self.take_floats(store, height, true, from)?;
        self.ship(Sheet::Wide(column))?;
        Ok(true)
    }

    // Chooses wide floats that wait for a page, if some make one.
    fn choose_wide(&mut self, clearing: bool) -> bool
        requires params { AreOutputParams self.old.params }
        requires unmarked { HasNoMarks self.old.pool }
        ensures chosen { IsTrue result → IsChosen (wide_wanted self.old.params clearing) (wide_part self.old.params) self.old.pool self.new.pool }
        ensures none { result ≡ false → ChoosesNone (wide_part self.old.params) (wide_wanted self.old.params clearing) self.old self.new }
        ensures rest { self.new ≡ record self.old { pool = self.new.pool } }
    {
        let height = self.params.textheight;
        let minimum = share_of(self.params.dblfloatpagefraction, height);
        let sep = self.params.dblfpsep.width;
        let from = wide_part(&self.params);
        choose(&mut self.pool, height, minimum, sep, clearing, true, from)
    }

    // Wide floats that wait go to the top of the next two columns (ltoutput.dtx, \@startdblcolumn).
    fn fill_double(&mut self)
        requires { AreFloatParams self.old.params }
        ensures { HasFloats (doubled_lists self.old) self.old self.new }
    {
        let from = wide_part(&self.params);
        tb_area::fill_double(&mut self.pool, &self.params, from);
    }
}
