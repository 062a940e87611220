//! What the routine does at an act: a float or a marginal note is taken, floats are kept out of an area, the columns
//! change, the page number or a parameter is set, or a title over both columns is taken (LaTeX, \@xfloat, \marginpar, \suppressfloats,
//! \twocolumn and \@topnewpage).

ghost use Rattle.std.specs.Prelude.{◌≡◌, ◌<◌, ◌&&◌, true, false, not, pos, List, [], ◌∷◌, OnOk, OnErr, IfErr, IsErr, option_to_list};
ghost use Rattle.tb_pool.specs.Lists.{Lists as ListMap};
ghost use Rattle.tb_node.specs.declared.Node.{Node as NodeValue};
ghost use Rattle.tb_node.specs.PlainNodes.{PlainNode};
ghost use Rattle.tb_node.specs.Fit.{IsExtent};
ghost use Rattle.tb_scaled.specs.Scaled.{min_ℤ};
ghost use Rattle.tb_builder.specs.FiredPages.{Boxed};
ghost use Rattle.tb_builder.specs.Pageable.{IsGoal};
ghost use Rattle.tb_param.specs.Release.{has_second};
ghost use Rattle.tb_float.specs.Lists.{live_count};
ghost use Rattle.tb_float.specs.Pool.{HasNoMarks, with_floats_after};
ghost use Rattle.tb_float.specs.Ranges.{AreFloatParams, IsSizedMargin};
ghost use Rattle.tb_float.specs.Rooms.{column_room_of};
ghost use Rattle.tb_output.specs.Act.{full, large_warning, suppressed, taken_head};
ghost use Rattle.tb_sheet.specs.ApartLists.{AreNoneOf};
ghost use Rattle.tb_output.specs.Machine.{AreOutputParams, IsMachine, machine_lists};
ghost use Rattle.tb_sheet.specs.Asked.{IsSizedAct};
ghost use Rattle.tb_output.specs.ActCalls.{IsActed, acted_in, line_of, TakesNoList, dropped_lists, HasTaken, HasNoRoom, clipped, taken_into, with_float, with_note, with_suppressed, with_columns, with_page_number, with_changed, params_acted, has_title_room, HasTakenTitle, HasNoTitleRoom};

use crate::Machine;
use crate::state::no_suppress;
use tb_float::{Full, Part, Pool, Suppress};
use tb_node::{Act, Area, Float, Margin};
use tb_param::{Change, Params};
use tb_pool::ListId;
use tb_sheet::Warn;

impl Machine {
    /// Does what an act says, when the page builder reaches it. It allocates nothing: room is kept for the warning that
    /// a float is higher than a page.
    ///
    /// Returns Full exactly if the pool has no room for the float, or for both boxes of the marginal note, or if a title
    /// over both columns finds one column, a second one or boxes in the pool; then nothing changes. A change of columns
    /// drops a first column that waits; its list, which `dropped_by` names before the act, stays in the store.
    pub fn act(&mut self, a: Act) -> Result<(), Full>
        requires params { AreOutputParams self.old.params }
        requires pool { pos self.old.pool.size ≡ self.old.params.pool }
        requires act { IsSizedAct a }

        ensures acted { OnOk result ((store : ListMap NodeValue) (boxes : List Boxed) (waiting : List PlainNode) → IsActed store boxes waiting self.old self.new (acted_in store boxes waiting self.old a)) }
        ensures full { IfErr result (λ e. (store : ListMap NodeValue) (boxes : List Boxed) (waiting : List PlainNode) → acted_in store boxes waiting self.old a ≡ full (line_of a) e.live) }
        ensures unchanged { OnErr result (self.new ≡ self.old) }

        ensures machine { (store : ListMap NodeValue) → IsMachine self.old store → IsMachine self.new store }
        ensures params { self.new.params ≡ params_acted self.old.params a }
        ensures fault { self.new.fault ≡ self.old.fault }
        ensures size { self.new.pool.size ≡ self.old.pool.size }
        ensures marks { self.new.pool.marks ≡ self.old.pool.marks }
        ensures lists { TakesNoList self.old self.new }
        ensures dropped { (store : ListMap NodeValue) → IsMachine self.old store → AreNoneOf (dropped_lists a self.old.left_column) (machine_lists self.new) }
    {
        match a {
            Act::Take(f) => self.take_float(f),
            Act::TakeMargin(m) => self.take_note(m),
            Act::Suppress(area) => {
                self.suppress_in(area);
                Ok(())
            }
            Act::Columns { two } => {
                self.begin_columns(two);
                Ok(())
            }
            Act::Page(number) => {
                self.set_number(number);
                Ok(())
            }
            Act::Head(f) => self.take_title(f),
            Act::Set(change) => {
                self.set_parameter(change);
                Ok(())
            }
        }
    }

    /// The list of a first column that waits for the second, if the act changes the columns. After the act it is the
    /// caller's.
    pub fn dropped_by(&self, a: &Act) -> Option<ListId>
        ensures { option_to_list result ≡ dropped_lists a.now self.now.left_column }
    {
        let Act::Columns { two: _ } = a else {
            return None;
        };
        let left = self.left_column?;
        Some(left.list)
    }

    // Takes a float, with a warning if it is higher than a page.
    fn take_float(&mut self, f: Float) -> Result<(), Full>
        requires page { IsExtent self.old.params.textheight }
        requires float { IsExtent f.height }
        ensures ok { OnOk result (HasTaken 1 self.old (with_float f self.old) self.new) }
        ensures err { IfErr result (λ e. HasNoRoom 1 e.live self.old self.new) }
    {
        let warning = large(&f, &self.params);
        let taken = clipped(&f, &self.params, self.two_columns);
        take_into(&mut self.pool, &self.params, taken)?;
        self.events.warn(warning);
        Ok(())
    }

    // Takes a title over both columns, which lowers them: the goal becomes the room that it leaves (latex.ltx,
    // \@topnewpage).
    fn take_title(&mut self, f: Float) -> Result<(), Full>
        requires params { AreOutputParams self.old.params }
        requires float { IsExtent f.height }
        ensures ok { OnOk result (HasTakenTitle f self.old self.new) }
        ensures err { IfErr result (λ e. HasNoTitleRoom e.live self.old self.new) }
    {
        let title = taken_head(&f, &self.params);
        take_above(&mut self.pool, self.two_columns && self.first_column, title)?;
        self.take_room();
        Ok(())
    }

    // Takes both boxes of a marginal note.
    fn take_note(&mut self, m: Margin) -> Result<(), Full>
        requires { IsSizedMargin m }
        ensures ok { OnOk result (HasTaken 2 self.old (with_note m self.old) self.new) }
        ensures err { IfErr result (λ e. HasNoRoom 2 e.live self.old self.new) }
    {
        self.pool.take_margin(m)?;
        Ok(())
    }

    // Keeps floats out of an area of the column that is being made.
    fn suppress_in(&mut self, area: Area)
        ensures { self.new ≡ with_suppressed area self.old }
    {
        match area {
            Area::All => self.suppress.all = true,
            Area::Top => self.suppress.top = true,
            Area::Bottom => self.suppress.bottom = true,
        }
    }

    // The next page has this number.
    fn set_number(&mut self, number: u32)
        ensures { self.new ≡ with_page_number number self.old }
    {
        self.number = u64::from(number);
    }

    // Sets a parameter, which holds from now on; the goal becomes the room of the column.
    fn set_parameter(&mut self, change: Change)
        requires params { AreOutputParams self.old.params }
        ensures set { self.new ≡ with_changed change self.old }
        ensures goal { IsGoal self.new.goal }
    {
        self.params.change(change);
        self.take_room();
    }

    // The goal becomes the room of the column.
    fn take_room(&mut self)
        requires { AreFloatParams self.old.params }
        ensures room { self.new ≡ record self.old { goal = column_room_of self.old.params self.old.pool.lists } }
        ensures goal { IsGoal self.new.goal }
    {
        self.goal = self.column_room();
    }

    // Begins one column or two, and drops a first column that waits.
    fn begin_columns(&mut self, two: bool)
        ensures { self.new ≡ with_columns two self.old }
    {
        self.two_columns = two;
        self.first_column = true;
        self.left_column = None;
        self.suppress = no_suppress();
    }
}

// Puts a float at the end of the current list, or of the list of those that wait for a page.
fn take_into(pool: &mut Pool, p: &Params, f: Float) -> Result<(), Full>
    requires { IsExtent f.height }
    ensures room { OnOk result (live_count pool.old.lists < pool.old.size) }
    ensures taken { OnOk result (pool.new ≡ taken_into p.now f pool.old) }
    ensures unmarked { OnOk result (HasNoMarks pool.old → HasNoMarks pool.new) }
    ensures full { IsErr result → live_count pool.old.lists ≡ pool.old.size }
    ensures shown { IfErr result (λ e. e.live ≡ live_count pool.old.lists) }
    ensures unchanged { OnErr result (pool.new ≡ pool.old) }
{
    let waits = waits_for_page(p, &f);
    pool.take(f)?;
    if !waits {
        return Ok(());
    }
    let last = pool.len(Part::Current) - 1;
    pool.move_to(Part::Current, last, Part::Second);
    Ok(())
}

// Puts a title at the end of the double floats of an empty pool, if it is above the first of two columns.
fn take_above(pool: &mut Pool, above: bool, f: Float) -> Result<(), Full>
    requires { IsExtent f.height }
    ensures room { OnOk result (has_title_room above pool.old ≡ true) }
    ensures taken { OnOk result (pool.new ≡ with_floats_after Part.Double (f ∷ []) pool.old) }
    ensures unmarked { OnOk result (HasNoMarks pool.old → HasNoMarks pool.new) }
    ensures full { IsErr result → has_title_room above pool.old ≡ false }
    ensures shown { IfErr result (λ e. e.live ≡ live_count pool.old.lists) }
    ensures unchanged { OnErr result (pool.new ≡ pool.old) }
{
    let live = pool.live();
    if !above || live != 0 {
        return Err(Full { live });
    }
    pool.take(f)?;
    let last = pool.len(Part::Current) - 1;
    pool.move_to(Part::Current, last, Part::Double);
    Ok(())
}

// In release 2014 a wide float waits for a page at once (ltoutput.dtx, \end@dblfloat).
fn waits_for_page(p: &Params, f: &Float) -> bool
    ensures { result ≡ (has_second p.now && f.now.wide) }
{
    p.has_second() && f.wide
}

// The warning that a float is higher than a page, if it is.
fn large(f: &Float, p: &Params) -> Option<Warn>
    requires float { IsExtent f.now.height }
    requires page { IsExtent p.now.textheight }
    ensures { option_to_list result ≡ large_warning p.now f.now }
{
    if f.height <= p.textheight {
        return None;
    }
    Some(Warn::Large {
        name: f.name,
        by: f.height - p.textheight,
    })
}

// A float as it is taken: no higher than a page, and single in one column; only a double float of release 2015 has a depth.
fn clipped(f: &Float, p: &Params, two_columns: bool) -> Float
    requires float { IsExtent f.now.height }
    requires page { IsExtent p.now.textheight }
    ensures value { result ≡ clipped p.now two_columns f.now }
    ensures extent { IsExtent result.height }
{
    Float {
        height: lesser(f.height, p.textheight),
        wide: f.wide && two_columns,
        deep: keeps_depth(f.deep, two_columns, p.has_second()),
        ..*f
    }
}

// A title as it is taken: a double float that overrides the limits, no higher than a page and without a depth.
fn taken_head(f: &Float, p: &Params) -> Float
    requires float { IsExtent f.now.height }
    requires page { IsExtent p.now.textheight }
    ensures value { result ≡ taken_head p.now f.now }
    ensures extent { IsExtent result.height }
{
    Float {
        wide: true,
        bang: true,
        height: lesser(f.height, p.textheight),
        deep: false,
        ..*f
    }
}

// Whether a float that may have a depth has one: in two columns, if the release has no second list.
fn keeps_depth(deep: bool, two_columns: bool, second: bool) -> bool
    ensures { result ≡ (deep && two_columns && not second) }
{
    deep && two_columns && !second
}

fn lesser(a: i64, b: i64) -> i64
    ensures { result ≡ min_ℤ a b }
{
    if a <= b { a } else { b }
}

// The suppress flags once floats are kept out of this area too.
fn suppressed(s: Suppress, area: Area) -> Suppress
    ensures { result ≡ suppressed s area }
{
    match area {
        Area::All => Suppress { all: true, ..s },
        Area::Top => Suppress { top: true, ..s },
        Area::Bottom => Suppress { bottom: true, ..s },
    }
}
