//! The first float of the text gets its place.

ghost use Rattle.std.specs.Prelude.{◌≡◌, ◌-◌, [], ◌*◌, slice_get, Bool, true, Some, IfErr, IfSome, OnOk, OnErr};
ghost use Rattle.tb_scaled.specs.Amount.{IsAmount};
ghost use Rattle.tb_pool.specs.Lists.{IsLive};
ghost use Rattle.tb_node.specs.Fit.{IsExtent};
ghost use Rattle.tb_node.specs.declared.Float.{Float as FloatValue};
ghost use Rattle.tb_float.specs.Lists.{HasFloatAt};
ghost use Rattle.tb_float.specs.Pool.{with_float_at};
ghost use Rattle.tb_float.specs.Ranges.{IsSizedEntry};
ghost use Rattle.tb_column.specs.Ranges.{IsSizedGlue};
ghost use Rattle.tb_column.specs.FloatColumns.{made_node, float_box};
ghost use Rattle.tb_output.specs.Text.{only_here, with_top, puts_interline};
ghost use Rattle.tb_output.specs.Machine.{IsMachine};
ghost use Rattle.tb_output.specs.FiringWork.{shows_back, IsCutShort, Does};
ghost use Rattle.tb_output.specs.MachineFrame.{HasFloats, HasGrown, IsBack, KeepsBack};
ghost use Rattle.tb_output.specs.BackList.{here_list};
ghost use Rattle.tb_output.specs.Firing.{IsReach};
ghost use Rattle.tb_output.specs.FloatMoves.{joined_to};
ghost use Rattle.tb_output.specs.FiringParts.{IsColumnPart, IsAreaPart, HasDeferred, place_of, without_first, first_placed, float_placed, float_decided};

use crate::back_list::push_between;
use crate::texts::TextSize;
use crate::{Machine, RunFault};
use std::alloc::AllocError;
use tb_area::add_current;
use tb_column::{float_depth, push_made};
use tb_float::{Entry, Part};
use tb_node::{Float, Kind, Node, Places, What, Where};
use tb_param::Params;
use tb_pool::{ListId, Lists};
use tb_scaled::negate;
use tb_sheet::Warn;

impl Machine {
    /// The first of the current floats and notes gets its place, below a text of this size.
    pub(crate) fn place_first(
        &mut self,
        store: &mut Lists<Node>,
        size: &TextSize,
        vert: bool,
        back: ListId,
    ) -> Result<(), RunFault>
        requires machine { IsMachine self.old store.old }
        requires back { IsBack back self.old store.old }
        requires note_bottom { IsReach self.old.note_bottom }
        requires height { IsAmount size.now.height }
        requires page { IsAmount size.now.page }
        requires depth { IsExtent size.now.depth }
        ensures ok { OnOk result (Does (shows_back back self.old store.old) (shows_back back self.new store.new) (first_placed self.old.params vert size.now)) }
        ensures err { IfErr result (λ e. Does (shows_back back self.old store.old) (IsCutShort e self.new store.new) (first_placed self.old.params vert size.now)) }
        ensures keeps { KeepsBack back [] self.old self.new store.old store.new }
    {
        match self.first_current() {
            Some(Entry::Float(f)) => self.place_float(store, &f, vert, size.page, back),
            Some(Entry::Left(m)) => self.place_margin(store, &m, size, back),
            Some(Entry::Right(_)) => self.put_interline(store, false, back),
            None => self.put_interline(store, false, back),
        }
    }

    // The first of the current floats and notes.
    fn first_current(&self) -> Option<Entry>
        ensures value { result ≡ slice_get self.now.pool.lists.current 0 }
        ensures sized { IfSome result IsSizedEntry }
    {
        match self.pool.entry(Part::Current, 0) {
            Some(entry) => Some(*entry),
            None => None,
        }
    }

    /// The interline penalty goes back; where no page may end, one of 10000 alone.
    pub(crate) fn put_interline(
        &self,
        store: &mut Lists<Node>,
        nobreak: bool,
        back: ListId,
    ) -> Result<(), RunFault>
        requires machine { IsMachine self.now store.old }
        requires back { IsBack back self.now store.old }
        ensures ok { OnOk result (Does (shows_back back self.now store.old) (shows_back back self.now store.new) (puts_interline self.now.params nobreak)) }
        ensures err { IfErr result (λ e. Does (shows_back back self.now store.old) (IsCutShort e self.now store.new) (puts_interline self.now.params nobreak)) }
        ensures keeps { KeepsBack back [] self.now self.now store.old store.new }
    {
        push_between(store, back, self.params.interlinepenalty, nobreak)?;
        Ok(())
    }

    // The first of the current floats goes into the text or to an area, or waits.
    fn place_float(
        &mut self,
        store: &mut Lists<Node>,
        f: &Float,
        vert: bool,
        page_height: i64,
        back: ListId,
    ) -> Result<(), RunFault>
        requires machine { IsMachine self.old store.old }
        requires back { IsBack back self.old store.old }
        requires first { slice_get self.old.pool.lists.current 0 ≡ Some (Entry.Float f.now) }
        requires extent { IsExtent f.now.height }
        requires height { IsAmount page_height }
        ensures ok { OnOk result (Does (shows_back back self.old store.old) (shows_back back self.new store.new) (float_decided self.old.params vert f.now page_height)) }
        ensures err { IfErr result (λ e. Does (shows_back back self.old store.old) (IsCutShort e self.new store.new) (float_decided self.old.params vert f.now page_height)) }
        ensures keeps { KeepsBack back [] self.old self.new store.old store.new }
    {
        let place = add_current(&self.pool, &self.params, &self.suppress, page_height);
        self.place_at(store, f, vert, place, back)
    }

    // The first of the current floats goes to this place.
    fn place_at(
        &mut self,
        store: &mut Lists<Node>,
        f: &Float,
        vert: bool,
        place: Where,
        back: ListId,
    ) -> Result<(), RunFault>
        requires machine { IsMachine self.old store.old }
        requires back { IsBack back self.old store.old }
        requires first { slice_get self.old.pool.lists.current 0 ≡ Some (Entry.Float f.now) }
        requires extent { IsExtent f.now.height }
        ensures ok { OnOk result (Does (shows_back back self.old store.old) (shows_back back self.new store.new) (float_placed self.old.params vert f.now place)) }
        ensures err { IfErr result (λ e. Does (shows_back back self.old store.old) (IsCutShort e self.new store.new) (float_placed self.old.params vert f.now place)) }
        ensures keeps { KeepsBack back [] self.old self.new store.old store.new }
    {
        match place {
            Where::Here => self.place_here(store, f, vert, back),
            Where::Top => self.place_area(store, f, Part::Top, back),
            Where::Bottom => self.place_area(store, f, Part::Bottom, back),
            Where::Page => self.defer(store, f, back),
            Where::Double => self.defer(store, f, back),
            Where::Deferred => self.defer(store, f, back),
        }
    }

    // The float goes into the text.
    fn place_here(
        &mut self,
        store: &mut Lists<Node>,
        f: &Float,
        vert: bool,
        back: ListId,
    ) -> Result<(), RunFault>
        requires machine { IsMachine self.old store.old }
        requires back { IsBack back self.old store.old }
        requires first { slice_get self.old.pool.lists.current 0 ≡ Some (Entry.Float f.now) }
        requires extent { IsExtent f.now.height }
        ensures ok { OnOk result (Does (shows_back back self.old store.old) (shows_back back self.new store.new) (float_placed self.old.params vert f.now Where.Here)) }
        ensures err { IfErr result (λ e. Does (shows_back back self.old store.old) (IsCutShort e self.new store.new) (float_placed self.old.params vert f.now Where.Here)) }
        ensures keeps { KeepsBack back [] self.old self.new store.old store.new }
    {
        self.move_first(Part::Here);
        self.put_interline(store, f.nobreak, back)?;
        push_here(store, &self.params, f, vert, back)?;
        Ok(())
    }

    // The float goes to the top or to the bottom.
    fn place_area(
        &mut self,
        store: &mut Lists<Node>,
        f: &Float,
        to: Part,
        back: ListId,
    ) -> Result<(), RunFault>
        requires machine { IsMachine self.old store.old }
        requires back { IsBack back self.old store.old }
        requires first { slice_get self.old.pool.lists.current 0 ≡ Some (Entry.Float f.now) }
        requires area { IsAreaPart to }
        ensures ok { OnOk result ((vert : Bool) → Does (shows_back back self.old store.old) (shows_back back self.new store.new) (float_placed self.old.params vert f.now (place_of to))) }
        ensures err { IfErr result (λ e. (vert : Bool) → Does (shows_back back self.old store.old) (IsCutShort e self.new store.new) (float_placed self.old.params vert f.now (place_of to))) }
        ensures keeps { KeepsBack back [] self.old self.new store.old store.new }
    {
        self.move_first(to);
        self.put_interline(store, f.nobreak, back)
    }

    // The float waits. One that may go only into the text may go to the top from now on, with a warning.
    fn defer(&mut self, store: &mut Lists<Node>, f: &Float, back: ListId) -> Result<(), RunFault>
        requires machine { IsMachine self.old store.old }
        requires back { IsBack back self.old store.old }
        requires first { slice_get self.old.pool.lists.current 0 ≡ Some (Entry.Float f.now) }
        ensures ok { OnOk result ((vert : Bool) → Does (shows_back back self.old store.old) (shows_back back self.new store.new) (float_placed self.old.params vert f.now Where.Deferred)) }
        ensures err { IfErr result (λ e. (vert : Bool) → Does (shows_back back self.old store.old) (IsCutShort e self.new store.new) (float_placed self.old.params vert f.now Where.Deferred)) }
        ensures keeps { KeepsBack back [] self.old self.new store.old store.new }
    {
        self.defer_first(f)?;
        self.put_interline(store, f.nobreak, back)
    }

    // The float joins those that wait. If there is no memory, all is as before.
    fn defer_first(&mut self, f: &Float) -> Result<(), AllocError>
        requires { slice_get self.old.pool.lists.current 0 ≡ Some (Entry.Float f.now) }
        ensures ok { OnOk result (HasDeferred (only_here f.now) f.now self.old self.new) }
        ensures err { OnErr result (self.new ≡ self.old) }
    {
        if only_here(f) {
            return self.defer_with_top(f);
        }
        self.move_first(Part::Deferred);
        Ok(())
    }

    // The float waits, and may go to the top from now on. If there is no memory, all is as before.
    fn defer_with_top(&mut self, f: &Float) -> Result<(), AllocError>
        requires { slice_get self.old.pool.lists.current 0 ≡ Some (Entry.Float f.now) }
        ensures ok { OnOk result (HasDeferred true f.now self.old self.new) }
        ensures err { OnErr result (self.new ≡ self.old) }
    {
        self.warn(Warn::Ht { name: f.name })?;
        self.let_top(f);
        self.move_first(Part::Deferred);
        Ok(())
    }

    // The first of the current floats goes to the end of another list.
    fn move_first(&mut self, to: Part)
        requires first { HasFloatAt self.old.pool.lists.current 0 }
        requires column { IsColumnPart to }
        ensures { (f : FloatValue) → slice_get self.old.pool.lists.current 0 ≡ Some (Entry.Float f) → HasFloats (joined_to (place_of to) f (without_first self.old.pool.lists)) self.old self.new }
    {
        self.pool.move_to(Part::Current, 0, to);
    }

    // The first of the current floats may go to the top too from now on.
    fn let_top(&mut self, f: &Float)
        requires { slice_get self.old.pool.lists.current 0 ≡ Some (Entry.Float f.now) }
        ensures { self.new ≡ record self.old { pool = with_float_at Part.Current 0 (with_top f.now) self.old.pool } }
    {
        self.pool.set_places(Part::Current, 0, top_too(f.places));
    }
}

// A float in the text goes back, from between paragraphs or within one. If there is no memory, all is as before.
fn push_here(
    store: &mut Lists<Node>,
    p: &Params,
    f: &Float,
    vert: bool,
    back: ListId,
) -> Result<(), AllocError>
    requires back { IsLive store.old back }
    requires parskip { IsSizedGlue p.now.parskip }
    ensures ok { OnOk result (HasGrown back (here_list p.now vert f.now) [] store.old store.new) }
    ensures err { OnErr result (store.new.lists ≡ store.old.lists) }
{
    store.reserve(5)?;
    push_made(store, back, Kind::Skip(p.intextsep));
    push_made(store, back, float_kind(f));
    push_made(store, back, penalty_kind(p));
    push_made(store, back, Kind::Skip(p.intextsep));
    if vert {
        push_made(store, back, Kind::Skip(negate(p.parskip)));
    }
    Ok(())
}

// The interline penalty.
fn penalty_kind(p: &Params) -> Kind
    ensures { made_node result ≡ made_node (Kind.Pen p.now.interlinepenalty) }
{
    Kind::Pen(p.interlinepenalty)
}

// The box of a float in the text.
fn float_kind(f: &Float) -> Kind
    ensures { made_node result ≡ float_box Where.Here f.now }
{
    Kind::Hbox {
        what: What::Float {
            name: f.name,
            class: f.class,
            place: Where::Here,
            item: f.line,
        },
        height: f.height,
        depth: float_depth(f),
    }
}

// Whether a float may go only into the text.
fn only_here(f: &Float) -> bool
    ensures { result ≡ only_here f.now }
{
    f.places.h && !(f.places.t || f.places.b || f.places.p)
}

// These places, and the top.
fn top_too(places: Places) -> Places
    ensures { result ≡ record places { t = true } }
{
    Places { t: true, ..places }
}
