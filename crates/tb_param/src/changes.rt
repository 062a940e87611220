//! A parameter that is set among the items of a galley.
ghost use Rattle.std.specs.Prelude.{◌≡◌, ◌↔◌, IsTrue, map, if◌then◌else◌};
ghost use Rattle.tb_param.specs.Changes.{row_of_field, set_place, is_in_range, with_whole, changed, Agree};
ghost use Rattle.tb_param.specs.Fields.{with_value};
ghost use Rattle.tb_param.specs.Ranges.{are_params};
ghost use Rattle.tb_param.specs.TableRows.{row_seen};

use crate::ranges::value_fault;
use crate::{Choice, Field, Form, LIVE_PARAMS, Params, Rule, Value};
use tb_scaled::{Glue, Order};

/// Where among the items a parameter may be set.
#[derive(Clone, Copy)]
pub enum SetPlace {
    /// Anywhere but in a footnote.
    Anywhere,
    /// Directly after a clear or a change of columns, when no float waits, or after other parameters that are set there.
    AfterClear,
    /// Nowhere: the value of the galley's first lines holds for all of it.
    Nowhere,
}

/// A parameter and the value that it is set to.
#[derive(Clone, Copy)]
pub struct Change {
    /// Which parameter.
    pub field: Field,
    /// Its value, in the parameter's form.
    pub value: Value,
}

/// Where among the items a parameter may be set.
pub fn set_place(field: Field) -> SetPlace
    ensures { result ≡ set_place field }
{
    match field {
        Field::Pool | Field::Maxdeadcycles | Field::Maxpages | Field::Maxnodes | Field::Release =>
            SetPlace::Nowhere,
        Field::Topskip
        | Field::Maxdepth
        | Field::Baselineskip
        | Field::Bottom
        | Field::Footsplittop
        | Field::Footsplitdepth
        | Field::Footfloating
        | Field::Splittopskip
        | Field::Splitmaxdepth
        | Field::Floatingpenalty
        | Field::Interlinepenalty
        | Field::Parskip
        | Field::Marginparpush
        | Field::Mparswitch
        | Field::Reversemargin
        | Field::Texttop
        | Field::Textbottom
        | Field::Footrule
        | Field::Toprule
        | Field::Bottomrule
        | Field::Dblrule
        | Field::Footdepth
        | Field::Footfill
        | Field::Footplace => SetPlace::Anywhere,
        _ => SetPlace::AfterClear,
    }
}

/// A parameter's name, which it is, and its form.
pub fn row_of_field(field: Field) -> (&'static [u8], Field, Form)
    ensures { row_seen result ≡ row_of_field field }
{
    LIVE_PARAMS[field as usize]
}

impl Params {
    /// Sets a parameter among the items. A value out of its range changes nothing, nor does one of a parameter that holds
    /// for the whole galley.
    pub fn change(&mut self, change: Change)
        ensures changed { self.new ≡ changed self.old change }
        ensures in_range { IsTrue (are_params self.old) → IsTrue (are_params self.new) }
    {
        let before = *self;
        self.put_in_range(change);
        self.keep_whole(&before);
    }

    fn put_in_range(&mut self, change: Change)
        ensures { self.new ≡ (if is_in_range change then with_value change.field change.value self.old else self.old) }
    {
        if value_fault(row_of_field(change.field).2, change.value).is_none() {
            self.put(change.field, change.value);
        }
    }

    // The parameters that hold for a whole galley are as before.
    fn keep_whole(&mut self, before: &Params)
        ensures { self.new ≡ with_whole before.now self.old }
    {
        self.pool = before.pool;
        self.maxdeadcycles = before.maxdeadcycles;
        self.maxpages = before.maxpages;
        self.maxnodes = before.maxnodes;
        self.release = before.release;
    }

    /// Whether two sets of parameters are the same.
    pub fn is_same(&self, other: &Params) -> bool
        ensures { IsTrue result ↔ (self.now ≡ other.now) }
    {
        agree(self, other, &LIVE_PARAMS)
    }
}

impl Change {
    /// Whether two changes are the same.
    pub fn is_same(&self, other: &Change) -> bool
        ensures { IsTrue result ↔ (self.now ≡ other.now) }
    {
        same_fields(self.field, other.field) && self.value.is_same(&other.value)
    }
}

impl Value {
    /// Whether two values are the same, in one form.
    pub fn is_same(&self, other: &Value) -> bool
        ensures { IsTrue result ↔ (self.now ≡ other.now) }
    {
        match (self, other) {
            (Value::Int(a), Value::Int(b)) => *a == *b,
            (Value::Dim(a), Value::Dim(b)) => *a == *b,
            (Value::Skip(a), Value::Skip(b)) => same_glue(a, b),
            (Value::Frac(a), Value::Frac(b)) => *a == *b,
            (Value::Word(a), Value::Word(b)) => same_choices(*a, *b),
            (Value::Rule(a), Value::Rule(b)) => same_rules(*a, *b),
            _ => false,
        }
    }
}

// Whether the parameters of these rows have the same values.
fn agree(a: &Params, b: &Params, rows: &[(&'static [u8], Field, Form)]) -> bool
    ensures { IsTrue result ↔ Agree a.now b.now (map row_seen rows.now) }
{
    for row in rows {
        if !a.value(row.1).is_same(&b.value(row.1)) {
            return false;
        }
    }
    true
}

fn same_fields(a: Field, b: Field) -> bool
    ensures { IsTrue result ↔ (a ≡ b) }
{
    a as u8 == b as u8
}

fn same_orders(a: Order, b: Order) -> bool
    ensures { IsTrue result ↔ (a ≡ b) }
{
    a == b
}

fn same_choices(a: Choice, b: Choice) -> bool
    ensures { IsTrue result ↔ (a ≡ b) }
{
    a as u8 == b as u8
}

fn same_glue(a: &Glue, b: &Glue) -> bool
    ensures { IsTrue result ↔ (a.now ≡ b.now) }
{
    a.width == b.width
        && a.stretch == b.stretch
        && a.shrink == b.shrink
        && same_orders(a.order, b.order)
}

fn same_rules(a: Option<Rule>, b: Option<Rule>) -> bool
    ensures { IsTrue result ↔ (a ≡ b) }
{
    match (a, b) {
        (None, None) => true,
        (Some(a), Some(b)) => a.above == b.above && a.height == b.height && a.below == b.below,
        _ => false,
    }
}
