//! The floats that wait go to the next column, or above both columns of the next page: one walk over their list, which
//! reads until a float has a place, moves it, and goes on behind those that stay. It ends once floats of all classes stay,
//! since no later one can go then. If it is known which floats are the first of their class, it begins with those alone.
ghost use Rattle.std.specs.Prelude.{ℕ, ◌≡◌, ◌<◌, ◌+◌, [], ◌∷◌, ◌++◌, List, true};
ghost use Rattle.tb_node.specs.declared.Float.{Float as PlainFloat};
ghost use Rattle.tb_float.specs.declared.Suppress.{Suppress};
ghost use Rattle.tb_float.specs.Classes.{AreClassesOf, HasLeft};
ghost use Rattle.tb_float.specs.Firsts.{firsts_of};
ghost use Rattle.tb_float.specs.Lists.{IsWaiting, floats_of, has_class};
ghost use Rattle.tb_float.specs.Pool.{HasNoMarks};
ghost use Rattle.tb_float.specs.Ranges.{AreFloatParams, IsExtent};
ghost use Rattle.tb_area.specs.Area.{next_place, double_place};
ghost use Rattle.tb_area.specs.Deferred.{filled, doubled};
ghost use Rattle.tb_area.specs.Laws.{column_order, double_order};
ghost use Rattle.tb_area.specs.DeferredWalk.{FindsNext};

use crate::areas::{double_place, next_place};
use tb_float::{ClassSet, First, Part, Pool, Suppress};
use tb_node::{Float, Where};
use tb_param::Params;

// The floats that were tried and stay: they come first in their list.
#[derive(Drop)]
struct Kept {
    // How many they are.
    count: usize,
    classes: ClassSet,
}

impl Kept {
    // No float was tried yet.
    fn none(pool: &Pool) -> Kept
        ensures count { result.count ≡ 0 }
        ensures classes { AreClassesOf result.classes [] }
        ensures left { (p : Part) → HasLeft result.classes (floats_of p pool.now.lists) }
    {
        Kept {
            count: 0,
            classes: pool.no_classes(),
        }
    }

    // The next float stays too.
    fn keep(&mut self, f: &Float)
        requires { self.old.count < 4096 }
        ensures count { self.new.count ≡ self.old.count + 1 }
        ensures classes { (before : List PlainFloat) → AreClassesOf self.old.classes before → AreClassesOf self.new.classes (before ++ f.now ∷ []) }
        ensures left { (all : List PlainFloat) → has_class f.now.class all ≡ true → HasLeft self.old.classes all → HasLeft self.new.classes all }
    {
        self.classes.add(f.class);
        self.count += 1;
    }
}

/// The deferred floats that have a place at the top or the bottom of the next column go there, one after another (after
/// LaTeX's `\@startcolumn`, ltoutput.dtx); the others stay in order. None is lost, and floats of one class ship in the same
/// order as without this call.
#[inline(always)]
pub fn fill_column(pool: &mut Pool, p: &Params, s: &Suppress)
    requires { AreFloatParams p.now }
    ensures lists { pool.new.lists ≡ filled p.now s.now [] pool.old.lists.deferred pool.old.lists }
    ensures order { (class : ℕ) → column_order class pool.new.lists ≡ column_order class pool.old.lists }
    ensures size { pool.new.size ≡ pool.old.size }
    ensures unmarked { HasNoMarks pool.old → HasNoMarks pool.new }
{
    // Mostly no float waits; then no set of classes is made.
    if pool.len(Part::Deferred) == 0 {
        return;
    }
    fill_waiting(pool, p, s);
}

// The same if floats wait.
fn fill_waiting(pool: &mut Pool, p: &Params, s: &Suppress)
    requires { AreFloatParams p.now }
    ensures lists { pool.new.lists ≡ filled p.now s.now [] pool.old.lists.deferred pool.old.lists }
    ensures order { (class : ℕ) → column_order class pool.new.lists ≡ column_order class pool.old.lists }
    ensures size { pool.new.size ≡ pool.old.size }
    ensures unmarked { HasNoMarks pool.old → HasNoMarks pool.new }
{
    let mut kept = Kept::none(pool);
    for _turn in 0..pool.len(Part::Deferred) {
        match next_moved(pool, p, s, &mut kept) {
            Where::Top => pool.move_to(Part::Deferred, kept.count, Part::Top),
            Where::Bottom => pool.move_to(Part::Deferred, kept.count, Part::Bottom),
            _ => return,
        }
    }
}

// Where the next deferred float goes that has a place in the next column; it comes behind those that stay. It returns
// deferred exactly if none of those that are left has a place.
fn next_moved(pool: &Pool, p: &Params, s: &Suppress, kept: &mut Kept) -> Where
    requires { AreFloatParams p.now }
    ensures { FindsNext Part.Deferred (filled p.now s.now) (next_place p.now pool.now.lists s.now) pool.now.lists kept.old kept.new result }
{
    if kept.count >= pool.len(Part::Deferred) {
        return Where::Deferred;
    }
    if kept.count == 0 {
        if let Some(firsts) = pool.firsts(Part::Deferred) {
            return first_moved(pool, p, s, kept, firsts);
        }
    }
    for entry in pool.entries_from(Part::Deferred, kept.count) {
        let f = entry.float();
        let had = kept.classes.has(f.class);
        match place_behind(pool, p, s, kept, f) {
            Where::Deferred => kept.keep(f),
            place => return place,
        }
        if had {
            continue;
        }
        if kept.classes.is_full() {
            kept.count = pool.len(Part::Deferred);
            return Where::Deferred;
        }
    }
    Where::Deferred
}

// As `next_moved` from the start of the list, given the floats that are the first of their class there: a later one has no
// place while an earlier one of its class stays.
fn first_moved(pool: &Pool, p: &Params, s: &Suppress, kept: &mut Kept, firsts: &[First]) -> Where
    requires params { AreFloatParams p.now }
    requires firsts { firsts.now ≡ firsts_of pool.now.lists.deferred }
    requires start { kept.old.count ≡ 0 }
    ensures { FindsNext Part.Deferred (filled p.now s.now) (next_place p.now pool.now.lists s.now) pool.now.lists kept.old kept.new result }
{
    let all = pool.len(Part::Deferred);
    for first in firsts {
        let f = &first.float;
        // Those between are of classes that stay.
        kept.count = first.place;
        match place_behind(pool, p, s, kept, f) {
            Where::Deferred => kept.keep(f),
            place => return place,
        }
    }
    kept.count = all;
    Where::Deferred
}

// Where a deferred float goes in the next column behind those that stay; a float of their classes stays.
fn place_behind(pool: &Pool, p: &Params, s: &Suppress, kept: &Kept, f: &Float) -> Where
    requires params { AreFloatParams p.now }
    requires extent { IsExtent f.now.height }
    ensures { (before : List PlainFloat) → AreClassesOf kept.now.classes before → result ≡ next_place p.now pool.now.lists s.now before f.now }
{
    if kept.classes.has(f.class) {
        Where::Deferred
    } else {
        next_place(pool, p, s, false, f)
    }
}

/// The floats of a list in which floats wait that have a place above both columns of the next page go there, one after
/// another (after LaTeX's `\@startdblcolumn`, ltoutput.dtx); the others stay in order. None is lost, and floats of one
/// class keep their order.
pub fn fill_double(pool: &mut Pool, p: &Params, from: Part)
    requires params { AreFloatParams p.now }
    requires waiting { IsWaiting from }
    ensures lists { (s : Suppress) → pool.new.lists ≡ doubled from p.now s [] (floats_of from pool.old.lists) pool.old.lists }
    ensures order { (class : ℕ) → double_order from class pool.new.lists ≡ double_order from class pool.old.lists }
    ensures size { pool.new.size ≡ pool.old.size }
    ensures unmarked { HasNoMarks pool.old → HasNoMarks pool.new }
{
    let mut kept = Kept::none(pool);
    for _turn in 0..pool.len(from) {
        match next_double(pool, p, from, &mut kept) {
            Where::Double => pool.move_to(from, kept.count, Part::Double),
            _ => return,
        }
    }
}

// Where the next float of the list goes that has a place above both columns; it comes behind those that stay. It returns
// deferred exactly if none of those that are left has a place.
fn next_double(pool: &Pool, p: &Params, from: Part, kept: &mut Kept) -> Where
    requires params { AreFloatParams p.now }
    requires waiting { IsWaiting from }
    ensures { (s : Suppress) → FindsNext from (doubled from p.now s) (double_place p.now pool.now.lists s) pool.now.lists kept.old kept.new result }
{
    if kept.count >= pool.len(from) {
        return Where::Deferred;
    }
    if kept.count == 0 {
        if let Some(firsts) = pool.firsts(from) {
            return first_double(pool, p, from, kept, firsts);
        }
    }
    for entry in pool.entries_from(from, kept.count) {
        let f = entry.float();
        let had = kept.classes.has(f.class);
        match double_behind(pool, p, kept, f) {
            Where::Deferred => kept.keep(f),
            place => return place,
        }
        if had {
            continue;
        }
        if kept.classes.is_full() {
            kept.count = pool.len(from);
            return Where::Deferred;
        }
    }
    Where::Deferred
}

// As `next_double` from the start of the list, given the floats that are the first of their class there.
fn first_double(pool: &Pool, p: &Params, from: Part, kept: &mut Kept, firsts: &[First]) -> Where
    requires params { AreFloatParams p.now }
    requires waiting { IsWaiting from }
    requires firsts { firsts.now ≡ firsts_of (floats_of from pool.now.lists) }
    requires start { kept.old.count ≡ 0 }
    ensures { (s : Suppress) → FindsNext from (doubled from p.now s) (double_place p.now pool.now.lists s) pool.now.lists kept.old kept.new result }
{
    let all = pool.len(from);
    for first in firsts {
        let f = &first.float;
        // Those between are of classes that stay.
        kept.count = first.place;
        match double_behind(pool, p, kept, f) {
            Where::Deferred => kept.keep(f),
            place => return place,
        }
    }
    kept.count = all;
    Where::Deferred
}

// Where a float of the list goes behind those that stay; a float of their classes stays.
fn double_behind(pool: &Pool, p: &Params, kept: &Kept, f: &Float) -> Where
    requires { AreFloatParams p.now }
    ensures { (s : Suppress) (before : List PlainFloat) → AreClassesOf kept.now.classes before → result ≡ double_place p.now pool.now.lists s before f.now }
{
    if kept.classes.has(f.class) {
        Where::Deferred
    } else {
        double_place(pool, p, false, f)
    }
}
