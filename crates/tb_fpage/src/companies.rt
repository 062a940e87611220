//! The heads of companies: one walk over the floats that wait finds them, and a walk from each gathers its company; the
//! same walk marks the company that makes the column.
ghost use Rattle.std.specs.Prelude.{ℕ, ◌≡◌, ◌≤◌, ◌<◌, ◌∷◌, ◌++◌, ◌+◌, ◌-◌, IsTrue, List, [], length, map, take, slice_get, Some, None, IfSome, IfNone, OnSome, true, false, ◌||◌, int_lt};
ghost use Rattle.tb_node.specs.declared.Float.{Float as PlainFloat};
ghost use Rattle.tb_float.specs.Classes.{AreClassesOf, AreOfClasses, HasLeft};
ghost use Rattle.tb_float.specs.Firsts.{firsts_of};
ghost use Rattle.tb_float.specs.Lists.{IsWaiting, floats_of, has_class};
ghost use Rattle.tb_float.specs.Pool.{marked_floats, marks_of, with_marks_of};
ghost use Rattle.tb_fpage.specs.Company.{Choice, company, company_height, is_head, is_made};
ghost use Rattle.tb_fpage.specs.Walk.{EndsBy, CompanyEndsBy, IsAfterHead, company_of_place, is_made_at, marks_by};

use crate::Wanted;
use crate::walk::{Walk, suits};
use tb_float::{ClassSet, First, Part, Pool};
use tb_node::Float;

/// A company that is made.
#[derive(Drop)]
pub(crate) struct Company {
    /// A walk that has passed its head.
    walk: Walk,
    /// How many floats there are up to its last one.
    last: usize,
}

/// The company of the first head whose company is made.
pub(crate) fn first_company(pool: &Pool, wanted: &Wanted, from: Part) -> Option<Company>
    requires waiting { IsWaiting from }
    requires few { length (floats_of from pool.now.lists) ≤ 4096 }
    ensures made { IfSome result (λ c. IsAfterHead c.walk wanted.now (floats_of from pool.now.lists)) }
    ensures last { IfSome result (λ c. CompanyEndsBy c.last wanted.now (floats_of from pool.now.lists)) }
    ensures none { IfNone result (company wanted.now (floats_of from pool.now.lists) ≡ None) }
{
    match pool.firsts(from) {
        Some(firsts) => try_firsts(pool, wanted, from, firsts),
        None => try_all(pool, wanted, from),
    }
}

// Tries the floats that are the first of their class: no other is a head.
fn try_firsts(pool: &Pool, wanted: &Wanted, from: Part, firsts: &[First]) -> Option<Company>
    requires waiting { IsWaiting from }
    requires few { length (floats_of from pool.now.lists) ≤ 4096 }
    requires firsts { firsts.now ≡ firsts_of (floats_of from pool.now.lists) }
    ensures made { IfSome result (λ c. IsAfterHead c.walk wanted.now (floats_of from pool.now.lists)) }
    ensures last { IfSome result (λ c. CompanyEndsBy c.last wanted.now (floats_of from pool.now.lists)) }
    ensures none { IfNone result (company wanted.now (floats_of from pool.now.lists) ≡ None) }
{
    let mut earlier = pool.no_classes();
    for first in firsts {
        let f = &first.float;
        if let Some(last) = made_at(pool, wanted, from, first.place, &earlier, f) {
            return Some(Company {
                walk: Walk::after_head(first.place, f.height, earlier),
                last,
            });
        }
        earlier.add(f.class);
    }
    None
}

// Tries all floats that wait, if it is not known which are the first of their class.
fn try_all(pool: &Pool, wanted: &Wanted, from: Part) -> Option<Company>
    requires waiting { IsWaiting from }
    requires few { length (floats_of from pool.now.lists) ≤ 4096 }
    ensures made { IfSome result (λ c. IsAfterHead c.walk wanted.now (floats_of from pool.now.lists)) }
    ensures last { IfSome result (λ c. CompanyEndsBy c.last wanted.now (floats_of from pool.now.lists)) }
    ensures none { IfNone result (company wanted.now (floats_of from pool.now.lists) ≡ None) }
{
    let mut earlier = pool.no_classes();
    let mut place = 0;
    for entry in pool.entries(from) {
        let f = entry.float();
        if let Some(last) = made_at(pool, wanted, from, place, &earlier, f) {
            return Some(Company {
                walk: Walk::after_head(place, f.height, earlier),
                last,
            });
        }
        if fills(&mut earlier, f.class) {
            return None;
        }
        place += 1;
    }
    None
}

// The class is in the set from now on; true only if the set is full by it. A class that was there already fills nothing, so
// that most floats cost no look at what is left.
fn fills(set: &mut ClassSet, class: u8) -> bool
    ensures full { IsTrue result → (fs all : List PlainFloat) → AreClassesOf set.new fs → HasLeft set.new all → AreOfClasses fs all }
    ensures classes { (fs : List PlainFloat) (f : PlainFloat) → f.class ≡ class → AreClassesOf set.old fs → AreClassesOf set.new (fs ++ f ∷ []) }
    ensures left { (all : List PlainFloat) → has_class class all ≡ true → HasLeft set.old all → HasLeft set.new all }
{
    let had = set.has(class);
    set.add(class);
    !had && set.is_full()
}

// Up to which place the company of the float at a place reaches, if that is a head and its company is made; the set has the
// classes of the floats before it.
fn made_at(
    pool: &Pool,
    wanted: &Wanted,
    from: Part,
    place: usize,
    earlier: &ClassSet,
    f: &Float,
) -> Option<usize>
    requires waiting { IsWaiting from }
    requires few { length (floats_of from pool.now.lists) ≤ 4096 }
    requires there { slice_get (floats_of from pool.now.lists) place ≡ Some f.now }
    requires classes { AreClassesOf earlier.now (take place (floats_of from pool.now.lists)) }
    requires left { HasLeft earlier.now (floats_of from pool.now.lists) }
    ensures made { OnSome result (is_made_at wanted.now place (floats_of from pool.now.lists) f.now ≡ true) }
    ensures last { IfSome result (λ last. EndsBy last (company_of_place wanted.now place (floats_of from pool.now.lists) f.now)) }
    ensures none { IfNone result (is_made_at wanted.now place (floats_of from pool.now.lists) f.now ≡ false) }
{
    if !is_head(wanted, earlier, f) {
        return None;
    }
    company_end(pool, wanted, from, place, earlier, f)
}

// The same of a head. Few floats are heads, so this stays out of the walk that looks for them.
#[inline(never)]
fn company_end(
    pool: &Pool,
    wanted: &Wanted,
    from: Part,
    place: usize,
    earlier: &ClassSet,
    f: &Float,
) -> Option<usize>
    requires waiting { IsWaiting from }
    requires few { length (floats_of from pool.now.lists) ≤ 4096 }
    requires there { slice_get (floats_of from pool.now.lists) place ≡ Some f.now }
    requires classes { AreClassesOf earlier.now (take place (floats_of from pool.now.lists)) }
    requires left { HasLeft earlier.now (floats_of from pool.now.lists) }
    ensures made { OnSome result (is_made wanted.now (company_of_place wanted.now place (floats_of from pool.now.lists) f.now) ≡ true) }
    ensures last { IfSome result (λ last. EndsBy last (company_of_place wanted.now place (floats_of from pool.now.lists) f.now)) }
    ensures none { IfNone result (is_made wanted.now (company_of_place wanted.now place (floats_of from pool.now.lists) f.now) ≡ false) }
{
    let company = walk_company(pool, wanted, from, place, earlier, f);
    if is_made(wanted, company.height) {
        Some(company.last)
    } else {
        None
    }
}

// Whether a float is a head, if the set has the classes of the floats before it.
fn is_head(wanted: &Wanted, earlier: &ClassSet, f: &Float) -> bool
    ensures { (before : List PlainFloat) → AreClassesOf earlier.now before → result ≡ is_head wanted.now before f.now }
{
    !earlier.has(f.class) && suits(wanted, f)
}

// Whether a company of this height is made.
fn is_made(wanted: &Wanted, height: i128) -> bool
    ensures { result ≡ (wanted.now.clearing || int_lt wanted.now.minimum height) }
{
    wanted.clearing || i128::from(wanted.minimum) < height
}

// A walk over the company of the float at a place, if the set has the classes of the floats before it.
fn walk_company(
    pool: &Pool,
    wanted: &Wanted,
    from: Part,
    place: usize,
    earlier: &ClassSet,
    f: &Float,
) -> Walk
    requires waiting { IsWaiting from }
    requires few { length (floats_of from pool.now.lists) ≤ 4096 }
    requires there { slice_get (floats_of from pool.now.lists) place ≡ Some f.now }
    requires classes { AreClassesOf earlier.now (take place (floats_of from pool.now.lists)) }
    requires left { HasLeft earlier.now (floats_of from pool.now.lists) }
    ensures height { result.height ≡ company_height wanted.now.sep (company_of_place wanted.now place (floats_of from pool.now.lists) f.now) }
    ensures last { EndsBy result.last (company_of_place wanted.now place (floats_of from pool.now.lists) f.now) }
{
    let mut walk = Walk::after_head(place, f.height, *earlier);
    let least = pool.least_height();
    for entry in pool.entries_from(from, walk.seen) {
        let f = entry.float();
        let had = walk.failed.has(f.class);
        walk.visit(wanted, f);
        if had {
            continue;
        }
        if walk.is_over(wanted, least) {
            return walk;
        }
    }
    walk
}

// A company whose floats lie this near is marked by few flags, which cost nothing to clear.
const NEAR: usize = 256;

/// Marks the floats of a company that is made: its head, which a walk has passed last, and those after it that join.
pub(crate) fn mark_company(pool: &mut Pool, wanted: &Wanted, from: Part, found: Company)
    requires waiting { IsWaiting from }
    requires few { length (floats_of from pool.old.lists) ≤ 4096 }
    requires unmarked { marked_floats from pool.old ≡ [] }
    requires head { IsAfterHead found.walk wanted.now (floats_of from pool.old.lists) }
    requires last { CompanyEndsBy found.last wanted.now (floats_of from pool.old.lists) }
    ensures { (choices : List Choice) × (company wanted.now (floats_of from pool.old.lists) ≡ Some choices) × (pool.new ≡ with_marks_of from (map (λ c. c.chosen) choices) pool.old) }
{
    let end = pool.len(from).min(found.last);
    if end < found.walk.seen + NEAR {
        mark_by(pool, wanted, from, found, &mut near_flags());
    } else {
        mark_by(pool, wanted, from, found, &mut all_flags());
    }
}

fn near_flags() -> [bool; NEAR] {
    [false; NEAR]
}

// A flag for each float that may wait.
fn all_flags() -> [bool; 4096] {
    [false; 4096]
}

// Marks the floats of a company by flags, of which there is one for each float from the head to the last that joins.
fn mark_by(pool: &mut Pool, wanted: &Wanted, from: Part, found: Company, flags: &mut [bool])
    requires waiting { IsWaiting from }
    requires few { length (floats_of from pool.old.lists) ≤ 4096 }
    requires unmarked { marked_floats from pool.old ≡ [] }
    requires marks { length (marks_of from pool.old) ≡ length (floats_of from pool.old.lists) }
    requires head { IsAfterHead found.walk wanted.now (floats_of from pool.old.lists) }
    requires last { CompanyEndsBy found.last wanted.now (floats_of from pool.old.lists) }
    requires some { 0 < length flags.old }
    requires room { (k : ℕ) → k < found.last → k < length (floats_of from pool.old.lists) → k < found.walk.seen - 1 + length flags.old }
    ensures { (choices : List Choice) × (company wanted.now (floats_of from pool.old.lists) ≡ Some choices) × (pool.new ≡ with_marks_of from (map (λ c. c.chosen) choices) pool.old) }
{
    let head = found.walk.seen - 1;
    let count = flag_company(pool, wanted, from, found, flags);
    pool.mark_by(from, head, &flags[..count]);
}

// Sets the flags of a company: the first is that of its head, which a walk has passed last, and each of those behind it says
// whether the next float joins. Returns how many floats the walk passed from the head on.
fn flag_company(
    pool: &Pool,
    wanted: &Wanted,
    from: Part,
    found: Company,
    flags: &mut [bool],
) -> usize
    requires waiting { IsWaiting from }
    requires few { length (floats_of from pool.now.lists) ≤ 4096 }
    requires head { IsAfterHead found.walk wanted.now (floats_of from pool.now.lists) }
    requires last { CompanyEndsBy found.last wanted.now (floats_of from pool.now.lists) }
    requires some { 0 < length flags.old }
    requires room { (k : ℕ) → k < found.last → k < length (floats_of from pool.now.lists) → k < found.walk.seen - 1 + length flags.old }
    ensures few { result ≤ length flags.new }
    ensures within { found.walk.seen - 1 + result ≤ length (floats_of from pool.now.lists) }
    ensures flags { (choices : List Choice) × (company wanted.now (floats_of from pool.now.lists) ≡ Some choices) × (map (λ c. c.chosen) choices ≡ marks_by (found.walk.seen - 1) (take result flags.new) (floats_of from pool.now.lists)) }
{
    let mut walk = found.walk;
    let mut count = 1;
    flags[0] = true;
    for entry in pool.entries_from(from, walk.seen) {
        if walk.seen >= found.last {
            return count;
        }
        let joins = walk.visit(wanted, entry.float());
        flags[count] = joins;
        count += 1;
    }
    count
}
