//! Reasons: their words, and whether two are told as one.
ghost use Rattle.std.specs.Prelude.{◌≡◌, Some, None};
ghost use Rattle.tb_told.specs.Lines.{test_text};
ghost use Rattle.tb_story.specs.Story.{area_text, cause_text, is_alike, is_same, is_by_places, times_so_far, by_break};
ghost use Rattle.tb_story.specs.Summary.{by_width, by_clear, way_of, kept_by, own_reason, found_with};

use crate::{Area, Cause, Group, Kept};
use tb_node::Float;
use tb_told::Test;

/// The word of what kept a float back.
pub(crate) fn area_text(area: Area) -> &'static [u8]
    ensures { result.now ≡ area_text area }
{
    match area {
        Area::Enter => b"enter",
        Area::Here => b"here",
        Area::Top => b"top",
        Area::Bottom => b"bottom",
        Area::Wide => b"wide",
        Area::Alone => b"alone",
        Area::Joins => b"joins",
        Area::Company => b"company",
        Area::Wait => b"wait",
        Area::Clear => b"clear",
    }
}

/// The word of a test.
fn test_text(test: Test) -> &'static [u8]
    ensures { result.now ≡ test_text test }
{
    match test {
        Test::Places => b"places",
        Test::Wide => b"wide",
        Test::Class => b"class",
        Test::Count => b"count",
        Test::Room => b"room",
        Test::Share => b"share",
        Test::Tall => b"tall",
        Test::Sum => b"sum",
    }
}

/// The word of a cause.
pub(crate) fn cause_text(cause: Cause) -> &'static [u8]
    ensures { result.now ≡ cause_text cause }
{
    match cause {
        Cause::Failed(test) => test_text(test),
        Cause::Back => b"back",
        Cause::Carried => b"carried",
    }
}

/// Whether two reasons are told as one: they have the same words and the same root.
pub(crate) fn is_alike(a: &Kept, b: &Kept) -> bool
    ensures { result ≡ is_alike a.now b.now }
{
    area_text(a.area) == area_text(b.area)
        && cause_text(a.cause) == cause_text(b.cause)
        && a.root.line == b.root.line
}

/// Whether the float may not go there by its own places.
pub(crate) fn is_by_places(cause: Cause) -> bool
    ensures { result ≡ is_by_places cause }
{
    match cause {
        Cause::Failed(test) => matches!(test, Test::Places),
        Cause::Back | Cause::Carried => false,
    }
}

/// How many sheets the reason that goes on has, if this one is alike.
pub(crate) fn times_so_far(k: &Kept, group: &Option<Group>) -> u64
    ensures { result ≡ times_so_far k.now group.now }
{
    match group {
        None => 0,
        Some(g) => { if is_alike(&g.kept, k) { g.times } else { 0 } }
    }
}

/// A break carried the float in the text.
pub(crate) fn by_break(f: &Float) -> Kept
    ensures { result ≡ by_break f.now }
{
    Kept {
        area: Area::Here,
        cause: Cause::Carried,
        root: *f,
        by: 0,
    }
}

/// A wide float of release 2014 waits.
pub(crate) fn by_width(f: &Float) -> Kept
    ensures { result ≡ by_width f.now }
{
    Kept {
        area: Area::Wait,
        cause: Cause::Failed(Test::Wide),
        root: *f,
        by: 0,
    }
}

/// A clear takes the float back.
pub(crate) fn by_clear(f: &Float) -> Kept
    ensures { result ≡ by_clear f.now }
{
    Kept {
        area: Area::Clear,
        cause: Cause::Back,
        root: *f,
        by: 0,
    }
}

/// The reason of a float in the way: what keeps it, or that it is there.
pub(crate) fn way_of(area: Area, b: &Float, kept: Option<Kept>) -> Kept
    ensures { result ≡ way_of area b.now kept }
{
    match kept {
        Some(k) => k,
        None => Kept {
            area,
            cause: Cause::Failed(Test::Class),
            root: *b,
            by: 0,
        },
    }
}

/// Why a float is kept: by this test, or by what keeps the float of its class that is in the way.
pub(crate) fn kept_by(area: Area, test: Test, f: &Float, by: i128, way: Option<Kept>) -> Kept
    ensures { result ≡ kept_by area test f.now by way }
{
    match (test, way) {
        (Test::Class, Some(k)) => k,
        (t, _) => Kept {
            area,
            cause: Cause::Failed(t),
            root: *f,
            by,
        },
    }
}

/// The reason, unless the float of this line is kept by its own places.
pub(crate) fn own_reason(line: u32, found: Option<Kept>) -> Option<Kept>
    ensures { result ≡ own_reason line found }
{
    match found {
        Some(k) => {
            if is_by_places(k.cause) && k.root.line == line {
                None
            } else {
                Some(k)
            }
        }
        None => None,
    }
}

/// What failed first by another test than that of places, or else what failed first.
pub(crate) fn found_with(k: Kept, found: Option<Kept>) -> Kept
    ensures { Some result ≡ found_with k found }
{
    match found {
        None => k,
        Some(first) => {
            if is_by_places(first.cause) && !is_by_places(k.cause) {
                k
            } else {
                first
            }
        }
    }
}
