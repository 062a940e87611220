//! The places of a galley: the items before which a page break may be put in.

ghost use Rattle.std.specs.Prelude.{◌≡◌, ◌++◌, false, IfOk, OnOk};
ghost use Rattle.tb_plans.specs.Places.{before_by, if_place, is_call, is_glue, is_looked_past, is_place, lets_glue_break, past, places_of};
ghost use Rattle.tb_plans.specs.Walk.{kern_place, open_kern, passed, walked};
ghost use Rattle.tb_galley.specs.GalleyNodes.{two_after};
ghost use Rattle.tb_galley.specs.Valid.{IsValid};

use std::alloc::{AllocError, Global};
use tb_galley::{Galley, ItemKind};
use tb_param::Params;
use tb_scaled::{EJECT_PENALTY, INF_PENALTY};

/// What is before an item, with items that are looked past left out.
#[derive(Clone, Copy)]
pub enum Before {
    /// Nothing: it is the first item.
    Nothing,
    /// A box, a rule, a mark, a note, a footnote or the insertion of a page that is made higher: glue after it is a legal breakpoint (TeX: The Program §1000).
    Nondiscardable,
    /// A float or a marginal note, which was called between the lines around it.
    Call,
    /// Anything else.
    Other,
}

// What a walk over items knows where it is: the columns, what is before, and a kern that is a place if glue follows.
#[derive(Clone, Copy)]
struct Walk {
    two: bool,
    before: Before,
    kern: Option<u32>,
}

/// The places of a valid galley, rising: the numbers of its items, counted from 0, before which a page break may be put in. They
/// are the legal breakpoints among its items, but for forced breaks, and the places between two lines right after the call
/// of a float or of a marginal note. The first item is no place.
///
/// It fails only if memory runs out.
pub fn places(alloc: Global, galley: &Galley) -> Result<Vec<u32>, AllocError>
    requires { IsValid galley.now }
    ensures { IfOk result (λ v. v.items ≡ places_of galley.now) }
{
    let mut found = Vec::new(alloc);
    let mut walk = Walk {
        two: false,
        before: Before::Nothing,
        kern: None,
    };
    for (k, item) in galley.items.as_slice().iter().enumerate() {
        if is_looked_past(&galley.params, walk.two, &item.kind) {
            walk = passed(walk);
        } else {
            walk = visit(&mut found, walk, k as u32, &item.kind)?;
        }
    }
    Ok(found)
}

// Appends what an item that is not looked past makes known: the place of a kern before it, and its own.
fn visit(found: &mut Vec<u32>, walk: Walk, k: u32, kind: &ItemKind) -> Result<Walk, AllocError>
    ensures found { OnOk result (found.new.items ≡ found.old.items ++ kern_place walk.kern (is_glue kind.now) ++ if_place k (is_place false walk.before kind.now)) }
    ensures walk { IfOk result (λ w. w ≡ walked walk k kind.now) }
{
    if let Some(kern) = walk.kern {
        push_if(found, kern, is_glue(kind))?;
    }
    push_if(found, k, is_place(walk.before, kind))?;
    Ok(walked(walk, k, kind))
}

fn push_if(found: &mut Vec<u32>, place: u32, here: bool) -> Result<(), AllocError>
    ensures { OnOk result (found.new.items ≡ found.old.items ++ if_place place here) }
{
    if here {
        found.push(place)?;
    }
    Ok(())
}

// An item that gives acts alone is looked past.
fn is_looked_past(p: &Params, two: bool, kind: &ItemKind) -> bool
    ensures { result ≡ is_looked_past p.now two kind.now }
{
    match kind {
        ItemKind::Float { float, vert: _ } => p.has_second() && two && float.wide,
        ItemKind::Suppress(_) | ItemKind::Page(_) | ItemKind::Head(_) | ItemKind::Set(_) => true,
        _ => false,
    }
}

fn is_glue(kind: &ItemKind) -> bool
    ensures { result ≡ is_glue kind.now }
{
    matches!(kind, ItemKind::Skip(_))
}

// An item is a place, whatever follows it.
fn is_place(before: Before, kind: &ItemKind) -> bool
    ensures { result ≡ is_place false before kind.now }
{
    if let Before::Nothing = before {
        return false;
    }
    match kind {
        ItemKind::Hbox { .. }
        | ItemKind::Rule { .. }
        | ItemKind::Kern(_)
        | ItemKind::Mark(_)
        | ItemKind::Note(_)
        | ItemKind::Foot { .. } => is_call(before),
        ItemKind::Skip(_) => lets_glue_break(before),
        ItemKind::Penalty(penalty) => EJECT_PENALTY < *penalty && *penalty < INF_PENALTY,
        ItemKind::PageBreak(degree) => *degree < 4,
        ItemKind::NoPageBreak(degree) => *degree < 4,
        _ => false,
    }
}

fn is_call(before: Before) -> bool
    ensures { result ≡ is_call before }
{
    matches!(before, Before::Call)
}

fn lets_glue_break(before: Before) -> bool
    ensures { result ≡ lets_glue_break before }
{
    matches!(before, Before::Nondiscardable | Before::Call)
}

fn passed(walk: Walk) -> Walk
    ensures { result ≡ passed walk }
{
    Walk {
        before: past(walk.before),
        ..walk
    }
}

fn past(before: Before) -> Before
    ensures { result ≡ past before }
{
    match before {
        Before::Nothing => Before::Other,
        _ => before,
    }
}

fn walked(walk: Walk, k: u32, kind: &ItemKind) -> Walk
    ensures { result ≡ walked walk k kind.now }
{
    Walk {
        two: two_after(walk.two, kind),
        before: before_by(kind),
        kern: open_kern(walk.before, k, kind),
    }
}

fn two_after(two: bool, kind: &ItemKind) -> bool
    ensures { result ≡ two_after two kind.now }
{
    match kind {
        ItemKind::OneColumn => false,
        ItemKind::TwoColumn => true,
        _ => two,
    }
}

fn before_by(kind: &ItemKind) -> Before
    ensures { result ≡ before_by kind.now }
{
    match kind {
        ItemKind::Hbox { .. }
        | ItemKind::Rule { .. }
        | ItemKind::Mark(_)
        | ItemKind::Note(_)
        | ItemKind::Foot { .. }
        | ItemKind::Enlarge { .. } => Before::Nondiscardable,
        ItemKind::Float { .. } => Before::Call,
        ItemKind::Margin { .. } => Before::Call,
        _ => Before::Other,
    }
}

// A kern that is a place exactly if glue follows it.
fn open_kern(before: Before, k: u32, kind: &ItemKind) -> Option<u32>
    ensures { result ≡ open_kern before k kind.now }
{
    let may_open = matches!(before, Before::Nondiscardable | Before::Other);
    if may_open && matches!(kind, ItemKind::Kern(_)) {
        Some(k)
    } else {
        None
    }
}
