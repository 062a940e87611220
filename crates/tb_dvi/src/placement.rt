//! The bytes of a page's items.
ghost use Rattle.std.specs.Prelude.{◌≡◌, ◌++◌, ℤ, pos, negsuc, ◌+ℤ◌, ◌≤ℤ◌, ◌∷◌, [], codes, Option, OnOk};
ghost use Rattle.tb_report.specs.Lines.{side_text};
ghost use Rattle.tb_text.specs.Fields.{and_text};
ghost use Rattle.tb_text.specs.Fronts.{PutsAfter};
ghost use Rattle.tb_node.specs.PlainNodes.{matter_of};
ghost use Rattle.tb_dvi.specs.Placement.{box_spot, rule_label, matter_spot, spot_placed};
ghost use Rattle.tb_dvi.specs.File.{near, rule_bytes, placement_bytes};
ghost use Rattle.tb_dvi.specs.Page.{Writes, Shows};

use crate::file::{put_four, put_low, put_signed};
use std::alloc::AllocError;
use tb_node::{Kind, Name, Node, RuleOf, Side, What, Where};
use tb_report::{put_float_label, put_named, side_text};
use tb_text::{put, put_text};

/// Why an item is not written.
pub(crate) enum PlaceFault {
    /// It is too far up or down.
    Far,
    /// There was no memory.
    Memory,
}

impl From<AllocError> for PlaceFault {
    ghost use Rattle.std.specs.Prelude.{◌≡◌};
    ghost use Rattle.tb_dvi.specs.declared.placement.PlaceFault.TheVariants.{Memory};

    ghost from_gives = { λ _ e. e ≡ Memory };

    fn from(_: AllocError) -> Self {
        PlaceFault::Memory
    }
}

/// How far below its top an item's reference point is, as a height and a depth, and the height of its rule, if it has one.
#[derive(Clone, Copy)]
pub(crate) struct Extent {
    pub height: i64,
    pub depth: i64,
    pub rule: Option<i128>,
}

// A place down the page, if it fits in four bytes.
fn near(v: i128) -> Option<i32>
    ensures { result ≡ near v }
{
    if v < -2147483648 || v > 2147483647 {
        None
    } else {
        Some(v as i32)
    }
}

// The sum of two sizes.
fn sum_of(a: i64, b: i64) -> i128
    ensures { result ≡ a +ℤ b }
{
    i128::from(a) + i128::from(b)
}

// The sum of three sizes.
fn sum_of_three(a: i64, b: i64, c: i64) -> i128
    ensures value { result ≡ a +ℤ b +ℤ c }
    ensures low { negsuc 36893488147419103231 ≤ℤ result }
    ensures high { result ≤ℤ pos 36893488147419103232 }
{
    i128::from(a) + i128::from(b) + i128::from(c)
}

// A place and a size below it, if that fits in four bytes. Past the bound no size brings it back.
#[tactic(auto, using(crate::proofs::NearLemmas::near_bounds))]
fn near_by(top: i128, size: i128) -> Option<i32>
    requires low { negsuc 36893488147419103231 ≤ℤ size }
    requires high { size ≤ℤ pos 36893488147419103232 }
    ensures { result ≡ near (top +ℤ size) }
{
    if top < -1267650600228229401496703205376 || top > 1267650600228229401496703205376 {
        None
    } else {
        near(top + size)
    }
}

// The lower edge of what is this high and deep, its top below the start of its list.
fn foot(at: i64, top: i128, height: i64, depth: i64) -> Option<i32>
    ensures { result ≡ near (at +ℤ top +ℤ (height +ℤ depth)) }
{
    near_by(top, sum_of_three(at, height, depth))
}

// The label of an item with a name.
fn put_name(label: &mut Vec<u8>, word: &[u8], name: &Name) -> Result<(), AllocError>
    ensures { OnOk result (label.new.items ≡ label.old.items ++ (word.now ++ name.now)) }
{
    put_named(label, word, name.as_bytes())
}

fn put_margin(label: &mut Vec<u8>, name: &Name, side: Side) -> Result<(), AllocError>
    ensures { OnOk result (label.new.items ≡ label.old.items ++ (codes "margin " ++ name.now ++ and_text (side_text side))) }
{
    put_name(label, b"margin ", name)?;
    put_text(label, side_text(side))
}

fn put_rule(label: &mut Vec<u8>, of: &RuleOf) -> Result<(), AllocError>
    ensures { OnOk result (label.new.items ≡ label.old.items ++ rule_label of.now) }
{
    match of {
        RuleOf::Item(name) => put_name(label, b"rule ", name),
        RuleOf::Footnotes => put(label, b"footrule"),
        RuleOf::Floats => put(label, b"floatrule"),
    }
}

// A box of text or a rule, whose reference point is at its lower edge.
fn standing(height: i64, depth: i64) -> Option<Extent>
    ensures { result ≡ Some (record { height = height; depth = depth; rule = Some (height +ℤ depth) }) }
{
    Some(Extent {
        height,
        depth,
        rule: Some(sum_of(height, depth)),
    })
}

// A mark or a note, which have no size.
fn at_top() -> Option<Extent>
    ensures { result ≡ Some (record { height = pos 0; depth = pos 0; rule = None }) }
{
    Some(Extent {
        height: 0,
        depth: 0,
        rule: None,
    })
}

// Puts a box's label at the end of an empty text, and returns its extent if it is shown.
fn box_label(
    label: &mut Vec<u8>,
    what: &What,
    height: i64,
    depth: i64,
) -> Result<Option<Extent>, AllocError>
    requires { label.old.items ≡ [] }
    ensures { Shows result label.new.items (box_spot what.now height depth) }
{
    match what {
        What::Text(name) => {
            put_name(label, b"box ", name)?;
            Ok(standing(height, depth))
        }
        What::Blank => Ok(None),
        What::Float {
            name,
            class,
            place,
            ..
        } => {
            put_float_label(label, name, *class, *place)?;
            Ok(Some(Extent {
                height,
                depth: 0,
                rule: Some(i128::from(height)),
            }))
        }
        What::Margin {
            name,
            side,
            shift,
            height,
            depth,
            ..
        } => {
            put_margin(label, name, *side)?;
            Ok(Some(Extent {
                height: *shift,
                depth: *depth,
                rule: Some(sum_of(*height, *depth)),
            }))
        }
    }
}

// The same of a node; most kinds are not shown.
fn node_label(label: &mut Vec<u8>, node: &Node) -> Result<Option<Extent>, AllocError>
    requires { label.old.items ≡ [] }
    ensures { Shows result label.new.items (matter_spot (matter_of node.now.kind)) }
{
    match &node.kind {
        Kind::Hbox {
            what,
            height,
            depth,
        } => box_label(label, what, *height, *depth),
        Kind::Rule { of, height, depth } => {
            put_rule(label, of)?;
            Ok(standing(*height, *depth))
        }
        Kind::Mark(name) => {
            put_name(label, b"mark ", name)?;
            Ok(at_top())
        }
        Kind::Note(name) => {
            put_name(label, b"note ", name)?;
            Ok(at_top())
        }
        Kind::Skip(_) => Ok(None),
        Kind::Kern(_) => Ok(None),
        Kind::Pen(_) => Ok(None),
        Kind::Whatsit => Ok(None),
        Kind::Ins(_) => Ok(None),
        Kind::Act(_) => Ok(None),
    }
}

// A rule of this height and a point of width, if there is one.
fn put_height(out: &mut Vec<u8>, rule: Option<i128>) -> Result<(), AllocError>
    ensures { PutsAfter result out.old.items (rule_bytes rule) out.new.items }
{
    match rule {
        Some(height) => {
            put(out, b"\x89")?;
            put_low(out, height)?;
            put_four(out, 65536)
        }
        None => Ok(()),
    }
}

// A label at a place, and its rule.
fn put_placement(
    out: &mut Vec<u8>,
    h: i32,
    v: i32,
    label: &[u8],
    rule: Option<i128>,
) -> Result<(), AllocError>
    ensures { PutsAfter result out.old.items (placement_bytes (record { h = h; v = v; label = label.now; rule = rule })) out.new.items }
{
    put(out, b"\x8d\xa0")?;
    put_signed(out, v)?;
    put(out, b"\x92")?;
    put_signed(out, h)?;
    put(out, &[239, (label.len() % 256) as u8])?;
    put(out, label)?;
    put_height(out, rule)?;
    put(out, b"\x8e")
}

// The same, if the place fits in four bytes.
fn put_placed(
    out: &mut Vec<u8>,
    h: i32,
    v: Option<i32>,
    label: &[u8],
    rule: Option<i128>,
) -> Result<(), PlaceFault>
    ensures { (place : ℤ) → v ≡ near place → Writes result out.old.items out.new.items (record { h = h; v = place; label = label.now; rule = rule } ∷ []) }
{
    let Some(v) = v else {
        return Err(PlaceFault::Far);
    };
    put_placement(out, h, v, label, rule)?;
    Ok(())
}

/// Writes a node whose top is at + top, `h` to the right; most kinds are not shown. `label` is room for its label.
pub(crate) fn put_node(
    out: &mut Vec<u8>,
    label: &mut Vec<u8>,
    h: i32,
    at: i64,
    node: &Node,
    top: i128,
) -> Result<(), PlaceFault>
    ensures { Writes result out.old.items out.new.items (spot_placed h (at +ℤ top) (matter_spot (matter_of node.now.kind))) }
{
    label.clear();
    let Some(extent) = node_label(label, node)? else {
        return Ok(());
    };
    let v = foot(at, top, extent.height, extent.depth);
    put_placed(out, h, v, label, extent.rule)
}
