//! Generated galleys: large valid inputs, each made from a number.
#![tactic(auto)]

ghost use Rattle.std.specs.Prelude.{◌≡◌, ◌<◌, ◌≤◌, ◌∷◌, ◌++◌, [], true, drop, IfOk, OnOk};
ghost use Rattle.tb_param.specs.Defaults.{glue_points};
ghost use Rattle.tb_node.specs.Names.{is_alphanumeric, is_name};
ghost use Rattle.tb_galley.specs.Valid.{IsValid};
ghost use Rattle.tb_generator.specs.GeneratedGalleys.{next_seed, letter_number, made_box, made_foot, made_float, made_by, made_item, made_params, generated};
ghost use Rattle.tb_generator.specs.BoxNames.{IsBoxName};

use itoa::write_digits;
use std::alloc::{AllocError, Global};
use tb_galley::{Classes, Galley, Item, ItemKind, Items, Leaf, LeafKind, Leaves};
use tb_node::{FOOTNOTES, Float, Name, Places, name_of};
use tb_param::{Choice, Params, defaults};
use tb_scaled::{Glue, Order};

// One point in scaled points.
const POINT: i64 = 65_536;

// A box is 7pt high and 2pt deep.
const HEIGHT: i64 = 7 * POINT;

const DEPTH: i64 = 2 * POINT;

const TBP: Places = Places {
    h: false,
    t: true,
    b: true,
    p: true,
};

const HTP: Places = Places {
    h: true,
    t: true,
    b: false,
    p: true,
};

// The name of a box, from a place in the text to its end, and the tens of its number.
#[derive(Clone, Copy)]
struct BoxName {
    text: [u8; 6],
    start: usize,
    tens: u32,
}

// The name of a box with the number 0.
fn box_zero() -> BoxName
    ensures { IsBoxName result }
{
    BoxName {
        text: *b"\0\0\0\0b0",
        start: 4,
        tens: 0,
    }
}

/// The galley of version 1 with `n` items, 1 to 40000. Item k has line k: a box if k is odd, else glue, a footnote or a
/// float, chosen by a sequence of numbers that begins with `n`.
///
/// It fails only if memory runs out.
pub fn generate(alloc: Global, n: u32) -> Result<Galley, AllocError>
    requires some { 1 ≤ n }
    requires few { n ≤ 40000 }
    ensures generated { IfOk result (λ g. g ≡ generated n) }
    ensures valid { IfOk result IsValid }
{
    let mut items = Items::with_capacity(alloc, n as usize)?;
    let mut seed = u64::from(n);
    let mut last = box_zero();
    for k in 1..n + 1 {
        seed = next_seed(seed);
        push_made(&mut items, alloc, k, seed, &mut last)?;
    }
    Ok(Galley {
        params: made_params(),
        version: 1,
        classes: Classes::new(alloc),
        items,
        end_line: n + 1,
    })
}

// The next number of the sequence.
fn next_seed(seed: u64) -> u64
    requires { seed < 2147483648 }
    ensures next { result ≡ next_seed seed }
    ensures small { result < 2147483648 }
{
    (seed * 1_103_515_245 + 12_345) % 2_147_483_648
}

#[tactic(auto, unfolding(crate::specs::GeneratedGalleys::made_params, tb_param::specs::Defaults::default_params))]
fn made_params() -> Params
    ensures { result ≡ made_params }
{
    Params {
        bottom: Choice::Flush,
        pool: 4096,
        maxdeadcycles: 1_000_000,
        ..defaults()
    }
}

// Appends the item in a place, by the number of the sequence there. Most are boxes or glue: they are made in place.
#[inline(always)]
fn push_made(
    items: &mut Items,
    alloc: Global,
    k: u32,
    seed: u64,
    last: &mut BoxName,
) -> Result<(), AllocError>
    requires few { k ≤ 40000 }
    requires last { IsBoxName last.old }
    ensures pushed { OnOk result (items.new ≡ items.old ++ record { line = k; kind = made_item k seed } ∷ []) }
    ensures last { IsBoxName last.new }
{
    if k % 2 == 1 {
        return push_box(items, k, last);
    }
    push_by(items, alloc, k, seed, seed / 65_536 % 32)
}

// Appends the item in an even place, by a number below 32.
fn push_by(items: &mut Items, alloc: Global, k: u32, seed: u64, draw: u64) -> Result<(), AllocError>
    requires { k ≤ 40000 }
    ensures { OnOk result (items.new ≡ items.old ++ record { line = k; kind = made_by k seed draw } ∷ []) }
{
    if draw < 28 {
        push_glue(items, k)
    } else if draw < 30 {
        push_foot(items, alloc, k)
    } else if draw == 30 {
        push_float(items, k, 1, TBP, 50 + (seed % 50) as u32)
    } else {
        push_float(items, k, 2, HTP, 20 + (seed % 30) as u32)
    }
}

// Appends an item with this line.
#[inline(always)]
fn push(items: &mut Items, line: u32, kind: ItemKind) -> Result<(), AllocError>
    ensures { OnOk result (items.new ≡ items.old ++ record { line = line; kind = kind } ∷ []) }
{
    items.push(Item { line, kind })
}

#[inline(always)]
fn push_glue(items: &mut Items, k: u32) -> Result<(), AllocError>
    ensures { OnOk result (items.new ≡ items.old ++ record { line = k; kind = ItemKind.Skip (glue_points 3 1 0) } ∷ []) }
{
    push(items, k, ItemKind::Skip(glue()))
}

#[inline(always)]
fn push_box(items: &mut Items, k: u32, last: &mut BoxName) -> Result<(), AllocError>
    requires few { k ≤ 40000 }
    requires last { IsBoxName last.old }
    ensures pushed { OnOk result (items.new ≡ items.old ++ record { line = k; kind = made_box k } ∷ []) }
    ensures last { IsBoxName last.new }
{
    name_box(last, k);
    push_led(items, k, &last.text, last.start)
}

// Makes this the name of a box. The box before most often has the same tens: then only the last digit changes.
#[inline(always)]
fn name_box(last: &mut BoxName, k: u32)
    requires last { IsBoxName last.old }
    requires few { k ≤ 40000 }
    ensures last { IsBoxName last.new }
    ensures name { drop last.new.start last.new.text ≡ letter_number 98 k }
{
    if k / 10 == last.tens {
        last.text[5] = b'0' + (k % 10) as u8;
    } else {
        last.start = write_led(b'b', k, &mut last.text);
        last.tens = k / 10;
    }
}

// Almost all names have five or six bytes: there the compiler sees their number, and makes the item in place.
#[inline(always)]
fn push_led(items: &mut Items, k: u32, text: &[u8; 6], start: usize) -> Result<(), AllocError>
    requires few { k ≤ 40000 }
    requires within { start ≤ 5 }
    requires name { drop start text.now ≡ letter_number 98 k }
    ensures { OnOk result (items.new ≡ items.old ++ record { line = k; kind = made_box k } ∷ []) }
{
    match start {
        0 => push_named(items, k, text),
        1 => push_named(items, k, &text[1..]),
        _ => push_named(items, k, &text[start..]),
    }
}

// A box with the name in these bytes.
#[inline(always)]
fn push_named(items: &mut Items, k: u32, name: &[u8]) -> Result<(), AllocError>
    requires few { k ≤ 40000 }
    requires name { name.now ≡ letter_number 98 k }
    ensures { OnOk result (items.new ≡ items.old ++ record { line = k; kind = made_box k } ∷ []) }
{
    push(
        items,
        k,
        ItemKind::Hbox {
            name: sure_name(name),
            height: HEIGHT,
            depth: DEPTH,
        },
    )
}

#[inline(never)]
fn push_foot(items: &mut Items, alloc: Global, k: u32) -> Result<(), AllocError>
    requires { k ≤ 40000 }
    ensures { OnOk result (items.new ≡ items.old ++ record { line = k; kind = made_foot k } ∷ []) }
{
    let kind = made_foot(alloc, k)?;
    push(items, k, kind)
}

// A float of this many points in height.
#[inline(never)]
fn push_float(
    items: &mut Items,
    k: u32,
    class: u8,
    places: Places,
    height: u32,
) -> Result<(), AllocError>
    requires few { k ≤ 40000 }
    requires low { height ≤ 100 }
    ensures { OnOk result (items.new ≡ items.old ++ record { line = k; kind = made_float k class places height } ∷ []) }
{
    push(items, k, made_float(k, class, places, height))
}

fn glue() -> Glue
    ensures { result ≡ glue_points 3 1 0 }
{
    Glue {
        width: 3 * POINT,
        stretch: POINT,
        order: Order::Normal,
        shrink: 0,
    }
}

fn made_foot(alloc: Global, k: u32) -> Result<ItemKind, AllocError>
    requires { k ≤ 40000 }
    ensures { IfOk result (λ i. i ≡ made_foot k) }
{
    let mut leaves = Leaves::new(alloc);
    let name = letter_number(b'f', k);
    leaves.push(Leaf {
        line: k,
        kind: LeafKind::Hbox {
            name,
            height: HEIGHT,
            depth: DEPTH,
        },
    })?;
    Ok(ItemKind::Foot {
        class: FOOTNOTES,
        leaves,
    })
}

// A float of this many points in height.
fn made_float(k: u32, class: u8, places: Places, height: u32) -> ItemKind
    requires few { k ≤ 40000 }
    requires low { height ≤ 100 }
    ensures { result ≡ made_float k class places height }
{
    let float = Float {
        line: k,
        name: letter_number(b'x', k),
        class,
        wide: false,
        places,
        bang: false,
        height: i64::from(height) * POINT,
        deep: false,
        nobreak: false,
    };
    ItemKind::Float {
        float,
        vert: class == 2,
    }
}

// A letter, and a number after it.
#[inline(always)]
fn letter_number(letter: u8, k: u32) -> Name
    requires letter { is_alphanumeric letter ≡ true }
    requires few { k ≤ 40000 }
    ensures { result ≡ letter_number letter k }
{
    let mut text = [0; 6];
    let start = write_led(letter, k, &mut text);
    sure_name(&text[start..])
}

// Writes a letter, and a number after it, at the end of a text; returns where the letter is.
#[inline(always)]
fn write_led(letter: u8, k: u32, text: &mut [u8; 6]) -> usize
    requires { k ≤ 40000 }
    ensures within { result ≤ 5 }
    ensures written { drop result text.new ≡ letter_number letter k }
{
    let start = write_digits(u64::from(k), text, 6) - 1;
    text[start] = letter;
    start
}

// The name in these bytes. The arm without one is never reached. It shifts a number by its full width; LLVM may assume that
// no such shift happens, and so drops the tests of the bytes.
#[inline(always)]
fn sure_name(bytes: &[u8]) -> Name
    requires { is_name bytes.now ≡ true }
    ensures { result ≡ bytes.now }
{
    match name_of(bytes) {
        Some(name) => name,
        None => {
            let mut never = [0u8; 1];
            never[1 << usize::BITS] = 1;
            unreachable!()
        }
    }
}
