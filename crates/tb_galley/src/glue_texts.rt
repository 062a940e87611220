//! The canonical text of glue.
ghost use Rattle.std.specs.Prelude.{◌≡◌, ◌++◌, codes, OnOk, length, ◌≤◌};
ghost use Rattle.tb_galley.specs.CanonicalText.{unit_text, plus_text, minus_text, glue_text};
ghost use Rattle.tb_text.specs.Fields.{and_count};

use std::alloc::AllocError;
use tb_scaled::{Glue, Order};
use tb_text::{put, put_amount, write_field, write_text};

fn unit(order: Order) -> &'static [u8]
    ensures text { result.now ≡ unit_text order }
    ensures short { length result.now ≤ 6 }
{
    match order {
        Order::Normal => b"",
        Order::Fil => b"sfil",
        Order::Fill => b"sfill",
        Order::Filll => b"sfilll",
    }
}

fn put_plus(out: &mut Vec<u8>, stretch: i64, order: Order) -> Result<(), AllocError>
    ensures { OnOk result (out.new.items ≡ out.old.items ++ plus_text stretch order) }
{
    put(out, b" plus")?;
    put_amount(out, stretch)?;
    put(out, unit(order))
}

fn put_minus(out: &mut Vec<u8>, shrink: i64) -> Result<(), AllocError>
    ensures { OnOk result (out.new.items ≡ out.old.items ++ minus_text shrink) }
{
    put(out, b" minus")?;
    put_amount(out, shrink)
}

/// Puts glue's three parts: its width, `plus` its stretch and `minus` its shrink.
pub(crate) fn put_glue(out: &mut Vec<u8>, glue: &Glue) -> Result<(), AllocError>
    ensures { OnOk result (out.new.items ≡ out.old.items ++ glue_text glue.now) }
{
    if glue.width < 0 || glue.stretch < 0 || glue.shrink < 0 {
        return put_any_glue(out, glue);
    }
    put_plain_glue(
        out,
        glue.width as u64,
        glue.stretch as u64,
        glue.order,
        glue.shrink as u64,
    )
}

// Glue of any amounts. Few amounts of a galley are below 0, so this is kept out of the way of the rest.
#[cold]
#[inline(never)]
fn put_any_glue(out: &mut Vec<u8>, glue: &Glue) -> Result<(), AllocError>
    ensures { OnOk result (out.new.items ≡ out.old.items ++ glue_text glue.now) }
{
    put_amount(out, glue.width)?;
    put_plus(out, glue.stretch, glue.order)?;
    put_minus(out, glue.shrink)
}

// Glue with no amount below 0, written at once: most glue of a galley is of this kind.
fn put_plain_glue(
    out: &mut Vec<u8>,
    width: u64,
    stretch: u64,
    order: Order,
    shrink: u64,
) -> Result<(), AllocError>
    ensures { OnOk result (out.new.items ≡ out.old.items ++ (and_count width
        ++ (codes " plus" ++ and_count stretch ++ unit_text order)
        ++ (codes " minus" ++ and_count shrink))) }
{
    let mut line = [0; 80];
    let at = write_field(shrink, &mut line, 80);
    let at = write_text(b" minus", &mut line, at);
    let at = write_text(unit(order), &mut line, at);
    let at = write_field(stretch, &mut line, at);
    let at = write_text(b" plus", &mut line, at);
    let start = write_field(width, &mut line, at);
    put(out, &line[start..])
}
