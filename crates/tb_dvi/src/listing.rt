//! The lines of a listing.
ghost use Rattle.std.specs.Prelude.{◌≡◌, ◌<◌, ◌++◌, OnOk};
ghost use Rattle.tb_dvi.specs.Machine.{opened, special, ruled, ended};
ghost use Rattle.tb_dvi.specs.Listing.{hex_digit, shown_byte, shown, item_line};

use std::alloc::AllocError;
use tb_report::{put_measure, put_total};
use tb_text::{end_line, put, put_amount};

// A hexadecimal digit in lower case.
fn hex_digit(digit: u8) -> u8
    requires { digit < 16 }
    ensures { result ≡ hex_digit digit }
{
    if digit < 10 { 48 + digit } else { 87 + digit }
}

// A byte of a special as it is shown.
fn put_byte(out: &mut Vec<u8>, byte: u8) -> Result<(), AllocError>
    ensures { OnOk result (out.new.items ≡ out.old.items ++ shown_byte byte) }
{
    if 32 <= byte && byte <= 126 && byte != 92 {
        put(out, &[byte])
    } else {
        put(out, &[92, hex_digit(byte / 16), hex_digit(byte % 16)])
    }
}

// The text of a special as it is shown.
#[tactic(auto, using(crate::proofs::JoinedTexts::shows))]
fn put_shown(out: &mut Vec<u8>, text: &[u8]) -> Result<(), AllocError>
    ensures { OnOk result (out.new.items ≡ out.old.items ++ shown text.now) }
{
    for byte in text {
        put_byte(out, *byte)?;
    }
    Ok(())
}

/// The line of a page with its first number.
pub(crate) fn put_page(out: &mut Vec<u8>, number: i64) -> Result<(), AllocError>
    ensures { OnOk result (out.new.items ≡ out.old.items ++ item_line (opened number)) }
{
    put_measure(out, b"page", number)?;
    end_line(out)
}

/// The line of a rule at a place, with its height and its width.
pub(crate) fn put_rule(
    out: &mut Vec<u8>,
    h: i64,
    v: i64,
    height: i64,
    width: i64,
) -> Result<(), AllocError>
    ensures { OnOk result (out.new.items ≡ out.old.items ++ item_line (ruled h v height width)) }
{
    put_measure(out, b"rule", h)?;
    put_amount(out, v)?;
    put_amount(out, height)?;
    put_amount(out, width)?;
    end_line(out)
}

/// The line of a special at a place.
pub(crate) fn put_special(out: &mut Vec<u8>, h: i64, v: i64, text: &[u8]) -> Result<(), AllocError>
    ensures { OnOk result (out.new.items ≡ out.old.items ++ item_line (special h v text.now)) }
{
    put_measure(out, b"special", h)?;
    put_amount(out, v)?;
    put(out, b" ")?;
    put_shown(out, text)?;
    end_line(out)
}

/// The last line: how many pages there are.
pub(crate) fn put_end(out: &mut Vec<u8>, pages: u64) -> Result<(), AllocError>
    ensures { OnOk result (out.new.items ≡ out.old.items ++ item_line (ended pages)) }
{
    put_total(out, b"end pages", pages)?;
    end_line(out)
}
