//! The canonical text of a galley.
ghost use Rattle.std.specs.Prelude.{◌≡◌, ◌++◌, map, filter, OnOk, IfOk, length, ◌≤◌};
ghost use Rattle.tb_galley.specs.Grammar.{input_limit};
ghost use Rattle.tb_galley.specs.ReadBack.{ReadsBack};
ghost use Rattle.tb_galley.specs.Valid.{IsValid};
ghost use Rattle.tb_param.specs.TableRows.{row_seen};
ghost use Rattle.tb_param.specs.Table.{is_known_in};
ghost use Rattle.tb_galley.specs.CanonicalText.{set_lines, header_text, below_text, class_amounts, class_text, class_lines, printed};
ghost use Rattle.tb_text.specs.Fields.{line};

use crate::glue_texts::put_glue;
use crate::item_texts::put_items;
use crate::value_texts::{put_rule, put_set};
use crate::{ClassLine, Galley};
use std::alloc::{AllocError, Global};
use tb_param::{Field, Form, LIVE_PARAMS, Params, Rule, is_known_in};
use tb_text::{put, put_amount, put_count};

// A line for each of these parameters that this version of a galley has.
fn put_sets(
    out: &mut Vec<u8>,
    version: u8,
    params: &Params,
    rows: &[(&'static [u8], Field, Form)],
) -> Result<(), AllocError>
    ensures { OnOk result (out.new.items ≡ out.old.items ++ set_lines params.now
        (filter (λ r. is_known_in version r.field) (map row_seen rows.now))) }
{
    for row in rows {
        if is_known_in(version, row.1) {
            put_set(out, row.0, &params.value(row.1))?;
        }
    }
    Ok(())
}

fn header(version: u8) -> &'static [u8]
    ensures { result.now ≡ header_text version }
{
    match version {
        1 => b"galley 1\n",
        2 => b"galley 2\n",
        _ => b"galley 3\n",
    }
}

fn put_below(out: &mut Vec<u8>, below: Option<Option<Rule>>) -> Result<(), AllocError>
    ensures { OnOk result (out.new.items ≡ out.old.items ++ below_text below) }
{
    let Some(rule) = below else {
        return Ok(());
    };
    put(out, b" below")?;
    put_rule(out, rule)
}

fn put_class_amounts(out: &mut Vec<u8>, class: &ClassLine) -> Result<(), AllocError>
    ensures { OnOk result (out.new.items ≡ out.old.items ++ class_amounts class.now) }
{
    put(out, b"class")?;
    put_count(out, u64::from(class.number))?;
    put_amount(out, class.factor)?;
    put_amount(out, class.limit)
}

fn put_class(out: &mut Vec<u8>, class: &ClassLine) -> Result<(), AllocError>
    ensures { OnOk result (out.new.items ≡ out.old.items ++ class_text class.now) }
{
    put_class_amounts(out, class)?;
    put_below(out, class.below)?;
    put_glue(out, &class.skip)
}

fn put_class_line(out: &mut Vec<u8>, class: &ClassLine) -> Result<(), AllocError>
    ensures { OnOk result (out.new.items ≡ out.old.items ++ line (class_text class.now)) }
{
    put_class(out, class)?;
    put(out, b"\n")
}

fn put_classes(out: &mut Vec<u8>, classes: &[ClassLine]) -> Result<(), AllocError>
    ensures { OnOk result (out.new.items ≡ out.old.items ++ class_lines classes.now) }
{
    for class in classes {
        put_class_line(out, class)?;
    }
    Ok(())
}

/// The canonical text of a galley: its header, a `set` line for each parameter that its version has, a `class` line for
/// each class in rising number, its items and its end, with single spaces. From version 2 on each `foot` names its class.
/// Dimensions are bare integers, glue has all three parts, and fractions are in 65536ths. If the galley is valid and the
/// text is no longer than an input may be, the text is read as the same galley, but for its line numbers.
#[tactic(auto, unfolding(crate::specs::CanonicalText::printed))]
pub fn print(alloc: Global, galley: &Galley) -> Result<Vec<u8>, AllocError>
    ensures text { IfOk result (λ v. v.items ≡ printed galley.now) }
    ensures reads_back { OnOk result
        (IsValid galley.now → length (printed galley.now) ≤ input_limit
        → ReadsBack galley.now) }
{
    let mut out = Vec::from_slice(alloc, header(galley.version))?;
    put_sets(&mut out, galley.version, &galley.params, &LIVE_PARAMS)?;
    put_classes(&mut out, galley.classes.as_slice())?;
    put_items(&mut out, galley.version, galley.items.as_slice())?;
    put(&mut out, b"end\n")?;
    Ok(out)
}
