//! The canonical text of a parameter's value, and the line that sets one.
ghost use Rattle.std.specs.Prelude.{◌≡◌, ◌++◌, codes, OnOk};
ghost use Rattle.tb_galley.specs.CanonicalText.{choice_text, rule_text, value_text, change_text};
ghost use Rattle.tb_text.specs.Fields.{line};

use crate::glue_texts::put_glue;
use std::alloc::AllocError;
use tb_param::{Change, Choice, Rule, Value, row_of_field};
use tb_text::{put, put_amount};

fn choice(choice: Choice) -> &'static [u8]
    ensures { result.now ≡ choice_text choice }
{
    match choice {
        Choice::Flush => b" flush",
        Choice::Ragged => b" ragged",
        Choice::On => b" on",
        Choice::Off => b" off",
        Choice::R2014 => b" 2014",
        Choice::R2015 => b" 2015",
        Choice::Keep => b" keep",
        Choice::Drop => b" drop",
        Choice::Above => b" above",
        Choice::Below => b" below",
    }
}

/// Puts a rule, or that there is none.
pub(crate) fn put_rule(out: &mut Vec<u8>, rule: Option<Rule>) -> Result<(), AllocError>
    ensures { OnOk result (out.new.items ≡ out.old.items ++ rule_text rule) }
{
    let Some(rule) = rule else {
        return put(out, b" none");
    };
    put_amount(out, rule.above)?;
    put_amount(out, rule.height)?;
    put_amount(out, rule.below)
}

fn put_value(out: &mut Vec<u8>, value: &Value) -> Result<(), AllocError>
    ensures { OnOk result (out.new.items ≡ out.old.items ++ value_text value.now) }
{
    match value {
        Value::Int(n) => put_amount(out, *n),
        Value::Dim(n) => put_amount(out, *n),
        Value::Skip(glue) => put_glue(out, glue),
        Value::Frac(n) => {
            put_amount(out, *n)?;
            put(out, b"/65536")
        }
        Value::Word(word) => put(out, choice(*word)),
        Value::Rule(rule) => put_rule(out, *rule),
    }
}

/// Puts the line that sets the parameter of this name.
pub(crate) fn put_set(out: &mut Vec<u8>, name: &[u8], value: &Value) -> Result<(), AllocError>
    ensures { OnOk result (out.new.items ≡ out.old.items ++ line (codes "set " ++ name.now ++ value_text value.now)) }
{
    put(out, b"set ")?;
    put(out, name)?;
    put_value(out, value)?;
    put(out, b"\n")
}

/// Puts the line of a parameter that is set among the items.
pub(crate) fn put_change(out: &mut Vec<u8>, change: &Change) -> Result<(), AllocError>
    ensures { OnOk result (out.new.items ≡ out.old.items ++ line (change_text change.now)) }
{
    put_set(out, row_of_field(change.field).0, &change.value)
}
