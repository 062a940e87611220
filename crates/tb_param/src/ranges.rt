//! The ranges of the forms of parameters.
ghost use Rattle.std.specs.Prelude.{◌≡◌};
ghost use Rattle.tb_param.specs.Table.{value_fault, is_within, is_dimen, is_glue, is_rule, out_of_range};

use crate::{Choice, Form, ParamFault, Rule, Value};
use tb_scaled::{Glue, MAX_DIMEN};

fn is_within(low: i64, high: i64, value: i64) -> bool
    ensures { result ≡ is_within low high value }
{
    low <= value && value <= high
}

fn is_dimension(value: i64) -> bool
    ensures { result ≡ is_dimen value }
{
    is_within(-MAX_DIMEN, MAX_DIMEN, value)
}

fn is_glue(glue: Glue) -> bool
    ensures { result ≡ is_glue glue }
{
    is_dimension(glue.width) && is_dimension(glue.stretch) && is_dimension(glue.shrink)
}

fn is_rule(rule: Option<Rule>) -> bool
    ensures { result ≡ is_rule rule }
{
    match rule {
        None => true,
        Some(r) => is_dimension(r.above)
            && is_within(0, MAX_DIMEN, r.height)
            && is_dimension(r.below),
    }
}

fn out_of_range(ok: bool) -> Option<ParamFault>
    ensures { result ≡ out_of_range ok }
{
    if ok { None } else { Some(ParamFault::Range) }
}

/// What is wrong with a value in a parameter of this form.
pub(crate) fn value_fault(form: Form, value: Value) -> Option<ParamFault>
    ensures { result ≡ value_fault form value }
{
    match (form, value) {
        (Form::Int { low, high }, Value::Int(n)) => out_of_range(is_within(low, high, n)),
        (Form::Dim { low }, Value::Dim(n)) => out_of_range(is_within(low, MAX_DIMEN, n)),
        (Form::Frac, Value::Frac(n)) => out_of_range(is_within(0, 65536, n)),
        (Form::Skip, Value::Skip(g)) => out_of_range(is_glue(g)),
        (Form::Bottom, Value::Word(c)) => out_of_range(matches!(c, Choice::Flush | Choice::Ragged)),
        (Form::Switch, Value::Word(c)) => out_of_range(matches!(c, Choice::On | Choice::Off)),
        (Form::Release, Value::Word(c)) => {
            out_of_range(matches!(c, Choice::R2014 | Choice::R2015))
        }
        (Form::Rule, Value::Rule(r)) => out_of_range(is_rule(r)),
        (Form::FootDepth, Value::Word(c)) => out_of_range(matches!(c, Choice::Keep | Choice::Drop)),
        (Form::FootPlace, Value::Word(c)) => {
            out_of_range(matches!(c, Choice::Above | Choice::Below))
        }
        _ => Some(ParamFault::WrongForm),
    }
}
