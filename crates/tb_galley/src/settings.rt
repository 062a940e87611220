//! Reads a parameter and its value.
ghost use Rattle.std.specs.Prelude.{if◌then◌else◌};
ghost use Rattle.tb_param.specs.declared.Value.TheVariants as values;
ghost use Rattle.tb_galley.specs.declared.contents.Content.TheVariants.{Set};
ghost use Rattle.tb_galley.specs.FieldReader.{left_of, Gives, GivesBy, mapped, range_left, least_left, fraction_left, glue_left, rule_left, choice_left, value_left, parameter_left, set_left};

use crate::Cause;
use crate::field_reader::cause_in;
use crate::fields::{At, Fields};
use tb_param::{Choice, Field, Form, Value, row_for};
use tb_text::split_field;

impl Fields<'_> {
    /// The next field as the name of a parameter of a galley of this version: which it is, and its form. The bytes of the
    /// names are printable, so only other fields are tested for that.
    #[inline(always)]
    pub fn parameter(&mut self, version: u8) -> Result<(Field, Form), At>
        ensures { Gives result (left_of self.new) (parameter_left version (left_of self.old)) }
    {
        let number = self.number;
        let Some((name, rest)) = split_field(self.rest) else {
            return Err(self.no_field());
        };
        match row_for(version, name) {
            Some((_, field, form)) => {
                self.rest = rest;
                self.number = number + 1;
                Ok((field, form))
            }
            None => Err(At {
                field: number,
                cause: cause_in(name, Cause::UnknownParameter),
            }),
        }
    }
}

// Each form is read by a function of its own, so that a value takes no room for what other forms need.
fn integer(low: i64, high: i64, fields: &mut Fields<'_>) -> Result<Value, At>
    ensures { Gives result (left_of fields.new) (mapped (λ n. values.Int n) (range_left low high Cause.Parameter (left_of fields.old))) }
{
    Ok(Value::Int(fields.integer_within(low, high, Cause::Parameter)?))
}

fn dimension(low: i64, fields: &mut Fields<'_>) -> Result<Value, At>
    ensures { Gives result (left_of fields.new) (mapped (λ n. values.Dim n) (least_left low Cause.Parameter (left_of fields.old))) }
{
    Ok(Value::Dim(fields.dimension_from(low, Cause::Parameter)?))
}

fn fraction(fields: &mut Fields<'_>) -> Result<Value, At>
    ensures { Gives result (left_of fields.new) (mapped (λ n. values.Frac n) (fraction_left (left_of fields.old))) }
{
    Ok(Value::Frac(fields.fraction()?))
}

fn glue(fields: &mut Fields<'_>) -> Result<Value, At>
    ensures { Gives result (left_of fields.new) (mapped (λ g. values.Skip g) (glue_left Cause.WrongForm (left_of fields.old))) }
{
    Ok(Value::Skip(fields.glue(Cause::WrongForm)?))
}

fn drawn(fields: &mut Fields<'_>) -> Result<Value, At>
    ensures { Gives result (left_of fields.new) (mapped (λ r. values.Rule r) (rule_left (left_of fields.old))) }
{
    Ok(Value::Rule(fields.rule()?))
}

// One of two words, each with what it stands for.
fn choice(
    first: &[u8],
    if_first: Choice,
    second: &[u8],
    if_second: Choice,
    fields: &mut Fields<'_>,
) -> Result<Value, At>
    ensures { Gives result (left_of fields.new)
        (mapped (λ b. values.Word (if b then if_second else if_first)) (choice_left first.now second.now Cause.WrongForm (left_of fields.old))) }
{
    let is_second = fields.choice(first, second, Cause::WrongForm)?;
    Ok(Value::Word(if is_second { if_second } else { if_first }))
}

#[tactic(auto, unfolding(crate::specs::FieldReader::value_left))]
fn value(form: Form, fields: &mut Fields<'_>) -> Result<Value, At>
    ensures { Gives result (left_of fields.new) (value_left form (left_of fields.old)) }
{
    match form {
        Form::Int { low, high } => integer(low, high, fields),
        Form::Dim { low } => dimension(low, fields),
        Form::Frac => fraction(fields),
        Form::Skip => glue(fields),
        Form::Bottom => choice(b"ragged", Choice::Ragged, b"flush", Choice::Flush, fields),
        Form::Switch => choice(b"off", Choice::Off, b"on", Choice::On, fields),
        Form::Release => choice(b"2014", Choice::R2014, b"2015", Choice::R2015, fields),
        Form::Rule => drawn(fields),
        Form::FootDepth => choice(b"keep", Choice::Keep, b"drop", Choice::Drop, fields),
        Form::FootPlace => choice(b"above", Choice::Above, b"below", Choice::Below, fields),
    }
}

/// A parameter of a galley of this version, and its value.
#[inline(always)]
#[tactic(auto, using(crate::proofs::ParameterFields::set_refused, crate::proofs::ParameterFields::set_value_refused, crate::proofs::ParameterFields::set_read))]
pub(crate) fn setting(version: u8, fields: &mut Fields<'_>) -> Result<(Field, Value), At>
    ensures { GivesBy (λ s. Set s.0 s.1) result (left_of fields.new) (set_left version (left_of fields.old)) }
{
    let (field, form) = fields.parameter(version)?;
    let value = value(form, fields)?;
    Ok((field, value))
}
