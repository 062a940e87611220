//! What a content line says.
ghost use Rattle.std.specs.Prelude.{◌≡◌, true, false, IfOk};
ghost use Rattle.tb_lines.specs.Words.{is_inner_word};
ghost use Rattle.tb_lines.specs.Grammar.{holds_item};
ghost use Rattle.tb_lines.specs.Fields.{IsForm};
ghost use Rattle.tb_galley.specs.FieldReader.{left_of, Gives};
ghost use Rattle.tb_lines.specs.FieldReader.{value_left, set_left, word_left, space_left, pen_left, content_left};

use crate::field_reader::{read_decimal, read_header, read_name, read_size};
use crate::text::Item;
use crate::words::{Form, Parameter, Word, form_of, parameter_of};
use tb_galley::{At, Cause, Fields};
use tb_node::Name;

/// What a content line says.
#[derive(Drop)]
pub enum Content {
    /// The header.
    Header,
    /// `set`: a parameter and its value.
    Set { parameter: Parameter, value: u32 },
    /// `par`: a paragraph of this name begins.
    Par(Name),
    /// `word`, `space` or `pen`: an item of the paragraph.
    Item(Item),
    /// `endpar`: the paragraph ends.
    Endpar,
    /// `end`: the text ends.
    End,
}

#[tactic(auto, unfolding(crate::specs::FieldReader::value_left))]
fn read_value(form: Form, fields: &mut Fields<'_>) -> Result<u32, At>
    requires { IsForm form }
    ensures { Gives result (left_of fields.new) (value_left form (left_of fields.old)) }
{
    match form {
        Form::Dimension { low } => read_size(fields, low, Cause::Parameter),
        Form::Integer { high } => {
            let number = fields.integer_within(0, high, Cause::Parameter)?;
            Ok(number as u32)
        }
    }
}

#[tactic(auto, unfolding(crate::specs::FieldReader::set_left))]
fn read_set(fields: &mut Fields<'_>) -> Result<Content, At>
    ensures read { Gives result (left_of fields.new) (set_left (left_of fields.old)) }
    ensures kind { IfOk result (λ k. holds_item k ≡ false) }
{
    let number = fields.number;
    let Some(parameter) = parameter_of(fields.next()?) else {
        return Err(At::new(number, Cause::UnknownParameter));
    };
    let value = read_value(form_of(parameter), fields)?;
    Ok(Content::Set { parameter, value })
}

#[tactic(auto, unfolding(crate::specs::FieldReader::word_left))]
fn read_word(fields: &mut Fields<'_>) -> Result<Item, At>
    ensures { Gives result (left_of fields.new) (word_left (left_of fields.old)) }
{
    let width = read_size(fields, 0, Cause::Dimension)?;
    let height = read_size(fields, 0, Cause::Dimension)?;
    let depth = read_size(fields, 0, Cause::Dimension)?;
    Ok(Item::Word {
        width,
        height,
        depth,
    })
}

#[tactic(auto, unfolding(crate::specs::FieldReader::space_left))]
fn read_space(fields: &mut Fields<'_>) -> Result<Item, At>
    ensures { Gives result (left_of fields.new) (space_left (left_of fields.old)) }
{
    let width = read_decimal(fields, Cause::Dimension)?;
    let stretch = read_decimal(fields, Cause::Dimension)?;
    let shrink = read_decimal(fields, Cause::Dimension)?;
    Ok(Item::Space {
        width,
        stretch,
        shrink,
    })
}

#[tactic(auto, unfolding(crate::specs::FieldReader::pen_left))]
fn read_pen(fields: &mut Fields<'_>) -> Result<Item, At>
    ensures { Gives result (left_of fields.new) (pen_left (left_of fields.old)) }
{
    let penalty = fields.integer_within(-10_000, 10_000, Cause::Penalty)?;
    Ok(Item::Penalty(penalty as i16))
}

/// What the fields after a line's word say.
#[tactic(auto, unfolding(crate::specs::FieldReader::content_left))]
pub(crate) fn read_content(word: Word, fields: &mut Fields<'_>) -> Result<Content, At>
    ensures read { Gives result (left_of fields.new) (content_left word (left_of fields.old)) }
    ensures kind { IfOk result (λ k. holds_item k ≡ true → is_inner_word word ≡ true) }
{
    match word {
        Word::Lines => {
            read_header(fields)?;
            Ok(Content::Header)
        }
        Word::Setting => read_set(fields),
        Word::Par => Ok(Content::Par(read_name(fields)?)),
        Word::Word => Ok(Content::Item(read_word(fields)?)),
        Word::Space => Ok(Content::Item(read_space(fields)?)),
        Word::Pen => Ok(Content::Item(read_pen(fields)?)),
        Word::Endpar => Ok(Content::Endpar),
        Word::End => Ok(Content::End),
    }
}
