//! Reads the fields that only a text of paragraphs has.
ghost use Rattle.std.specs.Prelude.{pos, ◌≤ℤ◌};
ghost use Rattle.tb_galley.specs.FieldReader.{left_of, Gives};
ghost use Rattle.tb_lines.specs.FieldReader.{size_left, name_left, header_left};

use tb_galley::{At, Cause, Fields};
use tb_node::{Name, name_of};

// With a point and the number of a line it is still the name of a box, of at most 63 bytes.
const MAX_NAME: usize = 58;

/// The next field as a dimension in sp of at least `low`, which is not below 0; a lesser one has this cause.
#[tactic(auto, unfolding(crate::specs::FieldReader::size_left))]
pub(crate) fn read_size(fields: &mut Fields<'_>, low: i64, cause: Cause) -> Result<u32, At>
    requires { pos 0 ≤ℤ low }
    ensures { Gives result (left_of fields.new) (size_left low cause (left_of fields.old)) }
{
    Ok(fields.dimension_from(low, cause)? as u32)
}

/// The same of at least 0, for a field that seldom is a few digits alone or with `pt` behind: most have a point.
#[tactic(auto, unfolding(crate::specs::FieldReader::size_left))]
pub(crate) fn read_decimal(fields: &mut Fields<'_>, cause: Cause) -> Result<u32, At>
    ensures { Gives result (left_of fields.new) (size_left (pos 0) cause (left_of fields.old)) }
{
    Ok(fields.decimal_from(0, cause)? as u32)
}

/// The next field as the name of a paragraph.
#[tactic(auto, unfolding(crate::specs::FieldReader::name_left))]
pub(crate) fn read_name(fields: &mut Fields<'_>) -> Result<Name, At>
    ensures { Gives result (left_of fields.new) (name_left (left_of fields.old)) }
{
    let number = fields.number;
    let field = fields.next()?;
    match name_of(field) {
        Some(name) if field.len() <= MAX_NAME => Ok(name),
        _ => Err(At::new(number, Cause::BadName)),
    }
}

/// The next field as the number of the header.
#[tactic(auto, unfolding(crate::specs::FieldReader::header_left))]
pub(crate) fn read_header(fields: &mut Fields<'_>) -> Result<(), At>
    ensures { Gives result (left_of fields.new) (header_left (left_of fields.old)) }
{
    let number = fields.number;
    if fields.next()? == b"1".as_slice() {
        Ok(())
    } else {
        Err(At::new(number, Cause::NoHeader))
    }
}
