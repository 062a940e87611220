//! What a content line says.
ghost use Rattle.tb_galley.specs.GalleyReader.{known_in};
ghost use Rattle.tb_galley.specs.FieldReader.{left_of, Gives, nobreak_left, sized_left, glue_left, float_left, margin_left, head_left, star_left, enlarge_left, area_left, class_left, foot_left, content_left};

use crate::draft::Draft;
use crate::fields::{At, Fields};
use crate::settings::setting;
use crate::{Cause, ClassLine, ItemKind, LeafKind, Word};
use tb_node::{Area, FOOTNOTES, Float, Margin, Name, Places};
use tb_param::{Field, Value};
use tb_scaled::Glue;

/// What a content line says.
#[derive(Drop)]
pub enum Content {
    /// The header, with the version, 1, 2 or 3.
    Header { version: u8 },
    /// `set`: a parameter and its value.
    Set { field: Field, value: Value },
    /// `class`: a class of insertions.
    Class(ClassLine),
    /// A line that may be in a footnote too.
    Plain(LeafKind),
    /// Any other item, of one line.
    Item(ItemKind),
    /// `foot`: a footnote of this class begins.
    Foot { class: u8 },
    /// `endfoot`: the footnote ends.
    Endfoot,
    /// `end`: the galley ends.
    End,
}

// Whether `nobreak` is there, which may be from version 3 on.
#[inline(always)]
#[tactic(auto, unfolding(crate::specs::FieldReader::nobreak_left))]
fn nobreak(version: u8, fields: &mut Fields<'_>) -> Result<bool, At>
    ensures { Gives result (left_of fields.new) (nobreak_left version (left_of fields.old)) }
{
    if version != 3 || fields.is_at_end() {
        return Ok(false);
    }
    fields.word(b"nobreak", Cause::UnknownWord)
}

/// A float in a galley of this version, and whether it is between paragraphs.
#[inline(always)]
#[tactic(auto, unfolding(crate::specs::FieldReader::float_left))]
pub(crate) fn float(version: u8, line: u32, fields: &mut Fields<'_>) -> Result<(Float, bool), At>
    ensures { Gives result (left_of fields.new) (float_left version line (left_of fields.old)) }
{
    let name = fields.name()?;
    let class = fields.integer_within(1, 26, Cause::Class)?;
    let wide = fields.is_double()?;
    let (places, bang) = fields.places()?;
    let height = fields.dimension_from(0, Cause::Dimension)?;
    let vert = fields.is_vert()?;
    let nobreak = nobreak(version, fields)?;
    Ok((
        Float {
            line,
            name,
            class: class as u8,
            wide,
            places,
            bang,
            height,
            deep: wide && version == 3,
            nobreak,
        },
        vert,
    ))
}

/// A marginal note in a galley of this version, and whether it is between paragraphs.
#[inline(always)]
#[tactic(auto, unfolding(crate::specs::FieldReader::margin_left))]
pub(crate) fn margin(version: u8, line: u32, fields: &mut Fields<'_>) -> Result<(Margin, bool), At>
    ensures { Gives result (left_of fields.new) (margin_left version line (left_of fields.old)) }
{
    let (name, left_height, left_depth) = fields.sized()?;
    let right_height = fields.dimension_from(0, Cause::Dimension)?;
    let right_depth = fields.dimension_from(0, Cause::Dimension)?;
    let vert = fields.is_vert()?;
    let nobreak = nobreak(version, fields)?;
    Ok((
        Margin {
            line,
            name,
            left_height,
            left_depth,
            right_height,
            right_depth,
            nobreak,
        },
        vert,
    ))
}

// A title over both columns.
#[inline(never)]
#[tactic(auto, unfolding(crate::specs::FieldReader::head_left))]
fn head(line: u32, fields: &mut Fields<'_>) -> Result<Float, At>
    ensures { Gives result (left_of fields.new) (head_left line (left_of fields.old)) }
{
    let name = fields.name()?;
    let height = fields.dimension_from(0, Cause::Dimension)?;
    Ok(Float {
        line,
        name,
        class: 0,
        wide: true,
        places: Places {
            h: false,
            t: true,
            b: false,
            p: false,
        },
        bang: true,
        height,
        deep: false,
        nobreak: false,
    })
}

// Whether `star` is there.
#[tactic(auto, unfolding(crate::specs::FieldReader::star_left))]
fn star(fields: &mut Fields<'_>) -> Result<bool, At>
    ensures { Gives result (left_of fields.new) (star_left (left_of fields.old)) }
{
    if fields.is_at_end() {
        return Ok(false);
    }
    fields.word(b"star", Cause::UnknownWord)
}

// By how much a page is made higher, and whether its contents are to be shrunk.
#[inline(never)]
#[tactic(auto, unfolding(crate::specs::FieldReader::enlarge_left))]
fn enlarge(fields: &mut Fields<'_>) -> Result<(i64, bool), At>
    ensures { Gives result (left_of fields.new) (enlarge_left (left_of fields.old)) }
{
    let by = fields.dimension()?;
    let star = star(fields)?;
    Ok((by, star))
}

#[tactic(auto, unfolding(crate::specs::FieldReader::area_left))]
fn area(fields: &mut Fields<'_>) -> Result<Area, At>
    ensures { Gives result (left_of fields.new) (area_left (left_of fields.old)) }
{
    if fields.is_at_end() {
        return Ok(Area::All);
    }
    let bottom = fields.choice(b"t", b"b", Cause::UnknownWord)?;
    Ok(if bottom { Area::Bottom } else { Area::Top })
}

#[inline(never)]
#[tactic(auto, unfolding(crate::specs::FieldReader::class_left))]
fn class(version: u8, line: u32, fields: &mut Fields<'_>) -> Result<ClassLine, At>
    ensures { Gives result (left_of fields.new) (class_left version line (left_of fields.old)) }
{
    let number = fields.integer_within(0, 253, Cause::Class)?;
    let factor = fields.integer_within(0, 10_000, Cause::Parameter)?;
    let limit = fields.dimension_from(0, Cause::Dimension)?;
    let below = fields.below(version)?;
    let skip = fields.glue(Cause::UnknownWord)?;
    Ok(ClassLine {
        line,
        number: number as u8,
        factor,
        limit,
        below,
        skip,
    })
}

/// The class of a footnote.
#[inline(always)]
#[tactic(auto, unfolding(crate::specs::FieldReader::foot_left))]
pub(crate) fn foot(draft: &Draft, fields: &mut Fields<'_>) -> Result<u8, At>
    ensures { Gives result (left_of fields.new) (foot_left (known_in draft.now) (left_of fields.old)) }
{
    if draft.version == 1 || fields.is_at_end() {
        return Ok(FOOTNOTES);
    }
    fields.class_among(draft.classes.as_slice())
}

// A function pays at entry for its locals, and most lines that come to `read_content` have few fields. So what has many, or is
// read before by the bytes of its line, is read in a function of its own.

#[inline(never)]
fn rare_float(version: u8, line: u32, fields: &mut Fields<'_>) -> Result<(Float, bool), At>
    ensures { Gives result (left_of fields.new) (float_left version line (left_of fields.old)) }
{
    float(version, line, fields)
}

#[inline(never)]
fn rare_margin(version: u8, line: u32, fields: &mut Fields<'_>) -> Result<(Margin, bool), At>
    ensures { Gives result (left_of fields.new) (margin_left version line (left_of fields.old)) }
{
    margin(version, line, fields)
}

#[inline(never)]
fn rare_foot(draft: &Draft, fields: &mut Fields<'_>) -> Result<u8, At>
    ensures { Gives result (left_of fields.new) (foot_left (known_in draft.now) (left_of fields.old)) }
{
    foot(draft, fields)
}

#[inline(never)]
fn rare_sized(fields: &mut Fields<'_>) -> Result<(Name, i64, i64), At>
    ensures { Gives result (left_of fields.new) (sized_left (left_of fields.old)) }
{
    fields.sized()
}

#[inline(never)]
fn rare_glue(fields: &mut Fields<'_>) -> Result<Glue, At>
    ensures { Gives result (left_of fields.new) (glue_left Cause.UnknownWord (left_of fields.old)) }
{
    fields.glue(Cause::UnknownWord)
}

/// What the fields after a line's word say, by what the lines before gave.
#[tactic(auto, unfolding(crate::specs::FieldReader::content_left))]
pub(crate) fn read_content(
    draft: &Draft,
    line: u32,
    word: Word,
    fields: &mut Fields<'_>,
) -> Result<Content, At>
    ensures { Gives result (left_of fields.new) (content_left (known_in draft.now) line word (left_of fields.old)) }
{
    match word {
        Word::Header => Ok(Content::Header {
            version: fields.version()?,
        }),
        Word::Setting => {
            let (field, value) = setting(draft.version, fields)?;
            Ok(Content::Set { field, value })
        }
        Word::Class => Ok(Content::Class(class(draft.version, line, fields)?)),
        Word::Hbox => {
            let (name, height, depth) = rare_sized(fields)?;
            Ok(Content::Plain(LeafKind::Hbox {
                name,
                height,
                depth,
            }))
        }
        Word::Rule => {
            let (name, height, depth) = rare_sized(fields)?;
            Ok(Content::Plain(LeafKind::Rule {
                name,
                height,
                depth,
            }))
        }
        Word::Skip => Ok(Content::Plain(LeafKind::Skip(rare_glue(fields)?))),
        Word::Kern => Ok(Content::Plain(LeafKind::Kern(fields.dimension()?))),
        Word::Penalty => {
            let penalty = fields.integer_within(-10_000, 10_000, Cause::Penalty)?;
            Ok(Content::Plain(LeafKind::Penalty(penalty)))
        }
        Word::Mark => Ok(Content::Item(ItemKind::Mark(fields.name()?))),
        Word::Note => Ok(Content::Item(ItemKind::Note(fields.name()?))),
        Word::Foot => Ok(Content::Foot {
            class: rare_foot(draft, fields)?,
        }),
        Word::Endfoot => Ok(Content::Endfoot),
        Word::Float => {
            let (float, vert) = rare_float(draft.version, line, fields)?;
            Ok(Content::Item(ItemKind::Float { float, vert }))
        }
        Word::Margin => {
            let (margin, vert) = rare_margin(draft.version, line, fields)?;
            Ok(Content::Item(ItemKind::Margin { margin, vert }))
        }
        Word::Newpage => Ok(Content::Item(ItemKind::NewPage)),
        Word::Clearpage => Ok(Content::Item(ItemKind::ClearPage)),
        Word::Pagebreak => {
            let degree = fields.integer_within(0, 4, Cause::Penalty)?;
            Ok(Content::Item(ItemKind::PageBreak(degree as u8)))
        }
        Word::Nopagebreak => {
            let degree = fields.integer_within(0, 4, Cause::Penalty)?;
            Ok(Content::Item(ItemKind::NoPageBreak(degree as u8)))
        }
        Word::Onecolumn => Ok(Content::Item(ItemKind::OneColumn)),
        Word::Twocolumn => Ok(Content::Item(ItemKind::TwoColumn)),
        Word::Suppressfloats => Ok(Content::Item(ItemKind::Suppress(area(fields)?))),
        Word::Page => {
            let number = fields.integer_within(0, 1_000_000, Cause::Parameter)?;
            Ok(Content::Item(ItemKind::Page(number as u32)))
        }
        Word::Head => Ok(Content::Item(ItemKind::Head(head(line, fields)?))),
        Word::Enlarge => {
            let (by, star) = enlarge(fields)?;
            Ok(Content::Item(ItemKind::Enlarge { by, star }))
        }
        Word::End => Ok(Content::End),
    }
}
