//! The classes of a galley.

ghost use Rattle.std.specs.Prelude.{◌≡◌, IfOk};
ghost use Rattle.tb_items.specs.Classes.{foot_class, enlarging_class, class_of, classes_of};

use std::alloc::{AllocError, Global};
use tb_column::ENLARGING;
use tb_galley::{ClassLine, Galley};
use tb_insert::Class;
use tb_node::FOOTNOTES;
use tb_param::Params;
use tb_scaled::{Glue, MAX_DIMEN, Order};

// The footnotes' class: each counts whole against the page, up to `footlimit`.
fn foot_class(p: &Params) -> Class
    ensures { result ≡ foot_class p.now }
{
    Class {
        number: FOOTNOTES,
        factor: 1000,
        limit: p.footlimit,
        below: None,
        skip: p.skipfootins,
    }
}

// The class of what makes a page higher: it counts whole, without a limit (LaTeX, \@kludgeins).
fn enlarging_class() -> Class
    ensures { result ≡ enlarging_class }
{
    Class {
        number: ENLARGING,
        factor: 1000,
        limit: MAX_DIMEN,
        below: None,
        skip: Glue {
            width: 0,
            stretch: 0,
            order: Order::Normal,
            shrink: 0,
        },
    }
}

// A class that a galley declares.
fn class_of(line: &ClassLine) -> Class
    ensures { result ≡ class_of line.now }
{
    Class {
        number: line.number,
        factor: line.factor,
        limit: line.limit,
        below: line.below,
        skip: line.skip,
    }
}

/// The classes of a galley in rising number, that of the footnotes and that of what makes a page higher last.
pub(crate) fn classes_of(alloc: Global, galley: &Galley) -> Result<Vec<Class>, AllocError>
    ensures { IfOk result (λ cs. cs.items ≡ classes_of galley.now) }
{
    let mut classes = Vec::new(alloc);
    for line in galley.classes.as_slice() {
        classes.push(class_of(line))?;
    }
    classes.push(foot_class(&galley.params))?;
    classes.push(enlarging_class())?;
    Ok(classes)
}
