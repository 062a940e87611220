//! A text in the making.
ghost use Rattle.std.specs.Prelude.{◌≡◌, true, false, OnOk};
ghost use Rattle.tb_lines.specs.Words.{is_full};
ghost use Rattle.tb_lines.specs.Grammar.{empty_draft, default_params, with_value, with_content, inside_in, holds_item};

use crate::contents::Content;
use crate::text::{Items, LineParams, Paragraph, Paragraphs};
use crate::words::Parameter;
use std::alloc::{AllocError, Global};

/// What the content lines so far say: the parameters, the paragraphs, and the paragraph that is open.
#[derive(Drop)]
pub struct Draft {
    /// The parameters, as they were set so far.
    pub params: LineParams,
    /// The paragraphs that ended.
    pub paragraphs: Paragraphs,
    /// The paragraph that is open, if one is.
    pub current: Option<Paragraph>,
}

fn defaults() -> LineParams
    ensures { result ≡ default_params }
{
    LineParams {
        hsize: 22_609_920,
        tolerance: 200,
        line_penalty: 10,
        club_penalty: 150,
        widow_penalty: 150,
        baseline_skip: 786_432,
        line_skip: 65_536,
        par_skip: 0,
    }
}

impl LineParams {
    fn put(&mut self, parameter: Parameter, value: u32)
        ensures { self.new ≡ with_value self.old parameter value }
    {
        match parameter {
            Parameter::Hsize => self.hsize = value,
            Parameter::Tolerance => self.tolerance = value,
            Parameter::LinePenalty => self.line_penalty = value,
            Parameter::ClubPenalty => self.club_penalty = value,
            Parameter::WidowPenalty => self.widow_penalty = value,
            Parameter::BaselineSkip => self.baseline_skip = value,
            Parameter::LineSkip => self.line_skip = value,
            Parameter::ParSkip => self.par_skip = value,
        }
    }
}

impl Draft {
    /// A draft of which no line was read.
    pub fn new(alloc: Global) -> Draft
        ensures { result ≡ empty_draft }
    {
        Draft {
            params: defaults(),
            paragraphs: Paragraphs::new(alloc),
            current: None,
        }
    }

    /// How many items the open paragraph has; `None` if none is open.
    pub fn inside(&self) -> Option<usize>
        ensures { result ≡ inside_in self.now.current }
    {
        match &self.current {
            Some(paragraph) => Some(paragraph.items.len()),
            None => None,
        }
    }

    /// Adds what a line says.
    pub fn add(&mut self, alloc: Global, content: Content) -> Result<(), AllocError>
        requires { holds_item content ≡ true → is_full (inside_in self.old.current) ≡ false }
        ensures { OnOk result (self.new ≡ with_content self.old content) }
    {
        match content {
            Content::Header => Ok(()),
            Content::Set { parameter, value } => {
                self.params.put(parameter, value);
                Ok(())
            }
            Content::Par(name) => {
                self.current = Some(Paragraph {
                    name,
                    items: Items::new(alloc),
                });
                Ok(())
            }
            Content::Item(item) => match &mut self.current {
                Some(paragraph) => paragraph.items.push(item),
                None => Ok(()),
            },
            Content::Endpar => match self.current.take() {
                Some(paragraph) => self.paragraphs.push(paragraph),
                None => Ok(()),
            },
            Content::End => Ok(()),
        }
    }
}
