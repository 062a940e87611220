//! Reads the rule of a parameter and of a class.
ghost use Rattle.tb_galley.specs.FieldReader.{left_of, Gives, rule_left, drawn_left, below_left};

use crate::Cause;
use crate::fields::{At, Fields};
use crate::glue_words::{after_below, after_none};
use tb_param::Rule;

impl Fields<'_> {
    /// A rule: `none`, or the kern above it, its height, which is not below 0, and the kern below it, all in scaled points.
    #[tactic(auto, unfolding(crate::specs::FieldReader::rule_left))]
    pub fn rule(&mut self) -> Result<Option<Rule>, At>
        ensures { Gives result (left_of self.new) (rule_left (left_of self.old)) }
    {
        match after_none(self.rest) {
            Some(rest) => {
                self.rest = rest;
                self.number += 1;
                Ok(None)
            }
            None => self.drawn_rule(),
        }
    }

    /// Whether a class stands below the footnotes, and with which rule: `below` and a rule, if that word is next. Before
    /// version 3 it is no word, and no number.
    #[tactic(auto, unfolding(crate::specs::FieldReader::below_left))]
    pub fn below(&mut self, version: u8) -> Result<Option<Option<Rule>>, At>
        ensures { Gives result (left_of self.new) (below_left version (left_of self.old)) }
    {
        let Some(rest) = after_below(self.rest) else {
            return Ok(None);
        };
        if version < 3 {
            return Err(At {
                field: self.number,
                cause: Cause::BadNumber,
            });
        }
        self.rest = rest;
        self.number += 1;
        Ok(Some(self.rule()?))
    }

    #[tactic(auto, unfolding(crate::specs::FieldReader::drawn_left))]
    fn drawn_rule(&mut self) -> Result<Option<Rule>, At>
        ensures { Gives result (left_of self.new) (drawn_left (left_of self.old)) }
    {
        let above = self.dimension()?;
        let height = self.dimension_from(0, Cause::Parameter)?;
        let below = self.dimension()?;
        Ok(Some(Rule {
            above,
            height,
            below,
        }))
    }
}
