//! The sums of the page so far.

ghost use Rattle.std.specs.Prelude.{◌≡◌};
ghost use Rattle.tb_pool.specs.Lists.{Lists as StoreOf};
ghost use Rattle.tb_node.specs.declared.Node.{Node as NodeOf};
ghost use Rattle.tb_node.specs.SmallAmounts.{IsAmount};
ghost use Rattle.tb_builder.specs.Contents.{contents_of};
ghost use Rattle.tb_builder.specs.Courses.{IsSound};
ghost use Rattle.tb_builder.specs.PageSums.{page_sums_of, made_sums as made_of};

use crate::{Builder, PageSums};
use tb_node::Sums;

// The goal while none is frozen.
const NO_GOAL: i64 = 1073741823;

// The total and the shrink of these sums, with the goal.
fn made_sums(sums: Sums, goal: i64) -> PageSums
    ensures { result ≡ made_of sums goal }
{
    PageSums {
        total: sums.total,
        shrink: sums.shrink,
        goal,
    }
}

impl Builder {
    /// The sums and the goal of the page so far, with its insertions, in sp; the goal is 1073741823 while none is frozen
    /// (TeX: The Program §421).
    pub fn page_sums(&self) -> PageSums
        ensures sums { (s : StoreOf NodeOf) → IsSound self.now s → result ≡ page_sums_of (contents_of self.now s) }
        ensures total { IsAmount result.total }
        ensures shrink { IsAmount result.shrink }
    {
        if self.frozen.is_none() {
            return PageSums {
                total: 0,
                shrink: 0,
                goal: NO_GOAL,
            };
        }
        made_sums(self.course.scan.sums(), self.course.account.goal())
    }
}
