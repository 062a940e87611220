//! What a node is in a page's list.

ghost use Rattle.std.specs.Prelude.{◌≡◌};
ghost use Rattle.tb_node.specs.Roles.{act_of_kind, act_of_role, insertion_of_kind, insertion_of_role};

use crate::{Kind, Node, Role};

impl Node {
    /// What the node is in a page's list.
    #[inline]
    pub fn role(&self) -> Role
        ensures insertion { insertion_of_role result ≡ insertion_of_kind self.now.kind }
        ensures act { act_of_role result ≡ act_of_kind self.now.kind }
    {
        match self.kind {
            Kind::Ins(insertion) => Role::Insertion(insertion),
            Kind::Act(act) => Role::Act(act),
            _ => Role::Matter,
        }
    }
}
