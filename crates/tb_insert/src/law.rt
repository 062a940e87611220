//! The law of nodes that need no call of an account.
ghost use Rattle.tb_insert.specs.Law.{PlainNodesJoin};

/// A node that is no insertion goes to the end of a page without a call: an account of the page is one of the longer
/// page too.
pub fn plain_nodes_join()
    ensures { PlainNodesJoin }
{}
