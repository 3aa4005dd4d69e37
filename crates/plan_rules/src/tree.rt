ghost use Rattle.std.specs.Prelude.{◌≡◌, List};
ghost use Rattle.plan_rules.specs.declared.node.Node.{Node as NodeValue};

use crate::node::Node;
use std::marker::Model;

/// A search tree in preorder: after a branch comes the subtree where the vehicle has only that row,
/// then the subtree where it has its other rows.
#[derive(Drop)]
pub struct Tree {
    nodes: Vec<Node>,
}

impl Model for Tree {
    ghost Value = { List NodeValue };

    ghost view = { λ t. t.nodes.items };
}

impl Tree {
    /// The tree with these nodes, in preorder.
    pub fn of(nodes: Vec<Node>) -> Self
        ensures { result ≡ nodes.items }
    {
        Tree { nodes }
    }

    /// The nodes, in preorder.
    pub fn nodes(&self) -> &[Node]
        ensures { result.now ≡ self.now }
    {
        self.nodes.as_slice()
    }

    /// The nodes, in preorder.
    pub fn into_nodes(self) -> Vec<Node>
        ensures { result.items ≡ self }
    {
        self.nodes
    }
}
