/// Why lists of hubs are not the labels of a network. Nodes are named by index.
#[derive(Clone, Copy)]
pub enum LabelFault {
    /// One of the lists hasn't one label for each node.
    Size,
    /// The label of the hubs that this node reaches isn't the one that the definition names; those of lower index are.
    Forward { node: u64 },
    /// The same of the hubs that reach this node; all labels of the other kind are right.
    Backward { node: u64 },
    /// There was no memory.
    OutOfMemory,
}
