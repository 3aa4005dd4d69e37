/// An arc, as it is seen from the node that it leaves.
#[derive(Clone, Copy)]
pub struct Hop {
    /// The index of the node where it ends.
    pub to: usize,
    pub seconds: u32,
}
