/// What a search knows of a node.
#[derive(Clone, Copy)]
pub(crate) struct Label {
    /// The number of the search that met it last.
    pub search: u32,
    /// The seconds of some way to it.
    pub seconds: u32,
}
